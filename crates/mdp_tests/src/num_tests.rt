use mdp_num::{Frac, read_canonical};
use std::alloc::Global;

const WIDTH: i128 = 170141183460469231731687303715884105727;

/// Whether a text is that of this fraction, and what the fraction prints.
fn reads_back(alloc: Global, text: &str, num: i128, den: i128) -> bool {
    let Some(fraction) = read_canonical(text.as_bytes()) else {
        return false;
    };
    let mut out = Vec::new(alloc);
    fraction.num() == num
        && fraction.den() == den
        && fraction.push_text(&mut out).is_ok()
        && out.as_slice() == text.as_bytes()
}

fn each_reads_back(alloc: Global) -> bool {
    reads_back(alloc, "0", 0, 1)
        && reads_back(alloc, "-7", -7, 1)
        && reads_back(alloc, "1/2", 1, 2)
        && reads_back(alloc, "-10/3", -10, 3)
        && reads_back(alloc, "170141183460469231731687303715884105727", WIDTH, 1)
        && reads_back(alloc, "-170141183460469231731687303715884105727", -WIDTH, 1)
        && reads_back(alloc, "1/170141183460469231731687303715884105727", 1, WIDTH)
}

#[test]
fn reads_back_what_it_prints(rt: HostRuntime) {
    assert!(rt; each_reads_back(rt.alloc()));
}

fn half_shares() -> bool {
    let Some(half) = read_canonical(b"1/2") else {
        return false;
    };
    half.over(6) == Some(3)
        && half.over(3).is_none()
        && half.common_multiple(9) == Some(18)
        && Frac::of_terms(9, 18) == half
}

#[test]
fn shares_denominators(rt: HostRuntime) {
    assert!(rt; half_shares());
}
