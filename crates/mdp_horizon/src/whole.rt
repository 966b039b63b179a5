ghost use Rattle.std.specs.Prelude.{◌≡◌, ◌<◌, ◌≤◌, ◌^◌, pos, ◌+ℤ◌, ◌*ℤ◌, ◌<ℤ◌, unsigned_abs, IfSome};
ghost use Rattle.std.specs.Int.{int_div_euclid};
ghost use Rattle.mdp_math.specs.Written.{narrow};
ghost use Rattle.mdp_horizon.specs.Whole.{rounded, farther, opposite};

use mdp_rows::Dir;

/// The product, where its magnitude is at most 2 ^ 127 - 1.
pub(crate) fn times(a: i128, b: i128) -> Option<i128>
    ensures value { result ≡ narrow (a *ℤ b) }
    ensures narrow { IfSome result (λ product. unsigned_abs product < 2 ^ 127) }
{
    mdp_num::times(a, b).ok()
}

/// The sum, where its magnitude is at most 2 ^ 127 - 1.
pub(crate) fn plus(a: i128, b: i128) -> Option<i128>
    ensures value { result ≡ narrow (a +ℤ b) }
    ensures narrow { IfSome result (λ sum. unsigned_abs sum < 2 ^ 127) }
{
    mdp_num::plus(a, b).ok()
}

/// n/d, rounded down. Numbers of 64 bits are divided as such.
#[inline(always)]
fn quotient(n: i128, d: i128) -> i128
    requires { pos 0 <ℤ d }
    ensures { result ≡ int_div_euclid n d }
{
    match (i64::try_from(n), i64::try_from(d)) {
        (Ok(short), Ok(divisor)) => i128::from(short.div_euclid(divisor)),
        _ => n.div_euclid(d),
    }
}

/// n/d, rounded up for `Max` and down for `Min`.
#[inline(always)]
pub(crate) fn rounded(side: Dir, n: i128, d: i128) -> i128
    requires narrow { unsigned_abs n < 2 ^ 127 }
    requires positive { pos 0 <ℤ d }
    ensures { result ≡ rounded side n d }
{
    match side {
        Dir::Max => -quotient(-n, d),
        Dir::Min => quotient(n, d),
    }
}

/// n/d, rounded up for `Max` and down for `Min`; none where that has more than 64 bits.
#[inline(always)]
pub(crate) fn short_rounded(side: Dir, n: i128, d: i64) -> Option<i64>
    requires narrow { unsigned_abs n < 2 ^ 127 }
    requires positive { pos 0 <ℤ d }
    ensures { IfSome result (λ quotient. quotient ≡ rounded side n d) }
{
    i64::try_from(rounded(side, n, i128::from(d))).ok()
}

/// The greater number for `Max`, the smaller one for `Min`.
pub(crate) fn farther(side: Dir, x: i128, y: i128) -> i128
    ensures { result ≡ farther side x y }
{
    let is_farther = match side {
        Dir::Max => x < y,
        Dir::Min => y < x,
    };
    if is_farther { y } else { x }
}

/// The other direction.
pub(crate) fn opposite(dir: Dir) -> Dir
    ensures { result ≡ opposite dir }
{
    match dir {
        Dir::Max => Dir::Min,
        Dir::Min => Dir::Max,
    }
}

/// 10 ^ digits.
pub(crate) fn power_of_ten(digits: u32) -> i128
    requires { digits ≤ 30 }
    ensures value { result ≡ pos (10 ^ digits) }
    ensures positive { pos 0 <ℤ result }
{
    10i128.pow(digits)
}
