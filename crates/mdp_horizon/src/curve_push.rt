ghost use Rattle.std.specs.Prelude.{◌≡◌, ◌<◌, ◌≤◌, ◌+◌, ◌-◌, ◌++◌, codes, length, OnOk, OnErr};
ghost use Rattle.mdp_text.specs.{Answer.{Keeps}, Spelling.{line, dir_text, end_text, init_text}, declared.init.Init.TheVariants.{Start}};
ghost use Rattle.mdp_horizon.specs.{BoundsSpelling.{plain_claim}, CurveSpelling.{version_text, claim_text, steps_text, same_value}};
ghost use Rattle.mdp_horizon.specs.CurveSpelling.{same_point, numbers_text, run_text, point_lines, steps_in};

use crate::bounds_push::{lower_part, upper_part};
use crate::claim::Claim;
use crate::point::Point;
use mdp_num::{Frac, Memory};
use mdp_rows::Dir;
use mdp_text::Part::{Bytes, Whole};
use mdp_text::{Init, push_end, push_init, push_parts};

/// The line of the version, and the words before what a claim is about.
fn front_of(dir: Dir) -> &'static [u8]
    ensures { result.now ≡ line version_text ++ (codes "claim " ++ (dir_text dir ++ codes " ")) }
{
    match dir {
        Dir::Max => b"mdp-curve 1\nclaim max ",
        Dir::Min => b"mdp-curve 1\nclaim min ",
    }
}

/// Appends the lines of the version and of the claim. After `Memory` the text is as before.
pub(crate) fn push_curve_claim(out: &mut Vec<u8>, dir: Dir, claim: Claim<'_>) -> Result<(), Memory>
    ensures text { OnOk result (out.new.items ≡ out.old.items ++ (line version_text ++ line (claim_text dir (plain_claim claim.entry)))) }
    ensures front { Keeps out.old.items out.new.items }
    ensures unchanged { OnErr result (out.new.items ≡ out.old.items) }
{
    let front = Bytes(front_of(dir));
    match claim {
        Claim::Until(stay, label) => push_parts(
            out,
            &[
                front,
                Bytes(b"until \""),
                Bytes(stay),
                Bytes(b"\" \""),
                Bytes(label),
                Bytes(b"\"\n"),
            ],
        ),
        Claim::Total(name) => {
            push_parts(
                out,
                &[front, Bytes(b"total \""), Bytes(name), Bytes(b"\"\n")],
            )
        }
    }
}

/// Whether two values are the same.
fn is_same_value(value: &Option<Frac>, other: &Option<Frac>) -> bool
    ensures { result ≡ same_value value.now other.now }
{
    match (value, other) {
        (Some(value), Some(other)) => value == other,
        (None, None) => true,
        _ => false,
    }
}

/// Whether two points are the same.
fn is_same(point: &Point, other: &Point) -> bool
    ensures { result ≡ same_point point.now other.now }
{
    is_same_value(&point.lower, &other.lower) && is_same_value(&point.upper, &other.upper)
}

/// Appends the numbers of steps from the first to the last.
fn push_numbers(out: &mut Vec<u8>, first: u64, last: u64) -> Result<(), Memory>
    requires { first ≤ last }
    ensures text { OnOk result (out.new.items ≡ out.old.items ++ numbers_text first (last - first)) }
    ensures front { Keeps out.old.items out.new.items }
{
    if first == last {
        return push_parts(out, &[Bytes(b"step "), Whole(first)]);
    }
    push_parts(
        out,
        &[Bytes(b"run "), Whole(first), Bytes(b" "), Whole(last)],
    )
}

/// Appends the line of the numbers of steps from the first to the last.
fn push_run(out: &mut Vec<u8>, first: u64, last: u64, point: &Point) -> Result<(), Memory>
    requires { first ≤ last }
    ensures text { OnOk result (out.new.items ≡ out.old.items ++ line (run_text first (last - first) point.now)) }
    ensures front { Keeps out.old.items out.new.items }
{
    push_numbers(out, first, last)?;
    push_parts(
        out,
        &[
            Bytes(b" "),
            lower_part(&point.lower),
            Bytes(b" "),
            upper_part(&point.upper),
            Bytes(b"\n"),
        ],
    )
}

/// Appends the lines of the numbers of steps.
fn push_points(out: &mut Vec<u8>, curve: &[Point]) -> Result<(), Memory>
    requires { 0 < length curve.now }
    ensures text { OnOk result (out.new.items ≡ out.old.items ++ point_lines curve.now) }
    ensures front { Keeps out.old.items out.new.items }
{
    let mut first = 0;
    for k in 1..curve.len() {
        if !is_same(&curve[first], &curve[k]) {
            push_run(out, first as u64, (k - 1) as u64, &curve[first])?;
            first = k;
        }
    }
    push_run(out, first as u64, (curve.len() - 1) as u64, &curve[first])
}

/// Appends the lines behind the claim.
pub(crate) fn push_curve_lines(out: &mut Vec<u8>, start: u32, curve: &[Point]) -> Result<(), Memory>
    requires { 0 < length curve.now }
    ensures text { OnOk result (out.new.items ≡ out.old.items
        ++ (line (init_text (Start start)) ++ (line (steps_text (steps_in curve.now)) ++ (point_lines curve.now ++ line end_text)))) }
    ensures front { Keeps out.old.items out.new.items }
{
    push_init(out, &Init::Start(start))?;
    push_parts(
        out,
        &[
            Bytes(b"steps "),
            Whole((curve.len() - 1) as u64),
            Bytes(b"\n"),
        ],
    )?;
    push_points(out, curve)?;
    push_end(out)
}
