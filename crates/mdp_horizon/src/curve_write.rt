ghost use Rattle.std.specs.Prelude.{◌≡◌, ◌<◌, ◌++◌, length, OnOk, OnErr};
ghost use Rattle.mdp_horizon.specs.{BoundsSpelling.{plain_claim}, CurveSpelling.{curve_text}};

use crate::claim::Claim;
use crate::curve_push::{push_curve_claim, push_curve_lines};
use crate::point::Point;
use mdp_num::Memory;
use mdp_rows::Dir;
use mdp_text::or_cut_back;

/// Appends the text of a curve: what was asked, the state, the number of steps, and a line for each longest run of numbers of steps with the same
/// values. After `Memory` the text is as before.
#[tactic(auto, unfolding(crate::specs::CurveSpelling::curve_text))]
pub fn write_curve(
    dir: Dir,
    claim: Claim<'_>,
    start: u32,
    curve: &[Point],
    out: &mut Vec<u8>,
) -> Result<(), Memory>
    requires { 0 < length curve.now }
    ensures text { OnOk result (out.new.items ≡ out.old.items ++ curve_text dir (plain_claim claim.entry) start curve.now) }
    ensures unchanged { OnErr result (out.new.items ≡ out.old.items) }
{
    let before = out.len();
    push_curve_claim(out, dir, claim)?;
    let answer = push_curve_lines(out, start, curve);
    or_cut_back(out, before, answer)
}
