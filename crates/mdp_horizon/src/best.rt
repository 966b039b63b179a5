ghost use Rattle.std.specs.Prelude.{◌≡◌, ◌<◌, ◌^◌, length, Some, pos, ◌<ℤ◌, unsigned_abs, false};
ghost use Rattle.mdp_horizon.specs.Columns.{covered, covered_with, covered_from, followed, followed_from, judged, is_ahead};
ghost use Rattle.mdp_horizon.specs.{Scaled.{rounded_sum}, Whole.{rounded, farther, opposite}, Past.{IsReached}};
ghost use Rattle.mdp_horizon.specs.BoundsCode.{plain_choice, plain_choices, values_of, IsReady, AreReady};

use crate::choice::{Choices, ScaledChoice};
use crate::column::Column;
use crate::leader::Leader;
use crate::short_best::{short_covered, short_followed};
use crate::whole::{farther, opposite, rounded, times};
use mdp_rows::Dir;

/// Whether `new` is strictly better than `old`.
#[inline(always)]
pub(crate) fn is_better(dir: Dir, new: i128, old: i128) -> bool
    ensures { result ≡ is_ahead dir (Some new) (Some old) }
{
    match dir {
        Dir::Max => old < new,
        Dir::Min => new < old,
    }
}

/// Whether n/d may lie strictly beyond `far`. Where it doesn't, it needn't be divided.
fn is_past(dir: Dir, far: i128, n: i128, d: i128) -> bool
    ensures { result ≡ false → IsReached dir far n d }
{
    match times(far, d) {
        Some(limit) => is_better(dir, n, limit),
        None => true,
    }
}

/// The quotient n/d, rounded, where it lies farther than `far`.
fn farther_quotient(dir: Dir, far: i128, n: i128, d: i128) -> i128
    requires narrow { unsigned_abs n < 2 ^ 127 }
    requires positive { pos 0 <ℤ d }
    ensures { result ≡ farther dir far (rounded dir n d) }
{
    let past = is_past(dir, far, n, d);
    if past {
        farther(dir, far, rounded(dir, n, d))
    } else {
        far
    }
}

/// The sum of a choice, where it lies farther than `far`.
fn covered_with(dir: Dir, column: &Column, far: i128, choice: &ScaledChoice<'_>) -> Option<i128>
    requires { IsReady (length (values_of column.now)) (plain_choice choice.now) }
    ensures { result ≡ covered_with dir (values_of column.now) far (plain_choice choice.now) }
{
    match choice.summed(column) {
        Some(sum) => Some(farther_quotient(dir, far, sum, choice.scale.common)),
        None => Some(farther(dir, far, choice.trivial(dir, column)?)),
    }
}

/// The farthest of the choices' sums, rounded; none where one of them is missing.
#[inline(never)]
fn wide_covered(dir: Dir, column: &Column, choices: &Choices<'_>) -> Option<i128>
    requires some { 0 < length (plain_choices choices.now) }
    requires ready { AreReady (length (values_of column.now)) (plain_choices choices.now) }
    ensures { result ≡ covered dir (values_of column.now) (plain_choices choices.now) }
{
    let mut far = choices.at(0).rounded_sum(dir, column)?;
    for c in 1..choices.len() {
        let choice = choices.at(c);
        far = covered_with(dir, column, far, &choice)?;
    }
    Some(far)
}

/// The same, in numbers of 64 bits where all are.
pub(crate) fn covered(dir: Dir, column: &Column, choices: &Choices<'_>) -> Option<i128>
    requires some { 0 < length (plain_choices choices.now) }
    requires ready { AreReady (length (values_of column.now)) (plain_choices choices.now) }
    ensures { result ≡ covered dir (values_of column.now) (plain_choices choices.now) }
{
    if let (Choices::Short(short), Column::Short(values)) = (choices, column) {
        if let Some(far) = short_covered(dir, values, short) {
            return Some(i128::from(far));
        }
    }
    wide_covered(dir, column, choices)
}

/// Whether a sum is strictly better than another one; a missing one is worse than each.
fn is_ahead(dir: Dir, new: Option<i128>, old: Option<i128>) -> bool
    ensures { result ≡ is_ahead dir new old }
{
    let Some(new) = new else {
        return false;
    };
    let Some(old) = old else {
        return true;
    };
    match dir {
        Dir::Max => old < new,
        Dir::Min => new < old,
    }
}

/// The leader after the sum of choice `c`.
fn judged(dir: Dir, c: u32, leader: Leader, sum: Option<i128>) -> Leader
    ensures { result ≡ judged dir c leader sum }
{
    if is_ahead(dir, sum, leader.value) {
        return Leader {
            value: sum,
            choice: c,
        };
    }
    leader
}

/// The leader after the quotient n/d of choice `c`, rounded the other way.
fn judged_quotient(dir: Dir, c: u32, leader: Leader, n: i128, d: i128) -> Leader
    requires narrow { unsigned_abs n < 2 ^ 127 }
    requires positive { pos 0 <ℤ d }
    ensures { result ≡ judged dir c leader (Some (rounded (opposite dir) n d)) }
{
    if let Some(far) = leader.value {
        let past = is_past(dir, far, n, d);
        if !past {
            return leader;
        }
    }
    judged(dir, c, leader, Some(rounded(opposite(dir), n, d)))
}

/// The leader after the sum of choice `c`, rounded the other way.
fn judged_sum(
    dir: Dir,
    column: &Column,
    c: u32,
    leader: Leader,
    choice: &ScaledChoice<'_>,
) -> Leader
    requires { IsReady (length (values_of column.now)) (plain_choice choice.now) }
    ensures { result ≡ judged dir c leader (rounded_sum (opposite dir) (values_of column.now) (plain_choice choice.now)) }
{
    match choice.summed(column) {
        Some(sum) => judged_quotient(dir, c, leader, sum, choice.scale.common),
        None => judged(dir, c, leader, choice.trivial(opposite(dir), column)),
    }
}

/// The first choice with the best sum, rounded the other way.
#[inline(never)]
fn wide_followed(dir: Dir, column: &Column, choices: &Choices<'_>, count: u32) -> Leader
    requires some { 0 < length (plain_choices choices.now) }
    requires count { count ≡ length (plain_choices choices.now) }
    requires ready { AreReady (length (values_of column.now)) (plain_choices choices.now) }
    ensures { result ≡ followed dir (values_of column.now) (plain_choices choices.now) }
{
    let mut leader = Leader {
        value: choices.at(0).rounded_sum(opposite(dir), column),
        choice: 0,
    };
    for c in 1..count {
        let choice = choices.at(c as usize);
        leader = judged_sum(dir, column, c, leader, &choice);
    }
    leader
}

/// The same, in numbers of 64 bits where all are.
pub(crate) fn followed(dir: Dir, column: &Column, choices: &Choices<'_>, count: u32) -> Leader
    requires some { 0 < length (plain_choices choices.now) }
    requires count { count ≡ length (plain_choices choices.now) }
    requires ready { AreReady (length (values_of column.now)) (plain_choices choices.now) }
    ensures { result ≡ followed dir (values_of column.now) (plain_choices choices.now) }
{
    if let (Choices::Short(short), Column::Short(values)) = (choices, column) {
        if let Some(leader) = short_followed(dir, values, short, count) {
            return leader.widened();
        }
    }
    wide_followed(dir, column, choices, count)
}
