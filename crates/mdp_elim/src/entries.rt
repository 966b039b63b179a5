ghost use Rattle.std.specs.{Prelude.{ℕ, ◌≡◌, ◌≢◌, ◌<◌, ◌≤◌, ◌+◌, length, take, drop, Some, None, OnOk, OnErr, IfOk, IfSome, pos}, List.{All}};
ghost use Rattle.std.specs.Result.{result_ok};
ghost use Rattle.mdp_spec.specs.Written.{written_sum};
ghost use Rattle.mdp_math.specs.Rational.{of_int};
ghost use Rattle.mdp_elim.specs.Entries.{Between, LeadsAt, reach, StartsNew, place, entry_to, without, each, divided_entry, plus_row, after};
ghost use Rattle.mdp_elim.specs.Entries.{MergesTo, IsTooWide};

use crate::errors::StepError;
use crate::sums::plus_times;
use mdp_num::{Frac, Wide};
use mdp_wide::Unfinished;
use std::alloc::Global;
use std::marker::Model;

/// An entry of an equation: a factor of the value of its target.
#[derive(Clone, Copy)]
pub(crate) struct Term {
    target: u32,
    factor: Frac,
}

impl Model for Term {
    ghost use Rattle.mdp_spec.specs.Mdp.{Entry};
    ghost use Rattle.mdp_rows.specs.Code.{entry_code};

    ghost Value = { Entry };

    ghost coded = { entry_code };

    ghost view = { λ t. record { target = t.target; prob = t.factor } };

    ghost inverse = { λ x. record { target = x.target; factor = x.prob } };
}

impl Term {
    /// A factor of the value of this target.
    pub(crate) fn new(target: u32, factor: Frac) -> Term
        ensures { result ≡ record { target = target; prob = factor } }
    {
        Term { target, factor }
    }

    pub(crate) fn target(&self) -> u32
        ensures { result ≡ self.now.target }
    {
        self.target
    }

    pub(crate) fn factor(&self) -> Frac
        ensures { result ≡ self.now.prob }
    {
        self.factor
    }
}

/// The place of the first entry to `target` or a greater state, or the row's length.
fn place(row: &[Term], target: u32) -> usize
    ensures { result ≡ place target row.now }
{
    for (i, x) in row.iter().enumerate() {
        if target <= x.target() {
            return i;
        }
    }
    row.len()
}

/// The entry to `s` of a row without entries to greater states: it can only be the last one.
#[tactic(auto, using(crate::proofs::Merge::last_found, crate::proofs::Merge::last_other, crate::proofs::Merge::none_empty))]
fn last_entry(row: &[Term], s: u32) -> Option<Frac>
    requires { Between 0 (s + 1) row.now }
    ensures { result ≡ entry_to s row.now }
{
    match row.split_last() {
        Some((x, _)) if x.target() == s => Some(x.factor()),
        _ => None,
    }
}

/// The greatest target above `low` of a row whose targets ascend.
#[tactic(auto, using(crate::proofs::Reach::reach_found, crate::proofs::Reach::reach_empty))]
pub(crate) fn greatest_above(row: &[Term], low: u32) -> Option<u32>
    ensures some { IfSome result (λ s. (low < s) × (reach row.now ≡ s + 1)) }
    ensures none { result ≡ None → reach row.now ≤ low + 1 }
{
    match row.split_last() {
        Some((x, _)) if x.target() > low => Some(x.target()),
        _ => None,
    }
}

/// Takes out the entry to `s` of a row without entries to greater states, where there is one.
pub(crate) fn take_entry(row: &mut Vec<Term>, s: u32) -> Option<Frac>
    requires { Between 0 (s + 1) row.old.items }
    ensures entry { result ≡ entry_to s row.old.items }
    ensures rest { row.new.items ≡ without s row.old.items }
{
    match last_entry(row, s) {
        Some(own) => {
            row.pop();
            Some(own)
        }
        None => None,
    }
}

/// Divides each entry.
pub(crate) fn divide_row(row: &mut [Term], divisor: &Frac) -> Result<(), Wide>
    requires { divisor.now ≢ of_int (pos 0) }
    ensures ok { OnOk result (each (divided_entry divisor.now) row.old ≡ Some row.new) }
    ensures wide { OnErr result (each (divided_entry divisor.now) row.old ≡ None) }
{
    for i in 0..row.len() {
        let x = &row[i];
        let quotient = x.factor().div(divisor)?;
        row[i] = Term::new(x.target(), quotient);
    }
    Ok(())
}

/// The factor of the entry to `target`, which can only be the first one, and the entries behind it.
fn split_entry(row: &[Term], target: u32) -> (Option<Frac>, &[Term])
    requires { place target row.now ≡ 0 }
    ensures entry { result.0 ≡ entry_to target row.now }
    ensures rest { result.1.now ≡ without target row.now }
{
    match row.split_first() {
        Some((x, rest)) if x.target() == target => (Some(x.factor()), rest),
        _ => (None, row),
    }
}

/// A row at a target: the entries to smaller states, the factor of the entry to the target where there is one, and the entries behind it.
#[derive(Drop)]
struct Split<'r> {
    before: &'r [Term],
    entry: Option<Frac>,
    behind: &'r [Term],
}

/// Splits a row at a target.
#[tactic(auto, using(crate::proofs::Merge::place_le, crate::proofs::Merge::place_rest))]
fn split_row(row: &[Term], target: u32) -> Split<'_>
    ensures before { result.before.now ≡ take (place target row.now) row.now }
    ensures entry { result.entry ≡ entry_to target (drop (place target row.now) row.now) }
    ensures behind { result.behind.now ≡ without target (drop (place target row.now) row.now) }
{
    let (before, here) = row.split_at(place(row, target));
    let (entry, behind) = split_entry(here, target);
    Split {
        before,
        entry,
        behind,
    }
}

/// The index of the entry to `target` in a row whose targets ascend, where there is one.
pub(crate) fn find(row: &[Term], target: u32) -> Option<usize>
    ensures found { IfSome result (LeadsAt target row.now) }
    ensures none { result ≡ None → (high : ℕ) → Between 0 high row.now → entry_to target row.now ≡ None }
{
    row.binary_search_by_key(&target, |x| x.target()).ok()
}

/// Appends what a row has before the target of `x`, and at this target so many times `x` more. Gives the entries behind.
fn merge_entry<'r>(
    sums: &mut Vec<Term>,
    row: &'r [Term],
    times: &Frac,
    x: &Term,
) -> Result<&'r [Term], StepError>
    ensures ok { IfOk result (λ behind. MergesTo times.now x.now row.now sums.old.items behind.now sums.new.items) }
    ensures wide { result ≡ Err (Unfinished.TooWide tt) → IsTooWide times.now x.now row.now }
{
    let split = split_row(row, x.target());
    sums.extend_from_slice(split.before)?;
    let more = times.mul(&x.factor())?;
    let sum = split.entry.unwrap_or(Frac::whole(0)).add(&more)?;
    sums.push(Term::new(x.target(), sum))?;
    Ok(split.behind)
}

/// A row and so many times each entry of another, merged.
fn merged(
    alloc: Global,
    row: &[Term],
    times: &Frac,
    source: &[Term],
) -> Result<Vec<Term>, StepError>
    requires { (high : ℕ) × Between 0 high source.now }
    ensures ok { IfOk result (λ sums. plus_row times.now source.now row.now ≡ Some sums.items) }
    ensures wide { result ≡ Err (Unfinished.TooWide tt) → plus_row times.now source.now row.now ≡ None }
{
    let mut sums = Vec::new(alloc);
    sums.reserve(row.len() + source.len())?;
    let mut rest = row;
    for x in source {
        rest = merge_entry(&mut sums, rest, times, x)?;
    }
    sums.extend_from_slice(rest)?;
    Ok(sums)
}

/// Adds so many times each entry of another row, up to the first one to whose target the row has no entry. Gives the entries from this one on.
fn add_known<'s>(row: &mut [Term], times: &Frac, source: &'s [Term]) -> Result<&'s [Term], Wide>
    requires row { (high : ℕ) × Between 0 high row.old }
    requires source { (high : ℕ) × Between 0 high source.now }
    ensures ok { IfOk result (λ left. plus_row times.now source.now row.old ≡ plus_row times.now left.now row.new) }
    ensures left { IfOk result (λ left. (high : ℕ) × Between 0 high left.now) }
    ensures new { IfOk result (λ left. StartsNew left.now row.new) }
    ensures wide { OnErr result (plus_row times.now source.now row.old ≡ None) }
{
    let mut left = source;
    while let Some((x, rest)) = left.split_first() {
        let Some(at) = find(row, x.target()) else {
            break;
        };
        let more = times.mul(&x.factor())?;
        let sum = row[at].factor().add(&more)?;
        row[at] = Term::new(x.target(), sum);
        left = rest;
    }
    Ok(left)
}

/// Adds so many times each entry of another row: in place as far as the row has entries to the same targets, and else by a merge.
pub(crate) fn add_row(
    alloc: Global,
    row: &mut Vec<Term>,
    times: &Frac,
    source: &[Term],
) -> Result<(), StepError>
    requires row { (high : ℕ) × Between 0 high row.old.items }
    requires source { (high : ℕ) × Between 0 high source.now }
    ensures ok { OnOk result (plus_row times.now source.now row.old.items ≡ Some row.new.items) }
    ensures wide { result ≡ Err (Unfinished.TooWide tt) → plus_row times.now source.now row.old.items ≡ None }
{
    let left = add_known(row, times, source)?;
    if left.is_empty() {
        return Ok(());
    }
    *row = merged(alloc, row, times, left)?;
    Ok(())
}

/// `start`, and for each entry its factor times the value of its target, added in the order of the entries.
pub(crate) fn row_sum(row: &[Term], start: &Frac, values: &[Frac]) -> Result<Frac, Wide>
    requires { All (λ x. x.target < length values.now) row.now }
    ensures { result_ok result ≡ written_sum values.now start.now row.now }
{
    let mut sum = *start;
    for x in row {
        sum = plus_times(&sum, &x.factor(), &values[x.target() as usize])?;
    }
    Ok(sum)
}
