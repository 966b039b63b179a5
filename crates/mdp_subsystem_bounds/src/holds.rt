ghost use Rattle.std.specs.Prelude.{◌≡◌, ◌<◌, ◌↔◌, ◌∷◌, [], IfOk, length, map};
ghost use Rattle.mdp_spec.specs.Mdp.{states_of};
ghost use Rattle.mdp_farkas.specs.Verdict.{verdict_of, IsYes, IfYes};
ghost use Rattle.mdp_check.specs.Check.{after_init};
ghost use Rattle.mdp_subsystem_bounds.specs.{Cert.{is_kept, kept_states}, Rules.{ones, start_check, subsystem_checks, AreSubsystemBounds, Reaches}};

use crate::lists::SubsystemBounds;
use crate::mark::Mark;
use mdp_bounds::{holds_bounds_reach, value_stands};
use mdp_cert::{Column, column_of};
use mdp_farkas::{Rule, Verdict, judged_at, verdict_after};
use mdp_num::{Frac, Memory};
use mdp_rows::{Dir, Marks, Model};
use std::alloc::Global;

/// The column of the marks of kept states.
struct Kept;

impl Column<Mark> for Kept {
    type Item = bool;

    ghost field = { is_kept };

    fn of(mark: &Mark) -> bool {
        mark.is_kept()
    }
}

/// Which states have a mark that keeps them.
fn kept_marks(alloc: Global, marks: &[Mark]) -> Result<Marks, Memory>
    ensures { IfOk result (λ kept. kept ≡ kept_states marks.now) }
{
    Ok(Marks::from_values(column_of::<Kept, _>(alloc, marks)?))
}

/// The rule of the start: its lower value is at least the threshold. The comparison is exact, and never too wide.
fn start_verdict(lower: &[Frac], start: u32, threshold: &Frac) -> Verdict
    requires { start < length lower.now }
    ensures { result ≡ verdict_of (start_check start threshold.now lower.now ∷ []) }
{
    let reaches = value_stands(Dir::Max, &lower[start as usize], threshold);
    verdict_after(judged_at(Ok(reaches), Rule::StartReachesThreshold, None, None))
}

/// What the rules before that of the start say, where they don't hold; else what that one says.
fn with_start(before: Verdict, lower: &[Frac], start: u32, threshold: &Frac) -> Verdict
    requires { start < length lower.now }
    ensures { result ≡ after_init before (verdict_of (start_check start threshold.now lower.now ∷ [])) }
{
    match before {
        Verdict::Yes => start_verdict(lower, start, threshold),
        other => other,
    }
}

/// Whether lower values, a policy and ranks show that on the kept states alone the greatest, or the least, probability of reaching a goal from the
/// start is at least the threshold: what rules 2 to 8 say of them on the model of the kept states, and rule 24 at the end. Yes, the first rule that
/// is false with its place, or the place of the first sum past width where that comes before.
pub fn holds_subsystem_bounds(
    alloc: Global,
    model: &Model,
    goals: &Marks,
    start: u32,
    dir: Dir,
    threshold: Frac,
    lists: &SubsystemBounds,
) -> Result<Verdict, Memory>
    requires goals { length goals.now ≡ states_of model.now }
    requires start { start < states_of model.now }
    requires lower { length lists.now.bounds.lower.items ≡ states_of model.now }
    requires upper { length lists.now.bounds.upper.items ≡ states_of model.now }
    requires choices { length lists.now.bounds.choices.items ≡ states_of model.now }
    requires ranks { length lists.now.bounds.ranks.items ≡ states_of model.now }
    requires marks { length lists.now.marks.items ≡ states_of model.now }
    requires ones { lists.now.bounds.upper.items ≡ ones model.now }
    ensures verdict { IfOk result (λ v. v ≡ verdict_of (subsystem_checks dir model.now goals.now start threshold (kept_states lists.now.marks.items)
        lists.now.bounds.lower.items lists.now.bounds.choices.items lists.now.bounds.ranks.items)) }
    ensures rules { IfOk result (λ v. IsYes v ↔ AreSubsystemBounds dir model.now goals.now start threshold (kept_states lists.now.marks.items)
        lists.now.bounds.lower.items lists.now.bounds.choices.items lists.now.bounds.ranks.items) }
    ensures reaches { IfOk result (λ v. IfYes v (Reaches dir model.now goals.now (kept_states lists.now.marks.items) start threshold)) }
{
    model.known();
    let kept = kept_marks(alloc, &lists.marks)?;
    let part = model.cut(alloc, &kept, goals)?;
    let before = holds_bounds_reach(&part, goals, dir, &lists.bounds);
    Ok(with_start(before, &lists.bounds.lower, start, &threshold))
}
