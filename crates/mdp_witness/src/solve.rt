ghost use Rattle.std.specs.{Prelude.{◌≡◌, ◌<◌, length, pos, true, Some, Ok, IfOk, IfErr}, Result.{result_ok}};
ghost use Rattle.mdp_math.specs.Rational.{◌≤ℚ◌, of_int};
ghost use Rattle.mdp_spec.specs.{Bounds.{SubMax, SubMin}, Mdp.{states_of, value_at}};
ghost use Rattle.mdp_rows.specs.declared.dir.Dir.TheVariants.{Max, Min};
ghost use Rattle.mdp_farkas.specs.Compare.{is_at_least};
ghost use Rattle.mdp_reach.specs.Query as reach;
ghost use Rattle.mdp_witness.specs.{Query.{EndsSo, FromFirst}, Code.{plain, Answers, IfBelow}};
ghost use Rattle.mdp_witness.specs.Shown.{kept_in, HasShape, Holds, PolicyReaches, IsNeededMax, IsNeededMin, AreNeeded, IsBestBelow};
ghost use Rattle.mdp_witness.specs.Shown.{MarksAreExactMax, MarksAreExactMin};

use crate::greatest::flow_witness;
use crate::laws::witness_law;
use crate::least::floor_witness;
use crate::subsystem::{Subsystem, WitnessError};
use mdp_farkas::ReachCert;
use mdp_graph::avoid_law;
use mdp_num::{Frac, Wide};
use mdp_policy_iteration::path_law;
use mdp_reach::{ReachEnd, solve_reach_to_end};
use mdp_rows::{Dir, Marks, Model};
use mdp_wide::{Kind, Part, TooWide};
use std::alloc::Global;
use std::cmp::Ordering;

/// The value of state `s`.
fn value_of(values: &[Frac], s: u32) -> Frac
    requires { s < length values.now }
    ensures { result ≡ value_at values.now s }
{
    values[s as usize]
}

/// Whether a value is at least the threshold. `Wide` where a written term of the comparison is past width.
fn is_at_least(value: &Frac, threshold: &Frac) -> Result<bool, Wide>
    ensures { result_ok result ≡ is_at_least value.now threshold.now }
{
    let order = value.compare(threshold)?;
    Ok(order != Ordering::Less)
}

/// The subsystem, from the answer to the query of the model, whose value at the start is at least the threshold.
fn from_first(
    alloc: Global,
    model: &Model,
    goals: &Marks,
    start: u32,
    dir: Dir,
    threshold: Frac,
    whole: ReachCert,
) -> Result<Subsystem, WitnessError>
    requires goals { length goals.now ≡ states_of model.now }
    requires start { start < states_of model.now }
    requires solved { reach.EndsSo dir model.now goals.now (Ok (reach.plain whole)) }
    requires reaches { is_at_least (value_at whole.values.items start) threshold ≡ Some true }
    ensures { Answers plain (FromFirst model.now goals.now start threshold dir (reach.plain whole)) result }
{
    match dir {
        Dir::Max => {
            let cert = flow_witness(alloc, model, goals, start, threshold, whole)?;
            Ok(Subsystem::Max(cert))
        }
        Dir::Min => {
            let cert = floor_witness(alloc, model, goals, start, threshold, &whole)?;
            Ok(Subsystem::Min(cert))
        }
    }
}

/// A subsystem on which the best probability of reaching a goal from `start` is still at least `threshold`, with a certificate that shows it: for
/// the greatest probability that some policy reaches it, for the least one that each does. No single state more can go, but for those marked as
/// wide, in whose trial a term was past width. `Below` where the best probability of the model is less than the threshold, `TooWide` at the first
/// written term past width outside trials.
pub fn witness(
    alloc: Global,
    model: &Model,
    goals: &Marks,
    start: u32,
    dir: Dir,
    threshold: Frac,
) -> Result<Subsystem, WitnessError>
    requires goals { length goals.now ≡ states_of model.now }
    requires start { start < states_of model.now }
    requires threshold { of_int (pos 0) ≤ℚ threshold }
    ensures path { Answers plain (EndsSo dir model.now goals.now start threshold) result }

    // What is found: its certificate, its subsystem, its policy, that each of its states is needed, and its marks.
    ensures shape { IfOk result (λ found. HasShape dir model.now (plain found)) }
    ensures holds { IfOk result (λ found. Holds dir model.now goals.now start threshold (plain found)) }
    ensures sub_max { dir ≡ Max → IfOk result (λ found. SubMax model.now goals.now (kept_in model.now (plain found)) start threshold) }
    ensures sub_min { dir ≡ Min → IfOk result (λ found. SubMin model.now goals.now (kept_in model.now (plain found)) start threshold) }
    ensures policy { dir ≡ Max → IfOk result (λ found. PolicyReaches model.now goals.now start threshold (plain found)) }
    ensures needed_max { dir ≡ Max → IfOk result (λ found. AreNeeded (IsNeededMax model.now goals.now start threshold) model.now (plain found)) }
    ensures needed_min { dir ≡ Min → IfOk result (λ found. AreNeeded (IsNeededMin model.now goals.now start threshold) model.now (plain found)) }
    ensures wide_max { dir ≡ Max → IfOk result (λ found. MarksAreExactMax model.now goals.now start threshold (plain found)) }
    ensures wide_min { dir ≡ Min → IfOk result (λ found. MarksAreExactMin model.now goals.now start threshold (plain found)) }

    // What is said where there is none.
    ensures below { IfErr result (λ error. IfBelow error (IsBestBelow dir model.now goals.now start threshold)) }
{
    model.known();
    avoid_law();
    path_law();
    witness_law();
    let ReachEnd { cert, round } = solve_reach_to_end(alloc, model, goals, dir)?;
    let value = value_of(&cert.values, start);
    match is_at_least(&value, &threshold) {
        Ok(true) => from_first(alloc, model, goals, start, dir, threshold, cert),
        Ok(false) => Err(WitnessError::Below(value)),
        Err(Wide) => Err(WitnessError::TooWide(TooWide {
            part: Part::Whole,
            round,
            policy: cert.choices,
            kind: Kind::Compare,
            state: Some(start),
            choice: None,
        })),
    }
}
