ghost use Rattle.std.specs.Prelude.{◌≡◌, ◌<◌, length, true, Some, Ok, IfOk};
ghost use Rattle.mdp_spec.specs.Mdp.{states_of, value_at};
ghost use Rattle.mdp_rows.specs.declared.dir.Dir.TheVariants.{Min};
ghost use Rattle.mdp_farkas.specs.Compare.{is_at_least};
ghost use Rattle.mdp_subsystem_rules.specs.{FloorChecks.{HoldsFloor}, Shape.{IsFloorShape}};
ghost use Rattle.mdp_reach.specs.Query.{EndsSo, plain};
ghost use Rattle.mdp_witness.specs.{Query.{floor_of, FromFirst}, Code.{plain_floor, in_floor, Answers}};

use crate::first::Query;
use crate::listing::{listed, marks_at, ranks_at, values_at};
use crate::min_trials::{MinLeft, Subsystems};
use crate::subsystem::WitnessError;
use crate::trial_laws::{first_law, kept_law};
use mdp_farkas::{ReachCert, Verdict};
use mdp_graph::avoid_law;
use mdp_num::{Frac, Memory};
use mdp_policy_iteration::path_law;
use mdp_reach::query_law;
use mdp_rows::{Dir, Marks, Model};
use mdp_subsystem_rules::{FloorCert, fewer_law, holds_floor, listed_law};
use mdp_wide::{Part, SolveError, TooWide};
use std::alloc::Global;

/// The certificate of what the trials leave: the kept states, those of them that are marked as wide, and their values and ranks.
fn floor_cert(alloc: Global, model: &Model, left: &MinLeft) -> Result<FloorCert, Memory>
    requires kept { length left.now.kept ≡ states_of model.now }
    requires wide { length left.now.wide ≡ states_of model.now }
    requires values { length left.now.last.values.items ≡ states_of model.now }
    requires ranks { length left.now.last.ranks.items ≡ states_of model.now }
    ensures { IfOk result (λ cert. plain_floor cert ≡ floor_of model.now left.now.kept left.now.wide (plain left.now.last)) }
{
    let kept = listed(alloc, model.states(), &left.kept)?;
    let wide = marks_at(alloc, &left.wide, &kept)?;
    let values = values_at(alloc, &left.last.values, &kept)?;
    let ranks = ranks_at(alloc, &left.last.ranks, &kept)?;
    Ok(FloorCert {
        kept,
        wide,
        values,
        ranks,
    })
}

/// A certificate that holds, once it was held against the rules.
fn held(model: &Model, goals: &Marks, start: u32, threshold: Frac, cert: FloorCert) -> FloorCert
    requires goals { length goals.now ≡ states_of model.now }
    requires start { start < states_of model.now }
    requires shape { IsFloorShape model.now cert.kept.items cert.wide.items cert.values.items cert.ranks.items }
    requires holds { HoldsFloor model.now goals.now start threshold cert.kept.items cert.values.items cert.ranks.items }
    ensures { result ≡ cert }
{
    match holds_floor(model, goals, start, threshold, &cert) {
        Verdict::Yes => cert,
        Verdict::No(_) => unreachable!(),
        Verdict::Wide {
            state: _,
            choice: _,
        } => unreachable!(),
    }
}

/// A term past width in the query of the first set's subsystem.
fn in_floor(error: SolveError) -> WitnessError
    ensures { result ≡ in_floor error }
{
    match error {
        SolveError::TooWide(
            TooWide {
                part: _,
                round,
                policy,
                kind,
                state,
                choice,
            },
        ) => WitnessError::TooWide(TooWide {
            part: Part::Floor,
            round,
            policy,
            kind,
            state,
            choice,
        }),
        SolveError::Memory => WitnessError::Memory,
    }
}

/// The subsystem for the least probability, from the answer to the query of the model, whose value at the start is at least the threshold.
pub(crate) fn floor_witness(
    alloc: Global,
    model: &Model,
    goals: &Marks,
    start: u32,
    threshold: Frac,
    whole: &ReachCert,
) -> Result<FloorCert, WitnessError>
    requires goals { length goals.now ≡ states_of model.now }
    requires start { start < states_of model.now }
    requires solved { EndsSo Min model.now goals.now (Ok (plain whole.now)) }
    requires reaches { is_at_least (value_at whole.now.values.items start) threshold ≡ Some true }
    ensures { Answers plain_floor (FromFirst model.now goals.now start threshold Min (plain whole.now)) result }
{
    model.known();
    avoid_law();
    path_law();
    query_law();
    first_law();
    kept_law();
    listed_law();
    fewer_law();
    let query = Query {
        dir: Dir::Min,
        model,
        goals,
        values: whole.values.as_slice(),
        policy: whole.choices.as_slice(),
    };
    let first = query.first_set(alloc, start)?;
    let subsystems = Subsystems {
        model,
        goals,
        start,
    };
    let found = match subsystems.evaluate(alloc, &first) {
        Ok(found) => found,
        Err(error) => return Err(in_floor(error)),
    };
    let left = subsystems.trials(alloc, &threshold, first, found)?;
    let cert = floor_cert(alloc, model, &left)?;
    Ok(held(model, goals, start, threshold, cert))
}
