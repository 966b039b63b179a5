ghost use Rattle.std.specs.Prelude.{◌≡◌, ◌<◌, length, true, Some, Ok, Err, IfOk};
ghost use Rattle.mdp_spec.specs.Mdp.{states_of, value_at};
ghost use Rattle.mdp_rows.specs.declared.dir.Dir.TheVariants.{Max};
ghost use Rattle.mdp_farkas.specs.Compare.{is_at_least};
ghost use Rattle.mdp_subsystem_rules.specs.{Flow.{MeetsFlow}, Kept.{kept_marks}, Shape.{IsFlowShape}};
ghost use Rattle.mdp_reach.specs.Query.{EndsSo};
ghost use Rattle.mdp_reach.specs.Query as reach;
ghost use Rattle.mdp_witness.specs.{EvaluationCode.{plain}, Query.{too_wide, visiting, flow_of, verdict_on, FlowHeld, FromFirst}};
ghost use Rattle.mdp_witness.specs.Code.{plain_flow, Answers};

use crate::first::Query;
use crate::listing::{flows_of, listed, marks_at};
use crate::max_trials::MaxLeft;
use crate::subsystem::WitnessError;
use crate::trial_laws::kept_law;
use crate::visited::Policy;
use mdp_elim::ElimError;
use mdp_farkas::{ReachCert, Verdict};
use mdp_graph::avoid_law;
use mdp_num::{Frac, Memory};
use mdp_policy_iteration::path_law;
use mdp_reach::query_law;
use mdp_rows::{Dir, Marks, Model};
use mdp_subsystem_rules::{FlowCert, holds_flow, listed_law, never_no_law};
use mdp_wide::{Kind, Part, TooWide};
use std::alloc::Global;

/// The certificate of what the trials leave: the kept states, those of them that are marked as wide, and the flows of their visits.
fn flow_cert(
    alloc: Global,
    model: &Model,
    policy: &[u32],
    left: &MaxLeft,
) -> Result<FlowCert, Memory>
    requires policy { length policy.now ≡ states_of model.now }
    requires kept { length left.now.kept ≡ states_of model.now }
    requires wide { length left.now.wide ≡ states_of model.now }
    requires visits { length left.now.last.visits.items ≡ states_of model.now }
    ensures { IfOk result (λ cert. plain_flow cert ≡ flow_of model.now policy.now left.now.kept left.now.wide (plain left.now.last)) }
{
    let states = model.states();
    let kept = listed(alloc, states, &left.kept)?;
    let wide = marks_at(alloc, &left.wide, &kept)?;
    let flows = flows_of(alloc, states, policy, &left.last.visits)?;
    Ok(FlowCert { kept, wide, flows })
}

/// A certificate that meets the rules, where no term of its check is past width.
fn held(
    alloc: Global,
    model: &Model,
    goals: &Marks,
    start: u32,
    threshold: Frac,
    policy: Vec<u32>,
    cert: FlowCert,
) -> Result<FlowCert, WitnessError>
    requires goals { length goals.now ≡ states_of model.now }
    requires start { start < states_of model.now }
    requires shape { IsFlowShape model.now cert.kept.items cert.wide.items cert.flows.items }
    requires rules { MeetsFlow model.now goals.now (kept_marks (states_of model.now) cert.kept.items) cert.flows.items start threshold }
    ensures { Answers plain_flow (FlowHeld policy.items (plain_flow cert) (verdict_on model.now goals.now start threshold (plain_flow cert))) result }
{
    never_no_law();
    match holds_flow(alloc, model, goals, start, threshold, &cert)? {
        Verdict::Yes => Ok(cert),
        Verdict::No(_) => unreachable!(),
        Verdict::Wide { state, choice } => Err(WitnessError::TooWide(TooWide {
            part: Part::Flow,
            round: 0,
            policy,
            kind: Kind::Check,
            state,
            choice,
        })),
    }
}

/// A term past width in the visits of the first set, at state `s`.
fn visiting(policy: Vec<u32>, s: u32) -> WitnessError
    requires { s < length policy.items }
    ensures { Answers plain_flow (λ r. r ≡ Err (too_wide (visiting policy.items s))) (Err result) }
{
    let choice = policy[s as usize];
    WitnessError::TooWide(TooWide {
        part: Part::Flow,
        round: 0,
        policy,
        kind: Kind::Evaluate,
        state: Some(s),
        choice: Some(choice),
    })
}

/// The subsystem for the greatest probability, from the answer to the query of the model, whose value at the start is at least the threshold.
pub(crate) fn flow_witness(
    alloc: Global,
    model: &Model,
    goals: &Marks,
    start: u32,
    threshold: Frac,
    whole: ReachCert,
) -> Result<FlowCert, WitnessError>
    requires goals { length goals.now ≡ states_of model.now }
    requires start { start < states_of model.now }
    requires solved { EndsSo Max model.now goals.now (Ok (reach.plain whole)) }
    requires reaches { is_at_least (value_at whole.values.items start) threshold ≡ Some true }
    ensures { Answers plain_flow (FromFirst model.now goals.now start threshold Max (reach.plain whole)) result }
{
    model.known();
    avoid_law();
    path_law();
    query_law();
    kept_law();
    listed_law();
    let choices = whole.choices.as_slice();
    let query = Query {
        dir: Dir::Max,
        model,
        goals,
        values: whole.values.as_slice(),
        policy: choices,
    };
    let first = query.first_set(alloc, start)?;
    let policy = Policy {
        model,
        goals,
        choices,
        ranks: whole.ranks.as_slice(),
        start,
    };
    let found = match policy.evaluate(alloc, &first) {
        Ok(found) => found,
        Err(ElimError::TooWide(state)) => return Err(visiting(whole.choices, state)),
        Err(ElimError::Memory) => return Err(WitnessError::Memory),
    };
    let left = policy.trials(alloc, &threshold, first, found)?;
    let cert = flow_cert(alloc, model, choices, &left)?;
    held(alloc, model, goals, start, threshold, whole.choices, cert)
}
