ghost use Rattle.std.specs.Prelude.{◌≡◌, ◌↔◌, ◌<◌, IfOk, length, option_map, unwrap_or};
ghost use Rattle.mdp_spec.specs.{Mdp.{states_of}, Until.{UntilMax, UntilMin, UntilMaxBetween, UntilMinBetween}};
ghost use Rattle.mdp_rows.specs.declared.dir.Dir.TheVariants.{Max, Min};
ghost use Rattle.mdp_farkas.specs.{Verdict.{verdict_of, IfYes, IsYes}, Reach.{reach_checks, IsReach}};
ghost use Rattle.mdp_bounds.specs.Reach.{bounds_checks, IsReachBounds};
ghost use Rattle.mdp_subsystem_rules.specs.{Flow.{flow_total}, Kept.{kept_marks}, Shape.{IsFlowShape, IsFloorShape}};
ghost use Rattle.mdp_subsystem_rules.specs.{FlowChecks.{flow_checks, HoldsFlow}, FloorChecks.{floor_checks, HoldsFloor}};
ghost use Rattle.mdp_subsystem_rules.specs.Until.{SubUntilMax, SubUntilMaxWithin, SubUntilMin};
ghost use Rattle.mdp_check.specs.Check.{stay_marks, way_of, way_by, flow_bound, floor_bound};

use mdp_bounds::holds_bounds_reach;
use mdp_claims::{FloorCert, FlowCert, ReachBoundsCert, ReachCert};
use mdp_farkas::{Verdict, holds_reach};
use mdp_num::{Frac, Memory};
use mdp_rows::{Dir, Marks, Model};
use mdp_subsystem_rules::{holds_floor, holds_flow};
use std::alloc::Global;

/// The states on the way: those with this label, none where the model hasn't it.
fn stay_marks(alloc: Global, model: &Model, stay: &[u8]) -> Result<Marks, Memory>
    ensures marks { IfOk result (λ marks. marks ≡ stay_marks model.now stay.now) }
    ensures each { IfOk result (λ marks. length marks ≡ states_of model.now) }
{
    match model.label(stay) {
        Some(place) => Ok(model.marks_of(alloc, place)?),
        None => Ok(Marks::empty(alloc, model.states())?),
    }
}

/// The model on which the rules of reaching a goal are held: each state that is neither on the way nor a goal is left with a loop.
fn way_of(alloc: Global, model: &Model, goals: &Marks, stay: &[u8]) -> Result<Model, Memory>
    requires { length goals.now ≡ states_of model.now }
    ensures way { IfOk result (λ way. way ≡ way_of model.now goals.now stay.now) }
    ensures states { IfOk result (λ way. states_of way ≡ states_of model.now) }
{
    let stays = stay_marks(alloc, model, stay)?;
    model.cut(alloc, &stays, goals)
}

/// The same where no way may be named: then it is the model itself, and nothing is made.
pub fn way_by(
    alloc: Global,
    model: &Model,
    goals: &Marks,
    stay: Option<&[u8]>,
) -> Result<Option<Model>, Memory>
    requires { length goals.now ≡ states_of model.now }
    ensures { IfOk result (λ way. unwrap_or way model.now ≡ way_by model.now goals.now (option_map (λ name. name.now) stay.entry)) }
{
    match stay {
        Some(stay) => Ok(Some(way_of(alloc, model, goals, stay)?)),
        None => Ok(None),
    }
}

/// What the rules of reaching a goal say on the way.
pub(crate) fn until_verdict(
    alloc: Global,
    model: &Model,
    goals: &Marks,
    dir: Dir,
    stay: &[u8],
    cert: &ReachCert,
) -> Result<Verdict, Memory>
    requires goals { length goals.now ≡ states_of model.now }
    requires values { length cert.now.values.items ≡ states_of model.now }
    requires choices { length cert.now.choices.items ≡ states_of model.now }
    requires ranks { length cert.now.ranks.items ≡ states_of model.now }
    ensures verdict { IfOk result (λ v. v ≡ verdict_of (reach_checks dir
        (way_of model.now goals.now stay.now) goals.now cert.now.values.items cert.now.choices.items cert.now.ranks.items)) }
    ensures rules { IfOk result (λ v. IsYes v ↔ IsReach dir (way_of model.now goals.now stay.now) goals.now cert.now.values.items
        cert.now.choices.items cert.now.ranks.items) }
    ensures max { dir ≡ Max → IfOk result (λ v. IfYes v (UntilMax model.now
        (stay_marks model.now stay.now) goals.now cert.now.values.items cert.now.choices.items)) }
    ensures min { dir ≡ Min → IfOk result (λ v. IfYes v (UntilMin model.now
        (stay_marks model.now stay.now) goals.now cert.now.values.items cert.now.choices.items)) }
{
    model.known();
    let way = way_of(alloc, model, goals, stay)?;
    Ok(holds_reach(&way, goals, dir, cert))
}

/// What the rules of a flow say on the way.
fn until_flow_verdict(
    alloc: Global,
    model: &Model,
    goals: &Marks,
    start: u32,
    stay: &[u8],
    threshold: Frac,
    cert: &FlowCert,
) -> Result<Verdict, Memory>
    requires goals { length goals.now ≡ states_of model.now }
    requires start { start < states_of model.now }
    requires shape { IsFlowShape model.now cert.now.kept.items cert.now.wide.items cert.now.flows.items }
    ensures verdict { IfOk result (λ v. v ≡
        verdict_of (flow_checks (way_of model.now goals.now stay.now) goals.now start threshold cert.now.kept.items cert.now.flows.items)) }
    ensures rules { IfOk result (λ v. IsYes v ↔
        HoldsFlow (way_of model.now goals.now stay.now) goals.now start threshold cert.now.kept.items cert.now.flows.items) }
    ensures sub_max { IfOk result (λ v. IfYes v
        (SubUntilMax model.now (stay_marks model.now stay.now) goals.now (kept_marks (states_of model.now) cert.now.kept.items) start threshold)) }
    ensures within { IfOk result (λ v. IfYes v (SubUntilMaxWithin model.now (stay_marks model.now stay.now) goals.now
        (kept_marks (states_of model.now) cert.now.kept.items) start threshold (flow_total cert.now.flows.items))) }
{
    model.known();
    let way = way_of(alloc, model, goals, stay)?;
    let verdict = holds_flow(alloc, &way, goals, start, threshold, cert)?;
    Ok(verdict)
}

/// What the rules of a floor say on the way.
fn until_floor_verdict(
    alloc: Global,
    model: &Model,
    goals: &Marks,
    start: u32,
    stay: &[u8],
    threshold: Frac,
    cert: &FloorCert,
) -> Result<Verdict, Memory>
    requires goals { length goals.now ≡ states_of model.now }
    requires start { start < states_of model.now }
    requires shape { IsFloorShape model.now cert.now.kept.items cert.now.wide.items cert.now.values.items cert.now.ranks.items }
    ensures verdict { IfOk result (λ v. v ≡ verdict_of (floor_checks (way_of model.now goals.now stay.now) goals.now start threshold
        cert.now.kept.items cert.now.values.items cert.now.ranks.items)) }
    ensures rules { IfOk result (λ v. IsYes v ↔ HoldsFloor (way_of model.now goals.now stay.now) goals.now start threshold
        cert.now.kept.items cert.now.values.items cert.now.ranks.items) }
    ensures sub_min { IfOk result (λ v. IfYes v
        (SubUntilMin model.now (stay_marks model.now stay.now) goals.now (kept_marks (states_of model.now) cert.now.kept.items) start threshold)) }
{
    model.known();
    let way = way_of(alloc, model, goals, stay)?;
    Ok(holds_floor(&way, goals, start, threshold, cert))
}

/// What the rules of a flow say: on the way where one is named, else on the model.
pub(crate) fn flow_verdict(
    alloc: Global,
    model: &Model,
    goals: &Marks,
    start: u32,
    stay: &Option<Vec<u8>>,
    threshold: Frac,
    cert: &FlowCert,
) -> Result<Verdict, Memory>
    requires goals { length goals.now ≡ states_of model.now }
    requires start { start < states_of model.now }
    requires shape { IsFlowShape model.now cert.now.kept.items cert.now.wide.items cert.now.flows.items }
    ensures verdict { IfOk result (λ v. v ≡ verdict_of (flow_checks (way_by model.now goals.now (option_map (λ name. name.items) stay.now)) goals.now
        start threshold cert.now.kept.items cert.now.flows.items)) }
    ensures rules { IfOk result (λ v. IsYes v ↔ HoldsFlow (way_by model.now goals.now (option_map (λ name. name.items) stay.now)) goals.now
        start threshold cert.now.kept.items cert.now.flows.items) }
    ensures bound { IfOk result (λ v. IfYes v (flow_bound model.now goals.now start (option_map (λ name. name.items) stay.now) threshold
        cert.now.kept.items cert.now.flows.items)) }
{
    match stay {
        Some(stay) => until_flow_verdict(alloc, model, goals, start, stay, threshold, cert),
        None => {
            let verdict = holds_flow(alloc, model, goals, start, threshold, cert)?;
            Ok(verdict)
        }
    }
}

/// What the rules of a floor say: on the way where one is named, else on the model.
pub(crate) fn floor_verdict(
    alloc: Global,
    model: &Model,
    goals: &Marks,
    start: u32,
    stay: &Option<Vec<u8>>,
    threshold: Frac,
    cert: &FloorCert,
) -> Result<Verdict, Memory>
    requires goals { length goals.now ≡ states_of model.now }
    requires start { start < states_of model.now }
    requires shape { IsFloorShape model.now cert.now.kept.items cert.now.wide.items cert.now.values.items cert.now.ranks.items }
    ensures verdict { IfOk result (λ v. v ≡ verdict_of (floor_checks (way_by model.now goals.now (option_map (λ name. name.items) stay.now)) goals.now
        start threshold cert.now.kept.items cert.now.values.items cert.now.ranks.items)) }
    ensures rules { IfOk result (λ v. IsYes v ↔ HoldsFloor (way_by model.now goals.now (option_map (λ name. name.items) stay.now)) goals.now
        start threshold cert.now.kept.items cert.now.values.items cert.now.ranks.items) }
    ensures bound { IfOk result (λ v. IfYes v
        (floor_bound model.now goals.now start (option_map (λ name. name.items) stay.now) threshold cert.now.kept.items)) }
{
    match stay {
        Some(stay) => until_floor_verdict(alloc, model, goals, start, stay, threshold, cert),
        None => Ok(holds_floor(model, goals, start, threshold, cert)),
    }
}

/// What the rules of reaching a goal say on the way of lower and upper values.
pub(crate) fn until_bounds_verdict(
    alloc: Global,
    model: &Model,
    goals: &Marks,
    dir: Dir,
    stay: &[u8],
    cert: &ReachBoundsCert,
) -> Result<Verdict, Memory>
    requires goals { length goals.now ≡ states_of model.now }
    requires lower { length cert.now.lower.items ≡ states_of model.now }
    requires upper { length cert.now.upper.items ≡ states_of model.now }
    requires choices { length cert.now.choices.items ≡ states_of model.now }
    requires ranks { length cert.now.ranks.items ≡ states_of model.now }
    ensures verdict { IfOk result (λ v. v ≡ verdict_of (bounds_checks dir
        (way_of model.now goals.now stay.now) goals.now cert.now.lower.items cert.now.upper.items cert.now.choices.items cert.now.ranks.items)) }
    ensures rules { IfOk result (λ v. IsYes v ↔ IsReachBounds dir (way_of model.now goals.now stay.now) goals.now cert.now.lower.items
        cert.now.upper.items cert.now.choices.items cert.now.ranks.items) }
    ensures max { dir ≡ Max → IfOk result (λ v. IfYes v (UntilMaxBetween model.now
        (stay_marks model.now stay.now) goals.now cert.now.lower.items cert.now.upper.items cert.now.choices.items)) }
    ensures min { dir ≡ Min → IfOk result (λ v. IfYes v (UntilMinBetween model.now
        (stay_marks model.now stay.now) goals.now cert.now.lower.items cert.now.upper.items cert.now.choices.items)) }
{
    model.known();
    let way = way_of(alloc, model, goals, stay)?;
    Ok(holds_bounds_reach(&way, goals, dir, cert))
}
