ghost use Rattle.std.specs.Prelude.{◌≡◌, ◌<◌, ◌↔◌, length, [], ◌∷◌, All, IfOk, OnOk};
ghost use Rattle.mdp_spec.specs.{Bounds.{SubMax, SubMaxWithin}, Mdp.{states_of}};
ghost use Rattle.mdp_farkas.specs.Verdict.{verdict_of, IsYes, IfYes, objection_to};
ghost use Rattle.mdp_subsystem_rules.specs.Flow.{flow_total};
ghost use Rattle.mdp_subsystem_rules.specs.FlowChecks.{kept_check, flow_check, balance_check, sum_checks, flow_checks, HoldsFlow};
ghost use Rattle.mdp_subsystem_rules.specs.{Kept.{kept_marks}, Shape.{IsFlowShape}, Sums.{AreSums}};

use crate::lines::kept_marks_of;
use crate::sums::Sums;
use crate::walk::each_kept;
use mdp_claims::{Flow, FlowCert};
use mdp_farkas::{
    Objection, OneCheck, Rule, Verdict, at_least, at_most, choice_at, judged, judged_at,
    verdict_after,
};
use mdp_num::{Frac, Memory, Wide};
use mdp_rows::{Marks, Model};
use std::alloc::Global;

/// The kept state `s` is no goal.
pub(crate) fn kept_at(goals: &Marks, s: u32) -> Result<(), Objection>
    requires { s < length goals.now }
    ensures { result ≡ objection_to (kept_check goals.now s ∷ []) }
{
    judged(Ok(!goals.at(s)), Rule::StateIsKept, s, None)
}

/// The marks of goals, which no kept state may have.
#[derive(Clone, Copy)]
struct Goals<'a> {
    goals: &'a Marks,
}

impl OneCheck for Goals<'_> {
    ghost count = { λ x. length x.goals.now };

    ghost check = { λ x. kept_check x.goals.now };

    fn check_at(self, s: u32) -> Result<(), Objection> {
        kept_at(self.goals, s)
    }
}

/// The flow's state is kept and its amount above 0.
fn amount_at(kept: &Marks, flow: &Flow) -> Result<(), Objection>
    requires { flow.now.state < length kept.now }
    ensures { result ≡ objection_to (flow_check kept.now flow.now ∷ []) }
{
    let flows = kept.at(flow.state) && flow.amount.sign() > 0;
    judged(Ok(flows), Rule::StateIsKept, flow.state, Some(flow.choice))
}

/// The sums of flows, which balance at each kept state.
#[derive(Clone, Copy)]
struct Balances<'a> {
    sums: &'a Sums,
    ghost same_length: { length sums.now.outflows ≡ length sums.now.inflows },
}

impl OneCheck for Balances<'_> {
    ghost count = { λ x. length x.sums.now.outflows };

    ghost check = { λ x. balance_check x.sums.now };

    /// What leaves the kept state `s` is at most what comes in.
    fn check_at(self, s: u32) -> Result<(), Objection> {
        let sums = self.sums;
        let balances = at_most(&sums.outflows[s as usize], &sums.inflows[s as usize]);
        judged(balances, Rule::FlowsBalance, s, None)
    }
}

/// The rules on the sums: those at each kept state, and that what comes to the goals is at least the threshold.
fn sums_at(sums: &Sums, kept: &[u32], threshold: &Frac) -> Result<(), Objection>
    requires same_length { length sums.now.outflows ≡ length sums.now.inflows }
    requires kept { All (λ s. s < length sums.now.outflows) kept.now }
    ensures { result ≡ objection_to (sum_checks kept.now threshold.now sums.now) }
{
    each_kept(kept, Balances { sums })?;
    judged_at(
        at_least(&sums.goal, threshold),
        Rule::FlowsReachGoals,
        None,
        None,
    )
}

/// Kept states and flows that are held against a model, with a mark for each kept state.
#[derive(Clone, Copy)]
struct FlowClaim<'a> {
    model: &'a Model,
    goals: &'a Marks,
    cert: &'a FlowCert,
    kept: &'a Marks,
    ghost goals_each: { length goals.now ≡ states_of model.now },
    ghost shape: { IsFlowShape model.now cert.now.kept.items cert.now.wide.items cert.now.flows.items },
    ghost marks: { kept.now ≡ kept_marks (states_of model.now) cert.now.kept.items },
    ghost marks_each: { length kept.now ≡ states_of model.now },
}

impl FlowClaim<'_> {
    ghost use Rattle.mdp_subsystem_rules.specs.FlowClaim.{flow_at, flows_at, sums_after, sums_after_all, all_checks};

    /// The rules at a flow, which is then added to the sums.
    fn flow_at(self, sums: &mut Sums, flow: &Flow) -> Result<(), Objection>
        requires sums { AreSums (states_of self.model.now) sums.old }
        requires state { flow.now.state < states_of self.model.now }
        ensures verdict { result ≡ objection_to (flow_at self.entry sums.old flow.now) }
        ensures sums { OnOk result (sums.new ≡ sums_after self.entry sums.old flow.now) }
    {
        choice_at(self.model, flow.state, flow.choice)?;
        amount_at(self.kept, flow)?;
        match sums.add_flow(self.model, self.goals, flow) {
            Ok(()) => Ok(()),
            Err(Wide) => Err(Objection::PastWidth {
                state: Some(flow.state),
                choice: Some(flow.choice),
            }),
        }
    }

    /// The same at each flow.
    fn each_flow_at(self, sums: &mut Sums, flows: &[Flow]) -> Result<(), Objection>
        requires sums { AreSums (states_of self.model.now) sums.old }
        requires states { All (λ f. f.state < states_of self.model.now) flows.now }
        ensures verdict { result ≡ objection_to (flows_at self.entry sums.old flows.now) }
        ensures sums { OnOk result (sums.new ≡ sums_after_all self.entry sums.old flows.now) }
    {
        for flow in flows {
            self.flow_at(sums, flow)?;
        }
        Ok(())
    }

    /// All rules: those at the kept states, at the flows and on their sums.
    fn walk(self, threshold: &Frac, sums: &mut Sums) -> Result<(), Objection>
        requires sums { AreSums (states_of self.model.now) sums.old }
        ensures { result ≡ objection_to (all_checks self.entry threshold.now sums.old) }
    {
        let goals = Goals { goals: self.goals };
        each_kept(self.cert.kept.as_slice(), goals)?;
        self.each_flow_at(sums, self.cert.flows.as_slice())?;
        sums_at(sums, self.cert.kept.as_slice(), threshold)
    }
}

/// Whether the flow shows that some policy of the subsystem with these kept states reaches a goal from the start with a probability of at least
/// the threshold: what rules 2, 21, 22 and 23 say of it (Funke, Jantsch and Baier 2020). Yes, the first rule that is false with its place, or the
/// place of the first written term past width where that comes before; a term of a flow's sums has the flow's state and choice. It takes time in
/// proportion to the model's states and the entries of the rows that flows take.
pub fn holds_flow(
    alloc: Global,
    model: &Model,
    goals: &Marks,
    start: u32,
    threshold: Frac,
    cert: &FlowCert,
) -> Result<Verdict, Memory>
    requires goals { length goals.now ≡ states_of model.now }
    requires start { start < states_of model.now }
    requires shape { IsFlowShape model.now cert.now.kept.items cert.now.wide.items cert.now.flows.items }
    ensures verdict { IfOk result (λ v. v ≡ verdict_of (flow_checks model.now goals.now start threshold cert.now.kept.items cert.now.flows.items)) }
    ensures rules { IfOk result (λ v. IsYes v ↔ HoldsFlow model.now goals.now start threshold cert.now.kept.items cert.now.flows.items) }
    ensures sub_max { IfOk result (λ v. IfYes v (SubMax model.now goals.now (kept_marks (states_of model.now) cert.now.kept.items) start threshold)) }
    ensures within { IfOk result (λ v. IfYes v (SubMaxWithin model.now goals.now
        (kept_marks (states_of model.now) cert.now.kept.items) start threshold (flow_total cert.now.flows.items))) }
{
    model.known();
    let kept = kept_marks_of(alloc, model.states(), cert.kept.as_slice())?;
    let mut sums = Sums::new(alloc, model.states(), goals, start)?;
    let claim = FlowClaim {
        model,
        goals,
        cert,
        kept: &kept,
    };
    let walk = claim.walk(&threshold, &mut sums);
    Ok(verdict_after(walk))
}
