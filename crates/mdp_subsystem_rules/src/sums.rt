ghost use Rattle.std.specs.Prelude.{◌≡◌, ◌<◌, length, All, IfOk, MatchResult, Some, None};
ghost use Rattle.mdp_spec.specs.{Mdp.{Entry, states_of, choices_at}, Row.{entries}};
ghost use Rattle.mdp_subsystem_rules.specs.Flow.{goal_source};
ghost use Rattle.mdp_subsystem_rules.specs.Sums.{AreSums, first_sums, with_outflow, with_goal, with_inflow, with_entry, with_row, with_flow};

use mdp_claims::Flow;
use mdp_num::{Frac, Memory, Wide};
use mdp_rows::{Marks, Model, Row};
use std::alloc::Global;

/// What a flow sums to: what leaves each state, what comes to each state that is no goal, and what comes to all goals together.
#[derive(Drop)]
pub(crate) struct Sums {
    pub outflows: Vec<Frac>,
    pub inflows: Vec<Frac>,
    pub goal: Frac,
}

impl std::marker::Model for Sums {
    ghost use Rattle.mdp_subsystem_rules.specs.Sums.{FlowSums};

    ghost Value = { FlowSums };

    ghost view = { λ s. record { outflows = s.outflows.items; inflows = s.inflows.items; goal = s.goal } };
}

/// A 1 that comes to the goals where the start is one, else 0.
fn goal_start(goals: &Marks, start: u32) -> Frac
    requires { start < length goals.now }
    ensures { result ≡ goal_source goals.now start }
{
    Frac::whole(if goals.at(start) { 1 } else { 0 })
}

impl Sums {
    /// The sums before any flow: 1 comes to the start.
    pub(crate) fn new(alloc: Global, states: u32, goals: &Marks, start: u32) -> Result<Sums, Memory>
        requires goals { length goals.now ≡ states }
        requires start { start < states }
        ensures { IfOk result (λ s. s ≡ first_sums states goals.now start) }
    {
        let outflows = vec![in alloc; Frac::whole(0); states as usize]?;
        let mut inflows = vec![in alloc; Frac::whole(0); states as usize]?;
        inflows[start as usize] = Frac::whole(1);
        Ok(Sums {
            outflows,
            inflows,
            goal: goal_start(goals, start),
        })
    }

    /// An amount leaves state `s`.
    fn add_outflow(&mut self, s: u32, amount: &Frac) -> Result<(), Wide>
        requires { s < length self.old.outflows }
        ensures { MatchResult result (λ ok. with_outflow self.old s amount.now ≡ Some self.new) (λ e. with_outflow self.old s amount.now ≡ None) }
    {
        self.outflows[s as usize] = self.outflows[s as usize].add(amount)?;
        Ok(())
    }

    /// A term comes to the goals.
    fn add_goal(&mut self, term: &Frac) -> Result<(), Wide>
        ensures { MatchResult result (λ ok. with_goal self.old term.now ≡ Some self.new) (λ e. with_goal self.old term.now ≡ None) }
    {
        self.goal = self.goal.add(term)?;
        Ok(())
    }

    /// A term comes to state `t`.
    fn add_inflow(&mut self, t: u32, term: &Frac) -> Result<(), Wide>
        requires { t < length self.old.inflows }
        ensures { MatchResult result (λ ok. with_inflow self.old t term.now ≡ Some self.new) (λ e. with_inflow self.old t term.now ≡ None) }
    {
        self.inflows[t as usize] = self.inflows[t as usize].add(term)?;
        Ok(())
    }

    /// An amount comes to the target of an entry, with the entry's probability.
    fn add_entry(
        &mut self,
        goals: &Marks,
        amount: &Frac,
        target: u32,
        prob: &Frac,
    ) -> Result<(), Wide>
        requires goals { target < length goals.now }
        requires inflows { target < length self.old.inflows }
        ensures { let x : Entry = record { target = target; prob = prob.now } in
            MatchResult result (λ ok. with_entry goals.now amount.now self.old x ≡ Some self.new)
            (λ e. with_entry goals.now amount.now self.old x ≡ None) }
    {
        let term = amount.mul(prob)?;
        if goals.at(target) {
            self.add_goal(&term)
        } else {
            self.add_inflow(target, &term)
        }
    }

    /// An amount comes to the targets of a row, one after the other.
    fn add_row(&mut self, goals: &Marks, amount: &Frac, row: Row<'_>) -> Result<(), Wide>
        requires sums { AreSums (length goals.now) self.old }
        requires targets { All (λ t. t < length goals.now) row.targets.now }
        ensures { let xs = entries row.entry.targets.now row.entry.probs.now in
            MatchResult result (λ ok. with_row goals.now amount.now self.old xs ≡ Some self.new)
            (λ e. with_row goals.now amount.now self.old xs ≡ None) }
    {
        for i in 0..row.targets.len() {
            self.add_entry(goals, amount, row.targets[i], &row.probs[i])?;
        }
        Ok(())
    }

    /// A flow's amount leaves its state, and comes to the targets of its row. After `Wide` nothing is said of the sums.
    pub(crate) fn add_flow(&mut self, model: &Model, goals: &Marks, flow: &Flow) -> Result<(), Wide>
        requires goals { length goals.now ≡ states_of model.now }
        requires sums { AreSums (states_of model.now) self.old }
        requires state { flow.now.state < states_of model.now }
        requires choice { flow.now.choice < length (choices_at model.now flow.now.state) }
        ensures { MatchResult result (λ ok. with_flow model.now goals.now self.old flow.now ≡ Some self.new)
            (λ e. with_flow model.now goals.now self.old flow.now ≡ None) }
    {
        self.add_outflow(flow.state, &flow.amount)?;
        self.add_row(goals, &flow.amount, model.row(flow.state, flow.choice))
    }
}
