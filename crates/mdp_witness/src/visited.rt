ghost use Rattle.std.specs.{Prelude.{ℕ, ◌≡◌, ◌<◌, length, Err, IfOk, slice_index}, Result.{result_ok}, List.{All}};
ghost use Rattle.mdp_spec.specs.{Mdp.{states_of, row_at, value_at}, Row.{entries}, Tree.{IsPolicy}};
ghost use Rattle.mdp_elim.specs.System.{Leaves};
ghost use Rattle.mdp_subsystem_rules.specs.Flow.{goal_source};
ghost use Rattle.mdp_reach.specs.Query.{policy_rows};
ghost use Rattle.mdp_witness.specs.Evaluation.{visits_on, with_arrival, with_arrivals, placed, arrivals_below, visited};
ghost use Rattle.mdp_witness.specs.EvaluationCode.{plain, placed_at, Answers};

use mdp_elim::{Chain, ElimError, visits};
use mdp_num::{Frac, Wide};
use mdp_rows::{Marks, Model, PolicyRows, Row};
use mdp_wide::Unfinished;
use std::alloc::{AllocError, Global};

/// The policy of the greatest probability, with the ranks by which it leads to a goal, and where it starts.
#[derive(Clone, Copy)]
pub struct Policy<'m, 'g, 'p, 'r> {
    /// The model.
    pub model: &'m Model,
    /// Whether each state is a goal, one mark per state.
    pub goals: &'g Marks,
    /// The choice of each state, one per state.
    pub choices: &'p [u32],
    /// The rank of each state, one per state: an entry of its choice leads to a lesser one, or out of the set.
    pub ranks: &'r [u32],
    /// Where the paths start, a state.
    pub start: u32,
    ghost goals_each: { length goals.now ≡ states_of model.now },
    ghost chosen: { IsPolicy model.now choices.now },
    ghost ranks_each: { length ranks.now ≡ states_of model.now },
    ghost starts: { start < states_of model.now },
}

/// What the evaluation of a set gives: how often each state is visited, and the probability to come to a goal through states of the set.
#[derive(Drop)]
pub struct Visited {
    /// How often each state is visited, one number per state; 0 outside the set.
    pub visits: Vec<Frac>,
    /// The probability.
    pub value: Frac,
}

/// 1 where the start is a goal, else 0.
fn goal_source(goals: &Marks, start: u32) -> Frac
    requires { start < length goals.now }
    ensures { result ≡ goal_source goals.now start }
{
    if goals.at(start) {
        Frac::whole(1)
    } else {
        Frac::whole(0)
    }
}

/// `sum`, and the visits times the probability of an entry to `target`, where that is a goal.
fn with_arrival(
    goals: &Marks,
    visits: &Frac,
    sum: &Frac,
    target: u32,
    prob: &Frac,
) -> Result<Frac, Wide>
    requires { target < length goals.now }
    ensures { result_ok result ≡ with_arrival goals.now visits.now sum.now (record { target = target; prob = prob.now }) }
{
    if !goals.at(target) {
        return Ok(*sum);
    }
    let term = visits.mul(prob)?;
    sum.add(&term)
}

/// `sum`, and the visits times the probability of each entry to a goal.
fn with_arrivals(goals: &Marks, visits: &Frac, start: &Frac, row: Row<'_>) -> Result<Frac, Wide>
    requires { All (λ t. t < length goals.now) row.targets.now }
    ensures { result_ok result ≡ with_arrivals goals.now visits.now start.now (entries row.entry.targets.now row.entry.probs.now) }
{
    let mut sum = *start;
    for i in 0..row.targets.len() {
        sum = with_arrival(goals, visits, &sum, row.targets[i], &row.probs[i])?;
    }
    Ok(sum)
}

/// A sum at state `s`.
fn placed(s: u32, sum: Result<Frac, Wide>) -> Result<Frac, ElimError>
    ensures { result ≡ placed_at s sum }
{
    match sum {
        Ok(x) => Ok(x),
        Err(Wide) => Err(ElimError::TooWide(s)),
    }
}

impl Policy<'_, '_, '_, '_> {
    /// `sum`, and the arrivals from state `s`.
    fn arrivals_at(&self, visits: &[Frac], sum: &Frac, s: u32) -> Result<Frac, ElimError>
        requires state { s < states_of self.now.model.now }
        requires visits { length visits.now ≡ states_of self.now.model.now }
        ensures sum { Answers (λ x. x) result (placed s (with_arrivals self.now.goals.now (value_at visits.now s) sum.now
            (row_at self.now.model.now s (slice_index self.now.choices.now s)))) }
        ensures place { (t : ℕ) → result ≡ Err (Unfinished.TooWide t) → t ≡ s }
    {
        let row = self.model.row(s, self.choices[s as usize]);
        placed(s, with_arrivals(self.goals, &visits[s as usize], sum, row))
    }

    /// The arrivals from all states of the set.
    fn arrivals(&self, set: &Marks, visits: &[Frac]) -> Result<Frac, ElimError>
        requires set { length set.now ≡ states_of self.now.model.now }
        requires visits { length visits.now ≡ states_of self.now.model.now }
        ensures place { (s : ℕ) → result ≡ Err (Unfinished.TooWide s) → s < states_of self.now.model.now }
        ensures sum { Answers (λ x. x) result (arrivals_below self.now.model.now self.now.goals.now self.now.choices.now self.now.start set.now
            visits.now (states_of self.now.model.now)) }
    {
        let mut sum = goal_source(self.goals, self.start);
        for s in 0..self.model.states() {
            if set.at(s) {
                match self.arrivals_at(visits, &sum, s) {
                    Ok(next) => sum = next,
                    Err(error) => return Err(error),
                }
            }
        }
        Ok(sum)
    }

    /// How often each state of the set is visited; a set without the start has no visits.
    fn visits_on(&self, alloc: Global, set: &Marks) -> Result<Vec<Frac>, ElimError>
        requires set { length set.now ≡ states_of self.now.model.now }
        requires leaves { Leaves (policy_rows self.now.model.now self.now.choices.now) set.now self.now.ranks.now }
        ensures visits { Answers (λ y. y.items) result (visits_on self.now.model.now self.now.choices.now self.now.start set.now) }
        ensures count { IfOk result (λ y. length y.items ≡ states_of self.now.model.now) }
        ensures place { (s : ℕ) → result ≡ Err (Unfinished.TooWide s) → s < states_of self.now.model.now }
    {
        if !set.at(self.start) {
            return Ok(vec![in alloc; Frac::whole(0); self.model.states() as usize]?);
        }
        let rows = PolicyRows {
            model: self.model,
            policy: self.choices,
        };
        let chain = Chain {
            rows: &rows,
            active: set,
            ranks: self.ranks,
        };
        visits(alloc, &chain, self.start)
    }

    /// The evaluation of a set of states, one mark per state: the expected visits of the policy from the start, and the probability to come to a
    /// goal through states of the set alone. Fails at the state whose term is past width, and where memory is refused.
    pub fn evaluate(&self, alloc: Global, set: &Marks) -> Result<Visited, ElimError>
        requires set { length set.now ≡ states_of self.now.model.now }
        requires leaves { Leaves (policy_rows self.now.model.now self.now.choices.now) set.now self.now.ranks.now }
        ensures place { (s : ℕ) → result ≡ Err (Unfinished.TooWide s) → s < states_of self.now.model.now }
        ensures count { IfOk result (λ v. length v.visits.items ≡ states_of self.now.model.now) }
        ensures found { Answers plain result (visited self.now.model.now self.now.goals.now self.now.choices.now self.now.start set.now) }
    {
        let visits = match self.visits_on(alloc, set) {
            Ok(visits) => visits,
            Err(error) => return Err(error),
        };
        match self.arrivals(set, &visits) {
            Ok(value) => Ok(Visited { visits, value }),
            Err(error) => Err(error),
        }
    }
}
