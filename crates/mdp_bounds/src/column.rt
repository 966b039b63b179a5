ghost use Rattle.std.specs.{Prelude.{◌≡◌, ◌<◌, length, [], ◌∷◌, if◌then◌else◌}, Result.{result_ok}};
ghost use Rattle.mdp_spec.specs.Mdp.{states_of, choices_at};
ghost use Rattle.mdp_farkas.specs.{Reward.{is_looked_at}, Verdict.{objection_to}};
ghost use Rattle.mdp_bounds.specs.Reward.{is_nonneg, is_zero, nonneg_check, goal_checks, is_least, earning_stands, earning_check, earning_checks};
ghost use Rattle.mdp_bounds.specs.Reward.{policy_earning_check, lower_on_each, half_checks, finite_checks};
ghost use Rattle.mdp_bounds.specs.Reward.{lower_place_checks, lower_checks, upper_place_checks, upper_value_checks};

use crate::compare::{at_most, value_stands};
use crate::finite::finite_row_sum;
use mdp_farkas::{
    Checks, Objection, Rule, each_below, finite_at, infinite_state, is_held_against,
    is_infinite_at, judged, rank_falls_at_state, reversed, stays_at_state,
};
use mdp_num::{Frac, Wide};
use mdp_rows::{Dir, Marks, Model};

/// Whether a value is at least 0, as an infinite one is.
fn at_least_zero(value: Option<Frac>) -> bool
    ensures { result ≡ is_nonneg value }
{
    match value {
        Some(number) => at_most(&Frac::whole(0), &number),
        None => true,
    }
}

/// Whether a value is 0, as an infinite one isn't.
fn equal_to_zero(value: Option<Frac>) -> bool
    ensures { result ≡ is_zero value }
{
    match value {
        Some(number) => number == Frac::whole(0),
        None => false,
    }
}

/// Whether a lower value is 0.
fn is_least_lower(dir: Dir, value: &Frac) -> bool
    ensures { result ≡ is_least dir value.now }
{
    match dir {
        Dir::Max => false,
        Dir::Min => *value == Frac::whole(0),
    }
}

/// Whether the half on each choice is asked of the lower values, and not of the upper ones.
fn lower_on_each(dir: Dir) -> bool
    ensures { result ≡ lower_on_each dir }
{
    match dir {
        Dir::Max => false,
        Dir::Min => true,
    }
}

/// The values of one column, which are held against a model with the ranks of the lower ones.
#[derive(Clone, Copy)]
pub(crate) struct RewardColumn<'a> {
    pub dir: Dir,
    pub model: &'a Model,
    pub name: u32,
    pub goals: &'a Marks,
    pub values: &'a [Option<Frac>],
    pub ranks: &'a [u32],
    pub ghost named: { name < length model.now.names },
    pub ghost goals_each: { length goals.now ≡ states_of model.now },
    pub ghost values_each: { length values.now ≡ states_of model.now },
    pub ghost ranks_each: { length ranks.now ≡ states_of model.now },
}

/// A column at one state.
#[derive(Clone, Copy)]
struct RewardColumnAtState<'a> {
    column: RewardColumn<'a>,
    state: u32,
    ghost in_model: { state < states_of column.model.now },
}

impl Checks for RewardColumnAtState<'_> {
    ghost use Rattle.mdp_bounds.specs.RewardClaim.{asked_of};

    ghost count = { λ x. length (choices_at x.column.model.now x.state) };

    ghost checks = { λ x c. if is_looked_at x.column.dir x.column.model.now x.column.values.now x.state c
        then asked_of x.column earning_check x.state c ∷ [] else [] };

    /// What choice `c` earns stands to the value, where that counts.
    fn check(self, c: u32) -> Result<(), Objection> {
        let column = self.column;
        if !is_held_against(column.model, column.dir, column.values, self.state, c) {
            return Ok(());
        }
        let stands = column.stands(column.dir, self.state, c);
        judged(stands, Rule::RewardOnEachChoice, self.state, Some(c))
    }
}

impl RewardColumn<'_> {
    ghost use Rattle.mdp_bounds.specs.RewardClaim.{asked_of, asked_of_all, finite_lower_checks};

    /// The value of state `s` is at least 0.
    fn nonneg(self, s: u32) -> Result<(), Objection>
        requires { s < states_of self.model.now }
        ensures { result ≡ objection_to (nonneg_check self.entry.values.now s ∷ []) }
    {
        let holds = at_least_zero(self.values[s as usize]);
        judged(Ok(holds), Rule::RewardValue, s, None)
    }

    /// The goal `s` has the value 0 and rank 0.
    fn goal(self, s: u32) -> Result<(), Objection>
        requires { s < states_of self.model.now }
        ensures { result ≡ objection_to (goal_checks self.entry.values.now self.entry.ranks.now s) }
    {
        let is_zero = equal_to_zero(self.values[s as usize]);
        judged(Ok(is_zero), Rule::RewardValue, s, None)?;
        judged(Ok(self.ranks[s as usize] == 0), Rule::RewardValue, s, None)
    }

    /// Whether the upper value of state `s` is at least, or the lower one at most, what its choice `c` earns: its reward and the sum over its row.
    /// A lower value of 0 is at most what any choice earns: for it no sum is made.
    fn stands(self, dir: Dir, s: u32, c: u32) -> Result<bool, Wide>
        requires state { s < states_of self.model.now }
        requires choice { c < length (choices_at self.model.now s) }
        ensures { result_ok result ≡ earning_stands dir self.entry.model.now self.entry.name self.entry.values.now s c }
    {
        let value = finite_at(self.values, s);
        if is_least_lower(dir, &value) {
            return Ok(true);
        }
        let reward = self.model.reward(self.name, s, c);
        let sum = finite_row_sum(self.model.row(s, c), &reward, self.values)?;
        Ok(value_stands(dir, &value, &sum))
    }

    /// The inequality at each choice of state `s` that counts.
    fn on_each(self, s: u32) -> Result<(), Objection>
        requires { s < states_of self.model.now }
        ensures { result ≡ objection_to (asked_of self.entry earning_checks s) }
    {
        let at = RewardColumnAtState {
            column: self,
            state: s,
        };
        each_below(self.model.choices(s), at)
    }

    /// The inequality of the other values, at the policy's choice `c`.
    fn on_policy(self, s: u32, c: u32) -> Result<(), Objection>
        requires state { s < states_of self.model.now }
        requires choice { c < length (choices_at self.model.now s) }
        ensures { result ≡ objection_to (asked_of self.entry policy_earning_check s c ∷ []) }
    {
        let stands = self.stands(reversed(self.dir), s, c);
        judged(stands, Rule::RewardOnPolicy, s, Some(c))
    }

    /// The half on each choice, or that on the policy's choice `c`.
    fn half(self, each: bool, s: u32, c: u32) -> Result<(), Objection>
        requires state { s < states_of self.model.now }
        requires choice { c < length (choices_at self.model.now s) }
        ensures { result ≡ objection_to (asked_of self.entry (half_checks each) s c) }
    {
        if each {
            self.on_each(s)
        } else {
            self.on_policy(s, c)
        }
    }

    /// The rules of a finite value at a state `s` that is no goal.
    fn finite(self, each: bool, s: u32, c: u32) -> Result<(), Objection>
        requires state { s < states_of self.model.now }
        requires choice { c < length (choices_at self.model.now s) }
        ensures { result ≡ objection_to (asked_of self.entry (finite_checks each) s c) }
    {
        stays_at_state(self.model, self.dir, self.values, s, c)?;
        self.half(each, s, c)
    }

    /// Those of a finite lower value, and that of its rank.
    fn finite_lower(self, s: u32, c: u32) -> Result<(), Objection>
        requires state { s < states_of self.model.now }
        requires choice { c < length (choices_at self.model.now s) }
        ensures { result ≡ objection_to (finite_lower_checks self.entry s c) }
    {
        self.finite(lower_on_each(self.dir), s, c)?;
        rank_falls_at_state(self.model, self.dir, self.ranks, s, c)
    }

    /// What belongs to the kind of the lower value of state `s`: that of a goal, an infinite or a finite one.
    fn lower_kind(self, s: u32, c: u32) -> Result<(), Objection>
        requires state { s < states_of self.model.now }
        requires choice { c < length (choices_at self.model.now s) }
        ensures { result ≡ objection_to (asked_of_all self.entry lower_place_checks s c) }
    {
        if self.goals.at(s) {
            self.goal(s)
        } else if is_infinite_at(self.values, s) {
            infinite_state(self.model, self.dir, self.values, self.ranks, s, c)
        } else {
            self.finite_lower(s, c)
        }
    }

    /// The rules of the lower value of state `s`.
    pub(crate) fn lower(self, s: u32, c: u32) -> Result<(), Objection>
        requires state { s < states_of self.model.now }
        requires choice { c < length (choices_at self.model.now s) }
        ensures { result ≡ objection_to (asked_of_all self.entry lower_checks s c) }
    {
        self.nonneg(s)?;
        self.lower_kind(s, c)
    }

    /// What belongs to the kind of the upper value of state `s`.
    fn upper_kind(self, s: u32, c: u32) -> Result<(), Objection>
        requires state { s < states_of self.model.now }
        requires choice { c < length (choices_at self.model.now s) }
        ensures { result ≡ objection_to (asked_of_all self.entry upper_place_checks s c) }
    {
        if self.goals.at(s) {
            self.goal(s)
        } else if is_infinite_at(self.values, s) {
            Ok(())
        } else {
            self.finite(!lower_on_each(self.dir), s, c)
        }
    }

    /// The rules of the upper value of state `s`.
    pub(crate) fn upper(self, s: u32, c: u32) -> Result<(), Objection>
        requires state { s < states_of self.model.now }
        requires choice { c < length (choices_at self.model.now s) }
        ensures { result ≡ objection_to (asked_of_all self.entry upper_value_checks s c) }
    {
        self.nonneg(s)?;
        self.upper_kind(s, c)
    }
}
