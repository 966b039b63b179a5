ghost use Rattle.std.specs.{Prelude.{◌≡◌, ◌<◌, ◌↔◌, length, slice_index, [], ◌∷◌}, Result.{result_ok}};
ghost use Rattle.mdp_spec.specs.{Mdp.{states_of, choices_at}, Between.{ReachMaxBetween, ReachMinBetween}};
ghost use Rattle.mdp_bounds.specs.Reach.{covering, probability_checks, goal_check, outermost, stands_at, bound_check, cover_at, follow_at};
ghost use Rattle.mdp_bounds.specs.Reach.{bounds_at, bounds_checks, IsReachBounds, IsTrivialReach};
ghost use Rattle.mdp_farkas.specs.{Reach.{IsReach}, Verdict.{objection_to, verdict_of, IsYes, IfYes}};
ghost use Rattle.mdp_rows.specs.declared.dir.Dir.TheVariants.{Max, Min};

use crate::compare::{at_most, value_stands};
use crate::sum::row_sum;
use mdp_claims::ReachBoundsCert;
use mdp_farkas::{
    Checks, Objection, OneCheck, Rule, Verdict, choice_at, each_below, each_choice, judged,
    rank_at_state, reversed, verdict_after,
};
use mdp_num::{Frac, Wide};
use mdp_rows::{Dir, Marks, Model};

/// The value of state `s` is from 0 to 1.
fn probability_at(values: &[Frac], s: u32) -> Result<(), Objection>
    requires { s < length values.now }
    ensures { result ≡ objection_to (probability_checks values.now s) }
{
    let value = values[s as usize];
    judged(
        Ok(at_most(&Frac::whole(0), &value)),
        Rule::Probability,
        s,
        None,
    )?;
    judged(
        Ok(at_most(&value, &Frac::whole(1))),
        Rule::Probability,
        s,
        None,
    )
}

/// The value of the goal `s` is 1.
fn goal_at(values: &[Frac], s: u32) -> Result<(), Objection>
    requires { s < length values.now }
    ensures { result ≡ objection_to (goal_check values.now s ∷ []) }
{
    judged(
        Ok(values[s as usize] == Frac::whole(1)),
        Rule::GoalValue,
        s,
        None,
    )
}

/// The greatest probability for upper values, and the least for lower ones.
fn outermost_value(dir: Dir) -> Frac
    ensures { result ≡ outermost dir }
{
    match dir {
        Dir::Max => Frac::whole(1),
        Dir::Min => Frac::whole(0),
    }
}

/// The values of one column, which are held against a model at one state.
#[derive(Clone, Copy)]
struct ReachHalf<'a> {
    dir: Dir,
    model: &'a Model,
    goals: &'a Marks,
    values: &'a [Frac],
    state: u32,
    ghost goals_each: { length goals.now ≡ states_of model.now },
    ghost one_each: { length values.now ≡ states_of model.now },
    ghost in_model: { state < states_of model.now },
}

impl OneCheck for ReachHalf<'_> {
    ghost count = { λ h. length (choices_at h.model.now h.state) };

    ghost check = { λ h. bound_check h.dir h.model.now h.values.now h.state };

    /// The inequality at choice `c`.
    fn check_at(self, c: u32) -> Result<(), Objection> {
        judged(
            self.stands(self.dir, c),
            Rule::ValueOnEachChoice,
            self.state,
            Some(c),
        )
    }
}

impl ReachHalf<'_> {
    ghost use Rattle.mdp_bounds.specs.ReachClaim.{asked_of};

    /// Whether the upper value is at least, or the lower one at most, the sum over the row of choice `c`. The greatest upper value and the least
    /// lower one stand to any row: for them no sum is made.
    fn stands(self, dir: Dir, c: u32) -> Result<bool, Wide>
        requires { c < length (choices_at self.model.now self.state) }
        ensures { result_ok result ≡ stands_at dir self.entry.model.now self.entry.values.now self.entry.state c }
    {
        let value = self.values[self.state as usize];
        if value == outermost_value(dir) {
            return Ok(true);
        }
        let sum = row_sum(self.model.row(self.state, c), &Frac::whole(0), self.values)?;
        Ok(value_stands(dir, &value, &sum))
    }

    /// The value is a probability, and 1 at a goal; elsewhere it stands to the rows of all choices.
    fn on_each(self) -> Result<(), Objection>
        ensures { result ≡ objection_to (asked_of self.entry cover_at) }
    {
        probability_at(self.values, self.state)?;
        if self.goals.at(self.state) {
            goal_at(self.values, self.state)
        } else {
            each_choice(self.model, self.state, self)
        }
    }

    /// The value is a probability, and 1 at a goal; elsewhere it stands to the row of the policy's choice `c`.
    fn on_policy(self, c: u32) -> Result<(), Objection>
        requires { c < length (choices_at self.model.now self.state) }
        ensures { result ≡ objection_to (asked_of self.entry follow_at c) }
    {
        probability_at(self.values, self.state)?;
        if self.goals.at(self.state) {
            goal_at(self.values, self.state)
        } else {
            let stands = self.stands(reversed(self.dir), c);
            judged(stands, Rule::ValueOnPolicy, self.state, Some(c))
        }
    }
}

/// Lower and upper values, a policy and ranks that are held against a model.
#[derive(Clone, Copy)]
struct ReachBoundsClaim<'a> {
    dir: Dir,
    model: &'a Model,
    goals: &'a Marks,
    lower: &'a [Frac],
    upper: &'a [Frac],
    choices: &'a [u32],
    ranks: &'a [u32],
    ghost goals_each: { length goals.now ≡ states_of model.now },
    ghost lower_each: { length lower.now ≡ states_of model.now },
    ghost upper_each: { length upper.now ≡ states_of model.now },
    ghost choices_each: { length choices.now ≡ states_of model.now },
    ghost ranks_each: { length ranks.now ≡ states_of model.now },
}

impl Checks for ReachBoundsClaim<'_> {
    ghost use Rattle.mdp_bounds.specs.ReachClaim.{rules_at};

    ghost count = { λ x. states_of x.model.now };

    ghost checks = { λ x s. rules_at x s (slice_index x.choices.now s) };

    /// The rules at state `s`.
    fn check(self, s: u32) -> Result<(), Objection> {
        self.state_at(s, self.choices[s as usize])
    }
}

impl<'a> ReachBoundsClaim<'a> {
    ghost use Rattle.mdp_bounds.specs.ReachClaim.{covers_at, follows_at, rules_at};

    /// The values that the half on each choice is asked of in this direction.
    fn covering(self, dir: Dir) -> &'a [Frac]
        ensures values { result.now ≡ covering dir self.entry.lower.now self.entry.upper.now }
        ensures one_each { length result.now ≡ states_of self.entry.model.now }
    {
        match dir {
            Dir::Max => self.upper,
            Dir::Min => self.lower,
        }
    }

    /// The half on each choice, at state `s`.
    fn covers(self, s: u32) -> Result<(), Objection>
        requires { s < states_of self.model.now }
        ensures { result ≡ objection_to (covers_at self.entry s) }
    {
        let half = ReachHalf {
            dir: self.dir,
            model: self.model,
            goals: self.goals,
            values: self.covering(self.dir),
            state: s,
        };
        half.on_each()
    }

    /// The half on the policy's choice, at state `s`.
    fn follows(self, s: u32, choice: u32) -> Result<(), Objection>
        requires state { s < states_of self.model.now }
        requires choice { choice < length (choices_at self.model.now s) }
        ensures { result ≡ objection_to (follows_at self.entry s choice) }
    {
        let half = ReachHalf {
            dir: self.dir,
            model: self.model,
            goals: self.goals,
            values: self.covering(reversed(self.dir)),
            state: s,
        };
        half.on_policy(choice)
    }

    /// The rules at state `s`, where the policy takes this choice.
    fn state_at(self, s: u32, choice: u32) -> Result<(), Objection>
        requires { s < states_of self.model.now }
        ensures { result ≡ objection_to (rules_at self.entry s choice) }
    {
        choice_at(self.model, s, choice)?;
        self.covers(s)?;
        self.follows(s, choice)?;
        rank_at_state(
            self.model, self.goals, self.dir, self.lower, self.ranks, s, choice,
        )
    }
}

/// The rules at state `s` for this certificate: the first that fails, or the first sum past width.
pub fn reach_bounds_at_state(
    model: &Model,
    goals: &Marks,
    dir: Dir,
    cert: &ReachBoundsCert,
    s: u32,
) -> Result<(), Objection>
    requires goals { length goals.now ≡ states_of model.now }
    requires lower { length cert.now.lower.items ≡ states_of model.now }
    requires upper { length cert.now.upper.items ≡ states_of model.now }
    requires choices { length cert.now.choices.items ≡ states_of model.now }
    requires ranks { length cert.now.ranks.items ≡ states_of model.now }
    requires state { s < states_of model.now }
    ensures { result
        ≡ objection_to (bounds_at dir model.now goals.now cert.now.lower.items cert.now.upper.items cert.now.ranks.items
        s (slice_index cert.now.choices.items s)) }
{
    let claim = ReachBoundsClaim {
        dir,
        model,
        goals,
        lower: &cert.lower,
        upper: &cert.upper,
        choices: &cert.choices,
        ranks: &cert.ranks,
    };
    claim.check(s)
}

/// Whether the greatest, or the least, probabilities lie between the values, and those of the policy too: what rules 2 to 8 say of the
/// values, the policy and the ranks. Yes, the first rule that is false with its place, or the place of the first sum past width where that
/// comes before. The bounds 0 and 1 get yes on every model, and so do exact values that `holds_reach` says yes of, as lower and upper values.
/// It takes no memory.
pub fn holds_bounds_reach(model: &Model, goals: &Marks, dir: Dir, cert: &ReachBoundsCert) -> Verdict
    requires goals { length goals.now ≡ states_of model.now }
    requires lower { length cert.now.lower.items ≡ states_of model.now }
    requires upper { length cert.now.upper.items ≡ states_of model.now }
    requires choices { length cert.now.choices.items ≡ states_of model.now }
    requires ranks { length cert.now.ranks.items ≡ states_of model.now }
    ensures verdict { result
        ≡ verdict_of (bounds_checks dir model.now goals.now cert.now.lower.items cert.now.upper.items cert.now.choices.items cert.now.ranks.items) }
    ensures rules { IsYes result
        ↔ IsReachBounds dir model.now goals.now cert.now.lower.items cert.now.upper.items cert.now.choices.items cert.now.ranks.items }
    ensures max { dir ≡ Max → IfYes result (ReachMaxBetween model.now goals.now cert.now.lower.items cert.now.upper.items cert.now.choices.items) }
    ensures min { dir ≡ Min → IfYes result (ReachMinBetween model.now goals.now cert.now.lower.items cert.now.upper.items cert.now.choices.items) }
    ensures exact { cert.now.upper.items ≡ cert.now.lower.items
        → IsReach dir model.now goals.now cert.now.lower.items cert.now.choices.items cert.now.ranks.items → IsYes result }
    ensures trivial { IsTrivialReach model.now goals.now cert.now.lower.items cert.now.upper.items cert.now.choices.items cert.now.ranks.items
        → IsYes result }
{
    model.known();
    let claim = ReachBoundsClaim {
        dir,
        model,
        goals,
        lower: cert.lower.as_slice(),
        upper: cert.upper.as_slice(),
        choices: cert.choices.as_slice(),
        ranks: cert.ranks.as_slice(),
    };
    verdict_after(each_below(model.states(), claim))
}
