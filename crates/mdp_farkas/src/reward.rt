ghost use Rattle.std.specs.{Prelude.{◌≡◌, ◌<◌, ◌↔◌, length, slice_index, [], ◌∷◌}, Result.{result_ok}};
ghost use Rattle.mdp_spec.specs.{Mdp.{states_of, choices_at}, Bounds.{RewardMax, RewardMin}};
ghost use Rattle.mdp_farkas.specs.Reward.{is_nonneg, is_zero, nonneg_check, goal_checks, sign_check, sign_checks, earning_stands, earning_checks};
ghost use Rattle.mdp_farkas.specs.Reward.{reward_checks_at, reward_checks, IsReward};
ghost use Rattle.mdp_farkas.specs.Verdict.{objection_to, verdict_of, IsYes, IfYes};
ghost use Rattle.mdp_rows.specs.declared.dir.Dir.TheVariants.{Max, Min};

use crate::bellman::value_stands;
use crate::compare::{at_least, equal};
use crate::finite::{finite_at, finite_sum, is_infinite_at};
use crate::infinite::infinite_state;
use crate::reach::{choice_at, reversed};
use crate::transient::{is_held_against, rank_falls_at_state, stays_at_state};
use crate::verdict::{judged, verdict_after};
use crate::walk::{Checks, OneCheck, each_below, each_choice};
use mdp_claims::{Objection, RewardCert, Rule, Verdict};
use mdp_num::{Frac, Wide};
use mdp_rows::{Dir, Marks, Model};

/// Whether a value is at least 0, as an infinite one is.
fn at_least_zero(value: Option<Frac>) -> Result<bool, Wide>
    ensures { result_ok result ≡ is_nonneg value }
{
    match value {
        Some(number) => at_least(&number, &Frac::whole(0)),
        None => Ok(true),
    }
}

/// Whether a value is 0, as an infinite one isn't.
fn equal_to_zero(value: Option<Frac>) -> Result<bool, Wide>
    ensures { result_ok result ≡ is_zero value }
{
    match value {
        Some(number) => equal(&number, &Frac::whole(0)),
        None => Ok(false),
    }
}

/// Rewards, a policy and ranks that are held against a model.
#[derive(Clone, Copy)]
struct RewardClaim<'a> {
    dir: Dir,
    model: &'a Model,
    name: u32,
    goals: &'a Marks,
    values: &'a [Option<Frac>],
    choices: &'a [u32],
    ranks: &'a [u32],
    ghost named: { name < length model.now.names },
    ghost goals_each: { length goals.now ≡ states_of model.now },
    ghost values_each: { length values.now ≡ states_of model.now },
    ghost choices_each: { length choices.now ≡ states_of model.now },
    ghost ranks_each: { length ranks.now ≡ states_of model.now },
}

impl Checks for RewardClaim<'_> {
    ghost count = { λ x. states_of x.model.now };

    ghost checks = { λ x s. reward_checks_at x.dir x.model.now x.name x.goals.now x.values.now x.ranks.now s (slice_index x.choices.now s) };

    /// The rules at state `s`.
    fn check(self, s: u32) -> Result<(), Objection> {
        let choice = self.choices[s as usize];
        choice_at(self.model, s, choice)?;
        self.nonneg_at(s)?;
        self.rules_at(s, choice)
    }
}

/// The same at one state.
#[derive(Clone, Copy)]
struct RewardAtState<'a> {
    claim: RewardClaim<'a>,
    state: u32,
    ghost in_model: { state < states_of claim.model.now },
}

impl Checks for RewardAtState<'_> {
    ghost use Rattle.mdp_farkas.specs.RewardClaim.{earns_at};

    ghost count = { λ x. length (choices_at x.claim.model.now x.state) };

    ghost checks = { λ x. earns_at x.claim x.state };

    /// Bellman's inequality at choice `c`, where that counts.
    fn check(self, c: u32) -> Result<(), Objection> {
        let claim = self.claim;
        if !is_held_against(claim.model, claim.dir, claim.values, self.state, c) {
            return Ok(());
        }
        let stands = claim.earning_stands(claim.dir, self.state, c);
        judged(stands, Rule::RewardOnEachChoice, self.state, Some(c))
    }
}

impl OneCheck for RewardAtState<'_> {
    ghost count = { λ x. length (choices_at x.claim.model.now x.state) };

    ghost check = { λ x. sign_check x.claim.model.now x.claim.name x.state };

    /// The reward of choice `c` is at least 0.
    fn check_at(self, c: u32) -> Result<(), Objection> {
        let claim = self.claim;
        let reward = claim.model.reward(claim.name, self.state, c);
        let nonneg = at_least(&reward, &Frac::whole(0));
        judged(nonneg, Rule::RewardNotNegative, self.state, Some(c))
    }
}

impl RewardClaim<'_> {
    ghost use Rattle.mdp_farkas.specs.RewardClaim.{asked_of_values, policy_at, transient_at, places_at, rules_at};

    /// The value of state `s` is at least 0.
    fn nonneg_at(self, s: u32) -> Result<(), Objection>
        requires { s < states_of self.model.now }
        ensures { result ≡ objection_to (nonneg_check self.entry.values.now s ∷ []) }
    {
        let holds = at_least_zero(self.values[s as usize]);
        judged(holds, Rule::RewardValue, s, None)
    }

    /// The goal `s` has the value 0 and rank 0.
    fn goal_at(self, s: u32) -> Result<(), Objection>
        requires { s < states_of self.model.now }
        ensures { result ≡ objection_to (goal_checks self.entry.values.now self.entry.ranks.now s) }
    {
        let is_zero = equal_to_zero(self.values[s as usize]);
        judged(is_zero, Rule::RewardValue, s, None)?;
        judged(Ok(self.ranks[s as usize] == 0), Rule::RewardValue, s, None)
    }

    /// Whether the value of state `s` is at least, or for the least reward at most, what its choice `c` earns: its reward and the sum over its row.
    fn earning_stands(self, dir: Dir, s: u32, c: u32) -> Result<bool, Wide>
        requires state { s < states_of self.model.now }
        requires choice { c < length (choices_at self.model.now s) }
        ensures { result_ok result ≡ earning_stands dir self.entry.model.now self.entry.name self.entry.values.now s c }
    {
        let reward = self.model.reward(self.name, s, c);
        let sum = finite_sum(self.model.row(s, c), &reward, self.values)?;
        value_stands(dir, &finite_at(self.values, s), &sum)
    }

    /// The inequality at each choice of state `s` that counts.
    fn earnings_at(self, s: u32) -> Result<(), Objection>
        requires { s < states_of self.model.now }
        ensures { result ≡ objection_to (asked_of_values self.entry earning_checks s) }
    {
        let at = RewardAtState {
            claim: self,
            state: s,
        };
        each_below(self.model.choices(s), at)
    }

    /// Bellman's inequality the other way round at state `s`, for the policy's choice, and that ranks fall there.
    fn policy_at(self, s: u32, choice: u32) -> Result<(), Objection>
        requires state { s < states_of self.model.now }
        requires choice { choice < length (choices_at self.model.now s) }
        ensures { result ≡ objection_to (policy_at self.entry s choice) }
    {
        let stands = self.earning_stands(reversed(self.dir), s, choice);
        judged(stands, Rule::RewardOnPolicy, s, Some(choice))?;
        rank_falls_at_state(self.model, self.dir, self.ranks, s, choice)
    }

    /// The rules at state `s`, which is no goal and has a finite value.
    #[tactic(auto, using(crate::proofs::Objections::walked))]
    fn transient_at(self, s: u32, choice: u32) -> Result<(), Objection>
        requires state { s < states_of self.model.now }
        requires choice { choice < length (choices_at self.model.now s) }
        ensures { result ≡ objection_to (transient_at self.entry s choice) }
    {
        stays_at_state(self.model, self.dir, self.values, s, choice)?;
        self.earnings_at(s)?;
        self.policy_at(s, choice)
    }

    /// The rules of a goal, of a state of infinite value or of another one, as state `s` is.
    fn place_at(self, s: u32, choice: u32) -> Result<(), Objection>
        requires state { s < states_of self.model.now }
        requires choice { choice < length (choices_at self.model.now s) }
        ensures { result ≡ objection_to (places_at self.entry s choice) }
    {
        if self.goals.at(s) {
            self.goal_at(s)
        } else if is_infinite_at(self.values, s) {
            infinite_state(self.model, self.dir, self.values, self.ranks, s, choice)
        } else {
            self.transient_at(s, choice)
        }
    }

    /// The reward of each choice is at least 0.
    fn signs_at(self, s: u32) -> Result<(), Objection>
        requires { s < states_of self.model.now }
        ensures { result ≡ objection_to (sign_checks self.entry.model.now self.entry.name s) }
    {
        let at = RewardAtState {
            claim: self,
            state: s,
        };
        each_choice(self.model, s, at)
    }

    /// The rules for the value and the rank of state `s`, and for its rewards.
    #[tactic(auto, using(crate::proofs::Objections::walked))]
    fn rules_at(self, s: u32, choice: u32) -> Result<(), Objection>
        requires state { s < states_of self.model.now }
        requires choice { choice < length (choices_at self.model.now s) }
        ensures { result ≡ objection_to (rules_at self.entry s choice) }
    {
        self.place_at(s, choice)?;
        self.signs_at(s)
    }
}

/// Whether the values are the greatest, or the least, rewards of the name of place `m` until a goal, and the policy one that comes close to
/// them: what rules 2, 9 to 15 and 25 say of the values, the policy and the ranks. Yes, the first rule that is false with its place, or the
/// place of the first written term past width where that comes before. It takes no memory.
pub fn holds_reward(model: &Model, m: u32, goals: &Marks, dir: Dir, cert: &RewardCert) -> Verdict
    requires name { m < length model.now.names }
    requires goals { length goals.now ≡ states_of model.now }
    requires values { length cert.now.values.items ≡ states_of model.now }
    requires choices { length cert.now.choices.items ≡ states_of model.now }
    requires ranks { length cert.now.ranks.items ≡ states_of model.now }
    ensures verdict { result
        ≡ verdict_of (reward_checks dir model.now m goals.now cert.now.values.items cert.now.choices.items cert.now.ranks.items) }
    ensures rules { IsYes result ↔ IsReward dir model.now m goals.now cert.now.values.items cert.now.choices.items cert.now.ranks.items }
    ensures max { dir ≡ Max → IfYes result (RewardMax model.now m goals.now cert.now.choices.items cert.now.values.items) }
    ensures min { dir ≡ Min → IfYes result (RewardMin model.now m goals.now cert.now.choices.items cert.now.values.items) }
{
    model.known();
    let claim = RewardClaim {
        dir,
        model,
        name: m,
        goals,
        values: cert.values.as_slice(),
        choices: cert.choices.as_slice(),
        ranks: cert.ranks.as_slice(),
    };
    verdict_after(each_below(model.states(), claim))
}
