ghost use Rattle.std.specs.Prelude.{◌≡◌, ◌<◌, ◌↔◌, length, slice_index, [], ◌∷◌};
ghost use Rattle.mdp_spec.specs.{Mdp.{states_of, choices_at}, Between.{RewardMaxBetween, RewardMinBetween}};
ghost use Rattle.mdp_farkas.specs.{Reward.{IsReward}, Verdict.{objection_to, verdict_of, IsYes, IfYes}};
ghost use Rattle.mdp_rows.specs.declared.dir.Dir.TheVariants.{Max, Min};
ghost use Rattle.mdp_bounds.specs.Reward.{order_check, sign_check, sign_checks, reward_bounds_at, reward_bounds_checks};
ghost use Rattle.mdp_bounds.specs.Reward.{IsRewardBounds, IsTrivialReward};

use crate::column::RewardColumn;
use crate::compare::at_most;
use mdp_claims::RewardBoundsCert;
use mdp_farkas::{
    Checks, Objection, OneCheck, Rule, Verdict, choice_at, each_below, each_choice, is_infinite_at,
    judged, verdict_after,
};
use mdp_num::Frac;
use mdp_rows::{Dir, Marks, Model};

/// Lower and upper values, a policy and ranks that are held against a model.
#[derive(Clone, Copy)]
struct RewardBoundsClaim<'a> {
    dir: Dir,
    model: &'a Model,
    name: u32,
    goals: &'a Marks,
    lower: &'a [Option<Frac>],
    upper: &'a [Option<Frac>],
    choices: &'a [u32],
    ranks: &'a [u32],
    ghost named: { name < length model.now.names },
    ghost goals_each: { length goals.now ≡ states_of model.now },
    ghost lower_each: { length lower.now ≡ states_of model.now },
    ghost upper_each: { length upper.now ≡ states_of model.now },
    ghost choices_each: { length choices.now ≡ states_of model.now },
    ghost ranks_each: { length ranks.now ≡ states_of model.now },
}

impl Checks for RewardBoundsClaim<'_> {
    ghost use Rattle.mdp_bounds.specs.RewardClaim.{rules_at};

    ghost count = { λ x. states_of x.model.now };

    ghost checks = { λ x s. rules_at x s (slice_index x.choices.now s) };

    /// The rules at state `s`.
    fn check(self, s: u32) -> Result<(), Objection> {
        self.state_at(s, self.choices[s as usize])
    }
}

/// The rewards of one state's choices.
#[derive(Clone, Copy)]
struct Signs<'a> {
    model: &'a Model,
    name: u32,
    state: u32,
    ghost named: { name < length model.now.names },
    ghost in_model: { state < states_of model.now },
}

impl OneCheck for Signs<'_> {
    ghost count = { λ x. length (choices_at x.model.now x.state) };

    ghost check = { λ x. sign_check x.model.now x.name x.state };

    /// The reward of choice `c` is at least 0.
    fn check_at(self, c: u32) -> Result<(), Objection> {
        let reward = self.model.reward(self.name, self.state, c);
        let nonneg = at_most(&Frac::whole(0), &reward);
        judged(Ok(nonneg), Rule::RewardNotNegative, self.state, Some(c))
    }
}

impl RewardBoundsClaim<'_> {
    ghost use Rattle.mdp_bounds.specs.RewardClaim.{rules_at};

    /// The upper value of state `s` is infinite where the lower one is.
    fn order_at(self, s: u32) -> Result<(), Objection>
        requires { s < states_of self.model.now }
        ensures { result ≡ objection_to (order_check self.entry.lower.now self.entry.upper.now s ∷ []) }
    {
        let ordered = !is_infinite_at(self.lower, s) || is_infinite_at(self.upper, s);
        judged(Ok(ordered), Rule::RewardValue, s, None)
    }

    /// The reward of each choice is at least 0.
    fn signs_at(self, s: u32) -> Result<(), Objection>
        requires { s < states_of self.model.now }
        ensures { result ≡ objection_to (sign_checks self.entry.model.now self.entry.name s) }
    {
        let signs = Signs {
            model: self.model,
            name: self.name,
            state: s,
        };
        each_choice(self.model, s, signs)
    }

    /// The rules at state `s`, where the policy takes this choice.
    fn state_at(self, s: u32, choice: u32) -> Result<(), Objection>
        requires { s < states_of self.model.now }
        ensures { result ≡ objection_to (rules_at self.entry s choice) }
    {
        choice_at(self.model, s, choice)?;
        self.order_at(s)?;
        let lower = RewardColumn {
            dir: self.dir,
            model: self.model,
            name: self.name,
            goals: self.goals,
            values: self.lower,
            ranks: self.ranks,
        };
        lower.lower(s, choice)?;
        let upper = RewardColumn {
            dir: self.dir,
            model: self.model,
            name: self.name,
            goals: self.goals,
            values: self.upper,
            ranks: self.ranks,
        };
        upper.upper(s, choice)?;
        self.signs_at(s)
    }
}

/// The rules at state `s` for this certificate: the first that fails, or the first sum past width.
pub fn reward_bounds_at_state(
    model: &Model,
    m: u32,
    goals: &Marks,
    dir: Dir,
    cert: &RewardBoundsCert,
    s: u32,
) -> Result<(), Objection>
    requires name { m < length model.now.names }
    requires goals { length goals.now ≡ states_of model.now }
    requires lower { length cert.now.lower.items ≡ states_of model.now }
    requires upper { length cert.now.upper.items ≡ states_of model.now }
    requires choices { length cert.now.choices.items ≡ states_of model.now }
    requires ranks { length cert.now.ranks.items ≡ states_of model.now }
    requires state { s < states_of model.now }
    ensures { result
        ≡ objection_to (reward_bounds_at dir model.now m goals.now cert.now.lower.items cert.now.upper.items cert.now.ranks.items
        s (slice_index cert.now.choices.items s)) }
{
    let claim = RewardBoundsClaim {
        dir,
        model,
        name: m,
        goals,
        lower: &cert.lower,
        upper: &cert.upper,
        choices: &cert.choices,
        ranks: &cert.ranks,
    };
    claim.check(s)
}

/// Whether the greatest, or the least, rewards of the name of place `m` until a goal lie between the values, and those of the policy too: what
/// rules 2, 9 to 15 and 25 say of the values, the policy and the ranks. Yes, the first rule that is false with its place, or the place of the
/// first sum past width where that comes before. The bounds 0 and infinite get yes wherever the ranks show where the reward is finite, and so
/// do exact values that `holds_reward` says yes of, as lower and upper values. It takes no memory.
pub fn holds_bounds_reward(
    model: &Model,
    m: u32,
    goals: &Marks,
    dir: Dir,
    cert: &RewardBoundsCert,
) -> Verdict
    requires name { m < length model.now.names }
    requires goals { length goals.now ≡ states_of model.now }
    requires lower { length cert.now.lower.items ≡ states_of model.now }
    requires upper { length cert.now.upper.items ≡ states_of model.now }
    requires choices { length cert.now.choices.items ≡ states_of model.now }
    requires ranks { length cert.now.ranks.items ≡ states_of model.now }
    ensures verdict { result
        ≡ verdict_of (reward_bounds_checks dir model.now m goals.now cert.now.lower.items cert.now.upper.items
        cert.now.choices.items cert.now.ranks.items) }
    ensures rules { IsYes result
        ↔ IsRewardBounds dir model.now m goals.now cert.now.lower.items cert.now.upper.items cert.now.choices.items cert.now.ranks.items }
    ensures max { dir ≡ Max → IfYes result (RewardMaxBetween model.now m goals.now cert.now.choices.items cert.now.lower.items cert.now.upper.items) }
    ensures min { dir ≡ Min → IfYes result (RewardMinBetween model.now m goals.now cert.now.choices.items cert.now.lower.items cert.now.upper.items) }
    ensures exact { cert.now.upper.items ≡ cert.now.lower.items
        → IsReward dir model.now m goals.now cert.now.lower.items cert.now.choices.items cert.now.ranks.items → IsYes result }
    ensures trivial { IsTrivialReward dir model.now m goals.now cert.now.lower.items cert.now.upper.items cert.now.choices.items cert.now.ranks.items
        → IsYes result }
{
    model.known();
    let claim = RewardBoundsClaim {
        dir,
        model,
        name: m,
        goals,
        lower: cert.lower.as_slice(),
        upper: cert.upper.as_slice(),
        choices: cert.choices.as_slice(),
        ranks: cert.ranks.as_slice(),
    };
    verdict_after(each_below(model.states(), claim))
}
