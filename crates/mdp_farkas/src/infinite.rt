ghost use Rattle.std.specs.Prelude.{◌≡◌, ◌<◌, ◌==◌, ◌&&◌, length, [], ◌∷◌, nat_lt, slice_index};
ghost use Rattle.mdp_spec.specs.{Bounds.{infinite}, Tree.{is_marked}, Mdp.{states_of, choices_at}};
ghost use Rattle.mdp_farkas.specs.Reward.{falls_infinite, stays_infinite, miss_check, all_miss_check, infinite_checks};
ghost use Rattle.mdp_farkas.specs.Verdict.{objection_to};

use crate::finite::is_infinite_at;
use crate::targets::{StateTest, each_target, some_target};
use crate::verdict::judged;
use crate::walk::{OneCheck, each_choice};
use mdp_claims::{Objection, Rule};
use mdp_num::Frac;
use mdp_rows::{Dir, Model};

/// Values and ranks that are held against a model, at a state of infinite value.
#[derive(Clone, Copy)]
struct Missing<'a> {
    model: &'a Model,
    values: &'a [Option<Frac>],
    ranks: &'a [u32],
    state: u32,
    ghost values_each: { length values.now ≡ states_of model.now },
    ghost ranks_each: { length ranks.now ≡ states_of model.now },
    ghost in_model: { state < states_of model.now },
}

impl OneCheck for Missing<'_> {
    ghost use Rattle.mdp_farkas.specs.RewardClaim.{asked_of};

    ghost count = { λ x. length (choices_at x.model.now x.state) };

    ghost check = { λ x. asked_of x all_miss_check };

    /// An entry of the row of choice `c` leads to an infinite value of smaller rank, or each entry to one of this rank.
    fn check_at(self, c: u32) -> Result<(), Objection> {
        let misses = self.falls(c) || self.stays(c);
        judged(Ok(misses), Rule::EachChoiceMisses, self.state, Some(c))
    }
}

impl StateTest for Missing<'_> {
    ghost states = { λ x. states_of x.model.now };

    ghost test = { λ x t. is_marked (infinite x.values.now) t && nat_lt (slice_index x.ranks.now t) (slice_index x.ranks.now x.state) };

    /// Whether state `t` has an infinite value and a smaller rank.
    fn passes(self, t: u32) -> bool {
        is_infinite_at(self.values, t) && self.ranks[t as usize] < self.ranks[self.state as usize]
    }
}

/// The same, of ranks that are the one of the state.
#[derive(Clone, Copy)]
struct Staying<'a> {
    missing: Missing<'a>,
}

impl StateTest for Staying<'_> {
    ghost states = { λ x. states_of x.missing.model.now };

    ghost test = { λ y t. let x = y.missing in
        is_marked (infinite x.values.now) t && (slice_index x.ranks.now t == slice_index x.ranks.now x.state) };

    /// Whether state `t` has an infinite value and the rank of the state.
    fn passes(self, t: u32) -> bool {
        let x = self.missing;
        is_infinite_at(x.values, t) && x.ranks[t as usize] == x.ranks[x.state as usize]
    }
}

impl Missing<'_> {
    ghost use Rattle.mdp_farkas.specs.RewardClaim.{asked_of};

    /// Whether an entry of the row of choice `c` leads to an infinite value of smaller rank.
    fn falls(self, c: u32) -> bool
        requires { c < length (choices_at self.model.now self.state) }
        ensures { result ≡ asked_of self.entry falls_infinite c }
    {
        some_target(self.model, self.state, c, self)
    }

    /// Whether each entry of the row of choice `c` leads to an infinite value of the rank of the state.
    fn stays(self, c: u32) -> bool
        requires { c < length (choices_at self.model.now self.state) }
        ensures { result ≡ asked_of self.entry stays_infinite c }
    {
        each_target(self.model, self.state, c, Staying { missing: self })
    }

    /// An entry of the row of the policy's choice leads to an infinite value of smaller rank; or the rank is 0, and each entry leads to an infinite
    /// value of rank 0.
    fn policy_misses(self, choice: u32) -> Result<(), Objection>
        requires { choice < length (choices_at self.model.now self.state) }
        ensures { result ≡ objection_to (asked_of self.entry miss_check choice ∷ []) }
    {
        let misses = self.falls(choice)
            || (self.ranks[self.state as usize] == 0 && self.stays(choice));
        judged(Ok(misses), Rule::PolicyMisses, self.state, Some(choice))
    }
}

/// The rules at state `s`, whose value is infinite.
pub fn infinite_state(
    model: &Model,
    dir: Dir,
    values: &[Option<Frac>],
    ranks: &[u32],
    s: u32,
    choice: u32,
) -> Result<(), Objection>
    requires values { length values.now ≡ states_of model.now }
    requires ranks { length ranks.now ≡ states_of model.now }
    requires state { s < states_of model.now }
    requires choice { choice < length (choices_at model.now s) }
    ensures { result ≡ objection_to (infinite_checks dir model.now values.now ranks.now s choice) }
{
    let missing = Missing {
        model,
        values,
        ranks,
        state: s,
    };
    match dir {
        Dir::Max => missing.policy_misses(choice),
        Dir::Min => each_choice(model, s, missing),
    }
}
