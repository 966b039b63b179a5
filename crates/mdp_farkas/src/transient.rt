ghost use Rattle.std.specs.Prelude.{◌≡◌, ◌<◌, length, nat_lt, slice_index};
ghost use Rattle.mdp_spec.specs.Mdp.{states_of, choices_at};
ghost use Rattle.mdp_farkas.specs.{Reward.{stay_check, stay_checks, is_looked_at, rank_fall_check, rank_fall_checks}, Verdict.{objection_to}};

use crate::finite::stays_finite_at;
use crate::targets::{StateTest, some_target};
use crate::verdict::judged;
use crate::walk::{OneCheck, each_choice};
use mdp_claims::{Objection, Rule};
use mdp_num::Frac;
use mdp_rows::{Dir, Model};

/// Values that are held against a model, at a state of finite value.
#[derive(Clone, Copy)]
struct Stays<'a> {
    model: &'a Model,
    values: &'a [Option<Frac>],
    state: u32,
    ghost values_each: { length values.now ≡ states_of model.now },
    ghost in_model: { state < states_of model.now },
}

impl OneCheck for Stays<'_> {
    ghost count = { λ x. length (choices_at x.model.now x.state) };

    ghost check = { λ x. stay_check x.model.now x.values.now x.state };

    /// Each entry of the row of choice `c` leads to a finite value.
    fn check_at(self, c: u32) -> Result<(), Objection> {
        let stays = stays_finite_at(self.model, self.values, self.state, c);
        judged(Ok(stays), Rule::FiniteTargets, self.state, Some(c))
    }
}

/// Each entry of the row of each choice, or for the least reward of the policy's alone, leads to a finite value.
pub fn stays_at_state(
    model: &Model,
    dir: Dir,
    values: &[Option<Frac>],
    s: u32,
    choice: u32,
) -> Result<(), Objection>
    requires values { length values.now ≡ states_of model.now }
    requires state { s < states_of model.now }
    requires choice { choice < length (choices_at model.now s) }
    ensures { result ≡ objection_to (stay_checks dir model.now values.now s choice) }
{
    let stays = Stays {
        model,
        values,
        state: s,
    };
    match dir {
        Dir::Max => each_choice(model, s, stays),
        Dir::Min => stays.check_at(choice),
    }
}

/// Whether the value is held against choice `c`: for the least reward only against one whose row leads to finite values only.
pub fn is_held_against(model: &Model, dir: Dir, values: &[Option<Frac>], s: u32, c: u32) -> bool
    requires values { length values.now ≡ states_of model.now }
    requires state { s < states_of model.now }
    requires choice { c < length (choices_at model.now s) }
    ensures { result ≡ is_looked_at dir model.now values.now s c }
{
    match dir {
        Dir::Max => true,
        Dir::Min => stays_finite_at(model, values, s, c),
    }
}

/// Ranks that are held against a model, at a state.
#[derive(Clone, Copy)]
struct Falls<'a> {
    model: &'a Model,
    ranks: &'a [u32],
    state: u32,
    ghost ranks_each: { length ranks.now ≡ states_of model.now },
    ghost in_model: { state < states_of model.now },
}

impl OneCheck for Falls<'_> {
    ghost count = { λ x. length (choices_at x.model.now x.state) };

    ghost check = { λ x. rank_fall_check x.model.now x.ranks.now x.state };

    /// An entry of the row of choice `c` leads to a smaller rank.
    fn check_at(self, c: u32) -> Result<(), Objection> {
        let falls = some_target(self.model, self.state, c, self);
        judged(Ok(falls), Rule::FiniteRankFalls, self.state, Some(c))
    }
}

impl StateTest for Falls<'_> {
    ghost states = { λ x. states_of x.model.now };

    ghost test = { λ x t. nat_lt (slice_index x.ranks.now t) (slice_index x.ranks.now x.state) };

    /// Whether state `t` has a smaller rank.
    fn passes(self, t: u32) -> bool {
        self.ranks[t as usize] < self.ranks[self.state as usize]
    }
}

/// An entry of the row of each choice, or for the least reward of the policy's alone, leads to a smaller rank.
pub fn rank_falls_at_state(
    model: &Model,
    dir: Dir,
    ranks: &[u32],
    s: u32,
    choice: u32,
) -> Result<(), Objection>
    requires ranks { length ranks.now ≡ states_of model.now }
    requires state { s < states_of model.now }
    requires choice { choice < length (choices_at model.now s) }
    ensures { result ≡ objection_to (rank_fall_checks dir model.now ranks.now s choice) }
{
    let falls = Falls {
        model,
        ranks,
        state: s,
    };
    match dir {
        Dir::Max => each_choice(model, s, falls),
        Dir::Min => falls.check_at(choice),
    }
}
