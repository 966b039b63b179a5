ghost use Rattle.std.specs.Prelude.{◌≡◌, ◌<◌, length};
ghost use Rattle.mdp_math.specs.Rational.{lt_ℚ};
ghost use Rattle.mdp_spec.specs.Mdp.{states_of, choices_at};
ghost use Rattle.mdp_farkas.specs.{Compare.{0ℚ}, Reach.{ends, leads_down, fall_check, rank_checks}, Verdict.{objection_to}};

use crate::targets::{StateTest, some_target};
use crate::verdict::judged;
use crate::walk::{OneCheck, each_choice};
use mdp_claims::{Objection, Rule};
use mdp_num::Frac;
use mdp_rows::{Dir, Marks, Model};

/// Whether a number is above 0.
fn is_above_zero(value: &Frac) -> bool
    ensures { result ≡ lt_ℚ 0ℚ value.now }
{
    value.sign() > 0
}

/// Whether state `s` is a goal or has value 0.
fn ends_at(goals: &Marks, values: &[Frac], s: u32) -> bool
    requires goals { s < length goals.now }
    requires values { s < length values.now }
    ensures { result ≡ ends goals.now values.now s }
{
    goals.at(s) || !is_above_zero(&values[s as usize])
}

/// Values and ranks that are held against a model.
#[derive(Clone, Copy)]
struct Ranked<'a> {
    dir: Dir,
    model: &'a Model,
    values: &'a [Frac],
    ranks: &'a [u32],
    state: u32,
    ghost values_each: { length values.now ≡ states_of model.now },
    ghost ranks_each: { length ranks.now ≡ states_of model.now },
    ghost in_model: { state < states_of model.now },
}

impl OneCheck for Ranked<'_> {
    ghost count = { λ r. length (choices_at r.model.now r.state) };

    ghost check = { λ r. fall_check r.dir r.model.now r.values.now r.ranks.now r.state };

    /// An entry of the row of choice `c` leads on from the state.
    fn check_at(self, c: u32) -> Result<(), Objection> {
        let falls = some_target(self.model, self.state, c, self);
        judged(Ok(falls), Rule::RankFalls, self.state, Some(c))
    }
}

impl StateTest for Ranked<'_> {
    ghost states = { λ r. states_of r.model.now };

    ghost test = { λ r. leads_down r.dir r.values.now r.ranks.now r.state };

    /// Whether another state leads on from the state: its rank is smaller, and for the greatest probability its value is above 0.
    fn passes(self, t: u32) -> bool {
        let lower = self.ranks[t as usize] < self.ranks[self.state as usize];
        match self.dir {
            Dir::Max => lower && is_above_zero(&self.values[t as usize]),
            Dir::Min => lower,
        }
    }
}

/// State `s` has rank 0 where it is a goal or has value 0; else its row, or for the least probability each row, leads on from it.
pub fn rank_at_state(
    model: &Model,
    goals: &Marks,
    dir: Dir,
    values: &[Frac],
    ranks: &[u32],
    s: u32,
    choice: u32,
) -> Result<(), Objection>
    requires goals { length goals.now ≡ states_of model.now }
    requires values { length values.now ≡ states_of model.now }
    requires ranks { length ranks.now ≡ states_of model.now }
    requires state { s < states_of model.now }
    requires choice { choice < length (choices_at model.now s) }
    ensures { result ≡ objection_to (rank_checks dir model.now goals.now values.now ranks.now s choice) }
{
    if ends_at(goals, values, s) {
        return judged(Ok(ranks[s as usize] == 0), Rule::RankZero, s, None);
    }
    let ranked = Ranked {
        dir,
        model,
        values,
        ranks,
        state: s,
    };
    match dir {
        Dir::Max => ranked.check_at(choice),
        Dir::Min => each_choice(model, s, ranked),
    }
}
