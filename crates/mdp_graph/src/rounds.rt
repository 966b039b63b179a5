ghost use Rattle.std.specs.Prelude.{◌≡◌, length, IfOk};
ghost use Rattle.mdp_spec.specs.Mdp.{states_of};
ghost use Rattle.mdp_graph.specs.Rounds.{AreRounds};

use crate::falling::falling_rounds;
use crate::pass::plain_ranks;
use mdp_num::Memory;
use mdp_rows::{Marks, Model};
use std::alloc::Global;

/// For each state outside the greatest sure set the round in which it is removed, from 1 on; 0 at the others. A round removes the states that
/// can't reach a goal by choices all of whose successors are left.
pub fn rounds_outside(alloc: Global, model: &Model, goals: &Marks) -> Result<Vec<u32>, Memory>
    requires { length goals.now ≡ states_of model.now }
    ensures { IfOk result (λ rounds. AreRounds model.now goals.now rounds.items) }
{
    Ok(plain_ranks(alloc, &falling_rounds(alloc, model, goals)?)?)
}
