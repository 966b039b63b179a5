ghost use Rattle.std.specs.Prelude.{◌≡◌, length, IfOk};
ghost use Rattle.mdp_spec.specs.Mdp.{states_of};
ghost use Rattle.mdp_graph.specs.{Sets.{marked}, Layers.{AreRanks, AreLeastRanks}, Choices.{AreLeast}};
ghost use Rattle.mdp_graph.specs.Sure.{inside_step, IsGreatestSure, stays_and_falls};

use crate::falling::{SureRounds, sure_rounds};
use crate::pass::Pass;
use crate::reach::ranks_along;
use mdp_num::Memory;
use mdp_rows::{Marks, Model};
use std::alloc::Global;

/// The least ranks by which states reach a goal by choices all of whose successors are inside.
pub(crate) fn ranks_inside(
    alloc: Global,
    model: &Model,
    inside: &Marks,
    goals: &Marks,
) -> Result<Vec<Option<u32>>, Memory>
    requires inside { length inside.now ≡ states_of model.now }
    requires goals { length goals.now ≡ states_of model.now }
    ensures { IfOk result (λ ranks. AreRanks (inside_step model.now (marked inside.now)) (marked goals.now) (states_of model.now) ranks.items) }
{
    model.known();
    let none = Marks::empty(alloc, model.states())?;
    Ok(ranks_along(alloc, model, inside, &none, goals)?)
}

/// The states from which some policy reaches a goal with certainty: the greatest set that holds the goals and from each state of which a goal
/// can be reached by choices all of whose successors are in the set. Goals have rank 0. The choice of any other marked state is the least one
/// that keeps all successors marked and has one of smaller rank.
///
/// Model checkers call this set Prob1E: some policy comes to a goal with probability 1 (de Alfaro 1997; Baier and Katoen 2008, section 10.6.1).
pub fn sure_some(alloc: Global, model: &Model, goals: &Marks) -> Result<Pass, Memory>
    requires goals { length goals.now ≡ states_of model.now }
    ensures marks { IfOk result (λ pass. IsGreatestSure model.now goals.now pass.marks) }
    ensures ranks { IfOk result (λ pass. AreLeastRanks (inside_step model.now (marked pass.marks)) (marked goals.now)
        (states_of model.now) pass.marks pass.ranks.items) }
    ensures choices { IfOk result (λ pass. AreLeast model.now goals.now pass.marks
        (stays_and_falls model.now pass.marks pass.ranks.items) pass.choices.items) }
{
    let SureRounds { pass, rounds: _ } = sure_rounds(alloc, model, goals)?;
    Ok(pass)
}
