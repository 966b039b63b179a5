ghost use Rattle.std.specs.Prelude.{◌≡◌, length, replicate, IfOk};
ghost use Rattle.mdp_spec.specs.Mdp.{states_of};
ghost use Rattle.mdp_graph.specs.{Sets.{marked}, Layers.{AreRanks, AreReached, AreLeastRanks}, Meet.{must_step, AllFall}};

use crate::layers::Layers;
use crate::pass::Pass;
use crate::ranking::marked_states;
use mdp_num::Memory;
use mdp_rows::{Marks, Model};
use std::alloc::{AllocError, Global};

/// The least ranks by which states meet a target whatever is chosen; none where they don't.
pub(crate) fn meeting_ranks(
    alloc: Global,
    model: &Model,
    target: &Marks,
) -> Result<Vec<Option<u32>>, Memory>
    requires target { length target.now ≡ states_of model.now }
    ensures { IfOk result (λ ranks. AreRanks (must_step model.now) (marked target.now) (states_of model.now) ranks.items) }
{
    model.known();
    let mut layers = Layers::new(alloc, model)?;
    let mut met = marked_states(alloc, target, model.states())?;
    met = layers.next(alloc, model, &met, 0)?;
    let mut rank = 0;
    while !met.is_empty() {
        rank += 1;
        met = layers.next(alloc, model, &met, rank)?;
    }
    Ok(layers.ranks)
}

/// What `must_meet` answers, by its ranks.
pub(crate) fn meeting_pass(
    alloc: Global,
    model: &Model,
    target: &Marks,
    ranks: &[Option<u32>],
) -> Result<Pass, AllocError>
    requires ranks { AreRanks (must_step model.now) (marked target.now) (states_of model.now) ranks.now }
    ensures marks { IfOk result (λ pass. AreReached (must_step model.now) (marked target.now) (states_of model.now) pass.marks) }
    ensures ranks { IfOk result (λ pass. AreLeastRanks (must_step model.now) (marked target.now) (states_of model.now) pass.marks pass.ranks.items) }
    ensures falls { IfOk result (λ pass. AllFall model.now target.now pass.marks pass.ranks.items) }
    ensures choices { IfOk result (λ pass. pass.choices.items ≡ replicate (states_of model.now) 0) }
{
    model.known();
    let pass = Pass::without_choices(alloc, ranks)?;
    Ok(pass)
}

/// The states that meet a target whatever is chosen. Targets have rank 0. Each choice of any other marked state has a marked successor of
/// smaller rank. Choices are 0.
pub fn must_meet(alloc: Global, model: &Model, target: &Marks) -> Result<Pass, Memory>
    requires target { length target.now ≡ states_of model.now }
    ensures marks { IfOk result (λ pass. AreReached (must_step model.now) (marked target.now) (states_of model.now) pass.marks) }
    ensures ranks { IfOk result (λ pass. AreLeastRanks (must_step model.now) (marked target.now) (states_of model.now) pass.marks pass.ranks.items) }
    ensures falls { IfOk result (λ pass. AllFall model.now target.now pass.marks pass.ranks.items) }
    ensures choices { IfOk result (λ pass. pass.choices.items ≡ replicate (states_of model.now) 0) }
{
    let ranks = meeting_ranks(alloc, model, target)?;
    Ok(meeting_pass(alloc, model, target, &ranks)?)
}
