ghost use Rattle.std.specs.{Prelude.{◌≡◌, ◌<◌, replicate, IfOk}, List.{All}};
ghost use Rattle.mdp_spec.specs.Mdp.{states_of};
ghost use Rattle.mdp_graph.specs.NextLayer.{AreLayers, IsNext};

use crate::ranking::{give_rank, no_ranks};
use crate::waiting::Waiting;
use mdp_num::Memory;
use mdp_rows::{Model, Preds, preds_of};
use std::alloc::{AllocError, Global};

/// Ranks that are given layer by layer, with the choices that wait for a successor with a rank.
#[derive(Drop)]
pub(crate) struct Layers {
    /// The choices by the states that they lead to.
    pub preds: Preds,
    /// The choices none of whose successors has a rank so far.
    pub waiting: Waiting,
    /// The ranks; none where a state has none so far.
    pub ranks: Vec<Option<u32>>,
}

impl Layers {
    /// No state has a rank.
    pub(crate) fn new(alloc: Global, model: &Model) -> Result<Layers, Memory>
        ensures layers { IfOk result (λ layers. AreLayers model.now layers.preds layers.waiting layers.ranks.items) }
        ensures none { IfOk result (λ layers. layers.ranks.items ≡ replicate (states_of model.now) None) }
    {
        model.known();
        Ok(Layers {
            preds: preds_of(alloc, model)?,
            waiting: Waiting::all(alloc, model)?,
            ranks: no_ranks(alloc, model.states())?,
        })
    }

    /// Gives `rank` to those of the states that have none yet. Answers the states without one each of whose choices has a successor with one by
    /// now, where that wasn't so before. Each entry is looked at once, so the time grows with their number.
    pub(crate) fn next(
        &mut self,
        alloc: Global,
        model: &Model,
        states: &[u32],
        rank: u32,
    ) -> Result<Vec<u32>, AllocError>
        requires layers { AreLayers model.now self.old.preds self.old.waiting self.old.ranks.items }
        requires below { All (λ s. s < states_of model.now) states.now }
        ensures layers { IfOk result (λ met. AreLayers model.now self.new.preds self.new.waiting self.new.ranks.items) }
        ensures next { IfOk result (λ met. IsNext model.now self.new.preds self.old.waiting self.new.waiting self.old.ranks.items
            self.new.ranks.items states.now rank met.items) }
    {
        model.known();
        let mut layer = Vec::new(alloc);
        give_rank(&mut self.ranks, &mut layer, states, rank)?;
        let met = self
            .waiting
            .met_by(alloc, &self.preds, &self.ranks, &layer)?;
        Ok(met)
    }
}
