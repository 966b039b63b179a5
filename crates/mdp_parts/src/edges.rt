ghost use Rattle.std.specs.Prelude.{◌≡◌, ◌<◌, length, IfOk, OnOk};
ghost use Rattle.mdp_spec.specs.Mdp.{states_of};
ghost use Rattle.mdp_graph.specs.Edges.{AreEdges};
ghost use Rattle.mdp_parts.specs.{Allowed.{allowed_at, AreChoices}, Targets.{AreTargets, AreReversed, HasTargets}};

use crate::allowed::Allowed;
use mdp_graph::{Edges, Predecessors};
use mdp_rows::Model;
use std::alloc::{AllocError, Global};

/// Appends the targets of the allowed choices of state `s`; a state may come more than once.
fn push_targets(
    targets: &mut Vec<u32>,
    model: &Model,
    allowed: &Allowed,
    s: u32,
) -> Result<(), AllocError>
    requires state { s < states_of model.now }
    requires allowed { AreChoices model.now allowed.now }
    ensures { OnOk result (HasTargets model.now (allowed_at allowed.now) s targets.old.items targets.new.items) }
{
    for c in 0..model.choices(s) {
        if allowed.at(s, c) {
            targets.extend_from_slice(model.row(s, c).targets)?;
        }
    }
    Ok(())
}

/// The edges of a graph over states: each state leads to the targets of its allowed choices.
pub(crate) fn edges_of(
    alloc: Global,
    model: &Model,
    allowed: &Allowed,
) -> Result<Predecessors, AllocError>
    requires { AreChoices model.now allowed.now }
    ensures { IfOk result (λ edges. AreTargets model.now (allowed_at allowed.now) edges) }
{
    let mut targets = Vec::new(alloc);
    let mut starts = Vec::with_capacity(alloc, model.states() as usize + 1)?;
    starts.push(0)?;
    for s in 0..model.states() {
        push_targets(&mut targets, model, allowed, s)?;
        starts.push(targets.len())?;
    }
    let lists = Predecessors::from_places(starts, targets);
    Ok(lists)
}

/// The same edges the other way round: for each state the states that lead to it.
pub(crate) fn reversed(
    alloc: Global,
    edges: &Predecessors,
    states: u32,
) -> Result<Predecessors, AllocError>
    requires states { length edges.now ≡ states }
    requires edges { AreEdges states edges.now }
    ensures { IfOk result (λ back. AreReversed edges.now back) }
{
    let mut back = Edges::none(alloc, states);
    for s in 0..states {
        back.push_row(s, edges.of(s))?;
    }
    back.sorted(alloc)
}
