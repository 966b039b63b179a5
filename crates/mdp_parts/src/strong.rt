ghost use Rattle.std.specs.Prelude.{IfOk};
ghost use Rattle.mdp_ends.specs.Walks.{AreComponents};
ghost use Rattle.mdp_parts.specs.Allowed.{allowed_at, AreChoices};

use crate::allowed::Allowed;
use crate::depth::depth_order;
use crate::edges::{edges_of, reversed};
use crate::numbering::{group_back, numbered};
use mdp_graph::plain_ranks;
use mdp_num::Memory;
use mdp_rows::Model;
use std::alloc::Global;

/// The number of each state's strong component under allowed choices: two states are in one where each comes to the other by entries of such
/// choices. Components are numbered by their least states. Each entry is looked at a fixed number of times, so the time grows with their
/// number.
///
/// A search in depth puts the states in an order; searches backwards from its end take one component each (Sharir 1981).
pub fn components(alloc: Global, model: &Model, allowed: &Allowed) -> Result<Vec<u32>, Memory>
    requires { AreChoices model.now allowed.now }
    ensures { IfOk result (λ parts. AreComponents model.now (allowed_at allowed.now) parts.items) }
{
    model.known();
    let edges = edges_of(alloc, model, allowed)?;
    let back = reversed(alloc, &edges, model.states())?;
    let order = depth_order(alloc, &edges, model.states())?;
    let groups = group_back(alloc, &back, &order, model.states())?;
    let numbering = numbered(alloc, &groups, model.states())?;
    Ok(plain_ranks(alloc, &numbering.numbers)?)
}
