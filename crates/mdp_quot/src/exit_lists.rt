ghost use Rattle.std.specs.{Prelude.{ℕ, ◌≡◌, ◌<◌, ◌+◌, ◌++◌, ◌∷◌, List, [], length, replicate, IfOk, OnOk}, List.{All}};
ghost use Rattle.mdp_rows.specs.{declared.preds.Pred.{Pred}, Preds.{choices_of, choices_below}};
ghost use Rattle.mdp_spec.specs.Mdp.{states_of};
ghost use Rattle.mdp_parts.specs.FoundEnds.{AreEndsOf};
ghost use Rattle.mdp_quot.specs.ExitLists.{AreExits};

use mdp_parts::Ends;
use mdp_rows::{Model, Pred};
use std::alloc::{AllocError, Global};

/// The exits of a node, ascending by state and choice.
#[derive(Drop)]
pub(crate) struct ExitList {
    items: Vec<Pred>,
}

impl std::marker::Model for ExitList {
    ghost use Rattle.std.specs.Prelude.{List};
    ghost use Rattle.mdp_rows.specs.declared.preds.Pred.{Pred};

    ghost Value = { List Pred };

    ghost view = { λ x. x.items.items };
}

impl ExitList {
    fn new(alloc: Global) -> ExitList
        ensures { result ≡ [] }
    {
        ExitList {
            items: Vec::new(alloc),
        }
    }

    fn push(&mut self, exit: Pred) -> Result<(), AllocError>
        ensures { OnOk result (self.new ≡ self.old ++ exit ∷ []) }
    {
        self.items.push(exit)?;
        Ok(())
    }

    pub(crate) fn as_slice(&self) -> &[Pred]
        ensures { result.now ≡ self.now }
    {
        self.items.as_slice()
    }
}

/// So many empty lists.
fn empty_lists(alloc: Global, nodes: usize) -> Result<Vec<ExitList>, AllocError>
    ensures { IfOk result (λ lists. lists.items ≡ replicate nodes []) }
{
    let mut lists = Vec::with_capacity(alloc, nodes)?;
    for _ in 0..nodes {
        lists.push(ExitList::new(alloc))?;
    }
    Ok(lists)
}

/// Appends the choices of state `s` that aren't inside to the list of its node.
fn push_state(
    lists: &mut Vec<ExitList>,
    model: &Model,
    ends: &Ends,
    nodes: &[u32],
    s: u32,
) -> Result<(), AllocError>
    requires ends { AreEndsOf model.now ends.now }
    requires state { s < states_of model.now }
    requires nodes { length nodes.now ≡ states_of model.now }
    requires below { All (λ k. k < length lists.old.items) nodes.now }
    ensures { OnOk result ((choices : List Pred) → AreExits model.now ends.now.parts nodes.now (length lists.old.items) choices lists.old.items
        → AreExits model.now ends.now.parts nodes.now (length lists.old.items) (choices ++ choices_of model.now s) lists.new.items) }
{
    let node = nodes[s as usize] as usize;
    for c in 0..model.choices(s) {
        if !ends.inside(s, c) {
            lists[node].push(Pred {
                state: s,
                choice: c,
            })?;
        }
    }
    Ok(())
}

/// The exits of each of so many nodes.
pub(crate) fn exit_lists(
    alloc: Global,
    model: &Model,
    ends: &Ends,
    nodes: &[u32],
    count: usize,
) -> Result<Vec<ExitList>, AllocError>
    requires ends { AreEndsOf model.now ends.now }
    requires nodes { length nodes.now ≡ states_of model.now }
    requires below { All (λ k. k < count) nodes.now }
    ensures { IfOk result (λ lists. AreExits model.now ends.now.parts nodes.now count (choices_below model.now (states_of model.now)) lists.items) }
{
    let mut lists = empty_lists(alloc, count)?;
    for s in 0..model.states() {
        push_state(&mut lists, model, ends, nodes, s)?;
    }
    Ok(lists)
}
