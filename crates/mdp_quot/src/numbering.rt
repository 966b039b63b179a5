ghost use Rattle.std.specs.Prelude.{ℕ, ◌≡◌, ◌<◌, ◌+◌, ◌^◌, ◌++◌, ◌∷◌, List, [], length, Option, Some, None, IfOk, OnOk, IfSome, slice_index_or};
ghost use Rattle.mdp_spec.specs.Mdp.{states_of};
ghost use Rattle.mdp_ends.specs.Ends.{part_of, count_of};
ghost use Rattle.mdp_parts.specs.FoundEnds.{AreEndsOf};
ghost use Rattle.mdp_quot.specs.Numbering.{IsNumbering};

use mdp_parts::Ends;
use mdp_rows::Model;
use std::alloc::{AllocError, Global};

/// The node of each state so far, the end component of each node, and the node of each end component that was seen.
#[derive(Drop)]
pub(crate) struct Numbering {
    pub(crate) nodes: Vec<u32>,
    pub(crate) components: Vec<Option<u32>>,
    pub(crate) first: Vec<Option<u32>>,
}

impl Numbering {
    /// The node that was given to an end component.
    fn known(&self, part: Option<u32>) -> Option<u32>
        requires { IfSome part (λ i. i < length self.now.first.items) }
        ensures none { result ≡ None → (i : ℕ) → part ≡ Some i → slice_index_or self.now.first.items i None ≡ None }
        ensures some { (q : ℕ) → result ≡ Some q → (i : ℕ) × (part ≡ Some i) × (slice_index_or self.now.first.items i None ≡ Some q) }
    {
        match part {
            Some(i) => self.first[i as usize],
            None => None,
        }
    }

    /// Gives the next state a node of its own, and its end component.
    fn open(&mut self, part: Option<u32>) -> Result<(), AllocError>
        requires part { IfSome part (λ i. i < length self.old.first.items) }
        requires few { length self.old.components.items < 2 ^ 32 }
        ensures nodes { OnOk result (self.new.nodes.items ≡ self.old.nodes.items ++ length self.old.components.items ∷ []) }
        ensures components { OnOk result (self.new.components.items ≡ self.old.components.items ++ part ∷ []) }
        ensures room { OnOk result (length self.new.first.items ≡ length self.old.first.items) }
        ensures given { OnOk result ((i : ℕ) → part ≡ Some i → slice_index_or self.new.first.items i None ≡ Some (length self.old.components.items)) }
        ensures others { OnOk result ((j : ℕ) → (part ≡ Some j → ⊥) → slice_index_or self.new.first.items j None
            ≡ slice_index_or self.old.first.items j None) }
    {
        let node = self.components.len() as u32;
        self.nodes.push(node)?;
        self.components.push(part)?;
        if let Some(i) = part {
            self.first[i as usize] = Some(node);
        }
        Ok(())
    }

    /// Numbers the next state, by its end component: where one of the same was seen, it has the same node.
    fn add(&mut self, part: Option<u32>) -> Result<(), AllocError>
        requires part { IfSome part (λ i. i < length self.old.first.items) }
        requires few { length self.old.components.items < 2 ^ 32 }
        ensures { OnOk result ((parts : List (Option ℕ)) (n : ℕ) → IsNumbering parts n self.old.nodes.items self.old.components.items
            self.old.first.items
            → part ≡ part_of parts n → IsNumbering parts (n + 1) self.new.nodes.items self.new.components.items self.new.first.items) }
    {
        match self.known(part) {
            Some(node) => self.nodes.push(node)?,
            None => self.open(part)?,
        }
        Ok(())
    }

    /// How many nodes there are.
    pub(crate) fn len(&self) -> usize
        ensures { result ≡ length self.now.components.items }
    {
        self.components.len()
    }

    /// The nodes of all states: an end component has one, and so has each state that is in none.
    pub(crate) fn of(alloc: Global, model: &Model, ends: &Ends) -> Result<Numbering, AllocError>
        requires { AreEndsOf model.now ends.now }
        ensures { IfOk result (λ x. IsNumbering ends.now.parts (states_of model.now) x.nodes.items x.components.items x.first.items) }
    {
        model.known();
        let mut numbering = Numbering {
            nodes: Vec::new(alloc),
            components: Vec::new(alloc),
            first: vec![in alloc; None; ends.count() as usize]?,
        };
        for s in 0..model.states() {
            numbering.add(ends.of(s))?;
        }
        Ok(numbering)
    }
}
