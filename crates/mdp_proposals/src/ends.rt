//! The end components that are one node each, and policies that leave them.

ghost use Rattle.std.specs.Prelude.{◌≡◌, ◌<◌, length, IsTrue, IfOk, OnOk};
ghost use Rattle.mdp_spec.specs.Mdp.{states_of, choices_at};
ghost use Rattle.mdp_rows.specs.{Draft.{has_state}, Head.{IsSameHead}, Replay.{no_rewards}};
ghost use Rattle.mdp_parts.specs.FoundEnds.{AreEndsOf};

use crate::layout::Layout;
use mdp_num::{Frac, Memory};
use mdp_parts::{Ends, toward_targets};
use mdp_refinement::{Nodes, Value, number_at, put, value_at};
use mdp_rows::{Builder, Marks, Model, Pred, RowRule, give_choice, names_of, zeros_of};
use std::alloc::{AllocError, Global};

/// Each of so many states is a node.
pub(crate) fn single_nodes(alloc: Global, states: u32) -> Result<Nodes, AllocError> {
    let parts = vec![in alloc; None; states as usize]?;
    Nodes::new(alloc, &parts)
}

/// The nodes where the states of an end component are one, if their value isn't known.
pub(crate) fn joined_nodes(
    alloc: Global,
    model: &Model,
    ends: &Ends,
    known: &[Value],
) -> Result<Nodes, AllocError>
    requires { AreEndsOf model.now ends.now }
{
    let mut parts = vec![in alloc; None; model.states() as usize]?;
    for s in 0..model.states() {
        if value_at(known, s).is_none() {
            put(&mut parts, s, ends.of(s));
        }
    }
    Nodes::new(alloc, &parts)
}

/// Puts the choices that were picked to a policy.
pub(crate) fn put_picked(choices: &mut [u32], picked: &[Pred]) {
    for pick in picked {
        put(choices, pick.state, pick.choice);
    }
}

/// The states with a picked choice.
fn exits_of(alloc: Global, states: u32, picked: &[Pred]) -> Result<Marks, AllocError>
    ensures { IfOk result (λ exits. length exits ≡ states) }
{
    let mut is_exit = vec![in alloc; false; states as usize]?;
    for pick in picked {
        let place = pick.state as usize;
        if place < is_exit.len() {
            is_exit[place] = true;
        }
    }
    Ok(Marks::from_values(is_exit))
}

/// Puts to a policy the choices by which the states of an end component come to a state with a picked choice.
pub(crate) fn lead(
    alloc: Global,
    model: &Model,
    ends: &Ends,
    picked: &[Pred],
    choices: &mut [u32],
) -> Result<(), Memory>
    requires { AreEndsOf model.now ends.now }
{
    if picked.is_empty() {
        return Ok(());
    }
    let exits = exits_of(alloc, model.states(), picked)?;
    let inward = toward_targets(alloc, model, ends, &exits)?;
    for s in 0..model.states() {
        if inward.marks.at(s) && !exits.at(s) {
            put(choices, s, number_at(&inward.choices, s));
        }
    }
    Ok(())
}

/// Gives the open state of a builder a choice that stays and earns nothing.
fn give_loop(builder: &mut Builder, zeros: &[Frac], s: u32) -> Result<(), Memory>
    requires open { IsTrue (has_state builder.old) }
    requires zeros { zeros.now ≡ no_rewards builder.old.names }
    ensures same { OnOk result (IsSameHead builder.old builder.new) }
    ensures state_open { OnOk result (IsTrue (has_state builder.new)) }
{
    let Ok(()) = builder.choice(zeros) else {
        return Err(Memory);
    };
    match builder.entry(s, Frac::whole(1)) {
        Ok(()) => Ok(()),
        Err(_) => Err(Memory),
    }
}

impl Layout<'_> {
    /// Whether a choice earns nothing, at a state that has rows.
    fn is_free(self, s: u32, c: u32) -> bool {
        self.is_open(s) && self.earning.of(s, c).sign() == 0
    }

    /// Whether some choice of a state earns nothing.
    fn has_free_at(self, s: u32) -> bool
        requires { s < states_of self.earning.model.now }
    {
        for c in 0..self.earning.model.choices(s) {
            if self.is_free(s, c) {
                return true;
            }
        }
        false
    }

    /// Whether some choice earns nothing.
    pub(crate) fn has_free(self) -> bool {
        for s in 0..self.earning.model.states() {
            if self.has_free_at(s) {
                return true;
            }
        }
        false
    }

    /// Gives a builder a choice of a state, if it earns nothing, and else a loop.
    fn give_free_at(
        self,
        alloc: Global,
        builder: &mut Builder,
        zeros: &[Frac],
        s: u32,
        c: u32,
    ) -> Result<(), Memory>
        requires state { s < states_of self.earning.model.now }
        requires choice { c < length (choices_at self.earning.model.now s) }
        requires names { builder.old.names ≡ self.earning.model.now.names }
        requires zeros { zeros.now ≡ no_rewards self.earning.model.now.names }
        requires open { IsTrue (has_state builder.old) }
        ensures same { OnOk result (IsSameHead builder.old builder.new) }
        ensures state_open { OnOk result (IsTrue (has_state builder.new)) }
    {
        if self.is_free(s, c) {
            give_choice(alloc, builder, self.earning.model, s, c)
        } else {
            give_loop(builder, zeros, s)
        }
    }

    /// Gives a builder the choices of a state that earn nothing, and loops in place of the others.
    fn give_free(
        self,
        alloc: Global,
        builder: &mut Builder,
        zeros: &[Frac],
        s: u32,
    ) -> Result<(), Memory>
        requires state { s < states_of self.earning.model.now }
        requires names { builder.old.names ≡ self.earning.model.now.names }
        requires zeros { zeros.now ≡ no_rewards self.earning.model.now.names }
        requires open { IsTrue (has_state builder.old) }
        ensures same { OnOk result (IsSameHead builder.old builder.new) }
    {
        for c in 0..self.earning.model.choices(s) {
            self.give_free_at(alloc, builder, zeros, s, c)?;
        }
        Ok(())
    }

    /// Gives a builder a state with these choices.
    fn give_state(
        self,
        alloc: Global,
        builder: &mut Builder,
        zeros: &[Frac],
        s: u32,
    ) -> Result<(), Memory>
        requires state { s < states_of self.earning.model.now }
        requires names { builder.old.names ≡ self.earning.model.now.names }
        requires zeros { zeros.now ≡ no_rewards self.earning.model.now.names }
        ensures same { OnOk result (IsSameHead builder.old builder.new) }
    {
        let Ok(()) = builder.state(zeros) else {
            return Err(Memory);
        };
        self.give_free(alloc, builder, zeros, s)
    }

    /// The model with the choices that earn nothing, and with loops in place of the others. Its end components are those of such choices.
    pub(crate) fn free_model(self, alloc: Global) -> Result<Model, Memory> {
        let model = self.earning.model;
        model.known();
        let names = names_of(alloc, model)?;
        let zeros = zeros_of(alloc, model)?;
        let mut builder = Builder::new(alloc, model.states(), RowRule::Exact, names)?;
        for s in 0..model.states() {
            self.give_state(alloc, &mut builder, &zeros, s)?;
        }
        match builder.finish() {
            Ok(free) => Ok(free),
            Err(_) => Err(Memory),
        }
    }
}
