//! Subsystems: a model is handed to a builder once more, state by state, without the choices of the states that are cut.
//!
//! A subsystem of a model is a model, and a builder takes each model that is handed over (`replay_law`). So it refuses no call for
//! anything but want of memory, and each refusal is answered as that.
ghost use Rattle.std.specs.Prelude.{◌≡◌, ◌<◌, ◌∷◌, [], IsTrue, IfOk, OnOk, length, map, slice_index_or};
ghost use Rattle.mdp_spec.specs.{Mdp.{states_of, state_at, choices_at, row_at, no_choice}, Sub.{loop_at, sub_of}};
ghost use Rattle.mdp_rows.specs.{Cut.{cut_state}, Draft.{has_state, has_choice}, Head.{IsSameHead}};
ghost use Rattle.mdp_rows.specs.Replay.{no_rewards, with_labels, with_entries, with_choices, with_states};

use crate::builder::Builder;
use crate::marks::Marks;
use crate::model::Model;
use crate::rule::RowRule;
use mdp_num::{Frac, Memory};
use std::alloc::{AllocError, Global};

/// The reward names of a model once more, as a builder takes them.
pub fn names_of(alloc: Global, model: &Model) -> Result<Vec<Vec<u8>>, AllocError>
    ensures { IfOk result (λ names. map (λ n. n.items) names.items ≡ model.now.names) }
{
    let mut names = Vec::new(alloc);
    for m in 0..model.names() {
        names.push(model.name(m).to_vec(alloc)?)?;
    }
    Ok(names)
}

/// A reward of 0 for each reward name of a model: what a state that is handed to a builder earns, where its choices have all of the reward.
pub fn zeros_of(alloc: Global, model: &Model) -> Result<Vec<Frac>, AllocError>
    ensures { IfOk result (λ zeros. zeros.items ≡ no_rewards model.now.names) }
{
    vec![in alloc; Frac::whole(0); model.names() as usize]
}

/// The rewards of choice `c` at state `s`, one for each name.
fn rewards_of(alloc: Global, model: &Model, s: u32, c: u32) -> Result<Vec<Frac>, AllocError>
    requires state { s < states_of model.now }
    requires choice { c < length (choices_at model.now s) }
    ensures { IfOk result (λ rewards. rewards.items ≡ (slice_index_or (choices_at model.now s) c no_choice).rewards) }
{
    model.known();
    let mut rewards = Vec::new(alloc);
    for m in 0..model.names() {
        rewards.push(model.reward(m, s, c))?;
    }
    Ok(rewards)
}

/// Gives the open state of a builder the labels of state `s` of a model. Each refusal is answered as want of memory.
pub fn give_labels(builder: &mut Builder, model: &Model, s: u32) -> Result<(), Memory>
    requires state { s < states_of model.now }
    requires open { IsTrue (has_state builder.old) }
    ensures given { OnOk result (with_labels model.now.labels (state_at model.now s).labels builder.old ≡ Ok builder.new) }
    ensures same { OnOk result (IsSameHead builder.old builder.new) }
    ensures state_open { OnOk result (IsTrue (has_state builder.new)) }
{
    model.known();
    let places = model.labels_of(s);
    for i in 0..places.len() {
        let Ok(()) = builder.label(model.label_name(places[i])) else {
            return Err(Memory);
        };
    }
    Ok(())
}

/// Gives the open choice the row of choice `c` at state `s`.
fn give_entries(builder: &mut Builder, model: &Model, s: u32, c: u32) -> Result<(), Memory>
    requires state { s < states_of model.now }
    requires choice { c < length (choices_at model.now s) }
    requires open { IsTrue (has_choice builder.old) }
    requires state_is_open { IsTrue (has_state builder.old) }
    ensures given { OnOk result (with_entries (row_at model.now s c) builder.old ≡ Ok builder.new) }
    ensures same { OnOk result (IsSameHead builder.old builder.new) }
    ensures state_open { OnOk result (IsTrue (has_state builder.new)) }
{
    model.known();
    let row = model.row(s, c);
    for i in 0..row.targets.len() {
        let Ok(()) = builder.entry(row.targets[i], row.probs[i]) else {
            return Err(Memory);
        };
    }
    Ok(())
}

/// Gives the open state of a builder choice `c` of state `s` of a model, with its rewards and its row. Each refusal is answered as want of memory.
pub fn give_choice(
    alloc: Global,
    builder: &mut Builder,
    model: &Model,
    s: u32,
    c: u32,
) -> Result<(), Memory>
    requires state { s < states_of model.now }
    requires choice { c < length (choices_at model.now s) }
    requires open { IsTrue (has_state builder.old) }
    requires names { builder.old.names ≡ model.now.names }
    ensures given { OnOk result (with_choices (slice_index_or (choices_at model.now s) c no_choice ∷ []) builder.old ≡ Ok builder.new) }
    ensures same { OnOk result (IsSameHead builder.old builder.new) }
    ensures state_open { OnOk result (IsTrue (has_state builder.new)) }
{
    model.known();
    let rewards = rewards_of(alloc, model, s, c)?;
    let Ok(()) = builder.choice(&rewards) else {
        return Err(Memory);
    };
    give_entries(builder, model, s, c)
}

/// Gives the open state the choices of state `s`.
fn give_choices(alloc: Global, builder: &mut Builder, model: &Model, s: u32) -> Result<(), Memory>
    requires state { s < states_of model.now }
    requires open { IsTrue (has_state builder.old) }
    requires names { builder.old.names ≡ model.now.names }
    ensures given { OnOk result (with_choices (choices_at model.now s) builder.old ≡ Ok builder.new) }
    ensures same { OnOk result (IsSameHead builder.old builder.new) }
{
    for c in 0..model.choices(s) {
        give_choice(alloc, builder, model, s, c)?;
    }
    Ok(())
}

/// Gives the open state one choice, a loop at `s` that earns nothing.
fn give_loop(builder: &mut Builder, zeros: &[Frac], s: u32) -> Result<(), Memory>
    requires open { IsTrue (has_state builder.old) }
    requires zeros { zeros.now ≡ no_rewards builder.old.names }
    ensures given { OnOk result (with_choices (loop_at builder.old.names s ∷ []) builder.old ≡ Ok builder.new) }
    ensures same { OnOk result (IsSameHead builder.old builder.new) }
{
    let Ok(()) = builder.choice(zeros) else {
        return Err(Memory);
    };
    let Ok(()) = builder.entry(s, Frac::whole(1)) else {
        return Err(Memory);
    };
    Ok(())
}

/// Gives state `s` as it is, where it stays, and else with its labels and a loop.
fn give_state(
    alloc: Global,
    builder: &mut Builder,
    model: &Model,
    zeros: &[Frac],
    s: u32,
    stays: bool,
) -> Result<(), Memory>
    requires state { s < states_of model.now }
    requires names { builder.old.names ≡ model.now.names }
    requires zeros { zeros.now ≡ no_rewards model.now.names }
    ensures given { OnOk result (with_states model.now.names model.now.labels
        (cut_state model.now.names s (state_at model.now s) stays ∷ []) builder.old ≡ Ok builder.new) }
    ensures same { OnOk result (IsSameHead builder.old builder.new) }
{
    let Ok(()) = builder.state(zeros) else {
        return Err(Memory);
    };
    give_labels(builder, model, s)?;
    if stays {
        give_choices(alloc, builder, model, s)
    } else {
        give_loop(builder, zeros, s)
    }
}

/// Gives each state, those that are neither kept nor goals with a loop.
fn give_states(
    alloc: Global,
    builder: &mut Builder,
    model: &Model,
    kept: &Marks,
    goals: &Marks,
) -> Result<(), Memory>
    requires kept { length kept.now ≡ states_of model.now }
    requires goals { length goals.now ≡ states_of model.now }
    requires names { builder.old.names ≡ model.now.names }
    ensures given { OnOk result (with_states model.now.names model.now.labels (sub_of model.now goals.now kept.now).states builder.old
        ≡ Ok builder.new) }
{
    let zeros = zeros_of(alloc, model)?;
    for s in 0..model.states() {
        let stays = goals.at(s) || kept.at(s);
        give_state(alloc, builder, model, &zeros, s, stays)?;
    }
    Ok(())
}

impl Model {
    /// The subsystem of the states that are kept: each state that is neither kept nor a goal has one choice, a loop of probability 1 with
    /// reward 0 under each name. States, labels and names stay. One mark per state in both.
    pub fn cut(&self, alloc: Global, kept: &Marks, goals: &Marks) -> Result<Model, Memory>
        requires kept { length kept.now ≡ states_of self.now }
        requires goals { length goals.now ≡ states_of self.now }
        ensures { IfOk result (λ cut. cut ≡ sub_of self.now goals.now kept.now) }
    {
        self.known();
        let names = names_of(alloc, self)?;
        let mut builder = Builder::new(alloc, self.states(), RowRule::Exact, names)?;
        give_states(alloc, &mut builder, self, kept, goals)?;
        let Ok(cut) = builder.finish() else {
            return Err(Memory);
        };
        Ok(cut)
    }
}
