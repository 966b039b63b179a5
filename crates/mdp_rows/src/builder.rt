ghost use Rattle.std.specs.{Prelude.{◌≡◌, ◌⊎◌, ◌≤◌, None, IsTrue, IfOk, IfErr, OnOk, Ok, Err, length, map}, Option.{IfSome}};
ghost use Rattle.mdp_num.specs.Meaning.{IsWithinLimit};
ghost use Rattle.mdp_rows.specs.Draft.{new_draft, choice_closed, all_closed, after_state, after_label, after_choice, after_entry, after_finish};
ghost use Rattle.mdp_rows.specs.Draft.{IsCall, IsUnrefused, IsChoiceClosed, has_state, has_choice, has_open_target, states_opened};
ghost use Rattle.mdp_rows.specs.Head.{IsSameHead};
ghost use Rattle.mdp_rows.specs.{Limits.{max_states}, Name.{IsName, AreRewardNames}};

use crate::assembly::Assembly;
use crate::error::RowsError;
use crate::model::Model;
use crate::rule::RowRule;
use mdp_num::{Frac, Memory};
use std::alloc::Global;

/// A model while it is made, state by state, choice by choice, entry by entry. One that has refused answers the same refusal from then on. What it
/// finishes keeps all that a model keeps.
#[derive(Drop)]
pub struct Builder {
    assembly: Assembly,
}

impl std::marker::Model for Builder {
    ghost use Rattle.mdp_rows.specs.{Draft.{Draft}, DraftCode.{draft_code}};

    ghost Value = { Draft };

    ghost coded = { draft_code };

    ghost use Rattle.mdp_rows.specs.Sound.{IsGood};

    ghost view = { λ b. b.assembly };

    ghost invariant = { λ b. IsGood b.assembly };
}

impl Builder {
    /// A builder of a model of so many states, 1 to 2^20, with these reward names: 1 to 16 different ones of 1 to 255 bytes without blank,
    /// tab, CR, `"` and LF, the first of which begins neither with `@` nor with `//`.
    pub fn new(
        alloc: Global,
        states: u32,
        rule: RowRule,
        names: Vec<Vec<u8>>,
    ) -> Result<Builder, Memory>
        requires some { 1 ≤ states }
        requires few { states ≤ max_states }
        requires names { AreRewardNames (map (λ n. n.items) names.items) }
        ensures { IfOk result (λ builder. builder ≡ new_draft states rule (map (λ n. n.items) names.items)) }
    {
        Ok(Builder {
            assembly: Assembly::new(alloc, states, rule, names)?,
        })
    }

    /// Whether a state is open, so that a label or a choice may come. Asked only of a builder that hasn't refused, as each query is.
    pub fn is_state_open(&self) -> bool
        requires { IsUnrefused self.now }
        ensures { result ≡ has_state self.now }
    {
        self.assembly.is_state_open()
    }

    /// Whether a choice is open, so that an entry may come.
    pub fn is_choice_open(&self) -> bool
        requires { IsUnrefused self.now }
        ensures { result ≡ has_choice self.now }
    {
        self.assembly.is_choice_open()
    }

    /// How many states were opened.
    pub fn opened(&self) -> u32
        requires { IsUnrefused self.now }
        ensures { result ≡ states_opened self.now }
    {
        self.assembly.opened()
    }

    /// Whether the open row has an entry to the target, of value 0 or not. `false` where no choice is open.
    pub fn has_target(&self, target: u32) -> bool
        requires { IsUnrefused self.now }
        ensures { result ≡ has_open_target self.now target }
    {
        self.assembly.has_target(target)
    }

    /// Opens the next state, with its own reward for each name, of either sign, and closes the open row and the open state before.
    pub fn state(&mut self, rewards: &[Frac]) -> Result<(), RowsError>
        requires one_each { IsUnrefused self.old → length rewards.now ≡ length self.old.names }
        ensures call { IsCall self.old self.new (after_state self.old rewards.now) result }
        ensures same { OnOk result (IsSameHead self.old self.new) }
        ensures state_open { OnOk result (IsTrue (has_state self.new)) }
    {
        self.assembly.state(rewards)
    }

    /// Gives the open state a label: 1 to 255 bytes without `"` and LF. A label that the state has already is taken once.
    pub fn label(&mut self, name: &[u8]) -> Result<(), RowsError>
        requires open { IsUnrefused self.old → IsTrue (has_state self.old) }
        requires name { IsName name.now }
        ensures call { IsCall self.old self.new (after_label self.old name.now) result }
        ensures same { OnOk result (IsSameHead self.old self.new) }
        ensures state_open { OnOk result (IsTrue (has_state self.new)) }
    {
        self.assembly.label(name)
    }

    /// Opens the next choice of the open state, with its own reward for each name, of either sign, and closes the open row before.
    pub fn choice(&mut self, rewards: &[Frac]) -> Result<(), RowsError>
        requires open { IsUnrefused self.old → IsTrue (has_state self.old) }
        requires one_each { IsUnrefused self.old → length rewards.now ≡ length self.old.names }
        ensures call { IsCall self.old self.new (after_choice self.old rewards.now) result }
        ensures same { OnOk result (IsSameHead self.old self.new) }
        ensures state_open { OnOk result (IsTrue (has_state self.new)) }
        ensures choice_open { OnOk result (IsTrue (has_choice self.new)) }
    {
        self.assembly.choice(rewards)
    }

    /// Adds an entry to the open row. An entry of value 0 counts, and goes when the row closes.
    pub fn entry(&mut self, target: u32, value: Frac) -> Result<(), RowsError>
        requires open { IsUnrefused self.old → IsTrue (has_choice self.old) }
        requires term { IsWithinLimit value }
        ensures call { IsCall self.old self.new (after_entry self.old target value) result }
        ensures same { OnOk result (IsSameHead self.old self.new) }
        ensures state_open { OnOk result (IsTrue (has_state self.new)) }
        ensures choice_open { OnOk result (IsTrue (has_choice self.new)) }
    {
        self.assembly.entry(target, value)
    }

    /// Closes the open choice, where there is one, before a call that would.
    pub fn close_choice(&mut self) -> Result<(), RowsError>
        ensures call { IsCall self.old self.new (choice_closed self.old) result }
        ensures same { OnOk result (IsSameHead self.old self.new) }
        ensures closed { OnOk result (IsChoiceClosed self.new.state) }
    {
        self.assembly.close_choice()
    }

    /// Closes the open choice and the open state, where there are such, before a call that would.
    pub fn close_state(&mut self) -> Result<(), RowsError>
        ensures call { IsCall self.old self.new (all_closed self.old) result }
        ensures same { OnOk result (IsSameHead self.old self.new) }
        ensures closed { OnOk result (self.new.state ≡ None) }
    {
        self.assembly.close_state()
    }

    /// Closes what is open, and gives the model.
    pub fn finish(self) -> Result<Model, RowsError>
        ensures again { IfSome self.refused (λ e. result ≡ Err e) }
        ensures model { IfOk result (λ model. after_finish self ≡ Ok model) }
        ensures refusal { IfErr result (λ e. IsUnrefused self → (e ≡ RowsError.Memory) ⊎ (after_finish self ≡ Err e)) }
    {
        self.assembly.finish()
    }
}
