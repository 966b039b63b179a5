ghost use Rattle.std.specs.{Prelude.{◌≡◌, ◌==◌, ◌⊎◌, ◌≤◌, true, None, Some, IfOk, IfErr, OnOk, OnErr, length, map, nat_le}, List.{position_or_len}};
ghost use Rattle.std.specs.Option.{IfSome};
ghost use Rattle.mdp_num.specs.Meaning.{IsWithinLimit};
ghost use Rattle.mdp_rows.specs.Draft.{new_draft, choice_closed, state_closed, all_closed, state_opened, choice_opened, finished};
ghost use Rattle.mdp_rows.specs.Draft.{after_state, after_label, after_choice, after_entry, after_finish, with_place};
ghost use Rattle.mdp_rows.specs.Draft.{Follows, IsCall, IsUnrefused, IsChoiceClosed, has_state, has_choice, has_open_target, states_opened};
ghost use Rattle.mdp_rows.specs.{Limits.{max_states}, Name.{AreRewardNames}, Sound.{FinishesModel}};

use crate::choices::Choices;
use crate::closing::close_row;
use crate::error::RowsError;
use crate::given::Given;
use crate::labels::Labels;
use crate::limits::{MAX_CHOICES, MAX_ENTRIES, MAX_LABEL_CALLS, MAX_LABELS};
use crate::marks::Marks;
use crate::open_row::{sort_row, unmark};
use crate::rewards::add_rewards;
use crate::rule::RowRule;
use mdp_num::Frac;
use std::alloc::{AllocError, Global};
use std::marker::Model;

/// What is open.
#[derive(Clone, Copy)]
enum Stage {
    Between,
    InState,
    InRow,
}

/// The vectors of a model while it is made, state by state, choice by choice, entry by entry. One that has refused answers the same refusal from then
/// on.
#[derive(Drop)]
pub struct Assembly {
    announced: u32,
    rule: RowRule,
    choices: Choices,
    /// Where each closed state's choices start, and where the next one's do.
    starts: Vec<u32>,
    first_choice: u32,
    labels: Labels,
    stage: Stage,
    /// The open state's own rewards.
    rewards: Vec<Frac>,
    /// The open state's labels, ascending.
    places: Vec<u32>,
    label_calls: u32,
    /// The open choice's rewards, those of its state added.
    sums: Vec<Frac>,
    /// The open row, in the order in which its entries were given.
    row: Vec<Given>,
    /// Which states are targets of the open row.
    targets: Marks,
    entries: u32,
    refused: Option<RowsError>,
}

/// Where a label's place stands among ascending ones, or would stand.
fn place_of_label(places: &[u32], label: u32) -> usize
    ensures { result ≡ position_or_len (λ k. nat_le label k) places.now }
{
    for i in 0..places.len() {
        if places[i] >= label {
            return i;
        }
    }
    places.len()
}

/// Adds the label's place, where it isn't there. On `Err` the places are as before.
fn add_place(places: &mut Vec<u32>, label: u32) -> Result<(), AllocError>
    ensures added { OnOk result (places.new.items ≡ with_place label places.old.items) }
    ensures unchanged { OnErr result (places.new.items ≡ places.old.items) }
{
    let place = place_of_label(places, label);
    if place < places.len() && places[place] == label {
        return Ok(());
    }
    places.insert(place, label)?;
    Ok(())
}

impl Model for Assembly {
    ghost use Rattle.mdp_rows.specs.{Draft.{Draft}, DraftCode.{draft_code}};

    ghost Value = { Draft };

    ghost coded = { draft_code };

    ghost use Rattle.mdp_rows.specs.FlatDraft.{draft_in, IsDraft};

    ghost view = { draft_in };

    ghost invariant = { IsDraft };
}

impl Assembly {
    /// Closes the open row, where there is one.
    fn end_row(&mut self) -> Result<(), RowsError>
        ensures follows { Follows (choice_closed self.old) result self.new }
    {
        let Stage::InRow = self.stage else {
            return Ok(());
        };
        let state = self.labels.states();
        let choice = self.choices.len() - self.first_choice;
        sort_row(&mut self.row);
        close_row(&mut self.row, self.rule, state, choice)?;
        if self.choices.push(&self.row, &self.sums).is_err() {
            return Err(RowsError::Memory);
        }
        unmark(&mut self.targets, &self.row);
        self.row.clear();
        self.stage = Stage::InState;
        Ok(())
    }

    /// Closes the open state, where there is one.
    fn end_state(&mut self) -> Result<(), RowsError>
        requires { IsChoiceClosed self.old.state }
        ensures follows { Follows (state_closed self.old) result self.new }
    {
        let Stage::InState = self.stage else {
            return Ok(());
        };
        let end = self.choices.len();
        if end == self.first_choice {
            let state = self.labels.states();
            return Err(RowsError::NoChoice { state });
        }
        if self.starts.reserve(1).is_err() || self.labels.push_state(&self.places).is_err() {
            return Err(RowsError::Memory);
        }
        if self.starts.push(end).is_err() {
            return Err(RowsError::Memory);
        }
        self.first_choice = end;
        self.stage = Stage::Between;
        Ok(())
    }

    /// Opens the next state.
    fn open_state(&mut self, rewards: &[Frac]) -> Result<(), RowsError>
        requires closed { self.old.state ≡ None }
        requires one_each { length rewards.now ≡ length self.old.names }
        ensures follows { Follows (state_opened self.old rewards.now) result self.new }
    {
        if self.labels.states() == self.announced {
            return Err(RowsError::Count);
        }
        self.rewards.clear();
        if self.rewards.extend_from_slice(rewards).is_err() {
            return Err(RowsError::Memory);
        }
        self.places.clear();
        self.label_calls = 0;
        self.stage = Stage::InState;
        Ok(())
    }

    /// Opens the next choice of the open state.
    fn open_choice(&mut self, rewards: &[Frac]) -> Result<(), RowsError>
        requires closed { IsChoiceClosed self.old.state }
        requires one_each { length rewards.now ≡ length self.old.names }
        ensures follows { Follows (choice_opened self.old rewards.now) result self.new }
    {
        let Stage::InState = self.stage else {
            return Ok(());
        };
        if self.choices.len() >= MAX_CHOICES {
            return Err(RowsError::TooMany);
        }
        add_rewards(&mut self.sums, &self.rewards, rewards)?;
        self.stage = Stage::InRow;
        Ok(())
    }

    /// Adds an entry to the open row.
    fn add_entry(&mut self, target: u32, value: Frac) -> Result<(), RowsError>
        requires { IsWithinLimit value }
        ensures follows { Follows (after_entry self.old target value) result self.new }
    {
        let Stage::InRow = self.stage else {
            return Ok(());
        };
        if target >= self.announced {
            return Err(RowsError::Target);
        }
        if self.targets.at(target) {
            return Err(RowsError::Twice);
        }
        if self.entries >= MAX_ENTRIES {
            return Err(RowsError::TooMany);
        }
        if self.row.push(Given { target, value }).is_err() {
            return Err(RowsError::Memory);
        }
        self.targets.set(target, true);
        self.entries += 1;
        Ok(())
    }

    /// Keeps the refusal, where the outcome is one.
    fn keep_refusal(&mut self, outcome: Result<(), RowsError>) -> Result<(), RowsError>
        ensures same { result ≡ outcome }
        ensures unchanged { OnOk outcome (self.new ≡ self.old) }
        ensures refused { IfErr outcome (λ e. self.new.refused ≡ Some e) }
    {
        if let Err(refusal) = outcome {
            self.refused = Some(refusal);
        }
        outcome
    }

    fn try_close_state(&mut self) -> Result<(), RowsError>
        ensures follows { Follows (all_closed self.old) result self.new }
    {
        self.end_row()?;
        self.end_state()
    }

    fn try_state(&mut self, rewards: &[Frac]) -> Result<(), RowsError>
        requires { length rewards.now ≡ length self.old.names }
        ensures follows { Follows (after_state self.old rewards.now) result self.new }
    {
        self.end_row()?;
        self.end_state()?;
        self.open_state(rewards)
    }

    fn try_choice(&mut self, rewards: &[Frac]) -> Result<(), RowsError>
        requires { length rewards.now ≡ length self.old.names }
        ensures follows { Follows (after_choice self.old rewards.now) result self.new }
    {
        self.end_row()?;
        self.open_choice(rewards)
    }

    fn try_label(&mut self, name: &[u8]) -> Result<(), RowsError>
        ensures follows { Follows (after_label self.old name.now) result self.new }
    {
        if let Stage::Between = self.stage {
            return Ok(());
        }
        if self.label_calls >= MAX_LABEL_CALLS {
            return Err(RowsError::TooMany);
        }
        if self.labels.names_with(name) > MAX_LABELS {
            return Err(RowsError::TooMany);
        }
        let Ok(label) = self.labels.see_name(name) else {
            return Err(RowsError::Memory);
        };
        if add_place(&mut self.places, label).is_err() {
            return Err(RowsError::Memory);
        }
        self.label_calls += 1;
        Ok(())
    }

    /// Whether as many states are closed as were announced.
    fn is_whole(&self) -> bool
        ensures { result ≡ (length self.now.closed == self.now.announced) }
    {
        self.labels.states() == self.announced
    }

    /// Closes what is open, where as many states as were announced are closed then.
    fn close_all(&mut self) -> Result<(), RowsError>
        ensures unrefused { OnOk result (IsUnrefused self.old) }
        ensures closed { OnOk result (all_closed self.old ≡ Ok self.new) }
        ensures counted { OnOk result ((length self.new.closed == self.new.announced) ≡ true) }
        ensures again { IfSome self.old.refused (λ e. result ≡ Err e) }
        ensures refusal { IfErr result (λ e. IsUnrefused self.old → (e ≡ RowsError.Memory) ⊎ (after_finish self.old ≡ Err e)) }
    {
        match self.close_state() {
            Ok(()) => {
                if self.is_whole() {
                    Ok(())
                } else {
                    Err(RowsError::Count)
                }
            }
            Err(refusal) => Err(refusal),
        }
    }

    /// The model of the states that are closed, which are as many as were announced.
    fn into_model(self) -> Result<crate::model::Model, AllocError>
        requires closed { self.state ≡ None }
        requires counted { (length self.closed == self.announced) ≡ true }
        requires whole { FinishesModel (finished self) }
        ensures { IfOk result (λ model. finished self ≡ Ok model) }
    {
        let labels = self.labels.into_state_labels()?;
        Ok(crate::model::Model {
            choices: self.choices,
            starts: self.starts,
            labels,
        })
    }

    /// A builder of a model of so many states, 1 to 2^20, with these reward names: 1 to 16 different ones of 1 to 255 bytes without blank,
    /// tab, CR, `"` and LF, the first of which begins neither with `@` nor with `//`.
    pub fn new(
        alloc: Global,
        states: u32,
        rule: RowRule,
        names: Vec<Vec<u8>>,
    ) -> Result<Assembly, AllocError>
        requires some { 1 ≤ states }
        requires few { states ≤ max_states }
        requires names { AreRewardNames (map (λ n. n.items) names.items) }
        ensures { IfOk result (λ builder. builder ≡ new_draft states rule (map (λ n. n.items) names.items)) }
    {
        let starts = vec![in alloc; 0]?;
        let targets = vec![in alloc; false; states as usize]?;
        let choices = Choices::new(alloc, names)?;
        let labels = Labels::new(alloc)?;
        Ok(Assembly {
            announced: states,
            rule,
            choices,
            starts,
            first_choice: 0,
            labels,
            stage: Stage::Between,
            rewards: Vec::new(alloc),
            places: Vec::new(alloc),
            label_calls: 0,
            sums: Vec::new(alloc),
            row: Vec::new(alloc),
            targets: Marks::from_values(targets),
            entries: 0,
            refused: None,
        })
    }

    /// Whether a state is open, so that a label or a choice may come.
    pub fn is_state_open(&self) -> bool
        ensures { result ≡ has_state self.now }
    {
        match self.stage {
            Stage::Between => false,
            Stage::InState => true,
            Stage::InRow => true,
        }
    }

    /// Whether a choice is open, so that an entry may come.
    pub fn is_choice_open(&self) -> bool
        ensures { result ≡ has_choice self.now }
    {
        match self.stage {
            Stage::Between => false,
            Stage::InState => false,
            Stage::InRow => true,
        }
    }

    /// How many states were opened.
    pub fn opened(&self) -> u32
        ensures { result ≡ states_opened self.now }
    {
        match self.stage {
            Stage::Between => self.labels.states(),
            Stage::InState => self.labels.states() + 1,
            Stage::InRow => self.labels.states() + 1,
        }
    }

    /// Whether the open row has an entry to the target, of value 0 or not. `false` where no choice is open.
    pub fn has_target(&self, target: u32) -> bool
        ensures { result ≡ has_open_target self.now target }
    {
        let Stage::InRow = self.stage else {
            return false;
        };
        target < self.announced && self.targets.at(target)
    }

    /// Opens the next state, with its own reward for each name, of either sign, and closes the open row and the open state before.
    pub fn state(&mut self, rewards: &[Frac]) -> Result<(), RowsError>
        requires { IsUnrefused self.old → length rewards.now ≡ length self.old.names }
        ensures { IsCall self.old self.new (after_state self.old rewards.now) result }
    {
        if let Some(refusal) = self.refused {
            return Err(refusal);
        }
        let outcome = self.try_state(rewards);
        self.keep_refusal(outcome)
    }

    /// Gives the open state a label: 1 to 255 bytes without `"` and LF. A label that the state has already is taken once.
    pub fn label(&mut self, name: &[u8]) -> Result<(), RowsError>
        ensures { IsCall self.old self.new (after_label self.old name.now) result }
    {
        if let Some(refusal) = self.refused {
            return Err(refusal);
        }
        let outcome = self.try_label(name);
        self.keep_refusal(outcome)
    }

    /// Opens the next choice of the open state, with its own reward for each name, of either sign, and closes the open row before.
    pub fn choice(&mut self, rewards: &[Frac]) -> Result<(), RowsError>
        requires { IsUnrefused self.old → length rewards.now ≡ length self.old.names }
        ensures { IsCall self.old self.new (after_choice self.old rewards.now) result }
    {
        if let Some(refusal) = self.refused {
            return Err(refusal);
        }
        let outcome = self.try_choice(rewards);
        self.keep_refusal(outcome)
    }

    /// Adds an entry to the open row. An entry of value 0 counts, and goes when the row closes.
    pub fn entry(&mut self, target: u32, value: Frac) -> Result<(), RowsError>
        requires { IsWithinLimit value }
        ensures { IsCall self.old self.new (after_entry self.old target value) result }
    {
        if let Some(refusal) = self.refused {
            return Err(refusal);
        }
        let outcome = self.add_entry(target, value);
        self.keep_refusal(outcome)
    }

    /// Closes the open choice, where there is one, before a call that would.
    pub fn close_choice(&mut self) -> Result<(), RowsError>
        ensures { IsCall self.old self.new (choice_closed self.old) result }
    {
        if let Some(refusal) = self.refused {
            return Err(refusal);
        }
        let outcome = self.end_row();
        self.keep_refusal(outcome)
    }

    /// Closes the open choice and the open state, where there are such, before a call that would.
    pub fn close_state(&mut self) -> Result<(), RowsError>
        ensures { IsCall self.old self.new (all_closed self.old) result }
    {
        if let Some(refusal) = self.refused {
            return Err(refusal);
        }
        let outcome = self.try_close_state();
        self.keep_refusal(outcome)
    }

    /// Closes what is open, and gives the model.
    pub fn finish(self) -> Result<crate::model::Model, RowsError>
        requires whole { IsUnrefused self → FinishesModel (after_finish self) }
        ensures again { IfSome self.refused (λ e. result ≡ Err e) }
        ensures model { IfOk result (λ model. after_finish self ≡ Ok model) }
        ensures refusal { IfErr result (λ e. IsUnrefused self → (e ≡ RowsError.Memory) ⊎ (after_finish self ≡ Err e)) }
    {
        let mut builder = self;
        match builder.close_all() {
            Ok(()) => match builder.into_model() {
                Ok(model) => Ok(model),
                Err(_) => Err(RowsError::Memory),
            },
            Err(refusal) => Err(refusal),
        }
    }
}
