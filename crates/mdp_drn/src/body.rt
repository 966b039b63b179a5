ghost use Rattle.std.specs.{Prelude.{◌≡◌, length, map, None, OnOk, IsTrue, Ok, Err, if◌then◌else◌}, List.{All}};
ghost use Rattle.mdp_num.specs.Meaning.{IsWithinLimit};
ghost use Rattle.mdp_rows.specs.Draft.{all_closed, choice_closed, state_opened, choice_opened, after_entry, after_label, IsChoiceClosed, has_choice};
ghost use Rattle.mdp_rows.specs.Draft.{has_state};
ghost use Rattle.mdp_rows.specs.Name.{IsName};
ghost use Rattle.mdp_drn.specs.{Body.{judged, with_labels}, BodyView.{view, IsBody, IsSameBeside, error_of, answer_of, as_announced}};
ghost use Rattle.mdp_drn.specs.Feeding.{Answers, Gives};
ghost use Rattle.mdp_drn.specs.Reading.{at_end_of, InModel};

use crate::error::{DrnError, DrnKind};
use mdp_num::Frac;
use mdp_rows::{Builder, Model, RowsError};

/// The model so far.
#[derive(Drop)]
pub(crate) struct Body {
    pub(crate) builder: Builder,
    /// How many states are announced, and how many reward models there are.
    pub(crate) announced: u32,
    pub(crate) models: usize,
    /// Whether the file is of type DTMC, and whether the open state has a choice.
    pub(crate) is_chain: bool,
    pub(crate) has_action: bool,
    /// The lines of the last `state` and `action`.
    pub(crate) state_line: u64,
    pub(crate) action_line: u64,
}

/// A refusal of the builder, as it is answered: a row's names the line of its `action`, a state without a choice the line of the state, all others
/// this line.
fn refusal(error: RowsError, line: u64, state_line: u64, action_line: u64) -> DrnError
    ensures { result ≡ error_of state_line action_line line error }
{
    let (line, kind) = match error {
        RowsError::RowSum { .. } => (action_line, DrnKind::RowSum),
        RowsError::RowWide { .. } => (action_line, DrnKind::RowWide),
        RowsError::NoChoice { .. } => (state_line, DrnKind::NoChoice),
        RowsError::Twice => (line, DrnKind::Twice),
        RowsError::TooMany => (line, DrnKind::TooMany),
        RowsError::Target => (line, DrnKind::Target),
        RowsError::Large => (line, DrnKind::Large),
        RowsError::Count => (line, DrnKind::Count),
        RowsError::Memory => return DrnError::Memory,
    };
    DrnError::At { line, kind }
}

/// Whether the model has as many choices as were announced, where a number was.
fn has_choices(model: &Model, choices: Option<u32>) -> bool
    ensures { result ≡ as_announced choices model.now }
{
    match choices {
        Some(announced) => model.all_choices() == announced,
        None => true,
    }
}

/// The model, where it has as many choices as were announced.
fn with_choices(model: Model, line: u64, choices: Option<u32>) -> Result<Model, DrnError>
    ensures { result ≡ (if as_announced choices model then Ok model else Err (DrnError.At line DrnKind.Count)) }
{
    if has_choices(&model, choices) {
        Ok(model)
    } else {
        Err(DrnKind::Count.at(line))
    }
}

impl Body {
    /// What the builder's answer to a line is answered as.
    fn answer(&self, line: u64, outcome: Result<(), RowsError>) -> Result<(), DrnError>
        ensures { result ≡ answer_of self.now.state_line self.now.action_line line outcome }
    {
        match outcome {
            Ok(()) => Ok(()),
            Err(error) => Err(refusal(error, line, self.state_line, self.action_line)),
        }
    }

    /// Closes the open choice and state, where there are such.
    pub(crate) fn close_state(&mut self, line: u64) -> Result<(), DrnError>
        requires { IsBody self.old }
        ensures closed { Answers result self.new.builder (judged (view self.old) line (all_closed self.old.builder)) }
        ensures beside { IsSameBeside self.old self.new }
        ensures body { OnOk result (IsBody self.new) }
        ensures none { OnOk result (self.new.builder.state ≡ None) }
    {
        let outcome = self.builder.close_state();
        self.answer(line, outcome)
    }

    /// Closes the open choice, where there is one.
    pub(crate) fn close_choice(&mut self, line: u64) -> Result<(), DrnError>
        requires { IsBody self.old }
        ensures closed { Answers result self.new.builder (judged (view self.old) line (choice_closed self.old.builder)) }
        ensures beside { IsSameBeside self.old self.new }
        ensures body { OnOk result (IsBody self.new) }
        ensures none { OnOk result (IsChoiceClosed self.new.builder.state) }
    {
        let outcome = self.builder.close_choice();
        self.answer(line, outcome)
    }

    /// Opens the next state, with its own rewards.
    pub(crate) fn open_state(&mut self, line: u64, rewards: &[Frac]) -> Result<(), DrnError>
        requires body { IsBody self.old }
        requires none { self.old.builder.state ≡ None }
        requires count { length rewards.now ≡ self.old.models }
        ensures opened { Answers result self.new.builder (judged (view self.old) line (state_opened self.old.builder rewards.now)) }
        ensures beside { IsSameBeside self.old self.new }
        ensures body { OnOk result (IsBody self.new) }
        ensures state { OnOk result (IsTrue (has_state self.new.builder)) }
    {
        self.has_action = false;
        let outcome = self.builder.state(rewards);
        self.answer(line, outcome)
    }

    /// Opens a choice of the open state, with its own rewards.
    pub(crate) fn open_choice(&mut self, line: u64, rewards: &[Frac]) -> Result<(), DrnError>
        requires body { IsBody self.old }
        requires none { IsChoiceClosed self.old.builder.state }
        requires state { IsTrue (has_state self.old.builder) }
        requires count { length rewards.now ≡ self.old.models }
        ensures opened { Answers result self.new.builder (judged (view self.old) line (choice_opened self.old.builder rewards.now)) }
        ensures beside { IsSameBeside self.old self.new }
        ensures body { OnOk result (IsBody self.new) }
    {
        self.has_action = true;
        let outcome = self.builder.choice(rewards);
        self.answer(line, outcome)
    }

    /// Gives the open choice a target and its value.
    pub(crate) fn add_entry(&mut self, line: u64, target: u32, value: Frac) -> Result<(), DrnError>
        requires body { IsBody self.old }
        requires choice { IsTrue (has_choice self.old.builder) }
        requires within { IsWithinLimit value }
        ensures added { Answers result self.new.builder (judged (view self.old) line (after_entry self.old.builder target value)) }
        ensures beside { IsSameBeside self.old self.new }
        ensures body { OnOk result (IsBody self.new) }
    {
        let outcome = self.builder.entry(target, value);
        self.answer(line, outcome)
    }

    fn give_label(&mut self, line: u64, name: &[u8]) -> Result<(), DrnError>
        requires body { IsBody self.old }
        requires state { IsTrue (has_state self.old.builder) }
        requires name { IsName name.now }
        ensures given { Answers result self.new.builder (judged (view self.old) line (after_label self.old.builder name.now)) }
        ensures beside { IsSameBeside self.old self.new }
        ensures body { OnOk result (IsBody self.new) }
        ensures state { OnOk result (IsTrue (has_state self.new.builder)) }
    {
        let outcome = self.builder.label(name);
        self.answer(line, outcome)
    }

    /// Gives the open state each label.
    pub(crate) fn give_labels(&mut self, line: u64, labels: &[&[u8]]) -> Result<(), DrnError>
        requires body { IsBody self.old }
        requires state { IsTrue (has_state self.old.builder) }
        requires names { All IsName (map (λ label. label.now) labels.now) }
        ensures given { Answers result self.new.builder (judged (view self.old) line
            (with_labels (map (λ label. label.now) labels.now) self.old.builder)) }
        ensures beside { IsSameBeside self.old self.new }
        ensures body { OnOk result (IsBody self.new) }
    {
        for label in labels {
            self.give_label(line, label)?;
        }
        Ok(())
    }

    /// Closes what is open, and gives the model.
    pub(crate) fn finish(self, line: u64, choices: Option<u32>) -> Result<Model, DrnError>
        requires { IsBody self }
        ensures { Gives (λ model said. model ≡ said) result (at_end_of line (InModel choices (view self))) }
    {
        let Body {
            builder,
            state_line,
            action_line,
            ..
        } = self;
        match builder.finish() {
            Ok(model) => with_choices(model, line, choices),
            Err(error) => Err(refusal(error, line, state_line, action_line)),
        }
    }
}
