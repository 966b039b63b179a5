ghost use Rattle.std.specs.{Prelude.{◌≡◌, length, map, None, OnOk, IfOk, IsTrue, ◌||◌}, List.{All}};
ghost use Rattle.mdp_num.specs.Meaning.{IsWithinLimit};
ghost use Rattle.mdp_rows.specs.{Draft.{has_choice, has_state, IsChoiceClosed}, Name.{IsName}};
ghost use Rattle.mdp_drn.specs.Body.{state_read, action_read, entry_read, state_line, action_line, entry_line, model_line, is_state_line};
ghost use Rattle.mdp_drn.specs.Body.{is_action_line, is_rest_of_state, value_text, begins_as, is_other_mark};
ghost use Rattle.mdp_drn.specs.{BodyView.{view, IsBody, IsOneLine, state_in, entry_in}, Parsing.{Says, told}, Feeding.{Answers}};

use crate::body::Body;
use crate::brackets::{first_bracket, last_bracket};
use crate::digits::{has_digits, number_of};
use crate::error::{DrnError, DrnKind};
use crate::kept_values::KeptValues;
use crate::labels::read_labels;
use crate::line::{begins_blank, trim_start};
use crate::line_error::LineError;
use crate::values::read_rewards;
use mdp_num::{Frac, split_digits};
use std::alloc::Global;

/// What a `state` line says behind the number.
#[derive(Drop)]
pub(crate) struct StateText<'a> {
    rewards: Vec<Frac>,
    labels: Vec<&'a [u8]>,
}

/// `state`, blanks and a digit.
fn is_state_line(text: &[u8]) -> bool
    ensures { result ≡ is_state_line text.now }
{
    text.starts_with(b"state") && begins_blank(&text[5..]) && has_digits(trim_start(&text[5..]))
}

/// `action`, alone or followed by blanks.
fn is_action_line(text: &[u8]) -> bool
    ensures { result ≡ is_action_line text.now }
{
    text.starts_with(b"action") && (text.len() == 6 || begins_blank(&text[6..]))
}

/// Whether this may stand behind a state's number.
fn is_rest_of_state(rest: &[u8]) -> bool
    ensures { result ≡ is_rest_of_state rest.now }
{
    match rest {
        [] => true,
        [b'[' | b'!' | b'{', ..] => true,
        _ => begins_blank(rest),
    }
}

/// The text of a value behind the colon and blanks.
fn value_text(behind: &[u8]) -> Result<&[u8], DrnKind>
    ensures { told (λ text. text.now) result ≡ value_text behind.now }
{
    match behind {
        [b':', value @ ..] => {
            let value = trim_start(value);
            if value.is_empty() {
                Err(DrnKind::Shape)
            } else {
                Ok(value)
            }
        }
        _ => Err(DrnKind::Shape),
    }
}

/// Whether rates or an observation come first.
fn begins_other_type(bytes: &[u8]) -> bool
    ensures { result ≡ begins_as is_other_mark bytes.now }
{
    match bytes {
        [b'!' | b'{', ..] => true,
        _ => false,
    }
}

impl Body {
    /// Reads the rewards and labels behind a state's number.
    #[tactic(auto, unfolding(crate::specs::Body::state_read))]
    fn read_state<'a>(
        &self,
        alloc: Global,
        digits: &[u8],
        rest: &'a [u8],
    ) -> Result<StateText<'a>, LineError>
        requires body { IsBody self.now }
        requires none { self.now.builder.state ≡ None }
        requires plain { IsOneLine rest.now }
        ensures read { Says state_in result (state_read self.now.builder digits.now rest.now) }
        ensures count { IfOk result (λ s. length s.rewards.items ≡ self.now.models) }
        ensures names { IfOk result (λ s. All IsName (map (λ label. label.now) s.labels.items)) }
    {
        if !is_rest_of_state(rest) {
            return Err(LineError::Kind(DrnKind::Shape));
        }
        if number_of(digits) != u64::from(self.builder.opened()) {
            return Err(LineError::Kind(DrnKind::Order));
        }
        if self.builder.opened() >= self.announced {
            return Err(LineError::Kind(DrnKind::Count));
        }
        let behind = trim_start(rest);
        if begins_other_type(behind) {
            return Err(LineError::Kind(DrnKind::Type));
        }
        let (inside, behind) = first_bracket(behind)?;
        let mut rewards = Vec::new(alloc);
        read_rewards(alloc, self.models, inside, &mut rewards)?;
        let labels = read_labels(alloc, behind)?;
        Ok(StateText { rewards, labels })
    }

    /// Reads the rewards behind `action`.
    #[tactic(auto, unfolding(crate::specs::Body::action_read))]
    fn read_action(&self, alloc: Global, rest: &[u8]) -> Result<Vec<Frac>, LineError>
        requires body { IsBody self.now }
        requires closed { IsChoiceClosed self.now.builder.state }
        ensures read { Says (λ rewards. rewards.items) result (action_read self.now.is_chain self.now.builder rest.now) }
        ensures count { IfOk result (λ rewards. length rewards.items ≡ self.now.models) }
        ensures state { IfOk result (λ _. IsTrue (has_state self.now.builder)) }
    {
        if !self.builder.is_state_open() {
            return Err(LineError::Kind(DrnKind::Shape));
        }
        let inside = last_bracket(rest)?;
        let mut rewards = Vec::new(alloc);
        read_rewards(alloc, self.models, inside, &mut rewards)?;
        if self.is_chain && self.has_action {
            return Err(LineError::Kind(DrnKind::Choices));
        }
        Ok(rewards)
    }

    /// Reads a target and its value.
    #[tactic(auto, unfolding(crate::specs::Body::entry_read))]
    fn read_entry(&self, values: &mut KeptValues, text: &[u8]) -> Result<(u32, Frac), DrnKind>
        requires { IsBody self.now }
        ensures read { told entry_in result ≡ entry_read self.now.builder text.now }
        ensures within { IfOk result (λ x. IsWithinLimit x.1) }
        ensures choice { IfOk result (λ _. IsTrue (has_choice self.now.builder)) }
    {
        let (digits, behind) = split_digits(text);
        if digits.is_empty() {
            return Err(DrnKind::Shape);
        }
        let value = match value_text(trim_start(behind)) {
            Ok(value) => value,
            Err(kind) => return Err(kind),
        };
        if !self.builder.is_choice_open() {
            return Err(DrnKind::Shape);
        }
        let target = number_of(digits);
        if target >= u64::from(self.announced) {
            return Err(DrnKind::Target);
        }
        let target = target as u32;
        if self.builder.has_target(target) {
            return Err(DrnKind::Twice);
        }
        match values.read(value) {
            Ok(value) => Ok((target, value)),
            Err(kind) => Err(kind),
        }
    }

    /// Takes a `state` line, from the number on. It stands apart so that the code for a transition stays small, and so with `action` lines.
    #[inline(never)]
    fn take_state(&mut self, alloc: Global, line: u64, behind: &[u8]) -> Result<(), DrnError>
        requires body { IsBody self.old }
        requires plain { IsOneLine behind.now }
        ensures taken { Answers result (view self.new) (state_line (view self.old) line behind.now) }
        ensures body { OnOk result (IsBody self.new) }
    {
        self.close_state(line)?;
        let (digits, rest) = split_digits(behind);
        let text = match self.read_state(alloc, digits, rest) {
            Ok(text) => text,
            Err(error) => return Err(error.at(line)),
        };
        self.open_state(line, &text.rewards)?;
        self.give_labels(line, &text.labels)?;
        self.state_line = line;
        Ok(())
    }

    /// Takes an `action` line, from behind the word on.
    #[inline(never)]
    fn take_action(&mut self, alloc: Global, line: u64, rest: &[u8]) -> Result<(), DrnError>
        requires { IsBody self.old }
        ensures taken { Answers result (view self.new) (action_line (view self.old) line rest.now) }
        ensures body { OnOk result (IsBody self.new) }
    {
        self.close_choice(line)?;
        let rewards = match self.read_action(alloc, rest) {
            Ok(rewards) => rewards,
            Err(error) => return Err(error.at(line)),
        };
        self.open_choice(line, &rewards)?;
        self.action_line = line;
        Ok(())
    }

    /// Takes the line of a target and its value.
    fn take_entry(
        &mut self,
        values: &mut KeptValues,
        line: u64,
        text: &[u8],
    ) -> Result<(), DrnError>
        requires { IsBody self.old }
        ensures taken { Answers result (view self.new) (entry_line (view self.old) line text.now) }
        ensures body { OnOk result (IsBody self.new) }
    {
        match self.read_entry(values, text) {
            Ok((target, value)) => self.add_entry(line, target, value),
            Err(kind) => Err(DrnError::At { line, kind }),
        }
    }

    /// Takes a line of the model that isn't blank and is no comment.
    pub(crate) fn take_line(
        &mut self,
        alloc: Global,
        values: &mut KeptValues,
        line: u64,
        text: &[u8],
    ) -> Result<(), DrnError>
        requires body { IsBody self.old }
        requires plain { IsOneLine text.now }
        ensures taken { Answers result (view self.new) (model_line (view self.old) line text.now) }
        ensures body { OnOk result (IsBody self.new) }
    {
        if is_state_line(text) {
            self.take_state(alloc, line, trim_start(&text[5..]))
        } else if is_action_line(text) {
            self.take_action(alloc, line, &text[6..])
        } else {
            self.take_entry(values, line, text)
        }
    }
}
