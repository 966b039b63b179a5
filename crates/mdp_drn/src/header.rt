ghost use Rattle.std.specs.{Prelude.{◌≡◌, ◌≤◌, ◌^◌, ◌<◌, IfOk, OnOk, map, ◌==◌, ◌||◌}, List.{All, list_any}};
ghost use Rattle.mdp_rows.specs.Name.{are_different};
ghost use Rattle.mdp_drn.specs.Header.{no_entries, names_line, states_line, choices_line, entry_line, header_line, is_word, is_entry, is_bad_name};
ghost use Rattle.mdp_drn.specs.Header.{names_in, words_of, count_in, is_chain, type_named, type_entry, value_type_entry, parameters_entry};
ghost use Rattle.mdp_drn.specs.{Header.{reward_models_entry, nr_states_entry, nr_choices_entry, model_entry, with_states}, Lines.{is_blank}};
ghost use Rattle.mdp_drn.specs.{HeaderView.{view, view_next, pair, is_model, bare_entry, last_entry}, Parsing.{Says, told}};

use crate::digits::number_of;
use crate::error::DrnKind;
use crate::line::{has_either, trim_start};
use crate::line_error::LineError;
use crate::names::read_names;
use mdp_num::are_digits;
use mdp_rows::{MAX_CHOICES, MAX_STATES};
use std::alloc::Global;

/// What a file is of: Markov decision processes and Markov chains are read.
#[derive(Clone, Copy)]
pub(crate) enum ModelType {
    Mdp,
    Dtmc,
}

/// What the next line may be.
#[derive(Clone, Copy)]
pub(crate) enum NextLine {
    AnyEntry,
    BlankLine,
    RewardNames,
    StateCount,
    ChoiceCount,
    Model,
}

impl NextLine {
    /// Whether the header has ended.
    pub(crate) fn is_model(self) -> bool
        ensures { result ≡ is_model (view_next self) }
    {
        match self {
            NextLine::Model => true,
            NextLine::AnyEntry => false,
            NextLine::BlankLine => false,
            NextLine::RewardNames => false,
            NextLine::StateCount => false,
            NextLine::ChoiceCount => false,
        }
    }
}

/// The entries of the header so far; a number that is still to come is 0.
#[derive(Drop)]
pub(crate) struct Header {
    pub(crate) model_type: Option<ModelType>,
    pub(crate) has_value_type: bool,
    pub(crate) has_parameters: bool,
    pub(crate) names: Option<Vec<Vec<u8>>>,
    pub(crate) states: Option<u32>,
    pub(crate) choices: Option<u32>,
}

fn is_word(text: &[u8]) -> bool
    ensures { result ≡ is_word text.now }
{
    !text.is_empty() && !has_either(text, b' ', b'\t')
}

/// The type that the word names.
fn type_named(word: &[u8]) -> Option<ModelType>
    ensures { result ≡ type_named word.now }
{
    if word == b"MDP".as_slice() {
        Some(ModelType::Mdp)
    } else if word == b"DTMC".as_slice() {
        Some(ModelType::Dtmc)
    } else {
        None
    }
}

/// A number of states or choices.
fn read_count(most: u32, text: &[u8]) -> Result<u32, DrnKind>
    requires { most ≤ 2 ^ 22 }
    ensures { result ≡ count_in most text.now }
{
    if !are_digits(text) {
        return Err(DrnKind::Number);
    }
    let number = number_of(text);
    if number > u64::from(most) {
        return Err(DrnKind::TooMany);
    }
    Ok(number as u32)
}

impl Header {
    /// A header without entries.
    pub(crate) fn new() -> Header
        ensures { view result ≡ no_entries }
    {
        Header {
            model_type: None,
            has_value_type: false,
            has_parameters: false,
            names: None,
            states: None,
            choices: None,
        }
    }

    /// Whether the file is of type DTMC.
    pub(crate) fn is_chain(&self) -> bool
        ensures { result ≡ is_chain (view self.now).model_type }
    {
        match self.model_type {
            Some(ModelType::Dtmc) => true,
            Some(ModelType::Mdp) => false,
            None => false,
        }
    }

    fn take_type(&mut self, word: &[u8]) -> Result<NextLine, DrnKind>
        ensures { told (pair self.new) result ≡ type_entry (view self.old) word.now }
    {
        if !is_word(word) || self.model_type.is_some() {
            return Err(DrnKind::Header);
        }
        let Some(named) = type_named(word) else {
            return Err(DrnKind::Type);
        };
        self.model_type = Some(named);
        Ok(NextLine::AnyEntry)
    }

    fn take_value_type(&mut self, word: &[u8]) -> Result<NextLine, DrnKind>
        ensures { told (pair self.new) result ≡ value_type_entry (view self.old) word.now }
    {
        if !is_word(word) || self.has_value_type {
            return Err(DrnKind::Header);
        }
        self.has_value_type = true;
        Ok(NextLine::AnyEntry)
    }

    fn take_parameters(&mut self) -> Result<NextLine, DrnKind>
        ensures { told (pair self.new) result ≡ parameters_entry (view self.old) }
    {
        if self.has_parameters {
            return Err(DrnKind::Header);
        }
        self.has_parameters = true;
        Ok(NextLine::BlankLine)
    }

    fn take_reward_models(&mut self, alloc: Global) -> Result<NextLine, DrnKind>
        ensures { told (pair self.new) result ≡ reward_models_entry (view self.old) }
    {
        if self.names.is_some() {
            return Err(DrnKind::Header);
        }
        self.names = Some(Vec::new(alloc));
        Ok(NextLine::RewardNames)
    }

    fn take_nr_states(&mut self) -> Result<NextLine, DrnKind>
        ensures { told (pair self.new) result ≡ nr_states_entry (view self.old) }
    {
        if self.states.is_some() {
            return Err(DrnKind::Header);
        }
        self.states = Some(0);
        Ok(NextLine::StateCount)
    }

    fn take_nr_choices(&mut self) -> Result<NextLine, DrnKind>
        ensures { told (pair self.new) result ≡ nr_choices_entry (view self.old) }
    {
        if self.choices.is_some() {
            return Err(DrnKind::Header);
        }
        self.choices = Some(0);
        Ok(NextLine::ChoiceCount)
    }

    fn take_model(&self) -> Result<NextLine, DrnKind>
        ensures { told (pair self.now) result ≡ model_entry (view self.now) }
    {
        if self.model_type.is_some() && self.states.is_some() {
            Ok(NextLine::Model)
        } else {
            Err(DrnKind::Header)
        }
    }

    /// Takes an entry's line, and says what the next line may be.
    #[tactic(auto, unfolding(crate::specs::Header::entry_line))]
    fn take_entry(&mut self, alloc: Global, text: &[u8]) -> Result<NextLine, DrnKind>
        ensures { told (pair self.new) result ≡ entry_line (view self.old) text.now }
    {
        if text.starts_with(b"@type:") {
            return self.take_type(trim_start(&text[6..]));
        }
        if text.starts_with(b"@value_type:") {
            return self.take_value_type(trim_start(&text[12..]));
        }
        self.take_bare_entry(alloc, text)
    }

    /// Takes the line of an entry that is one word.
    fn take_bare_entry(&mut self, alloc: Global, text: &[u8]) -> Result<NextLine, DrnKind>
        ensures { told (pair self.new) result ≡ bare_entry (view self.old) text.now }
    {
        if text == b"@parameters".as_slice() {
            return self.take_parameters();
        }
        if text == b"@reward_models".as_slice() {
            return self.take_reward_models(alloc);
        }
        if text == b"@nr_states".as_slice() {
            return self.take_nr_states();
        }
        self.take_last_entry(text)
    }

    /// Takes the line of one of the other entries, or refuses it.
    fn take_last_entry(&mut self, text: &[u8]) -> Result<NextLine, DrnKind>
        ensures { told (pair self.new) result ≡ last_entry (view self.old) text.now }
    {
        if text == b"@nr_choices".as_slice() {
            return self.take_nr_choices();
        }
        if text == b"@placeholders".as_slice() {
            return Err(DrnKind::Parametric);
        }
        if text == b"@model".as_slice() {
            return self.take_model();
        }
        Err(DrnKind::Header)
    }

    fn take_names(&mut self, alloc: Global, text: &[u8]) -> Result<NextLine, LineError>
        ensures { Says (pair self.new) result (names_line (view self.old) text.now) }
    {
        self.names = Some(read_names(alloc, text)?);
        Ok(NextLine::AnyEntry)
    }

    fn take_state_count(&mut self, text: &[u8]) -> Result<NextLine, DrnKind>
        ensures { told (pair self.new) result ≡ states_line (view self.old) text.now }
    {
        let states = match read_count(MAX_STATES, text) {
            Ok(states) => states,
            Err(kind) => return Err(kind),
        };
        if states == 0 {
            return Err(DrnKind::Count);
        }
        self.states = Some(states);
        Ok(NextLine::AnyEntry)
    }

    fn take_choice_count(&mut self, text: &[u8]) -> Result<NextLine, DrnKind>
        ensures { told (pair self.new) result ≡ choices_line (view self.old) text.now }
    {
        let choices = match read_count(MAX_CHOICES, text) {
            Ok(choices) => choices,
            Err(kind) => return Err(kind),
        };
        self.choices = Some(choices);
        Ok(NextLine::AnyEntry)
    }

    /// Takes a line that isn't a comment, and says what the next line may be.
    pub(crate) fn take_line(
        &mut self,
        alloc: Global,
        next: NextLine,
        text: &[u8],
    ) -> Result<NextLine, LineError>
        ensures { Says (pair self.new) result (header_line (view_next next) (view self.old) text.now) }
    {
        let is_entry = text.starts_with(b"@");
        match next {
            NextLine::AnyEntry if text.is_empty() => Ok(NextLine::AnyEntry),
            NextLine::AnyEntry => Ok(self.take_entry(alloc, text)?),
            NextLine::BlankLine if text.is_empty() => Ok(NextLine::AnyEntry),
            NextLine::BlankLine if is_entry => Ok(self.take_entry(alloc, text)?),
            NextLine::BlankLine => Err(LineError::Kind(DrnKind::Parametric)),
            NextLine::RewardNames if is_entry => Ok(self.take_entry(alloc, text)?),
            NextLine::RewardNames => self.take_names(alloc, text),
            NextLine::StateCount if text.is_empty() => Ok(NextLine::StateCount),
            NextLine::StateCount => Ok(self.take_state_count(text)?),
            NextLine::ChoiceCount if text.is_empty() => Ok(NextLine::ChoiceCount),
            NextLine::ChoiceCount => Ok(self.take_choice_count(text)?),
            NextLine::Model => Ok(NextLine::Model),
        }
    }
}
