ghost use Rattle.std.specs.Prelude.{◌≡◌};
ghost use Rattle.mdp_drn.specs.Kinds.{drn_word};

use std::fmt;
use thiserror::Error;

/// Why a text is no model.
#[derive(Clone, Copy)]
pub enum DrnKind {
    /// An entry of the header twice, an unknown one, one with a word too few or too many, a line that is none, a reward name that is
    /// badly spelled or comes twice, or `@model` before the type and the number of states.
    Header = 1,
    /// Another model type, a rate or an observation.
    Type = 2,
    /// Parameters or placeholders.
    Parametric = 3,
    /// A value that is no numeral or has the denominator 0, or a number of states or choices that isn't written in digits.
    Number = 4,
    /// A value with a term above 10^36, or a sum of a state's and a choice's reward that has one or is past width.
    Large = 5,
    /// Another state's number than that of the next state.
    Order = 6,
    /// Another number of states or choices than announced, or no state announced.
    Count = 7,
    /// A reward bracket that isn't closed, or with another number of values than there are reward models.
    Reward = 8,
    /// A target that isn't below the announced number of states.
    Target = 9,
    /// A second value for one target of a row.
    Twice = 10,
    /// A row that doesn't add to 1, or under `Scaled` differs from it by more than 1/1000.
    RowSum = 11,
    /// A row with a least common denominator above 10^36.
    RowWide = 12,
    /// A state without a choice.
    NoChoice = 13,
    /// A label that is badly spelled, empty or of more than 255 bytes.
    Label = 14,
    /// Past a limit of states, choices, transitions, labels or reward models.
    TooMany = 15,
    /// A line of the model that is none of the three kinds, a choice outside a state, or a transition outside a choice.
    Shape = 16,
    /// A value of a transition with a sign.
    Negative = 17,
    /// A line of more than 65,536 bytes.
    LongLine = 18,
    /// The end of the text before `@model`.
    End = 19,
    /// A second choice of a state in a file of type DTMC.
    Choices = 20,
}

impl DrnKind {
    /// The refusal of this kind at a line.
    pub(crate) fn at(self, line: u64) -> DrnError
        ensures { result ≡ DrnError.At line self }
    {
        DrnError::At { line, kind: self }
    }

    /// The word that names the kind in a refusal.
    #[tactic(auto, unfolding(crate::specs::Kinds::drn_word))]
    pub fn word(self) -> &'static str
        ensures { result.now ≡ drn_word self }
    {
        match self {
            DrnKind::Header => "header",
            DrnKind::Type => "type",
            DrnKind::Parametric => "parametric",
            DrnKind::Number => "number",
            DrnKind::Large => "large",
            DrnKind::Order => "order",
            DrnKind::Count => "count",
            DrnKind::Reward => "reward",
            DrnKind::Target => "target",
            DrnKind::Twice => "twice",
            DrnKind::RowSum => "row-sum",
            DrnKind::RowWide => "row-wide",
            DrnKind::NoChoice => "no-choice",
            DrnKind::Label => "label",
            DrnKind::TooMany => "too-many",
            DrnKind::Shape => "shape",
            DrnKind::Negative => "negative",
            DrnKind::LongLine => "long-line",
            DrnKind::End => "end",
            DrnKind::Choices => "choices",
        }
    }
}

impl fmt::Display for DrnKind {
    fn fmt<W: fmt::Write>(&self, f: &mut fmt::Formatter<W>) -> fmt::Result {
        f.write_str(self.word())
    }
}

/// The first broken rule of a text and the line that it names, or want of memory.
#[derive(Clone, Copy, Error)]
pub enum DrnError {
    /// Lines are numbered from 1; the end of the text has the number of lines plus 1; a number above 2^64 - 1 is given as 2^64 - 1.
    #[error("line {line}: {kind}")]
    At { line: u64, kind: DrnKind },
    /// Memory was refused.
    #[error("memory was refused")]
    Memory,
}

/// As it is shown.
impl fmt::Debug for DrnError {
    fn fmt<W: fmt::Write>(&self, f: &mut fmt::Formatter<W>) -> fmt::Result {
        write!(f, "{self}")
    }
}
