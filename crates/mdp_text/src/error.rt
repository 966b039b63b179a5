ghost use Rattle.std.specs.Prelude.{◌≡◌};
ghost use Rattle.mdp_text.specs.{Kinds.{cert_word}, declared.error.CertError.TheVariants.{At, Memory}};

use std::alloc::{AllocError, AllocFailed};
use std::fmt;
use thiserror::Error;

/// Which rule a line breaks.
#[derive(Clone, Copy)]
pub enum CertKind {
    /// The first line is none of the versions.
    Version = 1,
    /// The second line is none of the claims.
    Claim = 2,
    /// A word isn't the number that is due.
    Number = 3,
    /// Another first word or number of words, or another line where `end` is due; `run` in version 1.
    Shape = 4,
    /// The number of states is out of range, a state isn't below it or isn't the one in order, or a run doesn't end above its first state.
    Count = 5,
    /// No line where one is due, a last line without a line feed, or bytes after the line `end`.
    End = 6,
    /// In version 2, a line of states that has the same words as the line of states before it.
    Run = 7,
}

impl CertKind {
    /// The word that names the kind in a refusal.
    pub fn word(self) -> &'static str
        ensures { result.now ≡ cert_word self }
    {
        match self {
            CertKind::Version => "version",
            CertKind::Claim => "claim",
            CertKind::Number => "number",
            CertKind::Shape => "shape",
            CertKind::Count => "count",
            CertKind::End => "end",
            CertKind::Run => "run",
        }
    }
}

impl fmt::Display for CertKind {
    fn fmt<W: fmt::Write>(&self, f: &mut fmt::Formatter<W>) -> fmt::Result {
        f.write_str(self.word())
    }
}

/// Why bytes aren't the text of a certificate.
#[derive(Clone, Copy, Error)]
pub enum CertError {
    /// The first line that breaks a rule, numbered from 1, and the rule.
    #[error("line {line} {kind}")]
    At { line: u64, kind: CertKind },
    /// Memory was refused.
    #[error("memory")]
    Memory,
}

/// As it is shown.
impl fmt::Debug for CertError {
    fn fmt<W: fmt::Write>(&self, f: &mut fmt::Formatter<W>) -> fmt::Result {
        write!(f, "{self}")
    }
}

/// The first line that breaks a rule, numbered from 1, and the rule.
#[derive(Clone, Copy)]
pub struct Refusal {
    pub kind: CertKind,
    pub line: u64,
}

impl From<Refusal> for CertError {
    ghost from_gives = { λ r e. e ≡ At r.line r.kind };

    fn from(refusal: Refusal) -> CertError {
        CertError::At {
            line: refusal.line,
            kind: refusal.kind,
        }
    }
}

impl From<AllocError> for CertError {
    ghost from_gives = { λ _ e. e ≡ Memory };

    fn from(_error: AllocError) -> CertError {
        CertError::Memory
    }
}

impl<T: Drop> From<AllocFailed<T>> for CertError {
    ghost from_gives = { λ _ e. e ≡ Memory };

    fn from(_error: AllocFailed<T>) -> CertError {
        CertError::Memory
    }
}
