ghost use Rattle.std.specs.Prelude.{◌≡◌};
ghost use Rattle.mdp_drn.specs.Parsing.{error_at};

use crate::error::{DrnError, DrnKind};
use std::alloc::{AllocError, AllocFailed};

/// Why a part of a line wasn't read.
#[derive(Clone, Copy)]
pub(crate) enum LineError {
    Kind(DrnKind),
    Memory,
}

impl LineError {
    /// The same, of the line of this number.
    pub(crate) fn at(self, line: u64) -> DrnError
        ensures { result ≡ error_at line self }
    {
        match self {
            LineError::Kind(kind) => DrnError::At { line, kind },
            LineError::Memory => DrnError::Memory,
        }
    }
}

impl From<DrnKind> for LineError {
    ghost use Rattle.std.specs.Prelude.{◌≡◌};
    ghost use Rattle.mdp_drn.specs.declared.line_error.LineError.TheVariants.{Kind};

    ghost from_gives = { λ kind e. e ≡ Kind kind };

    fn from(kind: DrnKind) -> LineError {
        LineError::Kind(kind)
    }
}

impl From<AllocError> for LineError {
    ghost use Rattle.std.specs.Prelude.{◌≡◌};
    ghost use Rattle.mdp_drn.specs.declared.line_error.LineError.TheVariants.{Memory};

    ghost from_gives = { λ _ e. e ≡ Memory };

    fn from(_error: AllocError) -> LineError {
        LineError::Memory
    }
}

impl<T: Drop> From<AllocFailed<T>> for LineError {
    ghost use Rattle.std.specs.Prelude.{◌≡◌};
    ghost use Rattle.mdp_drn.specs.declared.line_error.LineError.TheVariants.{Memory};

    ghost from_gives = { λ _ e. e ≡ Memory };

    fn from(_error: AllocFailed<T>) -> LineError {
        LineError::Memory
    }
}
