//! The refusals that answer the errors of what a command calls.

use crate::refusal::Refusal;
use mdp_num::Memory;
use mdp_text::CertError;
use std::alloc::AllocError;

impl From<AllocError> for Refusal {
    ghost use Rattle.std.specs.Prelude.{◌≡◌};
    ghost use Rattle.mdp_job.specs.declared.refusal.Refusal.TheVariants as variant;

    ghost from_gives = { λ _ refusal. refusal ≡ variant.Memory };

    fn from(_error: AllocError) -> Refusal {
        Refusal::Memory
    }
}

impl From<Memory> for Refusal {
    ghost use Rattle.std.specs.Prelude.{◌≡◌};
    ghost use Rattle.mdp_job.specs.declared.refusal.Refusal.TheVariants as variant;

    ghost from_gives = { λ _ refusal. refusal ≡ variant.Memory };

    fn from(_error: Memory) -> Refusal {
        Refusal::Memory
    }
}

impl From<CertError> for Refusal {
    ghost use Rattle.std.specs.Prelude.{◌≡◌};
    ghost use Rattle.mdp_job.specs.Errors.{of_certificate};

    ghost from_gives = { λ error refusal. refusal ≡ of_certificate error };

    fn from(error: CertError) -> Refusal {
        match error {
            CertError::At { line, kind } => Refusal::CertText { line, kind },
            CertError::Memory => Refusal::Memory,
        }
    }
}
