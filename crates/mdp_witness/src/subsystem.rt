use mdp_num::{Frac, Memory};
use mdp_subsystem_rules::{FloorCert, FlowCert};
use mdp_wide::{SolveError, TooWide};
use std::alloc::AllocError;

/// A subsystem that reaches the threshold, with what shows it.
#[derive(Drop)]
pub enum Subsystem {
    /// Some policy reaches it.
    Max(FlowCert),
    /// Each policy reaches it.
    Min(FloorCert),
}

/// Why there is no subsystem.
#[derive(Drop)]
pub enum WitnessError {
    /// The best probability, which is less than the threshold.
    Below(Frac),
    /// A term is past width.
    TooWide(TooWide),
    /// Memory was refused.
    Memory,
}

impl From<AllocError> for WitnessError {
    ghost use Rattle.std.specs.Prelude.{◌≡◌};
    ghost use Rattle.mdp_witness.specs.declared.subsystem.WitnessError.TheVariants as variant;

    ghost from_gives = { λ _ e. e ≡ variant.Memory };

    fn from(_error: AllocError) -> WitnessError {
        WitnessError::Memory
    }
}

impl From<Memory> for WitnessError {
    ghost use Rattle.std.specs.Prelude.{◌≡◌};
    ghost use Rattle.mdp_witness.specs.declared.subsystem.WitnessError.TheVariants as variant;

    ghost from_gives = { λ _ e. e ≡ variant.Memory };

    fn from(_error: Memory) -> WitnessError {
        WitnessError::Memory
    }
}

impl From<SolveError> for WitnessError {
    ghost use Rattle.std.specs.Prelude.{◌≡◌};
    ghost use Rattle.mdp_witness.specs.Code.{of_solve};

    ghost from_gives = { λ error e. e ≡ of_solve error };

    fn from(error: SolveError) -> WitnessError {
        match error {
            SolveError::TooWide(wide) => WitnessError::TooWide(wide),
            SolveError::Memory => WitnessError::Memory,
        }
    }
}
