use mdp_num::{Memory, Wide};
use std::alloc::{AllocError, AllocFailed};

/// Why a computation isn't finished.
#[derive(Drop)]
pub enum Unfinished<P> {
    /// A written term is past width, at this place.
    TooWide(P),
    /// Memory was refused.
    Memory,
}

impl<P: Drop> From<AllocError> for Unfinished<P> {
    ghost use Rattle.std.specs.Prelude.{◌≡◌};
    ghost use Rattle.mdp_wide.specs.declared.unfinished.Unfinished.TheVariants as variant;

    ghost from_gives = { λ _ e. e ≡ variant.Memory };

    fn from(_error: AllocError) -> Unfinished<P> {
        Unfinished::Memory
    }
}

impl<P: Drop, T: Drop> From<AllocFailed<T>> for Unfinished<P> {
    ghost use Rattle.std.specs.Prelude.{◌≡◌};
    ghost use Rattle.mdp_wide.specs.declared.unfinished.Unfinished.TheVariants as variant;

    ghost from_gives = { λ _ e. e ≡ variant.Memory };

    fn from(_error: AllocFailed<T>) -> Unfinished<P> {
        Unfinished::Memory
    }
}

impl<P: Drop> From<Memory> for Unfinished<P> {
    ghost use Rattle.std.specs.Prelude.{◌≡◌};
    ghost use Rattle.mdp_wide.specs.declared.unfinished.Unfinished.TheVariants as variant;

    ghost from_gives = { λ _ e. e ≡ variant.Memory };

    fn from(_error: Memory) -> Unfinished<P> {
        Unfinished::Memory
    }
}

impl From<Wide> for Unfinished<()> {
    ghost use Rattle.std.specs.Prelude.{◌≡◌};
    ghost use Rattle.mdp_wide.specs.declared.unfinished.Unfinished.TheVariants as variant;

    ghost from_gives = { λ _ e. e ≡ variant.TooWide tt };

    fn from(_error: Wide) -> Unfinished<()> {
        Unfinished::TooWide(())
    }
}
