use mdp_bounds::ReachBoundsCert;
use mdp_num::{Frac, Memory};
use mdp_rows::Marks;
use std::alloc::AllocError;

/// Kept states, and bounds by which the best probability on them alone is at least the threshold. One of each for each state.
#[derive(Drop)]
pub struct Subsystem {
    /// Lower values, choices and ranks on the kept states; each upper value is 1. For the least probability each choice is 0.
    pub bounds: ReachBoundsCert,
    /// Whether a state is kept. No goal is.
    pub kept: Marks,
    /// Whether it was shown that without the state the probability is below the threshold.
    pub needed: Marks,
}

/// Why there is no subsystem.
#[derive(Drop)]
pub enum Unshown {
    /// An upper value of the start, which is less than the threshold.
    Below(Frac),
    /// The threshold lies between a lower and an upper value of the start, and the exact query is too wide.
    Undecided { lower: Frac, upper: Frac },
    /// Memory was refused.
    Memory,
}

impl From<AllocError> for Unshown {
    ghost use Rattle.std.specs.Prelude.{◌≡◌};
    ghost use Rattle.mdp_subsystem_search.specs.declared.subsystem.Unshown.TheVariants as variant;

    ghost from_gives = { λ _ e. e ≡ variant.Memory };

    fn from(_error: AllocError) -> Unshown {
        Unshown::Memory
    }
}

impl From<Memory> for Unshown {
    ghost use Rattle.std.specs.Prelude.{◌≡◌};
    ghost use Rattle.mdp_subsystem_search.specs.declared.subsystem.Unshown.TheVariants as variant;

    ghost from_gives = { λ _ e. e ≡ variant.Memory };

    fn from(_error: Memory) -> Unshown {
        Unshown::Memory
    }
}
