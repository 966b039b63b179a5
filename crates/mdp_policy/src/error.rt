use mdp_num::Memory;

/// Why there is no chain.
#[derive(Clone, Copy)]
pub enum ChainError {
    /// At some state the choice isn't one of the state's.
    NoChoice,
    /// Memory was refused.
    Memory,
}

impl From<Memory> for ChainError {
    ghost use Rattle.std.specs.Prelude.{◌≡◌};
    ghost use Rattle.mdp_policy.specs.declared.error.ChainError.TheVariants as variant;

    ghost from_gives = { λ _ e. e ≡ variant.Memory };

    fn from(_error: Memory) -> ChainError {
        ChainError::Memory
    }
}
