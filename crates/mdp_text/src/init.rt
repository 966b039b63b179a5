use mdp_num::Frac;

/// What the line `init` says.
#[derive(Clone, Copy)]
pub enum Init {
    /// The model has no initial state, or more than one.
    Missing,
    /// The initial state, and its value.
    Finite(u32, Frac),
    /// The initial state, of infinite value.
    Infinite(u32),
    /// The initial state alone, for a subsystem.
    Start(u32),
}
