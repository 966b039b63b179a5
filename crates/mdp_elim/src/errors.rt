use mdp_wide::Unfinished;

/// Why a system isn't solved: memory was refused, or at this state a term is past width.
pub type ElimError = Unfinished<u32>;

/// Why one step isn't made.
pub(crate) type StepError = Unfinished<()>;
