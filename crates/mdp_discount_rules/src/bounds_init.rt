use mdp_num::Frac;

/// The initial state, with its lower and its upper value, either of which may be missing.
#[derive(Clone, Copy)]
pub struct InitialBounds {
    pub state: u32,
    pub lower: Option<Frac>,
    pub upper: Option<Frac>,
}
