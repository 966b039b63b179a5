use mdp_num::Frac;

/// What the line `init` says.
#[derive(Clone, Copy)]
pub enum BoundsInit {
    /// The model has no initial state, or more than one.
    Missing,
    /// The initial state, with its lower and its upper value; none is infinite.
    Between(u32, Option<Frac>, Option<Frac>),
}
