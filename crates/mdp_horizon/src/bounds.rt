use mdp_num::Frac;

/// Lower and upper values, one of each for each state, where they aren't missing, and a choice of each state for each step: the list at place i has
/// the choices with i steps done.
#[derive(Drop)]
pub struct HorizonBounds {
    pub lower: Vec<Option<Frac>>,
    pub upper: Vec<Option<Frac>>,
    pub steps: Vec<Vec<u32>>,
}
