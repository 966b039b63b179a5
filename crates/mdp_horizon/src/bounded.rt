use mdp_num::Frac;

/// The best values within a number of steps, one for each state, and a choice of each state for each step: the list at place i has the choices
/// with i steps done.
#[derive(Drop)]
pub struct Bounded {
    pub values: Vec<Frac>,
    pub steps: Vec<Vec<u32>>,
}
