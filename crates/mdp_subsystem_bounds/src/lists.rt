use crate::mark::Mark;
use mdp_claims::ReachBoundsCert;

/// Lower values, a memoryless policy, ranks and marks that show what a subsystem comes to: one of each per state. The upper values are all 1: they
/// say nothing. Where the claim is of the least probability, the choices are all 0.
#[derive(Drop)]
pub struct SubsystemBounds {
    pub bounds: ReachBoundsCert,
    pub marks: Vec<Mark>,
}
