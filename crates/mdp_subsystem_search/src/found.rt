use mdp_bounds::ReachBoundsCert;
use mdp_rows::Marks;

/// Kept states, and bounds by which the best probability on them comes to the threshold.
#[derive(Drop)]
pub(crate) struct Found {
    pub kept: Marks,
    pub cert: ReachBoundsCert,
}
