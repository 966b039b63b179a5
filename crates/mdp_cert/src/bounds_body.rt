use mdp_claims::{MeanBoundsCert, ReachBoundsCert, RewardBoundsCert};

/// What a certificate of bounds says of each state.
#[derive(Drop)]
pub enum BoundsBody {
    /// A lower and an upper value, the policy's choice and a rank.
    Reach(ReachBoundsCert),
    /// A lower and an upper value, each of which may be infinite, the policy's choice and a rank.
    Reward(RewardBoundsCert),
    /// A lower and an upper gain, a bound, a bias and the policy's choice; and the spread of bounds and biases.
    Mean(MeanBoundsCert),
}
