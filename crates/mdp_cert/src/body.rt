use mdp_claims::{FloorCert, FlowCert, MeanCert, ReachCert, RewardCert, UpperCert};

/// What a certificate says of each state, or of each kept state of a subsystem.
#[derive(Drop)]
pub enum Body {
    /// An upper bound.
    Upper(UpperCert),
    /// A value, the policy's choice and a rank.
    Reach(ReachCert),
    /// A value that may be infinite, the policy's choice and a rank.
    Reward(RewardCert),
    /// A gain, a bound, a bias and the policy's choice; and the spread of bounds and biases.
    Mean(MeanCert),
    /// The kept states, ascending, each with its mark, and the flows on them, ascending by state and choice.
    Flow(FlowCert),
    /// The kept states, ascending, each with its mark, its value and its rank.
    Floor(FloorCert),
}
