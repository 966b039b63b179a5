ghost use Rattle.std.specs.Prelude.{◌≡◌};
ghost use Rattle.mdp_claims.specs.RuleNumber.{number_of};

/// A rule of certificates, of bounds, of subsystems or of discounted rewards. docs/certificates.md has each.
#[derive(Clone, Copy)]
pub enum Rule {
    /// The line `init` names the model's one initial state and its value.
    InitialState,
    /// The state has the choice of the policy, or of a flow.
    ChoiceExists,
    /// A value is from 0 to 1.
    Probability,
    /// The value of a goal is 1.
    GoalValue,
    /// On each choice a value is at least, or at most, the sum over the row.
    ValueOnEachChoice,
    /// The other half on the choice of the policy.
    ValueOnPolicy,
    /// Goals and states of value 0 have rank 0.
    RankZero,
    /// Elsewhere a target has a smaller rank.
    RankFalls,
    /// A finite reward is at least 0, and 0 at a goal, with rank 0.
    RewardValue,
    /// From a state of finite value all targets have finite values.
    FiniteTargets,
    /// On each choice a value is at least, or at most, the reward and the sum over the row.
    RewardOnEachChoice,
    /// The other half on the choice of the policy.
    RewardOnPolicy,
    /// At a state of finite value a target has a smaller rank.
    FiniteRankFalls,
    /// At a state of infinite value the policy misses the goals with some chance.
    PolicyMisses,
    /// At a state of infinite value each choice misses the goals with some chance.
    EachChoiceMisses,
    /// On each choice a gain is at least, or at most, the sum of the gains over the row.
    GainOnEachChoice,
    /// On each choice gain and bound are at least, or at most, what the choice earns by the bound.
    BoundOnEachChoice,
    /// On the choice of the policy the gain is kept.
    GainOnPolicy,
    /// On the choice of the policy gain and bias are what it earns by the bias.
    BiasOnPolicy,
    /// The spread is the greater of the ranges of the bound and of the bias.
    SpreadIsGreatest,
    /// A kept state is no goal; a flow is above 0 and leaves a kept state.
    StateIsKept,
    /// What leaves a kept state is at most what comes to it.
    FlowsBalance,
    /// What comes to goals is at least the threshold.
    FlowsReachGoals,
    /// The value of the initial state is at least the threshold.
    StartReachesThreshold,
    /// No reward is below 0.
    RewardNotNegative,
    /// On each choice a value is at least, or at most, the discounted reward.
    DiscountedOnEachChoice,
    /// On the choice of the policy it equals that.
    DiscountedOnPolicy,
    /// The remainder is the greatest magnitude of a value.
    RemainderIsGreatest,
}

impl Rule {
    /// The number of the rule, from 1 to 28, as the program prints it.
    pub fn number(&self) -> u8
        ensures { result ≡ number_of self.now }
    {
        match self {
            Rule::InitialState => 1,
            Rule::ChoiceExists => 2,
            Rule::Probability => 3,
            Rule::GoalValue => 4,
            Rule::ValueOnEachChoice => 5,
            Rule::ValueOnPolicy => 6,
            Rule::RankZero => 7,
            Rule::RankFalls => 8,
            Rule::RewardValue => 9,
            Rule::FiniteTargets => 10,
            Rule::RewardOnEachChoice => 11,
            Rule::RewardOnPolicy => 12,
            Rule::FiniteRankFalls => 13,
            Rule::PolicyMisses => 14,
            Rule::EachChoiceMisses => 15,
            Rule::GainOnEachChoice => 16,
            Rule::BoundOnEachChoice => 17,
            Rule::GainOnPolicy => 18,
            Rule::BiasOnPolicy => 19,
            Rule::SpreadIsGreatest => 20,
            Rule::StateIsKept => 21,
            Rule::FlowsBalance => 22,
            Rule::FlowsReachGoals => 23,
            Rule::StartReachesThreshold => 24,
            Rule::RewardNotNegative => 25,
            Rule::DiscountedOnEachChoice => 26,
            Rule::DiscountedOnPolicy => 27,
            Rule::RemainderIsGreatest => 28,
        }
    }
}
