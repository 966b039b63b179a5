use mdp_num::Frac;

/// Values that are said to bound the probability of reaching a goal from above: one per state.
#[derive(Drop)]
pub struct UpperCert {
    pub values: Vec<Frac>,
}

/// Values, a memoryless policy and ranks that are said to be the greatest or the least probabilities of reaching a goal: one per state.
#[derive(Drop)]
pub struct ReachCert {
    pub values: Vec<Frac>,
    pub choices: Vec<u32>,
    pub ranks: Vec<u32>,
}

/// Rewards until a goal, a memoryless policy and ranks that are said to be the greatest or the least rewards: one of each per state. A value of none
/// is infinite.
#[derive(Drop)]
pub struct RewardCert {
    pub values: Vec<Option<Frac>>,
    pub choices: Vec<u32>,
    pub ranks: Vec<u32>,
}

/// Gains and a memoryless policy that are said to be the greatest or the least mean payoffs: a gain, a bound, a bias and a choice per state, and the
/// spread of bounds and biases.
#[derive(Drop)]
pub struct MeanCert {
    pub gains: Vec<Frac>,
    pub bound: Vec<Frac>,
    pub bias: Vec<Frac>,
    pub choices: Vec<u32>,
    pub spread: Frac,
}
