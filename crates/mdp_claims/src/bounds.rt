use mdp_num::Frac;

/// Lower and upper values, a memoryless policy and ranks, between which the greatest or the least probabilities of reaching a goal are said
/// to lie: one per state.
#[derive(Drop)]
pub struct ReachBoundsCert {
    pub lower: Vec<Frac>,
    pub upper: Vec<Frac>,
    pub choices: Vec<u32>,
    pub ranks: Vec<u32>,
}

/// Lower and upper rewards until a goal, a memoryless policy and ranks, between which the greatest or the least rewards are said to lie: one of
/// each per state. A value of none is infinite; an infinite upper value above a finite lower one claims no upper bound.
#[derive(Drop)]
pub struct RewardBoundsCert {
    pub lower: Vec<Option<Frac>>,
    pub upper: Vec<Option<Frac>>,
    pub choices: Vec<u32>,
    pub ranks: Vec<u32>,
}

/// Lower and upper gains and a memoryless policy, between which the greatest or the least mean payoffs are said to lie: two gains, a bound, a
/// bias and a choice per state, and the spread of bounds and biases.
#[derive(Drop)]
pub struct MeanBoundsCert {
    pub lower: Vec<Frac>,
    pub upper: Vec<Frac>,
    pub bound: Vec<Frac>,
    pub bias: Vec<Frac>,
    pub choices: Vec<u32>,
    pub spread: Frac,
}
