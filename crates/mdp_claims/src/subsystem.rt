use mdp_num::Frac;

/// How much of a flow takes a choice of a state.
#[derive(Clone, Copy)]
pub struct Flow {
    pub state: u32,
    pub choice: u32,
    pub amount: Frac,
}

/// A flow that is said to show that a subsystem reaches a goal with a probability of at least a threshold: the states that are kept, strictly
/// ascending, for each whether it was kept since a number was too wide to try without it, and the flows, strictly ascending by state and choice.
#[derive(Drop)]
pub struct FlowCert {
    pub kept: Vec<u32>,
    pub wide: Vec<bool>,
    pub flows: Vec<Flow>,
}

/// Values and ranks that are said to show that each policy of a subsystem reaches a goal with a probability of at least a threshold: the states that
/// are kept, strictly ascending, and for each whether it was kept since a number was too wide to try without it, its value and its rank.
#[derive(Drop)]
pub struct FloorCert {
    pub kept: Vec<u32>,
    pub wide: Vec<bool>,
    pub values: Vec<Frac>,
    pub ranks: Vec<u32>,
}
