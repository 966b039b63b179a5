use mdp_num::Frac;

/// What was found of one end component: its states, ascending, the gain, and for each of these states its bias and its choice.
#[derive(Drop)]
pub struct Inner {
    pub states: Vec<u32>,
    pub gain: Frac,
    pub bias: Vec<Frac>,
    pub choices: Vec<u32>,
}
