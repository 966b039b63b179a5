use mdp_num::Frac;

/// Lower and upper values and a memoryless policy, between which the greatest or the least discounted rewards are said to lie: two values,
/// either of which may be missing, and a choice per state. What is left after n steps is at most `remainder` times the factor to the n.
#[derive(Drop)]
pub struct DiscountBounds {
    pub lower: Vec<Option<Frac>>,
    pub upper: Vec<Option<Frac>>,
    pub choices: Vec<u32>,
    pub remainder: Frac,
}
