use mdp_num::Frac;

/// A lower and an upper value, where they aren't missing.
#[derive(Clone, Copy)]
pub struct Point {
    pub lower: Option<Frac>,
    pub upper: Option<Frac>,
}
