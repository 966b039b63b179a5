ghost use Rattle.mdp_num.specs.Meaning.{IsWithinLimit};

use mdp_num::Frac;

/// An entry of the open row: a target state, and its value, which may be 0.
#[derive(Clone, Copy)]
pub struct Given {
    pub target: u32,
    pub value: Frac,
    ghost term: { IsWithinLimit value },
}
