use mdp_num::Frac;
use mdp_rows::ValuesOf;

/// The gain and the biases of a policy: one bias for each state of the model, 0 outside the component.
#[derive(Drop)]
pub(crate) struct Values {
    pub(crate) gain: Frac,
    pub(crate) bias: Vec<Frac>,
}

impl ValuesOf for Values {
    ghost values = { λ v. v.bias.items };

    fn value_of(&self, t: u32) -> Frac {
        self.bias[t as usize]
    }
}
