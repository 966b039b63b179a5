ghost use Rattle.mdp_unichain.specs.Component.{count};
ghost use Rattle.mdp_gain.specs.{Code.{component_in}, Only.{IsOnly}, OnlyTerms.{zeros}};

use crate::component::EndComponent;
use mdp_num::Frac;
use mdp_rows::ValuesOf;

/// An end component, and its only state.
#[derive(Clone, Copy)]
pub(crate) struct Only<'a> {
    pub(crate) component: EndComponent<'a>,
    pub(crate) s: u32,
    pub(crate) ghost only: { IsOnly (component_in component) s },
}

/// The biases of its policies: 0 at each state of the model.
impl ValuesOf for Only<'_> {
    ghost values = { λ x. zeros (count (component_in x.component)) };

    fn value_of(&self, _t: u32) -> Frac {
        Frac::whole(0)
    }
}
