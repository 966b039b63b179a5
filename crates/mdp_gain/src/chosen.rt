ghost use Rattle.mdp_unichain.specs.Component.{IsPolicy};
ghost use Rattle.mdp_gain.specs.Code.{component_in};

use crate::component::EndComponent;

/// A policy of an end component: for each state of the model a choice, which is 0 outside the component.
#[derive(Clone, Copy)]
pub(crate) struct Chosen<'a> {
    pub(crate) component: EndComponent<'a>,
    pub(crate) policy: &'a [u32],
    pub(crate) ghost is: { IsPolicy (component_in component) policy.now },
}
