ghost use Rattle.std.specs.Prelude.{◌<◌};
ghost use Rattle.mdp_unichain.specs.Component.{count};
ghost use Rattle.mdp_gain.specs.Code.{component_in};

use crate::chosen::Chosen;

/// A policy, and the state to which all states of the component lead under it.
#[derive(Clone, Copy)]
pub(crate) struct Referred<'a> {
    pub(crate) chosen: Chosen<'a>,
    pub(crate) t: u32,
    pub(crate) ghost below: { t < count (component_in chosen.component) },
}
