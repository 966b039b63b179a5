use crate::claim::Claim;
use crate::init::BoundsInit;

/// What the lines of claim, states and init say.
#[derive(Drop)]
pub(crate) struct Head {
    pub claim: Claim,
    pub states: u32,
    pub init: BoundsInit,
}
