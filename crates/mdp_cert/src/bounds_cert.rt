ghost use Rattle.std.specs.Prelude.{◌<◌, ◌≤◌, ◌^◌, IsTrue};
ghost use Rattle.mdp_cert.specs.{Cert.{plain_claim, are_names}, BoundsCert.{plain_body, is_init_of, is_body_of}};

use crate::bounds_body::BoundsBody;
use crate::claim::Claim;
use crate::init::BoundsInit;

/// A certificate of bounds: its claim, which is one of reach, reward or mean in a direction, the number of states, from 1 to 2^20, the initial state
/// with its lower and its upper value, and a body of the claim's kind with an entry per state.
#[derive(Drop)]
pub struct BoundsCert {
    pub claim: Claim,
    pub states: u32,
    pub init: BoundsInit,
    pub body: BoundsBody,
    ghost some: { 0 < states },
    ghost limit: { states ≤ 2 ^ 20 },
    ghost names: { IsTrue (are_names (plain_claim claim)) },
    ghost inside: { IsTrue (is_init_of (plain_claim claim) states init) },
    ghost entries: { IsTrue (is_body_of (plain_claim claim) states (plain_body body)) },
}
