ghost use Rattle.std.specs.Prelude.{◌<◌, ◌≤◌, ◌^◌, IsTrue};
ghost use Rattle.mdp_cert.specs.Cert.{plain_claim, plain_body, are_names, has_threshold, is_init_of, is_body_of};

use crate::body::Body;
use crate::claim::Claim;
use crate::widths::{body_narrow, claim_narrow, init_narrow};
use mdp_text::Init;

/// A certificate: its claim, the number of states, from 1 to 2^20, the initial state with its value, and a body of the claim's kind with an entry per
/// state. For a subsystem the initial state has no value, and the body has an entry per kept state.
#[derive(Drop)]
pub struct Cert {
    pub claim: Claim,
    pub states: u32,
    pub init: Init,
    pub body: Body,
    ghost some: { 0 < states },
    ghost limit: { states ≤ 2 ^ 20 },
    ghost names: { IsTrue (are_names (plain_claim claim)) },
    ghost threshold: { IsTrue (has_threshold (plain_claim claim)) },
    ghost inside: { IsTrue (is_init_of (plain_claim claim) states init) },
    ghost entries: { IsTrue (is_body_of (plain_claim claim) states (plain_body body)) },
}

impl Cert {
    ghost use Rattle.mdp_cert.specs.{Cert.{Fits}, Plain.{plain}};

    /// What each certificate keeps: it has a text of each version, and `text_law` says that both are read as this certificate.
    pub fn known(&self)
        ensures fits { Fits (plain self.now) }
    {
        claim_narrow(&self.claim);
        init_narrow(&self.init);
        body_narrow(&self.body);
    }
}
