ghost use Rattle.std.specs.Prelude.{◌≡◌, Ok, MatchResult};
ghost use Rattle.mdp_text.specs.{Answer.{Refuses}, Lines.{place}, Heads.{start_at, valued_at}};
ghost use Rattle.mdp_cert.specs.{Answer.{plain_head}, Cert.{plain_claim, may_be_infinite}, Reading.{version_at, init_at, head_from}};

use crate::claim::Claim;
use crate::claim_line::claim_at;
use crate::head::Head;
use crate::version::Version;
use mdp_text::{CertError, CertKind, Init, Refusal, next_line, start_at, states_from, valued_at};
use std::alloc::Global;

/// The version that the first line names.
#[tactic(auto, unfolding(crate::specs::Reading::version_at))]
pub(crate) fn version_at(line: u64, text: &[u8]) -> Result<Version, Refusal>
    ensures { result ≡ version_at line text.now }
{
    if text == b"mdp-certificate 1".as_slice() {
        return Ok(Version::One);
    }
    if text == b"mdp-certificate 2".as_slice() {
        return Ok(Version::Two);
    }
    Err(Refusal {
        kind: CertKind::Version,
        line,
    })
}

/// Whether the values of a claim may be infinite.
pub fn may_be_infinite(claim: &Claim) -> bool
    ensures { result ≡ may_be_infinite (plain_claim claim.now) }
{
    matches!(claim, Claim::Reward { .. })
}

/// What the line `init` says, in the form of the claim.
fn init_at(claim: &Claim, states: u32, line: u64, text: &[u8]) -> Result<Init, Refusal>
    ensures { result ≡ init_at (plain_claim claim.now) states line text.now }
{
    match claim {
        Claim::Witness { .. } => start_at(states, line, text),
        _ => valued_at(may_be_infinite(claim), states, line, text),
    }
}

/// Reads the lines 2 to 4, of claim, states and init, and gives the bytes behind them.
#[tactic(auto, unfolding(crate::specs::Reading::head_from))]
pub(crate) fn head_from(alloc: Global, bytes: &[u8]) -> Result<(Head, &[u8]), CertError>
    ensures { MatchResult result (λ p. head_from (place 2 bytes.now) ≡ Ok (plain_head p.0, place 5 p.1.now))
        (λ e. Refuses e (head_from (place 2 bytes.now))) }
{
    let (text, rest) = next_line(2, bytes)?;
    let claim = claim_at(alloc, 2, text)?;
    let (states, rest) = states_from(3, rest)?;
    let (text, rest) = next_line(4, rest)?;
    let init = init_at(&claim, states, 4, text)?;
    Ok((
        Head {
            claim,
            states,
            init,
        },
        rest,
    ))
}
