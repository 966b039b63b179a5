ghost use Rattle.std.specs.Prelude.{◌≡◌, Ok, IfOk, IfErr, MatchResult};
ghost use Rattle.mdp_text.specs.{Answer.{Refuses}, Lines.{place, nothing_behind}};
ghost use Rattle.mdp_cert.specs.{Cert.{plain_claim}, BoundsCert.{plain_body}, BoundsPlain.{plain}, BoundsReading.{mean_from, body_from, outcome}};

use crate::bounds_body::BoundsBody;
use crate::bounds_cert::BoundsCert;
use crate::bounds_head_lines::head_from;
use crate::claim::Claim;
use crate::gains_lines::mean_cert;
use crate::mean_lines::spread_at;
use crate::ranked_lines::{reach_cert, reward_cert};
use crate::state_lines::entries_to_end;
use crate::version::Version;
use mdp_text::{CertError, CertKind, is_line, next_line, nothing_behind};
use std::alloc::Global;

/// Reads the lines from line 5 on of a mean payoff, with the line `end`, and gives the number of the line behind it and the bytes from there on.
fn mean_from(
    alloc: Global,
    states: u32,
    bytes: &[u8],
) -> Result<(BoundsBody, u64, &[u8]), CertError>
    ensures { let read = mean_from states (place 5 bytes.now) in MatchResult result (λ p. read ≡ Ok (plain_body p.0, place p.1 p.2.now))
        (λ e. Refuses e read) }
{
    let (text, rest) = next_line(5, bytes)?;
    let spread = spread_at(5, text)?;
    let (entries, line, rest) = entries_to_end(alloc, Version::Two, states, 6, rest)?;
    let cert = mean_cert(alloc, spread, &entries)?;
    Ok((BoundsBody::Mean(cert), line, rest))
}

/// Reads the lines from line 5 on, by the claim, with the line `end`, and gives the number of the line behind it and the bytes from there on.
#[tactic(auto, unfolding(crate::specs::BoundsReading::body_from))]
fn body_from<'a>(
    alloc: Global,
    claim: &Claim,
    states: u32,
    bytes: &'a [u8],
) -> Result<(BoundsBody, u64, &'a [u8]), CertError>
    ensures { let read = body_from (plain_claim claim.now) states (place 5 bytes.now) in
        MatchResult result (λ p. read ≡ Ok (plain_body p.0, place p.1 p.2.now)) (λ e. Refuses e read) }
{
    match claim {
        Claim::Reach { .. } | Claim::Until { .. } => {
            let (entries, line, rest) = entries_to_end(alloc, Version::Two, states, 5, bytes)?;
            Ok((BoundsBody::Reach(reach_cert(alloc, &entries)?), line, rest))
        }
        Claim::Reward { .. } => {
            let (entries, line, rest) = entries_to_end(alloc, Version::Two, states, 5, bytes)?;
            Ok((
                BoundsBody::Reward(reward_cert(alloc, &entries)?),
                line,
                rest,
            ))
        }
        Claim::Mean { .. } => mean_from(alloc, states, bytes),
        Claim::Upper { .. } | Claim::Witness { .. } => Err(CertError::At {
            line: 5,
            kind: CertKind::Claim,
        }),
    }
}

/// Reads a certificate of bounds: the bytes are its text, or the refusal names the first line that breaks a rule.
#[tactic(auto, unfolding(crate::specs::BoundsReading::outcome))]
pub fn read_bounds(alloc: Global, bytes: &[u8]) -> Result<BoundsCert, CertError>
    ensures read { IfOk result (λ c. outcome bytes.now ≡ Ok (plain c)) }
    ensures refused { IfErr result (λ e. Refuses e (outcome bytes.now)) }
{
    let (text, rest) = next_line(1, bytes)?;
    is_line(CertKind::Version, b"mdp-bounds 1", 1, text)?;
    let (head, rest) = head_from(alloc, rest)?;
    let (body, line, rest) = body_from(alloc, &head.claim, head.states, rest)?;
    nothing_behind(line, rest)?;
    Ok(BoundsCert {
        claim: head.claim,
        states: head.states,
        init: head.init,
        body,
    })
}
