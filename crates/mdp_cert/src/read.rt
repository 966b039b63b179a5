ghost use Rattle.std.specs.Prelude.{◌≡◌, Ok, IfOk, IfErr, MatchResult};
ghost use Rattle.mdp_cert.specs.{Cert.{plain_claim, plain_body}, Plain.{plain}, Reading.{mean_from, kept_from, body_from, outcome}};
ghost use Rattle.mdp_text.specs.{Lines.{place, nothing_behind}, Answer.{Refuses}, declared.error.CertError.TheVariants.{Memory}};

use crate::body::Body;
use crate::cert::Cert;
use crate::claim::Claim;
use crate::floor_lines::floor_body;
use crate::flow_lines::flow_body;
use crate::head_lines::{head_from, version_at};
use crate::listed::listed_to_end;
use crate::mean_lines::{mean_body, spread_at};
use crate::policy_lines::{reach_body, reward_body};
use crate::state_lines::entries_to_end;
use crate::version::Version;
use mdp_claims::UpperCert;
use mdp_rows::Dir;
use mdp_text::{CertError, next_line, nothing_behind};
use std::alloc::{AllocError, Global};

/// A body that was read, with the number of the line behind it and the bytes from there on.
fn placed(
    body: Result<Body, AllocError>,
    line: u64,
    rest: &[u8],
) -> Result<(Body, u64, &[u8]), CertError>
    ensures { MatchResult result (λ p. (body ≡ Ok p.0) × (p.1 ≡ line) × (p.2.now ≡ rest.now)) (λ e. e ≡ Memory) }
{
    Ok((body?, line, rest))
}

/// Reads the lines from line 5 on of a mean payoff, with the line `end`, and gives the number of the line behind it and the bytes from there on.
fn mean_from(
    alloc: Global,
    version: Version,
    states: u32,
    bytes: &[u8],
) -> Result<(Body, u64, &[u8]), CertError>
    ensures { let read = mean_from version states (place 5 bytes.now) in
        MatchResult result (λ p. read ≡ Ok (plain_body p.0, place p.1 p.2.now)) (λ e. Refuses e read) }
{
    let (text, rest) = next_line(5, bytes)?;
    let spread = spread_at(5, text)?;
    let (entries, line, rest) = entries_to_end(alloc, version, states, 6, rest)?;
    placed(mean_body(alloc, spread, &entries), line, rest)
}

/// The same of a subsystem.
fn kept_from(
    alloc: Global,
    dir: Dir,
    states: u32,
    bytes: &[u8],
) -> Result<(Body, u64, &[u8]), CertError>
    ensures { let read = kept_from dir states (place 5 bytes.now) in MatchResult result (λ p. read ≡ Ok (plain_body p.0, place p.1 p.2.now))
        (λ e. Refuses e read) }
{
    match dir {
        Dir::Max => {
            let (lines, line, rest) = listed_to_end(alloc, states, 5, bytes)?;
            placed(flow_body(alloc, &lines), line, rest)
        }
        Dir::Min => {
            let (lines, line, rest) = listed_to_end(alloc, states, 5, bytes)?;
            placed(floor_body(alloc, &lines), line, rest)
        }
    }
}

/// Reads the lines from line 5 on, by the claim, with the line `end`, and gives the number of the line behind it and the bytes from there on.
#[tactic(auto, unfolding(crate::specs::Reading::body_from))]
fn body_from<'a>(
    alloc: Global,
    version: Version,
    claim: &Claim,
    states: u32,
    bytes: &'a [u8],
) -> Result<(Body, u64, &'a [u8]), CertError>
    ensures { let read = body_from version (plain_claim claim.now) states (place 5 bytes.now) in
        MatchResult result (λ p. read ≡ Ok (plain_body p.0, place p.1 p.2.now)) (λ e. Refuses e read) }
{
    match claim {
        Claim::Upper { .. } => {
            let (values, line, rest) = entries_to_end(alloc, version, states, 5, bytes)?;
            Ok((Body::Upper(UpperCert { values }), line, rest))
        }
        Claim::Reach { .. } | Claim::Until { .. } => {
            let (entries, line, rest) = entries_to_end(alloc, version, states, 5, bytes)?;
            placed(reach_body(alloc, &entries), line, rest)
        }
        Claim::Reward { .. } => {
            let (entries, line, rest) = entries_to_end(alloc, version, states, 5, bytes)?;
            placed(reward_body(alloc, &entries), line, rest)
        }
        Claim::Mean { .. } => mean_from(alloc, version, states, bytes),
        Claim::Witness { dir, .. } => kept_from(alloc, *dir, states, bytes),
    }
}

/// Reads a certificate: the bytes are its text in one of the versions, or the refusal names the first line that breaks a rule.
#[tactic(auto, unfolding(crate::specs::Reading::outcome))]
pub fn read_cert(alloc: Global, bytes: &[u8]) -> Result<Cert, CertError>
    ensures read { IfOk result (λ c. outcome bytes.now ≡ Ok (plain c)) }
    ensures refused { IfErr result (λ e. Refuses e (outcome bytes.now)) }
{
    let (text, rest) = next_line(1, bytes)?;
    let version = version_at(1, text)?;
    let (head, rest) = head_from(alloc, rest)?;
    let (body, line, rest) = body_from(alloc, version, &head.claim, head.states, rest)?;
    nothing_behind(line, rest)?;
    Ok(Cert {
        claim: head.claim,
        states: head.states,
        init: head.init,
        body,
    })
}
