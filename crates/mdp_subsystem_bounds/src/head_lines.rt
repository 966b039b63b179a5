ghost use Rattle.std.specs.Prelude.{◌≡◌, Ok, MatchResult};
ghost use Rattle.mdp_text.specs.{Answer.{Refuses}, Lines.{place}};
ghost use Rattle.mdp_subsystem_bounds.specs.{Code.{plain_claim, plain_head}, Reading.{subsystem_at, head_from, begins_so, is_subsystem_claim}};

use mdp_cert::{Claim, claim_at};
use mdp_num::Frac;
use mdp_rows::Dir;
use mdp_text::{CertError, CertKind, Init, next_line, start_at, states_from};
use std::alloc::Global;

/// What the line of the claim says.
#[derive(Drop)]
pub(crate) struct ClaimLine {
    pub dir: Dir,
    pub stay: Option<Vec<u8>>,
    pub label: Vec<u8>,
    pub threshold: Frac,
}

/// What the lines before those of the states say.
#[derive(Drop)]
pub(crate) struct Head {
    pub claim: ClaimLine,
    pub states: u32,
    pub init: Init,
}

/// Whether the text begins as the claim of a subsystem.
fn begins_so(text: &[u8]) -> bool
    ensures { result ≡ begins_so text.now }
{
    text.strip_prefix(b"claim max witness ").is_some()
        || text.strip_prefix(b"claim min witness ").is_some()
}

/// Whether the second line of a text begins as the claim of a subsystem.
pub fn is_subsystem_claim(bytes: &[u8]) -> bool
    ensures { result ≡ is_subsystem_claim bytes.now }
{
    match next_line(1, bytes) {
        Ok((_, rest)) => begins_so(rest),
        Err(_) => false,
    }
}

/// The claim of this line, which is one of a subsystem.
#[tactic(auto, unfolding(crate::specs::Reading::subsystem_at))]
fn subsystem_at(alloc: Global, line: u64, text: &[u8]) -> Result<ClaimLine, CertError>
    ensures { MatchResult result (λ c. subsystem_at line text.now ≡ Ok (plain_claim c)) (λ e. Refuses e (subsystem_at line text.now)) }
{
    match claim_at(alloc, line, text)? {
        Claim::Witness {
            dir,
            stay,
            label,
            threshold,
        } => Ok(ClaimLine {
            dir,
            stay,
            label,
            threshold,
        }),
        _ => Err(CertError::At {
            line,
            kind: CertKind::Claim,
        }),
    }
}

/// Reads the lines 2 to 4, of claim, states and init, and gives the bytes behind them.
#[tactic(auto, unfolding(crate::specs::Reading::head_from))]
pub(crate) fn head_from(alloc: Global, bytes: &[u8]) -> Result<(Head, &[u8]), CertError>
    ensures { MatchResult result (λ p. head_from (place 2 bytes.now) ≡ Ok (plain_head p.0, place 5 p.1.now))
        (λ e. Refuses e (head_from (place 2 bytes.now))) }
{
    let (text, rest) = next_line(2, bytes)?;
    let claim = subsystem_at(alloc, 2, text)?;
    let (states, rest) = states_from(3, rest)?;
    let (text, rest) = next_line(4, rest)?;
    let init = start_at(states, 4, text)?;
    Ok((
        Head {
            claim,
            states,
            init,
        },
        rest,
    ))
}
