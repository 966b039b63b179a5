ghost use Rattle.std.specs.Prelude.{◌≡◌, Ok, MatchResult};
ghost use Rattle.mdp_text.specs.{Answer.{Refuses}, Lines.{place}};
ghost use Rattle.mdp_cert.specs.{Cert.{plain_claim}, BoundsCert.{is_of_bounds}, Code.{plain_head}};
ghost use Rattle.mdp_cert.specs.BoundsReading.{bounds_claim_at, between_at, init_at, head_from};

use crate::bounds_head::Head;
use crate::claim::Claim;
use crate::claim_line::claim_at;
use crate::head_lines::may_be_infinite;
use crate::init::BoundsInit;
use crate::words::three_words;
use mdp_text::{
    CertError, CertKind, Refusal, init_parse, next_line, or_refused, refuse_if, states_from,
    whole_at, words_behind,
};
use std::alloc::Global;

/// Whether the claim is one of bounds.
fn is_of_bounds(claim: &Claim) -> bool
    ensures { result ≡ is_of_bounds (plain_claim claim.now) }
{
    matches!(
        claim,
        Claim::Reach { .. } | Claim::Until { .. } | Claim::Reward { .. } | Claim::Mean { .. }
    )
}

/// The claim of this line, which is one of bounds.
#[tactic(auto, unfolding(crate::specs::BoundsReading::bounds_claim_at))]
fn bounds_claim_at(alloc: Global, line: u64, text: &[u8]) -> Result<Claim, CertError>
    ensures { MatchResult result (λ c. bounds_claim_at line text.now ≡ Ok (plain_claim c)) (λ e. Refuses e (bounds_claim_at line text.now)) }
{
    let claim = claim_at(alloc, line, text)?;
    refuse_if(CertKind::Claim, line, !is_of_bounds(&claim))?;
    Ok(claim)
}

/// The initial state, its lower and its upper value, of the line `init S LOWER UPPER`.
#[tactic(auto, unfolding(crate::specs::BoundsReading::between_at))]
fn between_at(infinite: bool, states: u32, line: u64, text: &[u8]) -> Result<BoundsInit, Refusal>
    ensures { result ≡ between_at infinite states line text.now }
{
    let behind = words_behind(line, text, b"init", 3)?;
    let (state, lower, upper) = three_words(behind);
    let state = whole_at(line, state)?;
    let lower = or_refused(CertKind::Number, line, init_parse(infinite, lower))?;
    let upper = or_refused(CertKind::Number, line, init_parse(infinite, upper))?;
    refuse_if(CertKind::Count, line, state >= states)?;
    Ok(BoundsInit::Between(state, lower, upper))
}

/// What the line `init S LOWER UPPER` or `init -` says.
#[tactic(auto, unfolding(crate::specs::BoundsReading::init_at))]
fn init_at(infinite: bool, states: u32, line: u64, text: &[u8]) -> Result<BoundsInit, Refusal>
    ensures { result ≡ init_at infinite states line text.now }
{
    if text == b"init -".as_slice() {
        return Ok(BoundsInit::Missing);
    }
    between_at(infinite, states, line, text)
}

/// Reads the lines 2 to 4, of claim, states and init, and gives the bytes behind them.
#[tactic(auto, unfolding(crate::specs::BoundsReading::head_from))]
pub(crate) fn head_from(alloc: Global, bytes: &[u8]) -> Result<(Head, &[u8]), CertError>
    ensures { MatchResult result (λ p. head_from (place 2 bytes.now) ≡ Ok (plain_head p.0, place 5 p.1.now))
        (λ e. Refuses e (head_from (place 2 bytes.now))) }
{
    let (text, rest) = next_line(2, bytes)?;
    let claim = bounds_claim_at(alloc, 2, text)?;
    let (states, rest) = states_from(3, rest)?;
    let (text, rest) = next_line(4, rest)?;
    let init = init_at(may_be_infinite(&claim), states, 4, text)?;
    Ok((
        Head {
            claim,
            states,
            init,
        },
        rest,
    ))
}
