ghost use Rattle.std.specs.Prelude.{◌≡◌, Ok, MatchResult};
ghost use Rattle.mdp_text.specs.{Answer.{Refuses}, Lines.{place}};
ghost use Rattle.mdp_discount_text.specs.{BoundsCode.{plain_head}, Reading.{between_at, init_at, head_from, begins_so, is_discount_claim}};

use crate::claim_line::{ClaimLine, claim_at};
use crate::head_lines::remainder_at;
use crate::lower::lower_of;
use mdp_cert::three_words;
use mdp_discount_rules::InitialBounds;
use mdp_num::Frac;
use mdp_text::{
    CertError, CertKind, Refusal, next_line, or_refused, refuse_if, reward_of, states_from,
    whole_at, words_behind,
};
use std::alloc::Global;

/// What the lines before those of the states say.
#[derive(Drop)]
pub(crate) struct Head {
    pub claim: ClaimLine,
    pub states: u32,
    pub init: Option<InitialBounds>,
    pub remainder: Frac,
}

/// Whether the text begins as the claim of a discounted reward.
fn begins_so(text: &[u8]) -> bool
    ensures { result ≡ begins_so text.now }
{
    text.strip_prefix(b"claim max discount ").is_some()
        || text.strip_prefix(b"claim min discount ").is_some()
}

/// Whether the second line of a text begins as the claim of a discounted reward.
pub fn is_discount_claim(bytes: &[u8]) -> bool
    ensures { result ≡ is_discount_claim bytes.now }
{
    match next_line(1, bytes) {
        Ok((_, rest)) => begins_so(rest),
        Err(_) => false,
    }
}

/// The initial state, its lower and its upper value, of the line `init S LOWER UPPER`.
#[tactic(auto, unfolding(crate::specs::Reading::between_at))]
fn between_at(states: u32, line: u64, text: &[u8]) -> Result<Option<InitialBounds>, Refusal>
    ensures { result ≡ between_at states line text.now }
{
    let behind = words_behind(line, text, b"init", 3)?;
    let (state, lower, upper) = three_words(behind);
    let state = whole_at(line, state)?;
    let lower = or_refused(CertKind::Number, line, lower_of(lower))?;
    let upper = or_refused(CertKind::Number, line, reward_of(upper))?;
    refuse_if(CertKind::Count, line, state >= states)?;
    Ok(Some(InitialBounds {
        state,
        lower,
        upper,
    }))
}

/// What the line `init S LOWER UPPER` or `init -` says.
#[tactic(auto, unfolding(crate::specs::Reading::init_at))]
fn init_at(states: u32, line: u64, text: &[u8]) -> Result<Option<InitialBounds>, Refusal>
    ensures { result ≡ init_at states line text.now }
{
    if text == b"init -".as_slice() {
        return Ok(None);
    }
    between_at(states, line, text)
}

/// Reads the lines 2 to 5, of claim, states, init and remainder, and gives the bytes behind them.
#[tactic(auto, unfolding(crate::specs::Reading::head_from))]
pub(crate) fn head_from(alloc: Global, bytes: &[u8]) -> Result<(Head, &[u8]), CertError>
    ensures { MatchResult result (λ p. head_from (place 2 bytes.now) ≡ Ok (plain_head p.0, place 6 p.1.now))
        (λ e. Refuses e (head_from (place 2 bytes.now))) }
{
    let (text, rest) = next_line(2, bytes)?;
    let claim = claim_at(alloc, 2, text)?;
    let (states, rest) = states_from(3, rest)?;
    let (text, rest) = next_line(4, rest)?;
    let init = init_at(states, 4, text)?;
    let (text, rest) = next_line(5, rest)?;
    let remainder = remainder_at(5, text)?;
    Ok((
        Head {
            claim,
            states,
            init,
            remainder,
        },
        rest,
    ))
}
