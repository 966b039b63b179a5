ghost use Rattle.std.specs.Prelude.{◌≡◌, false, Ok, MatchResult};
ghost use Rattle.mdp_text.specs.{Answer.{Refuses}, Lines.{place}, Heads.{states_at}};
ghost use Rattle.mdp_discount_text.specs.{Text.{remainder_at, head_from}, Code.{plain_head}};

use crate::claim_line::{ClaimLine, claim_at};
use mdp_num::Frac;
use mdp_text::{
    CertError, Init, Refusal, frac_at, next_line, only_word, states_from, valued_at, words_behind,
};
use std::alloc::Global;

/// What the lines before those of the states say.
#[derive(Drop)]
pub(crate) struct Head {
    pub(crate) claim: ClaimLine,
    pub(crate) states: u32,
    pub(crate) init: Init,
    pub(crate) remainder: Frac,
}

/// The remainder of the line `remainder K`.
#[tactic(auto, unfolding(crate::specs::Text::remainder_at))]
pub fn remainder_at(line: u64, text: &[u8]) -> Result<Frac, Refusal>
    ensures { result ≡ remainder_at line text.now }
{
    let word = words_behind(line, text, b"remainder", 1)?;
    frac_at(line, only_word(word))
}

/// Reads the lines 2 to 5, of claim, states, init and remainder, and gives the bytes behind them.
#[tactic(auto, unfolding(crate::specs::Text::head_from))]
pub(crate) fn head_from(alloc: Global, bytes: &[u8]) -> Result<(Head, &[u8]), CertError>
    ensures { MatchResult result (λ p. head_from (place 2 bytes.now) ≡ Ok (plain_head p.0, place 6 p.1.now))
        (λ e. Refuses e (head_from (place 2 bytes.now))) }
{
    let (text, rest) = next_line(2, bytes)?;
    let claim = claim_at(alloc, 2, text)?;
    let (states, rest) = states_from(3, rest)?;
    let (text, rest) = next_line(4, rest)?;
    let init = valued_at(false, states, 4, text)?;
    let (text, rest) = next_line(5, rest)?;
    let remainder = remainder_at(5, text)?;
    Ok((
        Head {
            claim,
            states,
            init,
            remainder,
        },
        rest,
    ))
}
