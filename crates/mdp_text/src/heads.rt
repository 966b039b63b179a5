ghost use Rattle.std.specs.Prelude.{◌≡◌, ◌+◌, Ok, MatchResult};
ghost use Rattle.mdp_text.specs.{Answer.{Refuses}, Lines.{place, line_by}, Heads.{states_at, init_parse, init_of, given_at, valued_at, start_at}};

use crate::error::{CertError, CertKind, Refusal};
use crate::init::Init;
use crate::lines::{next_line, or_refused, refuse_if};
use crate::numbers::{reward_of, whole_at};
use crate::words::{cut_word, only_word, words_behind};
use mdp_num::{Frac, read_canonical};
use mdp_rows::MAX_STATES;

/// The number of states, from 1 to 2^20, of the line `states N`.
#[tactic(auto, unfolding(crate::specs::Heads::states_at))]
pub fn states_at(line: u64, text: &[u8]) -> Result<u32, Refusal>
    ensures { result ≡ states_at line text.now }
{
    let word = words_behind(line, text, b"states", 1)?;
    let states = whole_at(line, only_word(word))?;
    refuse_if(CertKind::Count, line, states == 0 || states > MAX_STATES)?;
    Ok(states)
}

/// Reads the line of the number of states, which has this number, and gives the bytes behind it.
pub fn states_from(line: u64, bytes: &[u8]) -> Result<(u32, &[u8]), CertError>
    ensures { let read = line_by states_at (place line bytes.now) in MatchResult result (λ p. read ≡ Ok (p.0, place (line + 1) p.1.now))
        (λ e. Refuses e read) }
{
    let (text, rest) = next_line(line, bytes)?;
    let states = states_at(line, text)?;
    Ok((states, rest))
}

/// The value that a word spells: a fraction, or `inf` where values may be infinite.
pub fn init_parse(infinite: bool, word: &[u8]) -> Option<Option<Frac>>
    ensures { result ≡ init_parse infinite word.now }
{
    if infinite {
        return reward_of(word);
    }
    Some(Some(read_canonical(word)?))
}

/// An initial state and its value.
pub fn init_of(state: u32, value: Option<Frac>) -> Init
    ensures { result ≡ init_of state value }
{
    match value {
        Some(value) => Init::Finite(state, value),
        None => Init::Infinite(state),
    }
}

/// The initial state and its value, of the line `init S V`.
#[tactic(auto, unfolding(crate::specs::Heads::given_at))]
fn given_at(infinite: bool, states: u32, line: u64, text: &[u8]) -> Result<Init, Refusal>
    ensures { result ≡ given_at infinite states line text.now }
{
    let behind = words_behind(line, text, b"init", 2)?;
    let (word, behind) = cut_word(behind);
    let state = whole_at(line, word)?;
    let value = or_refused(
        CertKind::Number,
        line,
        init_parse(infinite, only_word(behind)),
    )?;
    refuse_if(CertKind::Count, line, state >= states)?;
    Ok(init_of(state, value))
}

/// What the line `init S V` or `init -` says.
#[tactic(auto, unfolding(crate::specs::Heads::valued_at))]
pub fn valued_at(infinite: bool, states: u32, line: u64, text: &[u8]) -> Result<Init, Refusal>
    ensures { result ≡ valued_at infinite states line text.now }
{
    if text == b"init -".as_slice() {
        return Ok(Init::Missing);
    }
    given_at(infinite, states, line, text)
}

/// The initial state of the line `init S`.
#[tactic(auto, unfolding(crate::specs::Heads::start_at))]
pub fn start_at(states: u32, line: u64, text: &[u8]) -> Result<Init, Refusal>
    ensures { result ≡ start_at states line text.now }
{
    let word = words_behind(line, text, b"init", 1)?;
    let state = whole_at(line, only_word(word))?;
    refuse_if(CertKind::Count, line, state >= states)?;
    Ok(Init::Start(state))
}
