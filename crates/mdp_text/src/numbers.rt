ghost use Rattle.std.specs.Prelude.{◌≡◌};
ghost use Rattle.mdp_text.specs.Words.{whole_of, whole_at, frac_at, reward_parse};

use crate::error::{CertKind, Refusal};
use crate::lines::or_refused;
use mdp_num::{Frac, read_canonical};

/// The whole number below 2^32 that a word spells, without leading zeros.
#[tactic(auto, unfolding(crate::specs::Words::whole_of))]
pub fn whole_of(word: &[u8]) -> Option<u32>
    ensures { result ≡ whole_of word.now }
{
    let number = read_canonical(word)?;
    if number.den() != 1 {
        return None;
    }
    u32::try_from(number.num()).ok()
}

/// The whole number that a word in this line spells, or `Number`.
#[tactic(auto, unfolding(crate::specs::Words::whole_at))]
pub fn whole_at(line: u64, word: &[u8]) -> Result<u32, Refusal>
    ensures { result ≡ whole_at line word.now }
{
    or_refused(CertKind::Number, line, whole_of(word))
}

/// The fraction that a word in this line spells, or `Number`.
#[tactic(auto, unfolding(crate::specs::Words::frac_at))]
pub fn frac_at(line: u64, word: &[u8]) -> Result<Frac, Refusal>
    ensures { result ≡ frac_at line word.now }
{
    or_refused(CertKind::Number, line, read_canonical(word))
}

/// The value that a word spells: a fraction, or `inf`, where there is no number.
pub fn reward_of(word: &[u8]) -> Option<Option<Frac>>
    ensures { result ≡ reward_parse word.now }
{
    if word == b"inf".as_slice() {
        return Some(None);
    }
    Some(Some(read_canonical(word)?))
}
