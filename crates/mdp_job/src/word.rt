ghost use Rattle.std.specs.Prelude.{◌≡◌, option_map, pos};
ghost use Rattle.mdp_math.specs.Rational.{of_int, lt_ℚ};
ghost use Rattle.mdp_job.specs.Words.{rule_of, dir_of, head_of, threshold_of, stay_of, steps_of, factor_of, digits_of};

use crate::digits::whole_word;
use crate::words_error::WordsError;
use mdp_num::{Frac, read_numeral};
use mdp_rows::{Dir, RowRule};

/// The row rule that a word names.
pub(crate) fn rule_of(word: &str) -> Result<RowRule, WordsError>
    ensures { result ≡ rule_of word.now }
{
    match word {
        "exact" => Ok(RowRule::Exact),
        "scaled" => Ok(RowRule::Scaled),
        _ => Err(WordsError::Rows),
    }
}

/// The direction that a word names.
fn dir_of(word: &str) -> Result<Dir, WordsError>
    ensures { result ≡ dir_of word.now }
{
    match word {
        "max" => Ok(Dir::Max),
        "min" => Ok(Dir::Min),
        _ => Err(WordsError::Direction),
    }
}

/// The row rule and the direction that two words name.
pub(crate) fn head_of(rows: &str, dir: &str) -> Result<(RowRule, Dir), WordsError>
    ensures { result ≡ head_of rows.now dir.now }
{
    let rule = rule_of(rows)?;
    let dir = dir_of(dir)?;
    Ok((rule, dir))
}

/// The threshold that a word writes.
pub(crate) fn threshold_of(word: &str) -> Result<Frac, WordsError>
    ensures { result ≡ threshold_of word.now }
{
    match read_numeral(word.as_bytes()) {
        Ok(threshold) => Ok(threshold),
        Err(_) => Err(WordsError::Threshold),
    }
}

/// The label of states at which a way may go on, or none for `-`.
pub(crate) fn stay_of<'a>(word: &'a str) -> Option<&'a [u8]>
    ensures { option_map (λ name. name.now) result ≡ stay_of word.now }
{
    if word == "-" {
        return None;
    }
    Some(word.as_bytes())
}

/// The number of steps that a word writes.
pub(crate) fn steps_of(word: &str) -> Result<u32, WordsError>
    ensures { result ≡ steps_of word.now }
{
    match whole_word(word.as_bytes(), 7) {
        Some(steps) => Ok(steps as u32),
        None => Err(WordsError::Steps),
    }
}

/// Whether a fraction is below 1.
fn is_below_one(factor: &Frac) -> bool
    ensures { result ≡ lt_ℚ factor.now (of_int (pos 1)) }
{
    factor.num() < factor.den()
}

/// The factor that a word writes: a numeral below 1.
pub(crate) fn factor_of(word: &str) -> Result<Frac, WordsError>
    ensures { result ≡ factor_of word.now }
{
    match read_numeral(word.as_bytes()) {
        Ok(factor) if is_below_one(&factor) => Ok(factor),
        _ => Err(WordsError::Factor),
    }
}

/// The number of digits that a word writes: from 1 to 30, without leading zeros.
pub(crate) fn digits_of(word: &str) -> Result<u32, WordsError>
    ensures { result ≡ digits_of word.now }
{
    let bytes = word.as_bytes();
    if let [b'0', ..] = bytes {
        return Err(WordsError::Digits);
    }
    match whole_word(bytes, 2) {
        Some(digits) if digits <= 30 => Ok(digits as u32),
        _ => Err(WordsError::Digits),
    }
}
