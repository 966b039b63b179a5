ghost use Rattle.std.specs.Prelude.{◌≡◌, ◌<◌, ◌≤◌, ◌==◌, ◌&&◌, ◌∷◌, [], Ok, Err, IfOk, MatchResult, MatchOption, length, drop};
ghost use Rattle.std.specs.{List.{position_or_len, count_by}, Str.{bytes_eq}};
ghost use Rattle.mdp_text.specs.Words.{is_blank, words, first_of, begins_with, words_behind};

use crate::error::{CertKind, Refusal};

/// How many bytes stand before the first one that is this byte, or all where there is none.
pub(crate) fn before(text: &[u8], byte: u8) -> usize
    ensures { result ≡ position_or_len (λ b. b == byte) text.now }
{
    text.iter().take_while(|each| **each != byte).count()
}

/// The first word and the text behind its blank; none where the text is one word.
fn first_word(text: &[u8]) -> Option<(&[u8], &[u8])>
    ensures { MatchOption result (words text.now ≡ text.now ∷ []) (λ p. words text.now ≡ p.0.now ∷ words p.1.now) }
{
    let end = before(text, b' ');
    if end < text.len() {
        Some((&text[..end], &text[end + 1..]))
    } else {
        None
    }
}

/// How many blanks a text has.
fn blank_count(text: &[u8]) -> usize
    ensures blanks { result ≡ count_by is_blank text.now }
    ensures within { result ≤ length text.now }
{
    text.iter().filter(|byte| **byte == b' ').count()
}

/// How many words a text has.
pub fn word_count(text: &[u8]) -> usize
    ensures count { result ≡ length (words text.now) }
    ensures some { 0 < result }
{
    blank_count(text) + 1
}

/// Whether the first word of a text is this one.
pub fn begins_with(text: &[u8], due: &[u8]) -> bool
    ensures { result ≡ begins_with due.now (words text.now) }
{
    match first_word(text) {
        Some((first, _)) => first == due,
        None => text == due,
    }
}

/// Whether the first word of a line is this one, and so many follow.
fn has_shape(first: &[u8], others: &[u8], due: &[u8], count: usize) -> bool
    ensures { result ≡ (bytes_eq first.now due.now && (length (words others.now) == count)) }
{
    first == due && word_count(others) == count
}

/// The text of the words behind the first one, where it is the one that is due and `count` words follow; else `Shape`.
pub fn words_behind<'a>(
    line: u64,
    text: &'a [u8],
    due: &[u8],
    count: usize,
) -> Result<&'a [u8], Refusal>
    requires { 0 < count }
    ensures words { MatchResult result (λ a. words_behind due.now count line text.now ≡ Ok (words a.now))
        (λ e. words_behind due.now count line text.now ≡ Err e) }
    ensures count { IfOk result (λ a. length (words a.now) ≡ count) }
{
    let refusal = Refusal {
        kind: CertKind::Shape,
        line,
    };
    let Some((first, others)) = first_word(text) else {
        return Err(refusal);
    };
    if !has_shape(first, others, due, count) {
        return Err(refusal);
    }
    Ok(others)
}

/// The first word, and the text of the others. The text has two words or more.
pub fn cut_word(text: &[u8]) -> (&[u8], &[u8])
    requires { 1 < length (words text.now) }
    ensures first { result.0.now ≡ first_of (words text.now) }
    ensures others { words result.1.now ≡ drop 1 (words text.now) }
{
    match first_word(text) {
        Some(cut) => cut,
        None => unreachable!(),
    }
}

/// The word of a text of one word.
pub fn only_word(text: &[u8]) -> &[u8]
    requires { length (words text.now) ≡ 1 }
    ensures { result.now ≡ first_of (words text.now) }
{
    text
}
