ghost use Rattle.std.specs.{Prelude.{◌≡◌, ◌<◌, ◌==◌, ◌||◌, not, length, filter, map, nat_lt, nat_le, IfOk}, List.{list_any}, Str.{bytes_eq}};
ghost use Rattle.mdp_rows.specs.Name.{are_different};
ghost use Rattle.mdp_drn.specs.{Header.{is_bad_byte, is_bad_name, names_in, words_of}, Parsing.{Says}};

use crate::error::DrnKind;
use crate::line::{has_either, is_blank};
use crate::line_error::LineError;
use std::alloc::{AllocError, Global};

/// The most reward models.
const MAX_NAMES: usize = 16;

/// Whether no reward model can have this name.
fn is_bad_name(name: &[u8]) -> bool
    ensures { result ≡ is_bad_name name.now }
{
    name.len() > 255 || has_either(name, b'"', b'\r')
}

/// Whether the name is among these.
fn contains(names: &[&[u8]], name: &[u8]) -> bool
    ensures { result ≡ list_any (bytes_eq name.now) (map (λ other. other.now) names.now) }
{
    let mut rest = names;
    while let [other, others @ ..] = rest {
        if name == *other {
            return true;
        }
        rest = others;
    }
    false
}

/// Whether a reward model can have each of the names, and none comes twice.
fn are_proper(names: &[&[u8]]) -> bool
    ensures { result ≡ not (list_any is_bad_name (map (λ name. name.now) names.now) || not (are_different (map (λ name. name.now) names.now))) }
{
    let mut rest = names;
    while let [name, others @ ..] = rest {
        if is_bad_name(name) || contains(others, name) {
            return false;
        }
        rest = others;
    }
    true
}

/// The words between blanks.
fn split_words(alloc: Global, text: &[u8]) -> Result<Vec<&[u8]>, AllocError>
    ensures { IfOk result (λ words. map (λ word. word.now) words.items ≡ words_of text.now) }
{
    text.split(|b| is_blank(*b))
        .filter(|word| !word.is_empty())
        .collect(alloc)
}

fn copy_names(alloc: Global, words: &[&[u8]]) -> Result<Vec<Vec<u8>>, AllocError>
    ensures { IfOk result (λ names. map (λ name. name.items) names.items ≡ map (λ word. word.now) words.now) }
{
    let mut names = Vec::new(alloc);
    for word in words {
        names.push(Vec::from_slice(alloc, word)?)?;
    }
    Ok(names)
}

/// The names of reward models in a line.
#[tactic(auto, unfolding(crate::specs::Header::names_in))]
pub(crate) fn read_names(alloc: Global, text: &[u8]) -> Result<Vec<Vec<u8>>, LineError>
    ensures { Says (λ names. map (λ name. name.items) names.items) result (names_in (words_of text.now)) }
{
    let words = split_words(alloc, text)?;
    if !are_proper(&words) {
        return Err(LineError::Kind(DrnKind::Header));
    }
    if words.len() > MAX_NAMES {
        return Err(LineError::Kind(DrnKind::TooMany));
    }
    Ok(copy_names(alloc, &words)?)
}
