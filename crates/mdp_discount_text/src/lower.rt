ghost use Rattle.std.specs.Prelude.{◌≡◌};
ghost use Rattle.mdp_text.specs.Parts.{part_text};
ghost use Rattle.mdp_discount_text.specs.Entries.{lower_parse, lower_text};

use mdp_num::{Frac, read_canonical};
use mdp_text::Part;
use mdp_text::Part::{Bytes, Fraction};

/// The lower value that a word spells: a fraction, or `-inf`, where it is missing.
pub(crate) fn lower_of(word: &[u8]) -> Option<Option<Frac>>
    ensures { result ≡ lower_parse word.now }
{
    if word == b"-inf".as_slice() {
        return Some(None);
    }
    Some(Some(read_canonical(word)?))
}

/// A lower value as it is written.
pub(crate) fn lower_part(value: &Option<Frac>) -> Part<'static>
    ensures { part_text result ≡ lower_text value.now }
{
    match value {
        Some(value) => Fraction(*value),
        None => Bytes(b"-inf"),
    }
}
