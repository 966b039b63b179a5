ghost use Rattle.std.specs.Prelude.{◌≡◌, ◌++◌, ◌∷◌, OnOk};
ghost use Rattle.mdp_text.specs.Answer.{Keeps};
ghost use Rattle.mdp_cert.specs.Claims.{Value, fraction_value, reward_value};

use mdp_num::{Frac, Memory, read_canonical};
use mdp_text::Part::Bytes;
use mdp_text::{push_parts, reward_of};

/// A value that is one word of a line.
pub trait Value: Copy + Drop {
    ghost value: { Value Self };

    /// The value that a word spells.
    fn read_word(word: &[u8]) -> Option<Self>
        ensures { result ≡ value.parse word.now };

    /// Appends the word.
    fn push_word(&self, out: &mut Vec<u8>) -> Result<(), Memory>
        ensures text { OnOk result (out.new.items ≡ out.old.items ++ value.spell self.now) }
        ensures front { Keeps out.old.items out.new.items };

    /// Whether two values are the same.
    fn is_same_value(&self, other: &Self) -> bool
        ensures { result ≡ value.same self.now other.now };
}

/// Appends a blank and the word of a value.
pub fn push_value<V: Value>(out: &mut Vec<u8>, value: &V) -> Result<(), Memory>
    ensures text { OnOk result (out.new.items ≡ out.old.items ++ (32 ∷ V.value.spell value.now)) }
    ensures front { Keeps out.old.items out.new.items }
{
    push_parts(out, &[Bytes(b" ")])?;
    value.push_word(out)
}

/// A fraction.
impl Value for Frac {
    ghost value = { fraction_value };

    fn read_word(word: &[u8]) -> Option<Frac> {
        read_canonical(word)
    }

    fn push_word(&self, out: &mut Vec<u8>) -> Result<(), Memory> {
        self.push_text(out)
    }

    fn is_same_value(&self, other: &Frac) -> bool {
        self == other
    }
}

/// A fraction, or `inf` where there is none.
impl Value for Option<Frac> {
    ghost value = { reward_value };

    fn read_word(word: &[u8]) -> Option<Option<Frac>> {
        reward_of(word)
    }

    fn push_word(&self, out: &mut Vec<u8>) -> Result<(), Memory> {
        match self {
            Some(value) => value.push_text(out),
            None => push_parts(out, &[Bytes(b"inf")]),
        }
    }

    fn is_same_value(&self, other: &Option<Frac>) -> bool {
        match (self, other) {
            (Some(value), Some(due)) => value == due,
            (None, None) => true,
            _ => false,
        }
    }
}
