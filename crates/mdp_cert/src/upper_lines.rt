ghost use Rattle.mdp_cert.specs.{Entries.{bound_columns}};

use crate::entries::{Entry, Lists};
use mdp_claims::UpperCert;
use mdp_num::{Frac, Memory, read_canonical};
use mdp_text::only_word;

/// The line of a state for the claim `upper reach`: its upper bound.
impl Entry for Frac {
    ghost columns = { bound_columns };

    fn has_width(count: usize) -> bool {
        count == 1
    }

    fn read(text: &[u8]) -> Option<Frac> {
        read_canonical(only_word(text))
    }

    fn push_words(&self, out: &mut Vec<u8>) -> Result<(), Memory> {
        self.push_text(out)
    }

    fn is_same(&self, other: &Frac) -> bool {
        self == other
    }
}

impl Lists for UpperCert {
    type Item = Frac;

    ghost entries = { λ c. c.values.items };

    fn entry(&self, state: u32) -> Frac {
        self.values[state as usize]
    }
}
