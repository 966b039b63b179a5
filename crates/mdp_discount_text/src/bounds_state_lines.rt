ghost use Rattle.std.specs.Prelude.{◌≡◌, IfOk, map};
ghost use Rattle.mdp_discount_text.specs.Entries.{lower_value, entries_of};

use crate::entry::Lower;
use crate::lower::{lower_of, lower_part};
use mdp_cert::{Behind, Column, First, Lists, Others, Pair, Value, column_of};
use mdp_discount_rules::DiscountBounds;
use mdp_num::{Frac, Memory};
use mdp_text::push_parts;
use std::alloc::{AllocError, Global};

/// A fraction, or `-inf` where there is none.
impl Value for Lower {
    ghost value = { lower_value };

    fn read_word(word: &[u8]) -> Option<Lower> {
        match lower_of(word) {
            Some(value) => Some(Lower { value }),
            None => None,
        }
    }

    fn push_word(&self, out: &mut Vec<u8>) -> Result<(), Memory> {
        push_parts(out, &[lower_part(&self.value)])
    }

    fn is_same_value(&self, other: &Lower) -> bool {
        self.value.is_same_value(&other.value)
    }
}

/// The line of a state: two values and a choice.
pub(crate) type Entry = Pair<Lower, Pair<Option<Frac>, u32>>;

/// Bounds, lent to be written.
#[derive(Drop)]
pub(crate) struct LentBounds<'a> {
    pub bounds: &'a DiscountBounds,
}

impl Lists for LentBounds<'_> {
    type Item = Pair<Lower, Pair<Option<Frac>, u32>>;

    ghost entries = { λ c. entries_of c.bounds.now.lower.items c.bounds.now.upper.items c.bounds.now.choices.items };

    fn entry(&self, state: u32) -> Pair<Lower, Pair<Option<Frac>, u32>> {
        let place = state as usize;
        Pair {
            first: Lower {
                value: self.bounds.lower[place],
            },
            others: Pair {
                first: self.bounds.upper[place],
                others: self.bounds.choices[place],
            },
        }
    }
}

/// The column of lower values.
struct LowerValue;

impl Column<Entry> for LowerValue {
    type Item = Option<Frac>;

    ghost field = { λ x. x.first.value };

    fn of(entry: &Entry) -> Option<Frac> {
        entry.first.value
    }
}

/// The two values and the choices of these entries, with this remainder.
pub(crate) fn bounds_of(
    alloc: Global,
    remainder: Frac,
    entries: &[Entry],
) -> Result<DiscountBounds, AllocError>
    ensures lower { IfOk result (λ b. b.lower.items ≡ map (λ x. x.first.value) entries.now) }
    ensures upper { IfOk result (λ b. b.upper.items ≡ map (λ x. x.others.first) entries.now) }
    ensures choices { IfOk result (λ b. b.choices.items ≡ map (λ x. x.others.others) entries.now) }
    ensures remainder { IfOk result (λ b. b.remainder ≡ remainder) }
{
    Ok(DiscountBounds {
        lower: column_of::<LowerValue, _>(alloc, entries)?,
        upper: column_of::<Behind<First>, _>(alloc, entries)?,
        choices: column_of::<Behind<Others>, _>(alloc, entries)?,
        remainder,
    })
}
