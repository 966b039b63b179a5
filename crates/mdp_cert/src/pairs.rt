ghost use Rattle.mdp_cert.specs.Pairs.{number_value, word_columns, pair_columns, pairs};

use crate::column::Column;
use crate::entries::{Entry, Lists};
use crate::pair::Pair;
use crate::values::{Value, push_value};
use mdp_num::Memory;
use mdp_text::Part::{Bytes, Whole};
use mdp_text::{cut_word, only_word, push_parts, whole_of};

/// A whole number.
impl Value for u32 {
    ghost value = { number_value };

    fn read_word(word: &[u8]) -> Option<u32> {
        whole_of(word)
    }

    fn push_word(&self, out: &mut Vec<u8>) -> Result<(), Memory> {
        push_parts(out, &[Whole(u64::from(*self))])
    }

    fn is_same_value(&self, other: &u32) -> bool {
        self == other
    }
}

/// A whole number that is the last word.
impl Entry for u32 {
    ghost columns = { word_columns number_value };

    fn has_width(count: usize) -> bool {
        count == 1
    }

    fn read(text: &[u8]) -> Option<u32> {
        whole_of(only_word(text))
    }

    fn push_words(&self, out: &mut Vec<u8>) -> Result<(), Memory> {
        self.push_word(out)
    }

    fn is_same(&self, other: &u32) -> bool {
        self == other
    }
}

/// A value, and what the other words say.
impl<V: Value, E: Entry> Entry for Pair<V, E> {
    ghost columns = { pair_columns V.value E.columns };

    fn has_width(count: usize) -> bool {
        count > 0 && E::has_width(count - 1)
    }

    fn read(text: &[u8]) -> Option<Pair<V, E>> {
        E::has_width(0);
        let (word, others) = cut_word(text);
        match (V::read_word(word), E::read(others)) {
            (Some(first), Some(others)) => Some(Pair { first, others }),
            _ => None,
        }
    }

    fn push_words(&self, out: &mut Vec<u8>) -> Result<(), Memory> {
        self.first.push_word(out)?;
        push_parts(out, &[Bytes(b" ")])?;
        self.others.push_words(out)
    }

    fn is_same(&self, other: &Pair<V, E>) -> bool {
        self.first.is_same_value(&other.first) && self.others.is_same(&other.others)
    }
}

/// A list of last words, lent to be written.
#[derive(Drop)]
pub struct Lent<'a, E> {
    pub entries: &'a [E],
}

impl<E: Entry> Lists for Lent<'_, E> {
    type Item = E;

    ghost entries = { λ l. l.entries.now };

    fn entry(&self, state: u32) -> E {
        self.entries[state as usize]
    }
}

/// A list of values and lists of what the other words say, lent to be written.
#[derive(Drop)]
pub struct LentPair<'a, V, L> {
    pub first: &'a [V],
    pub others: L,
}

impl<V: Value, L: Lists> Lists for LentPair<'_, V, L> {
    type Item = Pair<V, L::Item>;

    ghost entries = { λ l. pairs l.first.now (L.entries l.others) };

    fn entry(&self, state: u32) -> Pair<V, L::Item> {
        Pair {
            first: self.first[state as usize],
            others: self.others.entry(state),
        }
    }
}

/// The column of first values.
pub struct First;

impl<V: Copy + Drop, E> Column<Pair<V, E>> for First {
    type Item = V;

    ghost field = { λ p. p.first };

    fn of(entry: &Pair<V, E>) -> V {
        entry.first
    }
}

/// What stands behind the first values.
pub struct Others;

impl<V, E: Copy + Drop> Column<Pair<V, E>> for Others {
    type Item = E;

    ghost field = { λ p. p.others };

    fn of(entry: &Pair<V, E>) -> E {
        entry.others
    }
}

/// A column of what stands behind the first values.
pub struct Behind<C> {
    pub column: C,
}

impl<V, E, C: Column<E>> Column<Pair<V, E>> for Behind<C> {
    type Item = C::Item;

    ghost field = { λ p. C.field p.others };

    fn of(entry: &Pair<V, E>) -> C::Item {
        C::of(&entry.others)
    }
}
