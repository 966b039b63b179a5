//! Values that were read, kept with their texts: the lines of a model often repeat a text.
ghost use Rattle.std.specs.Prelude.{◌≡◌, ◌<◌, Ok, IfOk, IfSome};
ghost use Rattle.mdp_num.specs.Meaning.{IsWithinLimit};
ghost use Rattle.mdp_drn.specs.Values.{value_of};

use crate::error::DrnKind;
use crate::values::read_value;
use mdp_num::Frac;
use std::alloc::Global;
use std::marker::Model;

/// How many texts are kept at most.
const MOST_KEPT: usize = 16;

/// The longest text that is kept.
const LONGEST_KEPT: usize = 32;

/// A text with its value, or nothing.
#[derive(Drop)]
struct Kept {
    text: Vec<u8>,
    value: Option<Frac>,
}

impl Model for Kept {
    ghost use Rattle.std.specs.Prelude.{◌≡◌, Ok, IfSome};
    ghost use Rattle.mdp_num.specs.Meaning.{IsWithinLimit};
    ghost use Rattle.mdp_drn.specs.Values.{value_of};

    ghost Value = { Unit {0} };

    ghost view = { λ _. tt };

    ghost invariant = { λ k. IfSome k.value (λ x. (value_of k.text.items ≡ Ok x) × IsWithinLimit x) };
}

impl Kept {
    fn new(alloc: Global) -> Kept {
        Kept {
            text: Vec::new(alloc),
            value: None,
        }
    }

    /// The value of the text, where it is the one that is kept.
    fn find(&self, text: &[u8]) -> Option<Frac>
        ensures { IfSome result (λ x. (value_of text.now ≡ Ok x) × IsWithinLimit x) }
    {
        if self.text.as_slice() == text {
            self.value
        } else {
            None
        }
    }

    /// Keeps this text in the place of another, unless memory is refused.
    fn keep(&mut self, text: &[u8], value: Frac)
        requires value { value_of text.now ≡ Ok value }
        requires within { IsWithinLimit value }
    {
        self.value = None;
        self.text.clear();
        if self.text.extend_from_slice(text).is_ok() {
            self.value = Some(value);
        }
    }
}

/// Reads the values of transitions.
#[derive(Drop)]
pub(crate) struct KeptValues {
    alloc: Global,
    places: Vec<Kept>,
}

/// The place where a text is kept.
fn place_of(text: &[u8]) -> usize
    ensures { result < 16 }
{
    let mut sum = 0u32;
    for byte in text {
        sum = sum.wrapping_mul(3).wrapping_add(u32::from(*byte));
    }
    sum as usize % MOST_KEPT
}

impl KeptValues {
    /// Nothing is kept yet.
    pub(crate) fn new(alloc: Global) -> KeptValues {
        KeptValues {
            alloc,
            places: Vec::new(alloc),
        }
    }

    /// The value of the text, where it is kept at this place.
    fn find(&self, place: usize, text: &[u8]) -> Option<Frac>
        ensures { IfSome result (λ x. (value_of text.now ≡ Ok x) × IsWithinLimit x) }
    {
        if place < self.places.len() {
            self.places[place].find(text)
        } else {
            None
        }
    }

    /// Keeps the text at this place, where the place is there; else one place more is made.
    fn keep(&mut self, place: usize, text: &[u8], value: Frac)
        requires value { value_of text.now ≡ Ok value }
        requires within { IsWithinLimit value }
    {
        if place < self.places.len() {
            self.places[place].keep(text, value);
        } else {
            let _ = self.places.push(Kept::new(self.alloc));
        }
    }

    /// The value of a transition, which has no sign.
    pub(crate) fn read(&mut self, text: &[u8]) -> Result<Frac, DrnKind>
        ensures value { result ≡ value_of text.now }
        ensures within { IfOk result IsWithinLimit }
    {
        if text.len() > LONGEST_KEPT {
            return read_value(text);
        }
        let place = place_of(text);
        if let Some(value) = self.find(place, text) {
            return Ok(value);
        }
        let value = read_value(text)?;
        self.keep(place, text, value);
        Ok(value)
    }
}
