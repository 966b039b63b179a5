//! The simplest fractions between bounds, by continued fractions (Kwek and Mehlhorn 2003). Nothing rests on them: the rules judge what is made of
//! them.

ghost use Rattle.std.specs.Prelude.{◌≡◌, length, IfOk};

use crate::proposed::fraction;
use mdp_num::Frac;
use mdp_refinement::item_at;
use std::alloc::{AllocError, Global};

/// How many terms of a continued fraction are looked at: fractions within 127 bits have fewer.
const MOST_TERMS: u32 = 256;

/// A fraction in whole numbers, not in lowest terms.
#[derive(Clone, Copy)]
struct Terms {
    num: i128,
    den: i128,
}

impl Terms {
    /// A numerator over a denominator.
    fn new(num: i128, den: i128) -> Terms {
        Terms { num, den }
    }

    /// The negation.
    fn negated(self) -> Option<Terms> {
        Some(Terms::new(self.num.checked_neg()?, self.den))
    }

    /// The numerator of what is left without a whole number.
    fn rest(self, whole: i128) -> Option<i128> {
        self.num.checked_sub(whole.checked_mul(self.den)?)
    }

    /// The convergent after this one, which comes after `before`, where the continued fraction goes on with a term.
    fn next(self, before: Terms, term: i128) -> Option<Terms> {
        Some(Terms {
            num: self.num.checked_mul(term)?.checked_add(before.num)?,
            den: self.den.checked_mul(term)?.checked_add(before.den)?,
        })
    }
}

/// The fraction of least denominator from `lower` to `upper`, both at least 0, and of those the least. None where a term is past 128 bits.
///
/// As long as both have the same whole part it is a term of the continued fraction, and it goes on with the reciprocals of the rests, in turned
/// order.
fn simplest_from(lower: Terms, upper: Terms) -> Option<Frac> {
    let mut low = lower;
    let mut high = upper;
    let mut before = Terms { num: 0, den: 1 };
    let mut last = Terms { num: 1, den: 0 };
    for _ in 0..MOST_TERMS {
        let whole = low.num.checked_div(low.den)?;
        let rest = low.rest(whole)?;
        let over = high.rest(whole)?;
        let is_between = rest > 0 && over >= high.den;
        let convergent = last.next(before, whole.checked_add(i128::from(is_between))?)?;
        if rest == 0 || is_between {
            return Frac::try_new(convergent.num, convergent.den).ok();
        }
        before = last;
        last = convergent;
        let reciprocal = Terms::new(low.den, rest);
        low = Terms::new(high.den, over);
        high = reciprocal;
    }
    None
}

/// The fraction of least denominator from `lower` to `upper`, and of those the one nearest to 0. None where a term is past 128 bits.
fn simplest_terms(lower: Terms, upper: Terms) -> Option<Frac> {
    if lower.num > 0 {
        return simplest_from(lower, upper);
    }
    if upper.num >= 0 {
        return Some(Frac::whole(0));
    }
    let magnitude = simplest_from(upper.negated()?, lower.negated()?)?;
    Some(magnitude.negate())
}

/// The simplest fraction from a lower to an upper value in units of 1 over `one`; the lower value where a term is past 128 bits.
fn simplest_of_units(lower: i128, upper: i128, one: i128) -> Frac {
    match simplest_terms(Terms::new(lower, one), Terms::new(upper, one)) {
        Some(simplest) => simplest,
        None => fraction(lower, one),
    }
}

/// The simplest fraction from so many units below a lower value to as many above an upper one, in units of 1 over `one`; the lower value where a term
/// is past 128 bits.
fn simplest_within(lower: i128, upper: i128, room: i128, one: i128) -> Frac {
    match (lower.checked_sub(room), upper.checked_add(room)) {
        (Some(least), Some(greatest)) => simplest_of_units(least, greatest, one),
        _ => fraction(lower, one),
    }
}

/// The simplest fraction of each flagged state from `room` units below its lower to `room` units above its upper value, in units of 1 over `one`; 0
/// of the others.
fn simplest_each(
    alloc: Global,
    states: u32,
    lower: &[i128],
    upper: &[i128],
    room: i128,
    one: i128,
    is_sought: &[bool],
) -> Result<Vec<Frac>, AllocError>
    ensures { IfOk result (λ values. length values.items ≡ states) }
{
    let mut list = vec![in alloc; Frac::whole(0); states as usize]?;
    for place in 0..list.len() {
        if item_at(is_sought, place, false) {
            let (least, greatest) = (item_at(lower, place, 0), item_at(upper, place, 0));
            list[place] = simplest_within(least, greatest, room, one);
        }
    }
    Ok(list)
}

/// The simplest fraction from a lower to an upper value, where both are there and no term is past 128 bits; else the lower one.
fn simplest_reward(lower: Option<Frac>, upper: Option<Frac>) -> Option<Frac> {
    match (lower, upper) {
        (Some(least), Some(greatest)) => {
            let (low, high) = (
                Terms::new(least.num(), least.den()),
                Terms::new(greatest.num(), greatest.den()),
            );
            simplest_terms(low, high).or(lower)
        }
        _ => lower,
    }
}

/// The simplest fraction of each flagged state from its lower to its upper value; the lower one where one of them is missing, and none of the others.
pub fn simplest_rewards(
    alloc: Global,
    states: u32,
    lower: &[Option<Frac>],
    upper: &[Option<Frac>],
    is_sought: &[bool],
) -> Result<Vec<Option<Frac>>, AllocError>
    ensures { IfOk result (λ values. length values.items ≡ states) }
{
    let mut list = vec![in alloc; None; states as usize]?;
    for place in 0..list.len() {
        if item_at(is_sought, place, false) {
            let (least, greatest) = (item_at(lower, place, None), item_at(upper, place, None));
            list[place] = simplest_reward(least, greatest);
        }
    }
    Ok(list)
}

/// The values as upper ones: missing where there is no upper value.
pub fn all_capped(
    alloc: Global,
    states: u32,
    values: &[Option<Frac>],
    upper: &[Option<Frac>],
) -> Result<Vec<Option<Frac>>, AllocError>
    ensures { IfOk result (λ capped. length capped.items ≡ states) }
{
    let mut list = vec![in alloc; None; states as usize]?;
    for place in 0..list.len() {
        if item_at(upper, place, None).is_some() {
            list[place] = item_at(values, place, None);
        }
    }
    Ok(list)
}

/// The simplest fraction of each flagged state from its lower to its upper value, in units of 1 over `one`; 0 of the others.
pub fn simplest_values(
    alloc: Global,
    states: u32,
    lower: &[i128],
    upper: &[i128],
    one: i128,
    is_sought: &[bool],
) -> Result<Vec<Frac>, AllocError>
    ensures { IfOk result (λ values. length values.items ≡ states) }
{
    simplest_each(alloc, states, lower, upper, 0, one, is_sought)
}

/// The simplest fraction near the value of each flagged state, as far as half of the digits; 0 of the others. The values are in units of 1 over
/// `one`, which is 10 to the power of `digits`.
pub fn simplest_near_values(
    alloc: Global,
    states: u32,
    values: &[i128],
    one: i128,
    digits: u32,
    is_sought: &[bool],
) -> Result<Vec<Frac>, AllocError>
    ensures { IfOk result (λ simple. length simple.items ≡ states) }
{
    simplest_each(
        alloc,
        states,
        values,
        values,
        room_of(digits),
        one,
        is_sought,
    )
}

/// How many units of 10^-`digits` are 10 to the power of minus half of the digits.
fn room_of(digits: u32) -> i128 {
    let half = digits / 2;
    10i128.checked_pow(digits - half).unwrap_or(0)
}
