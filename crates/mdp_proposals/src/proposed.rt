//! What searches propose, as fractions and lists.

ghost use Rattle.std.specs.Prelude.{◌≡◌, length, IfOk};

use mdp_num::Frac;
use mdp_refinement::item_at;
use std::alloc::{AllocError, Global};

/// The most digits behind the point that bounds are sought with.
pub const MOST_DIGITS: u32 = 30;

/// A value in units of 1 over `one` as a fraction; 0 where that is none in width.
pub(crate) fn fraction(value: i128, one: i128) -> Frac {
    match Frac::try_new(value, one) {
        Ok(fraction) => fraction,
        Err(_) => Frac::whole(0),
    }
}

/// Copies items to the places of others.
fn copy_over<T: Copy>(items: &mut [T], from: &[T]) {
    for place in 0..items.len().min(from.len()) {
        items[place] = from[place];
    }
}

/// A number for each state: that of its place, or `u32::MAX` where there is none.
pub fn numbers(alloc: Global, states: u32, values: &[u32]) -> Result<Vec<u32>, AllocError>
    ensures each { IfOk result (λ list. length list.items ≡ states) }
{
    let mut list = vec![in alloc; u32::MAX; states as usize]?;
    copy_over(&mut list, values);
    Ok(list)
}

/// The fractions of values in units of 1 over `one`, one for each state; 0 where there is none. States often have the value of the one before.
pub fn fractions(
    alloc: Global,
    states: u32,
    values: &[i128],
    one: i128,
) -> Result<Vec<Frac>, AllocError>
    ensures each { IfOk result (λ list. length list.items ≡ states) }
{
    let mut list = vec![in alloc; Frac::whole(0); states as usize]?;
    let (mut last, mut same) = (0, Frac::whole(0));
    for place in 0..list.len() {
        let value = item_at(values, place, 0);
        if value != last {
            last = value;
            same = fraction(last, one);
        }
        list[place] = same;
    }
    Ok(list)
}

/// A value for each state, or none: those given, and none where there is none.
pub fn listed(
    alloc: Global,
    states: u32,
    values: &[Option<Frac>],
) -> Result<Vec<Option<Frac>>, AllocError>
    ensures each { IfOk result (λ list. length list.items ≡ states) }
{
    let mut list = vec![in alloc; None; states as usize]?;
    copy_over(&mut list, values);
    Ok(list)
}
