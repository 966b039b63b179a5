ghost use Rattle.std.specs.Prelude.{◌≡◌, option_map};
ghost use Rattle.mdp_num.specs.{Numeral.{exponent_of, signed_digits, parts_of}, Views.{view, view_signed}};

use crate::digits::{are_digits, split_digits};

/// The parts of a numeral.
#[derive(Drop)]
pub enum Parts<'a> {
    Decimal {
        whole: &'a [u8],
        places: &'a [u8],
        negative: bool,
        exponent: &'a [u8],
    },
    Quotient {
        over: &'a [u8],
        under: &'a [u8],
    },
}

fn signed(bytes: &[u8]) -> Option<(bool, &[u8])>
    ensures { option_map view_signed result ≡ signed_digits bytes.now }
{
    let (negative, digits) = match bytes {
        [b'-', digits @ ..] => (true, digits),
        [b'+', digits @ ..] => (false, digits),
        _ => (false, bytes),
    };
    if are_digits(digits) {
        Some((negative, digits))
    } else {
        None
    }
}

fn exponent(bytes: &[u8]) -> Option<(bool, &[u8])>
    ensures { option_map view_signed result ≡ exponent_of bytes.now }
{
    match bytes {
        [] => Some((false, bytes)),
        [b'e' | b'E', rest @ ..] => signed(rest),
        _ => None,
    }
}

#[tactic(auto, unfolding(crate::specs::Numeral::parts_of))]
pub fn split_parts(bytes: &[u8]) -> Option<Parts<'_>>
    ensures { option_map view result ≡ parts_of bytes.now }
{
    let (whole, rest) = split_digits(bytes);
    if whole.is_empty() {
        return None;
    }
    match rest {
        [b'/', under @ ..] => {
            if are_digits(under) {
                Some(Parts::Quotient { over: whole, under })
            } else {
                None
            }
        }
        [b'.', rest @ ..] => {
            let (places, rest) = split_digits(rest);
            if places.is_empty() {
                return None;
            }
            let (negative, exponent) = exponent(rest)?;
            Some(Parts::Decimal {
                whole,
                places,
                negative,
                exponent,
            })
        }
        _ => {
            let (negative, exponent) = exponent(rest)?;
            Some(Parts::Decimal {
                whole,
                places: &[],
                negative,
                exponent,
            })
        }
    }
}
