ghost use Rattle.std.specs.{Prelude.{◌≡◌, ◌<◌, ◌≤◌, ◌+◌, ◌^◌, ◌++◌}, Result.{IfOk}};
ghost use Rattle.mdp_num.specs.Digits.{number};
ghost use Rattle.mdp_num.specs.Numeral.{zeros_behind, significant, scaled, decimal_terms, quotient_terms, parts_of, terms_of, numeral_of};
ghost use Rattle.mdp_num.specs.{Value.{IsNarrow}, Meaning.{IsWithinLimit, AreWithinLimit}};

use crate::digits::capped_after;
use crate::errors::NumeralError;
use crate::frac::Frac;
use crate::parts::{Parts, split_parts};

/// 10 ^ 36. Terms above it are too large.
const LIMIT: u128 = 1_000_000_000_000_000_000_000_000_000_000_000_000;

/// The zeros at the end of the digits.
fn count_zeros(digits: &[u8]) -> usize
    ensures { result ≡ zeros_behind digits.now }
{
    let mut end = digits.len();
    while end > 0 && digits[end - 1] == b'0' {
        end -= 1;
    }
    digits.len() - end
}

/// The digits without the zeros at the end, in two parts as they came.
fn without_zeros<'a>(whole: &'a [u8], places: &'a [u8]) -> (&'a [u8], &'a [u8])
    ensures { result.0.now ++ result.1.now ≡ significant (whole.now ++ places.now) }
{
    let zeros = count_zeros(places);
    if zeros < places.len() {
        return (whole, &places[..places.len() - zeros]);
    }
    (&whole[..whole.len() - count_zeros(whole)], &places[..0])
}

fn power_of_ten(exponent: u32) -> u128
    requires { exponent ≤ 36 }
    ensures { result ≡ 10 ^ exponent }
{
    10u128.pow(exponent)
}

/// The terms of d times 10 ^ up over 10 ^ down, where they are within the limit.
fn scale(d: u128, up: u128, down: u128) -> Result<(u128, u128), NumeralError>
    requires up_fits { up < 2 ^ 127 }
    requires down_fits { down < 2 ^ 127 }
    ensures { result ≡ scaled d up down }
{
    if d == 0 {
        return Ok((0, 1));
    }
    if d > LIMIT || up + 36 < down {
        return Err(NumeralError::Large);
    }
    if up < down {
        return Ok((d, power_of_ten((down - up) as u32)));
    }
    let tens = up - down;
    if tens > 36 || d > power_of_ten((36 - tens) as u32) {
        return Err(NumeralError::Large);
    }
    Ok((d * power_of_ten(tens as u32), 1))
}

/// The terms of a decimal: the digits before and behind the point, and the exponent with its sign.
fn decimal(
    whole: &[u8],
    places: &[u8],
    negative: bool,
    exponent: &[u8],
) -> Result<(u128, u128), NumeralError>
    ensures { result ≡ decimal_terms whole.now places.now negative exponent.now }
{
    let zeros = count_zeros(places);
    let zeros = if zeros < places.len() {
        zeros as u128
    } else {
        zeros as u128 + count_zeros(whole) as u128
    };
    let (front, back) = without_zeros(whole, places);
    let d = capped_after(capped_after(0, front, LIMIT + 1), back, LIMIT + 1);
    let tens = capped_after(0, exponent, LIMIT + 1);
    let (up, down) = if negative { (0, tens) } else { (tens, 0) };
    scale(d, up + zeros, down + places.len() as u128)
}

/// The terms of a fraction, as they are spelled.
fn quotient(over: &[u8], under: &[u8]) -> Result<(u128, u128), NumeralError>
    ensures { result ≡ quotient_terms (number over.now) (number under.now) }
{
    let a = capped_after(0, over, LIMIT + 1);
    let b = capped_after(0, under, LIMIT + 1);
    if b == 0 {
        return Err(NumeralError::ZeroDen);
    }
    if a > LIMIT || b > LIMIT {
        return Err(NumeralError::Large);
    }
    Ok((a, b))
}

/// The terms of a numeral, which need not be lowest.
fn terms(bytes: &[u8]) -> Result<(u128, u128), NumeralError>
    ensures value { result ≡ terms_of (parts_of bytes.now) }
    ensures within { IfOk result AreWithinLimit }
{
    match split_parts(bytes) {
        None => Err(NumeralError::Shape),
        Some(
            Parts::Decimal {
                whole,
                places,
                negative,
                exponent,
            },
        ) => decimal(whole, places, negative, exponent),
        Some(Parts::Quotient { over, under }) => quotient(over, under),
    }
}

/// Reads `digits [. digits] [(e or E) [+ or -] digits]` or `digits / digits`, exactly and at any length.
///
/// `Shape` where the text is neither. A fraction is `ZeroDen` where its denominator is 0, else `Large` where a term as spelled is above 10 ^ 36. Of a
/// decimal let d be all its digits as one number without the zeros at their end, and e the exponent, less the count of places, plus the count of
/// those zeros: it is `Large` where d is above 10 ^ 36, where e is below -36, and where e is at least 0 and d times 10 ^ e is above 10 ^ 36; 0 is
/// never `Large`.
#[tactic(auto, unfolding(crate::specs::Numeral::numeral_of))]
pub fn read_numeral(bytes: &[u8]) -> Result<Frac, NumeralError>
    ensures value { result ≡ numeral_of bytes.now }
    ensures within { IfOk result IsWithinLimit }
    ensures narrow { IfOk result IsNarrow }
{
    let (num, den) = terms(bytes)?;
    Ok(Frac::from_terms(num, den))
}
