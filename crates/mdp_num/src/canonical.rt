ghost use Rattle.std.specs.{Prelude.{◌≡◌}, Option.{IfSome, IsNone}};
ghost use Rattle.mdp_math.specs.Rational.{ℚ};
ghost use Rattle.mdp_num.specs.{Canonical.{term_of, den_behind, unsigned_of, canonical_of}, Value.{spelling, IsNarrow}};

use crate::digits::{are_plain, capped_after, split_digits};
use crate::frac::{Frac, WIDTH};
use crate::gcd::greatest_common_divisor;

/// A term: the number of digits without leading zeros, where it is in width.
fn term(digits: &[u8]) -> Option<u128>
    ensures { result ≡ term_of digits.now }
{
    let number = capped_after(0, digits, WIDTH + 1);
    if are_plain(digits) && number <= WIDTH {
        Some(number)
    } else {
        None
    }
}

/// The denominator behind the numerator's digits: 1 where nothing follows, else `/` and a term above 1.
fn denominator(bytes: &[u8]) -> Option<u128>
    ensures { result ≡ den_behind bytes.now }
{
    match bytes {
        [] => Some(1),
        [b'/', digits @ ..] => match term(digits) {
            Some(den) if den > 1 => Some(den),
            _ => None,
        },
        _ => None,
    }
}

/// The fraction, or its negation, that a spelling without sign gives.
fn unsigned(is_negative: bool, bytes: &[u8]) -> Option<Frac>
    ensures { result ≡ unsigned_of is_negative bytes.now }
{
    let (digits, behind) = split_digits(bytes);
    let num = term(digits)?;
    let den = denominator(behind)?;
    if is_negative && num == 0 || greatest_common_divisor(num, den) != 1 {
        return None;
    }
    Some(Frac::from_lowest(is_negative, num, den))
}

/// The fraction of which the bytes are the canonical spelling: the numerator in decimal without leading zeros, with `-` in front where it is
/// negative, and where the denominator isn't 1, `/` and the denominator, in lowest terms and both in width.
pub fn read_canonical(bytes: &[u8]) -> Option<Frac>
    ensures value { result ≡ canonical_of bytes.now }
    ensures found { IfSome result (λ f. bytes.now ≡ spelling f) }
    ensures none { IsNone result → (x : ℚ) → IsNarrow x → bytes.now ≡ spelling x → ⊥ }
{
    match bytes {
        [b'-', magnitude @ ..] => unsigned(true, magnitude),
        _ => unsigned(false, bytes),
    }
}
