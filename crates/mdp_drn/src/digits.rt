ghost use Rattle.std.specs.Prelude.{◌≡◌, ◌^◌, min};
ghost use Rattle.mdp_num.specs.Digits.{number};
ghost use Rattle.mdp_drn.specs.Body.{has_digits};

use mdp_num::{capped_after, split_digits};

/// More than any number of a state: greater ones need not be told apart.
const CAP: u128 = 1 << 32;

/// Whether a digit comes first.
pub(crate) fn has_digits(bytes: &[u8]) -> bool
    ensures { result ≡ has_digits bytes.now }
{
    let (digits, _) = split_digits(bytes);
    !digits.is_empty()
}

/// The number that the digits write, or 2^32 where it is greater.
pub(crate) fn number_of(digits: &[u8]) -> u64
    ensures { result ≡ min (number digits.now) (2 ^ 32) }
{
    capped_after(0, digits, CAP) as u64
}
