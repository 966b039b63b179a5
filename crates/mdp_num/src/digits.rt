ghost use Rattle.std.specs.{Prelude.{◌≡◌, ◌≤◌, min}, List.{prefix_len}, Char.{is_ascii_digit}};
ghost use Rattle.mdp_num.specs.Digits.{number_after, front_digits, behind_digits, is_digits, is_plain};

/// 10 ^ 18. A number up to this has room in 64 bits for one more digit.
const SHORT: u128 = 1_000_000_000_000_000_000;

/// How many digits the bytes begin with.
fn digits_len(bytes: &[u8]) -> usize
    ensures { result ≡ prefix_len is_ascii_digit bytes.now }
{
    for (place, byte) in bytes.iter().enumerate() {
        if !byte.is_ascii_digit() {
            return place;
        }
    }
    bytes.len()
}

/// Whether the bytes are digits, one or more, and nothing else.
pub fn are_digits(bytes: &[u8]) -> bool
    ensures { result ≡ is_digits bytes.now }
{
    !bytes.is_empty() && digits_len(bytes) == bytes.len()
}

/// Whether the bytes are digits without a leading zero, or `0` alone.
pub fn are_plain(bytes: &[u8]) -> bool
    ensures { result ≡ is_plain bytes.now }
{
    match bytes {
        [] => false,
        [first, others @ ..] => are_digits(bytes) && (*first != b'0' || others.is_empty()),
    }
}

/// The digits at the front, and the bytes behind them.
pub fn split_digits(bytes: &[u8]) -> (&[u8], &[u8])
    ensures front { result.0.now ≡ front_digits bytes.now }
    ensures behind { result.1.now ≡ behind_digits bytes.now }
{
    bytes.split_at(digits_len(bytes))
}

/// The number that the digits write behind those of n, or the cap where it is greater.
fn long_after(n: u128, digits: &[u8], cap: u128) -> u128
    requires { n ≤ cap }
    ensures { result ≡ min (number_after n digits.now) cap }
{
    let mut number = n;
    for digit in digits {
        let value = u128::from(digit.saturating_sub(b'0'));
        number = number.saturating_mul(10).saturating_add(value).min(cap);
    }
    number
}

/// The number that the digits write behind those of n, or the cap where it is greater; gathered in 64 bits as far as it fits them.
pub fn capped_after(n: u128, digits: &[u8], cap: u128) -> u128
    requires { n ≤ cap }
    ensures { result ≡ min (number_after n digits.now) cap }
{
    if n > SHORT {
        return long_after(n, digits, cap);
    }
    let mut number = n as u64;
    for (i, digit) in digits.iter().enumerate() {
        if u128::from(number) > SHORT {
            return long_after(u128::from(number).min(cap), &digits[i..], cap);
        }
        number = number * 10 + u64::from(digit.saturating_sub(b'0'));
    }
    u128::from(number).min(cap)
}
