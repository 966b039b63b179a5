//! Fractions over a denominator that they share, in 64 bits: sums of such need no common divisor at each step.
ghost use Rattle.std.specs.Prelude.{◌≡◌, ◌≤◌, ◌<◌, ◌^◌, ◌<ℤ◌, ℤ, pos, unsigned_abs, IfSome, IfNone};
ghost use Rattle.mdp_math.specs.{Gcd.{lcm}, Rational.{ratio}};
ghost use Rattle.mdp_num.specs.Value.{IsOver};

use crate::frac::Frac;
use crate::gcd::small_divisor;

impl Frac {
    /// The least common multiple of a number and the denominator, where it is in 64 bits.
    pub fn common_multiple(&self, number: u64) -> Option<u64>
        requires { 0 < number }
        ensures value { IfSome result (λ m. m ≡ lcm number self.now.den) }
        ensures long { IfNone result (2 ^ 64 ≤ lcm number self.now.den) }
    {
        let Ok(den) = u64::try_from(self.den()) else {
            return None;
        };
        if number % den == 0 {
            return Some(number);
        }
        if den % number == 0 {
            return Some(den);
        }
        (number / small_divisor(number, den)).checked_mul(den)
    }

    /// The numerator over this denominator, where it is a whole number of 64 bits.
    pub fn over(&self, den: u64) -> Option<i64>
        requires { 0 < den }
        ensures value { IfSome result (IsOver self.now den) }
        ensures none { IfNone result ((n : ℤ) → IsOver self.now den n → ⊥) }
    {
        let Ok(own) = u64::try_from(self.den()) else {
            return None;
        };
        let Ok(num) = i64::try_from(self.num()) else {
            return None;
        };
        if den % own != 0 {
            return None;
        }
        match i64::try_from(i128::from(num) * i128::from(den / own)) {
            Ok(scaled) => Some(scaled),
            Err(_) => None,
        }
    }

    /// num/den, where both are in width as they come.
    pub fn of_terms(num: i128, den: i128) -> Frac
        requires positive { pos 0 <ℤ den }
        requires num_narrow { unsigned_abs num < 2 ^ 127 }
        requires den_narrow { unsigned_abs den < 2 ^ 127 }
        ensures { result ≡ ratio num (unsigned_abs den) }
    {
        Frac::lowest(num, den, den)
    }
}
