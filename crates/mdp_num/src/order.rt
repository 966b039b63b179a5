ghost use Rattle.std.specs.{Prelude.{◌≡◌, ◌<◌, ◌*◌}, Ordering.{nat_cmp}};

use std::cmp::Ordering;

/// The order of a/b and c/d, by no product: that of the whole parts, and where these are one number, that of the reciprocals of the rests the
/// other way round, as continued fractions go. It ends, since the denominators fall.
pub fn fraction_order(a: u128, b: u128, c: u128, d: u128) -> Ordering
    requires some { 0 < b }
    requires other_some { 0 < d }
    ensures { result ≡ nat_cmp (a * d) (c * b) }
{
    let mut num = a;
    let mut den = b;
    let mut other_num = c;
    let mut other_den = d;
    while num / den == other_num / other_den {
        let rest = num % den;
        let other_rest = other_num % other_den;
        if rest == 0 || other_rest == 0 {
            return rest.cmp(&other_rest);
        }
        num = other_den;
        other_num = den;
        den = other_rest;
        other_den = rest;
    }
    (num / den).cmp(&(other_num / other_den))
}
