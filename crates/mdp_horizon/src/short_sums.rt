ghost use Rattle.std.specs.Prelude.{◌≡◌, ◌+◌, ◌*◌, ◌<◌, ◌≤◌, ◌^◌, length, slice_index_or, pos, ◌+ℤ◌, ◌*ℤ◌, Some, All, unsigned_abs};
ghost use Rattle.mdp_horizon.specs.{Scaled.{total_of}, Short.{wide_terms, known}};

use crate::choice::ShortTerm;
use crate::short_terms::ShortTerms;

/// `total`, and a weight times a value.
#[inline(always)]
fn added(total: i128, weight: i64, value: i64) -> i128
    requires { unsigned_abs total + unsigned_abs weight * 2 ^ 63 ≤ 2 ^ 126 }
    ensures value { result ≡ total +ℤ weight *ℤ value }
    ensures room { unsigned_abs result ≤ unsigned_abs total + unsigned_abs weight * 2 ^ 63 }
    ensures short { unsigned_abs value ≤ 2 ^ 63 }
{
    let wide_weight = i128::from(weight);
    let wide_value = i128::from(value);
    total + wide_weight * wide_value
}

/// `total`, and the term's weight times the value of its target.
#[inline(always)]
fn short_total_with(values: &[i64], total: i128, term: ShortTerm) -> i128
    requires target { term.target < length values.now }
    requires room { unsigned_abs total + unsigned_abs term.weight * 2 ^ 63 ≤ 2 ^ 126 }
    ensures value { result ≡ total +ℤ term.weight *ℤ slice_index_or values.now term.target (pos 0) }
    ensures room { unsigned_abs result ≤ unsigned_abs total + unsigned_abs term.weight * 2 ^ 63 }
    ensures short { unsigned_abs (slice_index_or values.now term.target (pos 0)) ≤ 2 ^ 63 }
{
    added(total, term.weight, values[term.target as usize])
}

/// The product.
#[inline(always)]
pub(crate) fn product(a: i64, b: i64) -> i128
    ensures value { result ≡ a *ℤ b }
    ensures room { unsigned_abs result ≤ 2 ^ 126 }
{
    added(0, a, b)
}

/// The start, and for each term its weight times the value of its target. No product and no sum is too wide.
#[inline(always)]
pub(crate) fn short_total(start: i64, short: ShortTerms<'_>, values: &[i64]) -> i128
    requires { All (λ t. t.target < length values.now) short.terms.now }
    ensures value { Some result ≡ total_of (known values.now) start (wide_terms short.entry.terms.now) }
    ensures narrow { unsigned_abs result ≤ 2 ^ 126 }
{
    let mut total = i128::from(start);
    for term in short.terms {
        total = short_total_with(values, total, *term);
    }
    total
}
