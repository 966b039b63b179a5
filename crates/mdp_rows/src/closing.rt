ghost use Rattle.std.specs.Prelude.{◌≡◌, ◌<◌, ◌≤◌, ◌*◌, ◌/◌, Some, None, IsTrue, nat_lt, if◌then◌else◌, map, MatchOption, OnOk, IfErr, false, pos};
ghost use Rattle.mdp_math.specs.Rational.{ratio, inv_ℚ, ◌*ℚ◌};
ghost use Rattle.mdp_num.specs.{Meaning.{IsWithinLimit}, Numeral.{limit}};
ghost use Rattle.mdp_rows.specs.{Given.{row_of}, Parts.{part, parts as row_parts}, Draft.{kept, closed_row, scaled_row}};
ghost use Rattle.mdp_spec.specs.Unit.{lcm, row_den};

use crate::error::RowsError;
use crate::given::Given;
use crate::limits::MAX_TERM;
use crate::rule::RowRule;
use crate::terms::{den_of, num_of, ratio_of};
use mdp_num::Frac;

/// The least common multiple, where it is at most 10^36.
fn common_multiple(a: u128, b: u128) -> Option<u128>
    requires positive { (0 < a) × (0 < b) }
    requires within { (a ≤ limit) × (b ≤ limit) }
    ensures { result ≡ (if nat_lt limit (lcm a b) then None else Some (lcm a b)) }
{
    let quotient = ratio_of(b, a)?;
    let multiple = den_of(&quotient).checked_mul(b)?;
    if multiple > MAX_TERM {
        None
    } else {
        Some(multiple)
    }
}

/// The least common denominator of the values, where it is at most 10^36.
fn common_den(row: &[Given]) -> Option<u128>
    ensures { result ≡ (if nat_lt limit (row_den (row_of row.now)) then None else Some (row_den (row_of row.now))) }
{
    let mut den = 1;
    for i in (0..row.len()).rev() {
        den = common_multiple(den, den_of(&row[i].value))?;
    }
    Some(den)
}

/// The sum of the values in parts of their least common denominator, where it is at most 2.
fn sum_in_parts(row: &[Given], den: u128) -> Option<u128>
    requires common { den ≡ row_den (row_of row.now) }
    requires within { den ≤ limit }
    ensures { result ≡ (if nat_lt (2 * den) (row_parts den row.now) then None else Some (row_parts den row.now)) }
{
    let mut parts = 0;
    for given in row {
        let num = num_of(&given.value);
        let own_den = den_of(&given.value);
        if num > 2 * own_den {
            return None;
        }
        parts += den / own_den * num;
        if parts > 2 * den {
            return None;
        }
    }
    Some(parts)
}

/// The value divided by so many parts of 1/den, where its denominator is then at most 10^36.
fn scaled_value(given: &Given, den: u128, parts: u128) -> Option<Frac>
    requires some { 0 < den }
    requires divides { den / given.now.value.den * given.now.value.den ≡ den }
    requires within { part den given.now ≤ parts }
    requires positive { 0 < parts }
    requires few { parts ≤ 2 * limit }
    ensures value { MatchOption result (limit < ((given.now.value *ℚ inv_ℚ (ratio (pos parts) den)).den))
        (λ x. x ≡ given.now.value *ℚ inv_ℚ (ratio (pos parts) den)) }
    ensures term { MatchOption result Unit (λ x. IsWithinLimit x) }
{
    let part = den / den_of(&given.value) * num_of(&given.value);
    let scaled = ratio_of(part, parts)?;
    if den_of(&scaled) > MAX_TERM {
        None
    } else {
        Some(scaled)
    }
}

/// Divides each value by the sum of all, which is so many parts of 1/den. `false` where a denominator would be above 10^36.
fn scale(row: &mut [Given], den: u128, parts: u128) -> bool
    requires common { den ≡ row_den (row_of row.old) }
    requires within { den ≤ limit }
    requires sum { parts ≡ row_parts den row.old }
    requires positive { 0 < parts }
    requires few { parts ≤ 2 * den }
    ensures scaled { IsTrue result → row_of row.new ≡ scaled_row (row_of row.old) }
    ensures wide { result ≡ false → limit < row_den (scaled_row (row_of row.old)) }
    ensures targets { map (λ g. g.target) row.new ≡ map (λ g. g.target) row.old }
{
    for i in 0..row.len() {
        let target = row[i].target;
        let Some(value) = scaled_value(&row[i], den, parts) else {
            return false;
        };
        row[i] = Given { target, value };
    }
    true
}

/// Closes a row by the rule: under `Exact` its values stay, under `Scaled` each is divided by their sum.
pub fn close_row(row: &mut [Given], rule: RowRule, state: u32, choice: u32) -> Result<(), RowsError>
    ensures closed { OnOk result (closed_row rule state choice (row_of row.old) ≡ Ok (kept (row_of row.new))) }
    ensures refused { IfErr result (λ e. closed_row rule state choice (row_of row.old) ≡ Err e) }
    ensures targets { map (λ g. g.target) row.new ≡ map (λ g. g.target) row.old }
{
    let Some(den) = common_den(row) else {
        return Err(RowsError::RowWide { state, choice });
    };
    let Some(parts) = sum_in_parts(row, den) else {
        return Err(RowsError::RowSum { state, choice });
    };
    match rule {
        RowRule::Exact => {
            if parts == den {
                Ok(())
            } else {
                Err(RowsError::RowSum { state, choice })
            }
        }
        RowRule::Scaled => {
            if parts.abs_diff(den) > den / 1000 {
                return Err(RowsError::RowSum { state, choice });
            }
            if scale(row, den, parts) && common_den(row).is_some() {
                Ok(())
            } else {
                Err(RowsError::RowWide { state, choice })
            }
        }
    }
}
