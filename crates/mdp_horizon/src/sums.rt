ghost use Rattle.std.specs.Prelude.{◌≡◌, ◌<◌, ◌≤◌, ◌^◌, length, pos, ◌<ℤ◌, ◌≤ℤ◌, unsigned_abs, IfOk, IfSome, All};
ghost use Rattle.mdp_horizon.specs.Scaled.{total_with, farthest_with, total_of, divided, farthest_from, farthest, start_to, trivial, rounded_sum};
ghost use Rattle.mdp_horizon.specs.{Whole.{whole_at}, Past.{summed}, BoundsCode.{plain_choice, plain_terms, values_of, IsReady}};

use crate::choice::{ScaledChoice, Term};
use crate::column::Column;
use crate::whole::{farther, plus, rounded, times};
use mdp_rows::Dir;

/// The value of a term's target.
fn value_of(column: &Column, term: Term) -> Option<i128>
    requires { term.target < length (values_of column.now) }
    ensures { result ≡ whole_at (values_of column.now) term.target }
{
    column.at(term.target)
}

/// `total`, and the term's weight times the value of its target.
fn total_with(column: &Column, total: i128, term: Term) -> Option<i128>
    requires { term.target < length (values_of column.now) }
    ensures value { result ≡ total_with (values_of column.now) total term }
    ensures narrow { IfSome result (λ sum. unsigned_abs sum < 2 ^ 127) }
{
    let value = value_of(column, term)?;
    let product = times(term.weight, value)?;
    plus(total, product)
}

/// The value of the term's target, where it lies farther to the side than `far`.
fn farthest_with(side: Dir, column: &Column, far: i128, term: Term) -> Option<i128>
    requires { term.target < length (values_of column.now) }
    ensures { result ≡ farthest_with side (values_of column.now) far term }
{
    let value = value_of(column, term)?;
    Some(farther(side, far, value))
}

impl ScaledChoice<'_> {
    /// The start, and for each term its weight times the value of its target, with each product and each sum tested.
    #[inline(never)]
    fn total(&self, column: &Column) -> Option<i128>
        requires targets { All (λ t. t.target < length (values_of column.now)) (plain_terms self.now.terms) }
        requires narrow { unsigned_abs self.now.scale.start < 2 ^ 127 }
        ensures value { result ≡ total_of (values_of column.now) self.now.scale.start (plain_terms self.now.terms) }
        ensures narrow { IfSome result (λ total. unsigned_abs total < 2 ^ 127) }
    {
        let mut total = self.scale.start;
        for i in 0..self.terms.len() {
            total = total_with(column, total, self.terms.at(i))?;
        }
        Some(total)
    }

    /// The sum before it is divided; none where a term is too wide.
    pub(crate) fn summed(&self, column: &Column) -> Option<i128>
        requires targets { All (λ t. t.target < length (values_of column.now)) (plain_terms self.now.terms) }
        requires narrow { unsigned_abs self.now.scale.start < 2 ^ 127 }
        ensures value { result ≡ summed (values_of column.now) (plain_choice self.now) }
        ensures narrow { IfSome result (λ sum. unsigned_abs sum < 2 ^ 127) }
        ensures positive { IfSome result (λ sum. pos 0 <ℤ self.now.scale.common) }
    {
        if self.scale.common <= 0 {
            return None;
        }
        self.total(column)
    }

    /// The sum over the common denominator, rounded; none where a term is too wide.
    fn divided(&self, side: Dir, column: &Column) -> Option<i128>
        requires targets { All (λ t. t.target < length (values_of column.now)) (plain_terms self.now.terms) }
        requires narrow { unsigned_abs self.now.scale.start < 2 ^ 127 }
        ensures { result ≡ divided side (values_of column.now) (plain_choice self.now) }
    {
        if self.scale.common <= 0 {
            return None;
        }
        let total = self.total(column)?;
        Some(rounded(side, total, self.scale.common))
    }

    /// The value of a target that lies farthest to the side.
    fn farthest(&self, side: Dir, column: &Column) -> Option<i128>
        requires some { 0 < length (plain_terms self.now.terms) }
        requires targets { All (λ t. t.target < length (values_of column.now)) (plain_terms self.now.terms) }
        ensures { result ≡ farthest side (values_of column.now) (plain_terms self.now.terms) }
    {
        let first = self.terms.at(0);
        let mut far = value_of(column, first)?;
        for i in 0..self.terms.len() {
            far = farthest_with(side, column, far, self.terms.at(i))?;
        }
        Some(far)
    }

    /// What is earned at once, rounded.
    fn start(&self, side: Dir) -> Option<i128>
        ensures { result ≡ start_to side (plain_choice self.now) }
    {
        match side {
            Dir::Max => self.rounded.high,
            Dir::Min => self.rounded.low,
        }
    }

    /// What is earned at once, rounded, and the value of a target that lies farthest to the side.
    #[inline(never)]
    pub(crate) fn trivial(&self, side: Dir, column: &Column) -> Option<i128>
        requires some { 0 < length (plain_terms self.now.terms) }
        requires targets { All (λ t. t.target < length (values_of column.now)) (plain_terms self.now.terms) }
        ensures { result ≡ trivial side (values_of column.now) (plain_choice self.now) }
    {
        plus(self.start(side)?, self.farthest(side, column)?)
    }

    /// What the choice earns at once and then by the values of a column, in units, rounded up for `Max` and down for `Min`; the trivial value where a
    /// term is too wide.
    pub fn rounded_sum(&self, side: Dir, column: &Column) -> Option<i128>
        requires { IsReady (length (values_of column.now)) (plain_choice self.now) }
        ensures { result ≡ rounded_sum side (values_of column.now) (plain_choice self.now) }
    {
        match self.divided(side, column) {
            Some(sum) => Some(sum),
            None => self.trivial(side, column),
        }
    }
}
