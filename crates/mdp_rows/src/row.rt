ghost use Rattle.std.specs.{Prelude.{◌≡◌, ◌<◌, ◌*◌, ◌^◌, pos, unsigned_abs, Some, length, All, IfSome}, Result.{result_ok}};
ghost use Rattle.mdp_math.specs.{Rational.{ratio}, Written.{written_mul}};
ghost use Rattle.mdp_spec.specs.{Written.{written_sum}, Row.{entries, IsDistribution}};

use crate::values_of::{GivenValues, ValuesOf};
use mdp_num::{Frac, Wide, plus, times};

/// A row that is lent: target states, strictly ascending, and their probabilities, which are above 0 and add to 1.
#[derive(Clone, Copy)]
pub struct Row<'a> {
    pub targets: &'a [u32],
    pub probs: &'a [Frac],
    ghost same_length: { length targets.now ≡ length probs.now },
    ghost distribution: { IsDistribution (entries targets.now probs.now) },
}

/// A denominator that probabilities share and one that values share, and the product of both, in width.
#[derive(Clone, Copy)]
struct Denominators {
    probs: u64,
    values: u64,
    product: i128,
    ghost some_probs: { 0 < probs },
    ghost some_values: { 0 < values },
    ghost is_product: { product ≡ pos (probs * values) },
    ghost narrow: { probs * values < 2 ^ 127 },
}

impl Denominators {
    /// These two, where their product is in width.
    fn new(probs: u64, values: u64) -> Option<Denominators>
        requires probs { 0 < probs }
        requires values { 0 < values }
    {
        match times(i128::from(probs), i128::from(values)) {
            Ok(product) => Some(Denominators {
                probs,
                values,
                product,
            }),
            Err(Wide) => None,
        }
    }

    /// The numerator of a value over the product.
    fn numerator(self, value: &Frac) -> Option<i128>
        ensures value { IfSome result (λ n. value.now ≡ ratio n (self.probs * self.values)) }
        ensures narrow { IfSome result (λ n. unsigned_abs n < 2 ^ 127) }
    {
        let num = value.over(self.values)?;
        match times(i128::from(num), i128::from(self.probs)) {
            Ok(scaled) => Some(scaled),
            Err(Wide) => None,
        }
    }

    /// The numerator of a probability times a value over the product.
    fn term(self, prob: &Frac, value: &Frac) -> Option<i128>
        ensures value { IfSome result (λ n. written_mul prob.now value.now ≡ Some (ratio n (self.probs * self.values))) }
        ensures narrow { IfSome result (λ n. unsigned_abs n < 2 ^ 127) }
    {
        let num = prob.over(self.probs)?;
        let other = value.over(self.values)?;
        match times(i128::from(num), i128::from(other)) {
            Ok(product) => Some(product),
            Err(Wide) => None,
        }
    }
}

impl Row<'_> {
    /// The least denominators that the probabilities share, and that `start` and the values of the targets share; none where they are long.
    fn denominators<V: ValuesOf>(self, start: &Frac, values: &V) -> Option<Denominators>
        requires { All (λ t. t < length (V.values values.now)) self.targets.now }
    {
        let mut probs = 1;
        let mut others = start.common_multiple(1)?;
        for i in 0..self.targets.len() {
            probs = self.probs[i].common_multiple(probs)?;
            others = values.value_of(self.targets[i]).common_multiple(others)?;
        }
        Denominators::new(probs, others)
    }

    /// The sum where all terms have numerators of 64 bits over shared denominators; none elsewhere.
    fn short_sum<V: ValuesOf>(self, start: &Frac, values: &V) -> Option<Frac>
        requires { All (λ t. t < length (V.values values.now)) self.targets.now }
        ensures { IfSome result (λ sum. written_sum (V.values values.now) start.now (entries self.entry.targets.now self.entry.probs.now)
            ≡ Some sum) }
    {
        let shared = self.denominators(start, values)?;
        let mut sum = shared.numerator(start)?;
        for i in 0..self.targets.len() {
            let term = shared.term(&self.probs[i], &values.value_of(self.targets[i]))?;
            let Ok(next) = plus(sum, term) else {
                return None;
            };
            sum = next;
        }
        Some(Frac::of_terms(sum, shared.product))
    }

    /// The sum, term by term.
    fn long_sum<V: ValuesOf>(self, start: &Frac, values: &V) -> Result<Frac, Wide>
        requires { All (λ t. t < length (V.values values.now)) self.targets.now }
        ensures { result_ok result ≡ written_sum (V.values values.now) start.now (entries self.entry.targets.now self.entry.probs.now) }
    {
        let mut sum = *start;
        for i in 0..self.targets.len() {
            let term = self.probs[i].mul(&values.value_of(self.targets[i]))?;
            sum = sum.add(&term)?;
        }
        Ok(sum)
    }

    /// `start`, and for each entry its probability times the value of its target, added in the order of the targets. `Wide` where a
    /// written term of one of these operations is past width.
    pub fn sum_over<V: ValuesOf>(self, start: &Frac, values: &V) -> Result<Frac, Wide>
        requires { All (λ t. t < length (V.values values.now)) self.targets.now }
        ensures { result_ok result ≡ written_sum (V.values values.now) start.now (entries self.entry.targets.now self.entry.probs.now) }
    {
        match self.short_sum(start, values) {
            Some(sum) => Ok(sum),
            None => self.long_sum(start, values),
        }
    }

    /// The same over a list of values.
    pub fn sum(self, start: &Frac, values: &[Frac]) -> Result<Frac, Wide>
        requires { All (λ t. t < length values.now) self.targets.now }
        ensures { result_ok result ≡ written_sum values.now start.now (entries self.entry.targets.now self.entry.probs.now) }
    {
        self.sum_over(start, &GivenValues { values })
    }
}
