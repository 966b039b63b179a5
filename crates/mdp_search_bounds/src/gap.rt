//! How near lower and upper values are, in digits, and how finely they are written.

ghost use Rattle.std.specs.Prelude.{◌≡◌, ◌↔◌, ℕ, ◌+◌, ◌^◌, ◌<◌, ◌≤◌, true, length, pos};
ghost use Rattle.mdp_math.specs.Rational.{◌≤ℚ◌};
ghost use Rattle.mdp_num.specs.Value.{quotient};
ghost use Rattle.mdp_spec.specs.{Mdp.{value_at}, Bounds.{reward_at}};
ghost use Rattle.mdp_search_bounds.specs.{Gap.{whole_scale, ShowsNear}, Near.{IsNear, IsRewardNear}};

use mdp_num::Frac;
use mdp_proposals::MOST_DIGITS;
use std::cmp::Ordering;

/// One digit more than there are.
const ALL_LACKING: u32 = MOST_DIGITS + 1;

/// How near bounds are to each other, where they are furthest apart, and how finely they are written.
#[derive(Clone, Copy)]
pub(crate) struct Gap {
    /// At how many states one of the two values is missing.
    missing: u32,
    /// How many digits are lacking of `MOST_DIGITS`: one for each power of ten by which values are further apart than 10^-`MOST_DIGITS`, or than that
    /// times the whole part of the upper value where its magnitude is above 1. `ALL_LACKING` where there are more.
    lacking: u32,
    /// How many digits behind the point the values have.
    places: u32,
}

/// 10 to the power of so many digits.
fn power_of_ten(digits: u32) -> i128
    requires { digits ≤ 30 }
    ensures { result ≡ pos (10 ^ digits) }
{
    10i128.pow(digits)
}

/// The whole part of the magnitude of a value, 1 at least.
fn magnitude(value: &Frac) -> i128
    ensures { result ≡ pos (whole_scale value.now) }
{
    let whole = value.num().unsigned_abs() / value.den().unsigned_abs();
    whole.max(1) as i128
}

/// Whether a gap is at most `scale` times 10^-digits.
fn is_within(gap: &Frac, scale: i128, digits: u32) -> bool
    requires { digits ≤ 30 }
    ensures { result ≡ true → gap.now ≤ℚ quotient scale (pos (10 ^ digits)) }
{
    match Frac::try_new(scale, power_of_ten(digits)) {
        Ok(most) => gap.order(&most) != Ordering::Greater,
        Err(_) => false,
    }
}

/// How many digits two values lack, so many at least.
fn lacking_digits(lower: &Frac, upper: &Frac, least: u32) -> u32
    ensures { (digits : ℕ) → result + digits ≤ 30 → IsNear digits lower.now upper.now }
{
    let Ok(gap) = upper.sub(lower) else {
        return ALL_LACKING;
    };
    let scale = magnitude(upper);
    for lacking in least..ALL_LACKING {
        if is_within(&gap, scale, MOST_DIGITS - lacking) {
            return lacking;
        }
    }
    ALL_LACKING
}

/// How many digits behind the point a fraction of this denominator has, so many at least.
fn places_of(denominator: i128, least: u32) -> u32 {
    for places in least..MOST_DIGITS {
        if power_of_ten(places) >= denominator {
            return places;
        }
    }
    MOST_DIGITS
}

impl Gap {
    /// That of bounds that say nothing.
    pub(crate) const WIDEST: Gap = Gap {
        missing: u32::MAX,
        lacking: ALL_LACKING,
        places: 0,
    };

    /// That of no bounds at all.
    const NONE: Gap = Gap {
        missing: 0,
        lacking: 0,
        places: 0,
    };

    /// Takes in the gap between two values. Where both are missing they are the same.
    fn with(self, lower: Option<Frac>, upper: Option<Frac>) -> Gap
        ensures before { (digits : ℕ) → ShowsNear result digits → ShowsNear self digits }
        ensures near { (digits : ℕ) → ShowsNear result digits → IsRewardNear digits lower upper }
    {
        match (lower, upper) {
            (Some(lower), Some(upper)) => Gap {
                missing: self.missing,
                lacking: lacking_digits(&lower, &upper, self.lacking).max(self.lacking),
                places: places_of(lower.den().max(upper.den()), self.places),
            },
            (None, None) => self,
            _ => Gap {
                missing: self.missing.saturating_add(1),
                lacking: self.lacking,
                places: self.places,
            },
        }
    }

    /// The gap between lower and upper values.
    pub(crate) fn between(lower: &[Frac], upper: &[Frac]) -> Gap
        ensures { (digits : ℕ) → ShowsNear result digits → (s : ℕ) → s < length lower.now → s < length upper.now →
            IsNear digits (value_at lower.now s) (value_at upper.now s) }
    {
        let mut gap = Gap::NONE;
        for place in 0..lower.len().min(upper.len()) {
            gap = gap.with(Some(lower[place]), Some(upper[place]));
        }
        gap
    }

    /// The gap between lower and upper values of which some are missing.
    pub(crate) fn between_rewards(lower: &[Option<Frac>], upper: &[Option<Frac>]) -> Gap
        ensures { (digits : ℕ) → ShowsNear result digits → (s : ℕ) → s < length lower.now → s < length upper.now →
            IsRewardNear digits (reward_at lower.now s) (reward_at upper.now s) }
    {
        let mut gap = Gap::NONE;
        for place in 0..lower.len().min(upper.len()) {
            gap = gap.with(lower[place], upper[place]);
        }
        gap
    }

    /// Whether bounds are as near as so many digits say: at most 10^-digits apart, or that times the whole part of the upper value where its
    /// magnitude is above 1.
    pub(crate) fn is_near(self, digits: u32) -> bool
        ensures { (result ≡ true) ↔ ShowsNear self digits }
    {
        self.missing == 0 && self.lacking.saturating_add(digits) <= MOST_DIGITS
    }

    /// Whether bounds are nearer than others.
    pub(crate) fn is_nearer(self, other: Gap) -> bool {
        self.missing < other.missing
            || (self.missing == other.missing && self.lacking < other.lacking)
    }

    /// With how many digits bounds come as near as so many say: the gap grows with the unit that values are written in.
    pub(crate) fn enough(self, digits: u32) -> u32 {
        let coarser = MOST_DIGITS.saturating_sub(self.places);
        digits.saturating_add(self.lacking.saturating_sub(coarser))
    }
}
