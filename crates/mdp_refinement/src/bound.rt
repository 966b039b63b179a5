//! Which bound is sought, and what it asks of the choices.

/// A bound from below or from above.
#[derive(Clone, Copy)]
pub enum Bound {
    Lower,
    Upper,
}

/// A bound of the greatest or of the least value, with the value, in units, that is such a bound whatever the rows are, if there is one. The search
/// goes on to the end, by interval iteration where refinement fails, or it ends where the first component can't be refined.
#[derive(Clone, Copy)]
pub struct Task {
    /// Whether the greatest value is sought, and not the least.
    pub is_max: bool,
    pub bound: Bound,
    pub anyway: Option<i128>,
    pub to_end: bool,
}

impl Task {
    /// Whether the bound is to hold on each choice, and not on the policy's alone.
    pub fn is_each(self) -> bool {
        match self.bound {
            Bound::Upper => self.is_max,
            Bound::Lower => !self.is_max,
        }
    }

    /// 1 for an upper bound, -1 for a lower one.
    pub fn side(self) -> f64 {
        match self.bound {
            Bound::Upper => 1.0,
            Bound::Lower => -1.0,
        }
    }

    /// 1 where greater values are better, -1 where less are.
    pub fn sense(self) -> f64 {
        if self.is_max { 1.0 } else { -1.0 }
    }

    /// Whether a value is better than another, for whoever chooses.
    pub fn prefers(self, value: i128, other: i128) -> bool {
        if self.is_max {
            value > other
        } else {
            value < other
        }
    }

    /// Whether a value is a stricter bound than another.
    pub fn is_nearer(self, value: i128, other: i128) -> bool {
        match self.bound {
            Bound::Upper => value < other,
            Bound::Lower => value > other,
        }
    }
}
