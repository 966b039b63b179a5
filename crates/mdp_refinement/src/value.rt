//! Values that may not be known, in 16 bytes each.

use crate::lists::item_at;

/// A value in units, or none.
#[derive(Clone, Copy)]
pub struct Value {
    units: i128,
}

/// What stands for none: values are above it.
const NONE: i128 = i128::MIN;

impl Value {
    /// No value.
    pub fn none() -> Value {
        Value { units: NONE }
    }

    /// A value that is known.
    pub fn known(units: i128) -> Value {
        Value { units }
    }

    /// A value, or none.
    pub fn of(units: Option<i128>) -> Value {
        Value {
            units: units.unwrap_or(NONE),
        }
    }

    /// The value, if there is one.
    pub fn units(self) -> Option<i128> {
        if self.units != NONE {
            Some(self.units)
        } else {
            None
        }
    }
}

/// The value of a node, in units; none where it isn't known.
pub fn value_at(values: &[Value], node: u32) -> Option<i128> {
    item_at(values, node as usize, Value::none()).units()
}
