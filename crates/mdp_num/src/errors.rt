use std::alloc::AllocError;

/// A term of a result is past width.
#[derive(Clone, Copy)]
pub struct Wide;

/// Memory was refused.
#[derive(Clone, Copy)]
pub struct Memory;

impl From<AllocError> for Memory {
    fn from(_error: AllocError) -> Memory {
        Memory
    }
}

/// Why two whole numbers make no fraction.
#[derive(Clone, Copy)]
pub enum NumError {
    /// The denominator is 0.
    ZeroDen = 1,
    /// A lowest term is past width.
    Wide = 2,
}

/// Why a text is no numeral, or one that is too large.
#[derive(Clone, Copy)]
pub enum NumeralError {
    /// The text isn't of the grammar.
    Shape = 1,
    /// The denominator is 0.
    ZeroDen = 2,
    /// A term is above 10 ^ 36.
    Large = 3,
}
