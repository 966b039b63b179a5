ghost use Rattle.std.specs.Prelude.{◌≡◌, ◌<◌, ◌++◌, [], ◌∷◌, length, Some, IfOk, IfSome, OnOk};
ghost use Rattle.mdp_horizon.specs.{Short.{known}, Whole.{whole_at}, BoundsCode.{values_of}};

use std::alloc::{AllocError, Global};

/// A value for each state, in units: each of 64 bits, or where one isn't or is missing, each as it is.
#[derive(Drop)]
pub enum Column {
    Short(Vec<i64>),
    Wide(Vec<Option<i128>>),
}

/// A value of 64 bits; none where it is wider or missing.
fn short(value: Option<i128>) -> Option<i64>
    ensures { IfSome result (λ short. value ≡ Some short) }
{
    i64::try_from(value?).ok()
}

/// The values as wider ones, and one more.
#[inline(never)]
fn widened(
    alloc: Global,
    values: &[i64],
    last: Option<i128>,
) -> Result<Vec<Option<i128>>, AllocError>
    ensures { IfOk result (λ wide. wide.items ≡ known values.now ++ last ∷ []) }
{
    let mut wide = Vec::with_capacity(alloc, values.len())?;
    for value in values {
        wide.push(Some(i128::from(*value)))?;
    }
    wide.push(last)?;
    Ok(wide)
}

impl Column {
    /// No value yet, and room for so many.
    pub(crate) fn with_capacity(alloc: Global, count: usize) -> Result<Column, AllocError>
        ensures { IfOk result (λ made. values_of made ≡ []) }
    {
        Ok(Column::Short(Vec::with_capacity(alloc, count)?))
    }

    /// The value at place `s`.
    pub(crate) fn at(&self, s: u32) -> Option<i128>
        requires { s < length (values_of self.now) }
        ensures { result ≡ whole_at (values_of self.now) s }
    {
        match self {
            Column::Short(values) => Some(i128::from(values[s as usize])),
            Column::Wide(values) => values[s as usize],
        }
    }

    /// Appends a value.
    #[inline(always)]
    pub(crate) fn push(&mut self, alloc: Global, value: Option<i128>) -> Result<(), AllocError>
        ensures { OnOk result (values_of self.new ≡ values_of self.old ++ value ∷ []) }
    {
        match self {
            Column::Short(values) => match short(value) {
                Some(short) => values.push(short)?,
                None => *self = Column::Wide(widened(alloc, values, value)?),
            },
            Column::Wide(values) => values.push(value)?,
        }
        Ok(())
    }
}
