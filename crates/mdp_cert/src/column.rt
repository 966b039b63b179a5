ghost use Rattle.std.specs.Prelude.{◌≡◌, IfOk, map};

use std::alloc::{AllocError, Global};

/// What stands in one column of entries.
pub trait Column<E> {
    type Item: Copy + Drop;

    ghost field: { E → Self.Item };

    /// What stands there in an entry.
    fn of(entry: &E) -> Self::Item
        ensures { result ≡ field entry.now };
}

/// A column of these entries.
pub fn column_of<C: Column<E>, E: Copy>(
    alloc: Global,
    entries: &[E],
) -> Result<Vec<C::Item>, AllocError>
    ensures { IfOk result (λ v. v.items ≡ map C.field entries.now) }
{
    let mut column = Vec::new(alloc);
    for entry in entries {
        column.push(C::of(entry))?;
    }
    Ok(column)
}
