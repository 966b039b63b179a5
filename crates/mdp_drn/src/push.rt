ghost use Rattle.std.specs.Prelude.{◌≡◌, ◌++◌, length, take, decimal, OnOk};
ghost use Rattle.mdp_num.specs.Value.{spelling};
ghost use Rattle.mdp_drn.specs.Pieces.{separator_text};

use itoa::Buffer;
use mdp_num::{Frac, Memory};
use std::alloc::AllocError;

/// Appends the bytes.
pub(crate) fn push_bytes(bytes: &[u8], out: &mut Vec<u8>) -> Result<(), AllocError>
    ensures text { OnOk result (out.new.items ≡ out.old.items ++ bytes.now) }
    ensures front { take (length out.old.items) out.new.items ≡ out.old.items }
{
    out.extend_from_slice(bytes)
}

/// Appends a number in decimal. After `Err` a part of it may stand behind what was there; so with each function of this file.
fn push_number(number: u32, out: &mut Vec<u8>) -> Result<(), AllocError>
    ensures text { OnOk result (out.new.items ≡ out.old.items ++ decimal number) }
    ensures front { take (length out.old.items) out.new.items ≡ out.old.items }
{
    let mut buffer = Buffer::new();
    out.extend_from_slice(buffer.format(number).as_bytes())
}

/// Appends a number between two pieces of text.
pub(crate) fn push_between(
    before: &[u8],
    number: u32,
    behind: &[u8],
    out: &mut Vec<u8>,
) -> Result<(), AllocError>
    ensures text { OnOk result (out.new.items ≡ out.old.items ++ (before.now ++ decimal number ++ behind.now)) }
    ensures front { take (length out.old.items) out.new.items ≡ out.old.items }
{
    push_bytes(before, out)?;
    push_number(number, out)?;
    push_bytes(behind, out)
}

/// Appends the canonical spelling of a fraction.
pub(crate) fn push_fraction(value: &Frac, out: &mut Vec<u8>) -> Result<(), AllocError>
    ensures text { OnOk result (out.new.items ≡ out.old.items ++ spelling value.now) }
    ensures front { take (length out.old.items) out.new.items ≡ out.old.items }
{
    match value.push_text(out) {
        Ok(()) => Ok(()),
        Err(Memory) => Err(AllocError),
    }
}

/// Appends what stands before the text of this place in a list of texts: nothing before the first.
pub(crate) fn push_separator(
    place: u32,
    separator: &[u8],
    out: &mut Vec<u8>,
) -> Result<(), AllocError>
    ensures text { OnOk result (out.new.items ≡ out.old.items ++ separator_text separator.now place) }
    ensures front { take (length out.old.items) out.new.items ≡ out.old.items }
{
    if place == 0 {
        return Ok(());
    }
    out.extend_from_slice(separator)
}
