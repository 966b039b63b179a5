ghost use Rattle.std.specs.Prelude.{◌≡◌, ◌++◌, OnOk, OnErr};
ghost use Rattle.mdp_text.specs.{Answer.{Keeps}, Parts.{part_text, parts_text}};

use crate::part::Part;
use crate::part::Part::{Bytes, Fraction, Whole};
use crate::push::or_cut_back;
use itoa::Buffer;
use mdp_num::Memory;

/// Appends a part.
fn push_part(out: &mut Vec<u8>, part: &Part<'_>) -> Result<(), Memory>
    ensures text { OnOk result (out.new.items ≡ out.old.items ++ part_text part.now) }
    ensures front { OnErr result (Keeps out.old.items out.new.items) }
{
    match part {
        Bytes(bytes) => {
            out.extend_from_slice(bytes)?;
            Ok(())
        }
        Whole(number) => {
            out.extend_from_slice(Buffer::new().format(*number).as_bytes())?;
            Ok(())
        }
        Fraction(value) => value.push_text(out),
    }
}

/// Appends the parts in order; after `Memory` the text begins as before.
fn append_parts(out: &mut Vec<u8>, parts: &[Part<'_>]) -> Result<(), Memory>
    ensures text { OnOk result (out.new.items ≡ out.old.items ++ parts_text parts.now) }
    ensures front { Keeps out.old.items out.new.items }
{
    for part in parts {
        push_part(out, part)?;
    }
    Ok(())
}

/// Appends the parts in order. After `Memory` the text is as before.
pub fn push_parts(out: &mut Vec<u8>, parts: &[Part<'_>]) -> Result<(), Memory>
    ensures text { OnOk result (out.new.items ≡ out.old.items ++ parts_text parts.now) }
    ensures front { Keeps out.old.items out.new.items }
    ensures unchanged { OnErr result (out.new.items ≡ out.old.items) }
{
    let start = out.len();
    let answer = append_parts(out, parts);
    or_cut_back(out, start, answer)
}
