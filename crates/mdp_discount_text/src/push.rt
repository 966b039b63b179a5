ghost use Rattle.std.specs.Prelude.{◌≡◌, ◌++◌, OnOk};
ghost use Rattle.mdp_text.specs.{Answer.{Keeps}, Spelling.{line}};
ghost use Rattle.mdp_discount_text.specs.{Spelling.{claim_text, remainder_text}, Text.{claim_front}};

use crate::claim_line::claim_front;
use mdp_num::{Frac, Memory};
use mdp_rows::Dir;
use mdp_text::Part::{Bytes, Fraction};
use mdp_text::push_parts;

/// Appends the line of the claim.
pub fn push_claim(out: &mut Vec<u8>, dir: Dir, name: &[u8], factor: &Frac) -> Result<(), Memory>
    ensures text { OnOk result (out.new.items ≡ out.old.items ++ line (claim_text dir name.now factor.now)) }
    ensures front { Keeps out.old.items out.new.items }
{
    push_parts(
        out,
        &[
            Bytes(claim_front(dir)),
            Bytes(name),
            Bytes(b"\" "),
            Fraction(*factor),
            Bytes(b"\n"),
        ],
    )
}

/// Appends the line of the remainder.
pub fn push_remainder(out: &mut Vec<u8>, remainder: &Frac) -> Result<(), Memory>
    ensures text { OnOk result (out.new.items ≡ out.old.items ++ line (remainder_text remainder.now)) }
    ensures front { Keeps out.old.items out.new.items }
{
    push_parts(
        out,
        &[Bytes(b"remainder "), Fraction(*remainder), Bytes(b"\n")],
    )
}
