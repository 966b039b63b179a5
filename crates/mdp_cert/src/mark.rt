ghost use Rattle.std.specs.Prelude.{◌≡◌};
ghost use Rattle.mdp_cert.specs.Witness.{mark_text, mark_at};

use mdp_text::{CertKind, Refusal};

/// Whether the word of a kept state says that it stays because without it a number is past width.
pub(crate) fn mark_at(line: u64, word: &[u8]) -> Result<bool, Refusal>
    ensures { result ≡ mark_at line word.now }
{
    if word == b"kept".as_slice() {
        return Ok(false);
    }
    if word == b"wide".as_slice() {
        return Ok(true);
    }
    Err(Refusal {
        kind: CertKind::Shape,
        line,
    })
}

/// The word of a kept state.
pub(crate) fn mark_word(wide: bool) -> &'static [u8]
    ensures { result.now ≡ mark_text wide }
{
    if wide { b"wide" } else { b"kept" }
}
