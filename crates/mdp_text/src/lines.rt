ghost use Rattle.std.specs.Prelude.{◌≡◌, ◌+◌, Ok, Err, MatchResult};
ghost use Rattle.mdp_text.specs.Lines.{place, next_line, is_line, refuse_if, or_refused, nothing_behind};

use crate::error::{CertKind, Refusal};
use crate::words::before;

/// The next line, which has this number (from 1), and the bytes behind its line feed; `End` where there is no line feed.
pub fn next_line(line: u64, bytes: &[u8]) -> Result<(&[u8], &[u8]), Refusal>
    ensures { MatchResult result (λ p. next_line (place line bytes.now) ≡ Ok (p.0.now, place (line + 1) p.1.now))
        (λ e. next_line (place line bytes.now) ≡ Err e) }
{
    let end = before(bytes, b'\n');
    if end < bytes.len() {
        Ok((&bytes[..end], &bytes[end + 1..]))
    } else {
        Err(Refusal {
            kind: CertKind::End,
            line,
        })
    }
}

/// The refusal of this line by this rule, where it breaks it.
pub fn refuse_if(kind: CertKind, line: u64, is_broken: bool) -> Result<(), Refusal>
    ensures { result ≡ refuse_if kind line is_broken }
{
    if is_broken {
        return Err(Refusal { kind, line });
    }
    Ok(())
}

/// What was found, or the refusal of this line by this rule.
pub fn or_refused<T>(kind: CertKind, line: u64, found: Option<T>) -> Result<T, Refusal>
    ensures { result ≡ or_refused kind line found }
{
    found.ok_or(Refusal { kind, line })
}

/// The line has the text that is due, or is refused by this rule.
pub fn is_line(kind: CertKind, due: &[u8], line: u64, text: &[u8]) -> Result<(), Refusal>
    ensures { result ≡ is_line kind due.now line text.now }
{
    refuse_if(kind, line, text != due)
}

/// Nothing stands behind the line before this one, or `End`.
#[tactic(auto, unfolding(crate::specs::Lines::nothing_behind))]
pub fn nothing_behind(line: u64, bytes: &[u8]) -> Result<(), Refusal>
    ensures { result ≡ nothing_behind (place line bytes.now) }
{
    refuse_if(CertKind::End, line, !bytes.is_empty())
}
