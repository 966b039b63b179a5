ghost use Rattle.std.specs.{Prelude.{◌≡◌, ◌<◌, ◌^◌, ◌++◌, List, Ok, length, slice_index_or, OnOk, MatchResult}, List.{join_with_byte}};
ghost use Rattle.mdp_text.specs.{Answer.{Keeps, Refuses}, Lines.{place}, Spelling.{line}};
ghost use Rattle.mdp_cert.specs.{Listed.{Listed}, Spelling.{listed_lines}, Reading.{listed_at, listed_to_end}};

use mdp_num::Memory;
use mdp_text::Part::Bytes;
use mdp_text::{CertError, Refusal, next_line, push_end, push_parts};
use std::alloc::Global;

/// A line of a body that lists lines of its own up to the line `end`. A claim with such a body gives one: how a line is read behind the one before
/// it, and how it is spelled.
pub(crate) trait Line: Copy + Drop {
    ghost listed: { Listed Self };

    /// What this line says, in a certificate of so many states, behind the line before it; or why it is refused.
    fn read(states: u32, before: &Option<Self>, line: u64, text: &[u8]) -> Result<Self, Refusal>
        ensures { result ≡ listed.judge states before.now line text.now };

    /// Appends the words, with a blank between each two.
    fn push_words(&self, out: &mut Vec<u8>) -> Result<(), Memory>
        ensures text { OnOk result (out.new.items ≡ out.old.items ++ join_with_byte 32 (listed.words self.now)) }
        ensures front { Keeps out.old.items out.new.items };
}

/// The lists in which the body of a claim keeps what its lines say.
pub(crate) trait Lines {
    type Item: Line;

    ghost lines: { Self → List Self.Item };

    /// What a line says.
    fn line(&self, place: usize) -> Self::Item
        requires { place < length (lines self.now) }
        ensures { result ≡ slice_index_or (lines self.now) place result };
}

/// What a line says; nothing where it is `end`.
#[tactic(auto, unfolding(crate::specs::Reading::listed_at))]
fn listed_at<L: Line>(
    states: u32,
    before: &Option<L>,
    line: u64,
    text: &[u8],
) -> Result<Option<L>, Refusal>
    ensures { result ≡ listed_at L.listed states before.now line text.now }
{
    if text == b"end".as_slice() {
        return Ok(None);
    }
    Ok(Some(L::read(states, before, line, text)?))
}

/// Reads the lines up to the line `end`, the first of which has this number, and gives what they say, the number of the line behind the line `end`
/// and the bytes from there on.
pub(crate) fn listed_to_end<L: Line>(
    alloc: Global,
    states: u32,
    line: u64,
    bytes: &[u8],
) -> Result<(Vec<L>, u64, &[u8]), CertError>
    requires { line < 2 ^ 32 }
    ensures { let read = listed_to_end L.listed states (place line bytes.now) in
        MatchResult result (λ p. read ≡ Ok (p.0.items, place p.1 p.2.now)) (λ e. Refuses e read) }
{
    let mut lines = Vec::new(alloc);
    let mut before = None;
    let mut next = line;
    let mut rest = bytes;
    loop {
        let (text, behind) = next_line(next, rest)?;
        let said = listed_at(states, &before, next, text)?;
        next += 1;
        rest = behind;
        let Some(said) = said else {
            return Ok((lines, next, rest));
        };
        lines.push(said)?;
        before = Some(said);
    }
}

/// Appends a line.
fn push_line<L: Line>(out: &mut Vec<u8>, said: &L) -> Result<(), Memory>
    ensures text { OnOk result (out.new.items ≡ out.old.items ++ line (join_with_byte 32 (L.listed.words said.now))) }
    ensures front { Keeps out.old.items out.new.items }
{
    said.push_words(out)?;
    push_parts(out, &[Bytes(b"\n")])
}

/// Appends the lines, of which there are so many, and the line `end`.
pub(crate) fn push_listed<L: Lines>(
    out: &mut Vec<u8>,
    count: usize,
    lines: &L,
) -> Result<(), Memory>
    requires { length (L.lines lines.now) ≡ count }
    ensures text { OnOk result (out.new.items ≡ out.old.items ++ listed_lines L.Item.listed (L.lines lines.now)) }
    ensures front { Keeps out.old.items out.new.items }
{
    for place in 0..count {
        push_line(out, &lines.line(place))?;
    }
    push_end(out)
}
