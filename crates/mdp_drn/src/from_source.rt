ghost use Rattle.std.specs.Prelude.{◌≡◌, ◌⊎◌, ◌+◌, ◌<◌, ◌≤◌, ◌^◌, ℕ, List, [], length, true, false, IfOk, OnOk, OnErr, IsErrOf, IfSome};
ghost use Rattle.std.specs.Io.KnownBytes.{IsAtEnd};
ghost use Rattle.mdp_edge.specs.{Faults.{FaultCounted}, Bytes.{GaveAtMost}};
ghost use Rattle.mdp_drn.specs.{Reading.{outcome}, FromSource.{HadLeft, ReadsAs, IsRead}, Feeding.{HasRead}};

use crate::error::{DrnError, DrnKind};
use crate::feed::Feed;
use mdp_edge::{Failed, MOST_PIECE, Source};
use mdp_rows::{Model, RowRule};
use std::alloc::Global;
use std::fmt;
use thiserror::Error;

/// Why a source gave no model.
#[derive(Clone, Copy, Error)]
pub enum FromError {
    /// The source failed.
    #[error("read-fault")]
    ReadFault,
    /// It gave more bytes than the limit.
    #[error("long")]
    Long,
    /// The first broken rule and the line that it names.
    #[error("line {line}: {kind}")]
    At { line: u64, kind: DrnKind },
    /// Memory was refused.
    #[error("memory was refused")]
    Memory,
}

/// As it is shown.
impl fmt::Debug for FromError {
    fn fmt<W: fmt::Write>(&self, f: &mut fmt::Formatter<W>) -> fmt::Result {
        write!(f, "{self}")
    }
}

/// What the feed comes to at the end of the source.
fn finish_feed(feed: Feed) -> Result<Model, FromError>
    ensures read { (bytes : List ℕ) → HasRead feed bytes → ReadsAs result (outcome feed.rule bytes) }
    ensures no_fault { IsErrOf result FromError.ReadFault → ⊥ }
    ensures not_long { IsErrOf result FromError.Long → ⊥ }
{
    match feed.finish() {
        Ok(model) => Ok(model),
        Err(DrnError::At { line, kind }) => Err(FromError::At { line, kind }),
        Err(DrnError::Memory) => Err(FromError::Memory),
    }
}

/// Gives a feed that has read nothing the bytes that the source has left, in pieces, and says whether it came to their end. It stops once more than
/// `limit` bytes came.
fn feed_all<S: Source>(source: &mut S, limit: usize, feed: &mut Feed) -> Result<bool, Failed>
    requires limit { limit ≤ 2 ^ 32 }
    requires fresh { HasRead feed.old [] }
    ensures rule { feed.new.rule ≡ feed.old.rule }
    ensures all { IfOk result (λ ended. ended ≡ true → (bytes : List ℕ) × HadLeft (S.left source.old) bytes × (length bytes ≤ limit) ×
        HasRead feed.new bytes) }
    ensures end { IfOk result (λ ended. ended ≡ true → IsAtEnd (S.left source.new)) }
    ensures long { IfOk result (λ ended. ended ≡ false → (bytes : List ℕ) × HadLeft (S.left source.old) bytes × (limit < length bytes)) }
    ensures rest { GaveAtMost (S.left source.old) (S.left source.new) (limit + MOST_PIECE) }
    ensures fault { OnErr result (FaultCounted (S.faults source.old) (S.faults source.new)) }
    ensures still { OnOk result (S.faults source.new ≡ S.faults source.old) }
    ensures later { S.faults source.old ≤ S.faults source.new }
{
    let mut piece = [0u8; MOST_PIECE];
    let mut total = 0;
    'reading: while total <= limit {
        let count = source.read(&mut piece)?;
        if count == 0 {
            return Ok(true);
        }
        let _ = feed.push(&piece[..count]);
        total += count;
    }
    Ok(false)
}

/// Reads the bytes that the source has left, of which there may be at most `limit`, in pieces and to their end, also behind a broken rule.
/// It stops at the first fault, and once more than `limit` bytes came.
pub fn read_from<S: Source>(
    alloc: Global,
    source: &mut S,
    rule: RowRule,
    limit: usize,
) -> Result<Model, FromError>
    requires { limit ≤ 2 ^ 32 }
    // What it reads are all the bytes that were left, at most `limit`; where the source doesn't tell them, some bytes.
    ensures read { IsRead result → (bytes : List ℕ) × HadLeft (S.left source.old) bytes × (length bytes ≤ limit) ×
        ReadsAs result (outcome rule bytes) }
    ensures end { IsRead result → IsAtEnd (S.left source.new) }

    // Each answer but that of a fault and `Long` comes at the end, and of more than `limit` bytes these two alone.
    ensures ended { (IsErrOf result FromError.ReadFault ⊎ IsErrOf result FromError.Long) ⊎ IsAtEnd (S.left source.new) }
    ensures too_long { IfSome (S.left source.old) (λ left. limit < length left → IsErrOf result FromError.ReadFault ⊎ IsErrOf result FromError.Long) }

    // An error leaves the bytes behind those that came, which are at most one piece more than the limit.
    ensures rest { GaveAtMost (S.left source.old) (S.left source.new) (limit + MOST_PIECE) }
    ensures long { IsErrOf result FromError.Long → (bytes : List ℕ) × HadLeft (S.left source.old) bytes × (limit < length bytes) }
    ensures fault { IsErrOf result FromError.ReadFault → FaultCounted (S.faults source.old) (S.faults source.new) }
    ensures still { IsErrOf result FromError.ReadFault ⊎ (S.faults source.new ≡ S.faults source.old) }
    ensures later { S.faults source.old ≤ S.faults source.new }
{
    let mut feed = Feed::fresh(alloc, rule);
    match feed_all(source, limit, &mut feed) {
        Ok(true) => finish_feed(feed),
        Ok(false) => Err(FromError::Long),
        Err(Failed) => Err(FromError::ReadFault),
    }
}
