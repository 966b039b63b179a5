//! Calls of std's readers and writers, made again where they are interrupted.
ghost use Rattle.std.specs.{Prelude.{◌≡◌, ◌≤◌, ◌<◌, length, take, IfSome, IfNone}, Io.KnownBytes.{Appends, Consumes, IsAtEnd, Keeps}};

use std::io;
use std::io::{ErrorKind, Read, Write};

/// How often an interrupted call is made before that counts as a failure.
const MOST_TRIES: u32 = 1000;

/// One read. None where it fails.
pub fn read_retrying<R: Read>(inner: &mut R, buf: &mut [u8]) -> Option<usize>
    ensures room { IfSome result (λ n. n ≤ length buf.new) }
    ensures bytes { IfSome result (λ n. Consumes (R.remaining inner.old) (R.remaining inner.new) (take n buf.new)) }
    ensures end { IfSome result (λ n. n ≡ 0 → 0 < length buf.old → IsAtEnd (R.remaining inner.new)) }
    ensures kept { IfNone result (Keeps (R.remaining inner.old) (R.remaining inner.new)) }
{
    for _ in 0..MOST_TRIES {
        match inner.read(buf) {
            Ok(count) => return Some(count),
            Err(error) if is_interrupted(&error) => {}
            Err(_) => return None,
        }
    }
    None
}

/// One write. None where it fails or takes nothing.
pub fn write_retrying<W: Write>(inner: &mut W, piece: &[u8]) -> Option<usize>
    ensures some { IfSome result (λ n. 1 ≤ n) }
    ensures room { IfSome result (λ n. n ≤ length piece.now) }
    ensures bytes { IfSome result (λ n. Appends (W.contents inner.old) (W.contents inner.new) (take n piece.now)) }
    ensures kept { IfNone result (Keeps (W.contents inner.old) (W.contents inner.new)) }
{
    for _ in 0..MOST_TRIES {
        match inner.write(piece) {
            Ok(0) => return None,
            Ok(count) => return Some(count),
            Err(error) if is_interrupted(&error) => {}
            Err(_) => return None,
        }
    }
    None
}

/// One flush. Whether it succeeded.
pub fn flush_retrying<W: Write>(inner: &mut W) -> bool
    ensures kept { Keeps (W.contents inner.old) (W.contents inner.new) }
{
    for _ in 0..MOST_TRIES {
        match inner.flush() {
            Ok(()) => return true,
            Err(error) if is_interrupted(&error) => {}
            Err(_) => return false,
        }
    }
    false
}

fn is_interrupted(error: &io::Error) -> bool {
    error.kind() == ErrorKind::Interrupted
}
