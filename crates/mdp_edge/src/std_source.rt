ghost use Rattle.std.specs.Prelude.{◌≡◌, ◌≤◌, ◌<◌, length, is_some, IsNone, option_and_then, IfOk, IsErr, OnOk, OnErr, None};
ghost use Rattle.std.specs.{Io.KnownBytes.{ReadConsumes}};
ghost use Rattle.mdp_edge.specs.Faults.{one_more, last_count};

use crate::retrying::read_retrying;
use crate::source::{Failed, Source};
use std::io::Read;
use std::marker::Model;

/// Bytes from outside, or from nowhere where what should have been read could not be opened. As a `Source` it tells nothing of them. A call that is
/// interrupted is made again, at most 1,000 times in all.
#[derive(Drop)]
pub struct StdSource<R> {
    inner: Option<R>,
    faults: u64,
}

impl<R> Model for StdSource<R> {
    ghost use Rattle.std.specs.Prelude.{◌≤◌};
    ghost use Rattle.mdp_edge.specs.{Faults.{last_count}, Kinds.{Opened}};

    ghost Value = { Opened R };

    ghost view = { λ s. record { inner = s.inner; faults = s.faults } };

    ghost invariant = { λ s. s.faults ≤ last_count };
}

impl<R: Read> StdSource<R> {
    /// A source of what `inner` reads. Made of None, it fails at each read.
    pub fn new(inner: Option<R>) -> StdSource<R>
        ensures { result ≡ record { inner = inner; faults = 0 } }
    {
        StdSource { inner, faults: 0 }
    }
}

impl<R: Read> Source for StdSource<R> {
    ghost left = { λ _. None };

    ghost faults = { λ s. s.faults };

    fn read(&mut self, buf: &mut [u8]) -> Result<usize, Failed>
        requires { 0 < length buf.old }
        ensures room { IfOk result (λ n. n ≤ length buf.new) }
        ensures closed { IsNone self.old.inner → IsErr result }
        ensures open { is_some self.new.inner ≡ is_some self.old.inner }

        // Of a reader of std that tells its bytes, these are the next ones.
        ensures bytes { ReadConsumes (option_and_then R.remaining self.old.inner) (option_and_then R.remaining self.new.inner) result buf.new }

        ensures ok { OnOk result (self.new.faults ≡ self.old.faults) }
        ensures failed { OnErr result (self.new.faults ≡ one_more self.old.faults) }
        ensures counted { self.old.faults ≤ last_count }
    {
        if let Some(inner) = &mut self.inner {
            if let Some(count) = read_retrying(inner, buf) {
                return Ok(count);
            }
        }
        self.faults = self.faults.saturating_add(1);
        Err(Failed)
    }
}
