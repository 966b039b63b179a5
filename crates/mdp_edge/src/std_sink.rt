ghost use Rattle.std.specs.{Prelude.{◌≡◌, ◌≤◌, ◌<◌, length, IfOk, OnOk, OnErr, None}, Io.KnownBytes.{Keeps, WriteAppends}};
ghost use Rattle.mdp_edge.specs.Faults.{one_more, last_count};

use crate::retrying::{flush_retrying, write_retrying};
use crate::sink::Sink;
use crate::source::Failed;
use std::io::Write;
use std::marker::Model;

/// Bytes to outside. As a `Sink` it tells nothing of them. A call that is interrupted is made again, at most 1,000 times in all, and a write that
/// takes nothing is a fault.
#[derive(Drop)]
pub struct StdSink<W> {
    inner: W,
    faults: u64,
}

impl<W> Model for StdSink<W> {
    ghost use Rattle.std.specs.Prelude.{◌≤◌};
    ghost use Rattle.mdp_edge.specs.{Faults.{last_count}, Kinds.{Outside}};

    ghost Value = { Outside W };

    ghost view = { λ s. record { inner = s.inner; faults = s.faults } };

    ghost invariant = { λ s. s.faults ≤ last_count };
}

impl<W: Write> StdSink<W> {
    pub fn new(inner: W) -> StdSink<W>
        ensures { result ≡ record { inner = inner; faults = 0 } }
    {
        StdSink { inner, faults: 0 }
    }
}

impl<W: Write> Sink for StdSink<W> {
    ghost use Rattle.std.specs.Prelude.{refl};

    ghost taken = { λ _. None };

    ghost settled = { λ _. None };

    ghost faults = { λ s. s.faults };

    ghost told_together = { λ _. refl };

    fn write(&mut self, piece: &[u8]) -> Result<usize, Failed>
        requires { 0 < length piece.now }
        ensures some { IfOk result (λ n. 1 ≤ n) }
        ensures room { IfOk result (λ n. n ≤ length piece.now) }

        // At a writer of std that tells its bytes, these were appended.
        ensures bytes { WriteAppends (W.contents self.old.inner) (W.contents self.new.inner) result piece.now }

        ensures ok { OnOk result (self.new.faults ≡ self.old.faults) }
        ensures failed { OnErr result (self.new.faults ≡ one_more self.old.faults) }
        ensures counted { self.old.faults ≤ last_count }
    {
        if let Some(count) = write_retrying(&mut self.inner, piece) {
            return Ok(count);
        }
        self.faults = self.faults.saturating_add(1);
        Err(Failed)
    }

    fn flush(&mut self) -> Result<(), Failed>
        ensures bytes { Keeps (W.contents self.old.inner) (W.contents self.new.inner) }
        ensures ok { OnOk result (self.new.faults ≡ self.old.faults) }
        ensures failed { OnErr result (self.new.faults ≡ one_more self.old.faults) }
        ensures counted { self.old.faults ≤ last_count }
    {
        if flush_retrying(&mut self.inner) {
            return Ok(());
        }
        self.faults = self.faults.saturating_add(1);
        Err(Failed)
    }
}
