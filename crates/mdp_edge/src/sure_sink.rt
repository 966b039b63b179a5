ghost use Rattle.std.specs.Prelude.{◌≡◌, ◌+◌, ◌<◌, min, length, IsOk, Ok, None};
ghost use Rattle.mdp_edge.specs.Faults.{last_count};

use crate::sink::Sink;
use crate::source::Failed;
use std::marker::Model;

/// Takes every byte, keeps none of them and counts them. It never fails.
#[derive(Drop)]
pub struct SureSink {
    count: u64,
}

impl Model for SureSink {
    ghost use Rattle.std.specs.Prelude.{ℕ};

    ghost Value = { ℕ };

    ghost view = { λ s. s.count };
}

impl SureSink {
    pub fn new() -> SureSink
        ensures { result ≡ 0 }
    {
        SureSink { count: 0 }
    }

    /// How many bytes it has taken, up to 2^64 - 1.
    pub fn count(&self) -> u64
        ensures { result ≡ self.now }
    {
        self.count
    }
}

impl Sink for SureSink {
    ghost use Rattle.std.specs.Prelude.{refl};

    ghost taken = { λ _. None };

    ghost settled = { λ _. None };

    ghost faults = { λ _. 0 };

    ghost told_together = { λ _. refl };

    fn write(&mut self, piece: &[u8]) -> Result<usize, Failed>
        requires { 0 < length piece.now }
        ensures sure { result ≡ Ok (length piece.now) }
        ensures counted { self.new ≡ min (self.old + length piece.now) last_count }
    {
        self.count = self.count.saturating_add(piece.len() as u64);
        Ok(piece.len())
    }

    fn flush(&mut self) -> Result<(), Failed>
        ensures sure { IsOk result }
        ensures kept { self.new ≡ self.old }
    {
        Ok(())
    }
}
