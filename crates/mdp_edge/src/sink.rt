ghost use Rattle.std.specs.Prelude.{◌≡◌, ◌≤◌, ◌<◌, ℕ, List, length, take, Option, IfOk, OnOk, OnErr, is_some};
ghost use Rattle.mdp_edge.specs.{Faults.{FaultCounted}, Bytes.{Took, IsSettled}};

use crate::source::Failed;

/// What bytes go to.
pub trait Sink {
    // The bytes taken so far, where the sink tells them.
    ghost taken: { Self → Option (List ℕ) };

    // How many of them had been taken at the last flush that succeeded, 0 before the first.
    ghost settled: { Self → Option ℕ };

    // How often it has failed, as far as a count of 64 bits goes.
    ghost faults: { Self → ℕ };

    /// Takes bytes from the front of `piece`, at least one, and says how many.
    fn write(&mut self, piece: &[u8]) -> Result<usize, Failed>
        requires { 0 < length piece.now }
        ensures some { IfOk result (λ n. 1 ≤ n) }
        ensures room { IfOk result (λ n. n ≤ length piece.now) }
        ensures bytes { IfOk result (λ n. Took (taken self.old) (taken self.new) (take n piece.now)) }
        ensures kept { OnErr result (taken self.new ≡ taken self.old) }
        ensures settled { settled self.new ≡ settled self.old }

        ensures later { faults self.old ≤ faults self.new }
        ensures still { IfOk result (λ n. faults self.new ≡ faults self.old) }
        ensures rose { OnErr result (FaultCounted (faults self.old) (faults self.new)) };

    /// Settles all the bytes that it has taken.
    fn flush(&mut self) -> Result<(), Failed>
        ensures kept { taken self.new ≡ taken self.old }
        ensures settles { OnOk result (IsSettled (taken self.new) (settled self.new)) }
        ensures unsettled { OnErr result (settled self.new ≡ settled self.old) }

        ensures later { faults self.old ≤ faults self.new }
        ensures still { OnOk result (faults self.new ≡ faults self.old) }
        ensures rose { OnErr result (FaultCounted (faults self.old) (faults self.new)) };

    // What is settled is told exactly where the bytes are.
    ghost told_together: { (sink : Self) → is_some (settled sink) ≡ is_some (taken sink) };
}
