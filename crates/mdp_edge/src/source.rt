ghost use Rattle.std.specs.Prelude.{◌≡◌, ◌≤◌, ◌<◌, ◌↔◌, ℕ, List, [], length, take, Option, IfOk, OnErr, IfSome};
ghost use Rattle.mdp_edge.specs.{Faults.{FaultCounted}, Bytes.{Gave}};

/// A call of a source or a sink that failed.
#[derive(Clone, Copy)]
pub struct Failed;

/// What bytes come from.
pub trait Source {
    // The bytes still to come, where the source tells them.
    ghost left: { Self → Option (List ℕ) };

    // How often it has failed, as far as a count of 64 bits goes.
    ghost faults: { Self → ℕ };

    /// Puts the next bytes at the front of `buf` and says how many there are. 0 is the end of input.
    fn read(&mut self, buf: &mut [u8]) -> Result<usize, Failed>
        requires { 0 < length buf.old }
        ensures room { IfOk result (λ n. n ≤ length buf.new) }
        ensures bytes { IfOk result (λ n. Gave (left self.old) (left self.new) (take n buf.new)) }
        ensures end { IfOk result (λ n. IfSome (left self.old) (λ bytes. (n ≡ 0) ↔ (bytes ≡ []))) }
        ensures kept { OnErr result (left self.new ≡ left self.old) }

        ensures later { faults self.old ≤ faults self.new }
        ensures still { IfOk result (λ n. faults self.new ≡ faults self.old) }
        ensures rose { OnErr result (FaultCounted (faults self.old) (faults self.new)) };
}
