ghost use Rattle.std.specs.Prelude.{◌≡◌, ◌≤◌, ◌<◌, ◌↔◌, ◌⊎◌, [], min, length, vec_len, IsErr, IfOk, OnOk, OnErr, Some};
ghost use Rattle.mdp_edge.specs.{Plan.{plan_of, IsCounted, FailsNext}, Kinds.{after_write, after_flush, after_failed_call}};

use crate::fault_plan::FaultPlan;
use crate::sink::Sink;
use crate::source::Failed;
use std::marker::Model;

/// A store of fixed size, filled from the front. It fails at the calls that its maker lists, and at a write where no room is left.
#[derive(Drop)]
pub struct ListSink {
    store: Vec<u8>,
    filled: usize,
    settled: usize,
    chunk: usize,
    plan: FaultPlan,
}

impl Model for ListSink {
    ghost use Rattle.std.specs.Prelude.{◌-◌, ◌≤◌, take, vec_len};
    ghost use Rattle.mdp_edge.specs.Kinds.{Stored};

    ghost Value = { Stored };

    ghost view = { λ s. record { taken = take s.filled s.store.items; room = vec_len s.store - s.filled; settled = s.settled; chunk = s.chunk; plan = s.plan } };

    ghost invariant = { λ s. (s.filled ≤ vec_len s.store) × (1 ≤ s.chunk) };
}

impl ListSink {
    /// A sink that fills `store`, takes at most `chunk` bytes in a write, and fails at the calls whose numbers are in `fails`. Writes and flushes are
    /// numbered together, and the first call has number 0.
    pub fn new(store: Vec<u8>, chunk: usize, fails: Vec<u64>) -> ListSink
        requires { 1 ≤ chunk }
        ensures { result ≡ record { taken = []; room = vec_len store; settled = 0; chunk = chunk; plan = plan_of fails.items } }
    {
        ListSink {
            store,
            filled: 0,
            settled: 0,
            chunk,
            plan: FaultPlan::new(fails),
        }
    }

    /// The bytes taken so far.
    pub fn bytes(&self) -> &[u8]
        ensures { result.now ≡ self.now.taken }
    {
        &self.store[..self.filled]
    }
}

impl Sink for ListSink {
    ghost use Rattle.std.specs.Prelude.{refl};

    ghost taken = { λ s. Some s.taken };

    ghost settled = { λ s. Some s.settled };

    ghost faults = { λ s. s.plan.faults };

    ghost told_together = { λ s. refl };

    /// Takes as many bytes as the chunk, the piece and the room allow.
    fn write(&mut self, piece: &[u8]) -> Result<usize, Failed>
        requires { 0 < length piece.now }
        ensures fails { IsErr result ↔ (FailsNext self.old.plan ⊎ (self.old.room ≡ 0)) }
        ensures failed { OnErr result (self.new ≡ after_failed_call self.old) }
        ensures count { IfOk result (λ n. n ≡ min (min self.old.chunk (length piece.now)) self.old.room) }
        ensures after { IfOk result (λ n. self.new ≡ after_write self.old piece.now n) }
        ensures chunk { 1 ≤ self.old.chunk }
        ensures counted { IsCounted self.old.plan }
    {
        let room = self.store.len() - self.filled;
        let is_listed = self.plan.next_fails();
        if is_listed || room == 0 {
            self.plan.count_fault();
            return Err(Failed);
        }
        let count = self.chunk.min(piece.len()).min(room);
        let end = self.filled + count;
        self.store[self.filled..end].copy_from_slice(&piece[..count]);
        self.filled = end;
        Ok(count)
    }

    fn flush(&mut self) -> Result<(), Failed>
        ensures fails { IsErr result ↔ FailsNext self.old.plan }
        ensures failed { OnErr result (self.new ≡ after_failed_call self.old) }
        ensures after { OnOk result (self.new ≡ after_flush self.old) }
        ensures counted { IsCounted self.old.plan }
    {
        if self.plan.next_fails() {
            self.plan.count_fault();
            return Err(Failed);
        }
        self.settled = self.filled;
        Ok(())
    }
}
