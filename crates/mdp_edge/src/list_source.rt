ghost use Rattle.std.specs.Prelude.{◌≡◌, ◌≤◌, ◌<◌, ◌↔◌, ◌++◌, min, length, take, drop, IsErr, IfOk, OnErr, Some};
ghost use Rattle.mdp_edge.specs.{Plan.{plan_of, IsCounted, FailsNext}, Kinds.{after_read, after_failed_read}};

use crate::fault_plan::FaultPlan;
use crate::source::{Failed, Source};
use std::marker::Model;

/// Bytes in memory, given in pieces. It fails at the calls that its maker lists.
#[derive(Drop)]
pub struct ListSource {
    bytes: Vec<u8>,
    place: usize,
    chunk: usize,
    plan: FaultPlan,
}

impl Model for ListSource {
    ghost use Rattle.std.specs.Prelude.{◌≤◌, drop, vec_len};
    ghost use Rattle.mdp_edge.specs.Kinds.{Listed};

    ghost Value = { Listed };

    ghost view = { λ s. record { left = drop s.place s.bytes.items; chunk = s.chunk; plan = s.plan } };

    ghost invariant = { λ s. (s.place ≤ vec_len s.bytes) × (1 ≤ s.chunk) };
}

impl ListSource {
    /// A source of these bytes, which gives at most `chunk` of them in a call and fails at the calls whose numbers are in `fails`. The first call has
    /// number 0.
    pub fn new(bytes: Vec<u8>, chunk: usize, fails: Vec<u64>) -> ListSource
        requires { 1 ≤ chunk }
        ensures { result ≡ record { left = bytes.items; chunk = chunk; plan = plan_of fails.items } }
    {
        ListSource {
            bytes,
            place: 0,
            chunk,
            plan: FaultPlan::new(fails),
        }
    }
}

impl Source for ListSource {
    ghost left = { λ s. Some s.left };

    ghost faults = { λ s. s.plan.faults };

    /// Gives as many bytes as the chunk, the buffer and what is left allow.
    fn read(&mut self, buf: &mut [u8]) -> Result<usize, Failed>
        requires { 0 < length buf.old }
        ensures fails { IsErr result ↔ FailsNext self.old.plan }
        ensures failed { OnErr result (self.new ≡ after_failed_read self.old) }
        ensures after { IfOk result (λ n. self.new ≡ after_read self.old n) }
        ensures count { IfOk result (λ n. n ≡ min (min self.old.chunk (length buf.old)) (length self.old.left)) }
        ensures bytes { IfOk result (λ n. buf.new ≡ take n self.old.left ++ drop n buf.old) }
        ensures chunk { 1 ≤ self.old.chunk }
        ensures counted { IsCounted self.old.plan }
    {
        if self.plan.next_fails() {
            self.plan.count_fault();
            return Err(Failed);
        }
        let left = &self.bytes[self.place..];
        let count = self.chunk.min(buf.len()).min(left.len());
        buf[..count].copy_from_slice(&left[..count]);
        self.place += count;
        Ok(count)
    }
}
