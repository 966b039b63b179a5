ghost use Rattle.std.specs.Prelude.{◌≡◌, ◌<◌, ◌++◌, min, length, take, drop, IfOk, IsOk, Some};

use crate::source::{Failed, Source};
use std::marker::Model;

/// Bytes in memory, which it gives as fast as they are asked for. It never fails.
#[derive(Drop)]
pub struct SureSource {
    bytes: Vec<u8>,
    place: usize,
}

impl Model for SureSource {
    ghost use Rattle.std.specs.Prelude.{◌≤◌, List, ℕ, drop, vec_len};

    ghost Value = { List ℕ };

    ghost view = { λ s. drop s.place s.bytes.items };

    ghost invariant = { λ s. s.place ≤ vec_len s.bytes };
}

impl SureSource {
    pub fn new(bytes: Vec<u8>) -> SureSource
        ensures { result ≡ bytes.items }
    {
        SureSource { bytes, place: 0 }
    }
}

impl Source for SureSource {
    ghost left = { λ s. Some s };

    ghost faults = { λ _. 0 };

    fn read(&mut self, buf: &mut [u8]) -> Result<usize, Failed>
        requires { 0 < length buf.old }
        ensures sure { IsOk result }
        ensures count { IfOk result (λ n. n ≡ min (length buf.old) (length self.old)) }
        ensures bytes { IfOk result (λ n. buf.new ≡ take n self.old ++ drop n buf.old) }
        ensures after { IfOk result (λ n. self.new ≡ drop n self.old) }
    {
        let left = &self.bytes[self.place..];
        let count = buf.len().min(left.len());
        buf[..count].copy_from_slice(&left[..count]);
        self.place += count;
        Ok(count)
    }
}
