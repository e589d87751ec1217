// Numbers that follow from one another.
ghost use Rattle.std.specs.Prelude.{◌≡◌, IfOk, OnOk};
ghost use Rattle.dkv_generate.specs.Numbers.{next, number_after, numbers_after};

use crate::sizes::{INCREMENT, MULTIPLIER};
use dkv_base::{Bytes, NoMemory};
use std::alloc::Global;

/// The numbers that follow from one, by a linear congruence modulo 2^64.
#[derive(Clone, Copy, Debug)]
pub(crate) struct Numbers {
    /// The number that was taken last, or the one that they all follow from.
    pub last: u64,
}

impl Numbers {
    fn next(&mut self) -> u64
        ensures value { result ≡ next self.old.last }
        ensures last { self.new.last ≡ result }
    {
        self.last = self.last.wrapping_mul(MULTIPLIER).wrapping_add(INCREMENT);
        self.last
    }

    /// The next so many numbers, each in eight bytes, least first. Takes memory for them.
    pub(crate) fn take(&mut self, alloc: Global, count: usize) -> Result<Bytes, NoMemory>
        ensures bytes { IfOk result (λ bytes. bytes ≡ numbers_after count self.old.last) }
        ensures last { OnOk result (self.new.last ≡ number_after count self.old.last) }
    {
        let mut bytes = Vec::new(alloc);
        for _ in 0..count {
            bytes.extend_from_slice(&self.next().to_le_bytes())?;
        }
        Ok(Bytes::of(bytes))
    }
}
