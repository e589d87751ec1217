// Random bytes of the system.
ghost use Rattle.std.specs.Prelude.{◌≡◌, None};
ghost use Rattle.dkv_io.specs.Causes.{CountsErr, HasCause};

use dkv_io::{Failed, Random, raised};
use std::random::RandomSource;

/// The system's random bytes, of which it tells nothing.
#[derive(Drop)]
pub struct SystemRandom {
    rt: HostRuntime,
    /// How often it failed. Stands still at the last `u64`.
    pub faults: u64,
}

impl SystemRandom {
    /// Asks nothing of the system yet. Takes no memory.
    pub fn new(rt: &HostRuntime) -> SystemRandom
        ensures { ⟦<SystemRandom as Random>⟧.faults result ≡ 0 }
    {
        SystemRandom { rt: *rt, faults: 0 }
    }
}

/// Each error is a fault, and raises the count.
impl Random for SystemRandom {
    ghost stream = { λ _. None };

    ghost faults = { λ r. r.faults };

    fn fill(&mut self, into: &mut [u8]) -> Result<(), Failed>
        ensures cause { HasCause self.old.faults self.new.faults result }
        ensures count { CountsErr self.old.faults self.new.faults result }
    {
        match self.rt.fill_bytes(into) {
            Ok(()) => Ok(()),
            Err(_) => {
                self.faults = raised(self.faults);
                Err(Failed)
            }
        }
    }
}
