//! What each thread of the benchmark does.
use std::thread::sleep;
use std::time::{Clock, Duration};

#[derive(Clone, Copy)]
pub(crate) struct Load {
    /// How many items it adds.
    pub(crate) rounds: u32,
    /// How long it sleeps under the lock for each, in microseconds.
    pub(crate) hold: u32,
}

impl Load {
    pub(crate) fn hold<R: Clock>(self, rt: &R) {
        if self.hold > 0 {
            sleep(rt, Duration::from_micros(u64::from(self.hold)));
        }
    }
}
