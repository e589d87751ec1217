//! A bell by which threads that sleep are called. It is no part of the rule, and no clause speaks of it.
//!
//! No ring is lost. Who wants to sleep reads `rings`, sets `awaited`, looks once more for what it waits for, and only
//! then sleeps, and only while `rings` is still what it read. Who rings has made that come true before it reads
//! `awaited`. So either the look finds it, or the ringer finds `awaited`; then it changes `rings` before it wakes, so
//! that the sleeper is woken or doesn't fall asleep. One that finds `awaited` false comes after another ringer that
//! has cleared it since, and that one changes `rings` and wakes too. All loads and stores are in one order (SeqCst).
use std::sync::Wait;
use std::sync::atomic::Ordering::SeqCst;
use std::sync::atomic::{AtomicBool, AtomicU64};

#[derive(Drop)]
pub(crate) struct Bell {
    // Somebody may sleep, or is about to.
    awaited: AtomicBool,
    // How often it was rung while it was awaited. A sleep compares its low 32 bits.
    rings: AtomicU64,
}

impl Bell {
    pub(crate) fn new() -> Bell {
        Bell {
            awaited: AtomicBool::new(false),
            rings: AtomicU64::new(0),
        }
    }

    /// Asks for a ring, and gives the number of rings so far. Look once more before `sleep`.
    pub(crate) fn expect_ring(&self) -> u64 {
        let rings = self.rings.load(SeqCst);
        self.awaited.store(true, SeqCst);
        rings
    }

    /// Sleeps, unless it was rung since. It may also return for no reason.
    pub(crate) fn sleep<R: Wait>(&self, rt: &R, rings: u64) {
        self.rings.park(rt, (rings & 0xffff_ffff) as u32);
    }

    /// Wakes one that sleeps. The bell is then no longer awaited: whoever is woken asks for the next ring.
    pub(crate) fn ring_one(&self) {
        if self.is_rung() {
            self.rings.wake_one();
        }
    }

    /// Wakes all that sleep.
    pub(crate) fn ring_all(&self) {
        if self.is_rung() {
            self.rings.wake_all();
        }
    }

    fn is_rung(&self) -> bool {
        let awaited = self.awaited.load(SeqCst);
        if awaited {
            self.awaited.store(false, SeqCst);
            self.rings.fetch_add(1, SeqCst);
        }
        awaited
    }
}
