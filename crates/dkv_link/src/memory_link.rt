// A connection in memory.
ghost use Rattle.std.specs.Prelude.{◌≡◌, ◌<◌, ◌⊎◌, ◌++◌, [], length, Some, IsTrue, OnOk, OnErr, false};
ghost use Rattle.dkv_io.specs.Causes.{HasCause};
ghost use Rattle.dkv_io.specs.Plans.{FailsAsPlanned, new_plan};
ghost use Rattle.dkv_link.specs.Links.{LinkWithin, LinkCause, is_last, quiet_after};
ghost use Rattle.dkv_link.specs.MemoryLinks.{bytes_got, bytes_left, bytes_sent, has_ended, quiet_count, room, ReadsAsPlanned, OnlySends};

use crate::input::Input;
use crate::planned::{call, fault};
use crate::{Link, LinkGot, Pace};
use dkv_io::{Failed, FaultPlan, raised};
use std::alloc::Global;

/// A connection of which both sides are known: the bytes that come, and those that are written, which it keeps. A write takes
/// memory; where there is none, it is a fault.
#[derive(Drop)]
pub struct MemoryLink {
    input: Input,
    output: Vec<u8>,
    ended: bool,
    quiet: u64,
    /// Which calls fail.
    pub plan: FaultPlan,
    /// How the bytes come.
    pub pace: Pace,
}

impl MemoryLink {
    /// Gives these bytes at this pace, and fails at the calls of these numbers, from 0 on: reads and writes are counted
    /// together. A read that fails takes nothing, and a write that fails adds nothing.
    pub fn new(alloc: Global, input: Vec<u8>, fails: Vec<u64>, pace: Pace) -> MemoryLink
        ensures got { ⟦<MemoryLink as Link>⟧.got result ≡ Some [] }
        ensures left { bytes_left result ≡ input.items }
        ensures sent { ⟦<MemoryLink as Link>⟧.sent result ≡ Some [] }
        ensures plan { result.plan ≡ new_plan fails }
        ensures pace { result.pace ≡ pace }
        ensures faults { ⟦<MemoryLink as Link>⟧.faults result ≡ 0 }
        ensures ended { ⟦<MemoryLink as Link>⟧.ended result ≡ false }
        ensures quiet { ⟦<MemoryLink as Link>⟧.quiet result ≡ 0 }
    {
        MemoryLink {
            input: Input {
                bytes: input,
                place: 0,
            },
            output: Vec::new(alloc),
            ended: false,
            quiet: 0,
            plan: FaultPlan::new(fails),
            pace,
        }
    }

    /// What was written so far.
    pub fn output(&self) -> &[u8]
        ensures { ⟦<MemoryLink as Link>⟧.sent self.now ≡ Some result.now }
    {
        &self.output
    }

    // A read, which says End in place of bytes where all is over.
    pub(crate) fn read_until(&mut self, is_over: bool, into: &mut [u8]) -> LinkGot
        requires { 0 < length into.old }
        ensures within { LinkWithin result (length into.new) }
        ensures reads { ReadsAsPlanned (IsTrue is_over ⊎ (bytes_left self.old ≡ []))
            self.old self.new result into.new }
        ensures ended { has_ended self.new ≡ is_last result }
        ensures quiet { quiet_count self.new ≡ quiet_after (quiet_count self.old) result }
        ensures cause { LinkCause self.old.plan.faults self.new.plan.faults result }
    {
        let piece = self.pace.next_piece();
        let got = match call(&mut self.plan) {
            Ok(()) => self.input.come(piece, is_over, into),
            Err(_) => LinkGot::Failed,
        };
        self.ended = matches!(got, LinkGot::End);
        self.quiet = if matches!(got, LinkGot::Quiet) {
            raised(self.quiet)
        } else {
            0
        };
        got
    }
}

impl Link for MemoryLink {
    ghost got = { λ l. Some (bytes_got l) };

    ghost sent = { λ l. Some (bytes_sent l) };

    ghost faults = { λ l. l.plan.faults };

    ghost ended = { has_ended };

    ghost quiet = { quiet_count };

    fn read(&mut self, into: &mut [u8]) -> LinkGot
        requires { 0 < length into.old }
        ensures within { LinkWithin result (length into.new) }
        ensures reads { ReadsAsPlanned (bytes_left self.old ≡ [])
            self.old self.new result into.new }
        ensures ended { has_ended self.new ≡ is_last result }
        ensures quiet { quiet_count self.new ≡ quiet_after (quiet_count self.old) result }
        ensures cause { LinkCause self.old.plan.faults self.new.plan.faults result }
    {
        self.read_until(false, into)
    }

    fn write(&mut self, bytes: &[u8]) -> Result<(), Failed>
        ensures all { OnOk result (bytes_sent self.new ≡ bytes_sent self.old ++ bytes.now) }
        ensures none { OnErr result (bytes_sent self.new ≡ bytes_sent self.old) }
        ensures only { OnlySends self.old self.new }
        ensures cause { HasCause self.old.plan.faults self.new.plan.faults result }
        ensures plan { FailsAsPlanned (room self.old < length bytes.now)
            self.old.plan self.new.plan result }
    {
        call(&mut self.plan)?;
        match self.output.extend_from_slice(bytes) {
            Ok(()) => Ok(()),
            Err(_) => fault(&mut self.plan),
        }
    }
}
