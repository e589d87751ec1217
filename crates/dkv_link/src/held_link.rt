// A link whose input is held back until another link was written on.
ghost use Rattle.std.specs.Prelude.{◌≡◌, ◌<◌, ◌⊎◌, ◌++◌, [], length, Some, IsTrue, OnOk, OnErr};
ghost use Rattle.dkv_io.specs.Causes.{HasCause};
ghost use Rattle.dkv_io.specs.Plans.{FailsAsPlanned};
ghost use Rattle.dkv_io.specs.Streams.{AppendsFront};
ghost use Rattle.dkv_link.specs.Links.{LinkWithin, LinkCause, is_last, quiet_after};
ghost use Rattle.dkv_link.specs.MemoryLinks.{bytes_got, bytes_left, bytes_sent, has_ended, quiet_count, room, ReadsAsPlanned, OnlySends};
ghost use Rattle.dkv_link.specs.Roles.{after_read, after_write};
ghost use Rattle.dkv_link.specs.declared.held_link.Role.TheVariants.{Awaits};

use crate::{Link, LinkGot, MemoryLink};
use dkv_io::Failed;
use std::sync::atomic::{AtomicBool, Ordering};
use std::thread;
use std::time::{Clock, Duration};

/// How often a link that awaits its flag sleeps at most, a millisecond each time.
pub const MOST_SLEEPS: u32 = 10_000;

/// What a held link has yet to do with its flag.
#[derive(Clone, Copy, Debug, PartialEq, Eq)]
pub enum Role {
    /// Its first write sets the flag.
    Sets,
    /// Its first read sleeps until the flag is set. Where it isn't set after `MOST_SLEEPS`, that read says End.
    Awaits,
    /// Nothing.
    Free,
}

/// A link in memory that shares a flag with another one. What its plan and its pace say comes before what the flag says.
#[derive(Drop)]
pub struct HeldLink<'a, C: Clock> {
    clock: &'a C,
    flag: &'a AtomicBool,
    /// The link itself.
    pub link: MemoryLink,
    /// What it has yet to do.
    pub role: Role,
}

// Sleeps until the flag is set, and says whether it was.
fn is_set_in_time<C: Clock>(clock: &C, flag: &AtomicBool) -> bool {
    for _ in 0..MOST_SLEEPS {
        if flag.load(Ordering::SeqCst) {
            return true;
        }
        thread::sleep(clock, Duration::from_millis(1));
    }
    false
}

impl<'a, C: Clock> HeldLink<'a, C> {
    /// Shares this flag. It sleeps by the clock.
    pub fn new(clock: &'a C, flag: &'a AtomicBool, link: MemoryLink, role: Role) -> HeldLink<'a, C>
        ensures link { result.link ≡ link }
        ensures role { result.role ≡ role }
    {
        HeldLink {
            clock,
            flag,
            link,
            role,
        }
    }

    // Waits for the flag where it is to, and says whether it gave up.
    fn gives_up(&mut self) -> bool
        ensures awaits { IsTrue result → self.old.role ≡ Awaits }
        ensures role { self.new.role ≡ after_read self.old.role }
        ensures link { self.new.link ≡ self.old.link }
    {
        let Role::Awaits = self.role else {
            return false;
        };
        self.role = Role::Free;
        !is_set_in_time(self.clock, self.flag)
    }
}

impl<C: Clock> Link for HeldLink<'_, C> {
    ghost got = { λ h. Some (bytes_got h.link) };

    ghost sent = { λ h. Some (bytes_sent h.link) };

    ghost faults = { λ h. h.link.plan.faults };

    ghost ended = { λ h. has_ended h.link };

    ghost quiet = { λ h. quiet_count h.link };

    fn read(&mut self, into: &mut [u8]) -> LinkGot
        requires { 0 < length into.old }
        ensures within { LinkWithin result (length into.new) }
        ensures reads { ReadsAsPlanned
            ((self.old.role ≡ Awaits) ⊎ (bytes_left self.old.link ≡ []))
            self.old.link self.new.link result into.new }
        ensures ended { has_ended self.new.link ≡ is_last result }
        ensures quiet { quiet_count self.new.link
            ≡ quiet_after (quiet_count self.old.link) result }
        ensures cause { LinkCause self.old.link.plan.faults self.new.link.plan.faults result }
        ensures role { self.new.role ≡ after_read self.old.role }
    {
        let is_over = self.gives_up();
        self.link.read_until(is_over, into)
    }

    fn write(&mut self, bytes: &[u8]) -> Result<(), Failed>
        ensures all { OnOk result
            (bytes_sent self.new.link ≡ bytes_sent self.old.link ++ bytes.now) }
        ensures none { OnErr result (bytes_sent self.new.link ≡ bytes_sent self.old.link) }
        ensures front { OnErr result (AppendsFront (Some (bytes_sent self.old.link))
            (Some (bytes_sent self.new.link)) bytes.now) }
        ensures only { OnlySends self.old.link self.new.link }
        ensures cause { HasCause self.old.link.plan.faults self.new.link.plan.faults result }
        ensures plan { FailsAsPlanned (room self.old.link < length bytes.now)
            self.old.link.plan self.new.link.plan result }
        ensures role { self.new.role ≡ after_write self.old.role }
    {
        let outcome = self.link.write(bytes);
        if let Role::Sets = self.role {
            self.role = Role::Free;
            self.flag.store(true, Ordering::SeqCst);
        }
        outcome
    }
}
