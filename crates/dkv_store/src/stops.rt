// Stops: behind one no write is made and nothing is taken.
ghost use Rattle.std.specs.Prelude.{◌≡◌, ℕ, List, [], length, Some, None, IfSome, IfNone, OnOk, OnErr};
ghost use Rattle.dkv_base.specs.Trails.{first_stop};
ghost use Rattle.dkv_base.specs.declared.types.Commit.{Commit};
ghost use Rattle.dkv_store.specs.Stores.{IsHeldBack, IsRaisedTo, IsStopped, SameDisks, effective_at};
ghost use Rattle.dkv_store.specs.Terms.{CommitLeaves, Leads};
ghost use Rattle.dkv_store.specs.Trails.{FindsNoStop, FindsStop, stop_told};

use crate::answers::{Done, Refusal};
use crate::store::Store;
use dkv_atomic::limits;
use dkv_base::{Call, NoMemory};
use dkv_io::Disk;

/// How far the items of a term go, and whether a stop stands among them.
#[derive(Clone, Copy, Debug, PartialEq, Eq)]
pub struct Peek {
    /// How many items there are.
    pub place: u64,
    /// None without a stop, else whether one of them is the last.
    pub stop: Option<bool>,
}

impl<D: Disk> Store<D> {
    /// Adds a stop at the effective moment, to which it raises the greatest moment. Takes memory for its item.
    pub fn stop(&mut self, who: u32, at: u64, last: bool) -> Result<(), NoMemory>
        ensures stopped { OnOk result
            (IsStopped who (effective_at self.old at) last self.old self.new) }
        ensures err { OnErr result (IsRaisedTo self.old.core.greatest self.old self.new) }
        ensures goes { Leads D.seen D.may_leave D.moment D.left_since [] self.old self.new }
        ensures disks { SameDisks self.old self.new }
        ensures watches { self.new.core.watches ≡ self.old.core.watches }
    {
        self.stop_kept(who, at, last)
    }

    // The stop stands in the trail, or nothing changed.
    fn stop_kept(&mut self, who: u32, at: u64, last: bool) -> Result<(), NoMemory>
        ensures stopped { OnOk result
            (IsStopped who (effective_at self.old at) last self.old self.new) }
        ensures err { OnErr result (IsRaisedTo self.old.core.greatest self.old self.new) }
        ensures disks { SameDisks self.old self.new }
        ensures watches { self.new.core.watches ≡ self.old.core.watches }
    {
        let at = self.core.moment(at);
        self.trail.add_stop(who, at, last)?;
        self.core.raise(at);
        Ok(())
    }

    /// How far the items go, and whether a stop stands among them. Takes no memory.
    pub fn peek(&self) -> Peek
        ensures place { result.place ≡ length self.now.trail }
        ensures stop { result.stop ≡ stop_told self.now.trail }
    {
        Peek {
            place: self.trail.len(),
            stop: self.trail.stop_told(),
        }
    }

    // The place of the first stop.
    pub(crate) fn first_stop(&self) -> Option<u64>
        ensures { result ≡ first_stop self.now.trail }
    {
        self.trail.stop()
    }

    // The place of the first stop, where it holds the call back.
    pub(crate) fn stop_for(&self, call: &Call) -> Option<u64>
        ensures found { IfSome result (FindsStop call.now self.now.trail) }
        ensures none { IfNone result (FindsNoStop call.now self.now.trail) }
    {
        match call {
            Call::Write(_) => self.trail.stop(),
            Call::Ack(_) | Call::Fail(_) => None,
        }
    }

    // The answer to a write behind the stop at this place.
    pub(crate) fn hold_back(&mut self, at: u64, call: &Call, place: u64) -> Result<Done, Refusal>
        requires { FindsStop call.now self.old.trail place }
        ensures answer { IsHeldBack self.old (effective_at self.old at) call.now result self.new }
        ensures moves { (c : Commit) → CommitLeaves D.seen D.may_leave D.moment D.left_since
            self.old c self.new }
        ensures disks { SameDisks self.old self.new }
        ensures watches { self.new.core.watches ≡ self.old.core.watches }
    {
        match call {
            Call::Write(write) => {
                if let Some(limit) = limits(write) {
                    return Ok(Done::Limit(limit));
                }
                let at = self.core.moment(at);
                self.core.raise(at);
                Err(Refusal::Stopped { place })
            }
            Call::Ack(_) | Call::Fail(_) => unreachable!(),
        }
    }

    // What a take behind a stop changes: the greatest moment.
    pub(crate) fn raise_to(&mut self, at: u64)
        ensures raised { IsRaisedTo (effective_at self.old at) self.old self.new }
        ensures disks { SameDisks self.old self.new }
        ensures watches { self.new.core.watches ≡ self.old.core.watches }
    {
        let at = self.core.moment(at);
        self.core.raise(at);
    }
}
