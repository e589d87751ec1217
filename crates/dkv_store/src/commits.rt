// Commits: on the disk first, then in the core and in the trail.
ghost use Rattle.std.specs.Prelude.{◌≡◌, ◌+◌, ◌-◌, ◌^◌, ◌<◌, ◌≤◌, ℕ, List, IsTrue, MatchResult, Some, Err};
ghost use Rattle.dkv_base.specs.declared.types.Item.TheVariants.{Made};
ghost use Rattle.dkv_base.specs.declared.types.Profile.TheVariants.{Narrow};
ghost use Rattle.dkv_base.specs.Profiles.{body_most};
ghost use Rattle.dkv_base.specs.Spelling.{record_length, record_body};
ghost use Rattle.dkv_base.specs.Trails.{item_weight};
ghost use Rattle.dkv_core.specs.Decisions.{commit_of, may_ask, Goes};
ghost use Rattle.dkv_journal.specs.Records.{first_layout, laid as laid_of};
ghost use Rattle.dkv_msgs.specs.Readings.{reads_atomic_write};
ghost use Rattle.dkv_record.specs.Records.{commit_of as read_as};
ghost use Rattle.dkv_io.specs.Causes.{Rose};
ghost use Rattle.dkv_io.specs.Disks.{Told, AnyBytes};
ghost use Rattle.dkv_store.specs.Stores.{IsAckWithPlace, IsDone, IsRefused, IsShort, IsOldOrNew, effective_at, used_of, other_of};
ghost use Rattle.dkv_store.specs.Terms.{CommitLeaves};
ghost use Rattle.dkv_store.specs.Trails.{FindsNoStop};
ghost use Rattle.dkv_store.specs.declared.answers.Refusal.TheVariants as refusal;

use crate::answers::{Done, Refusal};
use crate::keep::write;
use crate::laid::{chosen, record_size};
use crate::store::Store;
use crate::trail::ITEM_WEIGHT;
use dkv_base::{Call, Commit, Item};
use dkv_core::{Decided, Prepared};
use dkv_io::Disk;
use std::alloc::Global;

impl<D: Disk> Store<D> {
    /// Commits a call of the caller `who` at a moment in milliseconds since 1970. A gate in doubt is mended before anything is
    /// written. After a fault the commit is in doubt or not on the disk, and a doubt joins the trail. Takes memory for the
    /// record, all of it before the first disk call.
    pub(crate) fn commit_kept(
        &mut self,
        alloc: Global,
        who: u32,
        at: u64,
        call: Call,
    ) -> Result<Done, Refusal>
        requires numbered { self.old.core.state.number < 2 ^ 63 - 1 }
        requires out { IsTrue (may_ask self.old.core call) }
        requires short { IsShort self.old who (effective_at self.old at) call }
        requires unstopped { FindsNoStop call self.old.trail }
        ensures answer { MatchResult result
            (λ d. IsDone self.old who (effective_at self.old at) call d self.new)
            (λ r. IsRefused self.old who (effective_at self.old at) call r self.new) }
        ensures moves { CommitLeaves D.seen D.may_leave D.moment D.left_since
            self.old (commit_of who (effective_at self.old at) call) self.new }
        // All memory is taken before the first disk call.
        ensures untouched { result ≡ Err refusal.NoMemory
            → (self.new.a ≡ self.old.a) × (self.new.b ≡ self.old.b) }
        ensures cause { result ≡ Err refusal.DiskFault
            → Rose (D.faults (used_of self.old)) (D.faults (used_of self.new)) }
        // In doubt is the old commit or this one, if one is.
        ensures doubted { result ≡ Err refusal.DiskFault
            → IsOldOrNew self.old.doubt
            (commit_of who (effective_at self.old at) call) self.new.doubt }
        ensures told { Told AnyBytes (D.seen (used_of self.old)) (D.seen (used_of self.new)) }
        ensures later { D.faults (used_of self.old) ≤ D.faults (used_of self.new) }
        ensures other { other_of self.new ≡ other_of self.old }
        ensures in_use { self.new.in_use ≡ self.old.in_use }
        ensures first { (self.new.a_first ≡ self.old.a_first)
            × (self.new.b_first ≡ self.old.b_first) }
        ensures watches { self.new.core.watches ≡ self.old.core.watches }
        // The acknowledgement of a message that has a place takes no memory.
        ensures free { IsAckWithPlace call self.old.roomless → result ≡ Err refusal.NoMemory → ⊥ }
    {
        let at = self.core.moment(at);
        match self.core.prepare(alloc, who, at, &call)? {
            Decided::Limit(limit) => Ok(Done::Limit(limit)),
            Decided::Fails(places) => {
                self.core.raise(at);
                Ok(Done::Fails(places))
            }
            Decided::NotU64 { index } => {
                self.core.raise(at);
                Ok(Done::NotU64 { index })
            }
            Decided::Goes(prepared) => self.make(alloc, who, at, call, prepared),
        }
    }

    // Makes a commit that was prepared: on the disk, in the core and in the trail.
    fn make(
        &mut self,
        alloc: Global,
        who: u32,
        at: u64,
        call: Call,
        prepared: Prepared,
    ) -> Result<Done, Refusal>
        requires goes { Goes self.old.core who at call prepared }
        requires short { IsShort self.old who at call }
        requires unstopped { FindsNoStop call self.old.trail }
        ensures answer { MatchResult result
            (λ d. IsDone self.old who at call d self.new)
            (λ r. IsRefused self.old who at call r self.new) }
        ensures moves { CommitLeaves D.seen D.may_leave D.moment D.left_since
            self.old (commit_of who at call) self.new }
        // All memory is taken before the first disk call.
        ensures untouched { result ≡ Err refusal.NoMemory
            → (self.new.a ≡ self.old.a) × (self.new.b ≡ self.old.b) }
        ensures cause { result ≡ Err refusal.DiskFault
            → Rose (D.faults (used_of self.old)) (D.faults (used_of self.new)) }
        ensures doubted { result ≡ Err refusal.DiskFault
            → IsOldOrNew self.old.doubt (commit_of who at call) self.new.doubt }
        ensures told { Told AnyBytes (D.seen (used_of self.old)) (D.seen (used_of self.new)) }
        ensures later { D.faults (used_of self.old) ≤ D.faults (used_of self.new) }
        ensures other { other_of self.new ≡ other_of self.old }
        ensures in_use { self.new.in_use ≡ self.old.in_use }
        ensures first { (self.new.a_first ≡ self.old.a_first)
            × (self.new.b_first ≡ self.old.b_first) }
        ensures watches { self.new.core.watches ≡ self.old.core.watches }
        // The acknowledgement of a message that has a place takes no memory.
        ensures free { IsAckWithPlace call self.old.roomless → result ≡ Err refusal.NoMemory → ⊥ }
    {
        let commit = commit_for(who, at, call);
        let Ok((fresh, weight)) = self.trail.ready(alloc, &commit) else {
            self.core.drop_prepared(prepared);
            return Err(Refusal::NoMemory);
        };
        if self.trail.is_too_heavy(&commit, weight, self.limit) {
            self.core.drop_prepared(prepared);
            self.core.raise(at);
            return Err(Refusal::Full {
                trail_bytes: self.trail.weight(),
                limit: self.limit,
            });
        }
        let laid = chosen(&fresh, self.trail.settling());
        if write(&mut self.files, laid, &commit).is_err() {
            self.core.drop_prepared(prepared);
            self.core.raise(at);
            self.trail.add(Item::Doubt { who, at }, ITEM_WEIGHT);
            return Err(Refusal::DiskFault);
        }
        let n = self.core.apply(prepared);
        self.record_bytes = self
            .record_bytes
            .saturating_add(record_size(&commit, weight));
        self.trail.add_made(commit, weight);
        Ok(Done::Committed { n })
    }
}

// The commit that a call asks for.
pub(crate) fn commit_for(who: u32, at: u64, call: Call) -> Commit
    ensures { result ≡ commit_of who at call }
{
    match call {
        Call::Write(write) => Commit::Wrote { who, at, write },
        Call::Ack(id) => Commit::Acked { who, at, id },
        Call::Fail(id) => Commit::Failed { who, at, id },
    }
}
