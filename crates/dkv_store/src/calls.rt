// The calls of a store as the one-thread database answers them.
ghost use Rattle.std.specs.Prelude.{◌≡◌, ◌<◌, ◌≤◌, ◌-◌, ◌^◌, ℕ, [], false, IsTrue, IfErr, IfOk, MatchResult, None, Some, Err};
ghost use Rattle.dkv_base.specs.declared.types.Ask.TheVariants.{Read};
ghost use Rattle.dkv_base.specs.declared.types.Answer.TheVariants.{Entries};
ghost use Rattle.dkv_base.specs.Limits.{read_limit};
ghost use Rattle.dkv_base.specs.Replies.{read_reply, said};
ghost use Rattle.dkv_core.specs.Decisions.{commit_of, may_ask};
ghost use Rattle.dkv_io.specs.Causes.{Rose};
ghost use Rattle.dkv_msgs.specs.Outputs.{read_output};
ghost use Rattle.dkv_msgs.specs.Spellings.{spell_snapshot_read_output};
ghost use Rattle.dkv_io.specs.Disks.{Told, AnyBytes};
ghost use Rattle.dkv_store.specs.Situations.{Answers, AnswersCall, AnswersTake};
ghost use Rattle.dkv_store.specs.Stores.{IsAckWithPlace, IsDone, IsRefused, IsRaisedTo, IsShort, IsOldOrNew, IsNotTaken, IsTake, Kept, SameDisks, effective_at, used_of, other_of};
ghost use Rattle.dkv_store.specs.Attempts.{attempted};
ghost use Rattle.dkv_store.specs.Terms.{CommitLeaves, FilesStand, Leads};
ghost use Rattle.dkv_store.specs.declared.answers.Refusal.TheVariants as refusal;

use crate::answers::{Done, Refusal};
use crate::store::Store;
use dkv_base::{Bytes, Call, Entry, NoMemory, ReadRange, Run};
use dkv_core::Taken;
use dkv_io::Disk;
use std::alloc::Global;

impl<D: Disk> Store<D> {
    /// What its type keeps, at every moment. Takes no memory, and does nothing.
    pub fn is_kept(&self)
        ensures kept { Kept D.faults self.now }
        // Stopped now, the files recover to its state, or to that and the commit in doubt.
        ensures stands { FilesStand D.seen D.may_leave self.now }
    {
        let _ = &self.core;
    }

    /// Commits a call of the caller `who` at a moment in milliseconds since 1970. A gate in doubt is mended before anything is
    /// written. After a fault the commit is in doubt or not on the disk, and a doubt joins the trail. Takes memory for the
    /// record, all of it before the first disk call.
    pub fn commit(&mut self, alloc: Global, who: u32, at: u64, call: Call) -> Result<Done, Refusal>
        requires numbered { self.old.core.state.number < 2 ^ 63 - 1 }
        requires out { IsTrue (may_ask self.old.core call) }
        requires short { IsShort self.old who (effective_at self.old at) call }
        // The answer is the one-thread database's, but for disk faults and want of memory.
        ensures steps { AnswersCall self.old who at call result self.new }
        ensures answer { MatchResult result
            (λ d. IsDone self.old who (effective_at self.old at) call d self.new)
            (λ r. IsRefused self.old who (effective_at self.old at) call r self.new) }
        // Stopped at any moment, the files recover to a state of the run.
        ensures goes { Leads D.seen D.may_leave D.moment D.left_since
            (attempted result (commit_of who (effective_at self.old at) call))
            self.old self.new }
        ensures moves { CommitLeaves D.seen D.may_leave D.moment D.left_since
            self.old (commit_of who (effective_at self.old at) call) self.new }
        ensures cause { result ≡ Err refusal.DiskFault
            → Rose (D.faults (used_of self.old)) (D.faults (used_of self.new)) }
        // In doubt is the old commit or this one, if one is.
        ensures doubted { result ≡ Err refusal.DiskFault → IsOldOrNew
            self.old.doubt (commit_of who (effective_at self.old at) call) self.new.doubt }
        ensures told { Told AnyBytes (D.seen self.old.a) (D.seen self.new.a)
            × Told AnyBytes (D.seen self.old.b) (D.seen self.new.b) }
        ensures later { (D.faults self.old.a ≤ D.faults self.new.a)
            × (D.faults self.old.b ≤ D.faults self.new.b) }
        ensures other { other_of self.new ≡ other_of self.old }
        ensures in_use { self.new.in_use ≡ self.old.in_use }
        ensures first { (self.new.a_first ≡ self.old.a_first)
            × (self.new.b_first ≡ self.old.b_first) }
        // Who watches goes on: so it is after each call but those on watches.
        ensures watches { self.new.core.watches ≡ self.old.core.watches }
        // The acknowledgement of a message that has a place takes no memory.
        ensures free { IsAckWithPlace call self.old.roomless
            → result ≡ Err refusal.NoMemory → ⊥ }
    {
        self.is_kept();
        if let Some(place) = self.stop_for(&call) {
            return self.hold_back(at, &call, place);
        }
        let done = self.commit_kept(alloc, who, at, call);
        self.is_kept();
        done
    }

    /// Takes the message that is due first, marks it as out, and makes room for one settlement of it. Touches no disk. Takes memory
    /// for a copy of the message and for that room.
    pub fn take(&mut self, alloc: Global, who: u32, at: u64) -> Result<Taken, Refusal>
        // The answer is the one-thread database's, but for want of memory.
        ensures steps { AnswersTake self.old who at result self.new }
        ensures taken { IfOk result (λ taken.
            IsTake self.old who (effective_at self.old at) taken self.new) }
        ensures refused { IfErr result
            (λ r. IsNotTaken self.old who (effective_at self.old at) r self.new) }
        ensures goes { Leads D.seen D.may_leave D.moment D.left_since [] self.old self.new }
        ensures disks { SameDisks self.old self.new }
        ensures watches { self.new.core.watches ≡ self.old.core.watches }
    {
        if let Some(place) = self.first_stop() {
            self.raise_to(at);
            return Err(Refusal::Stopped { place });
        }
        self.take_kept(alloc, who, at)
    }

    /// The entries of each range at the effective moment. Takes memory for copies of them.
    pub fn read(
        &mut self,
        alloc: Global,
        at: u64,
        ranges: &[ReadRange],
    ) -> Result<Run<Run<Entry>>, NoMemory>
        requires unlimited { read_limit ranges.now ≡ None }
        ensures reply { IfOk result (λ answer.
            answer ≡ read_reply self.old.core.state (effective_at self.old at) ranges.now) }
        ensures steps { (who : ℕ) → Answers self.old who at (Read ranges.now) false
            (said (Entries (read_reply self.old.core.state (effective_at self.old at) ranges.now)))
            self.new }
        ensures goes { Leads D.seen D.may_leave D.moment D.left_since [] self.old self.new }
        ensures short { IsRaisedTo (effective_at self.old at) self.old self.new }
        ensures watches { self.new.core.watches ≡ self.old.core.watches }
    {
        self.read_kept(alloc, at, ranges)
    }

    /// The body of the reply to a read of these ranges, in its canonical spelling. Copies no entry but into the reply, for
    /// which it takes memory.
    pub fn spell_read(
        &mut self,
        alloc: Global,
        at: u64,
        ranges: &[ReadRange],
    ) -> Result<Bytes, NoMemory>
        requires unlimited { read_limit ranges.now ≡ None }
        ensures reply { IfOk result (λ body. body ≡ spell_snapshot_read_output
            (read_output (read_reply self.old.core.state (effective_at self.old at) ranges.now))) }
        ensures steps { (who : ℕ) → Answers self.old who at (Read ranges.now) false
            (said (Entries (read_reply self.old.core.state (effective_at self.old at) ranges.now))) self.new }
        ensures goes { Leads D.seen D.may_leave D.moment D.left_since [] self.old self.new }
        ensures short { IsRaisedTo (effective_at self.old at) self.old self.new }
        ensures watches { self.new.core.watches ≡ self.old.core.watches }
    {
        self.spell_kept(alloc, at, ranges)
    }
}
