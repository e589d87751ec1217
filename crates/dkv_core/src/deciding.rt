// What is decided of a call, before anything changes.
ghost use Rattle.std.specs.Prelude.{ℕ, ◌≡◌, ◌+◌, ◌-◌, ◌^◌, ◌<◌, IsTrue, IfOk, IsOk, None};
ghost use Rattle.dkv_base.specs.declared.types.Call.TheVariants.{Write, Ack, Fail};
ghost use Rattle.dkv_base.specs.Limits.{write_limit};
ghost use Rattle.dkv_base.specs.Messages.{exhausted, is_out};
ghost use Rattle.dkv_atomic.specs.Decisions.{IsEffects};
ghost use Rattle.dkv_core.specs.Cores.{IsEffective, IsNoLess, SameContent};
ghost use Rattle.dkv_core.specs.Decisions.{Goes, IsDecided, may_ask, is_ack, settling};
ghost use Rattle.dkv_core.specs.Settling.{payloads};

use crate::enqueued::{messages_made, payload_entries};
use crate::prepared::Settled;
use crate::put::puts_of;
use crate::{Core, Decided, Prepared};
use dkv_atomic::{Decision, Effects, decide, limits};
use dkv_base::{AtomicWrite, Call, Entry, MsgId, NoMemory, Run};
use std::alloc::Global;

impl Core {
    /// What is decided of a call of the caller `who` at a moment in milliseconds since 1970. Takes memory for copies of
    /// what it stores and for the room that `apply` needs, but none for an acknowledgement. The room may grow, whatever
    /// it answers.
    pub fn prepare(
        &mut self,
        alloc: Global,
        who: u32,
        at: u64,
        call: &Call,
    ) -> Result<Decided, NoMemory>
        requires effective { IsEffective self.old at }
        requires numbered { self.old.state.number < 2 ^ 64 - 1 }
        requires out { IsTrue (may_ask self.old call.now) }
        ensures decided { IfOk result (IsDecided self.new who at call.now) }
        ensures acknowledged { IsTrue (is_ack call.now) → IsOk result }
        ensures kept { SameContent self.old self.new }
        ensures watches { self.new.watches ≡ self.old.watches }
        ensures room { IsNoLess self.old.room self.new.room }
    {
        match call {
            Call::Write(write) => self.prepare_write(alloc, at, write),
            Call::Ack(id) => Ok(Decided::Goes(self.prepare_ack(alloc, at, *id))),
            Call::Fail(id) => Ok(Decided::Goes(self.prepare_failure(alloc, at, *id)?)),
        }
    }

    // What is decided of a write, whoever made it.
    pub(crate) fn prepare_write(
        &mut self,
        alloc: Global,
        at: u64,
        write: &AtomicWrite,
    ) -> Result<Decided, NoMemory>
        requires effective { IsEffective self.old at }
        requires numbered { self.old.state.number < 2 ^ 64 - 1 }
        ensures decided { IfOk result (λ d.
            (who : ℕ) → IsDecided self.new who at (Write write.now) d) }
        ensures kept { SameContent self.old self.new }
        ensures watches { self.new.watches ≡ self.old.watches }
        ensures room { IsNoLess self.old.room self.new.room }
    {
        match limits(write) {
            Some(limit) => Ok(Decided::Limit(limit)),
            None => self.decide_free(alloc, at, write),
        }
    }

    // What is decided of a write that passes no limit.
    fn decide_free(
        &mut self,
        alloc: Global,
        at: u64,
        write: &AtomicWrite,
    ) -> Result<Decided, NoMemory>
        requires effective { IsEffective self.old at }
        requires numbered { self.old.state.number < 2 ^ 64 - 1 }
        requires free { write_limit write.now ≡ None }
        ensures decided { IfOk result (λ d.
            (who : ℕ) → IsDecided self.new who at (Write write.now) d) }
        ensures kept { SameContent self.old self.new }
        ensures watches { self.new.watches ≡ self.old.watches }
        ensures room { IsNoLess self.old.room self.new.room }
    {
        let number = self.number + 1;
        match decide(alloc, self.entries.table(), write, at, number)? {
            Decision::Fails(places) => Ok(Decided::Fails(places)),
            Decision::NotU64 { index } => Ok(Decided::NotU64 { index }),
            Decision::Goes(effects) => {
                let prepared = self.prepare_effects(alloc, at, write, effects)?;
                Ok(Decided::Goes(prepared))
            }
        }
    }

    // The commit of a write that has these effects.
    fn prepare_effects(
        &mut self,
        alloc: Global,
        at: u64,
        write: &AtomicWrite,
        effects: Effects,
    ) -> Result<Prepared, NoMemory>
        requires effective { IsEffective self.old at }
        requires numbered { self.old.state.number < 2 ^ 64 - 1 }
        requires free { write_limit write.now ≡ None }
        requires does { IsEffects self.old.state.entries write.now at
            (self.old.state.number + 1) effects }
        ensures goes { IfOk result (λ p. (who : ℕ) → Goes self.new who at (Write write.now) p) }
        ensures kept { SameContent self.old self.new }
        ensures watches { self.new.watches ≡ self.old.watches }
        ensures room { IsNoLess self.old.room self.new.room }
    {
        let number = self.number + 1;
        let added = messages_made(alloc, number, write.enqueues.as_slice())?;
        let puts = puts_of(alloc, effects.puts)?;
        self.entries.reserve(&puts)?;
        self.queue.reserve(added.len())?;
        Ok(Prepared {
            number,
            moment: at,
            puts,
            removed: effects.removed,
            added,
            settled: None,
        })
    }

    // The acknowledgement of a message that is out.
    fn prepare_ack(&self, alloc: Global, at: u64, id: MsgId) -> Prepared
        requires effective { IsEffective self.now at }
        requires numbered { self.now.state.number < 2 ^ 64 - 1 }
        requires out { IsTrue (is_out id self.now.out) }
        ensures { (who : ℕ) → Goes self.now who at (Ack id) result }
    {
        Prepared {
            number: self.number + 1,
            moment: at,
            puts: Run::new(alloc),
            removed: Run::new(alloc),
            added: Run::new(alloc),
            settled: Some(Settled { id, done: true }),
        }
    }

    // The failure of a message that is out.
    fn prepare_failure(&mut self, alloc: Global, at: u64, id: MsgId) -> Result<Prepared, NoMemory>
        requires effective { IsEffective self.old at }
        requires numbered { self.old.state.number < 2 ^ 64 - 1 }
        requires out { IsTrue (is_out id self.old.out) }
        ensures goes { IfOk result (λ p. (who : ℕ) → Goes self.new who at (Fail id) p) }
        ensures kept { SameContent self.old self.new }
        ensures watches { self.new.watches ≡ self.old.watches }
        ensures room { IsNoLess self.old.room self.new.room }
    {
        let number = self.number + 1;
        let payloads = self.last_payloads(alloc, number, id)?;
        let puts = puts_of(alloc, payloads)?;
        self.entries.reserve(&puts)?;
        Ok(Prepared {
            number,
            moment: at,
            puts,
            removed: Run::new(alloc),
            added: Run::new(alloc),
            settled: Some(Settled { id, done: false }),
        })
    }

    // The settlement of a message that is out, which was handled or wasn't.
    pub(crate) fn prepare_settlement(
        &mut self,
        alloc: Global,
        at: u64,
        id: MsgId,
        done: bool,
    ) -> Result<Prepared, NoMemory>
        requires effective { IsEffective self.old at }
        requires numbered { self.old.state.number < 2 ^ 64 - 1 }
        requires out { IsTrue (is_out id self.old.out) }
        ensures goes { IfOk result (λ p. (who : ℕ) → Goes self.new who at (settling done id) p) }
        ensures kept { SameContent self.old self.new }
        ensures watches { self.new.watches ≡ self.old.watches }
        ensures room { IsNoLess self.old.room self.new.room }
    {
        if done {
            Ok(self.prepare_ack(alloc, at, id))
        } else {
            self.prepare_failure(alloc, at, id)
        }
    }

    // What commit `n` stores of a message of which one more failure is the last; nothing of another.
    fn last_payloads(&self, alloc: Global, n: u64, id: MsgId) -> Result<Run<Entry>, NoMemory>
        ensures { IfOk result (λ entries.
            entries ≡ payloads n (exhausted id self.now.state.messages)) }
    {
        match self.queue.get(id) {
            Some(message) => {
                if message.fails as usize == message.backoff.len() {
                    payload_entries(alloc, message, n)
                } else {
                    Ok(Run::new(alloc))
                }
            }
            None => Ok(Run::new(alloc)),
        }
    }
}
