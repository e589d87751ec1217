// What changes the database: a commit that was prepared, and a message that is taken.
ghost use Rattle.std.specs.Prelude.{◌≡◌, ◌+◌, ◌≤◌, length, count_by, IsTrue, IfOk, OnErr};
ghost use Rattle.dkv_core.specs.Cores.{IsEffective, IsNoLess, IsReady, SameContent, applied, ends};
ghost use Rattle.dkv_core.specs.Settling.{out_after};
ghost use Rattle.dkv_core.specs.Takes.{IsNextDue, IsOutToo, IsTaken, waits};

use crate::enqueued::{add_all, settle};
use crate::{Core, NextDue, Prepared, Taken};
use dkv_base::{MsgId, NoMemory, TryCopy};
use dkv_queue::Due;
use std::alloc::Global;

impl Core {
    /// Makes the commit, and gives its number. Takes no memory.
    pub fn apply(&mut self, prepared: Prepared) -> u64
        requires { IsReady self.old prepared }
        ensures number { result ≡ prepared.number }
        ensures state { self.new.state ≡ applied prepared self.old.state }
        ensures out { self.new.out ≡ out_after prepared.settled self.old.out }
        ensures moment { self.new.greatest ≡ prepared.moment }
        ensures watches { self.new.watches ≡ self.old.watches }
        ensures entries { self.old.room.entries ≤ self.new.room.entries + length prepared.puts }
        ensures endings { self.old.room.endings
            ≤ self.new.room.endings + count_by ends prepared.puts }
        ensures messages { self.old.room.messages ≤ self.new.room.messages + length prepared.added }
    {
        let Prepared {
            number,
            moment,
            puts,
            removed,
            added,
            settled,
        } = prepared;
        self.entries.drop_ended(moment);
        self.entries.remove_all(removed);
        self.entries.put_all(puts);
        settle(&mut self.queue, settled, moment);
        add_all(&mut self.queue, added);
        self.number = number;
        self.last = moment;
        self.greatest = moment;
        number
    }

    /// Lets the commit go, and leaves all as it was. Takes no memory.
    pub fn drop_prepared(&mut self, prepared: Prepared)
        ensures { self.new ≡ self.old }
    {
        let Prepared {
            number: _,
            moment: _,
            puts: _,
            removed: _,
            added: _,
            settled: _,
        } = prepared;
    }

    /// The message that is due first at a moment in milliseconds since 1970, or when one will be. Takes no memory.
    pub fn due(&self, at: u64) -> NextDue<'_>
        ensures { IsNextDue self.now at result }
    {
        match self.queue.next_due(at) {
            Due::Nothing { next } => NextDue::Nothing { next },
            Due::Now(id) => match self.queue.get(id) {
                Some(message) => NextDue::Message(message),
                None => unreachable!(),
            },
        }
    }

    /// Takes the message that is due first at a moment in milliseconds since 1970, if one is due, and raises the greatest
    /// moment to that one. Takes memory for a copy of the message. Where there is none, nothing is changed.
    pub fn take(&mut self, alloc: Global, at: u64) -> Result<Taken, NoMemory>
        requires { IsEffective self.old at }
        ensures taken { IfOk result (λ taken. IsTaken self.old at taken self.new) }
        ensures err { OnErr result (SameContent self.old self.new) }
        ensures watches { self.new.watches ≡ self.old.watches }
        ensures room { IsNoLess self.old.room self.new.room }
    {
        let taken = match self.due(at) {
            NextDue::Nothing { next } => Taken::Nothing { next },
            NextDue::Message(message) => Taken::Leased(message.copy(alloc)?),
        };
        if let Taken::Leased(message) = &taken {
            self.lease(message.id);
        }
        self.raise(at);
        Ok(taken)
    }

    /// Marks a message that waits as out, as a take did that is replayed. Takes no memory.
    pub fn lease(&mut self, id: MsgId)
        requires { IsTrue (waits self.old id) }
        ensures state { self.new.state ≡ self.old.state }
        ensures out { IsOutToo self.old id self.new }
        ensures moment { self.new.greatest ≡ self.old.greatest }
        ensures watches { self.new.watches ≡ self.old.watches }
        ensures room { IsNoLess self.old.room self.new.room }
    {
        self.queue.take(id);
    }
}
