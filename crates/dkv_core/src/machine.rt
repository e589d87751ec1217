// A core: what it is made of, and what it tells.
ghost use Rattle.std.specs.Prelude.{◌≡◌, ◌^◌, ◌<◌, max, map, [], IfOk, Ok, None};
ghost use Rattle.dkv_base.specs.State.{empty_state};
ghost use Rattle.dkv_base.specs.Moments.{capped_moment};
ghost use Rattle.dkv_base.specs.Sound.{IsSound};
ghost use Rattle.dkv_base.specs.Limits.{read_limit};
ghost use Rattle.dkv_base.specs.Replies.{read_reply};
ghost use Rattle.dkv_base.specs.Messages.{is_out};
ghost use Rattle.dkv_queue.specs.Rows.{messages_of, out_of};
ghost use Rattle.dkv_core.specs.Cores.{IsEffective, SameContent};
ghost use Rattle.dkv_core.specs.Decisions.{may_ask};
ghost use Rattle.dkv_core.specs.Found.{entries_of};

use crate::enqueued::queue_of;
use crate::entries::Entries;
use crate::reading::{copy_all, find_all};
use dkv_base::{Call, Entry, MAX_MOMENT, Message, MsgId, NoMemory, ReadRange, Run};
use dkv_hub::Hub;
use dkv_queue::Queue;
use dkv_table::{Blocks, Table};
use std::alloc::Global;
use std::marker::Model;

/// The database of one thread: the number and the moment of the last commit, the greatest moment so far, the entries, the
/// messages that wait or are out, and those who watch.
#[derive(Drop)]
pub struct Core {
    pub(crate) number: u64,
    pub(crate) last: u64,
    pub(crate) greatest: u64,
    pub(crate) entries: Entries,
    pub(crate) queue: Queue,
    pub(crate) hub: Hub,
}

impl Model for Core {
    ghost use Rattle.std.specs.Prelude.{◌≤◌, IsTrue};
    ghost use Rattle.std.specs.List.{list_all};
    ghost use Rattle.dkv_queue.specs.Rows.{messages_of, out_of};
    ghost use Rattle.dkv_hub.specs.Frames.{are_committed};
    ghost use Rattle.dkv_core.specs.Cores.{Database, is_kept};
    ghost use Rattle.dkv_base.specs.declared.moments.TheConstants.{MAX_MOMENT};

    ghost Value = { Database };

    ghost view = { λ c. record {
      state = record {
        number = c.number;
        moment = c.last;
        entries = c.entries.entries;
        messages = messages_of c.queue.rows;
      };
      out = out_of c.queue.rows;
      greatest = c.greatest;
      watches = c.hub;
      room = record { entries = c.entries.spare; endings = c.entries.endings; messages = c.queue.spare };
    } };

    // No message is of a later commit, none has failed too often, and no entry is of commit 0.
    ghost invariant = { λ c.
        (c.last ≤ c.greatest) × (c.greatest ≤ MAX_MOMENT)
        × IsTrue (list_all (is_kept c.number) (messages_of c.queue.rows))
        × IsTrue (are_committed c.entries.entries) };
}

impl Core {
    /// A new database. It keeps the allocator for later, takes no memory, and so never refuses.
    pub fn empty(alloc: Global) -> Result<Core, NoMemory>
        ensures { result ≡ Ok (record {
          state = empty_state;
          out = [];
          greatest = 0;
          watches = [];
          room = record { entries = 0; endings = 0; messages = 0 };
        }) }
    {
        Ok(Core {
            number: 0,
            last: 0,
            greatest: 0,
            entries: Entries::new(alloc),
            queue: Queue::new(alloc),
            hub: Hub::new(alloc),
        })
    }

    /// The database of this state, in which no message is out. Its commit number is below 2^63, its moment in milliseconds
    /// since 1970, its entries in key order and its messages in the order of their ids. Nobody watches. Takes memory for its
    /// indexes.
    pub fn of(
        alloc: Global,
        number: u64,
        now: u64,
        entries: Run<Entry>,
        messages: Run<Message>,
    ) -> Result<Core, NoMemory>
        requires few { number < 2 ^ 63 }
        requires sound { IsSound (record {
          number = number;
          moment = now;
          entries = entries;
          messages = messages;
        }) }
        ensures state { IfOk result (λ c. c.state ≡ record {
          number = number;
          moment = now;
          entries = entries;
          messages = messages;
        }) }
        ensures out { IfOk result (λ c. c.out ≡ []) }
        ensures moment { IfOk result (λ c. c.greatest ≡ now) }
        ensures watches { IfOk result (λ c. c.watches ≡ []) }
    {
        Ok(Core {
            number,
            last: now,
            greatest: now,
            entries: Entries::of(alloc, entries)?,
            queue: queue_of(alloc, messages)?,
            hub: Hub::new(alloc),
        })
    }

    /// An equal database, but for its room, which nobody watches. Takes memory for it.
    pub fn copy(&self, alloc: Global) -> Result<Core, NoMemory>
        ensures content { IfOk result (SameContent self.now) }
        ensures watches { IfOk result (λ c. c.watches ≡ []) }
    {
        Ok(Core {
            number: self.number,
            last: self.last,
            greatest: self.greatest,
            entries: self.entries.copy(alloc)?,
            queue: self.queue.copy(alloc)?,
            hub: Hub::new(alloc),
        })
    }

    /// The number of the last commit; 0 where there was none. Takes no memory.
    pub fn number(&self) -> u64
        ensures { result ≡ self.now.state.number }
    {
        self.number
    }

    /// The moment of the last commit, in milliseconds since 1970; 0 where there was none. Takes no memory.
    pub fn now(&self) -> u64
        ensures { result ≡ self.now.state.moment }
    {
        self.last
    }

    /// What is stored. Takes no memory.
    pub fn table(&self) -> &Blocks
        ensures { ⟦<Blocks as Table>⟧.content result.now ≡ self.now.state.entries }
    {
        self.entries.table()
    }

    /// The messages that wait or are out. Takes no memory.
    pub fn queue(&self) -> &Queue
        ensures messages { messages_of result.now.rows ≡ self.now.state.messages }
        ensures out { out_of result.now.rows ≡ self.now.out }
    {
        &self.queue
    }

    /// Whether the message was taken and not settled since. Takes no memory.
    pub fn is_out(&self, id: MsgId) -> bool
        ensures { result ≡ is_out id self.now.out }
    {
        self.queue.is_out(id)
    }

    /// Whether the call may be made: a settlement only of a message that is out. Takes no memory.
    pub fn may_ask(&self, call: &Call) -> bool
        ensures { result ≡ may_ask self.now call.now }
    {
        match call {
            Call::Write(_) => true,
            Call::Ack(id) => self.is_out(*id),
            Call::Fail(id) => self.is_out(*id),
        }
    }

    /// The effective moment of a call, in milliseconds since 1970. Takes no memory.
    pub fn moment(&self, at: u64) -> u64
        ensures value { result ≡ max (capped_moment at) self.now.greatest }
        ensures effective { IsEffective self.now result }
    {
        at.min(MAX_MOMENT).max(self.greatest)
    }

    /// Raises the greatest moment so far, in milliseconds since 1970. Takes no memory.
    pub fn raise(&mut self, at: u64)
        requires { IsEffective self.old at }
        ensures { self.new ≡ record self.old { greatest = at } }
    {
        self.greatest = at;
    }

    /// The entries of each range, in the order of the ranges. The moment is in milliseconds since 1970. Takes memory for
    /// their list, and copies none of them.
    pub fn find(
        &self,
        alloc: Global,
        ranges: &[ReadRange],
        at: u64,
    ) -> Result<Run<Run<&Entry>>, NoMemory>
        requires unlimited { read_limit ranges.now ≡ None }
        requires effective { IsEffective self.now at }
        ensures { IfOk result (λ found.
            map entries_of found ≡ read_reply self.now.state at ranges.now) }
    {
        find_all(alloc, self.entries.table(), ranges, at)
    }

    /// Copies of the entries of each range, in the order of the ranges. The moment is in milliseconds since 1970. Takes
    /// memory for them.
    pub fn read(
        &self,
        alloc: Global,
        ranges: &[ReadRange],
        at: u64,
    ) -> Result<Run<Run<Entry>>, NoMemory>
        requires unlimited { read_limit ranges.now ≡ None }
        requires effective { IsEffective self.now at }
        ensures { IfOk result (λ answer. answer ≡ read_reply self.now.state at ranges.now) }
    {
        let found = self.find(alloc, ranges, at)?;
        copy_all(alloc, found.as_slice())
    }
}
