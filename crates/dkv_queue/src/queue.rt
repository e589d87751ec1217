// The queue: its rows by id, and the moments of those that wait, in two indexes.
ghost use Rattle.std.specs.Prelude.{◌≡◌, ◌+◌, ◌<◌, ◌≤◌, [], length, IsTrue, IfOk, OnOk, OnErr, None, option_map};
ghost use Rattle.std.specs.Option.{option_copied};
ghost use Rattle.std.specs.List.{list_all};
ghost use Rattle.dkv_base.specs.State.{is_in_id_order};
ghost use Rattle.dkv_base.specs.Moments.{capped_moment};
ghost use Rattle.dkv_queue.specs.Rows.{messages_of, message_at, row_at, is_row_out, waits, next_row, added, handed_out, rows_without, failed, has_schedule};
ghost use Rattle.dkv_queue.specs.Answers.{IsDue, IsRetry};

use crate::failing::fail;
use crate::moment::DueAt;
use crate::{Due, Retry, Row};
use dkv_base::{MAX_MOMENT, Message, MsgId, NoMemory};
use dkv_index::Index;
use std::alloc::Global;
use std::marker::Model;

/// The messages that wait for delivery or are out. Contracts see the list `rows` in rising order of ids and the number
/// `spare` of messages that find room without memory.
#[derive(Drop)]
pub struct Queue {
    rows: Index<Row>,
    // Of the rows that aren't out.
    due: Index<DueAt>,
    // How many rows are out. Each finds room in `due` again.
    outs: usize,
    // How many more messages find room in both.
    room: usize,
}

impl Model for Queue {
    ghost use Rattle.dkv_queue.specs.Rows.{Rows};
    ghost use Rattle.dkv_queue.specs.Kept.{IsKept};

    ghost Value = { Rows };

    ghost view = { λ q. record { rows = q.rows.items; spare = q.room } };

    ghost invariant = { λ q. IsKept q.rows q.due q.outs q.room };
}

impl Queue {
    /// Holds nothing, and takes no memory. The allocator is the one that `reserve` takes memory from.
    pub fn new(alloc: Global) -> Queue
        ensures rows { result.rows ≡ [] }
        ensures spare { result.spare ≡ 0 }
    {
        Queue {
            rows: Index::new(alloc),
            due: Index::new(alloc),
            outs: 0,
            room: 0,
        }
    }

    /// Makes room for `n` more messages. Takes memory only where there is less.
    pub fn reserve(&mut self, n: usize) -> Result<(), NoMemory>
        ensures room { OnOk result (n ≤ self.new.spare) }
        ensures full { OnErr result (self.old.spare < n) }
        ensures rows { self.new.rows ≡ self.old.rows }
        ensures kept { self.old.spare ≤ self.new.spare }
    {
        if n <= self.room {
            return Ok(());
        }
        let due = n.checked_add(self.outs).ok_or(NoMemory)?;
        self.rows.reserve(n)?;
        self.due.reserve(due)?;
        self.room = n;
        Ok(())
    }

    /// Adds a message, which waits. Takes no memory.
    pub fn add(&mut self, message: Message)
        requires room { 1 ≤ self.old.spare }
        requires absent { row_at message.id self.old.rows ≡ None }
        requires schedule { IsTrue (has_schedule message) }
        ensures rows { self.new.rows ≡ added message self.old.rows }
        ensures kept { self.old.spare ≤ self.new.spare + 1 }
    {
        let _ = self.due.put(DueAt {
            due: message.due,
            id: message.id,
        });
        let _ = self.rows.put(Row {
            message,
            out: false,
        });
        self.room -= 1;
    }

    /// The message that is due first at `at`, in milliseconds since 1970, or when one will be. Takes no memory.
    pub fn next_due(&self, at: u64) -> Due
        ensures { IsDue at self.now.rows result }
    {
        match self.due.first() {
            Some(first) => {
                if first.due <= at {
                    Due::Now(first.id)
                } else {
                    Due::Nothing {
                        next: Some(first.due),
                    }
                }
            }
            None => Due::Nothing { next: None },
        }
    }

    /// Marks the message as out. Takes no memory.
    pub fn take(&mut self, id: MsgId)
        requires { IsTrue (waits id self.old.rows) }
        ensures rows { self.new.rows ≡ handed_out id self.old.rows }
        ensures kept { self.old.spare ≤ self.new.spare }
    {
        match self.rows.take(&id) {
            Some(row) => {
                let _ = self.due.take(&DueAt {
                    due: row.message.due,
                    id,
                });
                let _ = self.rows.put(Row {
                    message: row.message,
                    out: true,
                });
                let held = self.rows.len();
                prove!(self.outs < held);
                self.outs += 1;
            }
            None => unreachable!(),
        }
    }

    /// Takes away a message that was handled. Takes no memory.
    pub fn settle(&mut self, id: MsgId)
        requires { IsTrue (is_row_out id self.old.rows) }
        ensures rows { self.new.rows ≡ rows_without id self.old.rows }
        ensures kept { self.old.spare ≤ self.new.spare }
    {
        let _ = self.rows.take(&id);
        self.outs -= 1;
    }

    /// Puts back a message that failed at `at`, in milliseconds since 1970, or takes it away after its last failure. Takes
    /// no memory.
    pub fn retry(&mut self, id: MsgId, at: u64) -> Retry
        requires { IsTrue (is_row_out id self.old.rows) }
        ensures rows { self.new.rows ≡ failed id (capped_moment at) self.old.rows }
        ensures kept { self.old.spare ≤ self.new.spare }
        ensures answer { IsRetry id self.old.rows self.new.rows result }
    {
        match self.rows.take(&id) {
            Some(row) => {
                self.outs -= 1;
                match fail(row.message, at.min(MAX_MOMENT)) {
                    Ok(message) => {
                        let due = message.due;
                        let _ = self.due.put(DueAt { due, id });
                        let _ = self.rows.put(Row {
                            message,
                            out: false,
                        });
                        Retry::Again { due }
                    }
                    Err(message) => Retry::Exhausted(message),
                }
            }
            None => unreachable!(),
        }
    }

    /// The message of the id. Takes no memory.
    pub fn get(&self, id: MsgId) -> Option<&Message>
        ensures message { option_copied result ≡ message_at id self.now.rows }
        ensures order { IsTrue (is_in_id_order (messages_of self.now.rows)) }
        ensures schedules { IsTrue (list_all has_schedule (messages_of self.now.rows)) }
    {
        match self.rows.get(&id) {
            Some(row) => Some(&row.message),
            None => None,
        }
    }

    /// Whether the message of the id is out. Takes no memory.
    pub fn is_out(&self, id: MsgId) -> bool
        ensures { result ≡ is_row_out id self.now.rows }
    {
        match self.rows.get(&id) {
            Some(row) => row.out,
            None => false,
        }
    }

    /// The first message above the id, or the first of all. Takes no memory.
    pub fn above(&self, id: Option<MsgId>) -> Option<&Message>
        ensures { option_copied result ≡ option_map (λ r. r.message) (next_row id self.now.rows) }
    {
        let row = match id {
            Some(id) => self.rows.above(&id)?,
            None => self.rows.first()?,
        };
        Some(&row.message)
    }

    /// The number of messages.
    pub fn len(&self) -> usize
        ensures { result ≡ length self.now.rows }
    {
        self.rows.len()
    }

    /// An equal queue, but for its room. Takes memory for it.
    pub fn copy(&self, alloc: Global) -> Result<Queue, NoMemory>
        ensures { IfOk result (λ q. q.rows ≡ self.now.rows) }
    {
        let rows = self.rows.copy(alloc)?;
        let mut due = self.due.copy(alloc)?;
        due.reserve(self.outs)?;
        Ok(Queue {
            rows,
            due,
            outs: self.outs,
            room: 0,
        })
    }
}
