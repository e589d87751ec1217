// A further term: what is out is forgotten, and the items begin anew.
ghost use Rattle.std.specs.Prelude.{◌≡◌, ◌≤◌, ◌<◌, ◌^◌, [], ◌∷◌, IsTrue, IfOk, IfErr, OnOk, OnErr, IfSome, IfNone, Some};
ghost use Rattle.dkv_base.specs.Sound.{IsSound};
ghost use Rattle.dkv_base.specs.State.{is_in_id_order};
ghost use Rattle.dkv_image_io.specs.Walks.{later};
ghost use Rattle.dkv_queue.specs.Rows.{messages_of};
ghost use Rattle.dkv_store.specs.Renewing.{IsRenewed, IsNextTerm, IsNoTerm};
ghost use Rattle.dkv_store.specs.Terms.{Leads};
ghost use Rattle.dkv_store.specs.declared.trail.TheConstants.{MAX_TRAIL_BYTES};

use crate::recall::Recall;
use crate::store::Store;
use crate::trail::Trail;
use dkv_base::{Entry, Item, Message, MsgId, NoMemory, Run, TryCopy};
use dkv_core::Core;
use dkv_io::Disk;
use dkv_queue::Queue;
use dkv_table::Table;
use std::alloc::Global;
use std::mem;
use thiserror::Error;

/// No term begins where the last commit has this number, or one above it.
pub const WORN: u64 = 1 << 62;

/// Why no further term began.
#[derive(Clone, Copy, Debug, Error, PartialEq, Eq)]
pub enum TermRefusal {
    /// The last commit has this number, from which on no term begins.
    #[error("worn at {n}")]
    Worn { n: u64 },
    /// The allocator had no room.
    #[error("no memory")]
    NoMemory,
}

impl<D: Disk> Store<D> {
    /// Begins a further term on the state as it stands, and gives the items of the one that ends and the store. What is out is
    /// forgotten, and the greatest moment is the last commit's. `trail_limit` bounds the weight of the new term's items, in bytes.
    /// Touches no disk. Takes memory for a copy of the state. A store that begins no term comes back as it was.
    pub fn next_term(
        self,
        alloc: Global,
        trail_limit: u64,
    ) -> Result<(Store<D>, Run<Item>), (TermRefusal, Store<D>)>
        requires limit { trail_limit ≤ MAX_TRAIL_BYTES }
        ensures begun { IfOk result (λ r. IsNextTerm self trail_limit r.0) }
        ensures items { IfOk result (λ r. r.1 ≡ self.trail) }
        ensures refused { IfErr result (λ e. IsNoTerm self e.0) }
        ensures same { IfErr result (λ e. e.1 ≡ self) }
        ensures goes { IfOk result (λ r.
            Leads D.seen D.may_leave D.moment D.left_since [] self r.0) }
    {
        let mut store = self;
        match store.start_term(alloc, trail_limit) {
            Ok(items) => Ok((store, items)),
            Err(refusal) => Err((refusal, store)),
        }
    }

    /// Begins a further term as `next_term` does, in place, and gives the items of the one that ends.
    pub fn start_term(&mut self, alloc: Global, trail_limit: u64) -> Result<Run<Item>, TermRefusal>
        ensures begun { OnOk result (IsNextTerm self.old trail_limit self.new) }
        ensures items { IfOk result (λ items. items ≡ self.old.trail) }
        ensures refused { IfErr result (IsNoTerm self.old) }
        ensures same { OnErr result (self.new ≡ self.old) }
        // Stopped at any moment, the files recover to a state of the run.
        ensures goes { OnOk result
            (Leads D.seen D.may_leave D.moment D.left_since [] self.old self.new) }
    {
        self.is_sound();
        let n = self.core.number();
        if n >= WORN {
            return Err(TermRefusal::Worn { n });
        }
        match renewed(alloc, &self.core) {
            Ok(core) => Ok(self.go_on(alloc, core, trail_limit)),
            Err(NoMemory) => Err(TermRefusal::NoMemory),
        }
    }

    // Its state is one that an image may hold.
    fn is_sound(&self)
        ensures { IsSound self.now.core.state }
    {
        let _ = &self.core;
    }

    // A term begins on a core of the same state.
    fn go_on(&mut self, alloc: Global, core: Core, limit: u64) -> Run<Item>
        requires few { self.old.core.state.number < 2 ^ 62 }
        requires renewed { IsRenewed self.old.core core }
        ensures begun { IsNextTerm self.old limit self.new }
        ensures items { result ≡ self.old.trail }
    {
        self.base = Recall::of(&core);
        self.first = Recall::of(&self.files);
        self.core = core;
        self.limit = limit;
        mem::replace(&mut self.trail, Trail::new(alloc)).into_run()
    }
}

// A core of the same state in which nothing is out.
fn renewed(alloc: Global, core: &Core) -> Result<Core, NoMemory>
    requires sound { IsSound core.now.state }
    requires few { core.now.state.number < 2 ^ 62 }
    ensures { IfOk result (IsRenewed core.now) }
{
    let entries = entries_of(alloc, core)?;
    let messages = messages_of(alloc, core.queue())?;
    Core::of(alloc, core.number(), core.now(), entries, messages)
}

// Copies of all entries.
fn entries_of(alloc: Global, core: &Core) -> Result<Run<Entry>, NoMemory>
    ensures { IfOk result (λ entries. entries ≡ core.now.state.entries) }
{
    let mut entries = Run::new(alloc);
    let mut cursor = core.table().all();
    while let Some(entry) = cursor.next() {
        entries.add(entry.copy(alloc)?)?;
    }
    Ok(entries)
}

// The message behind the last one in the order of ids, or the first of all.
fn message_behind(queue: &Queue, last: Option<MsgId>) -> Option<&Message>
    requires { IsTrue (is_in_id_order (messages_of queue.now.rows)) }
    ensures first { IfSome result (λ message. later last (messages_of queue.now.rows)
        ≡ message.now ∷ later (Some message.now.id) (messages_of queue.now.rows)) }
    ensures ended { IfNone result (later last (messages_of queue.now.rows) ≡ []) }
{
    let message = queue.above(last)?;
    Some(message)
}

// Copies of all messages.
fn messages_of(alloc: Global, queue: &Queue) -> Result<Run<Message>, NoMemory>
    requires { IsTrue (is_in_id_order (messages_of queue.now.rows)) }
    ensures { IfOk result (λ messages. messages ≡ messages_of queue.now.rows) }
{
    let mut messages = Run::new(alloc);
    let mut last = None;
    while let Some(message) = message_behind(queue, last) {
        last = Some(message.id);
        messages.add(message.copy(alloc)?)?;
    }
    Ok(messages)
}
