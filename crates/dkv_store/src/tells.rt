// What a store tells of itself.
ghost use Rattle.std.specs.Prelude.{◌≡◌, length};
ghost use Rattle.dkv_base.specs.Messages.{is_out};
ghost use Rattle.dkv_base.specs.State.{visible};
ghost use Rattle.dkv_base.specs.Trails.{weight};
ghost use Rattle.dkv_core.specs.Decisions.{may_ask};
ghost use Rattle.dkv_store.specs.Stores.{effective_at};

use crate::store::Store;
use dkv_atomic::is_visible;
use dkv_base::{Call, MsgId};
use dkv_core::Core;
use dkv_io::Disk;
use dkv_table::Table;

/// Which database it is: its id and its secret, as they stand in both files.
#[derive(Clone, Copy, Debug, PartialEq, Eq)]
pub struct Identity {
    pub id: [u8; 16],
    pub secret: [u8; 32],
}

/// How much there is of a database.
#[derive(Clone, Copy, Debug, PartialEq, Eq)]
pub struct Counts {
    /// The number of the last commit; 0 where there was none.
    pub commits: u64,
    /// How many entries are visible at the greatest moment.
    pub entries: u64,
    /// How many messages wait or are out.
    pub messages: u64,
}

impl<D: Disk> Store<D> {
    /// Which database it is. Takes no memory.
    pub fn identity(&self) -> Identity
        ensures id { result.id ≡ self.now.who.id }
        ensures secret { result.secret ≡ self.now.who.secret }
    {
        Identity {
            id: self.id,
            secret: self.secret,
        }
    }

    /// How much there is. Takes no memory.
    pub fn counts(&self) -> Counts
        ensures commits { result.commits ≡ self.now.core.state.number }
        ensures entries { result.entries
            ≡ length (visible self.now.core.greatest self.now.core.state.entries) }
        ensures messages { result.messages ≡ length self.now.core.state.messages }
    {
        Counts {
            commits: self.core.number(),
            entries: visible_entries(&self.core),
            messages: self.core.queue().len() as u64,
        }
    }

    /// The weight of the term's items, in bytes. Takes no memory.
    pub fn weight(&self) -> u64
        ensures { result ≡ weight self.now.trail }
    {
        self.trail.weight()
    }

    /// The limit of the weight of the term's items, in bytes. Takes no memory.
    pub fn limit(&self) -> u64
        ensures { result ≡ self.now.limit }
    {
        self.limit
    }

    /// How many bytes the records of the used file take, behind its image. Takes no memory.
    pub fn record_bytes(&self) -> u64
        ensures { result ≡ self.now.record_bytes }
    {
        self.record_bytes
    }

    /// The number of the last commit; 0 where there was none. Takes no memory.
    pub fn number(&self) -> u64
        ensures { result ≡ self.now.core.state.number }
    {
        self.core.number()
    }

    /// The effective moment of a call, in milliseconds since 1970. Takes no memory.
    pub fn moment(&self, at: u64) -> u64
        ensures { result ≡ effective_at self.now at }
    {
        self.core.moment(at)
    }

    /// Whether the message was taken and not settled since. Takes no memory.
    pub fn is_out(&self, id: MsgId) -> bool
        ensures { result ≡ is_out id self.now.core.out }
    {
        self.core.is_out(id)
    }

    /// Whether the call may be made: a settlement only of a message that is out. Takes no memory.
    pub fn may_ask(&self, call: &Call) -> bool
        ensures { result ≡ may_ask self.now.core call.now }
    {
        self.core.may_ask(call)
    }
}

// How many entries are visible at the greatest moment.
fn visible_entries(core: &Core) -> u64
    ensures { result ≡ length (visible core.now.greatest core.now.state.entries) }
{
    let at = core.moment(0);
    let table = core.table();
    let all = table.len();
    let mut cursor = table.all();
    let mut count = 0;
    while let Some(entry) = cursor.next() {
        if is_visible(entry, at) {
            prove!(count < all);
            count += 1;
        }
    }
    count as u64
}
