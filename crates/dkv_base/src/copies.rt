// Copies, which take memory.
ghost use Rattle.std.specs.Prelude.{◌≡◌, IfOk};

use crate::{
    AtomicWrite, Bytes, Check, Commit, Enqueue, Entry, Item, Message, MsgId, Mutation, NoMemory,
    ReadRange, Run, Value,
};
use std::alloc::Global;

/// What can be copied where there is memory for it.
pub trait TryCopy: Sized {
    /// An equal value. Takes memory for each list in it.
    fn copy(&self, alloc: Global) -> Result<Self, NoMemory>
        ensures { IfOk result (λ c. c ≡ self.now) };
}

impl TryCopy for u32 {
    fn copy(&self, _alloc: Global) -> Result<u32, NoMemory> {
        Ok(*self)
    }
}

impl TryCopy for MsgId {
    fn copy(&self, _alloc: Global) -> Result<MsgId, NoMemory> {
        Ok(*self)
    }
}

impl TryCopy for Bytes {
    fn copy(&self, alloc: Global) -> Result<Bytes, NoMemory> {
        Bytes::copy_of(alloc, self.as_slice())
    }
}

impl<T: TryCopy + Drop> TryCopy for Run<T> {
    fn copy(&self, alloc: Global) -> Result<Run<T>, NoMemory> {
        let items = self.as_slice();
        let mut copies = Run::new(alloc);
        for item in items {
            copies.add(item.copy(alloc)?)?;
        }
        Ok(copies)
    }
}

impl<T: TryCopy> TryCopy for Option<T> {
    fn copy(&self, alloc: Global) -> Result<Option<T>, NoMemory> {
        match self {
            Some(value) => Ok(Some(value.copy(alloc)?)),
            None => Ok(None),
        }
    }
}

impl TryCopy for ReadRange {
    fn copy(&self, alloc: Global) -> Result<ReadRange, NoMemory> {
        Ok(ReadRange {
            start: self.start.copy(alloc)?,
            end: self.end.copy(alloc)?,
            limit: self.limit,
            reverse: self.reverse,
        })
    }
}

impl TryCopy for Check {
    fn copy(&self, alloc: Global) -> Result<Check, NoMemory> {
        Ok(Check {
            key: self.key.copy(alloc)?,
            versionstamp: self.versionstamp.copy(alloc)?,
        })
    }
}

impl TryCopy for Value {
    fn copy(&self, alloc: Global) -> Result<Value, NoMemory> {
        Ok(Value {
            bytes: self.bytes.copy(alloc)?,
            encoding: self.encoding,
        })
    }
}

impl TryCopy for Mutation {
    fn copy(&self, alloc: Global) -> Result<Mutation, NoMemory> {
        Ok(Mutation {
            key: self.key.copy(alloc)?,
            value: self.value.copy(alloc)?,
            kind: self.kind,
            expire_at_ms: self.expire_at_ms,
        })
    }
}

impl TryCopy for Enqueue {
    fn copy(&self, alloc: Global) -> Result<Enqueue, NoMemory> {
        Ok(Enqueue {
            payload: self.payload.copy(alloc)?,
            deadline_ms: self.deadline_ms,
            undelivered: self.undelivered.copy(alloc)?,
            backoff: self.backoff.copy(alloc)?,
        })
    }
}

impl TryCopy for AtomicWrite {
    fn copy(&self, alloc: Global) -> Result<AtomicWrite, NoMemory> {
        Ok(AtomicWrite {
            checks: self.checks.copy(alloc)?,
            mutations: self.mutations.copy(alloc)?,
            enqueues: self.enqueues.copy(alloc)?,
        })
    }
}

impl TryCopy for Entry {
    fn copy(&self, alloc: Global) -> Result<Entry, NoMemory> {
        Ok(Entry {
            key: self.key.copy(alloc)?,
            bytes: self.bytes.copy(alloc)?,
            encoding: self.encoding,
            commit: self.commit,
            expire: self.expire,
        })
    }
}

impl TryCopy for Message {
    fn copy(&self, alloc: Global) -> Result<Message, NoMemory> {
        Ok(Message {
            id: self.id,
            payload: self.payload.copy(alloc)?,
            due: self.due,
            fails: self.fails,
            undelivered: self.undelivered.copy(alloc)?,
            backoff: self.backoff.copy(alloc)?,
        })
    }
}

impl TryCopy for Commit {
    fn copy(&self, alloc: Global) -> Result<Commit, NoMemory> {
        match self {
            Commit::Wrote { who, at, write } => {
                let write = write.copy(alloc)?;
                Ok(Commit::Wrote {
                    who: *who,
                    at: *at,
                    write,
                })
            }
            Commit::Acked { who, at, id } => Ok(Commit::Acked {
                who: *who,
                at: *at,
                id: *id,
            }),
            Commit::Failed { who, at, id } => Ok(Commit::Failed {
                who: *who,
                at: *at,
                id: *id,
            }),
        }
    }
}

impl TryCopy for Item {
    fn copy(&self, alloc: Global) -> Result<Item, NoMemory> {
        match self {
            Item::Made(commit) => Ok(Item::Made(commit.copy(alloc)?)),
            Item::Took { who, at, id } => Ok(Item::Took {
                who: *who,
                at: *at,
                id: *id,
            }),
            Item::Doubt { who, at } => Ok(Item::Doubt { who: *who, at: *at }),
            Item::Stop { who, at, last } => Ok(Item::Stop {
                who: *who,
                at: *at,
                last: *last,
            }),
        }
    }
}
