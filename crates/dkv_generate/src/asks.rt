// What the steps of a workload ask.
ghost use Rattle.std.specs.Prelude.{◌≡◌, ◌^◌, ◌<◌, [], ◌∷◌, IfOk};
ghost use Rattle.dkv_generate.specs.Steps.{mutation, message, entry, handled};

use dkv_base::{
    Ask, AtomicWrite, Bytes, Enqueue, MsgId, Mutation, NoMemory, ReadRange, Run, Value,
};
use std::alloc::Global;

// A list of one item.
fn only<T: Drop>(alloc: Global, item: T) -> Result<Run<T>, NoMemory>
    ensures { IfOk result (λ run. run ≡ item ∷ []) }
{
    let mut run = Run::new(alloc);
    run.add(item)?;
    Ok(run)
}

/// A write of one mutation of this kind. Takes memory for the list of it, as the others here do.
pub(crate) fn mutation(
    alloc: Global,
    kind: i32,
    key: Bytes,
    bytes: Bytes,
    encoding: i32,
) -> Result<Ask, NoMemory>
    ensures { IfOk result (λ ask. ask ≡ mutation kind key bytes encoding) }
{
    let mutation = Mutation {
        key,
        value: Some(Value { bytes, encoding }),
        kind,
        expire_at_ms: 0,
    };
    Ok(Ask::Write(AtomicWrite {
        checks: Run::new(alloc),
        mutations: only(alloc, mutation)?,
        enqueues: Run::new(alloc),
    }))
}

/// A write of one message, due at this moment in milliseconds since 1970.
pub(crate) fn message(alloc: Global, payload: Bytes, due: u64) -> Result<Ask, NoMemory>
    requires { due < 2 ^ 63 }
    ensures { IfOk result (λ ask. ask ≡ message payload due) }
{
    let enqueue = Enqueue {
        payload,
        deadline_ms: due as i64,
        undelivered: Run::new(alloc),
        backoff: Run::new(alloc),
    };
    Ok(Ask::Write(AtomicWrite {
        checks: Run::new(alloc),
        mutations: Run::new(alloc),
        enqueues: only(alloc, enqueue)?,
    }))
}

/// A read of the entry of this key: the range ends before the next key that there can be.
pub(crate) fn entry(alloc: Global, key: Bytes) -> Result<Ask, NoMemory>
    ensures { IfOk result (λ ask. ask ≡ entry key) }
{
    let end = Bytes::joined(alloc, key.as_slice(), &[0])?;
    let range = ReadRange {
        start: key,
        end,
        limit: 1,
        reverse: false,
    };
    Ok(Ask::Read(only(alloc, range)?))
}

/// That the first message of a commit was handled. Takes no memory.
pub(crate) fn handled(commit: u64) -> Ask
    ensures { result ≡ handled commit }
{
    Ask::Settle {
        id: MsgId { commit, index: 0 },
        done: true,
    }
}
