// Commits over a disk that fails, what it holds then, and messages that are taken and settled.
ghost use Rattle.std.specs.Prelude.{◌≡◌, ◌≤◌, IsTrue, IfOk, None, ⊤};
ghost use Rattle.dkv_base.specs.declared.types.Profile.TheVariants.{Narrow};
ghost use Rattle.dkv_base.specs.Profiles.{body_most};
ghost use Rattle.dkv_base.specs.Spelling.{record_length};
ghost use Rattle.dkv_core.specs.Decisions.{commit_of};

use dkv_atomic::read_limits;
use dkv_base::limits::MAX_RECORD_BYTES;
use dkv_base::{Bytes, Call, Commit, MsgId, NoMemory, ReadRange, TryCopy};
use dkv_core::Taken;
use dkv_files::Pair;
use dkv_io::{Disk, Failed, MemoryDisk};
use dkv_journal::Journal;
use dkv_msgs::read_atomic_write;
use dkv_record::write_commit;
use dkv_store::{Done, Refusal, Store};
use std::alloc::Global;
use std::test::Fail;

// ---- a disk in memory that tells nothing, so that a store may begin on it

#[derive(Drop)]
pub(crate) struct Quiet {
    disk: MemoryDisk,
}

impl Disk for Quiet {
    ghost seen = { λ _. None };

    ghost may_leave = { λ _ _. ⊤ };

    ghost moment = { λ _. 0 };

    ghost left_since = { λ _ _ _. ⊤ };

    ghost faults = { λ q. q.disk.plan.faults };

    ghost reads_as = { λ _ _ _. tt };

    ghost short = { λ _. tt };

    ghost counts_now = { λ _ _ _ _ _. tt };

    ghost only_now = { λ _ _ _. tt };

    fn len(&mut self) -> Result<u64, Failed> {
        self.disk.len()
    }

    fn read(&mut self, at: u64, into: &mut [u8]) -> Result<usize, Failed> {
        self.disk.read(at, into)
    }

    // What is written past the end joins it.
    fn write_at(&mut self, at: u64, bytes: &[u8]) -> Result<(), Failed> {
        let at = at.min(self.disk.bytes().len() as u64);
        self.disk.write_at(at, bytes)
    }

    fn cut(&mut self, len: u64) -> Result<(), Failed> {
        let len = len.min(self.disk.bytes().len() as u64);
        self.disk.cut(len)
    }

    fn sync(&mut self) -> Result<(), Failed> {
        self.disk.sync()
    }
}

// A file of 113 zeros that fails at these calls.
pub(crate) fn file(alloc: Global, fails: &[u64]) -> Result<Quiet, NoMemory> {
    let mut bytes = Vec::new(alloc);
    bytes.resize(113, 0)?;
    let disk = MemoryDisk::new(alloc, bytes, fails.to_vec(alloc)?);
    Ok(Quiet { disk })
}

// A new database, whose file a fails at these calls.
pub(crate) fn store(alloc: Global, fails: &[u64]) -> Result<Store<Quiet>, NoMemory> {
    let pair = Pair {
        a: file(alloc, fails)?,
        b: file(alloc, &[])?,
    };
    match Store::fresh(alloc, pair, 1_000_000) {
        Ok(store) => Ok(store),
        Err((_pair, none)) => Err(none),
    }
}

// ---- calls where they may be made

// Whether the commit of the call has a record that may be written.
fn is_short(alloc: Global, who: u32, at: u64, call: &Call) -> bool
    ensures { IsTrue result → record_length (commit_of who at call.now) ≤ body_most Narrow }
{
    let Ok(copy) = copy_of(alloc, call) else {
        return false;
    };
    match write_commit(alloc, &commit_for(who, at, copy)) {
        Ok(body) => body.as_slice().len() <= MAX_RECORD_BYTES,
        Err(NoMemory) => false,
    }
}

fn commit_for(who: u32, at: u64, call: Call) -> Commit
    ensures { result ≡ commit_of who at call }
{
    match call {
        Call::Write(write) => Commit::Wrote { who, at, write },
        Call::Ack(id) => Commit::Acked { who, at, id },
        Call::Fail(id) => Commit::Failed { who, at, id },
    }
}

fn copy_of(alloc: Global, call: &Call) -> Result<Call, NoMemory>
    ensures { IfOk result (λ c. c ≡ call.now) }
{
    match call {
        Call::Write(write) => Ok(Call::Write(write.copy(alloc)?)),
        Call::Ack(id) => Ok(Call::Ack(*id)),
        Call::Fail(id) => Ok(Call::Fail(*id)),
    }
}

// What a commit came to: its number, or 0 for another answer; and a disk's fault, or want of memory.
pub(crate) fn commit(
    store: &mut Store<Quiet>,
    alloc: Global,
    at: u64,
    call: Call,
) -> Result<u64, Refusal> {
    let may = store.may_ask(&call) && store.number() < 1_000;
    if !may || !is_short(alloc, 1, store.moment(at), &call) {
        return Ok(0);
    }
    match store.commit(alloc, 1, at, call)? {
        Done::Committed { n } => Ok(n),
        _ => Ok(0),
    }
}

// A write that sets the key of the text `a`, and adds a message that is due at moment 5 and may fail once.
const WRITE: &[u8] = b"\x12\x0e\x0a\x03\x02a\x00\x12\x05\x0a\x01x\x10\x03\x18\x01\
    \x1a\x08\x0a\x01m\x10\x05\x22\x01\x01";

pub(crate) fn write(alloc: Global) -> Result<Call, NoMemory> {
    match read_atomic_write(alloc, WRITE) {
        Ok(write) => Ok(Call::Write(write)),
        Err(_) => Err(NoMemory),
    }
}

// How many records the file has.
fn records(alloc: Global, store: Store<Quiet>) -> usize {
    let mut pair = store.close();
    match Journal::scan(alloc, &mut pair.a, 112) {
        Ok((bodies, _journal)) => bodies.len(),
        Err(_) => 0,
    }
}

// ---- faults

// Writes at so many moments, each in turn; those that fail are let be.
fn write_often(store: &mut Store<Quiet>, alloc: Global, times: u64) -> Result<(), NoMemory> {
    for at in 0..times {
        let call = write(alloc)?;
        let _answer = commit(store, alloc, at, call);
    }
    Ok(())
}

// The number of the last of so many writes where this disk call fails, what the items weigh, and how many records there are.
fn numbers(alloc: Global, fails: u64, times: u64) -> Result<(u64, u64, usize), NoMemory> {
    let mut store = store(alloc, &[fails])?;
    write_often(&mut store, alloc, times)?;
    let told = (store.number(), store.weight());
    Ok((told.0, told.1, records(alloc, store)))
}

// A commit has four disk calls, so the third has those from 8 to 11. A write weighs 64 and the 39 bytes of its body: a head of
// 13, a mutation of 16 and a message of 10. A doubt weighs 64.
#[test]
fn a_fault_in_each_disk_call_of_a_third_commit_leaves_two_or_three(
    rt: HostRuntime,
) -> Result<(), Fail> {
    let rows = [(8, 2), (9, 2), (10, 2), (11, 3)];
    for (fails, left) in rows {
        assert_eq!(rt; numbers(rt.alloc(), fails, 3)?, (2, 270, left));
    }
    Ok(())
}

// What is in doubt is mended, and the next write is the third commit.
#[test]
fn after_a_fault_the_next_write_is_the_third(rt: HostRuntime) -> Result<(), Fail> {
    for fails in 8..12 {
        assert_eq!(rt; numbers(rt.alloc(), fails, 4)?, (3, 373, 3));
    }
    Ok(())
}

// ---- messages

pub(crate) const FIRST: MsgId = MsgId {
    commit: 1,
    index: 0,
};

// Whether the first message is given at the moment.
pub(crate) fn takes(store: &mut Store<Quiet>, alloc: Global, at: u64) -> Result<bool, Refusal> {
    match store.take(alloc, 1, at)? {
        Taken::Leased(message) => Ok(message.id == FIRST),
        Taken::Nothing { next: _ } => Ok(false),
    }
}

// The first message is taken and settled. Whether it could be taken before it was due and then, the number of its settlement,
// and how many messages there are.
fn settles(alloc: Global, call: Call) -> Result<(bool, bool, u64, u64), Refusal> {
    let mut store = store(alloc, &[])?;
    write_often(&mut store, alloc, 1)?;
    let early = takes(&mut store, alloc, 4)?;
    let then = takes(&mut store, alloc, 5)?;
    let number = commit(&mut store, alloc, 6, call)?;
    Ok((early, then, number, store.counts().messages))
}

#[test]
fn a_message_is_acknowledged(rt: HostRuntime) -> Result<(), Fail> {
    assert_eq!(rt; settles(rt.alloc(), Call::Ack(FIRST))?, (false, true, 2, 0));
    Ok(())
}

#[test]
fn a_message_fails(rt: HostRuntime) -> Result<(), Fail> {
    assert_eq!(rt;
        settles(rt.alloc(), Call::Fail(FIRST))?,
        (false, true, 2, 1)
    );
    Ok(())
}

// ---- reads, and what a store tells

// One key of two; as entries, and spelled: one range of one entry, strongly consistent, with status 1.
#[test]
fn a_read_finds_what_was_written(rt: HostRuntime) -> Result<(), Fail> {
    assert_eq!(rt; found(rt.alloc())?, (1, 30));
    Ok(())
}

// How many ranges a read of one gives, and the length of the reply.
fn found(alloc: Global) -> Result<(usize, usize), NoMemory> {
    let mut store = store(alloc, &[])?;
    write_often(&mut store, alloc, 1)?;
    let ranges = [ReadRange {
        start: Bytes::copy_of(alloc, b"\x02a\x00")?,
        end: Bytes::copy_of(alloc, b"\x02b\x00")?,
        limit: 1,
        reverse: false,
    }];
    if read_limits(&ranges).is_some() {
        return Ok((0, 0));
    }
    let entries = store.read(alloc, 2, &ranges)?;
    let reply = store.spell_read(alloc, 2, &ranges)?;
    Ok((entries.as_slice().len(), reply.as_slice().len()))
}

// The counts, the secret's length, and how many items the trail has at its end.
fn told(alloc: Global) -> Result<(u64, u64, u64, usize), NoMemory> {
    let mut store = store(alloc, &[])?;
    write_often(&mut store, alloc, 2)?;
    let told = store.counts();
    let (_pair, items) = store.end();
    Ok((
        told.commits,
        told.entries,
        told.messages,
        items.as_slice().len(),
    ))
}

#[test]
fn a_store_tells_how_much_there_is(rt: HostRuntime) -> Result<(), Fail> {
    assert_eq!(rt; told(rt.alloc())?, (2, 1, 2, 2));
    Ok(())
}
