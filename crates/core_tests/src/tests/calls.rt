// The calls of a core beside `run`. With ample memory each gives what it was asked for.
use super::asking::{range, watched, write_of};
use super::parts::make_part;
use super::rows::{Row, go, go_on};
use super::telling::say_entries;
use dkv_atomic::{read_limits, watch_limits};
use dkv_base::{Ask, Call, MsgId, NoMemory, Run, Step};
use dkv_core::{Core, Decided, NextDue, Taken};
use dkv_hub::Watcher;
use std::alloc::Global;
use std::process::Abort;
use std::test::Fail;

const FIRST: MsgId = MsgId {
    commit: 1,
    index: 0,
};

// A key until 100, and a message that is due at 20 and fails twice to no avail.
const WRITTEN: [Row<'static>; 1] = [(
    5,
    "check a 0; set a 7 100; enqueue 70 20; wait 30; keep d",
    "written 1",
)];

const TAKEN: [Row<'static>; 4] = [
    (
        5,
        "check a 0; set a 7 100; enqueue 70 20; wait 30; keep d",
        "written 1",
    ),
    (20, "out 1 0", "out 0"),
    (20, "take", "leased 1 0 70 20 0"),
    (20, "out 1 0", "out 1"),
];

const FAILED: [Row<'static>; 4] = [
    (20, "out 1 0", "out 1"),
    (20, "failed 1 0", "settled 2"),
    (20, "out 1 0", "out 0"),
    (20, "now", "now 2 20 20 1"),
];

const HANDLED: [Row<'static>; 2] = [(0, "out 1 0", "out 0"), (0, "now", "now 2 20 20 0")];

const RAISED: [Row<'static>; 2] = [
    (0, "now", "now 0 0 253370764800000 0"),
    (0, "get a", "found"),
];

const OF_A_STATE: [Row<'static>; 3] = [
    (0, "now", "now 1 5 5 0"),
    (4, "check a 0; set a 7", "written 2"),
    (4, "now", "now 2 5 5 0"),
];

// How it goes on from what was written.
const LATER: [Row<'static>; 14] = [
    (0, "now", "now 1 5 5 1"),
    (0, "get d", "found"),
    (4, "get a", "found, a 7 1"),
    (19, "take", "nothing 20"),
    (20, "take", "leased 1 0 70 20 0"),
    (20, "failed 1 0", "settled 2"),
    (49, "take", "nothing 50"),
    (99, "take", "leased again 1 0 70 50 1"),
    (99, "get a", "found, a 7 1"),
    (100, "failed 1 0", "settled 3"),
    (100, "get a", "found"),
    (100, "get d", "found, d payload 70 3"),
    (100, "take", "nothing"),
    (100, "failed 1 0", "not out"),
];

// A copy of which the tests know nothing more.
fn copy_of(alloc: Global, core: &Core) -> Result<Core, Fail> {
    Ok(core.copy(alloc)?)
}

#[test]
fn a_copy_goes_its_own_way(rt: HostRuntime) -> Result<(), Fail> {
    let alloc = rt.alloc();
    let core = go(&rt, alloc, &WRITTEN)?;
    let copied = copy_of(alloc, &core)?;
    go_on(&rt, alloc, core, &LATER)?;
    go_on(&rt, alloc, copied, &LATER)
}

#[test]
fn a_copy_has_out_what_the_core_has_out(rt: HostRuntime) -> Result<(), Fail> {
    let alloc = rt.alloc();
    let core = go(&rt, alloc, &TAKEN)?;
    let copied = copy_of(alloc, &core)?;
    go_on(&rt, alloc, core, &FAILED)?;
    go_on(&rt, alloc, copied, &FAILED)
}

// The id of the message that is due first at the moment; zeros where none is.
fn due(core: &Core, at: u64) -> (u64, u32) {
    match core.due(at) {
        NextDue::Message(message) => (message.id.commit, message.id.index),
        NextDue::Nothing { next: _next } => (0, 0),
    }
}

// The id of the message that is taken; zeros where none is.
fn take(alloc: Global, core: &mut Core, at: u64) -> Result<(u64, u32), Fail> {
    let at = core.moment(at);
    match core.take(alloc, at)? {
        Taken::Leased(message) => Ok((message.id.commit, message.id.index)),
        Taken::Nothing { next: _next } => Ok((0, 0)),
    }
}

// What is due first at the moment is taken then, and the moment is the greatest.
fn is_taken(
    rt: &impl Abort,
    alloc: Global,
    core: &mut Core,
    at: u64,
    id: (u64, u32),
) -> Result<(), Fail> {
    let first = due(core, at);
    assert_eq!(rt; first, id, "due at {at}");
    let taken = take(alloc, core, at)?;
    assert_eq!(rt; taken, id, "taken at {at}");
    assert_eq!(rt; core.moment(0), at);
    Ok(())
}

#[test]
fn the_message_that_is_due_first_is_taken(rt: HostRuntime) -> Result<(), Fail> {
    let alloc = rt.alloc();
    let mut core = go(&rt, alloc, &WRITTEN)?;
    is_taken(&rt, alloc, &mut core, 19, (0, 0))?;
    is_taken(&rt, alloc, &mut core, 20, (1, 0))
}

// Takes the message that is due first, as a take did that is replayed.
fn lease_first(core: &mut Core, at: u64) -> bool {
    match core.due(at) {
        NextDue::Message(message) => {
            let id = message.id;
            core.lease(id);
            true
        }
        NextDue::Nothing { next: _next } => false,
    }
}

// Makes the commit of what goes, and gives its number; 0 where it doesn't go.
fn handle(rt: &impl Abort, alloc: Global, core: &mut Core, id: MsgId) -> Result<u64, Fail> {
    assert!(rt; core.is_out(id) && core.number() < 1000);
    let at = core.moment(20);
    match core.prepare(alloc, 1, at, &Call::Ack(id))? {
        Decided::Goes(prepared) => Ok(core.apply(prepared)),
        Decided::Limit(_limit) => Ok(0),
        Decided::Fails(_places) => Ok(0),
        Decided::NotU64 { index: _index } => Ok(0),
    }
}

#[test]
fn a_message_that_was_leased_again_is_out_and_can_be_handled(rt: HostRuntime) -> Result<(), Fail> {
    let alloc = rt.alloc();
    let mut core = go(&rt, alloc, &WRITTEN)?;
    assert!(rt; lease_first(&mut core, 20));
    let number = handle(&rt, alloc, &mut core, FIRST)?;
    assert_eq!(rt; number, 2);
    go_on(&rt, alloc, core, &HANDLED)
}

// Prepares a write at the last moment, and lets it go; whether it was to go.
fn let_go(rt: &impl Abort, alloc: Global, core: &mut Core, text: &str) -> Result<bool, Fail> {
    let call = Call::Write(write_of(alloc, text)?);
    assert!(rt; core.number() < 1000);
    let at = core.moment(u64::MAX);
    core.raise(at);
    match core.prepare(alloc, 1, at, &call)? {
        Decided::Goes(prepared) => {
            core.drop_prepared(prepared);
            Ok(true)
        }
        Decided::Limit(_limit) => Ok(false),
        Decided::Fails(_places) => Ok(false),
        Decided::NotU64 { index: _index } => Ok(false),
    }
}

#[test]
fn a_prepared_write_can_be_let_go(rt: HostRuntime) -> Result<(), Fail> {
    let alloc = rt.alloc();
    let mut core = Core::empty(alloc)?;
    let was_to_go = let_go(&rt, alloc, &mut core, "set a 1")?;
    assert!(rt; was_to_go);
    go_on(&rt, alloc, core, &RAISED)
}

// What a read beside the steps finds under the key a.
fn read_beside(rt: &impl Abort, alloc: Global, core: &Core, at: u64) -> Result<String, Fail> {
    let mut ranges = Vec::new(alloc);
    ranges.push(range(alloc, &make_part(b'g', b'a', 0, 0))?)?;
    assert!(rt; read_limits(&ranges).is_none());
    let found = core.read(alloc, &ranges, core.moment(at))?;
    say_entries(alloc, &found)
}

#[test]
fn a_range_is_read_beside_the_steps(rt: HostRuntime) -> Result<(), Fail> {
    let alloc = rt.alloc();
    let core = go(&rt, alloc, &WRITTEN)?;
    let found = read_beside(&rt, alloc, &core, 99)?;
    assert_eq!(rt; found.as_str(), "found, a 7 1");
    let found = read_beside(&rt, alloc, &core, 100)?;
    assert_eq!(rt; found.as_str(), "found");
    Ok(())
}

#[test]
fn a_core_of_a_state_answers_as_the_one_that_came_to_it(rt: HostRuntime) -> Result<(), Fail> {
    let alloc = rt.alloc();
    let core = Core::of(alloc, 1, 5, Run::new(alloc), Run::new(alloc))?;
    go_on(&rt, alloc, core, &OF_A_STATE)
}

// Begins a watch of the key a.
fn watch(rt: &impl Abort, alloc: Global, core: &mut Core) -> Result<Watcher, Fail> {
    let keys = watched(alloc, &make_part(b'w', b'a', 0, 0))?;
    assert!(rt; watch_limits(keys.as_slice()).is_none());
    Ok(core.watch(keys)?)
}

// 1 where there is a frame at the moment, 0 where there is none; and then the greatest moment.
fn poll(
    alloc: Global,
    core: &mut Core,
    watcher: &mut Watcher,
    at: u64,
) -> Result<(u64, u64), NoMemory> {
    let at = core.moment(at);
    let told = core.poll(alloc, watcher, at)?;
    Ok((u64::from(told.is_some()), core.moment(0)))
}

// What polls at these moments give, one after the other.
fn polls(
    rt: &impl Abort,
    alloc: Global,
    core: &mut Core,
    watcher: &mut Watcher,
    wanted: &[(u64, u64)],
) -> Result<(), NoMemory> {
    for (told, at) in wanted {
        let given = poll(alloc, core, watcher, *at)?;
        assert_eq!(rt; given, (*told, *at));
    }
    Ok(())
}

#[test]
fn a_watcher_polls_until_it_leaves(rt: HostRuntime) -> Result<(), Fail> {
    let alloc = rt.alloc();
    let mut core = go(&rt, alloc, &WRITTEN)?;
    let mut watcher = watch(&rt, alloc, &mut core)?;
    let wanted = [(1, 5), (0, 6), (0, 99), (1, 100), (0, 101)];
    let polled = polls(&rt, alloc, &mut core, &mut watcher, &wanted);
    core.unwatch(watcher);
    polled?;
    Ok(())
}

// How many answers a run of these steps gives.
fn answers(
    rt: &impl Abort,
    alloc: Global,
    core: &mut Core,
    steps: &[Step],
) -> Result<usize, NoMemory> {
    assert!(rt; core.number() < 1000 && steps.len() < 1000);
    Ok(core.run(alloc, steps)?.len())
}

#[test]
fn a_watch_goes_on_beside_a_run(rt: HostRuntime) -> Result<(), Fail> {
    let alloc = rt.alloc();
    let mut core = go(&rt, alloc, &WRITTEN)?;
    let mut steps = Vec::new(alloc);
    steps.push(Step {
        who: 1,
        at: 5,
        ask: Ask::Write(write_of(alloc, "set a 8")?),
    })?;
    let mut watcher = watch(&rt, alloc, &mut core)?;
    let first = polls(&rt, alloc, &mut core, &mut watcher, &[(1, 5), (0, 5)]);
    let went = answers(&rt, alloc, &mut core, &steps);
    let then = polls(&rt, alloc, &mut core, &mut watcher, &[(1, 5), (0, 5)]);
    core.unwatch(watcher);
    first?;
    assert_eq!(rt; went?, 1);
    then?;
    Ok(())
}
