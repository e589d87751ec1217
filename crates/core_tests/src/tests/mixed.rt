// The core beside the plain list, over drawn steps.
use super::asking::answer_to;
use super::drawn::Draws;
use super::parts::{Part, parts_of};
use super::plain_list::PlainList;
use dkv_base::MsgId;
use dkv_core::Core;
use std::alloc::Global;
use std::process::Abort;
use std::test::Fail;

// The core and the list answer the step as one; their answer.
fn answers_agree(
    rt: &impl Abort,
    alloc: Global,
    core: &mut Core,
    list: &mut PlainList,
    (who, at): (u32, u64),
    parts: &[Part],
) -> Result<String, Fail> {
    let wanted = list.answer(alloc, (who, at), parts)?;
    let given = answer_to(rt, alloc, core, (who, at), parts)?;
    assert_eq!(rt; given.as_str(), wanted.as_str(), "{parts:?} at {at}");
    Ok(given)
}

fn outs_agree(rt: &impl Abort, core: &Core, list: &PlainList, commit: u64) {
    for index in 0..3u32 {
        let out = core.is_out(MsgId { commit, index });
        assert_eq!(rt; out, list.is_out((commit, u64::from(index))));
    }
}

// What the core and the list store and have out is the same.
fn states_agree(
    rt: &impl Abort,
    alloc: Global,
    core: &mut Core,
    list: &mut PlainList,
) -> Result<(), Fail> {
    for asked in ["now", "read a z 99"] {
        let parts = parts_of(alloc, asked)?;
        let _same = answers_agree(rt, alloc, core, list, (1, 0), &parts)?;
    }
    for commit in 0..=list.number() {
        outs_agree(rt, core, list, commit);
    }
    Ok(())
}

// A caller, a moment and a step: a write at the moment 5, or any step.
fn drawn(
    alloc: Global,
    list: &PlainList,
    draws: &mut Draws,
    only_writes: bool,
) -> Result<(u32, u64, Vec<Part>), Fail> {
    if only_writes {
        return Ok((1, 5, draws.write(alloc, list, 0)?));
    }
    let (who, at) = (draws.caller(), draws.moment());
    Ok((who, at, draws.step(alloc, list)?))
}

// One step that is drawn; its answer goes behind the others.
fn draw_one(
    rt: &impl Abort,
    alloc: Global,
    core: &mut Core,
    list: &mut PlainList,
    (who, at, parts): (u32, u64, Vec<Part>),
    answers: &mut String,
) -> Result<(), Fail> {
    let answer = answers_agree(rt, alloc, core, list, (who, at), &parts)?;
    answers.push_str(answer.as_str())?;
    Ok(())
}

fn draw_all(
    rt: &impl Abort,
    alloc: Global,
    core: &mut Core,
    list: &mut PlainList,
    answers: &mut String,
    (steps, only_writes): (u32, bool),
) -> Result<(), Fail> {
    let mut draws = Draws::new();
    for _ in 0..steps {
        let step = drawn(alloc, list, &mut draws, only_writes)?;
        draw_one(rt, alloc, core, list, step, answers)?;
        states_agree(rt, alloc, core, list)?;
    }
    Ok(())
}

// The answers to so many steps, after each of which the core and the list agree.
fn drawn_answers(
    rt: &impl Abort,
    alloc: Global,
    steps: u32,
    only_writes: bool,
) -> Result<String, Fail> {
    let mut core = Core::empty(alloc)?;
    let mut list = PlainList::new(alloc);
    let mut answers = String::new(alloc);
    draw_all(
        rt,
        alloc,
        &mut core,
        &mut list,
        &mut answers,
        (steps, only_writes),
    )?;
    Ok(answers)
}

#[test]
fn two_hundred_writes_are_those_of_a_plain_list(rt: HostRuntime) -> Result<(), Fail> {
    let answers = drawn_answers(&rt, rt.alloc(), 200, true)?;
    for kind in ["written", "fails"] {
        assert!(rt; answers.as_str().contains(kind), "{kind}");
    }
    Ok(())
}

#[test]
fn three_hundred_mixed_steps_by_five_callers_are_those_of_a_plain_list(
    rt: HostRuntime,
) -> Result<(), Fail> {
    let answers = drawn_answers(&rt, rt.alloc(), 300, false)?;
    let kinds = [
        "written",
        "fails",
        "no number",
        "leased again",
        "nothing",
        "settled",
        "not out",
        "payload",
    ];
    for kind in kinds {
        assert!(rt; answers.as_str().contains(kind), "{kind}");
    }
    Ok(())
}
