// Runs of steps with watches among them, in the core and in the plain list.
use super::asking::ask;
use super::drawn::Draws;
use super::parts::{NOTHING, Part, parts_of};
use super::plain_list::PlainList;
use super::telling::say_answer;
use dkv_base::{Answer, Ask, Bytes, Run, Step};
use dkv_core::Core;
use std::alloc::Global;
use std::process::Abort;
use std::test::Fail;

// A step's caller and moment, its text, and how it goes.
type Row<'a> = (u32, u64, &'a str, &'a str);

fn step_of(alloc: Global, (who, at): (u32, u64), parts: &[Part]) -> Result<Step, Fail> {
    let first = parts.first().copied().unwrap_or(NOTHING);
    let ask = ask(alloc, parts, &first)?;
    Ok(Step { who, at, ask })
}

fn run(
    rt: &impl Abort,
    alloc: Global,
    core: &mut Core,
    steps: &[Step],
) -> Result<Run<Answer>, Fail> {
    assert!(rt; core.number() < 1000 && steps.len() < 1000);
    Ok(core.run(alloc, steps)?)
}

// The answer at the place is this one.
fn goes_as(
    rt: &impl Abort,
    alloc: Global,
    answers: &[Answer],
    place: usize,
    wanted: &str,
) -> Result<(), Fail> {
    assert!(rt; place < answers.len());
    let given = say_answer(alloc, &answers[place])?;
    assert_eq!(rt; given.as_str(), wanted, "the core, step {place}");
    Ok(())
}

fn all_go_as(
    rt: &impl Abort,
    alloc: Global,
    answers: &[Answer],
    wanted: &[String],
) -> Result<(), Fail> {
    assert_eq!(rt; answers.len(), wanted.len());
    let mut place = 0usize;
    for text in wanted {
        goes_as(rt, alloc, answers, place, text.as_str())?;
        place = place.saturating_add(1);
    }
    Ok(())
}

// The plain list's answer to a row, which goes behind the others; its step, too.
fn add_row(
    rt: &impl Abort,
    alloc: Global,
    list: &mut PlainList,
    (steps, texts): (&mut Vec<Step>, &mut Vec<String>),
    (who, at, asked, wanted): Row<'_>,
) -> Result<(), Fail> {
    let parts = parts_of(alloc, asked)?;
    let text = list.answer(alloc, (who, at), &parts)?;
    assert_eq!(rt; text.as_str(), wanted, "the plain list, {asked} at {at}");
    texts.push(text)?;
    steps.push(step_of(alloc, (who, at), &parts)?)?;
    Ok(())
}

// From nothing the steps go so, in one run.
fn go(rt: &impl Abort, alloc: Global, rows: &[Row<'_>]) -> Result<(), Fail> {
    let mut list = PlainList::new(alloc);
    let mut steps = Vec::new(alloc);
    let mut texts = Vec::new(alloc);
    for row in rows {
        add_row(rt, alloc, &mut list, (&mut steps, &mut texts), *row)?;
    }
    let mut core = Core::empty(alloc)?;
    let answers = run(rt, alloc, &mut core, &steps)?;
    all_go_as(rt, alloc, answers.as_slice(), &texts)
}

#[test]
fn a_watch_shows_what_changed_since_its_last_frame(rt: HostRuntime) -> Result<(), Fail> {
    let rows: [Row<'_>; 16] = [
        (1, 5, "poll", "no watch"),
        (1, 5, "watch a", "frame, absent"),
        (1, 5, "poll", "no frame"),
        (1, 6, "watch a b", "frame, absent, absent"),
        (2, 6, "set a 7 100; set b 8", "written 1"),
        (1, 6, "poll", "frame, a 7 1, b 8 1"),
        (1, 6, "poll", "no frame"),
        (2, 6, "set c 9", "written 2"),
        (1, 99, "poll", "no frame"),
        (1, 100, "poll", "frame, absent, same"),
        (1, 100, "poll", "no frame"),
        // A key that was set back has changed.
        (2, 100, "set b 9", "written 3"),
        (2, 100, "set b 8", "written 4"),
        (1, 100, "poll", "frame, same, b 8 4"),
        // One that came and went hasn't.
        (2, 100, "set a 1; delete a", "written 5"),
        (1, 100, "poll", "no frame"),
    ];
    go(&rt, rt.alloc(), &rows)
}

#[test]
fn a_caller_has_one_watch_the_newest(rt: HostRuntime) -> Result<(), Fail> {
    let rows: [Row<'_>; 12] = [
        (1, 5, "watch a", "frame, absent"),
        (2, 5, "watch a", "frame, absent"),
        (3, 5, "watch b", "frame, absent"),
        (1, 5, "watch b", "frame, absent"),
        (4, 5, "set a 1", "written 1"),
        (1, 5, "poll", "no frame"),
        (2, 5, "poll", "frame, a 1 1"),
        (3, 5, "poll", "no frame"),
        (4, 5, "set b 1", "written 2"),
        (1, 5, "poll", "frame, b 1 2"),
        (3, 5, "poll", "frame, b 1 2"),
        (4, 5, "poll", "no watch"),
    ];
    go(&rt, rt.alloc(), &rows)
}

#[test]
fn a_refused_watch_leaves_the_one_that_there_is_and_the_moment(
    rt: HostRuntime,
) -> Result<(), Fail> {
    let rows: [Row<'_>; 7] = [
        (1, 5, "set a 7 9", "written 1"),
        (1, 5, "watch a", "frame, a 7 1"),
        (1, 9, "watch", "limit"),
        (2, 9, "poll", "no watch"),
        (1, 5, "poll", "no frame"),
        (1, 9, "poll", "frame, absent"),
        (1, 5, "get a", "found"),
    ];
    go(&rt, rt.alloc(), &rows)
}

// A run leaves nobody's watch to the next.
#[test]
fn a_run_begins_without_watches(rt: HostRuntime) -> Result<(), Fail> {
    let alloc = rt.alloc();
    let mut core = Core::empty(alloc)?;
    for (asked, wanted) in [("watch a", "frame, absent"), ("poll", "no watch")] {
        let parts = parts_of(alloc, asked)?;
        let mut steps = Vec::new(alloc);
        steps.push(step_of(alloc, (1, 5), &parts)?)?;
        let answers = run(&rt, alloc, &mut core, &steps)?;
        goes_as(&rt, alloc, answers.as_slice(), 0, wanted)?;
    }
    Ok(())
}

// A watch of so many keys, each of so many bytes.
fn watch(alloc: Global, count: usize, length: usize) -> Result<Step, Fail> {
    let mut keys = Run::new(alloc);
    for _ in 0..count {
        keys.push(Bytes::of(Vec::from_elem(alloc, 7u8, length)?))?;
    }
    Ok(Step {
        who: 1,
        at: 5,
        ask: Ask::Watch(keys),
    })
}

// Whether a watch of so many keys is answered by a frame.
fn is_begun(rt: &impl Abort, alloc: Global, count: usize, length: usize) -> Result<bool, Fail> {
    let mut core = Core::empty(alloc)?;
    let mut steps = Vec::new(alloc);
    steps.push(watch(alloc, count, length)?)?;
    let answers = run(rt, alloc, &mut core, &steps)?;
    match answers.as_slice().first() {
        Some(Answer::Frame(Some(frame))) => Ok(frame.keys.len() == count),
        _ => Ok(false),
    }
}

#[test]
fn a_watch_has_one_to_ten_keys_that_may_be_keys(rt: HostRuntime) -> Result<(), Fail> {
    let cases = [
        (0, 1, false),
        (1, 1, true),
        (10, 1, true),
        (11, 1, false),
        (1, 0, false),
        (1, 2048, true),
        (1, 2049, false),
    ];
    for (count, length, wanted) in cases {
        let begun = is_begun(&rt, rt.alloc(), count, length)?;
        assert_eq!(rt; begun, wanted, "{count} keys of {length} bytes");
    }
    Ok(())
}

// One step that is drawn, and the plain list's answer to it.
fn draw_one(
    alloc: Global,
    list: &mut PlainList,
    draws: &mut Draws,
    (steps, texts): (&mut Vec<Step>, &mut Vec<String>),
) -> Result<(), Fail> {
    let (who, at) = (draws.caller(), draws.moment());
    let parts = draws.watching_step(alloc, list)?;
    texts.push(list.answer(alloc, (who, at), &parts)?)?;
    steps.push(step_of(alloc, (who, at), &parts)?)?;
    Ok(())
}

fn is_said(texts: &[String], word: &str) -> bool {
    for text in texts {
        if text.as_str().contains(word) {
            return true;
        }
    }
    false
}

#[test]
fn three_hundred_steps_with_watches_by_five_callers_are_those_of_a_plain_list(
    rt: HostRuntime,
) -> Result<(), Fail> {
    let alloc = rt.alloc();
    let mut list = PlainList::new(alloc);
    let mut draws = Draws::new();
    let mut steps = Vec::new(alloc);
    let mut texts = Vec::new(alloc);
    for _ in 0..300 {
        draw_one(alloc, &mut list, &mut draws, (&mut steps, &mut texts))?;
    }
    let mut core = Core::empty(alloc)?;
    let answers = run(&rt, alloc, &mut core, &steps)?;
    all_go_as(&rt, alloc, answers.as_slice(), &texts)?;
    for word in [
        "no watch",
        "no frame",
        "frame, absent",
        ", same",
        "written",
        "leased",
    ] {
        assert!(rt; is_said(&texts, word), "{word}");
    }
    Ok(())
}
