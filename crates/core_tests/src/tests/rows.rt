// Tables of steps and of how they go.
use super::asking::answer_to;
use super::parts::parts_of;
use super::plain_list::PlainList;
use dkv_core::Core;
use std::alloc::Global;
use std::process::Abort;
use std::test::Fail;

/// A step's moment, its text, and how it goes.
pub type Row<'a> = (u64, &'a str, &'a str);

fn goes_as(
    rt: &impl Abort,
    alloc: Global,
    core: &mut Core,
    (at, asked, wanted): Row<'_>,
) -> Result<(), Fail> {
    let parts = parts_of(alloc, asked)?;
    let given = answer_to(rt, alloc, core, (2, at), &parts)?;
    assert_eq!(rt; given.as_str(), wanted, "the core, {asked} at {at}");
    Ok(())
}

fn list_goes_as(
    rt: &impl Abort,
    alloc: Global,
    list: &mut PlainList,
    (at, asked, wanted): Row<'_>,
) -> Result<(), Fail> {
    let parts = parts_of(alloc, asked)?;
    let given = list.answer(alloc, (2, at), &parts)?;
    assert_eq!(rt; given.as_str(), wanted, "the plain list, {asked} at {at}");
    Ok(())
}

fn all_go(rt: &impl Abort, alloc: Global, core: &mut Core, rows: &[Row<'_>]) -> Result<(), Fail> {
    for row in rows {
        goes_as(rt, alloc, core, *row)?;
    }
    Ok(())
}

fn both_go(
    rt: &impl Abort,
    alloc: Global,
    core: &mut Core,
    list: &mut PlainList,
    rows: &[Row<'_>],
) -> Result<(), Fail> {
    for row in rows {
        goes_as(rt, alloc, core, *row)?;
        list_goes_as(rt, alloc, list, *row)?;
    }
    Ok(())
}

/// The steps of the core go so, and then it is let go.
pub fn go_on(rt: &impl Abort, alloc: Global, core: Core, rows: &[Row<'_>]) -> Result<(), Fail> {
    let mut core = core;
    all_go(rt, alloc, &mut core, rows)
}

/// From nothing the steps go so, in the core, which is given, and in the plain list.
pub fn go(rt: &impl Abort, alloc: Global, rows: &[Row<'_>]) -> Result<Core, Fail> {
    let mut core = Core::empty(alloc)?;
    let mut list = PlainList::new(alloc);
    both_go(rt, alloc, &mut core, &mut list, rows)?;
    Ok(core)
}
