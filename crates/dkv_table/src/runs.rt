// One run of calls, over any table.
ghost use Rattle.std.specs.Prelude.{◌≡◌, IfOk, OnOk, OnErr};
ghost use Rattle.dkv_table.specs.Runs.{answer_of, after_call, answers, content_after, IsAfterSome};

use crate::{Table, TableAnswer, TableCall, copies};
use dkv_base::{NoMemory, Run, TryCopy};
use std::alloc::Global;

// A call that finds no memory changes nothing.
fn answer<T: Table>(alloc: Global, table: &mut T, call: TableCall) -> Result<TableAnswer, NoMemory>
    ensures answer { IfOk result (λ given. given ≡ answer_of call (T.content table.old)) }
    ensures content { OnOk result (T.content table.new ≡ after_call call (T.content table.old)) }
    ensures err { OnErr result (T.content table.new ≡ T.content table.old) }
{
    match call {
        TableCall::Reserve(n) => {
            table.reserve(n)?;
            Ok(TableAnswer::Reserved)
        }
        TableCall::Get(key) => match table.get(key.as_slice()) {
            Some(entry) => Ok(TableAnswer::Found(Some(entry.copy(alloc)?))),
            None => Ok(TableAnswer::Found(None)),
        },
        TableCall::Put(entry) => {
            table.reserve(1)?;
            Ok(TableAnswer::Was(table.put(entry)))
        }
        TableCall::Remove(key) => Ok(TableAnswer::Was(table.remove(key.as_slice()))),
        TableCall::Walk {
            start,
            end,
            reverse,
        } => {
            let cursor = table.walk(start.as_slice(), end.as_slice(), reverse);
            Ok(TableAnswer::Went(copies(alloc, cursor)?))
        }
        TableCall::Len => Ok(TableAnswer::Counted(table.len())),
    }
}

/// Makes the calls in their order. Before each put it makes room for it. Where memory is wanting, some first calls
/// were made, and no others.
pub fn run_calls<T: Table>(
    alloc: Global,
    table: &mut T,
    calls: Vec<TableCall>,
) -> Result<Run<TableAnswer>, NoMemory>
    ensures answers { IfOk result (λ given. given ≡ answers calls.items (T.content table.old)) }
    ensures content { OnOk result (
        T.content table.new ≡ content_after calls.items (T.content table.old)) }
    ensures err { OnErr result (
        IsAfterSome calls.items (T.content table.old) (T.content table.new)) }
{
    let mut given = Run::new(alloc);
    for call in calls {
        given.add(answer(alloc, table, call)?)?;
    }
    Ok(given)
}
