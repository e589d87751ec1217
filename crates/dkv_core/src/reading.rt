// Ranges of a table.
ghost use Rattle.std.specs.Prelude.{◌≡◌, map, take, IfOk};
ghost use Rattle.dkv_base.specs.Limits.{from_zero};
ghost use Rattle.dkv_base.specs.Replies.{read_range};
ghost use Rattle.dkv_base.specs.State.{visible};
ghost use Rattle.dkv_core.specs.Found.{entries_of};

use dkv_atomic::is_visible;
use dkv_base::{Entry, NoMemory, ReadRange, Run, TryCopy, from_zero};
use dkv_table::{Cursor, Table};
use std::alloc::Global;

// How many entries the range may be answered.
fn most_of(range: &ReadRange) -> usize
    ensures { result ≡ from_zero range.now.limit }
{
    from_zero(i64::from(range.limit)) as usize
}

// The first so many entries of a walk that have not ended at the moment.
fn first_seen<'a>(
    alloc: Global,
    mut cursor: Cursor<'a>,
    most: usize,
    at: u64,
) -> Result<Run<&'a Entry>, NoMemory>
    ensures { IfOk result (λ found. entries_of found ≡ take most (visible at cursor.entry)) }
{
    let mut found = Run::new(alloc);
    while found.len() < most {
        match cursor.next() {
            Some(entry) => {
                if is_visible(entry, at) {
                    found.add(entry)?;
                }
            }
            None => return Ok(found),
        }
    }
    Ok(found)
}

// The first entries of the range that have not ended, up or down. A walk stops at the range's limit.
fn find_one<'a, T: Table>(
    alloc: Global,
    table: &'a T,
    range: &ReadRange,
    at: u64,
) -> Result<Run<&'a Entry>, NoMemory>
    ensures { IfOk result (λ found.
        entries_of found ≡ read_range (visible at (T.content table.now)) range.now) }
{
    let cursor = table.walk(range.start.as_slice(), range.end.as_slice(), range.reverse);
    first_seen(alloc, cursor, most_of(range), at)
}

/// The entries of each range that have not ended at the moment, in the order of the ranges.
pub(crate) fn find_all<'a, T: Table>(
    alloc: Global,
    table: &'a T,
    ranges: &[ReadRange],
    at: u64,
) -> Result<Run<Run<&'a Entry>>, NoMemory>
    ensures { IfOk result (λ found.
        map entries_of found ≡ map (read_range (visible at (T.content table.now))) ranges.now) }
{
    let mut found = Run::new(alloc);
    for range in ranges {
        found.add(find_one(alloc, table, range, at)?)?;
    }
    Ok(found)
}

// Copies of these entries.
fn copies_of(alloc: Global, found: &[&Entry]) -> Result<Run<Entry>, NoMemory>
    ensures { IfOk result (λ entries. entries ≡ entries_of found.now) }
{
    let mut entries = Run::of(Vec::with_capacity(alloc, found.len())?);
    for entry in found {
        entries.add(entry.copy(alloc)?)?;
    }
    Ok(entries)
}

/// Copies of all that was found.
pub(crate) fn copy_all(alloc: Global, found: &[Run<&Entry>]) -> Result<Run<Run<Entry>>, NoMemory>
    ensures { IfOk result (λ entries. entries ≡ map entries_of found.now) }
{
    let mut all = Run::new(alloc);
    for one in found {
        all.add(copies_of(alloc, one.as_slice())?)?;
    }
    Ok(all)
}
