// The frames of one group of a workload.
ghost use Rattle.std.specs.Prelude.{◌≡◌, ◌<◌, ◌++◌, flat_map, OnOk};
ghost use Rattle.dkv_generate.specs.Frames.{IsShort, frame_bytes};
ghost use Rattle.dkv_generate.specs.declared.sizes.TheConstants.{GROUPS, GROUP_NUMBERS};
ghost use Rattle.dkv_generate.specs.Numbers.{number_after};
ghost use Rattle.dkv_generate.specs.Keys.{item_key};
ghost use Rattle.dkv_generate.specs.Steps.{step, item_step, sum_step, entry, message_step, group_steps};

use crate::asks::{entry, handled, message, mutation};
use crate::frames::put_frame;
use crate::keys::{item_key, sum_key};
use crate::numbers::Numbers;
use crate::sizes::{CALLERS, FIRST_MOMENT, GROUP_COMMITS, MESSAGE_NUMBERS, VALUE_NUMBERS};
use dkv_base::encodings::{BYTES, LE64};
use dkv_base::kinds::{SET, SUM};
use dkv_base::{Ask, Bytes, NoMemory, Step};
use std::alloc::Global;

// What a group asks, by its caller at its moment.
fn put_step(alloc: Global, out: &mut Vec<u8>, group: u64, ask: Ask) -> Result<(), NoMemory>
    requires group { group < GROUPS }
    requires short { IsShort ask }
    ensures { OnOk result (out.new.items ≡ out.old.items ++ frame_bytes (step group ask)) }
{
    let step = Step {
        who: (1 + group % CALLERS) as u32,
        at: FIRST_MOMENT + group,
        ask,
    };
    put_frame(alloc, out, step)
}

// An item is set.
fn put_item(
    alloc: Global,
    out: &mut Vec<u8>,
    group: u64,
    numbers: &mut Numbers,
) -> Result<(), NoMemory>
    requires { group < GROUPS }
    ensures bytes { OnOk result (out.new.items ≡ out.old.items
        ++ frame_bytes (item_step group numbers.old.last)) }
    ensures last { OnOk result
        (numbers.new.last ≡ number_after VALUE_NUMBERS numbers.old.last) }
{
    let key = item_key(alloc, group)?;
    let value = numbers.take(alloc, VALUE_NUMBERS)?;
    let ask = mutation(alloc, SET, key, value, BYTES)?;
    put_step(alloc, out, group, ask)
}

// 1 is added to a sum.
fn put_sum(alloc: Global, out: &mut Vec<u8>, group: u64) -> Result<(), NoMemory>
    requires { group < GROUPS }
    ensures { OnOk result (out.new.items ≡ out.old.items ++ frame_bytes (sum_step group)) }
{
    let key = sum_key(alloc, group)?;
    let one = Bytes::copy_of(alloc, &1u64.to_le_bytes())?;
    let ask = mutation(alloc, SUM, key, one, LE64)?;
    put_step(alloc, out, group, ask)
}

// The item is read.
fn put_entry(alloc: Global, out: &mut Vec<u8>, group: u64) -> Result<(), NoMemory>
    requires { group < GROUPS }
    ensures { OnOk result (out.new.items ≡ out.old.items ++ frame_bytes (step group (entry (item_key group)))) }
{
    let key = item_key(alloc, group)?;
    let ask = entry(alloc, key)?;
    put_step(alloc, out, group, ask)
}

// A message is enqueued.
fn put_message(
    alloc: Global,
    out: &mut Vec<u8>,
    group: u64,
    numbers: &mut Numbers,
) -> Result<(), NoMemory>
    requires { group < GROUPS }
    ensures bytes { OnOk result (out.new.items ≡ out.old.items
        ++ frame_bytes (message_step group numbers.old.last)) }
    ensures last { OnOk result
        (numbers.new.last ≡ number_after MESSAGE_NUMBERS numbers.old.last) }
{
    let payload = numbers.take(alloc, MESSAGE_NUMBERS)?;
    let ask = message(alloc, payload, FIRST_MOMENT + group)?;
    put_step(alloc, out, group, ask)
}

/// Appends the frames of a group, whose value and message are the next nine numbers. Takes memory for what its steps ask, one
/// at a time, and where the bytes have no room for the frames.
pub(crate) fn put_group(
    alloc: Global,
    out: &mut Vec<u8>,
    group: u64,
    numbers: &mut Numbers,
) -> Result<(), NoMemory>
    requires { group < GROUPS }
    ensures bytes { OnOk result (out.new.items ≡ out.old.items
        ++ flat_map frame_bytes (group_steps group numbers.old.last)) }
    ensures last { OnOk result
        (numbers.new.last ≡ number_after GROUP_NUMBERS numbers.old.last) }
{
    put_item(alloc, out, group, numbers)?;
    put_sum(alloc, out, group)?;
    put_entry(alloc, out, group)?;
    put_message(alloc, out, group, numbers)?;
    put_step(alloc, out, group, Ask::Take)?;
    put_step(alloc, out, group, handled(GROUP_COMMITS * group + 3))?;
    Ok(())
}
