// Entries and messages as bytes, one behind another.
ghost use Rattle.std.specs.Prelude.{◌≡◌, ◌++◌, ◌^◌, ◌<◌, ◌≤◌, List, OnOk, length, flat_map};
ghost use Rattle.std.specs.Int.{w32, to_le_bytes};
ghost use Rattle.std.specs.List.{AllByRecursion};
ghost use Rattle.dkv_base.specs.Limits.{from_zero};
ghost use Rattle.dkv_image.specs.Image.{sized, entry_bytes, message_bytes};
ghost use Rattle.dkv_image_io.specs.Sizes.{IsShortKey, FitsLengths, FitsCounts, numbers_bytes};

use dkv_base::{Bytes, Entry, Message, NoMemory, Run, from_zero};

// Adds bytes, with their length before them.
fn add_sized(out: &mut Vec<u8>, bytes: &[u8]) -> Result<(), NoMemory>
    requires { length bytes.now < 2 ^ 32 }
    ensures { OnOk result (out.new.items ≡ out.old.items ++ sized bytes.now) }
{
    out.extend_from_slice(&(bytes.len() as u32).to_le_bytes())?;
    out.extend_from_slice(bytes)?;
    Ok(())
}

// Adds the spelling of an entry.
pub(crate) fn add_entry(out: &mut Vec<u8>, entry: &Entry) -> Result<(), NoMemory>
    requires { FitsLengths entry.now }
    ensures { OnOk result (out.new.items ≡ out.old.items ++ entry_bytes entry.now) }
{
    add_sized(out, entry.key.as_slice())?;
    out.extend_from_slice(&[from_zero(entry.encoding as i64) as u8])?;
    add_sized(out, entry.bytes.as_slice())?;
    out.extend_from_slice(&entry.commit.to_le_bytes())?;
    out.extend_from_slice(&entry.expire.to_le_bytes())?;
    Ok(())
}

// Adds keys, with their number before them.
fn add_keys(out: &mut Vec<u8>, keys: &Run<Bytes>) -> Result<(), NoMemory>
    requires count { length keys.now < 2 ^ 32 }
    requires keys { AllByRecursion IsShortKey keys.now }
    ensures { OnOk result (out.new.items ≡ out.old.items
        ++ to_le_bytes w32 (length keys.now) ++ flat_map sized keys.now) }
{
    out.extend_from_slice(&(keys.len() as u32).to_le_bytes())?;
    let items = keys.as_slice();
    for key in items {
        add_sized(out, key.as_slice())?;
    }
    Ok(())
}

// Adds intervals, with their number before them.
fn add_intervals(out: &mut Vec<u8>, intervals: &Run<u32>) -> Result<(), NoMemory>
    requires { length intervals.now < 2 ^ 32 }
    ensures { OnOk result (out.new.items ≡ out.old.items
        ++ to_le_bytes w32 (length intervals.now) ++ flat_map (to_le_bytes w32) intervals.now) }
{
    out.extend_from_slice(&(intervals.len() as u32).to_le_bytes())?;
    let items = intervals.as_slice();
    for interval in items {
        out.extend_from_slice(&interval.to_le_bytes())?;
    }
    Ok(())
}

// Adds the id of a message, when it is due and how often it failed.
fn add_numbers(out: &mut Vec<u8>, message: &Message) -> Result<(), NoMemory>
    ensures { OnOk result (out.new.items ≡ out.old.items ++ numbers_bytes message.now) }
{
    out.extend_from_slice(&message.id.commit.to_le_bytes())?;
    out.extend_from_slice(&message.id.index.to_le_bytes())?;
    out.extend_from_slice(&message.due.to_le_bytes())?;
    out.extend_from_slice(&message.fails.to_le_bytes())?;
    Ok(())
}

// Adds the spelling of a message.
pub(crate) fn add_message(out: &mut Vec<u8>, message: &Message) -> Result<(), NoMemory>
    requires { FitsCounts message.now }
    ensures { OnOk result (out.new.items ≡ out.old.items ++ message_bytes message.now) }
{
    let payload = message.payload.as_slice();
    add_numbers(out, message)?;
    add_sized(out, payload)?;
    add_keys(out, &message.undelivered)?;
    add_intervals(out, &message.backoff)
}
