// How an entry goes into blocks, and out of them.
ghost use Rattle.std.specs.Prelude.{◌≡◌, ◌+◌, ◌<◌, ◌≤◌, [], ◌∷◌, None, IsTrue, length, is_some, if◌then◌else◌};
ghost use Rattle.std.specs.List.{list_all, HoldsAt};
ghost use Rattle.std.specs.Vec.{vec_len, vec_capacity};
ghost use Rattle.dkv_base.specs.State.{entry_at, put, without, is_empty};
ghost use Rattle.dkv_table.specs.Blocks.{AreBlocks, IsDivided, joined};
ghost use Rattle.dkv_table.specs.declared.block.TheConstants.{MOST_ENTRIES};

use crate::block::Block;
use crate::seats::seat;
use dkv_base::Entry;

// Puts the entry in the place of the one under its key, which it hands back. A block that is full is divided, into one
// of those that are ready.
pub(crate) fn put_into(
    blocks: &mut Vec<Block>,
    ready: &mut Vec<Block>,
    entry: Entry,
) -> Option<Entry>
    requires blocks { AreBlocks blocks.old.items }
    requires ready { IsTrue (list_all is_empty ready.old.items) }
    requires one { 1 ≤ vec_len ready.old }
    requires place { vec_len blocks.old < vec_capacity blocks.old }
    ensures content { joined blocks.new.items ≡ put entry (joined blocks.old.items) }
    ensures was { result ≡ entry_at entry.key (joined blocks.old.items) }
    ensures len { length (joined blocks.new.items)
        ≡ length (joined blocks.old.items) + (if is_some result then 0 else 1) }
    ensures blocks { AreBlocks blocks.new.items }
    ensures ready { IsTrue (list_all is_empty ready.new.items) }
    ensures taken { vec_len ready.old ≤ vec_len ready.new + 1 }
    ensures added { vec_len blocks.new ≤ vec_len blocks.old + 1 }
    ensures places { vec_capacity blocks.old ≤ vec_capacity blocks.new }
{
    let Some(at) = seat(blocks, entry.key.as_slice()) else {
        begin(blocks, ready, entry);
        return None;
    };
    if blocks[at].takes(entry.key.as_slice()) {
        blocks[at].put(entry)
    } else {
        divide(blocks, ready, at, entry);
        None
    }
}

// Puts the first entry of all into a block.
fn begin(blocks: &mut Vec<Block>, ready: &mut Vec<Block>, entry: Entry)
    requires none { blocks.old.items ≡ [] }
    requires ready { IsTrue (list_all is_empty ready.old.items) }
    requires one { 1 ≤ vec_len ready.old }
    requires place { vec_len blocks.old < vec_capacity blocks.old }
    ensures content { blocks.new.items ≡ (entry ∷ []) ∷ [] }
    ensures ready { IsTrue (list_all is_empty ready.new.items) }
    ensures taken { vec_len ready.old ≤ vec_len ready.new + 1 }
    ensures places { vec_capacity blocks.old ≤ vec_capacity blocks.new }
{
    let mut block = ready.take_last();
    let _ = block.put(entry);
    blocks.push_reserved(block);
}

// Divides a full block, with the entry.
fn divide(blocks: &mut Vec<Block>, ready: &mut Vec<Block>, at: usize, entry: Entry)
    requires in_range { at < vec_len blocks.old }
    requires full { HoldsAt (λ b. length b ≡ MOST_ENTRIES) blocks.old.items at }
    requires absent { HoldsAt (λ b. entry_at entry.key b ≡ None) blocks.old.items at }
    requires ready { IsTrue (list_all is_empty ready.old.items) }
    requires one { 1 ≤ vec_len ready.old }
    requires place { vec_len blocks.old < vec_capacity blocks.old }
    ensures divided { IsDivided entry at blocks.old.items blocks.new.items }
    ensures ready { IsTrue (list_all is_empty ready.new.items) }
    ensures taken { vec_len ready.old ≤ vec_len ready.new + 1 }
    ensures added { vec_len blocks.new ≡ vec_len blocks.old + 1 }
    ensures places { vec_capacity blocks.old ≤ vec_capacity blocks.new }
{
    let is_last = at + 1 == blocks.len();
    let upper = ready.take_last();
    let upper = blocks[at].divide(upper, entry, is_last);
    let _ = blocks.insert(at + 1, upper);
}

// Takes the entry under the key out, and its block where it was the last there.
pub(crate) fn take_from(blocks: &mut Vec<Block>, key: &[u8]) -> Option<Entry>
    requires blocks { AreBlocks blocks.old.items }
    ensures content { joined blocks.new.items ≡ without key.now (joined blocks.old.items) }
    ensures was { result ≡ entry_at key.now (joined blocks.old.items) }
    ensures len { length (joined blocks.new.items) + (if is_some result then 1 else 0)
        ≡ length (joined blocks.old.items) }
    ensures blocks { AreBlocks blocks.new.items }
    ensures fewer { vec_len blocks.new ≤ vec_len blocks.old }
    ensures places { vec_capacity blocks.old ≤ vec_capacity blocks.new }
{
    let at = seat(blocks, key)?;
    let was = blocks[at].remove(key);
    if blocks[at].is_empty() {
        let _ = blocks.remove(at);
    }
    was
}
