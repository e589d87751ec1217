// What a table does with entries that stand in one vector in key order. Searches go by halves.
ghost use Rattle.std.specs.Prelude.{◌≡◌, ◌+◌, ◌<◌, IsTrue, None, is_some, if◌then◌else◌, filter};
ghost use Rattle.std.specs.Option.{option_copied};
ghost use Rattle.std.specs.Vec.{vec_len, vec_capacity};
ghost use Rattle.dkv_base.specs.State.{entry_at, put, without, is_between, is_in_key_order};

use crate::place::{first_from, place};
use dkv_base::Entry;

// The entry under the key.
pub(crate) fn look_up<'a>(entries: &'a [Entry], key: &[u8]) -> Option<&'a Entry>
    requires { IsTrue (is_in_key_order entries.now) }
    ensures { option_copied result ≡ entry_at key.now entries.now }
{
    match place(entries, key) {
        Ok(at) => Some(&entries[at]),
        Err(_) => None,
    }
}

// Puts the entry in the place of the one under its key, which it hands back.
pub(crate) fn store(entries: &mut Vec<Entry>, entry: Entry) -> Option<Entry>
    requires order { IsTrue (is_in_key_order entries.old.items) }
    requires room { entry_at entry.key entries.old.items ≡ None
        → vec_len entries.old < vec_capacity entries.old }
    ensures content { entries.new.items ≡ put entry entries.old.items }
    ensures was { result ≡ entry_at entry.key entries.old.items }
    ensures len { vec_len entries.new ≡ vec_len entries.old + (if is_some result then 0 else 1) }
    ensures capacity { vec_capacity entries.new ≡ vec_capacity entries.old }
{
    match place(entries, entry.key.as_slice()) {
        Ok(at) => Some(std::mem::replace(&mut entries[at], entry)),
        Err(at) => {
            let _ = entries.insert(at, entry);
            None
        }
    }
}

// Takes the entry under the key out.
pub(crate) fn take_out(entries: &mut Vec<Entry>, key: &[u8]) -> Option<Entry>
    requires { IsTrue (is_in_key_order entries.old.items) }
    ensures content { entries.new.items ≡ without key.now entries.old.items }
    ensures was { result ≡ entry_at key.now entries.old.items }
    ensures len { vec_len entries.new + (if is_some result then 1 else 0) ≡ vec_len entries.old }
    ensures capacity { vec_capacity entries.new ≡ vec_capacity entries.old }
{
    match place(entries, key) {
        Ok(at) => Some(entries.remove(at)),
        Err(_) => None,
    }
}

// The entries from `start`, inclusive, to `end`, exclusive.
pub(crate) fn range<'a>(entries: &'a [Entry], start: &[u8], end: &[u8]) -> &'a [Entry]
    requires { IsTrue (is_in_key_order entries.now) }
    ensures { result.now ≡ filter (λ e. is_between start.now end.now e.key) entries.now }
{
    let from = first_from(entries, start);
    let to = first_from(entries, end);
    if from < to { &entries[from..to] } else { &[] }
}
