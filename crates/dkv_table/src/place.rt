// Searches by halves among entries in key order.
ghost use Rattle.std.specs.Prelude.{◌≡◌, IsTrue, IfOk, IfErr};
ghost use Rattle.dkv_base.specs.State.{key_cmp, is_in_key_order};
ghost use Rattle.dkv_table.specs.Places.{IsAt, IsGap, IsStart};

use dkv_base::{Entry, compare};
use std::cmp::Ordering;

// Where the key's entry is, or where it would go.
pub(crate) fn place(entries: &[Entry], key: &[u8]) -> Result<usize, usize>
    requires { IsTrue (is_in_key_order entries.now) }
    ensures found { IfOk result (IsAt key.now entries.now) }
    ensures absent { IfErr result (IsGap key.now entries.now) }
{
    entries.binary_search_by(
        |entry: &Entry| -> Ordering
            ensures { result ≡ key_cmp entry.now.key key.entry.now }
        { compare(entry.key.as_slice(), key) },
    )
}

// Where the entries begin whose keys aren't below this one.
pub(crate) fn first_from(entries: &[Entry], key: &[u8]) -> usize
    requires { IsTrue (is_in_key_order entries.now) }
    ensures { IsStart key.now entries.now result }
{
    match place(entries, key) {
        Ok(at) => at,
        Err(at) => at,
    }
}
