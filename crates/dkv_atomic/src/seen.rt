// What can be seen in a table at a moment.
ghost use Rattle.std.specs.Prelude.{◌≡◌};
ghost use Rattle.std.specs.Option.{option_copied};
ghost use Rattle.dkv_base.specs.State.{entry_at, visible, is_visible};

use dkv_base::Entry;
use dkv_table::Table;

/// Whether the entry has not ended at the moment, in milliseconds since 1970. Takes no memory.
pub fn is_visible(entry: &Entry, at: u64) -> bool
    ensures { result ≡ is_visible at entry.now }
{
    entry.expire == 0 || at < entry.expire
}

/// The entry under the key, where it has not ended at the moment.
pub(crate) fn seen_at<'a, T: Table>(table: &'a T, key: &[u8], at: u64) -> Option<&'a Entry>
    ensures { option_copied result ≡ entry_at key.now (visible at (T.content table.now)) }
{
    match table.get(key) {
        None => None,
        Some(entry) => {
            if is_visible(entry, at) {
                Some(entry)
            } else {
                None
            }
        }
    }
}
