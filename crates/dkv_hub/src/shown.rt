// What a frame showed of one key.
ghost use Rattle.std.specs.Prelude.{◌≡◌, ◌≢◌};
ghost use Rattle.std.specs.Option.{option_copied};
ghost use Rattle.dkv_hub.specs.Frames.{shown_of, is_changed};

use dkv_base::Entry;

/// What a frame showed of one key: the commit of its entry, and when that ends.
#[derive(Clone, Copy, Debug, PartialEq, Eq)]
pub struct Shown {
    /// 0 where the key was absent.
    pub commit: u64,
    /// In milliseconds since 1970; 0 where the entry doesn't end, or the key was absent.
    pub expire: u64,
}

impl Shown {
    /// What a frame shows of a key with this entry, or without one. Takes no memory.
    pub fn of(found: Option<&Entry>) -> Shown
        ensures { result ≡ shown_of (option_copied found.entry) }
    {
        match found {
            Some(entry) => Shown {
                commit: entry.commit,
                expire: entry.expire,
            },
            None => Shown {
                commit: 0,
                expire: 0,
            },
        }
    }

    // Whether a key with this entry, or without one, differs from what was shown of it.
    pub(crate) fn differs(self, found: Option<&Entry>) -> bool
        ensures { result ≡ is_changed (option_copied found.entry) self }
    {
        match found {
            Some(entry) => self.commit == 0 || entry.commit != self.commit,
            None => self.commit != 0,
        }
    }
}
