// Parts of a request: the limits and the bytes of each, and of all of them.
ghost use Rattle.std.specs.Prelude.{◌≡◌, ℕ, map, sum_by, length};
ghost use Rattle.std.specs.List.{list_any};
ghost use Rattle.std.specs.declared.option.Option.{Option as Maybe};
ghost use Rattle.dkv_base.specs.Limits.{first_some, is_bad_key};
ghost use Rattle.dkv_base.specs.declared.codes.Limit.{Limit as Passed};
ghost use Rattle.dkv_atomic.specs.Sums.{capped};

use dkv_base::limits::MAX_KEY_BYTES;
use dkv_base::{Bytes, Limit};

/// What has limits of its own, whatever stands beside it.
pub(crate) trait Limited {
    ghost own_limit: { Self → Maybe Passed };

    /// The first limit that it passes.
    fn limit(&self) -> Option<Limit>
        ensures { result ≡ own_limit self.now };
}

/// What counts in the sums of bytes of a write. A sum stands still at the last value of a usize.
pub(crate) trait Counted {
    ghost keys: { Self → ℕ };

    ghost others: { Self → ℕ };

    /// The bytes of its keys.
    fn key_bytes(&self) -> usize
        ensures { result ≡ capped (keys self.now) };

    /// The bytes of its values or payloads.
    fn other_bytes(&self) -> usize
        ensures { result ≡ capped (others self.now) };
}

/// The first limit that one of them passes.
pub(crate) fn first_limit<T: Limited>(parts: &[T]) -> Option<Limit>
    ensures { result ≡ first_some (map T.own_limit parts.now) }
{
    for part in parts {
        let passed = part.limit();
        if passed.is_some() {
            return passed;
        }
    }
    None
}

/// The bytes of all their keys.
pub(crate) fn key_sum<T: Counted>(parts: &[T]) -> usize
    ensures { result ≡ capped (sum_by T.keys parts.now) }
{
    let mut sum = 0usize;
    for part in parts {
        sum = sum.saturating_add(part.key_bytes());
    }
    sum
}

/// The bytes of all their values or payloads.
pub(crate) fn other_sum<T: Counted>(parts: &[T]) -> usize
    ensures { result ≡ capped (sum_by T.others parts.now) }
{
    let mut sum = 0usize;
    for part in parts {
        sum = sum.saturating_add(part.other_bytes());
    }
    sum
}

impl Counted for Bytes {
    ghost keys = { λ key. length key };

    ghost others = { λ _. 0 };

    fn key_bytes(&self) -> usize {
        self.len()
    }

    fn other_bytes(&self) -> usize {
        0
    }
}

/// No key: one of no bytes, or of too many.
pub(crate) fn is_bad_key(key: &Bytes) -> bool
    ensures { result ≡ is_bad_key key.now }
{
    let len = key.len();
    len == 0 || len > MAX_KEY_BYTES
}

/// Whether one of the keys is bad.
pub(crate) fn is_some_bad_key(keys: &[Bytes]) -> bool
    ensures { result ≡ list_any is_bad_key keys.now }
{
    keys.iter().any(is_bad_key)
}
