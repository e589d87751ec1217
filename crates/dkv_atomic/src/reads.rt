// The limits of a read and of a watch.
ghost use Rattle.std.specs.Prelude.{◌≡◌, map, nat_lt};
ghost use Rattle.dkv_base.specs.Limits.{read_limit, watch_limit, range_limit, watch_key_limit, first_some, when};
ghost use Rattle.dkv_base.specs.declared.codes.Limit.TheVariants as limit;
ghost use Rattle.dkv_atomic.specs.Sums.{capped, asked_entries};

use crate::parts::{Limited, first_limit, is_some_bad_key};
use dkv_base::limits::{MAX_ENTRIES, MAX_RANGE_KEY_BYTES, MAX_RANGES, MAX_WATCHED_KEYS};
use dkv_base::{Bytes, Limit, ReadRange, from_zero};

impl Limited for ReadRange {
    ghost own_limit = { range_limit };

    fn limit(&self) -> Option<Limit> {
        if self.start.len() > MAX_RANGE_KEY_BYTES || self.end.len() > MAX_RANGE_KEY_BYTES {
            Some(Limit::RangeEnd)
        } else if self.limit < 1 {
            Some(Limit::RangeLimit)
        } else {
            None
        }
    }
}

// How many entries the ranges ask for together, at most the last value of a u64.
fn asked_entries(ranges: &[ReadRange]) -> u64
    ensures { result ≡ capped (asked_entries ranges.now) }
{
    let mut sum = 0u64;
    for range in ranges {
        sum = sum.saturating_add(from_zero(i64::from(range.limit)));
    }
    sum
}

fn entries_limit(ranges: &[ReadRange]) -> Option<Limit>
    ensures { result ≡ when (nat_lt MAX_ENTRIES (asked_entries ranges.now)) limit.TooManyEntries }
{
    (asked_entries(ranges) > MAX_ENTRIES as u64).then_some(Limit::TooManyEntries)
}

/// The first limit that a read passes: the count of ranges, then each range in order, then the sum of their limits. It
/// takes no memory.
pub fn read_limits(ranges: &[ReadRange]) -> Option<Limit>
    ensures { result ≡ read_limit ranges.now }
{
    if ranges.len() > MAX_RANGES {
        return Some(Limit::TooManyRanges);
    }
    first_limit(ranges).or_else(|| entries_limit(ranges))
}

fn keys_limit(keys: &[Bytes]) -> Option<Limit>
    ensures { result ≡ first_some (map watch_key_limit keys.now) }
{
    is_some_bad_key(keys).then_some(Limit::WatchKey)
}

/// The first limit that a watch passes: the count of keys, then each key in order. It takes no memory.
pub fn watch_limits(keys: &[Bytes]) -> Option<Limit>
    ensures { result ≡ watch_limit keys.now }
{
    if keys.is_empty() || keys.len() > MAX_WATCHED_KEYS {
        return Some(Limit::WatchCount);
    }
    keys_limit(keys)
}
