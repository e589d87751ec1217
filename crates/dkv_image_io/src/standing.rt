// What may stand in an image of the narrow profile.
ghost use Rattle.std.specs.Prelude.{◌≡◌, ◌&&◌, nat_le};
ghost use Rattle.std.specs.List.{list_all};
ghost use Rattle.dkv_base.specs.declared.limits.TheConstants.{MAX_INTERVAL_MS};
ghost use Rattle.dkv_base.specs.Sound.{is_good_key, is_good_value, is_number, is_schedule, is_payload, is_stored, is_waiting};
ghost use Rattle.dkv_base.specs.State.{is_visible};

use dkv_base::encodings::{BYTES, LE64, V8};
use dkv_base::limits::{
    LE64_BYTES, MAX_INTERVAL_MS, MAX_INTERVALS, MAX_KEY_BYTES, MAX_UNDELIVERED, MAX_VALUE_BYTES,
};
use dkv_base::{Bytes, Entry, Message};

fn is_key(key: &Bytes) -> bool
    ensures { result ≡ is_good_key key.now }
{
    !key.is_empty() && key.len() <= MAX_KEY_BYTES
}

fn is_value(encoding: i32, bytes: &Bytes) -> bool
    ensures { result ≡ is_good_value (record { bytes = bytes.now; encoding = encoding }) }
{
    let known = encoding == V8 || encoding == LE64 || encoding == BYTES;
    let fits = encoding != LE64 || bytes.len() == LE64_BYTES;
    known && fits && bytes.len() <= MAX_VALUE_BYTES
}

fn is_commit(number: u64, n: u64) -> bool
    ensures { result ≡ is_number n number }
{
    1 <= number && number <= n
}

// Whether an entry may stand after commit `n`, at the moment `now`.
pub(crate) fn entry_stands(entry: &Entry, n: u64, now: u64) -> bool
    ensures { result ≡ (is_stored n entry.now && is_visible now entry.now) }
{
    is_key(&entry.key)
        && is_value(entry.encoding, &entry.bytes)
        && is_commit(entry.commit, n)
        && (entry.expire == 0 || now < entry.expire)
}

fn are_intervals(intervals: &[u32]) -> bool
    ensures { result ≡ list_all (λ n. nat_le n MAX_INTERVAL_MS) intervals.now }
{
    intervals
        .iter()
        .all(|interval| *interval <= MAX_INTERVAL_MS)
}

fn are_keys(keys: &[Bytes]) -> bool
    ensures { result ≡ list_all is_good_key keys.now }
{
    keys.iter().all(is_key)
}

fn is_backoff(intervals: &[u32]) -> bool
    ensures { result ≡ is_schedule intervals.now }
{
    1 <= intervals.len() && intervals.len() <= MAX_INTERVALS && are_intervals(intervals)
}

// Whether its payload, its keys and its intervals are within the limits.
fn is_within(message: &Message) -> bool
    ensures { result ≡ is_payload message.now }
{
    message.payload.len() <= MAX_VALUE_BYTES
        && message.undelivered.len() <= MAX_UNDELIVERED
        && are_keys(message.undelivered.as_slice())
        && is_backoff(message.backoff.as_slice())
}

// Whether a message may stand after commit `n`.
pub(crate) fn message_stands(message: &Message, n: u64) -> bool
    ensures { result ≡ is_waiting n message.now }
{
    is_within(message)
        && is_commit(message.id.commit, n)
        && message.fails as usize <= message.backoff.len()
}
