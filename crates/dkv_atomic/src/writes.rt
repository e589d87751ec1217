// The limits of a write.
ghost use Rattle.std.specs.Prelude.{◌≡◌, ◌+◌, ◌∷◌, [], map, length, sum_by, nat_lt};
ghost use Rattle.std.specs.List.{list_any};
ghost use Rattle.dkv_base.specs.Limits.{write_limit, check_limit, mutation_limit, value_limit, enqueue_limit, is_bad_mutation_key, interval_limit, undelivered_limit, value_length, first_some, when, all_bytes, key_bytes};
ghost use Rattle.dkv_base.specs.declared.codes.Limit.TheVariants as limit;
ghost use Rattle.dkv_base.specs.declared.types.Profile.TheVariants.{Narrow};
ghost use Rattle.dkv_atomic.specs.Sums.{capped};

use crate::kinds::{is_arithmetic, is_delete, is_known_kind, is_stamped};
use crate::parts::{
    Counted, Limited, first_limit, is_bad_key, is_some_bad_key, key_sum, other_sum,
};
use dkv_base::encodings::{BYTES, LE64, V8};
use dkv_base::limits::{
    LE64_BYTES, MAX_CHANGES, MAX_CHECKS, MAX_INTERVAL_MS, MAX_INTERVALS, MAX_STAMPED_KEY_BYTES,
    MAX_UNDELIVERED, MAX_VALUE_BYTES, MAX_WRITE_BYTES, MAX_WRITE_KEY_BYTES, STAMP_BYTES,
};
use dkv_base::{AtomicWrite, Bytes, Check, Enqueue, Limit, Mutation, Value};

impl Limited for Check {
    ghost own_limit = { check_limit };

    fn limit(&self) -> Option<Limit> {
        let stamp = self.versionstamp.len();
        if is_bad_key(&self.key) {
            Some(Limit::CheckKey)
        } else if stamp != 0 && stamp != STAMP_BYTES {
            Some(Limit::CheckStamp)
        } else {
            None
        }
    }
}

impl Counted for Check {
    ghost keys = { λ c. length c.key };

    ghost others = { λ _. 0 };

    fn key_bytes(&self) -> usize {
        self.key.len()
    }

    fn other_bytes(&self) -> usize {
        0
    }
}

fn is_bad_mutation_key(mutation: &Mutation) -> bool
    ensures { result ≡ is_bad_mutation_key mutation.now }
{
    if is_stamped(mutation) {
        mutation.key.len() > MAX_STAMPED_KEY_BYTES
    } else {
        is_bad_key(&mutation.key)
    }
}

// The first limit of the value of a mutation that isn't a DELETE.
fn value_limit(mutation: &Mutation) -> Option<Limit>
    ensures { result ≡ value_limit Narrow mutation.now }
{
    let Some(value) = &mutation.value else {
        return Some(Limit::NoValue);
    };
    let takes_number = is_arithmetic(mutation);
    let len = value.bytes.len();
    match value.encoding {
        LE64 if len != LE64_BYTES => Some(Limit::Le64Length),
        V8 if takes_number => Some(Limit::V8Operand),
        BYTES if takes_number => Some(Limit::BytesOperand),
        V8 | LE64 | BYTES if len > MAX_VALUE_BYTES => Some(Limit::ValueLength),
        V8 | LE64 | BYTES => None,
        _ => Some(Limit::Encoding),
    }
}

impl Limited for Mutation {
    ghost own_limit = { mutation_limit Narrow };

    fn limit(&self) -> Option<Limit> {
        if !is_known_kind(self) {
            Some(Limit::MutationKind)
        } else if is_bad_mutation_key(self) {
            Some(Limit::MutationKey)
        } else if is_delete(self) {
            None
        } else {
            value_limit(self)
        }
    }
}

impl Counted for Mutation {
    ghost keys = { λ m. length m.key };

    ghost others = { value_length };

    fn key_bytes(&self) -> usize {
        self.key.len()
    }

    fn other_bytes(&self) -> usize {
        match &self.value {
            Some(value) if !is_delete(self) => value.bytes.len(),
            _ => 0,
        }
    }
}

fn is_some_interval_long(intervals: &[u32]) -> bool
    ensures { result ≡ list_any (λ n. nat_lt MAX_INTERVAL_MS n) intervals.now }
{
    intervals.iter().any(|interval| *interval > MAX_INTERVAL_MS)
}

fn intervals_limit(intervals: &[u32]) -> Option<Limit>
    ensures { result ≡ first_some (map interval_limit intervals.now) }
{
    is_some_interval_long(intervals).then_some(Limit::BackoffInterval)
}

fn undelivered_limit(keys: &[Bytes]) -> Option<Limit>
    ensures { result ≡ first_some (map undelivered_limit keys.now) }
{
    is_some_bad_key(keys).then_some(Limit::UndeliveredKey)
}

impl Limited for Enqueue {
    ghost own_limit = { enqueue_limit Narrow };

    fn limit(&self) -> Option<Limit> {
        if self.payload.len() > MAX_VALUE_BYTES {
            return Some(Limit::PayloadLength);
        }
        if self.backoff.len() > MAX_INTERVALS {
            return Some(Limit::BackoffCount);
        }
        let interval = intervals_limit(self.backoff.as_slice());
        if interval.is_some() {
            return interval;
        }
        if self.undelivered.len() > MAX_UNDELIVERED {
            return Some(Limit::UndeliveredCount);
        }
        undelivered_limit(self.undelivered.as_slice())
    }
}

impl Counted for Enqueue {
    ghost keys = { λ q. sum_by length q.undelivered };

    ghost others = { λ q. length q.payload };

    fn key_bytes(&self) -> usize {
        key_sum(self.undelivered.as_slice())
    }

    fn other_bytes(&self) -> usize {
        self.payload.len()
    }
}

// The bytes of all keys, at most the last value of a usize.
fn key_bytes(write: &AtomicWrite) -> usize
    ensures { result ≡ capped (key_bytes write.now) }
{
    key_sum(write.checks.as_slice())
        .saturating_add(key_sum(write.mutations.as_slice()))
        .saturating_add(key_sum(write.enqueues.as_slice()))
}

// The bytes of all keys, values and payloads, at most the last value of a usize.
fn all_bytes(write: &AtomicWrite) -> usize
    ensures { result ≡ capped (all_bytes write.now) }
{
    key_bytes(write)
        .saturating_add(other_sum(write.mutations.as_slice()))
        .saturating_add(other_sum(write.enqueues.as_slice()))
}

fn counts_limit(write: &AtomicWrite) -> Option<Limit>
    ensures { result ≡ first_some (
        when (nat_lt MAX_CHECKS (length write.now.checks)) limit.TooManyChecks
        ∷ when (nat_lt MAX_CHANGES (length write.now.mutations + length write.now.enqueues)) limit.TooManyMutations
        ∷ []) }
{
    let changes = write.mutations.len().saturating_add(write.enqueues.len());
    if write.checks.len() > MAX_CHECKS {
        Some(Limit::TooManyChecks)
    } else if changes > MAX_CHANGES {
        Some(Limit::TooManyMutations)
    } else {
        None
    }
}

fn sums_limit(write: &AtomicWrite) -> Option<Limit>
    ensures { result ≡ first_some (
        when (nat_lt MAX_WRITE_BYTES (all_bytes write.now)) limit.TotalBytes
        ∷ when (nat_lt MAX_WRITE_KEY_BYTES (key_bytes write.now)) limit.TotalKeyBytes
        ∷ []) }
{
    if all_bytes(write) > MAX_WRITE_BYTES {
        Some(Limit::TotalBytes)
    } else if key_bytes(write) > MAX_WRITE_KEY_BYTES {
        Some(Limit::TotalKeyBytes)
    } else {
        None
    }
}

/// The first limit that a write passes: the counts, then each check, each mutation and each enqueue in order, then the
/// sums of bytes. It takes no memory.
pub fn limits(write: &AtomicWrite) -> Option<Limit>
    ensures { result ≡ write_limit write.now }
{
    counts_limit(write)
        .or_else(|| first_limit(write.checks.as_slice()))
        .or_else(|| first_limit(write.mutations.as_slice()))
        .or_else(|| first_limit(write.enqueues.as_slice()))
        .or_else(|| sums_limit(write))
}
