//! What the body of an exchange asks.
ghost use Rattle.std.specs.Prelude.{◌≡◌, IfOk, option_and_then};
ghost use Rattle.serde_json.specs.View.{view, items_view};
ghost use Rattle.dkv_meta.specs.Asked.{exchange_version, supported_versions, best_version, has_whole, is_whole};

use dkv_base::NoMemory;
use serde_json::Value;
use std::alloc::Global;

/// The version of KV Connect that is answered wherever a client supports it.
pub const PREFERRED_VERSION: u64 = 3;

/// The version of KV Connect that is answered where a client supports it and not the preferred one.
pub const OLDER_VERSION: u64 = 2;

// The version that is answered, or none where the body is no exchange.
pub(crate) fn exchange_version(alloc: Global, body: &[u8]) -> Result<Option<u64>, NoMemory>
    ensures { IfOk result (λ version. version ≡ exchange_version body.now) }
{
    match Value::from_slice(alloc, body) {
        Ok(value) => Ok(supported_version(&value)),
        Err(error) => {
            if error.is_memory() {
                Err(NoMemory)
            } else {
                Ok(None)
            }
        }
    }
}

// The version that comes first among those that a client supports, where it tells them.
fn supported_version(value: &Value) -> Option<u64>
    ensures { result ≡ option_and_then best_version (supported_versions (view value.now)) }
{
    best_version(value.get("supportedVersions")?.as_array()?)
}

// The version that comes first among those that a client supports.
fn best_version(versions: &[Value]) -> Option<u64>
    ensures { result ≡ best_version (items_view versions.now) }
{
    if has_whole(versions, PREFERRED_VERSION) {
        Some(PREFERRED_VERSION)
    } else if has_whole(versions, OLDER_VERSION) {
        Some(OLDER_VERSION)
    } else {
        None
    }
}

// Whether some element is this whole number.
fn has_whole(values: &[Value], number: u64) -> bool
    ensures { result ≡ has_whole number (items_view values.now) }
{
    values.iter().any(|value| is_whole(value, number))
}

// Whether the element is this whole number.
fn is_whole(value: &Value, number: u64) -> bool
    ensures { result ≡ is_whole number (view value.now) }
{
    match value.as_u64() {
        Some(found) => found == number,
        None => false,
    }
}
