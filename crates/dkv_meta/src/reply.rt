//! The reply to an exchange.
ghost use Rattle.std.specs.Prelude.{◌≡◌, ◌≤◌, IfOk};
ghost use Rattle.std.specs.List.{flat_map};
ghost use Rattle.dkv_base.specs.declared.moments.TheConstants.{MAX_MOMENT};
ghost use Rattle.dkv_meta.specs.Reply.{IsReply};

use crate::date_time::{date_time, shown};
use dkv_base::{Bytes, NoMemory};
use dkv_token::{Site, sign};
use itoa::Buffer;
use std::alloc::Global;
use uuid::Uuid;

// The reply whose token ends at a moment.
pub(crate) fn reply(
    alloc: Global,
    site: &Site,
    expiry: u64,
    version: u64,
) -> Result<Bytes, NoMemory>
    requires { expiry ≤ MAX_MOMENT }
    ensures { IfOk result (λ text. IsReply site.now expiry version text) }
{
    let mut id = Uuid::encode_buffer();
    let mut digits = Buffer::new();
    joined(
        alloc,
        &[
            b"{\"databaseId\":\"",
            Uuid::from_bytes(site.database_id)
                .hyphenated()
                .encode_lower(&mut id)
                .as_bytes(),
            b"\",\"endpoints\":[{\"consistency\":\"strong\",\"url\":\"",
            site.url.as_slice(),
            b"/kv\"}],\"expiresAt\":\"",
            &date_time(shown(expiry)),
            b"\",\"token\":\"",
            &sign(site, expiry),
            b"\",\"version\":",
            digits.format(version).as_bytes(),
            b"}",
        ],
    )
}

// The parts, one behind the other.
fn joined(alloc: Global, parts: &[&[u8]]) -> Result<Bytes, NoMemory>
    ensures { IfOk result (λ bytes. bytes ≡ flat_map (λ part. part.now) parts.now) }
{
    Ok(Bytes::of(parts.concat(alloc)?))
}
