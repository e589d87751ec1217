//! The exchange.
ghost use Rattle.std.specs.Prelude.{◌≡◌, ℕ, Some, None, IfOk, Err};
ghost use Rattle.dkv_meta.specs.Asked.{exchange_version};
ghost use Rattle.dkv_meta.specs.Reply.{IsExchange};

use crate::asked::exchange_version;
use crate::reply::reply;
use dkv_base::{Bytes, MAX_MOMENT, NoMemory};
use dkv_token::{Site, TOKEN_LIFE_MS};
use std::alloc::Global;
use thiserror::Error;

/// Why an exchange has no reply.
#[derive(Clone, Copy, Debug, Error, PartialEq, Eq)]
pub enum ExchangeError {
    /// The body is no JSON text of an object that offers a version which the server speaks.
    #[error("bad exchange")]
    BadExchange,
    /// The allocator had no room.
    #[error("no memory")]
    NoMemory,
}

impl From<NoMemory> for ExchangeError {
    ghost use Rattle.dkv_meta.specs.declared.exchanging.ExchangeError.TheVariants as error;

    ghost from_gives = { λ _ e. e ≡ error.NoMemory };

    fn from(_none: NoMemory) -> ExchangeError {
        ExchangeError::NoMemory
    }
}

/// The reply to an exchange at a moment, in milliseconds since 1970: a JSON text (RFC 8259) with the site's id, its one
/// endpoint, a token that ends an hour later, and the version. Its url stands in the text as it is. An expiry above the last
/// moment is the last moment. Takes memory for the body's value and for the reply.
pub fn exchange(alloc: Global, body: &[u8], site: &Site, at: u64) -> Result<Bytes, ExchangeError>
    ensures reply { IfOk result (λ text. (version : ℕ)
        × (exchange_version body.now ≡ Some version) × IsExchange site.now at version text) }
    ensures bad { result ≡ Err ExchangeError.BadExchange → exchange_version body.now ≡ None }
{
    let Some(version) = exchange_version(alloc, body)? else {
        return Err(ExchangeError::BadExchange);
    };
    let expiry = at.saturating_add(TOKEN_LIFE_MS).min(MAX_MOMENT);
    Ok(reply(alloc, site, expiry, version)?)
}
