// Which requests are refused before their body is read.
ghost use Rattle.std.specs.Prelude.{◌≡◌, option_map, bytes_eq, codes};
ghost use Rattle.std.specs.Option.{option_copied};
ghost use Rattle.http_header.specs.HeaderMap.{get};
ghost use Rattle.http_header.specs.Token.{lowercase};
ghost use Rattle.dkv_heads.specs.Requests.{Received};
ghost use Rattle.dkv_http.specs.Conns.{IsRequest};
ghost use Rattle.dkv_route.specs.Access.{needs_access, is_watch, token_cause, secret_cause, authorization_cause, is_id, is_version, says, data_cause, early_cause};

use crate::targets::{Path, after_bearer};
use dkv_base::Limit;
use dkv_http::Request;
use dkv_token::{Site, TokenError, check_token};
use http_header::{HeaderMap, HeaderValue};
use uuid::Uuid;

/// Why a request is refused without the database.
#[derive(Clone, Copy, Debug, PartialEq, Eq)]
pub(crate) enum Cause {
    NotFound,
    NotAllowed,
    Unauthorized,
    TokenExpired,
    WrongDatabase,
    WrongVersion,
    /// A watch in HTTP/1.0, which has no chunks.
    TooOld,
    BadExchange,
    /// At this place of the body no field begins.
    Malformed { at: u64 },
    Limited(Limit),
}

fn needs_access(path: Path) -> bool
    ensures { result ≡ needs_access path }
{
    match path {
        Path::Root | Path::Stop => true,
        Path::Read | Path::Write | Path::Watch => false,
    }
}

fn is_watch(path: Path) -> bool
    ensures { result ≡ is_watch path }
{
    match path {
        Path::Watch => true,
        Path::Root | Path::Stop | Path::Read | Path::Write => false,
    }
}

fn token_cause(site: &Site, at: u64, token: &[u8]) -> Option<Cause>
    ensures { result ≡ token_cause site.now at token.now }
{
    match check_token(site, token, at) {
        Ok(()) => None,
        Err(TokenError::BadToken) => Some(Cause::Unauthorized),
        Err(TokenError::Expired { expiry: _ }) => Some(Cause::TokenExpired),
    }
}

fn secret_cause(site: &Site, at: u64, path: Path, token: &[u8]) -> Option<Cause>
    ensures { result ≡ secret_cause site.now at path token.now }
{
    if !needs_access(path) {
        token_cause(site, at, token)
    } else if token == site.access.as_slice() {
        None
    } else {
        Some(Cause::Unauthorized)
    }
}

fn authorization_cause(site: &Site, at: u64, path: Path, value: Option<&[u8]>) -> Option<Cause>
    ensures { result ≡ authorization_cause site.now at path (option_copied value.entry) }
{
    let Some(value) = value else {
        return Some(Cause::Unauthorized);
    };
    match after_bearer(value) {
        Some(token) => secret_cause(site, at, path, token),
        None => Some(Cause::Unauthorized),
    }
}

fn is_id(site: &Site, text: &[u8]) -> bool
    ensures { result ≡ is_id site.now text.now }
{
    match Uuid::try_parse_ascii(text) {
        Ok(id) => site.database_id == id.into_bytes(),
        Err(_) => false,
    }
}

fn is_version(text: &[u8]) -> bool
    ensures { result ≡ is_version text.now }
{
    text == b"2".as_slice() || text == b"3".as_slice()
}

fn says_id(site: &Site, id: Option<&[u8]>) -> bool
    ensures { result ≡ says (is_id site.now) (option_copied id.entry) }
{
    match id {
        Some(text) => is_id(site, text),
        None => false,
    }
}

fn says_version(version: Option<&[u8]>) -> bool
    ensures { result ≡ says is_version (option_copied version.entry) }
{
    match version {
        Some(text) => is_version(text),
        None => false,
    }
}

fn data_cause(
    site: &Site,
    path: Path,
    id: Option<&[u8]>,
    version: Option<&[u8]>,
    minor: u8,
) -> Option<Cause>
    ensures { result ≡ data_cause site.now path
        (option_copied id.entry) (option_copied version.entry) minor }
{
    if !says_id(site, id) {
        Some(Cause::WrongDatabase)
    } else if !says_version(version) {
        Some(Cause::WrongVersion)
    } else if is_watch(path) && minor == 0 {
        Some(Cause::TooOld)
    } else {
        None
    }
}

fn is_post(method: &[u8]) -> bool
    ensures { result ≡ bytes_eq method.now (codes "POST") }
{
    method == b"POST".as_slice()
}

// The first value of a name.
fn field<'a>(headers: &'a HeaderMap<HeaderValue>, name: &str) -> Option<&'a [u8]>
    ensures { option_copied result
        ≡ option_map (λ v. v.bytes) (get headers.now (lowercase name.now)) }
{
    match headers.get(name) {
        Some(value) => Some(value.as_bytes()),
        None => None,
    }
}

/// The first cause that shows in a request's head at a moment, in milliseconds since 1970. Takes no memory.
pub(crate) fn early_cause(request: &Request, site: &Site, at: u64, path: Path) -> Option<Cause>
    ensures { (q : Received) → IsRequest q request.now → result ≡ early_cause site.now at path q }
{
    if !is_post(request.method.as_slice()) {
        return Some(Cause::NotAllowed);
    }
    let headers = &request.headers;
    let authorization = field(headers, "authorization");
    if let Some(cause) = authorization_cause(site, at, path, authorization) {
        return Some(cause);
    }
    if needs_access(path) {
        return None;
    }
    let id = field(headers, "x-denokv-database-id");
    let version = field(headers, "x-denokv-version");
    data_cause(site, path, id, version, request.version_minor)
}
