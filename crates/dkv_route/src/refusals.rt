// The responses to requests that are refused without the database.
ghost use Rattle.std.specs.Prelude.{◌≡◌, IfOk};
ghost use Rattle.dkv_http.specs.Responses.{head_of, text_body};
ghost use Rattle.dkv_http.specs.declared.responses.Kind.TheVariants as kind;
ghost use Rattle.dkv_route.specs.Answers.{refusal, cause_status, cause_text, may_lack_text};

use crate::access::Cause;
use crate::texts::{limit_text, numbered, text_response};
use dkv_base::{Bytes, NoMemory};
use dkv_heads::statuses::{BAD_REQUEST, METHOD_NOT_ALLOWED, NOT_FOUND, UNAUTHORIZED};
use dkv_http::{Head, Kind, write_head};
use dkv_wire::Out;
use std::alloc::Global;

fn cause_status(cause: Cause) -> u16
    ensures { result ≡ cause_status cause }
{
    match cause {
        Cause::NotFound => NOT_FOUND,
        Cause::NotAllowed => METHOD_NOT_ALLOWED,
        Cause::Unauthorized | Cause::TokenExpired => UNAUTHORIZED,
        Cause::WrongDatabase | Cause::WrongVersion | Cause::TooOld => BAD_REQUEST,
        Cause::BadExchange | Cause::Malformed { at: _ } | Cause::Limited(_) => BAD_REQUEST,
    }
}

fn cause_text(alloc: Global, cause: Cause) -> Result<Bytes, NoMemory>
    ensures { IfOk result (λ text. text ≡ cause_text cause) }
{
    match cause {
        Cause::NotFound => Bytes::copy_of(alloc, b"not found"),
        Cause::NotAllowed => Bytes::copy_of(alloc, b"method not allowed"),
        Cause::Unauthorized => Bytes::copy_of(alloc, b"unauthorized"),
        Cause::TokenExpired => Bytes::copy_of(alloc, b"token expired"),
        Cause::WrongDatabase => Bytes::copy_of(alloc, b"wrong database"),
        Cause::WrongVersion => Bytes::copy_of(alloc, b"wrong version"),
        Cause::TooOld => Bytes::copy_of(alloc, b"watch needs HTTP/1.1"),
        Cause::BadExchange => Bytes::copy_of(alloc, b"bad exchange"),
        Cause::Malformed { at } => numbered(alloc, b"malformed at ", at),
        Cause::Limited(passed) => limit_text(alloc, passed),
    }
}

fn may_lack_text(cause: Cause) -> bool
    ensures { result ≡ may_lack_text cause }
{
    match cause {
        Cause::NotFound | Cause::NotAllowed => true,
        _ => false,
    }
}

// The head of a response with this text.
fn head_alone(alloc: Global, status: u16, text: &[u8], close: bool) -> Result<Bytes, NoMemory>
    ensures { IfOk result (λ bytes. bytes ≡ head_of status kind.Text close (text_body text.now)) }
{
    let mut out = Out::new(alloc);
    out.reserve(512)?;
    let head = Head {
        status,
        kind: Kind::Text,
        length: Some(text.len() as u64 + 1),
        close,
    };
    write_head(&head, &mut out);
    Ok(out.finish())
}

/// The response to a request of this method that is refused for this cause, and ends the session where it is to close. For HEAD
/// it may be a head alone. Takes memory for it.
pub(crate) fn refusal(
    alloc: Global,
    method: &[u8],
    close: bool,
    cause: Cause,
) -> Result<Bytes, NoMemory>
    ensures { IfOk result (λ bytes. bytes ≡ refusal method.now close cause) }
{
    let status = cause_status(cause);
    let text = cause_text(alloc, cause)?;
    if may_lack_text(cause) && method == b"HEAD".as_slice() {
        head_alone(alloc, status, text.as_slice(), close)
    } else {
        text_response(alloc, status, text.as_slice(), close)
    }
}
