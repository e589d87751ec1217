//! Whole responses of known length: texts with their line end, and bodies of each kind.
ghost use Rattle.std.specs.Prelude.{◌≡◌, ◌≤◌, ◌+◌, ◌++◌, IfOk, decimal, length};
ghost use Rattle.dkv_http.specs.Responses.{respond, text_response};
ghost use Rattle.dkv_route.specs.Answers.{limit_text, not_u64_text};

use dkv_base::{Bytes, Limit, NoMemory};
use dkv_http::{Head, Kind, write_head};
use dkv_wire::Out;
use itoa::Buffer;
use std::alloc::Global;

/// Appends the response with this status and text, to which a line end is added. It ends the session where it is to close.
/// Takes no memory.
pub fn write_text(status: u16, text: &[u8], close: bool, out: &mut Out)
    requires { length text.now + 640 ≤ out.old.spare }
    ensures bytes { out.new.bytes ≡ out.old.bytes ++ text_response status text.now close }
    ensures spare { out.old.spare ≤ out.new.spare + length text.now + 640 }
{
    let head = Head {
        status,
        kind: Kind::Text,
        length: Some(text.len() as u64 + 1),
        close,
    };
    write_head(&head, out);
    out.put_raw(text);
    out.put_raw(b"\n");
}

/// The response with this status and text. Takes memory for it.
pub(crate) fn text_response(
    alloc: Global,
    status: u16,
    text: &[u8],
    close: bool,
) -> Result<Bytes, NoMemory>
    ensures { IfOk result (λ bytes. bytes ≡ text_response status text.now close) }
{
    let mut out = Out::new(alloc);
    out.reserve(text.len() + 640)?;
    write_text(status, text, close, &mut out);
    Ok(out.finish())
}

/// The response with this status and body. Takes memory for it.
pub(crate) fn response(
    alloc: Global,
    status: u16,
    kind: Kind,
    body: &[u8],
    close: bool,
) -> Result<Bytes, NoMemory>
    ensures { IfOk result (λ bytes. bytes ≡ respond status kind close body.now) }
{
    let mut out = Out::new(alloc);
    out.reserve(body.len() + 512)?;
    let head = Head {
        status,
        kind,
        length: Some(body.len() as u64),
        close,
    };
    write_head(&head, &mut out);
    out.put_raw(body);
    Ok(out.finish())
}

/// The words and a number. Takes memory for them.
pub(crate) fn numbered(alloc: Global, words: &[u8], n: u64) -> Result<Bytes, NoMemory>
    ensures { IfOk result (λ text. text ≡ words.now ++ decimal n) }
{
    let mut digits = Buffer::new();
    Bytes::joined(alloc, words, digits.format(n).as_bytes())
}

/// The text that tells a limit. Takes memory for it.
pub(crate) fn limit_text(alloc: Global, passed: Limit) -> Result<Bytes, NoMemory>
    ensures { IfOk result (λ text. text ≡ limit_text passed) }
{
    numbered(alloc, b"limit ", u64::from(passed.code()))
}

/// The text that tells the place of a mutation which meets no u64. Takes memory for it.
pub(crate) fn not_u64_text(alloc: Global, place: u32) -> Result<Bytes, NoMemory>
    ensures { IfOk result (λ text. text ≡ not_u64_text place) }
{
    numbered(alloc, b"not a u64: mutation ", u64::from(place))
}
