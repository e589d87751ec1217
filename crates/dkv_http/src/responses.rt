//! The bytes of responses: heads, and chunks of a body.
ghost use Rattle.std.specs.Prelude.{◌≡◌, ◌<◌, ◌≤◌, ◌+◌, ◌^◌, false, [], ◌++◌, length, decimal};
ghost use Rattle.std.specs.Fmt.{digit_glyph, digits, digits_onto};
ghost use Rattle.dkv_http.specs.Responses.{phrase, type_name, status_line, type_line, length_line, allow_line, close_line, head_bytes, chunk};

use dkv_heads::statuses::{
    BAD_REQUEST, CONTENT_TOO_LARGE, HEADER_FIELDS_TOO_LARGE, METHOD_NOT_ALLOWED, NOT_FOUND, OK,
    UNAUTHORIZED,
};
use dkv_wire::Out;
use itoa::Buffer;

/// The media type of a body.
#[derive(Clone, Copy, Debug, PartialEq, Eq)]
pub enum Kind {
    /// `application/x-protobuf`
    Protobuf,
    /// `application/octet-stream`
    Octets,
    /// `application/json`
    Json,
    /// `text/plain`
    Text,
}

/// The head of a response.
#[derive(Clone, Copy, Debug, PartialEq, Eq)]
pub struct Head {
    /// One of the statuses of `dkv_heads`.
    pub status: u16,
    /// What the body is.
    pub kind: Kind,
    /// The bytes of the body; nothing where it comes in chunks.
    pub length: Option<u64>,
    /// The connection ends with this response.
    pub close: bool,
}

fn phrase(status: u16) -> &'static [u8]
    ensures phrase { result.now ≡ phrase status }
    ensures short { length result.now ≤ 31 }
{
    match status {
        OK => b"OK",
        BAD_REQUEST => b"Bad Request",
        UNAUTHORIZED => b"Unauthorized",
        NOT_FOUND => b"Not Found",
        METHOD_NOT_ALLOWED => b"Method Not Allowed",
        CONTENT_TOO_LARGE => b"Content Too Large",
        HEADER_FIELDS_TOO_LARGE => b"Request Header Fields Too Large",
        _ => b"Service Unavailable",
    }
}

fn type_name(kind: Kind) -> &'static [u8]
    ensures name { result.now ≡ type_name kind }
    ensures short { length result.now ≤ 24 }
{
    match kind {
        Kind::Protobuf => b"application/x-protobuf",
        Kind::Octets => b"application/octet-stream",
        Kind::Json => b"application/json",
        Kind::Text => b"text/plain",
    }
}

fn put_decimal(n: u64, out: &mut Out)
    requires { 20 ≤ out.old.spare }
    ensures bytes { out.new.bytes ≡ out.old.bytes ++ decimal n }
    ensures spare { out.old.spare ≤ out.new.spare + 20 }
{
    let mut buffer = Buffer::new();
    out.put_raw(buffer.format(n).as_bytes());
}

fn put_status(status: u16, out: &mut Out)
    requires { 64 ≤ out.old.spare }
    ensures bytes { out.new.bytes ≡ out.old.bytes ++ status_line status }
    ensures spare { out.old.spare ≤ out.new.spare + 64 }
{
    out.put_raw(b"HTTP/1.1 ");
    put_decimal(u64::from(status), out);
    out.put_raw(b" ");
    out.put_raw(phrase(status));
    out.put_raw(b"\r\n");
}

fn put_kind(kind: Kind, out: &mut Out)
    requires { 64 ≤ out.old.spare }
    ensures bytes { out.new.bytes ≡ out.old.bytes ++ type_line kind }
    ensures spare { out.old.spare ≤ out.new.spare + 64 }
{
    out.put_raw(b"content-type: ");
    out.put_raw(type_name(kind));
    out.put_raw(b"\r\n");
}

fn put_length(length: Option<u64>, out: &mut Out)
    requires { 64 ≤ out.old.spare }
    ensures bytes { out.new.bytes ≡ out.old.bytes ++ length_line length }
    ensures spare { out.old.spare ≤ out.new.spare + 64 }
{
    match length {
        Some(n) => {
            out.put_raw(b"content-length: ");
            put_decimal(n, out);
            out.put_raw(b"\r\n");
        }
        None => out.put_raw(b"transfer-encoding: chunked\r\n"),
    }
}

fn put_allow(status: u16, out: &mut Out)
    requires { 64 ≤ out.old.spare }
    ensures bytes { out.new.bytes ≡ out.old.bytes ++ allow_line status }
    ensures spare { out.old.spare ≤ out.new.spare + 64 }
{
    if status == METHOD_NOT_ALLOWED {
        out.put_raw(b"allow: POST\r\n");
    }
}

fn put_close(close: bool, out: &mut Out)
    requires { 64 ≤ out.old.spare }
    ensures bytes { out.new.bytes ≡ out.old.bytes ++ close_line close }
    ensures spare { out.old.spare ≤ out.new.spare + 64 }
{
    if close {
        out.put_raw(b"connection: close\r\n");
    }
}

/// Appends the lines of a head and the empty line after them (RFC 9112, section 4). Takes no memory.
pub fn write_head(head: &Head, out: &mut Out)
    requires { 512 ≤ out.old.spare }
    ensures bytes { out.new.bytes ≡ out.old.bytes ++ head_bytes head.now }
    ensures spare { out.old.spare ≤ out.new.spare + 512 }
{
    put_status(head.status, out);
    put_kind(head.kind, out);
    put_length(head.length, out);
    put_allow(head.status, out);
    put_close(head.close, out);
    out.put_raw(b"\r\n");
}

fn glyph(digit: u8) -> u8
    requires { digit < 16 }
    ensures { result ≡ digit_glyph false digit }
{
    if digit < 10 {
        b'0' + digit
    } else {
        b'a' - 10 + digit
    }
}

// The last digits of the number, at most so many.
fn put_hex(more: u8, n: u64, out: &mut Out)
    requires most { n < 16 ^ more }
    requires some { 1 ≤ more }
    requires room { more ≤ out.old.spare }
    ensures bytes { out.new.bytes ≡ out.old.bytes ++ digits_onto more 16 false n [] }
    ensures spare { out.old.spare ≤ out.new.spare + more }
{
    if n >= 16 {
        put_hex(more - 1, n / 16, out);
    }
    out.put_raw(&[glyph((n % 16) as u8)]);
}

/// Appends one chunk of a body (RFC 9112, section 7.1): its length in lower-case hexadecimal digits, and the bytes. Takes
/// no memory.
pub fn write_chunk(bytes: &[u8], out: &mut Out)
    requires { length bytes.now + 20 ≤ out.old.spare }
    ensures bytes { out.new.bytes ≡ out.old.bytes ++ chunk bytes.now }
    ensures spare { out.old.spare ≤ out.new.spare + length bytes.now + 20 }
{
    put_hex(16, bytes.len() as u64, out);
    out.put_raw(b"\r\n");
    out.put_raw(bytes);
    out.put_raw(b"\r\n");
}
