//! What the fields of a head say of the body and of the connection (RFC 9112, sections 6.3 and 9.6).
ghost use Rattle.std.specs.Prelude.{◌≡◌, ◌≤◌, ◌<◌, ◌==◌, ◌&&◌, ◌||◌, ℕ, List, [], map, length, reverse, All, codes, slice_get, option_map, IsTrue};
ghost use Rattle.std.specs.List.{list_all, list_any};
ghost use Rattle.std.specs.Char.{is_ascii_digit};
ghost use Rattle.std.specs.Str.{str_eq_ignore_ascii_case};
ghost use Rattle.std.specs.Str.Parse.{digits_value};
ghost use Rattle.httparse.specs.Grammar.{skip_ows, trim_ows};
ghost use Rattle.httparse.specs.Spans.{IsHeaderWithin, header_bytes};
ghost use Rattle.dkv_heads.specs.Heads.{framing, framing_by, is_close, is_last, is_number, says_close, values};
ghost use Rattle.dkv_heads.specs.Bodies.{BodyOf, FramedAs, agrees};

use httparse::is_space_or_tab;
use httparse::spans::HeaderSpan;

/// The body that a head is followed by (RFC 9112, section 6.3).
#[derive(Clone, Copy, Debug, PartialEq, Eq)]
pub enum Body {
    /// No host, or several; or no clear length.
    Unclear,
    /// A length above the limit.
    TooLarge,
    /// So many bytes.
    Sized(usize),
    /// Chunks, as the last and only transfer coding.
    Chunked,
}

// Whether the texts are equal, but for the case of ASCII letters.
fn is_same(a: &[u8], b: &[u8]) -> bool
    ensures { result ≡ str_eq_ignore_ascii_case a.now b.now }
{
    a.eq_ignore_ascii_case(b)
}

fn count_named(head: &[u8], headers: &[HeaderSpan], name: &[u8]) -> usize
    requires within { All (IsHeaderWithin (length head.now)) headers.now }
    ensures count { result ≡ length (values name.now (map (header_bytes head.now) headers.now)) }
{
    let mut count = 0;
    for header in headers {
        if is_same(header.name.of(head), name) {
            count += 1;
        }
    }
    count
}

fn first_named<'a>(head: &'a [u8], headers: &[HeaderSpan], name: &[u8]) -> Option<&'a [u8]>
    requires within { All (IsHeaderWithin (length head.now)) headers.now }
    ensures first { option_map (λ v. v.now) result
        ≡ slice_get (values name.now (map (header_bytes head.now) headers.now)) 0 }
{
    for header in headers {
        if is_same(header.name.of(head), name) {
            return Some(header.value.of(head));
        }
    }
    None
}

fn is_number(value: &[u8]) -> bool
    ensures { result ≡ is_number value.now }
{
    !value.is_empty() && all_digits(value)
}

fn all_digits(value: &[u8]) -> bool
    ensures { result ≡ list_all is_ascii_digit value.now }
{
    value.iter().all(|b| b.is_ascii_digit())
}

// Whether the digits write zero.
fn is_zero(value: &[u8]) -> bool
    requires { IsTrue (list_all is_ascii_digit value.now) }
    ensures { result ≡ (digits_value 10 value.now == 0) }
{
    let mut value = value;
    while let [rest @ .., last] = value {
        if *last != b'0' {
            return false;
        }
        value = rest;
    }
    true
}

// Whether the numbers are equal that the digits write: digit by digit from the last on.
fn is_same_number(a: &[u8], b: &[u8]) -> bool
    requires a { IsTrue (is_number a.now) }
    requires b { IsTrue (is_number b.now) }
    ensures { result ≡ (digits_value 10 a.now == digits_value 10 b.now) }
{
    let mut a = a;
    let mut b = b;
    while let [a_rest @ .., a_last] = a
        && let [b_rest @ .., b_last] = b
    {
        if *a_last != *b_last {
            return false;
        }
        a = a_rest;
        b = b_rest;
    }
    is_zero(a) && is_zero(b)
}

// All lengths are numbers, and equal to the first.
fn lengths_agree(head: &[u8], headers: &[HeaderSpan], first: &[u8]) -> bool
    requires within { All (IsHeaderWithin (length head.now)) headers.now }
    requires first { IsTrue (is_number first.now) }
    ensures { result ≡ list_all (agrees first.now)
        (values (codes "content-length") (map (header_bytes head.now) headers.now)) }
{
    for header in headers {
        if is_same(header.name.of(head), b"content-length") {
            let value = header.value.of(head);
            if !is_number(value) || !is_same_number(value, first) {
                return false;
            }
        }
    }
    true
}

// The number that the digits write, or a number above the limit.
fn number(value: &[u8], limit: usize) -> usize
    requires number { IsTrue (is_number value.now) }
    requires limit { limit ≤ 16777216 }
    ensures small { result ≤ limit → digits_value 10 value.now ≡ result }
    ensures large { limit < result → limit < digits_value 10 value.now }
{
    let mut n = 0usize;
    for b in value {
        if n <= limit && b.is_ascii_digit() {
            n = n * 10 + (*b - b'0') as usize;
        }
    }
    n
}

// A body of one known length, of which the first value is this.
fn sized(head: &[u8], headers: &[HeaderSpan], first: &[u8], limit: usize) -> Body
    requires within { All (IsHeaderWithin (length head.now)) headers.now }
    requires limit { limit ≤ 16777216 }
    ensures { let lengths = values (codes "content-length")
        (map (header_bytes head.now) headers.now) in
        slice_get lengths 0 ≡ Some first.now → FramedAs limit (framing_by [] lengths) result }
{
    if !is_number(first) {
        return Body::Unclear;
    }
    if !lengths_agree(head, headers, first) {
        return Body::Unclear;
    }
    let n = number(first, limit);
    if n > limit {
        Body::TooLarge
    } else {
        Body::Sized(n)
    }
}

fn framed(head: &[u8], headers: &[HeaderSpan], limit: usize) -> Body
    requires within { All (IsHeaderWithin (length head.now)) headers.now }
    requires limit { limit ≤ 16777216 }
    ensures { FramedAs limit (framing (map (header_bytes head.now) headers.now)) result }
{
    let codings = count_named(head, headers, b"transfer-encoding");
    match first_named(head, headers, b"content-length") {
        Some(first) => {
            if codings == 0 {
                sized(head, headers, first, limit)
            } else {
                Body::Unclear
            }
        }
        None => match first_named(head, headers, b"transfer-encoding") {
            None => Body::Sized(0),
            Some(coding) => {
                if codings != 1 {
                    return Body::Unclear;
                }
                if is_same(coding, b"chunked") {
                    Body::Chunked
                } else {
                    Body::Unclear
                }
            }
        },
    }
}

fn is_host_count(hosts: usize, minor: u8) -> bool
    ensures { result ≡ ((hosts == 1) || ((hosts == 0) && (minor == 0))) }
{
    hosts == 1 || (hosts == 0 && minor == 0)
}

/// The body that follows a head whose header lines stand there. A body has at most `limit` bytes.
pub fn body_of(head: &[u8], headers: &[HeaderSpan], minor: u8, limit: usize) -> Body
    requires within { All (IsHeaderWithin (length head.now)) headers.now }
    requires limit { limit ≤ 16777216 }
    ensures { BodyOf limit minor (map (header_bytes head.now) headers.now) result }
{
    if is_host_count(count_named(head, headers, b"host"), minor) {
        framed(head, headers, limit)
    } else {
        Body::Unclear
    }
}

fn trimmed_front(part: &[u8]) -> &[u8]
    ensures { result.now ≡ skip_ows part.now }
{
    let mut part = part;
    while let [first, rest @ ..] = part
        && is_space_or_tab(*first)
    {
        part = rest;
    }
    part
}

fn trimmed_back(part: &[u8]) -> &[u8]
    ensures { result.now ≡ reverse (skip_ows (reverse part.now)) }
{
    let mut part = part;
    while let [rest @ .., last] = part
        && is_space_or_tab(*last)
    {
        part = rest;
    }
    part
}

// Without the blanks at both ends.
fn trimmed(part: &[u8]) -> &[u8]
    ensures { result.now ≡ trim_ows part.now }
{
    trimmed_back(trimmed_front(part))
}

// The part between two commas is close, but for case and the blanks round it.
fn is_close(part: &[u8]) -> bool
    ensures { result ≡ is_close part.now }
{
    is_same(trimmed(part), b"close")
}

fn says_close(value: &[u8]) -> bool
    ensures { result ≡ says_close value.now }
{
    value.split(|b| *b == b',').any(|part| is_close(part))
}

/// Whether the session ends with the request: version 1.0, or a `connection` line that says `close`.
pub fn is_last(head: &[u8], headers: &[HeaderSpan], minor: u8) -> bool
    requires within { All (IsHeaderWithin (length head.now)) headers.now }
    ensures { result ≡ is_last minor (map (header_bytes head.now) headers.now) }
{
    minor == 0 || some_close(head, headers)
}

fn some_close(head: &[u8], headers: &[HeaderSpan]) -> bool
    requires within { All (IsHeaderWithin (length head.now)) headers.now }
    ensures { result ≡ list_any says_close
        (values (codes "connection") (map (header_bytes head.now) headers.now)) }
{
    for header in headers {
        if is_same(header.name.of(head), b"connection") && says_close(header.value.of(head)) {
            return true;
        }
    }
    false
}
