//! What the bytes of a head are, as `httparse` reads them.
ghost use Rattle.std.specs.Prelude.{◌≡◌, ◌≢◌, ◌+◌, ◌<◌, ◌≤◌, ◌||◌, ◌==◌, ℕ, List, length, take, drop, slice_index, IfSome, IfNone, MatchOption, IsTrue};
ghost use Rattle.dkv_heads.specs.declared.limits.TheConstants.{MAX_HEAD_BYTES, MAX_HEADER_LINES};
ghost use Rattle.httparse.specs.Ascii.{space, line_feed, carriage_return};
ghost use Rattle.std.specs.List.{list_all};
ghost use Rattle.dkv_heads.specs.Heads.{is_open};
ghost use Rattle.dkv_heads.specs.Judged.{IsOpenAt, NoSpace, Judged, EndsLine};

use httparse::Status;
use httparse::spans::{HeaderSpan, RequestSpans, parse_request};
use memchr::memchr;

/// What the bytes are so far.
#[derive(Clone, Copy, Debug)]
pub enum Verdict {
    /// A whole head, whose parts stand there.
    Whole(RequestSpans),
    /// More bytes may make a head.
    Open,
    /// No bytes that follow make one.
    Never,
}

fn is_open(bytes: &[u8]) -> bool
    ensures { result ≡ list_all is_open bytes.now }
{
    bytes
        .iter()
        .all(|b| *b != b' ' && *b != b'\r' && *b != b'\n')
}

// The place of the first space, where what follows it ends no target.
fn open_space(bytes: &[u8]) -> Option<usize>
    ensures { MatchOption result (NoSpace bytes.now) (IsOpenAt bytes.now) }
{
    match memchr(b' ', bytes) {
        Some(at) => {
            if is_open(&bytes[at + 1..]) {
                Some(at)
            } else {
                None
            }
        }
        None => None,
    }
}

/// Judges at most as many bytes as a head may have.
pub fn judge(bytes: &[u8], headers: &mut [HeaderSpan]) -> Verdict
    requires room { length headers.old ≡ MAX_HEADER_LINES }
    requires size { length bytes.now ≤ MAX_HEAD_BYTES }
    ensures { Judged bytes.now headers.new result }
{
    match open_space(bytes) {
        Some(at) => match parse_request(&bytes[..at + 1], headers) {
            Err(_) => Verdict::Never,
            Ok(Status::Partial) => Verdict::Open,
            // It has one space.
            Ok(Status::Complete(_)) => Verdict::Open,
        },
        None => match parse_request(bytes, headers) {
            Err(_) => Verdict::Never,
            Ok(Status::Partial) => Verdict::Open,
            Ok(Status::Complete(spans)) => Verdict::Whole(spans),
        },
    }
}

/// Whether the bytes are a head without fields, the last of them aside where it is a line feed behind another.
pub fn ends_line(bytes: &[u8], headers: &mut [HeaderSpan]) -> bool
    ensures { IsTrue result → EndsLine bytes.now }
{
    match parse_request(bytes, headers) {
        Ok(Status::Complete(spans)) => spans.headers == 0 && spans.len == bytes.len(),
        Ok(Status::Partial) => false,
        Err(_) => false,
    }
}
