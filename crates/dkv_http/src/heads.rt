//! A head, byte after byte.
ghost use Rattle.std.specs.Prelude.{◌≡◌, ◌<◌, ◌≤◌, ℕ, List, [], ◌∷◌, ◌++◌, length, IsTrue};
ghost use Rattle.httparse.specs.Ascii.{line_feed};
ghost use Rattle.httparse.specs.Grammar.{RequestHead};
ghost use Rattle.httparse.specs.Spans.{IsRequestAt, IsRequestWithin};
ghost use Rattle.dkv_heads.specs.declared.limits.TheConstants.{MAX_HEAD_BYTES, MAX_HEADER_LINES};
ghost use Rattle.dkv_heads.specs.Heads.{HasNoHead};
ghost use Rattle.dkv_heads.specs.Scans.{Front};
ghost use Rattle.dkv_http.specs.declared.phases.Phase.TheVariants as phase;
ghost use Rattle.dkv_http.specs.Holds.{Holds, Fits, HasRoom};

use crate::buffer::Buffer;
use crate::phases::{HeadAt, Phase};
use crate::state::{State, body_limit};
use dkv_heads::limits::{MAX_HEAD_BYTES, MAX_HEADER_LINES};
use dkv_heads::statuses::{BAD_REQUEST, CONTENT_TOO_LARGE};
use dkv_heads::{
    Body, LineAt, LineStep, SizeAt, Verdict, body_of, ends_line, is_last, judge, next_line,
    next_start,
};
use httparse::spans::{HeaderSpan, RequestSpans};

// Whether the bytes, which end in a line feed, are the first line of a head. Leaves them as they were.
fn ends_first_line(head: &mut Buffer, headers: &mut [HeaderSpan]) -> bool
    requires { length head.old.bytes < head.old.most }
    ensures same { head.new ≡ head.old }
    ensures front { IsTrue result → (before : List ℕ)
        → head.old.bytes ≡ before ++ line_feed ∷ [] → Front 0 head.old.bytes }
{
    head.push(b'\n');
    let is_line = ends_line(head.as_slice(), headers);
    head.pop();
    is_line
}

impl State {
    // A head is whole.
    fn whole_head(&mut self, spans: RequestSpans)
        requires rooms { HasRoom self.old }
        requires within { IsRequestWithin self.old.head.bytes self.old.headers.items spans }
        requires body { self.old.body.bytes ≡ [] }
        requires line { self.old.line.bytes ≡ [] }
        ensures rooms { HasRoom self.new }
        ensures profile { self.new.profile ≡ self.old.profile }
        ensures fits { Fits self.new }
        ensures holds { (h : RequestHead)
            → IsRequestAt self.old.head.bytes self.old.headers.items spans h
            → spans.len ≡ length self.old.head.bytes → length h.fields ≤ MAX_HEADER_LINES
            → length self.old.head.bytes ≤ MAX_HEAD_BYTES → Holds self.new self.old.head.bytes }
    {
        let most = body_limit(self.profile);
        let headers = &self.headers[..spans.headers];
        let body = body_of(self.head.as_slice(), headers, spans.version, most);
        let close = is_last(self.head.as_slice(), headers, spans.version);
        self.close = close;
        self.spans = spans;
        match body {
            Body::Unclear => self.phase = Phase::Failed(BAD_REQUEST),
            Body::TooLarge => self.phase = Phase::Failed(CONTENT_TOO_LARGE),
            Body::Sized(n) => {
                if n == 0 {
                    self.phase = Phase::Whole;
                } else {
                    self.phase = Phase::Sized(n);
                }
            }
            Body::Chunked => self.phase = Phase::Size(SizeAt::Digits),
        }
    }

    // Asks httparse about the head with its last byte.
    fn ask_head(&mut self, byte: u8)
        requires rooms { HasRoom self.old }
        requires most { length self.old.head.bytes ≤ MAX_HEAD_BYTES }
        requires body { self.old.body.bytes ≡ [] }
        requires line { self.old.line.bytes ≡ [] }
        ensures rooms { HasRoom self.new }
        ensures profile { self.new.profile ≡ self.old.profile }
        ensures fits { Fits self.new }
        ensures holds { (front : List ℕ) → HasNoHead front
            → self.old.head.bytes ≡ front ++ byte ∷ [] → Holds self.new self.old.head.bytes }
    {
        match judge(self.head.as_slice(), &mut self.headers) {
            Verdict::Never => self.phase = Phase::Failed(BAD_REQUEST),
            Verdict::Open => {
                if byte == b'\n'
                    && self.head.len() < MAX_HEAD_BYTES
                    && ends_first_line(&mut self.head, &mut self.headers)
                {
                    self.wait(HeadAt::Line(LineAt::Start, 0));
                } else {
                    self.wait(HeadAt::Tail);
                }
            }
            Verdict::Whole(spans) => self.whole_head(spans),
        }
    }

    pub(crate) fn take_head(&mut self, at: HeadAt, byte: u8)
        requires phase { self.old.phase ≡ phase.Head at }
        requires rooms { HasRoom self.old }
        requires fits { Fits self.old }
        ensures rooms { HasRoom self.new }
        ensures profile { self.new.profile ≡ self.old.profile }
        ensures fits { Fits self.new }
        ensures holds { (held : List ℕ) → Holds self.old held → Holds self.new (held ++ byte ∷ []) }
    {
        self.head.push(byte);
        match at {
            HeadAt::Start(at) => match next_start(at, byte) {
                Some(next) => self.wait(HeadAt::Start(next)),
                None => self.ask_head(byte),
            },
            HeadAt::Line(at, fields) => match next_line(at, byte) {
                LineStep::On(next) => self.wait(HeadAt::Line(next, fields)),
                LineStep::Field => {
                    if fields < MAX_HEADER_LINES {
                        self.wait(HeadAt::Line(LineAt::Start, fields + 1));
                    } else {
                        self.ask_head(byte);
                    }
                }
                LineStep::End => self.ask_head(byte),
                LineStep::Other => self.ask_head(byte),
            },
            HeadAt::Tail => self.ask_head(byte),
        }
    }
}
