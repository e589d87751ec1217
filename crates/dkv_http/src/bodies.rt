//! A body, of one known length or in chunks, byte after byte or in pieces.
ghost use Rattle.std.specs.Prelude.{◌≡◌, ◌<◌, ◌≤◌, ℕ, List, [], ◌∷◌, ◌++◌, length, take};
ghost use Rattle.httparse.specs.Grammar.{RequestHead, ChunkLine, chunk_size};
ghost use Rattle.httparse.specs.Spans.{IsRequestWithin};
ghost use Rattle.dkv_heads.specs.declared.limits.TheConstants.{MAX_CHUNK_LINE_BYTES};
ghost use Rattle.dkv_heads.specs.Requests.{body_limit};
ghost use Rattle.dkv_http.specs.declared.phases.Phase.TheVariants as phase;
ghost use Rattle.dkv_http.specs.Holds.{Holds, Fits, HasRoom, InLine};

use crate::phases::Phase;
use crate::state::{State, body_limit};
use dkv_heads::limits::MAX_TRAILER_SECTION_BYTES;
use dkv_heads::statuses::{BAD_REQUEST, CONTENT_TOO_LARGE};
use dkv_heads::{LineAt, LineStep, SizeAt, next_line, next_size};
use httparse::{Status, parse_chunk_size};

impl State {
    // So many of the bytes are of the body.
    pub(crate) fn take_sized(&mut self, need: usize, bytes: &[u8]) -> usize
        requires phase { self.old.phase ≡ phase.Sized need }
        requires rooms { HasRoom self.old }
        requires fits { Fits self.old }
        ensures rooms { HasRoom self.new }
        ensures profile { self.new.profile ≡ self.old.profile }
        ensures fits { Fits self.new }
        ensures within { result ≤ length bytes.now }
        ensures some { 0 < length bytes.now → 0 < need → 0 < result }
        ensures holds { (held : List ℕ) → Holds self.old held
            → Holds self.new (held ++ take result bytes.now) }
    {
        let n = need.min(bytes.len());
        self.body.extend(&bytes[..n]);
        if n == need {
            self.phase = Phase::Whole;
        } else {
            self.phase = Phase::Sized(need - n);
        }
        n
    }

    // A chunk line is whole.
    fn whole_size(&mut self, size: u64)
        requires rooms { HasRoom self.old }
        requires within { IsRequestWithin self.old.head.bytes
            self.old.headers.items self.old.spans }
        requires most { length self.old.body.bytes ≤ body_limit self.old.profile }
        ensures rooms { HasRoom self.new }
        ensures profile { self.new.profile ≡ self.old.profile }
        ensures fits { Fits self.new }
        ensures holds { (h : RequestHead) (held : List ℕ) (l : ChunkLine) → InLine self.old held l h
            → size ≡ chunk_size l → Holds self.new held }
    {
        let room = body_limit(self.profile) - self.body.len();
        if size == 0 {
            self.line.clear();
            self.phase = Phase::Trailers(LineAt::Start);
        } else if size > room as u64 {
            self.phase = Phase::Failed(CONTENT_TOO_LARGE);
        } else {
            self.line.clear();
            self.phase = Phase::Data(size as usize);
        }
    }

    pub(crate) fn take_size(&mut self, at: SizeAt, byte: u8)
        requires phase { self.old.phase ≡ phase.Size at }
        requires rooms { HasRoom self.old }
        requires fits { Fits self.old }
        ensures rooms { HasRoom self.new }
        ensures profile { self.new.profile ≡ self.old.profile }
        ensures fits { Fits self.new }
        ensures holds { (held : List ℕ) → Holds self.old held → Holds self.new (held ++ byte ∷ []) }
    {
        let few = self.line.len() < 16;
        let some = self.line.len() > 0;
        self.line.push(byte);
        match next_size(at, few, some, byte) {
            Some(next) => self.wait_size(next),
            None => match parse_chunk_size(self.line.as_slice()) {
                Err(_) => self.phase = Phase::Failed(BAD_REQUEST),
                Ok(Status::Partial) => self.wait_size(SizeAt::Judged),
                Ok(Status::Complete(found)) => self.whole_size(found.1),
            },
        }
    }

    pub(crate) fn take_data(&mut self, left: usize, bytes: &[u8]) -> usize
        requires phase { self.old.phase ≡ phase.Data left }
        requires rooms { HasRoom self.old }
        requires fits { Fits self.old }
        ensures rooms { HasRoom self.new }
        ensures profile { self.new.profile ≡ self.old.profile }
        ensures fits { Fits self.new }
        ensures within { result ≤ length bytes.now }
        ensures some { 0 < length bytes.now → 0 < left → 0 < result }
        ensures holds { (held : List ℕ) → Holds self.old held
            → Holds self.new (held ++ take result bytes.now) }
    {
        let n = left.min(bytes.len());
        self.body.extend(&bytes[..n]);
        if n == left {
            self.phase = Phase::End(false);
        } else {
            self.phase = Phase::Data(left - n);
        }
        n
    }

    pub(crate) fn take_end(&mut self, cr: bool, byte: u8)
        requires phase { self.old.phase ≡ phase.End cr }
        requires rooms { HasRoom self.old }
        requires fits { Fits self.old }
        ensures rooms { HasRoom self.new }
        ensures profile { self.new.profile ≡ self.old.profile }
        ensures fits { Fits self.new }
        ensures holds { (held : List ℕ) → Holds self.old held → Holds self.new (held ++ byte ∷ []) }
    {
        if cr {
            if byte == b'\n' {
                self.phase = Phase::Size(SizeAt::Digits);
            } else {
                self.phase = Phase::Failed(BAD_REQUEST);
            }
        } else if byte == b'\r' {
            self.phase = Phase::End(true);
        } else {
            self.phase = Phase::Failed(BAD_REQUEST);
        }
    }

    pub(crate) fn take_trailer(&mut self, at: LineAt, byte: u8)
        requires phase { self.old.phase ≡ phase.Trailers at }
        requires rooms { HasRoom self.old }
        requires fits { Fits self.old }
        ensures rooms { HasRoom self.new }
        ensures profile { self.new.profile ≡ self.old.profile }
        ensures fits { Fits self.new }
        ensures holds { (held : List ℕ) → Holds self.old held → Holds self.new (held ++ byte ∷ []) }
    {
        self.line.push(byte);
        match next_line(at, byte) {
            LineStep::On(next) => self.wait_trailers(next),
            LineStep::Field => self.wait_trailers(LineAt::Start),
            LineStep::End => {
                if self.line.len() == MAX_TRAILER_SECTION_BYTES {
                    // Where the empty line is a line feed alone, the others have a byte too many.
                    match at {
                        LineAt::EndCr => self.phase = Phase::Whole,
                        _ => self.phase = Phase::Failed(BAD_REQUEST),
                    }
                } else {
                    self.phase = Phase::Whole;
                }
            }
            LineStep::Other => self.phase = Phase::Failed(BAD_REQUEST),
        }
    }
}
