//! What is kept of the bytes since the last request was taken, and what one more piece makes of it.
ghost use Rattle.std.specs.Prelude.{◌≡◌, ◌<◌, ◌≤◌, ℕ, List, ◌++◌, length, take, IfOk};
ghost use Rattle.dkv_heads.specs.Requests.{body_limit};
ghost use Rattle.dkv_http.specs.declared.phases.Phase.TheVariants as phase;
ghost use Rattle.dkv_http.specs.Conns.{Follows, IsFinal, IsFresh, IsNext, Passes};
ghost use Rattle.dkv_http.specs.Feeds.{Feeds};
ghost use Rattle.dkv_http.specs.Holds.{Holds, Fits, HasRoom, Sound, Takes, Waits, IsFailed, IsOver, IsWhole, waiting, waiting_size, waiting_trailers};

use crate::buffer::Buffer;
use crate::phases::{Feed, HeadAt, Phase, Standing, what_stands};
use dkv_base::limits::{MAX_REQUEST_BYTES, MAX_WIDE_REQUEST_BYTES};
use dkv_base::{NoMemory, Profile};
use dkv_heads::limits::{
    MAX_CHUNK_LINE_BYTES, MAX_HEAD_BYTES, MAX_HEADER_LINES, MAX_TRAILER_SECTION_BYTES,
};
use dkv_heads::statuses::{BAD_REQUEST, HEADER_FIELDS_TOO_LARGE};
use dkv_heads::{LineAt, SizeAt, StartAt};
use httparse::spans::{EMPTY_HEADER_SPAN, HeaderSpan, RequestSpans, Span};
use std::alloc::Global;

/// The head, the content and the line so far, and where in them the next byte stands.
#[derive(Debug, Drop)]
pub(crate) struct State {
    pub(crate) head: Buffer,
    pub(crate) body: Buffer,
    pub(crate) line: Buffer,
    pub(crate) headers: Vec<HeaderSpan>,
    pub(crate) spans: RequestSpans,
    pub(crate) close: bool,
    pub(crate) phase: Phase,
    pub(crate) profile: Profile,
}

/// The most bytes of a body.
pub(crate) fn body_limit(profile: Profile) -> usize
    ensures { result ≡ body_limit profile }
{
    match profile {
        Profile::Narrow => MAX_REQUEST_BYTES,
        Profile::Wide => MAX_WIDE_REQUEST_BYTES,
    }
}

impl State {
    pub(crate) fn new(alloc: Global, profile: Profile) -> Result<State, NoMemory>
        ensures rooms { IfOk result (λ s. HasRoom s × Fits s) }
        ensures starts { IfOk result (λ s. (s.profile ≡ profile) × IsFresh s) }
    {
        let head = Buffer::new(alloc, MAX_HEAD_BYTES)?;
        let body = Buffer::new(alloc, body_limit(profile))?;
        let line = Buffer::new(alloc, MAX_TRAILER_SECTION_BYTES)?;
        let headers = match Vec::from_elem(alloc, EMPTY_HEADER_SPAN, MAX_HEADER_LINES) {
            Ok(headers) => headers,
            Err(_) => return Err(NoMemory),
        };
        let empty = Span { start: 0, end: 0 };
        Ok(State {
            head,
            body,
            line,
            headers,
            spans: RequestSpans {
                method: empty,
                path: empty,
                version: 0,
                headers: 0,
                len: 0,
            },
            close: false,
            phase: Phase::Head(HeadAt::Start(StartAt::Blank)),
            profile,
        })
    }

    // Passes over a whole request.
    pub(crate) fn pass(&mut self)
        requires rooms { HasRoom self.old }
        ensures rooms { HasRoom self.new }
        ensures fits { Sound self.new }
        ensures follows { Follows self.old self.new }
        ensures profile { self.new.profile ≡ self.old.profile }
    {
        self.head.clear();
        self.body.clear();
        self.line.clear();
        self.phase = if self.close {
            Phase::Over
        } else {
            Phase::Head(HeadAt::Start(StartAt::Blank))
        };
    }

    // The head stands so, unless as many bytes came as it may have.
    pub(crate) fn wait(&mut self, at: HeadAt)
        ensures { self.new ≡ record self.old { phase = waiting at self.old.head.bytes } }
    {
        if self.head.len() == MAX_HEAD_BYTES {
            self.phase = Phase::Failed(HEADER_FIELDS_TOO_LARGE);
        } else {
            self.phase = Phase::Head(at);
        }
    }

    pub(crate) fn wait_size(&mut self, at: SizeAt)
        ensures { self.new ≡ record self.old { phase = waiting_size at self.old.line.bytes } }
    {
        if self.line.len() == MAX_CHUNK_LINE_BYTES {
            self.phase = Phase::Failed(BAD_REQUEST);
        } else {
            self.phase = Phase::Size(at);
        }
    }

    pub(crate) fn wait_trailers(&mut self, at: LineAt)
        ensures { self.new ≡ record self.old { phase = waiting_trailers at self.old.line.bytes } }
    {
        if self.line.len() == MAX_TRAILER_SECTION_BYTES {
            self.phase = Phase::Failed(BAD_REQUEST);
        } else {
            self.phase = Phase::Trailers(at);
        }
    }

    // Takes one byte or more.
    fn take(&mut self, bytes: &[u8]) -> usize
        requires waits { Waits self.old.phase }
        requires some { 0 < length bytes.now }
        requires rooms { HasRoom self.old }
        requires fits { Fits self.old }
        ensures rooms { HasRoom self.new }
        ensures profile { self.new.profile ≡ self.old.profile }
        ensures fits { Fits self.new }
        ensures within { result ≤ length bytes.now }
        ensures some { 0 < result }
        ensures holds { (held : List ℕ) → Holds self.old held
            → Holds self.new (held ++ take result bytes.now) }
    {
        match self.phase {
            Phase::Head(at) => {
                self.take_head(at, bytes[0]);
                1
            }
            Phase::Sized(need) => self.take_sized(need, bytes),
            Phase::Size(at) => {
                self.take_size(at, bytes[0]);
                1
            }
            Phase::Data(left) => self.take_data(left, bytes),
            Phase::End(cr) => {
                self.take_end(cr, bytes[0]);
                1
            }
            Phase::Trailers(at) => {
                self.take_trailer(at, bytes[0]);
                1
            }
            Phase::Whole | Phase::Last | Phase::Failed(_) | Phase::Over => 1,
        }
    }

    fn feed_on(&mut self, bytes: &[u8]) -> Feed
        requires waits { Waits self.old.phase }
        requires rooms { HasRoom self.old }
        requires fits { Fits self.old }
        ensures rooms { HasRoom self.new }
        ensures profile { self.new.profile ≡ self.old.profile }
        ensures fits { Fits self.new }
        ensures takes { Takes self.old self.new bytes.now result }
    {
        let mut taken = 0;
        while taken < bytes.len() {
            taken += self.take(&bytes[taken..]);
            match what_stands(self.phase) {
                Standing::Waits => {}
                Standing::Whole => return Feed::Request { taken },
                Standing::Failed(status) => return Feed::Bad { status, taken },
                Standing::Over => return Feed::More,
            }
        }
        Feed::More
    }

    /// Takes a piece of the connection.
    pub(crate) fn feed(&mut self, bytes: &[u8]) -> Feed
        requires rooms { HasRoom self.old }
        requires fits { Sound self.old }
        ensures rooms { HasRoom self.new }
        ensures profile { self.new.profile ≡ self.old.profile }
        ensures fits { Sound self.new }
        ensures waits { Waits self.old.phase → Takes self.old self.new bytes.now result }
        // More is wanted, a request is whole or it is bad, as the bytes since the last request say.
        ensures feeds { Waits self.old.phase → (held : List ℕ) → Holds self.old held
            → Feeds self.old.profile held bytes.now result }
        // A request that is whole stays whole until it is asked for; behind the last one bytes are passed over.
        ensures next { IsNext self.old → (result ≡ Feed.Request 0) × (self.new ≡ self.old) }
        ensures last { IsFinal self.old → (result ≡ Feed.More) × Passes self.old self.new }
        // A refusal stays.
        ensures failed { (status : ℕ) → IsFailed self.old status
            → (result ≡ Feed.Bad status 0) × (self.new ≡ self.old) }
        ensures over { IsOver self.old.phase → (result ≡ Feed.More) × (self.new ≡ self.old) }
        ensures ready { (taken : ℕ) → result ≡ Feed.Request taken
            → (taken ≤ length bytes.now) × IsWhole self.new }
        ensures refused { (status taken : ℕ) → result ≡ Feed.Bad status taken
            → (taken ≤ length bytes.now) × IsFailed self.new status }
    {
        match what_stands(self.phase) {
            Standing::Waits => self.feed_on(bytes),
            Standing::Whole => {
                if self.close {
                    self.phase = Phase::Last;
                    Feed::More
                } else {
                    Feed::Request { taken: 0 }
                }
            }
            Standing::Failed(status) => Feed::Bad { status, taken: 0 },
            Standing::Over => Feed::More,
        }
    }
}
