//! A connection: its bytes in, its requests out.
ghost use Rattle.std.specs.Prelude.{◌≡◌, ◌≤◌, ℕ, List, [], length, IfOk, OnOk, OnErr};
ghost use Rattle.dkv_http.specs.declared.phases.Feed.TheVariants as feed;
ghost use Rattle.dkv_heads.specs.Requests.{Received};
ghost use Rattle.dkv_http.specs.Holds.{IsFailed, IsOver, IsWhole};
ghost use Rattle.dkv_http.specs.Conns.{CanBeAsked, Follows, Gives, IsFinal, IsFresh, IsNext, Passes};
ghost use Rattle.dkv_http.specs.Sessions.{Session, Answered, Serves};

use crate::hasher::hasher_of;
use crate::phases::Feed;
use crate::state::State;
use dkv_base::{Bytes, NoMemory, Profile};
use http_header::{HeaderMap, HeaderName, HeaderValue};
use std::alloc::Global;
use std::hash::RandomState;
use std::marker::Model;

/// A whole request.
#[derive(Debug, Drop)]
pub struct Request {
    /// Its bytes as they came, in their case.
    pub method: Bytes,
    /// What stands between the two spaces of the request line.
    pub target: Bytes,
    /// 0 of HTTP/1.0, 1 of HTTP/1.1.
    pub version_minor: u8,
    /// The fields, with names in lower case and values without the blanks around them.
    pub headers: HeaderMap<HeaderValue>,
    /// The content, without the framing of chunks.
    pub body: Bytes,
    /// The session ends with it.
    pub close: bool,
}

/// The bytes of a connection, in whatever pieces they come.
#[derive(Debug, Drop)]
pub struct Conn {
    state: State,
    hasher: RandomState,
    alloc: Global,
}

impl Model for Conn {
    ghost use Rattle.dkv_http.specs.declared.state.State.{State};
    ghost use Rattle.dkv_http.specs.Holds.{HasRoom, Sound};

    ghost Value = { State };

    ghost view = { λ c. c.state };

    ghost invariant = { λ c. HasRoom c.state × Sound c.state };
}

// The list of bytes in memory of its own.
fn copied(alloc: Global, bytes: &[u8]) -> Result<Bytes, NoMemory>
    ensures { IfOk result (λ b. b ≡ bytes.now) }
{
    Bytes::copy_of(alloc, bytes)
}

impl Conn {
    /// Takes all memory that feeding needs. The keys are for the hasher of the header map.
    pub fn new(alloc: Global, keys: [u64; 2], profile: Profile) -> Result<Conn, NoMemory>
        ensures starts { IfOk result (λ c. (c.profile ≡ profile) × IsFresh c) }
        ensures session { IfOk result (λ c. Session c [] []) }
    {
        let hasher = hasher_of(keys)?;
        let state = State::new(alloc, profile)?;
        Ok(Conn {
            state,
            hasher,
            alloc,
        })
    }

    /// Takes the next bytes of the connection. Takes no memory.
    pub fn feed(&mut self, bytes: &[u8]) -> Feed
        // The answer is what all bytes of the session say.
        ensures session { (fed : List ℕ) (qs : List Received) → Session self.old fed qs
            → Answered self.old.profile self.new fed qs bytes.now result }
        // A request that is whole stays whole until it is asked for; behind the last one bytes are passed over.
        ensures next { IsNext self.old → (result ≡ Feed.Request 0) × (self.new ≡ self.old) }
        ensures last { IsFinal self.old → (result ≡ Feed.More) × Passes self.old self.new }
        // A refusal stays.
        ensures failed { (status : ℕ) → IsFailed self.old status
            → (result ≡ Feed.Bad status 0) × (self.new ≡ self.old) }
        ensures over { IsOver self.old.phase → (result ≡ Feed.More) × (self.new ≡ self.old) }
        ensures ready { (taken : ℕ) → result ≡ Feed.Request taken
            → (taken ≤ length bytes.now) × IsWhole self.new }
        ensures refused { (status taken : ℕ) → result ≡ Feed.Bad status taken
            → (taken ≤ length bytes.now) × IsFailed self.new status }
        ensures profile { self.new.profile ≡ self.old.profile }
    {
        self.state.feed(bytes)
    }

    /// The request that is whole. After want of memory it can be asked again.
    pub fn request(&mut self) -> Result<Request, NoMemory>
        requires { CanBeAsked self.old }
        ensures request { IfOk result (λ r. Gives self.old r) }
        ensures session { IfOk result (λ r. Serves self.old self.new r) }
        ensures ok { OnOk result (Follows self.old self.new) }
        ensures err { OnErr result (self.new ≡ self.old) }
        ensures profile { self.new.profile ≡ self.old.profile }
    {
        let head = self.state.head.as_slice();
        let method = copied(self.alloc, self.state.spans.method.of(head))?;
        let target = copied(self.alloc, self.state.spans.path.of(head))?;
        let mut headers = HeaderMap::with_hasher(self.alloc, self.hasher);
        for header in &self.state.headers[..self.state.spans.headers] {
            let name = match HeaderName::from_bytes(self.alloc, header.name.of(head)) {
                Ok(name) => name,
                Err(_) => return Err(NoMemory),
            };
            let value = match HeaderValue::from_bytes(self.alloc, header.value.of(head)) {
                Ok(value) => value,
                Err(_) => return Err(NoMemory),
            };
            match headers.append(name, value) {
                Ok(_) => {}
                Err(_) => return Err(NoMemory),
            }
        }
        let body = copied(self.alloc, self.state.body.as_slice())?;
        let request = Request {
            method,
            target,
            version_minor: self.state.spans.version,
            headers,
            body,
            close: self.state.close,
        };
        self.state.pass();
        Ok(request)
    }
}
