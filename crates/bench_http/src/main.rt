//! Requests through the layers of HTTP: each is fed, taken, planned and answered, without a network and without a database.
//!
//! Its words are a load, the number of requests, and of how many bytes a piece is that is fed, 0 where all are fed at once. The
//! loads are `read`, one key, answered with its entry; `write`, one SET, answered with its stamp; `body`, 2,000,000 bytes whose
//! length is told, and `chunks`, the same in chunks, both answered with 404. The script `bench/http.sh` times it.
#![tactic(auto)]

mod load;

use dkv_base::{Answer, Bytes, NoMemory, Profile};
use dkv_http::{Conn, Feed, Request};
use dkv_route::{Plan, answer, plan};
use dkv_token::Site;
use load::{entries, site, text_of};
use std::alloc::Global;
use std::{env, io};

// The request that a text is, fed in pieces; nothing where it is none.
fn request_of(conn: &mut Conn, text: &[u8], piece: usize) -> Result<Option<Request>, NoMemory> {
    let size = if piece == 0 { text.len() } else { piece };
    for part in text.chunks(size.max(1)) {
        match conn.feed(part) {
            Feed::More => {}
            Feed::Request { taken: _ } => return Ok(Some(conn.request()?)),
            Feed::Bad { .. } => return Ok(None),
        }
    }
    Ok(None)
}

// The response to it.
fn response(alloc: Global, request: &Request, site: &Site) -> Result<Bytes, NoMemory> {
    match plan(alloc, request, site, 0)? {
        Plan::Reply(bytes) => Ok(bytes),
        Plan::Read(_) => answer(alloc, &Answer::Entries(entries(alloc)?), request.close),
        Plan::Write(_) => answer(alloc, &Answer::Written { n: 1 }, request.close),
        Plan::Watch(_) | Plan::Stop => Ok(Bytes::of(Vec::new(alloc))),
    }
}

// The bytes of all responses; nothing where a text is no request, or the load has no such name.
fn answered(
    alloc: Global,
    name: &str,
    requests: u32,
    piece: usize,
) -> Result<Option<u64>, NoMemory> {
    let Some(text) = text_of(alloc, name)? else {
        return Ok(None);
    };
    let site = site(alloc)?;
    let mut conn = Conn::new(alloc, [1, 2], Profile::Narrow)?;
    let mut bytes = 0u64;
    for _ in 0..requests {
        let Some(request) = request_of(&mut conn, text.as_slice(), piece)? else {
            return Ok(None);
        };
        let response = response(alloc, &request, &site)?;
        bytes = bytes.saturating_add(response.len() as u64);
    }
    Ok(Some(bytes))
}

fn number(word: Option<String>) -> u32 {
    match word {
        Some(digits) => digits.as_str().parse::<u32>().unwrap_or(0),
        None => 0,
    }
}

fn main(rt: HostRuntime) -> io::Result<()> {
    let mut words = env::args(&rt)?;
    let _program = words.next();
    let name = words.next().unwrap_or(String::new(rt.alloc()));
    let requests = number(words.next());
    let piece = number(words.next());
    match answered(rt.alloc(), name.as_str(), requests, piece as usize) {
        Ok(Some(bytes)) => println!(rt; "{requests} requests: {bytes} bytes of responses"),
        Ok(None) => println!(rt; "words: read, write, body or chunks, requests, bytes of a piece"),
        Err(NoMemory) => println!(rt; "no memory"),
    }
}
