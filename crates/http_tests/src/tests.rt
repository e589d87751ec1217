//! What the tables share: a connection is fed in pieces, and its answers are told in words.
use dkv_base::{NoMemory, Profile};
use dkv_http::{Conn, Feed, Request};
use std::alloc::Global;

mod fields;
mod long;
mod plans;
mod refused;
mod served;

/// What a whole connection is answered: its requests, and how it stands where they end.
fn told(alloc: Global, pieces: &[&[u8]]) -> Result<Vec<u8>, NoMemory> {
    let mut conn = Conn::new(alloc, [1, 2], Profile::Narrow)?;
    let mut said = Vec::new(alloc);
    for piece in pieces {
        if !feed_piece(&mut conn, piece, &mut said)? {
            break;
        }
    }
    Ok(said)
}

// Whether more bytes may come.
fn feed_piece(conn: &mut Conn, piece: &[u8], said: &mut Vec<u8>) -> Result<bool, NoMemory> {
    let mut rest = piece;
    for _ in 0..=piece.len() {
        match conn.feed(rest) {
            Feed::More => return Ok(true),
            Feed::Request { taken } => {
                let request = conn.request()?;
                tell(said, &request)?;
                rest = &rest[taken..];
            }
            Feed::Bad { status, taken: _ } => {
                tell_bad(said, status)?;
                return Ok(false);
            }
        }
    }
    Ok(true)
}

// A request is told as its method, its target, its version, its body and whether it is the last.
fn tell(said: &mut Vec<u8>, request: &Request) -> Result<(), NoMemory> {
    said.extend_from_slice(request.method.as_slice())?;
    said.extend_from_slice(b" ")?;
    said.extend_from_slice(request.target.as_slice())?;
    said.extend_from_slice(if request.version_minor == 0 {
        b" 1.0 ["
    } else {
        b" 1.1 ["
    })?;
    said.extend_from_slice(request.body.as_slice())?;
    said.extend_from_slice(if request.close { b"] last; " } else { b"]; " })?;
    Ok(())
}

fn tell_bad(said: &mut Vec<u8>, status: u16) -> Result<(), NoMemory> {
    said.extend_from_slice(match status {
        400 => b"bad",
        413 => b"large",
        431 => b"long",
        _ => b"other",
    })?;
    Ok(())
}

// The same, one byte after the other.
fn told_by_bytes(alloc: Global, text: &[u8]) -> Result<Vec<u8>, NoMemory> {
    let mut conn = Conn::new(alloc, [1, 2], Profile::Narrow)?;
    let mut said = Vec::new(alloc);
    for place in 0..text.len() {
        if !feed_piece(&mut conn, &text[place..place + 1], &mut said)? {
            break;
        }
    }
    Ok(said)
}

// Whether the connection is answered so, cut into two pieces at any place, and byte by byte.
fn is_told(alloc: Global, text: &[u8], answer: &[u8]) -> Result<bool, NoMemory> {
    for place in 0..=text.len() {
        if told(alloc, &[&text[..place], &text[place..]])?.as_slice() != answer {
            return Ok(false);
        }
    }
    Ok(told_by_bytes(alloc, text)?.as_slice() == answer)
}

/// The first connection of a table that isn't answered as it says.
fn first_wrong<'a>(alloc: Global, table: &[(&'a str, &str)]) -> Result<Option<&'a str>, NoMemory> {
    for (text, answer) in table {
        if !is_told(alloc, text.as_bytes(), answer.as_bytes())? {
            return Ok(Some(text));
        }
    }
    Ok(None)
}
