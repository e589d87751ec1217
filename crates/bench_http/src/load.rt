//! The loads: a request as it comes, and the entries that it finds.
use dkv_base::{Bytes, Entry, NoMemory, Run};
use dkv_token::{SECRET_BYTES, Site, TOKEN_LIFE_MS, sign};
use std::alloc::Global;

// The length of a body.
const BODY_BYTES: usize = 2_000_000;

// The length of a chunk, but for the last.
const CHUNK_BYTES: usize = 50_000;

// A read of the key a, with limit 1.
const READ: &[u8] = b"\x0a\x0a\x0a\x03\x02a\0\x12\x01\x03\x18\x01";

// A SET of the key a to the byte 78.
const WRITE: &[u8] = b"\x12\x0e\x0a\x03\x02a\0\x12\x05\x0a\x01x\x10\x03\x18\x01";

/// A database that is known to nobody.
pub(crate) fn site(alloc: Global) -> Result<Site, NoMemory> {
    Ok(Site {
        database_id: [0; 16],
        secret: [0; SECRET_BYTES],
        access: Bytes::copy_of(alloc, b"open-sesame-1")?,
        url: Bytes::copy_of(alloc, b"http://127.0.0.1:4512")?,
    })
}

// A request to a path of the database, with all that it needs.
fn asked(alloc: Global, line: &[u8], length: &[u8], body: &[u8]) -> Result<Vec<u8>, NoMemory> {
    let token = sign(&site(alloc)?, TOKEN_LIFE_MS);
    let mut text = Vec::from_slice(alloc, line)?;
    text.extend_from_slice(b" HTTP/1.1\r\nhost: 127.0.0.1:4512\r\nauthorization: Bearer ")?;
    text.extend_from_slice(&token)?;
    text.extend_from_slice(b"\r\nx-denokv-database-id: 00000000-0000-0000-0000-000000000000\r\n")?;
    text.extend_from_slice(b"x-denokv-version: 3\r\ncontent-length: ")?;
    text.extend_from_slice(length)?;
    text.extend_from_slice(b"\r\n\r\n")?;
    text.extend_from_slice(body)?;
    Ok(text)
}

// A body of zeros whose length is told.
fn whole_body(alloc: Global) -> Result<Vec<u8>, NoMemory> {
    let mut text = Vec::from_slice(
        alloc,
        b"POST /x HTTP/1.1\r\nhost: a\r\ncontent-length: 2000000\r\n\r\n",
    )?;
    text.resize(text.len() + BODY_BYTES, 0)?;
    Ok(text)
}

// The same body in chunks.
fn chunked_body(alloc: Global) -> Result<Vec<u8>, NoMemory> {
    let mut text = Vec::from_slice(
        alloc,
        b"POST /x HTTP/1.1\r\nhost: a\r\ntransfer-encoding: chunked\r\n\r\n",
    )?;
    for _ in 0..BODY_BYTES / CHUNK_BYTES {
        text.extend_from_slice(b"c350\r\n")?;
        text.extend_from_slice(&[0; CHUNK_BYTES])?;
        text.extend_from_slice(b"\r\n")?;
    }
    text.extend_from_slice(b"0\r\n\r\n")?;
    Ok(text)
}

/// The text of a load; nothing where none has this name.
pub(crate) fn text_of(alloc: Global, name: &str) -> Result<Option<Vec<u8>>, NoMemory> {
    let text = match name {
        "read" => asked(alloc, b"POST /kv/snapshot_read", b"12", READ)?,
        "write" => asked(alloc, b"POST /kv/atomic_write", b"16", WRITE)?,
        "body" => whole_body(alloc)?,
        "chunks" => chunked_body(alloc)?,
        _ => return Ok(None),
    };
    Ok(Some(text))
}

/// The byte 78 under the text a, in one range.
pub(crate) fn entries(alloc: Global) -> Result<Run<Run<Entry>>, NoMemory> {
    let mut range = Run::new(alloc);
    range.add(Entry {
        key: Bytes::copy_of(alloc, b"\x02a\0")?,
        bytes: Bytes::copy_of(alloc, b"x")?,
        encoding: 3,
        commit: 1,
        expire: 0,
    })?;
    let mut ranges = Run::new(alloc);
    ranges.add(range)?;
    Ok(ranges)
}
