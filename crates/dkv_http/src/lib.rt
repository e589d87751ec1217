//! Requests and responses of HTTP/1.1: a connection's bytes in, however cut, and its requests out; the bytes of answers.
//!
//! The layer above may rely on this. `Conn::feed` says of all bytes fed so far what the definition of requests says: more may
//! come, one more request is whole, or the connection is refused with a status; where the pieces are cut changes nothing.
//! `Conn::request` gives the requests in order. After `Conn::new` feeding takes no memory, and costs a step a byte.
//! `write_head` and `write_chunk` append the bytes of an answer. No thread, socket or clock is known here.
#![tactic(auto)]

mod bodies;
mod buffer;
mod conn;
mod hasher;
mod heads;
mod phases;
mod responses;
mod state;

pub use conn::{Conn, Request};
pub use phases::Feed;
pub use responses::{Head, Kind, write_chunk, write_head};
