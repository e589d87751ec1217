//! What the bytes of an HTTP/1.1 request say so far: its head, how long its body is, the lines of its chunks.
//!
//! The layer above may rely on this. `judge` tells a whole head, one that more bytes may make, and bytes that never become
//! one, as `httparse` reads them. `body_of` and `is_last` read its fields. `next_start`, `next_line` and `next_size` go on by
//! one byte, so that nothing is parsed again for each byte. Bytes are one list of requests, which no later byte changes.
//! Nothing here takes memory.
#![tactic(auto)]

mod fields;
mod laws;
pub mod limits;
mod lines;
mod sizes;
mod starts;
pub mod statuses;
mod verdicts;

pub use fields::{Body, body_of, is_last};
pub use laws::{
    bad_stays, first_value_is_first, one_list, one_request, one_rest, requests_stay,
    waiting_is_open,
};
pub use lines::{LineAt, LineStep, next_line};
pub use sizes::{SizeAt, next_size};
pub use starts::{StartAt, next_start};
pub use verdicts::{Verdict, ends_line, judge};
