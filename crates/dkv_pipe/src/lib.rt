//! The pipe: frames of requests in, frames of replies out, over a store.
//!
//! The layer above may rely on this: what was written is the stated function of what was read and of
//! the marks where the disk failed, as far as source and sink tell their bytes; marks are no more than
//! the faults that the disks counted; the end says where the run stopped and why; the store that is
//! given back is where the answered frames lead; stopped at any moment, its files recover to a state
//! of the term; and an input of whole frames has, with its marks, one list of replies.
#![tactic(auto)]

mod answers;
mod frame_kind;
mod frames;
mod input;
mod laws;
mod pipe;
mod replies;
mod reply;
mod reply_status;
pub mod sizes;
mod summary;

pub use frame_kind::{FrameKind, UnknownKind};
pub use laws::{one_run, refused_stays, whole_frames_are_answered, whole_frames_begin};
pub use pipe::{PipeEnd, run_pipe};
pub use reply_status::{ReplyStatus, UnknownStatus};
