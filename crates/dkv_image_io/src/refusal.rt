// Why an image was not written or not read.
use thiserror::Error;

/// Why an image was not written or not read.
#[derive(Clone, Copy, Debug, PartialEq, Eq, Error)]
pub enum ImageRefusal {
    /// The disk failed.
    #[error("the disk failed")]
    DiskFault,
    /// What begins at this place doesn't stand, or bytes follow the last message there. `at` counts bytes from the file's start.
    #[error("damaged at byte {at}")]
    Damaged { at: u64 },
    /// The allocator had no room.
    #[error("no memory")]
    NoMemory,
}
