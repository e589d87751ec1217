// How a run of the program ended, by its exit status.
ghost use Rattle.std.specs.Prelude.{◌≡◌};

use crate::program::NoWords;
use dkv_files::Pair;
use dkv_pipe::PipeEnd;

/// How a run of the program ended.
#[derive(Clone, Copy, Debug, PartialEq, Eq)]
pub enum Status {
    /// The input was read to its end.
    Ok,
    /// The words are in no form.
    BadWords,
    /// A read of the input failed.
    ReadFault,
    /// A write of a reply failed.
    WriteFault,
    /// A call on a file of the database failed while it was made or opened.
    DiskFault,
    /// Neither file of the database is open.
    NoDatabase,
    /// File 0 or 1 doesn't stand at this place, counted in bytes from its start.
    Damaged { file: u8, at: u64 },
    /// No whole frame begins at this place, counted in bytes from the start of the input.
    BadFrame { at: u64 },
    /// One of the two files is open, so no database is made there.
    Exists,
    /// The last commit has this number, 2^62 or above, and no term begins.
    Worn { n: u64 },
    /// The system's random bytes failed.
    RandomFault,
    /// The allocator had no room.
    NoMemory,
    /// The frame at this place isn't answered yet.
    NotBuilt { at: u64 },
}

impl Status {
    ghost use Rattle.dkv_app.specs.Statuses.{number, told, unheard};

    /// The status of a run over frames.
    pub fn of(end: PipeEnd) -> Status
        ensures { result ≡ told end }
    {
        match end {
            PipeEnd::Ok => Status::Ok,
            PipeEnd::ReadFault => Status::ReadFault,
            PipeEnd::WriteFault => Status::WriteFault,
            PipeEnd::BadFrame { at } => Status::BadFrame { at },
            PipeEnd::NotBuilt { at } => Status::NotBuilt { at },
            PipeEnd::NoMemory => Status::NoMemory,
        }
    }

    /// The status of words that can't be had.
    pub fn unheard(why: NoWords) -> Status
        ensures { result ≡ unheard why }
    {
        match why {
            NoWords::NotText => Status::BadWords,
            NoWords::NoMemory => Status::NoMemory,
        }
    }

    /// The exit status of the program.
    pub fn number(self) -> u8
        ensures { result ≡ number self }
    {
        match self {
            Status::Ok => 0,
            Status::BadWords => 2,
            Status::ReadFault => 3,
            Status::WriteFault => 4,
            Status::DiskFault => 5,
            Status::NoDatabase => 6,
            Status::Damaged { .. } => 7,
            Status::BadFrame { .. } => 8,
            Status::Exists => 9,
            Status::Worn { .. } => 10,
            Status::RandomFault => 11,
            Status::NoMemory => 14,
            Status::NotBuilt { .. } => 15,
        }
    }
}

/// A status, and the files that were handed in.
#[derive(Drop)]
pub struct Ended<D> {
    pub status: Status,
    pub files: Option<Pair<D>>,
}
