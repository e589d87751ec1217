//! Where in a request a connection stands, and what it answers.
ghost use Rattle.dkv_http.specs.Holds.{Stays};

use dkv_heads::{LineAt, SizeAt, StartAt};

/// What a piece of a connection makes of it.
#[derive(Clone, Copy, Debug, PartialEq, Eq)]
pub enum Feed {
    /// All bytes are taken, and no request is whole yet.
    More,
    /// With so many bytes of the piece a request is whole.
    Request { taken: usize },
    /// With so many bytes of the piece the connection is refused with this status.
    Bad { status: u16, taken: usize },
}

/// What stands of a head.
#[derive(Clone, Copy, Debug, PartialEq, Eq)]
pub(crate) enum HeadAt {
    /// Before the second space of the request line.
    Start(StartAt),
    /// In a field line, after so many.
    Line(LineAt, usize),
    /// What `httparse` alone has judged.
    Tail,
}

/// Where in a request the next byte stands.
#[derive(Clone, Copy, Debug, PartialEq, Eq)]
pub(crate) enum Phase {
    Head(HeadAt),
    /// So many bytes of the body are to come.
    Sized(usize),
    /// In a chunk line.
    Size(SizeAt),
    /// So many bytes of the chunk are to come.
    Data(usize),
    /// After a chunk's bytes, and whether CR came.
    End(bool),
    /// In a trailer line.
    Trailers(LineAt),
    /// A request is whole.
    Whole,
    /// The last request of the session is whole, and bytes behind it were passed over.
    Last,
    /// Refused with this status.
    Failed(u16),
    /// The last request was taken.
    Over,
}

/// What a state is to its caller.
#[derive(Clone, Copy, Debug, PartialEq, Eq)]
pub(crate) enum Standing {
    /// More bytes may come.
    Waits,
    /// A request is whole.
    Whole,
    /// Refused with this status.
    Failed(u16),
    /// The last request was taken, or is whole with bytes behind it.
    Over,
}

pub(crate) fn what_stands(phase: Phase) -> Standing
    ensures { Stays phase result }
{
    match phase {
        Phase::Head(_) => Standing::Waits,
        Phase::Sized(_) => Standing::Waits,
        Phase::Size(_) => Standing::Waits,
        Phase::Data(_) => Standing::Waits,
        Phase::End(_) => Standing::Waits,
        Phase::Trailers(_) => Standing::Waits,
        Phase::Whole => Standing::Whole,
        Phase::Failed(status) => Standing::Failed(status),
        Phase::Last => Standing::Over,
        Phase::Over => Standing::Over,
    }
}
