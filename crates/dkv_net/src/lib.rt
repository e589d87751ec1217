//! The real things: the standard streams as a source and a sink, files as disks, and the system's random bytes.
//!
//! The layer above may rely on the clauses of `Source`, `Sink`, `Disk` and `Random`: a call that fails raises its object's count
//! of faults by one, and nothing else does. A source tells what its reader tells, and a sink what its writer tells: over memory
//! each byte, over the system's streams nothing, since no contract says what the system gives or takes. Nor do disks and random
//! bytes of the system tell anything.
#![tactic(auto)]

mod file_disk;
mod folder;
mod named_file;
mod placed;
mod sink;
mod source;
mod steady;
mod system_random;

pub use file_disk::FileDisk;
pub use folder::create_folder;
pub use sink::StdSink;
pub use source::StdSource;
pub use steady::{SteadyRead, SteadyWrite};
pub use system_random::SystemRandom;

#[cfg(test)]
mod tests;
