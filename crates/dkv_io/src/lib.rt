//! The outside: where bytes come from, where they go, what keeps them, and where moments and random bytes come from.
//!
//! The layer above may rely on the traits alone: a call that fails raises its object's count of faults (or finds it at its last
//! value), a count never falls, what isn't told never begins to be told, and a disk says what a crash may leave of it at each
//! moment. The objects in memory tell their content and their plan of faults. They fail at the calls that the plan names and
//! only there, but where they are refused memory, and a failure raises the count by one and leaves the content.
#![tactic(auto)]

mod clock;
mod disk;
mod fault_plan;
mod list_clock;
mod list_random;
mod memory_disk;
mod memory_sink;
mod memory_source;
mod random;
mod sink;
mod source;
mod void_disk;

pub use clock::Clock;
pub use disk::Disk;
pub use fault_plan::{FaultPlan, raised};
pub use list_clock::ListClock;
pub use list_random::ListRandom;
pub use memory_disk::MemoryDisk;
pub use memory_sink::MemorySink;
pub use memory_source::MemorySource;
pub use random::Random;
pub use sink::{Failed, Sink};
pub use source::{Got, Source};
pub use void_disk::VoidDisk;

#[cfg(test)]
mod tests;
