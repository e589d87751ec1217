//! What is decided of a request before anything is stored: the first limit that it passes, and what a write does.
//!
//! The layer above may rely on the exact answers: a limit looks at the request alone and takes no memory, and a decision
//! names the failing checks, the mutation that meets no number, or each changed key once, over whichever table.
#![tactic(auto)]

mod checks;
mod deciding;
mod decision;
mod kinds;
mod mutations;
mod numbers;
mod overlay;
mod parts;
mod reads;
mod seen;
mod writes;

pub use deciding::decide;
pub use decision::{Decision, Effects};
pub use reads::{read_limits, watch_limits};
pub use seen::is_visible;
pub use writes::limits;

#[cfg(test)]
mod tests;
