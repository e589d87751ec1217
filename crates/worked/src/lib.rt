//! Worked examples of the definitions: what they say of some small inputs, by computing.
//!
//! Nothing stands on it. An edit of a definition that changes what it says is refused here, by the
//! name of the example.
#![tactic(auto)]
