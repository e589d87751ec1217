//! The tests.
mod calls;
mod opening;
mod stops;
mod terms;
mod watches;
