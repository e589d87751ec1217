//! Runs of the whole program over memory.
mod ample;
mod ends;
mod expiry;
mod files;
mod generating;
mod limits;
mod queue;
mod reads;
mod running;
mod summary;
mod terms;
mod told;
mod words;
mod writes;
