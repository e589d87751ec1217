// The calls of a table, and their answers, as values.
use dkv_base::{Bytes, Entry, Run};

/// A call of a table.
#[derive(Debug, Drop)]
pub enum TableCall {
    Reserve(usize),
    Get(Bytes),
    Put(Entry),
    Remove(Bytes),
    Walk {
        start: Bytes,
        end: Bytes,
        reverse: bool,
    },
    Len,
}

/// What a call of a table answers.
#[derive(Debug, Drop)]
pub enum TableAnswer {
    Reserved,
    Found(Option<Entry>),
    Was(Option<Entry>),
    Went(Run<Entry>),
    Counted(usize),
}
