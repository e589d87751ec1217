//! What a pass knows, as plain data. No value of it is made.
use std::collections::LinkedList;

pub enum Stage<I> {
    Idle,
    /// It has drawn this ticket number.
    Waiting(u64),
    /// It has the turn of this ticket number, over this history and this loan, and may have noted the loan.
    Holding(u64, LinkedList<I>, u64, Option<u64>),
}

/// A pass that was joined: its number, and what it had seen.
pub struct Gone<I> {
    pub who: u64,
    pub seen: LinkedList<I>,
}

pub struct View<I, G> {
    /// Its pass was joined into another.
    pub spent: bool,
    pub stage: Stage<I>,
    /// The history that it has seen.
    pub seen: LinkedList<I>,
    /// A beginning of that history, which has all items of its number.
    pub within: LinkedList<I>,
    /// Its number, which the items carry that it adds.
    pub who: u64,
    /// The greatest moment that it was given, in milliseconds.
    pub at: u64,
    /// The greatest moment that it, or one that was joined into it, handed in to be raised, in milliseconds.
    pub handed: u64,
    /// Its loan, of which 0 means none.
    pub loan: u64,
    /// The passes that were joined into it, directly or through others.
    pub gone: LinkedList<Gone<I>>,
    /// The numbers that it has to give away.
    pub left: u64,
    /// Whether it is the first pass, or one that this was joined into.
    pub marked: bool,
    /// The ground of the turn's value, except where it is spent.
    pub grounds: Option<G>,
}
