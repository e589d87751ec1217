//! The rule of the table, and what each of its steps tells. The exchange in the slot is the table's own.
ghost use Rattle.dkv_turn.specs.Rule.{KeptIn};
ghost use Rattle.dkv_turn.specs.Steps.{Drew, Looked, Learned, Added, PassedOn, Raised, Noted, Changed, Recalls};
ghost use Rattle.dkv_turn.specs.Views.{first_view, spent_view, giver_view, given_view, joined_view};

use crate::chronicle::Chronicle;
use crate::view::View;
use atomic_table::{Join, Play, Split, TableRule};
use std::marker::PhantomData;
use std::snapshot::Snapshot;

/// The rule, round a value of this type. The key of the table is the value that it was made with.
pub struct Order<V> {
    of: PhantomData<V>,
}

impl<V: Chronicle> TableRule<Option<V>, View<V::Item, V::Ground>, Snapshot<V>> for Order<V> {
    ghost holds = { λ key. KeptIn V.carries V.items V.lent V.grounds (V.grounds key.value) };

    ghost first = { λ key. first_view (V.grounds key.value) };
}

/// Adds 1 to the word ticket.
pub struct Draw;

impl<V, I, G> Play<Option<V>, View<I, G>> for Draw {
    ghost then = { Drew };
}

/// Loads the word serving.
pub struct Look<V> {
    of: PhantomData<V>,
}

impl<V: Chronicle> Play<Option<V>, View<V::Item, V::Ground>> for Look<V> {
    ghost then = { Looked V.carries V.items V.lent V.grounds };
}

/// Loads the word count.
pub struct Learn;

impl<V, I, G> Play<Option<V>, View<I, G>> for Learn {
    ghost then = { Learned };
}

/// Adds 1 to the word count.
pub struct Add<V> {
    of: PhantomData<V>,
}

impl<V: Chronicle> Play<Option<V>, View<V::Item, V::Ground>> for Add<V> {
    ghost then = { Added V.items };
}

/// Adds 1 to the word serving.
pub struct PassOn;

impl<V, I, G> Play<Option<V>, View<I, G>> for PassOn {
    ghost then = { PassedOn };
}

/// Splits a seat, and loads the word ticket.
pub struct Cut;

impl<I, G> Split<View<I, G>> for Cut {
    ghost left = { giver_view };

    ghost right = { given_view };
}

/// Joins two seats, and loads the word ticket.
pub struct Glue;

impl<I, G> Join<View<I, G>> for Glue {
    ghost both = { joined_view };

    ghost spent = { spent_view };
}

/// Makes the word now the greater.
pub struct Raise;

impl<V, I, G> Play<Option<V>, View<I, G>> for Raise {
    ghost then = { Raised };
}

/// Loads the word ticket, and asks what the rule has of the pass.
pub struct Recall<V> {
    of: PhantomData<V>,
}

impl<V: Chronicle> Play<Option<V>, View<V::Item, V::Ground>> for Recall<V> {
    ghost then = { Recalls V.carries };
}

/// Loads the word loan.
pub struct Note;

impl<V, I, G> Play<Option<V>, View<I, G>> for Note {
    ghost then = { Noted };
}

/// Swaps the word loan.
pub struct Change;

impl<V, I, G> Play<Option<V>, View<I, G>> for Change {
    ghost then = { Changed };
}
