// A walk over the messages of a queue.
ghost use Rattle.std.specs.Prelude.{◌≡◌, [], ◌∷◌, IfSome, IfNone, IsTrue};
ghost use Rattle.dkv_base.specs.State.{is_in_id_order};
ghost use Rattle.dkv_queue.specs.Rows.{messages_of};

use dkv_base::{Message, MsgId};
use dkv_queue::Queue;
use std::marker::Model;

/// A walk over the messages of a queue in the order of their ids, which contracts see as the list of messages still to come.
#[derive(Drop)]
pub(crate) struct Walk<'a> {
    queue: &'a Queue,
    // The id of the message that was given last.
    last: Option<MsgId>,
}

impl<'a> Model for Walk<'a> {
    ghost use Rattle.std.specs.Prelude.{List, IsTrue};
    ghost use Rattle.dkv_base.specs.declared.types.Message.{Message};
    ghost use Rattle.dkv_base.specs.State.{is_in_id_order};
    ghost use Rattle.dkv_image_io.specs.Walks.{later};
    ghost use Rattle.dkv_queue.specs.Rows.{messages_of};

    ghost Value = { List Message };

    ghost view = { λ w. later w.last (messages_of w.queue.now.rows) };

    ghost invariant = { λ w. IsTrue (is_in_id_order (messages_of w.queue.now.rows)) };
}

impl<'a> Walk<'a> {
    // Goes over all messages.
    pub(crate) fn over(queue: &'a Queue) -> Walk<'a>
        requires { IsTrue (is_in_id_order (messages_of queue.now.rows)) }
        ensures { result ≡ messages_of queue.now.rows }
    {
        Walk { queue, last: None }
    }

    // The next message, or none where none is left.
    pub(crate) fn next(&mut self) -> Option<&'a Message>
        ensures first { IfSome result (λ message. self.old ≡ message.now ∷ self.new) }
        ensures ended { IfNone result (self.old ≡ []) }
    {
        let message = self.queue.above(self.last)?;
        self.last = Some(message.id);
        Some(message)
    }
}
