// What a failure does to a message.
ghost use Rattle.std.specs.Prelude.{◌≡◌, ◌<◌, ◌≤◌, IsTrue, IfOk, IfErr, length};
ghost use Rattle.dkv_base.specs.declared.moments.TheConstants.{MAX_MOMENT};
ghost use Rattle.dkv_queue.specs.Rows.{has_schedule, with_failure};

use dkv_base::Message;

// The message with one more failure at this moment, or as it was where its schedule has no interval left.
pub(crate) fn fail(mut message: Message, at: u64) -> Result<Message, Message>
    requires moment { at ≤ MAX_MOMENT }
    requires schedule { IsTrue (has_schedule message) }
    ensures again { IfOk result (λ m. m ≡ with_failure at message) }
    ensures left { IfOk result (λ _. message.fails < length message.backoff) }
    ensures exhausted { IfErr result (λ m. m ≡ message) }
    ensures last { IfErr result (λ _. message.fails ≡ length message.backoff) }
{
    match message.backoff.as_slice().get(message.fails as usize) {
        Some(interval) => {
            message.due = at + *interval as u64;
            message.fails += 1;
            Ok(message)
        }
        None => Err(message),
    }
}
