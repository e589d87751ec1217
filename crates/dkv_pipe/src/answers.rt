// The reply to each frame, and what it changes in the store.
ghost use Rattle.std.specs.Prelude.{◌≡◌, ◌-◌, ◌^◌, ◌<◌, ◌≤◌, ℕ, None, length, IfOk, IsErrOf, IsTrue, OnErr, false};
ghost use Rattle.dkv_base.specs.Trails.{first_stop};
ghost use Rattle.dkv_base.specs.declared.types.Ask.TheVariants.{Read, Write, Take};
ghost use Rattle.dkv_base.specs.Fits.{AreBytes};
ghost use Rattle.dkv_core.specs.Decisions.{may_ask};
ghost use Rattle.dkv_store.specs.Situations.{ask_of};
ghost use Rattle.dkv_store.specs.Stores.{IsShort, effective_at};
ghost use Rattle.dkv_pipe.specs.Frames.{is_body_length};
ghost use Rattle.dkv_pipe.specs.Wishes.{asks, readings, term, wish_of_read};
ghost use Rattle.dkv_pipe.specs.Built.{is_built};
ghost use Rattle.dkv_pipe.specs.Grants.{Answers, Grants, IsRefusedFor};
ghost use Rattle.dkv_pipe.specs.Running.{frame_with};
ghost use Rattle.dkv_base.specs.declared.limits.TheConstants.{MAX_REQUEST_BYTES};

use crate::frame_kind::FrameKind;
use crate::frames::{Head, id_of};
use crate::replies::{begun, done, is_write, limited, malformed, no_lease, tell, tell_take, worn};
use crate::reply::Reply;
use dkv_atomic::read_limits;
use dkv_base::{Call, NoMemory, ReadRange};
use dkv_io::Disk;
use dkv_msgs::{RequestError, request_atomic_write, request_snapshot_read};
use dkv_record::requests_fit;
use dkv_store::{Store, TermRefusal};
use std::alloc::Global;
use thiserror::Error;

/// Why a frame got no answer.
#[derive(Clone, Copy, Debug, Error, PartialEq, Eq)]
pub(crate) enum Unanswered {
    /// Frames of its kind aren't answered yet.
    #[error("not built")]
    NotBuilt,
    #[error("no memory")]
    NoMemory,
}

impl From<NoMemory> for Unanswered {
    ghost use Rattle.std.specs.Prelude.{◌≡◌};
    ghost use Rattle.dkv_pipe.specs.declared.answers.Unanswered.TheVariants as unanswered;

    ghost from_gives = { λ _ result. result ≡ unanswered.NoMemory };

    fn from(_: NoMemory) -> Unanswered {
        Unanswered::NoMemory
    }
}

// The reply to a read of these ranges.
fn read_ranges<D: Disk>(
    store: &mut Store<D>,
    alloc: Global,
    moment: u64,
    ranges: &[ReadRange],
) -> Result<Reply, NoMemory>
    ensures reply { IfOk result (λ out. (who : ℕ) →
        Grants D.seen D.may_leave D.faults D.moment D.left_since
        store.old (asks (Read ranges.now)) who moment out store.new) }
    ensures none { OnErr result
        (IsRefusedFor D.seen D.may_leave D.moment D.left_since store.old moment store.new) }
    ensures unstopped { first_stop store.old.trail ≡ None → first_stop store.new.trail ≡ None }
{
    if let Some(passed) = read_limits(ranges) {
        return Ok(limited(alloc, passed));
    }
    Ok(done(store.spell_read(alloc, moment, ranges)?))
}

// The reply to a body that asks for a read.
fn answer_read<D: Disk>(
    store: &mut Store<D>,
    alloc: Global,
    moment: u64,
    body: &[u8],
) -> Result<Reply, NoMemory>
    ensures reply { IfOk result (λ out. (who : ℕ) →
        Grants D.seen D.may_leave D.faults D.moment D.left_since
        store.old (wish_of_read Read (readings.read_of body.now)) who moment out store.new) }
    ensures none { OnErr result
        (IsRefusedFor D.seen D.may_leave D.moment D.left_since store.old moment store.new) }
    ensures unstopped { first_stop store.old.trail ≡ None → first_stop store.new.trail ≡ None }
{
    match request_snapshot_read(alloc, body) {
        Ok(request) => read_ranges(store, alloc, moment, request.ranges.as_slice()),
        Err(RequestError::Malformed { at }) => Ok(malformed(alloc, at)),
        Err(RequestError::Limit(passed)) => Ok(limited(alloc, passed)),
        Err(RequestError::NoMemory) => Err(NoMemory),
    }
}

// The reply to a call that may be made.
fn make<D: Disk>(
    store: &mut Store<D>,
    alloc: Global,
    who: u32,
    moment: u64,
    call: Call,
) -> Result<Reply, NoMemory>
    requires unstopped { first_stop store.old.trail ≡ None }
    requires numbered { store.old.core.state.number < 2 ^ 63 - 1 }
    requires out { IsTrue (may_ask store.old.core call) }
    requires short { IsShort store.old who (effective_at store.old moment) call }
    ensures reply { IfOk result (λ out.
        Grants D.seen D.may_leave D.faults D.moment D.left_since
        store.old (asks (ask_of call)) who moment out store.new) }
    ensures none { OnErr result
        (IsRefusedFor D.seen D.may_leave D.moment D.left_since store.old moment store.new) }
    ensures unstopped { first_stop store.old.trail ≡ None → first_stop store.new.trail ≡ None }
{
    store.is_kept();
    let writes = is_write(&call);
    let came = store.commit(alloc, who, moment, call);
    tell(alloc, writes, came)
}

// The reply to a call.
fn answer_call<D: Disk>(
    store: &mut Store<D>,
    alloc: Global,
    who: u32,
    moment: u64,
    call: Call,
) -> Result<Reply, NoMemory>
    requires unstopped { first_stop store.old.trail ≡ None }
    requires numbered { store.old.core.state.number < 2 ^ 63 - 1 }
    requires short { IsShort store.old who (effective_at store.old moment) call }
    ensures reply { IfOk result (λ out.
        Grants D.seen D.may_leave D.faults D.moment D.left_since
        store.old (asks (ask_of call)) who moment out store.new) }
    ensures none { OnErr result
        (IsRefusedFor D.seen D.may_leave D.moment D.left_since store.old moment store.new) }
    ensures unstopped { first_stop store.old.trail ≡ None → first_stop store.new.trail ≡ None }
{
    if store.may_ask(&call) {
        make(store, alloc, who, moment, call)
    } else {
        Ok(no_lease(alloc))
    }
}

// What memory holds is bytes.
fn are_bytes(body: &[u8])
    ensures { AreBytes body.now }
{
    let _first = body.first();
}

// The reply to a body that asks for a write.
fn answer_write<D: Disk>(
    store: &mut Store<D>,
    alloc: Global,
    who: u32,
    moment: u64,
    body: &[u8],
) -> Result<Reply, NoMemory>
    requires unstopped { first_stop store.old.trail ≡ None }
    requires numbered { store.old.core.state.number < 2 ^ 63 - 1 }
    requires fits { length body.now ≤ MAX_REQUEST_BYTES }
    ensures reply { IfOk result (λ out.
        Grants D.seen D.may_leave D.faults D.moment D.left_since
        store.old (wish_of_read Write (readings.write_of body.now)) who moment out store.new) }
    ensures none { OnErr result
        (IsRefusedFor D.seen D.may_leave D.moment D.left_since store.old moment store.new) }
    ensures unstopped { first_stop store.old.trail ≡ None → first_stop store.new.trail ≡ None }
{
    requests_fit();
    are_bytes(body);
    match request_atomic_write(alloc, body) {
        Ok(request) => answer_call(store, alloc, who, moment, Call::Write(request)),
        Err(RequestError::Malformed { at }) => Ok(malformed(alloc, at)),
        Err(RequestError::Limit(passed)) => {
            store.is_kept();
            Ok(limited(alloc, passed))
        }
        Err(RequestError::NoMemory) => Err(NoMemory),
    }
}

// The reply to a take.
fn answer_take<D: Disk>(
    store: &mut Store<D>,
    alloc: Global,
    who: u32,
    moment: u64,
) -> Result<Reply, NoMemory>
    requires unstopped { first_stop store.old.trail ≡ None }
    ensures reply { IfOk result (λ out.
        Grants D.seen D.may_leave D.faults D.moment D.left_since
        store.old (asks Take) who moment out store.new) }
    ensures none { OnErr result
        (IsRefusedFor D.seen D.may_leave D.moment D.left_since store.old moment store.new) }
    ensures unstopped { first_stop store.old.trail ≡ None → first_stop store.new.trail ≡ None }
{
    store.is_kept();
    let came = store.take(alloc, who, moment);
    tell_take(alloc, came)
}

// The reply to a frame that asks for a further term, which begins under the limit of the one that ends.
fn answer_term<D: Disk>(store: &mut Store<D>, alloc: Global) -> Result<Reply, NoMemory>
    ensures reply { IfOk result (λ out. (who at : ℕ) →
        Grants D.seen D.may_leave D.faults D.moment D.left_since
        store.old term who at out store.new) }
    ensures none { OnErr result ((at : ℕ) →
        IsRefusedFor D.seen D.may_leave D.moment D.left_since store.old at store.new) }
    ensures unstopped { first_stop store.old.trail ≡ None → first_stop store.new.trail ≡ None }
{
    let limit = store.limit();
    match store.start_term(alloc, limit) {
        Ok(_items) => Ok(begun(alloc)),
        Err(TermRefusal::Worn { n }) => Ok(worn(alloc, n)),
        Err(TermRefusal::NoMemory) => Err(NoMemory),
    }
}

/// The reply to a frame with this head and body. Where there is none, nothing but the store's
/// greatest moment may have changed.
pub(crate) fn answer<D: Disk>(
    store: &mut Store<D>,
    alloc: Global,
    head: Head,
    body: &[u8],
) -> Result<Reply, Unanswered>
    requires unstopped { first_stop store.old.trail ≡ None }
    requires numbered { store.old.core.state.number < 2 ^ 63 - 1 }
    requires fits { IsTrue (is_body_length head.kind (length body.now)) }
    ensures ok { IfOk result (λ out. Answers D.seen D.may_leave D.faults D.moment D.left_since
        store.old (frame_with head body.now) out store.new) }
    ensures unbuilt { IsErrOf result Unanswered.NotBuilt
        → (is_built head.kind ≡ false) × (store.new ≡ store.old) }
    ensures none { IsErrOf result Unanswered.NoMemory
        → IsRefusedFor D.seen D.may_leave D.moment D.left_since
        store.old head.moment store.new }
    ensures unstopped { first_stop store.old.trail ≡ None → first_stop store.new.trail ≡ None }
{
    let (who, moment) = (head.caller, head.moment);
    match head.kind {
        FrameKind::Read => Ok(answer_read(store, alloc, moment, body)?),
        FrameKind::Write => Ok(answer_write(store, alloc, who, moment, body)?),
        FrameKind::Take => Ok(answer_take(store, alloc, who, moment)?),
        FrameKind::Acknowledge => {
            let call = Call::Ack(id_of(body));
            Ok(answer_call(store, alloc, who, moment, call)?)
        }
        FrameKind::Fail => {
            let call = Call::Fail(id_of(body));
            Ok(answer_call(store, alloc, who, moment, call)?)
        }
        FrameKind::Term => Ok(answer_term(store, alloc)?),
        FrameKind::Watch | FrameKind::Poll | FrameKind::Checkpoint => Err(Unanswered::NotBuilt),
    }
}
