// Runs over frames: read, answer, write, and how that may end.
ghost use Rattle.dkv_base.specs.Trails.{first_stop};
ghost use Rattle.std.specs.Prelude.{None, ◌≡◌, ◌⊎◌, ◌<◌, ◌≤◌, ◌+◌, ◌^◌, List, ℕ, length, ⊤, Bool, false, not, OnOk, OnErr};
ghost use Rattle.std.specs.declared.option.Option.{Option};
ghost use Rattle.dkv_io.specs.Causes.{HasCause, Rose};
ghost use Rattle.dkv_store.specs.Stores.{Contents};
ghost use Rattle.dkv_pipe.specs.Courses.{situation_of};
ghost use Rattle.dkv_pipe.specs.Frames.{front, Partial};
ghost use Rattle.dkv_pipe.specs.Ends.{HasEndCause, Puts, PutsFront, Streams, streams};
ghost use Rattle.dkv_pipe.specs.Stores.{RunsTo};
ghost use Rattle.dkv_pipe.specs.Whole.{Completes};
ghost use Rattle.dkv_pipe.specs.Running.{Running, IsEarlyNumber, OnOrEnds, IsWholeOf, store_lines, to_do};

use crate::answers::{Unanswered, answer};
use crate::frames::{Head, Look, look_at};
use crate::input::Input;
use crate::reply::Reply;
use crate::sizes::{BODY_PLACE, MAX_PLACE, PIECE_BYTES};
use crate::summary::write_summary;
use dkv_io::{Disk, Failed, Got, Sink, Source};
use dkv_store::Store;
use std::alloc::Global;

/// How a run over frames ended.
#[derive(Clone, Copy, Debug, PartialEq, Eq)]
pub enum PipeEnd {
    /// The input was read to its end.
    Ok,
    /// A read of the input failed.
    ReadFault,
    /// A write of a reply failed, or that of the summary.
    WriteFault,
    /// No whole frame begins at this place, counted in bytes from the start of the input.
    BadFrame { at: u64 },
    /// The frame at this place isn't answered yet.
    NotBuilt { at: u64 },
    /// The allocator had no room.
    NoMemory,
}

/// Whether a run goes on behind a step, or how the step ended it.
#[derive(Clone, Copy, Debug)]
pub(crate) enum Progress {
    On,
    Ends(PipeEnd),
}

// A run over frames: the store, what was read from `at` on, the place of that frame, and how many were answered before it.
#[derive(Drop)]
struct Pipe<D: Disk> {
    store: Store<D>,
    input: Input,
    at: u64,
    frames: u64,
}

// Writes the reply, unless a summary is wanted.
fn put<K: Sink>(sink: &mut K, reply: &Reply, summary: bool) -> Result<(), Failed>
    ensures all { OnOk result
        (Puts (not summary) (K.held sink.old) (K.held sink.new) reply.now) }
    ensures part { OnErr result
        (PutsFront (not summary) (K.held sink.old) (K.held sink.new) reply.now) }
    ensures cause { HasCause (K.faults sink.old) (K.faults sink.new) result }
{
    if summary {
        return Ok(());
    }
    reply.write_to(sink)
}

impl<D: Disk> Pipe<D> {
    // Writes the summary of what was answered, where one is wanted.
    fn sum_up<K: Sink>(&self, sink: &mut K, summary: bool) -> Result<(), Failed>
        ensures all { OnOk result (Puts summary (K.held sink.old) (K.held sink.new)
            (store_lines self.now.frames self.now.store)) }
        ensures part { OnErr result (PutsFront summary (K.held sink.old) (K.held sink.new)
            (store_lines self.now.frames self.now.store)) }
        ensures cause { HasCause (K.faults sink.old) (K.faults sink.new) result }
    {
        if !summary {
            return Ok(());
        }
        write_summary(sink, self.frames, &self.store.counts())
    }

    // Takes more of the source into the input, which has less than a frame, by way of the piece.
    fn more<S: Source, K: Sink>(
        &mut self,
        alloc: Global,
        source: &mut S,
        sink: &mut K,
        piece: &mut [u8; PIECE_BYTES],
        summary: bool,
    ) -> Progress
        requires part { front self.old.input ≡ Partial }
        requires early { self.old.at < MAX_PLACE }
        ensures run { (from : Contents D) (before : Streams) →
            let old = streams (S.left source.old) (S.ended source.old) (K.held sink.old) in
            let new = streams (S.left source.new) (S.ended source.new) (K.held sink.new) in
            Running D.seen D.may_leave D.faults D.moment D.left_since summary
            from before old self.old.store self.old.input self.old.at self.old.frames
            → OnOrEnds result
            (Running D.seen D.may_leave D.faults D.moment D.left_since summary
            from before new self.new.store self.new.input self.new.at self.new.frames)
            (λ end. RunsTo D.seen D.may_leave D.faults D.moment D.left_since summary
            end before new from self.new.store) }
        ensures cause { OnOrEnds result ⊤ (λ end.
            HasEndCause end (S.ended source.new)
            (Rose (S.faults source.old) (S.faults source.new))
            (Rose (K.faults sink.old) (K.faults sink.new))) }
        ensures source { S.faults source.old ≤ S.faults source.new }
        ensures sink { K.faults sink.old ≤ K.faults sink.new }
        ensures at { self.new.at ≡ self.old.at }
        ensures frames { self.new.frames ≡ self.old.frames }
        ensures store { self.new.store ≡ self.old.store }
        ensures grows { OnOrEnds result (length self.old.input < length self.new.input) (λ _. ⊤) }
    {
        match source.read(piece) {
            Got::Bytes(n) => match self.input.extend(alloc, &piece[..n]) {
                Ok(()) => Progress::On,
                Err(_) => Progress::Ends(PipeEnd::NoMemory),
            },
            Got::End => {
                if !self.input.as_slice().is_empty() {
                    return Progress::Ends(PipeEnd::BadFrame { at: self.at });
                }
                match self.sum_up(sink, summary) {
                    Ok(()) => Progress::Ends(PipeEnd::Ok),
                    Err(Failed) => Progress::Ends(PipeEnd::WriteFault),
                }
            }
            Got::Failed => Progress::Ends(PipeEnd::ReadFault),
        }
    }

    // Answers the whole frame at the front of the input, and passes over it.
    fn frame<K: Sink>(&mut self, alloc: Global, sink: &mut K, head: Head, summary: bool) -> Progress
        requires whole { IsWholeOf head self.old.input }
        requires early { self.old.at < MAX_PLACE }
        requires number { IsEarlyNumber self.old.store.core.state.number self.old.at }
        requires few { self.old.frames ≤ self.old.at }
        requires unstopped { first_stop self.old.store.trail ≡ None }
        ensures run { (from : Contents D) (before : Streams)
            (left : Option (List ℕ)) (ended : Bool) →
            let old = streams left ended (K.held sink.old) in
            let new = streams left ended (K.held sink.new) in
            Running D.seen D.may_leave D.faults D.moment D.left_since summary
            from before old self.old.store self.old.input self.old.at self.old.frames
            → OnOrEnds result
            (Running D.seen D.may_leave D.faults D.moment D.left_since summary
            from before new self.new.store self.new.input self.new.at self.new.frames)
            (λ end. RunsTo D.seen D.may_leave D.faults D.moment D.left_since summary
            end before new from self.new.store) }
        ensures cause { OnOrEnds result ⊤ (λ end.
            HasEndCause end false ⊥ (Rose (K.faults sink.old) (K.faults sink.new))) }
        ensures later { K.faults sink.old ≤ K.faults sink.new }
        ensures at { OnOrEnds result (self.new.at ≡ self.old.at + head.len) (λ _. ⊤) }
        ensures number { OnOrEnds result
            (IsEarlyNumber self.new.store.core.state.number self.new.at)
            (λ _. ⊤) }
        ensures few { OnOrEnds result (self.new.frames ≤ self.new.at) (λ _. ⊤) }
        ensures unstopped { OnOrEnds result (first_stop self.new.store.trail ≡ None) (λ _. ⊤) }
        ensures len { OnOrEnds result
            (length self.new.input + head.len ≡ length self.old.input)
            (λ _. ⊤) }
    {
        let body = &self.input.as_slice()[BODY_PLACE..head.len];
        let reply = match answer(&mut self.store, alloc, head, body) {
            Ok(reply) => reply,
            Err(Unanswered::NotBuilt) => return Progress::Ends(PipeEnd::NotBuilt { at: self.at }),
            Err(Unanswered::NoMemory) => return Progress::Ends(PipeEnd::NoMemory),
        };
        match put(sink, &reply, summary) {
            Ok(()) => {
                self.input.skip(head.len);
                self.at += head.len as u64;
                self.frames += 1;
                Progress::On
            }
            Err(_) => Progress::Ends(PipeEnd::WriteFault),
        }
    }

    // Reads once more, or answers one frame.
    fn step<S: Source, K: Sink>(
        &mut self,
        alloc: Global,
        source: &mut S,
        sink: &mut K,
        piece: &mut [u8; PIECE_BYTES],
        summary: bool,
    ) -> Progress
        requires number { IsEarlyNumber self.old.store.core.state.number self.old.at }
        requires few { self.old.frames ≤ self.old.at }
        requires unstopped { first_stop self.old.store.trail ≡ None }
        ensures run { (from : Contents D) (before : Streams) →
            let old = streams (S.left source.old) (S.ended source.old) (K.held sink.old) in
            let new = streams (S.left source.new) (S.ended source.new) (K.held sink.new) in
            Running D.seen D.may_leave D.faults D.moment D.left_since summary
            from before old self.old.store self.old.input self.old.at self.old.frames
            → OnOrEnds result
            (Running D.seen D.may_leave D.faults D.moment D.left_since summary
            from before new self.new.store self.new.input self.new.at self.new.frames)
            (λ end. RunsTo D.seen D.may_leave D.faults D.moment D.left_since summary
            end before new from self.new.store) }
        ensures cause { OnOrEnds result ⊤ (λ end. HasEndCause end (S.ended source.new)
            (Rose (S.faults source.old) (S.faults source.new))
            (Rose (K.faults sink.old) (K.faults sink.new))) }
        ensures source { S.faults source.old ≤ S.faults source.new }
        ensures sink { K.faults sink.old ≤ K.faults sink.new }
        ensures number { OnOrEnds result
            (IsEarlyNumber self.new.store.core.state.number self.new.at)
            (λ _. ⊤) }
        ensures few { OnOrEnds result (self.new.frames ≤ self.new.at) (λ _. ⊤) }
        ensures unstopped { OnOrEnds result (first_stop self.new.store.trail ≡ None) (λ _. ⊤) }
        ensures progress { OnOrEnds result
            (to_do self.new.at (length self.new.input) < to_do self.old.at (length self.old.input))
            (λ _. ⊤) }
    {
        if self.at >= MAX_PLACE {
            return Progress::Ends(PipeEnd::BadFrame { at: self.at });
        }
        match look_at(self.input.as_slice()) {
            Look::Partial => self.more(alloc, source, sink, piece, summary),
            Look::Refused => Progress::Ends(PipeEnd::BadFrame { at: self.at }),
            Look::Whole(head) => self.frame(alloc, sink, head, summary),
        }
    }
}

/// Answers the frames of a source, one after the other, over a store, and gives it back. Each reply
/// is written before the next frame is looked at. With a summary no reply is written, and at the end of
/// the input its three lines are. It waits where the source or the sink does.
pub fn run_pipe<S: Source, K: Sink, D: Disk>(
    alloc: Global,
    source: &mut S,
    sink: &mut K,
    store: Store<D>,
    summary: bool,
) -> (PipeEnd, Store<D>)
    requires few { store.core.state.number < 2 ^ 62 }
    requires unstopped { first_stop store.trail ≡ None }
    // What was read, answered and written, as far as source and sink tell it, and where that leads.
    ensures run { RunsTo D.seen D.may_leave D.faults D.moment D.left_since summary result.0
        (streams (S.left source.old) (S.ended source.old) (K.held sink.old))
        (streams (S.left source.new) (S.ended source.new) (K.held sink.new))
        store result.1 }
    // Told or not: why it ended so.
    ensures cause { HasEndCause result.0 (S.ended source.new)
        (Rose (S.faults source.old) (S.faults source.new))
        (Rose (K.faults sink.old) (K.faults sink.new)) }
    // An input of whole frames that are built is answered to its end, where no count of faults rose.
    ensures complete { Completes summary result.0 (situation_of store)
        (streams (S.left source.old) (S.ended source.old) (K.held sink.old))
        (streams (S.left source.new) (S.ended source.new) (K.held sink.new))
        (Rose (S.faults source.old) (S.faults source.new))
        (Rose (K.faults sink.old) (K.faults sink.new))
        (Rose (D.faults store.a) (D.faults result.1.a)
        ⊎ Rose (D.faults store.b) (D.faults result.1.b)) }
{
    let mut pipe = Pipe {
        store,
        input: Input::new(alloc),
        at: 0,
        frames: 0,
    };
    let mut piece = [0; PIECE_BYTES];
    let end = loop {
        match pipe.step(alloc, source, sink, &mut piece, summary) {
            Progress::On => {}
            Progress::Ends(end) => break end,
        }
    };
    let Pipe {
        store,
        input: _,
        at: _,
        frames: _,
    } = pipe;
    (end, store)
}
