// Where a body is no message: the first place where no field begins, in it or inside it.
ghost use Rattle.std.specs.Prelude.{◌≡◌, ◌==◌, if◌then◌else◌, ◌<◌, ◌+◌, ◌^◌, length};
ghost use Rattle.dkv_msgs.specs.Places.{earlier};
ghost use Rattle.dkv_msgs.specs.Kinds.{inside_of, inside_of_write, bad_inside, bad_message};

use dkv_wire::{Fields, Payload, are_varints};

// The messages, by what is inside their fields. A flat one holds no other and no packed numbers.
#[derive(Clone, Copy)]
pub(crate) enum Kind {
    Flat,
    SnapshotRead,
    Mutation,
    Enqueue,
    AtomicWrite,
    Watch,
    RangeOutput,
    SnapshotReadOutput,
    AtomicWriteOutput,
    WatchKeyOutput,
    WatchOutput,
}

// What is inside a payload: nothing to look at, packed numbers, or a message.
#[derive(Clone, Copy)]
pub(crate) enum Inside {
    Plain,
    Numbers,
    Message(Kind),
}

fn only(field: u32, wanted: u32, inside: Inside) -> Inside
    ensures { result ≡ (if field == wanted then inside else Inside.Plain) }
{
    if field == wanted {
        inside
    } else {
        Inside::Plain
    }
}

// What is inside the payloads of a field.
fn inside_of(kind: Kind, field: u32) -> Inside
    ensures { result ≡ inside_of kind field }
{
    let flat = Inside::Message(Kind::Flat);
    match kind {
        Kind::Flat => Inside::Plain,
        Kind::SnapshotRead => only(field, 1, flat),
        Kind::Watch => only(field, 1, flat),
        Kind::RangeOutput => only(field, 1, flat),
        Kind::Mutation => only(field, 2, flat),
        Kind::WatchKeyOutput => only(field, 2, flat),
        Kind::Enqueue => only(field, 4, Inside::Numbers),
        Kind::AtomicWriteOutput => only(field, 4, Inside::Numbers),
        Kind::SnapshotReadOutput => only(field, 1, Inside::Message(Kind::RangeOutput)),
        Kind::WatchOutput => only(field, 2, Inside::Message(Kind::WatchKeyOutput)),
        Kind::AtomicWrite => inside_of_write(field),
    }
}

fn inside_of_write(field: u32) -> Inside
    ensures { result ≡ inside_of_write field }
{
    match field {
        1 => Inside::Message(Kind::Flat),
        2 => Inside::Message(Kind::Mutation),
        3 => Inside::Message(Kind::Enqueue),
        _ => Inside::Plain,
    }
}

fn earlier(one: Option<u64>, other: Option<u64>) -> Option<u64>
    ensures { result ≡ earlier one other }
{
    match (one, other) {
        (None, other) => other,
        (one, None) => one,
        (Some(one), Some(other)) => Some(one.min(other)),
    }
}

// The first place where a body is no message of this kind. The body begins at this place.
#[cycle(places)]
pub(crate) fn first_bad(kind: Kind, place: u64, bytes: &[u8]) -> Option<u64>
    requires { place + length bytes.now < 2 ^ 64 }
    ensures { result ≡ bad_message kind place bytes.now }
{
    let mut least = None;
    let mut fields = Fields::at(place, bytes);
    loop {
        match fields.next() {
            Err(malformed) => return earlier(least, Some(malformed.at)),
            Ok(None) => return least,
            Ok(Some(found)) => {
                if let Payload::Len(text) = found.payload {
                    let begin = fields.place() - text.len() as u64;
                    let inside = inside_of(kind, found.number);
                    least = earlier(least, bad_inside(inside, found.at, begin, text));
                }
            }
        }
    }
}

// The first bad place inside a payload, which begins at this place. Its field's tag is at the other.
#[cycle(places)]
fn bad_inside(inside: Inside, at: u64, place: u64, text: &[u8]) -> Option<u64>
    requires { place + length text.now < 2 ^ 64 }
    ensures { result ≡ bad_inside inside at place text.now }
{
    match inside {
        Inside::Plain => None,
        Inside::Numbers if are_varints(text) => None,
        Inside::Numbers => Some(at),
        Inside::Message(kind) => first_bad(kind, place, text),
    }
}
