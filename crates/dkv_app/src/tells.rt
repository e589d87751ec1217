// What the program prints of a database.
ghost use Rattle.std.specs.Prelude.{OnOk, OnErr};
ghost use Rattle.std.specs.Io.KnownBytes.{Appends};
ghost use Rattle.dkv_io.specs.Causes.{HasCause};
ghost use Rattle.dkv_io.specs.Streams.{AppendsFront};
ghost use Rattle.dkv_app.specs.Ids.{created_line, database_lines};

use dkv_io::{Failed, Sink};
use dkv_lines::write_pieces;
use itoa::Buffer;
use uuid::Uuid;

/// Writes the line of a database that was made. Takes no memory.
pub fn tell_created<K: Sink>(sink: &mut K, id: [u8; 16]) -> Result<(), Failed>
    ensures all { OnOk result (Appends (K.held sink.old) (K.held sink.new) (created_line id)) }
    ensures front { OnErr result
        (AppendsFront (K.held sink.old) (K.held sink.new) (created_line id)) }
    ensures cause { HasCause (K.faults sink.old) (K.faults sink.new) result }
{
    let mut text = Uuid::encode_buffer();
    let id = Uuid::from_bytes(id).hyphenated().encode_lower(&mut text);
    write_pieces(sink, &[b"created ", id.as_bytes(), b"\n"])
}

/// Writes the lines of a database that was checked: its id, its last commit's number, and how many
/// entries are visible and how many messages pending. Takes no memory.
pub fn tell_database<K: Sink>(
    sink: &mut K,
    id: [u8; 16],
    commits: u64,
    entries: u64,
    messages: u64,
) -> Result<(), Failed>
    ensures all { OnOk result (Appends (K.held sink.old) (K.held sink.new)
        (database_lines id commits entries messages)) }
    ensures front { OnErr result (AppendsFront (K.held sink.old) (K.held sink.new)
        (database_lines id commits entries messages)) }
    ensures cause { HasCause (K.faults sink.old) (K.faults sink.new) result }
{
    let mut text = Uuid::encode_buffer();
    let mut first = Buffer::new();
    let mut second = Buffer::new();
    let mut third = Buffer::new();
    write_pieces(
        sink,
        &[
            b"database ",
            Uuid::from_bytes(id)
                .hyphenated()
                .encode_lower(&mut text)
                .as_bytes(),
            b"\ncommits ",
            first.format(commits).as_bytes(),
            b"\nentries ",
            second.format(entries).as_bytes(),
            b" messages ",
            third.format(messages).as_bytes(),
            b"\n",
        ],
    )
}
