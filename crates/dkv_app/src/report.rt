// The line of a status on the error output.
ghost use Rattle.std.specs.Prelude.{◌≡◌, ◌∷◌, ◌++◌, [], OnOk, OnErr, decimal};
ghost use Rattle.std.specs.Io.KnownBytes.{Appends};
ghost use Rattle.dkv_io.specs.Causes.{Rose, HasCause};
ghost use Rattle.dkv_io.specs.Streams.{AppendsFront};
ghost use Rattle.dkv_app.specs.Statuses.{Lines, line};
ghost use Rattle.dkv_app.specs.declared.status.Status.TheVariants as status;

use crate::status::Status;
use dkv_io::{Failed, Sink};
use dkv_lines::write_pieces;
use itoa::Buffer;

// Writes a text, a number and the line's end.
fn write_numbered<E: Sink>(errors: &mut E, text: &[u8], n: u64) -> Result<(), Failed>
    ensures all { OnOk result
        (Appends (E.held errors.old) (E.held errors.new) (text.now ++ decimal n ++ 10 ∷ [])) }
    ensures front { OnErr result
        (AppendsFront (E.held errors.old) (E.held errors.new) (text.now ++ decimal n ++ 10 ∷ [])) }
    ensures cause { HasCause (E.faults errors.old) (E.faults errors.new) result }
{
    let mut digits = Buffer::new();
    write_pieces(errors, &[text, digits.format(n).as_bytes(), b"\n"])
}

// Writes where a file is damaged.
fn write_damaged<E: Sink>(errors: &mut E, file: u8, at: u64) -> Result<(), Failed>
    ensures all { OnOk result (Appends (E.held errors.old) (E.held errors.new)
        (line (status.Damaged file at))) }
    ensures front { OnErr result (AppendsFront (E.held errors.old) (E.held errors.new)
        (line (status.Damaged file at))) }
    ensures cause { HasCause (E.faults errors.old) (E.faults errors.new) result }
{
    let mut first = Buffer::new();
    let mut second = Buffer::new();
    write_pieces(
        errors,
        &[
            b"damaged: file ",
            first.format(file).as_bytes(),
            b" at ",
            second.format(at).as_bytes(),
            b"\n",
        ],
    )
}

// Writes the line of a status, which is nothing for Ok.
#[tactic(auto, using(dkv_io::proofs::Written::appends_nothing))]
fn write_line<E: Sink>(status: Status, errors: &mut E) -> Result<(), Failed>
    ensures all { OnOk result (Appends (E.held errors.old) (E.held errors.new) (line status)) }
    ensures front { OnErr result
        (AppendsFront (E.held errors.old) (E.held errors.new) (line status)) }
    ensures cause { HasCause (E.faults errors.old) (E.faults errors.new) result }
{
    match status {
        Status::Ok => Ok(()),
        Status::BadWords => errors.write(b"bad words\n"),
        Status::ReadFault => errors.write(b"read fault\n"),
        Status::WriteFault => errors.write(b"write fault\n"),
        Status::DiskFault => errors.write(b"disk fault\n"),
        Status::NoDatabase => errors.write(b"no database\n"),
        Status::Damaged { file, at } => write_damaged(errors, file, at),
        Status::BadFrame { at } => write_numbered(errors, b"bad frame at ", at),
        Status::Exists => errors.write(b"database exists\n"),
        Status::Worn { n } => write_numbered(errors, b"worn at ", n),
        Status::RandomFault => errors.write(b"random fault\n"),
        Status::NoMemory => errors.write(b"no memory\n"),
        Status::NotBuilt { at } => write_numbered(errors, b"not built at ", at),
    }
}

/// Writes the line of a status to the error output, without memory. A failure to write it is passed
/// over.
pub fn report<E: Sink>(status: Status, errors: &mut E)
    ensures { Lines status (E.held errors.old) (E.held errors.new)
        (Rose (E.faults errors.old) (E.faults errors.new)) }
{
    let _ = write_line(status, errors);
}
