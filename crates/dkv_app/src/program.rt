// The program over any streams and files: the words that it was given, its exit status and error line.
ghost use Rattle.std.specs.Prelude.{◌≡◌, map, string_bytes, IfOk, IfErr, OnErr, IsSome};
ghost use Rattle.dkv_io.specs.Causes.{Rose};
ghost use Rattle.dkv_app.specs.Commands.{NamesFolder};
ghost use Rattle.dkv_app.specs.Runs.{Idles, Runs};
ghost use Rattle.dkv_app.specs.Statuses.{Exits, unheard, why_of};

use crate::report::report;
use crate::status::Status;
use crate::top::run_once;
use dkv_files::Pair;
use dkv_io::{Disk, Random, Sink, Source};
use std::alloc::Global;
use std::io::ErrorKind;
use thiserror::Error;

/// Why the words behind the program's name can't be had.
#[derive(Clone, Copy, Debug, Error, PartialEq, Eq)]
pub enum NoWords {
    /// One of them isn't text.
    #[error("bad words")]
    NotText,
    /// The allocator had no room for them.
    #[error("no memory")]
    NoMemory,
}

impl NoWords {
    // Why they can't be had where reading them ended with an error of this kind.
    pub(crate) fn of(kind: ErrorKind) -> NoWords
        ensures { result ≡ why_of kind }
    {
        match kind {
            ErrorKind::OutOfMemory => NoWords::NoMemory,
            _ => NoWords::NotText,
        }
    }
}

/// Runs what the words name, and gives the exit status and the files back. Replies and lines go to the
/// sink, and the line of the status to the error output. Words that can't be had run nothing. It waits
/// where the source does.
pub fn run_program<S: Source, K: Sink, E: Sink, D: Disk, R: Random>(
    alloc: Global,
    words: Result<Vec<String>, NoWords>,
    source: &mut S,
    sink: &mut K,
    errors: &mut E,
    files: Option<Pair<D>>,
    random: &mut R,
) -> (u8, Option<Pair<D>>)
    requires { IfOk words (λ texts. NamesFolder (map string_bytes texts.items) → IsSome files) }
    // The exit status and the error line are those of how the words ended that were run.
    ensures ended { IfOk words (λ texts. Exits result.0
        (E.held errors.old) (E.held errors.new) (Rose (E.faults errors.old) (E.faults errors.new))
        (λ status. Runs S.left S.ended S.faults K.held K.faults R.stream R.faults
        D.seen D.may_leave D.faults D.moment D.left_since
        (map string_bytes texts.items) status
        source.old source.new sink.old sink.new random.old random.new files result.1)) }
    // Or they are those of why the words can't be had.
    ensures unheard { IfErr words (λ why. Exits result.0
        (E.held errors.old) (E.held errors.new) (Rose (E.faults errors.old) (E.faults errors.new))
        (λ status. status ≡ unheard why)) }
    ensures idle { OnErr words (Idles
        source.old source.new sink.old sink.new random.old random.new files result.1) }
{
    match words {
        Ok(words) => {
            let ended = run_once(alloc, &words, source, sink, errors, files, random);
            (ended.status.number(), ended.files)
        }
        Err(why) => {
            let status = Status::unheard(why);
            report(status, errors);
            (status.number(), files)
        }
    }
}
