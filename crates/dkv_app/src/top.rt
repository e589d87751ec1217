// The program, over any source, sink, error output, files and random bytes.
ghost use Rattle.std.specs.Prelude.{◌≡◌, map, string_bytes, IsSome};
ghost use Rattle.dkv_io.specs.Causes.{Rose};
ghost use Rattle.dkv_app.specs.Commands.{HasFolder, HasTrail, NamesFolder};
ghost use Rattle.dkv_app.specs.Runs.{Does, Runs};
ghost use Rattle.dkv_app.specs.Statuses.{Lines};

use crate::checking::run_check;
use crate::command::{Command, CommandError, read_command};
use crate::creating::run_create;
use crate::generating::run_generate;
use crate::piping::{run_new, run_over};
use crate::report::report;
use crate::status::{Ended, Status};
use dkv_files::Pair;
use dkv_io::{Disk, Random, Sink, Source};
use std::alloc::Global;

// Runs a command, and says nothing of how it ended.
fn run_command<S: Source, K: Sink, D: Disk, R: Random>(
    alloc: Global,
    command: Command,
    source: &mut S,
    sink: &mut K,
    files: Option<Pair<D>>,
    random: &mut R,
) -> (Status, Option<Pair<D>>)
    requires folder { HasFolder command → IsSome files }
    requires trail { HasTrail command }
    ensures { Does S.left S.ended S.faults K.held K.faults R.stream R.faults
        D.seen D.may_leave D.faults D.moment D.left_since command result.0
        source.old source.new sink.old sink.new random.old random.new files result.1 }
{
    match (command, files) {
        (Command::Create { folder: _ }, Some(mut pair)) => {
            let status = run_create(alloc, sink, &mut pair, random);
            (status, Some(pair))
        }
        (Command::Check { folder: _ }, Some(pair)) => {
            let (status, pair) = run_check(alloc, sink, pair);
            (status, Some(pair))
        }
        (
            Command::Pipe {
                folder: Some(_),
                trail,
                summary,
            },
            Some(pair),
        ) => {
            let (status, pair) = run_over(alloc, source, sink, pair, trail, summary);
            (status, Some(pair))
        }
        (
            Command::Pipe {
                folder: None,
                trail,
                summary,
            },
            files,
        ) => (run_new(alloc, source, sink, trail, summary), files),
        (Command::Generate { number }, files) => (run_generate(alloc, sink, number), files),
        (_, files) => (Status::NoDatabase, files),
    }
}

// Runs what the words name, and says nothing of how it ended.
fn run_words<S: Source, K: Sink, D: Disk, R: Random>(
    alloc: Global,
    words: &[String],
    source: &mut S,
    sink: &mut K,
    files: Option<Pair<D>>,
    random: &mut R,
) -> (Status, Option<Pair<D>>)
    requires { NamesFolder (map string_bytes words.now) → IsSome files }
    ensures { Runs S.left S.ended S.faults K.held K.faults R.stream R.faults
        D.seen D.may_leave D.faults D.moment D.left_since (map string_bytes words.now) result.0
        source.old source.new sink.old sink.new random.old random.new files result.1 }
{
    match read_command(alloc, words) {
        Ok(command) => run_command(alloc, command, source, sink, files, random),
        Err(CommandError::BadWords) => (Status::BadWords, files),
        Err(CommandError::NoMemory) => (Status::NoMemory, files),
    }
}

/// Runs the command that the words name, and writes the line of its status to the error output. The
/// files are those of the folder that the words name, and are handed back. It waits where the source
/// does.
pub fn run_once<S: Source, K: Sink, E: Sink, D: Disk, R: Random>(
    alloc: Global,
    words: &[String],
    source: &mut S,
    sink: &mut K,
    errors: &mut E,
    files: Option<Pair<D>>,
    random: &mut R,
) -> Ended<D>
    requires { NamesFolder (map string_bytes words.now) → IsSome files }
    // What a command does is said of each: what it reads, prints, answers and draws, what becomes of
    // the files at any moment, and which counts rose. Other words do nothing.
    ensures runs { Runs S.left S.ended S.faults K.held K.faults R.stream R.faults
        D.seen D.may_leave D.faults D.moment D.left_since
        (map string_bytes words.now) result.status
        source.old source.new sink.old sink.new random.old random.new files result.files }
    // The status's line is written, or a front of it where that failed; nothing at Ok.
    ensures line { Lines result.status (E.held errors.old) (E.held errors.new)
        (Rose (E.faults errors.old) (E.faults errors.new)) }
{
    let (status, files) = run_words(alloc, words, source, sink, files, random);
    report(status, errors);
    Ended { status, files }
}
