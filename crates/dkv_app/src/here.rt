// The program over the system's words, streams, files and random bytes.
ghost use Rattle.std.specs.Prelude.{map, string_bytes, IfOk, IsSome};
ghost use Rattle.dkv_app.specs.Commands.{HasFolder, NamesFolder};

use crate::command::{Command, CommandError, read_command};
use crate::program::{NoWords, run_program};
use dkv_files::Pair;
use dkv_net::{FileDisk, StdSink, StdSource, SystemRandom, create_folder};
use std::alloc::Global;
use std::process::ExitCode;
use std::{env, io, str};

// The words behind the program's name, as the system gives them.
fn given_words(rt: &HostRuntime, alloc: Global) -> io::Result<Vec<String>> {
    let mut words = Vec::new(alloc);
    for word in env::args(rt)?.skip(1) {
        words.push(word)?;
    }
    Ok(words)
}

// The same, with why they can't be had.
fn words_of(rt: &HostRuntime, alloc: Global) -> Result<Vec<String>, NoWords> {
    match given_words(rt, alloc) {
        Ok(words) => Ok(words),
        Err(error) => Err(NoWords::of(error.kind())),
    }
}

// A file of a folder.
fn file_in(rt: &HostRuntime, alloc: Global, folder: &str, name: &str) -> Result<FileDisk, NoWords> {
    match format!(in alloc; "{folder}/{name}") {
        Ok(path) => Ok(FileDisk::new(rt, path)),
        Err(_) => Err(NoWords::NoMemory),
    }
}

// The two files of a folder, which is made first for a new database, where it is missing.
fn files_in(
    rt: &HostRuntime,
    alloc: Global,
    folder: &[u8],
    is_new: bool,
) -> Result<Pair<FileDisk>, NoWords> {
    let Ok(folder) = str::from_utf8(folder) else {
        return Err(NoWords::NotText);
    };
    if is_new {
        create_folder(rt, folder);
    }
    Ok(Pair {
        a: file_in(rt, alloc, folder, "a.dkv")?,
        b: file_in(rt, alloc, folder, "b.dkv")?,
    })
}

// The files that a command needs.
fn files_for(
    rt: &HostRuntime,
    alloc: Global,
    command: &Command,
) -> Result<Option<Pair<FileDisk>>, NoWords>
    ensures { IfOk result (λ files. HasFolder command.now → IsSome files) }
{
    let (folder, is_new) = match command {
        Command::Create { folder } => (folder, true),
        Command::Check { folder } => (folder, false),
        Command::Pipe {
            folder: Some(folder),
            trail: _,
            summary: _,
        } => (folder, false),
        Command::Pipe {
            folder: None,
            trail: _,
            summary: _,
        }
        | Command::Generate { number: _ } => return Ok(None),
    };
    Ok(Some(files_in(rt, alloc, folder.as_slice(), is_new)?))
}

// The files that the words name.
fn files_of(
    rt: &HostRuntime,
    alloc: Global,
    words: &[String],
) -> Result<Option<Pair<FileDisk>>, NoWords>
    ensures { IfOk result (λ files. NamesFolder (map string_bytes words.now) → IsSome files) }
{
    match read_command(alloc, words) {
        Ok(command) => files_for(rt, alloc, &command),
        Err(CommandError::BadWords) => Ok(None),
        Err(CommandError::NoMemory) => Err(NoWords::NoMemory),
    }
}

// The words and the files that they name.
fn given(rt: &HostRuntime, alloc: Global) -> (Result<Vec<String>, NoWords>, Option<Pair<FileDisk>>)
    ensures { IfOk result.0 (λ texts.
        NamesFolder (map string_bytes texts.items) → IsSome result.1) }
{
    match words_of(rt, alloc) {
        Ok(words) => match files_of(rt, alloc, &words) {
            Ok(files) => (Ok(words), files),
            Err(why) => (Err(why), None),
        },
        Err(why) => (Err(why), None),
    }
}

/// Runs the program on the words and the three standard streams of the process, on the files `a.dkv` and
/// `b.dkv` of the folder that the words name, and on the system's random bytes, and gives its exit
/// status, as `run_program` does over any. None of them tells anything of its bytes. `create` makes the
/// folder where it is missing. It waits where the standard input does.
pub fn run_here(rt: &HostRuntime) -> ExitCode {
    let alloc = rt.alloc();
    let (words, files) = given(rt, alloc);
    let (exit, _files) = run_program(
        alloc,
        words,
        &mut StdSource::new(rt.stdin()),
        &mut StdSink::new(rt.stdout()),
        &mut StdSink::new(rt.stderr()),
        files,
        &mut SystemRandom::new(rt),
    );
    ExitCode::from(exit)
}
