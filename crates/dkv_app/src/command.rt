// The commands, and the words that name them.
ghost use Rattle.std.specs.Prelude.{◌≡◌, ℕ, List, ◌∷◌, [], codes, map, string_bytes, MatchOption};
ghost use Rattle.dkv_app.specs.Commands.{IsCommand, ReadsAs};

use crate::options::{MAX_TRAIL, is_word, number_of, read_options};
use dkv_base::{Bytes, NoMemory};
use std::alloc::Global;
use thiserror::Error;

/// A command and its words.
#[derive(Debug, Drop)]
pub enum Command {
    /// `create FOLDER`
    Create {
        folder: Bytes,
    },
    /// `pipe [--folder FOLDER] [--trail N] [--summary]`: the trail's greatest weight is in bytes, from 1,000 to
    /// 268,435,456.
    Pipe {
        folder: Option<Bytes>,
        trail: u64,
        summary: bool,
    },
    /// `check FOLDER`
    Check {
        folder: Bytes,
    },
    /// `generate N`
    Generate {
        number: u64,
    },
}

/// Why words name no command.
#[derive(Clone, Copy, Debug, Error, PartialEq, Eq)]
pub enum CommandError {
    /// They are in no form of a command.
    #[error("bad words")]
    BadWords,
    /// The allocator had no room for the folder's name.
    #[error("no memory")]
    NoMemory,
}

// The only word behind a command.
fn only_word(alloc: Global, words: &[String]) -> Result<Bytes, CommandError>
    ensures { ReadsAs result (λ word. map string_bytes words.now ≡ word ∷ []) }
{
    if words.len() != 1 {
        return Err(CommandError::BadWords);
    }
    match Bytes::copy_of(alloc, words[0].as_bytes()) {
        Ok(word) => Ok(word),
        Err(NoMemory) => Err(CommandError::NoMemory),
    }
}

// The command of these words behind `create`.
fn read_create(alloc: Global, words: &[String]) -> Result<Command, CommandError>
    ensures { ReadsAs result
        (λ command. IsCommand command (codes "create" ∷ map string_bytes words.now)) }
{
    match only_word(alloc, words) {
        Ok(folder) => Ok(Command::Create { folder }),
        Err(error) => Err(error),
    }
}

// The command of these words behind `check`.
fn read_check(alloc: Global, words: &[String]) -> Result<Command, CommandError>
    ensures { ReadsAs result
        (λ command. IsCommand command (codes "check" ∷ map string_bytes words.now)) }
{
    match only_word(alloc, words) {
        Ok(folder) => Ok(Command::Check { folder }),
        Err(error) => Err(error),
    }
}

// The command of these words behind `pipe`.
fn read_pipe(alloc: Global, words: &[String]) -> Result<Command, CommandError>
    ensures { ReadsAs result
        (λ command. IsCommand command (codes "pipe" ∷ map string_bytes words.now)) }
{
    match read_options(alloc, words) {
        Ok(options) => Ok(Command::Pipe {
            folder: options.folder,
            trail: options.trail.unwrap_or(MAX_TRAIL),
            summary: options.summary,
        }),
        Err(error) => Err(error),
    }
}

// The text of the only word.
fn only_text(words: &[String]) -> Option<&str>
    ensures { MatchOption result
        ((text : List ℕ) → map string_bytes words.now ≡ text ∷ [] → ⊥)
        (λ text. map string_bytes words.now ≡ text.now ∷ []) }
{
    if words.len() != 1 {
        return None;
    }
    Some(words[0].as_str())
}

// The command of these words behind `generate`.
fn read_generate(words: &[String]) -> Result<Command, CommandError>
    ensures { ReadsAs result
        (λ command. IsCommand command (codes "generate" ∷ map string_bytes words.now)) }
{
    match only_text(words) {
        None => Err(CommandError::BadWords),
        Some(text) => match number_of(text) {
            None => Err(CommandError::BadWords),
            Some(number) => Ok(Command::Generate { number }),
        },
    }
}

/// Reads the words behind the program's name. Takes memory for the name of a folder.
pub fn read_command(alloc: Global, words: &[String]) -> Result<Command, CommandError>
    ensures { ReadsAs result (λ command. IsCommand command (map string_bytes words.now)) }
{
    if words.is_empty() {
        return Err(CommandError::BadWords);
    }
    let (name, rest) = (words[0].as_str(), &words[1..]);
    if is_word(name, "create") {
        read_create(alloc, rest)
    } else if is_word(name, "check") {
        read_check(alloc, rest)
    } else if is_word(name, "pipe") {
        read_pipe(alloc, rest)
    } else if is_word(name, "generate") {
        read_generate(rest)
    } else {
        Err(CommandError::BadWords)
    }
}
