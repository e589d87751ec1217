// The options of `pipe`: in any order, each at most once, its value the next word. A summary has no value.
ghost use Rattle.std.specs.Prelude.{◌≡◌, ◌↔◌, true, map, string_bytes};
ghost use Rattle.dkv_app.specs.Commands.{FindsAs, ReadsAs};
ghost use Rattle.dkv_app.specs.Options.{IsNumber, IsTrail, AddsFolder, AddsTrail, AddsSummary, AddsOption, AreOptions, no_options};

use crate::command::CommandError;
use dkv_base::{Bytes, NoMemory};
use std::alloc::Global;

/// The least weight of a trail that may be asked for, in bytes.
pub const MIN_TRAIL: u64 = 1000;

/// The greatest weight of a trail that may be asked for, in bytes, and the one where none is asked for.
pub const MAX_TRAIL: u64 = 268_435_456;

// The most digits of a number.
const MAX_DIGITS: usize = 20;

// The most words that options are: two for each of those that have a value, and one for a summary.
const MAX_WORDS: usize = 5;

/// The options that were given.
#[derive(Debug, Drop)]
pub struct Options {
    pub folder: Option<Bytes>,
    pub trail: Option<u64>,
    pub summary: bool,
}

/// Whether a word is this one.
pub(crate) fn is_word(word: &str, this: &str) -> bool
    ensures { (result ≡ true) ↔ (word.now ≡ this.now) }
{
    word == this
}

/// The number that a word is: one to twenty digits without a sign, of a value that 64 bits hold.
pub(crate) fn number_of(word: &str) -> Option<u64>
    ensures { FindsAs result (λ n. IsNumber word.now n) }
{
    if word.len() > MAX_DIGITS || word.starts_with('+') {
        return None;
    }
    word.parse().ok()
}

// The weight of a trail that a word is.
fn trail_of(word: &str) -> Option<u64>
    ensures { FindsAs result (λ n. IsTrail word.now n) }
{
    match number_of(word) {
        Some(n) if MIN_TRAIL <= n && n <= MAX_TRAIL => Some(n),
        _ => None,
    }
}

impl Options {
    // None was given.
    fn none() -> Options
        ensures { result ≡ no_options }
    {
        Options {
            folder: None,
            trail: None,
            summary: false,
        }
    }

    fn with_folder(self, alloc: Global, value: &str) -> Result<Options, CommandError>
        ensures { ReadsAs result (λ all. AddsFolder value.now self all) }
    {
        if self.folder.is_some() {
            return Err(CommandError::BadWords);
        }
        match Bytes::copy_of(alloc, value.as_bytes()) {
            Ok(folder) => Ok(Options {
                folder: Some(folder),
                trail: self.trail,
                summary: self.summary,
            }),
            Err(NoMemory) => Err(CommandError::NoMemory),
        }
    }

    fn with_trail(self, value: &str) -> Result<Options, CommandError>
        ensures { ReadsAs result (λ all. AddsTrail value.now self all) }
    {
        match (self.trail, trail_of(value)) {
            (None, Some(trail)) => Ok(Options {
                folder: self.folder,
                trail: Some(trail),
                summary: self.summary,
            }),
            _ => Err(CommandError::BadWords),
        }
    }

    fn with_summary(self) -> Result<Options, CommandError>
        ensures { ReadsAs result (λ all. AddsSummary self all) }
    {
        if self.summary {
            return Err(CommandError::BadWords);
        }
        Ok(Options {
            folder: self.folder,
            trail: self.trail,
            summary: true,
        })
    }

    // These options, and one with a value before them.
    fn with(self, alloc: Global, name: &str, value: &str) -> Result<Options, CommandError>
        ensures { ReadsAs result (λ all. AddsOption name.now value.now self all) }
    {
        if is_word(name, "--folder") {
            self.with_folder(alloc, value)
        } else if is_word(name, "--trail") {
            self.with_trail(value)
        } else {
            Err(CommandError::BadWords)
        }
    }
}

// The options that these words are. It calls itself for the words behind the first option.
fn options_in(alloc: Global, words: &[String]) -> Result<Options, CommandError>
    ensures { ReadsAs result (λ all. AreOptions (map string_bytes words.now) all) }
{
    let Some((name, rest)) = words.split_first() else {
        return Ok(Options::none());
    };
    if is_word(name.as_str(), "--summary") {
        return match options_in(alloc, rest) {
            Ok(others) => others.with_summary(),
            Err(error) => Err(error),
        };
    }
    let Some((value, rest)) = rest.split_first() else {
        return Err(CommandError::BadWords);
    };
    match options_in(alloc, rest) {
        Ok(others) => others.with(alloc, name.as_str(), value.as_str()),
        Err(error) => Err(error),
    }
}

/// Reads the words behind `pipe`. Takes memory for the folder.
pub(crate) fn read_options(alloc: Global, words: &[String]) -> Result<Options, CommandError>
    ensures { ReadsAs result (λ all. AreOptions (map string_bytes words.now) all) }
{
    if words.len() > MAX_WORDS {
        return Err(CommandError::BadWords);
    }
    options_in(alloc, words)
}
