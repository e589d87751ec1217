// What a step asks, as a short text and as the numbers in it.
use std::alloc::Global;
use std::test::Fail;

/// One part of a step: its word's first letter, the letters of up to two keys, and up to two numbers. The words are
///
/// | of a write | it asks |
/// |---|---|
/// | `check KEY COMMIT` | that the key's entry is of this commit, or absent where it is 0 |
/// | `set KEY NUMBER EXPIRY`, `delete KEY`, `add KEY NUMBER` | a SET, a DELETE, a SUM |
/// | `xor KEY NUMBER` | a kind of mutation that there isn't |
/// | `enqueue PAYLOAD DEADLINE` | a message, with the waits and keys behind it |
/// | `wait MILLISECONDS`, `keep KEY` | an interval, and an undelivered key, of that message |
///
/// | alone | it asks |
/// |---|---|
/// | `get KEY`, `read KEY END LIMIT`, `back KEY END LIMIT` | one entry, the entries of a range up, and down |
/// | `take`, `handled COMMIT INDEX`, `failed COMMIT INDEX` | a take, and the settlement of a message |
/// | `watch KEY KEY`, `poll` | a watch of up to two keys, and the next frame of the caller's watch |
/// | `now` | no step: the last commit's number and moment, the greatest moment, and how many messages there are |
/// | `out COMMIT INDEX` | no step: whether the message is out |
#[derive(Clone, Copy, Debug)]
pub struct Part {
    pub word: u8,
    pub key: u8,
    pub end: u8,
    pub first: u64,
    pub second: u64,
}

pub const NOTHING: Part = Part {
    word: 0,
    key: 0,
    end: 0,
    first: 0,
    second: 0,
};

/// A part of a word, a key and two numbers.
pub fn make_part(word: u8, key: u8, first: u64, second: u64) -> Part {
    Part {
        word,
        key,
        end: 0,
        first,
        second,
    }
}

// With the letter of one key more, or with what is asked.
fn with_word(mut part: Part, word: &str) -> Part {
    match word.as_bytes() {
        [letter] if part.key == 0 => part.key = *letter,
        [letter] => part.end = *letter,
        [letter, ..] => part.word = *letter,
        [] => {}
    }
    part
}

fn read_part(text: &str) -> Part {
    let mut part = NOTHING;
    let mut is_first = true;
    for word in text.split(' ') {
        match word.parse::<u64>() {
            Ok(number) if is_first => {
                part.first = number;
                is_first = false;
            }
            Ok(number) => part.second = number,
            Err(_) => part = with_word(part, word),
        }
    }
    part
}

/// The parts of a text, between which semicolons stand.
pub fn parts_of(alloc: Global, text: &str) -> Result<Vec<Part>, Fail> {
    let mut parts = Vec::new(alloc);
    for text in text.split("; ") {
        parts.push(read_part(text))?;
    }
    Ok(parts)
}
