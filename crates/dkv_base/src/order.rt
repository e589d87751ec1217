// How keys rank, by their bytes.
ghost use Rattle.std.specs.Prelude.{◌≡◌};
ghost use Rattle.dkv_base.specs.State.{key_cmp};

use std::cmp::Ordering;

// The same, one byte after another.
#[tactic(auto, using(crate::proofs::Orders::goes_on))]
fn compare_bytes(key: &[u8], other: &[u8]) -> Ordering
    ensures { result ≡ key_cmp key.now other.now }
{
    match (key, other) {
        ([], []) => Ordering::Equal,
        ([], [_, ..]) => Ordering::Less,
        ([_, ..], []) => Ordering::Greater,
        ([byte, rest @ ..], [other_byte, other_rest @ ..]) => {
            if byte == other_byte {
                compare_bytes(rest, other_rest)
            } else {
                byte.cmp(other_byte)
            }
        }
    }
}

#[tactic(auto, using(crate::proofs::Words::words_equal, crate::proofs::Words::words_apart))]
/// How a key ranks beside another, by their bytes: eight at once, while both have so many. Takes no memory.
pub fn compare(key: &[u8], other: &[u8]) -> Ordering
    ensures { result ≡ key_cmp key.now other.now }
{
    let (Some((front, rest)), Some((other_front, other_rest))) = (
        key.split_first_chunk::<8>(),
        other.split_first_chunk::<8>(),
    ) else {
        return compare_bytes(key, other);
    };
    let word = u64::from_be_bytes(*front);
    let other_word = u64::from_be_bytes(*other_front);
    if word == other_word {
        compare(rest, other_rest)
    } else {
        word.cmp(&other_word)
    }
}
