//! Chunk lines (RFC 9112, section 7.1), one byte after the other.
ghost use Rattle.std.specs.Prelude.{◌≡◌, ◌<◌, ◌∷◌, ◌++◌, [], ℕ, List, true, length};
ghost use Rattle.dkv_heads.specs.Sizes.{IsSize, SizeGoes, next_size};

use httparse::{is_space_or_tab, parse_hex_digit};

/// What stands in a chunk line so far.
#[derive(Clone, Copy, Debug, PartialEq, Eq)]
pub enum SizeAt {
    /// No digit or more.
    Digits,
    /// Digits, and blanks behind them.
    Pad,
    /// Behind the semicolon.
    Extension,
    /// A carriage return came.
    Cr,
    /// What `httparse` alone has judged.
    Judged,
}

/// What one more byte makes of it. Nothing where `httparse` has to be asked. `few`: fewer than 16 bytes so far; `some`:
/// one at least.
pub fn next_size(at: SizeAt, few: bool, some: bool, byte: u8) -> Option<SizeAt>
    ensures next { result ≡ next_size at few some byte }
    ensures goes { (line : List ℕ) → (few ≡ true → length line < 16)
        → (some ≡ true → 0 < length line) → IsSize at line → SizeGoes result (line ++ byte ∷ []) }
{
    size_step(at, few, some, byte)
}

fn size_step(at: SizeAt, few: bool, some: bool, byte: u8) -> Option<SizeAt>
    ensures { result ≡ next_size at few some byte }
{
    match at {
        SizeAt::Digits => {
            if few && parse_hex_digit(byte).is_some() {
                Some(SizeAt::Digits)
            } else if some && is_space_or_tab(byte) {
                Some(SizeAt::Pad)
            } else if some && byte == b';' {
                Some(SizeAt::Extension)
            } else if some && byte == b'\r' {
                Some(SizeAt::Cr)
            } else {
                None
            }
        }
        SizeAt::Pad => {
            if is_space_or_tab(byte) {
                Some(SizeAt::Pad)
            } else if byte == b';' {
                Some(SizeAt::Extension)
            } else if byte == b'\r' {
                Some(SizeAt::Cr)
            } else {
                None
            }
        }
        SizeAt::Extension => {
            if byte == b'\r' {
                Some(SizeAt::Cr)
            } else if byte == b'\n' {
                None
            } else {
                Some(SizeAt::Extension)
            }
        }
        SizeAt::Cr => None,
        SizeAt::Judged => None,
    }
}
