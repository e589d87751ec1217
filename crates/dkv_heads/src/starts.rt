//! What stands before the second space of a request line (RFC 9112, section 3), one byte after the other.
ghost use Rattle.std.specs.Prelude.{◌≡◌, ◌∷◌, ◌++◌, [], ℕ, List};
ghost use Rattle.dkv_heads.specs.Scans.{IsStart, StartGoes, next_start};

use httparse::is_method_token;

/// What stands before the request line's second space.
#[derive(Clone, Copy, Debug, PartialEq, Eq)]
pub enum StartAt {
    /// Empty lines, or nothing.
    Blank,
    /// Empty lines and a carriage return.
    BlankCr,
    /// In the method.
    Method,
    /// After the space behind the method.
    Target,
}

/// What one more byte makes of it. Nothing where `httparse` has to be asked.
pub fn next_start(at: StartAt, byte: u8) -> Option<StartAt>
    ensures next { result ≡ next_start at byte }
    ensures goes { (bytes : List ℕ) → IsStart at bytes → StartGoes result (bytes ++ byte ∷ []) }
{
    start_step(at, byte)
}

fn start_step(at: StartAt, byte: u8) -> Option<StartAt>
    ensures { result ≡ next_start at byte }
{
    match at {
        StartAt::Blank => {
            if byte == b'\r' {
                Some(StartAt::BlankCr)
            } else if byte == b'\n' {
                Some(StartAt::Blank)
            } else if is_method_token(byte) {
                Some(StartAt::Method)
            } else {
                None
            }
        }
        StartAt::BlankCr => {
            if byte == b'\n' {
                Some(StartAt::Blank)
            } else {
                None
            }
        }
        StartAt::Method => {
            if byte == b' ' {
                Some(StartAt::Target)
            } else if is_method_token(byte) {
                Some(StartAt::Method)
            } else {
                None
            }
        }
        StartAt::Target => {
            if byte == b' ' || byte == b'\r' || byte == b'\n' {
                None
            } else {
                Some(StartAt::Target)
            }
        }
    }
}
