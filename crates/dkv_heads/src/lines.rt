//! Field lines (RFC 9112, section 5), one byte after the other.
ghost use Rattle.std.specs.Prelude.{◌≡◌, ◌∷◌, ◌++◌, [], ℕ, List};
ghost use Rattle.dkv_heads.specs.Scans.{IsLine, LineGoes, next_line};
ghost use Rattle.dkv_heads.specs.declared.lines.LineAt.TheVariants as line_at;

use httparse::{is_header_name_token, is_header_value_token};

/// What stands in a line so far.
#[derive(Clone, Copy, Debug, PartialEq, Eq)]
pub enum LineAt {
    /// Nothing.
    Start,
    /// In the name.
    Name,
    /// Behind the colon.
    Value,
    /// A value and a carriage return.
    ValueCr,
    /// A carriage return alone.
    EndCr,
}

/// What one more byte makes of it.
#[derive(Clone, Copy, Debug, PartialEq, Eq)]
pub enum LineStep {
    /// The line goes on.
    On(LineAt),
    /// A whole field line.
    Field,
    /// A whole empty line.
    End,
    /// The byte stands in no such line.
    Other,
}

/// What one more byte makes of it.
pub fn next_line(at: LineAt, byte: u8) -> LineStep
    ensures next { result ≡ next_line at byte }
    ensures goes { (line : List ℕ) → IsLine at line → LineGoes result (line ++ byte ∷ []) }
{
    line_step(at, byte)
}

fn line_step(at: LineAt, byte: u8) -> LineStep
    ensures { result ≡ next_line at byte }
{
    match at {
        LineAt::Start => step_at_start(byte),
        LineAt::Name => step_in_name(byte),
        LineAt::Value => step_in_value(byte),
        LineAt::ValueCr => {
            if byte == b'\n' {
                LineStep::Field
            } else {
                LineStep::Other
            }
        }
        LineAt::EndCr => {
            if byte == b'\n' {
                LineStep::End
            } else {
                LineStep::Other
            }
        }
    }
}

fn step_at_start(byte: u8) -> LineStep
    ensures { result ≡ next_line line_at.Start byte }
{
    if byte == b'\r' {
        LineStep::On(LineAt::EndCr)
    } else if byte == b'\n' {
        LineStep::End
    } else if is_header_name_token(byte) {
        LineStep::On(LineAt::Name)
    } else {
        LineStep::Other
    }
}

fn step_in_name(byte: u8) -> LineStep
    ensures { result ≡ next_line line_at.Name byte }
{
    if byte == b':' {
        LineStep::On(LineAt::Value)
    } else if is_header_name_token(byte) {
        LineStep::On(LineAt::Name)
    } else {
        LineStep::Other
    }
}

fn step_in_value(byte: u8) -> LineStep
    ensures { result ≡ next_line line_at.Value byte }
{
    if byte == b'\r' {
        LineStep::On(LineAt::ValueCr)
    } else if byte == b'\n' {
        LineStep::Field
    } else if is_header_value_token(byte) {
        LineStep::On(LineAt::Value)
    } else {
        LineStep::Other
    }
}
