// The fields of messages, as they are written.
ghost use Rattle.std.specs.Prelude.{◌≡◌, ℕ, List, [], ◌++◌, flat_map, OnOk, IfSome, All};
ghost use Rattle.std.specs.Option.{option_map_or};
ghost use Rattle.dkv_base.specs.Protobuf.{flag, unsigned, varint, delimited, number_field, bytes_field, numbers_field};
ghost use Rattle.dkv_wire.specs.Wire.{IsFieldNumber};
ghost use Rattle.dkv_msgs.specs.Fits.{NumbersFit};
ghost use Rattle.dkv_msgs.specs.Spellings.{all_delimited, delimited_if_some};

use dkv_base::{Bytes, NoMemory};
use dkv_wire::Out;
use dkv_wire::limits::{MAX_HEAD_BYTES, MAX_VARINT_BYTES};

/// What is written as an embedded message.
pub trait Spelled {
    ghost spelling: { Self → List ℕ };

    ghost fits: { Self → Type 0 };

    /// Appends the canonical spelling.
    fn spell(&self, out: &mut Out) -> Result<(), NoMemory>
        ensures spelled { OnOk result (out.new.bytes ≡ out.old.bytes ++ spelling self.now) }
        // Its numbers fit their types, as those of each value do.
        ensures fits { OnOk result (fits self.now) };
}

/// Appends a number, where it is not 0.
#[tactic(auto, using(dkv_wire::proofs::Sizes::number_size))]
pub fn add_number(out: &mut Out, field: u32, number: u64) -> Result<(), NoMemory>
    requires { IsFieldNumber field }
    ensures { OnOk result (out.new.bytes ≡ out.old.bytes ++ number_field field number) }
{
    out.reserve(MAX_HEAD_BYTES)?;
    out.put_number(field, number);
    Ok(())
}

/// Appends a signed number in two's complement of 64 bits, where it is not 0.
pub fn add_signed(out: &mut Out, field: u32, number: i64) -> Result<(), NoMemory>
    requires { IsFieldNumber field }
    ensures { OnOk result (out.new.bytes ≡ out.old.bytes ++ number_field field (unsigned number)) }
{
    add_number(out, field, number.cast_unsigned())
}

/// Appends a truth value, where it is true.
pub fn add_flag(out: &mut Out, field: u32, value: bool) -> Result<(), NoMemory>
    requires { IsFieldNumber field }
    ensures { OnOk result (out.new.bytes ≡ out.old.bytes ++ number_field field (flag value)) }
{
    if value {
        add_number(out, field, 1)
    } else {
        Ok(())
    }
}

/// Appends a payload with its length before it, even if it is empty.
#[tactic(auto, using(dkv_wire::proofs::Sizes::delimited_size))]
pub fn add_delimited(out: &mut Out, field: u32, bytes: &[u8]) -> Result<(), NoMemory>
    requires { IsFieldNumber field }
    ensures { OnOk result (out.new.bytes ≡ out.old.bytes ++ delimited field bytes.now) }
{
    out.reserve(MAX_HEAD_BYTES + bytes.len())?;
    out.put_bytes(field, bytes);
    Ok(())
}

/// Appends bytes, where there are any.
pub fn add_bytes(out: &mut Out, field: u32, bytes: &[u8]) -> Result<(), NoMemory>
    requires { IsFieldNumber field }
    ensures { OnOk result (out.new.bytes ≡ out.old.bytes ++ bytes_field field bytes.now) }
{
    if bytes.is_empty() {
        return Ok(());
    }
    add_delimited(out, field, bytes)
}

#[tactic(auto, using(dkv_wire::proofs::Sizes::varint_size))]
fn add_varints(out: &mut Out, numbers: &[u32]) -> Result<(), NoMemory>
    ensures { OnOk result (out.new.bytes ≡ out.old.bytes ++ flat_map varint numbers.now) }
{
    for n in numbers {
        out.reserve(usize::from(MAX_VARINT_BYTES))?;
        out.put_varint(u64::from(*n));
    }
    Ok(())
}

/// Appends numbers, packed in one field, where there are any.
pub fn add_numbers(out: &mut Out, field: u32, numbers: &[u32]) -> Result<(), NoMemory>
    requires { IsFieldNumber field }
    ensures bytes { OnOk result (out.new.bytes ≡ out.old.bytes ++ numbers_field field numbers.now) }
    ensures fits { OnOk result (NumbersFit numbers.now) }
{
    let from = out.len();
    add_varints(out, numbers)?;
    if out.len() > from {
        out.enclose(field, from)?;
    }
    Ok(())
}

/// Appends each payload in order, even if it is empty.
pub fn add_payloads(out: &mut Out, field: u32, payloads: &[Bytes]) -> Result<(), NoMemory>
    requires { IsFieldNumber field }
    ensures { OnOk result
        (out.new.bytes ≡ out.old.bytes ++ flat_map (delimited field) payloads.now) }
{
    for payload in payloads {
        add_delimited(out, field, payload.as_slice())?;
    }
    Ok(())
}

/// Appends an embedded message, even if it is empty.
pub fn add_message<M: Spelled>(out: &mut Out, field: u32, message: &M) -> Result<(), NoMemory>
    requires { IsFieldNumber field }
    ensures bytes { OnOk result
        (out.new.bytes ≡ out.old.bytes ++ delimited field (M.spelling message.now)) }
    ensures fits { OnOk result (M.fits message.now) }
{
    let from = out.len();
    message.spell(out)?;
    out.enclose(field, from)?;
    Ok(())
}

/// Appends an embedded message, where there is one.
pub fn add_optional<M: Spelled>(
    out: &mut Out,
    field: u32,
    message: &Option<M>,
) -> Result<(), NoMemory>
    requires { IsFieldNumber field }
    ensures bytes { OnOk result
        (out.new.bytes ≡ out.old.bytes ++ delimited_if_some field M.spelling message.now) }
    ensures fits { OnOk result (IfSome message.now M.fits) }
{
    match message {
        None => Ok(()),
        Some(message) => add_message(out, field, message),
    }
}

/// Appends each embedded message in order.
pub fn add_messages<M: Spelled>(out: &mut Out, field: u32, messages: &[M]) -> Result<(), NoMemory>
    requires { IsFieldNumber field }
    ensures bytes { OnOk result
        (out.new.bytes ≡ out.old.bytes ++ all_delimited field M.spelling messages.now) }
    ensures fits { OnOk result (All M.fits messages.now) }
{
    for message in messages {
        add_message(out, field, message)?;
    }
    Ok(())
}
