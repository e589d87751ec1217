// The examples of the proto3 encoding guide.
use crate::{Fields, Out, Varints};
use std::test::Fail;

// The fields that the encoding guide spells: 150 as number 1, and "testing" as number 2.
#[test]
fn the_fields_of_the_encoding_guide_are_written(rt: HostRuntime) -> Result<(), Fail> {
    let mut out = Out::new(rt.alloc());
    out.reserve(100)?;
    out.put_number(1, 150);
    out.put_bytes(2, b"testing");
    let bytes = out.finish();
    assert_eq!(rt; bytes.as_slice(), b"\x08\x96\x01\x12\x07testing".as_slice());
    Ok(())
}

// The same fields, and a group behind them.
#[test]
fn the_fields_of_the_encoding_guide_are_read(rt: HostRuntime) -> Result<(), Fail> {
    let mut fields = Fields::new(b"\x08\x96\x01\x12\x07testing\x1b");
    let shown = [
        "Ok(Some(Field { number: 1, payload: Varint(150), at: 0 }))",
        "Ok(Some(Field { number: 2, payload: Len([116, 101, 115, 116, 105, 110, 103]), at: 3 }))",
        "Err(Malformed { at: 12 })",
        "Err(Malformed { at: 12 })",
    ];
    for want in shown {
        let found = fields.next();
        assert_eq!(rt; format!(in rt.alloc(); "{found:?}")?.as_str(), want);
    }
    Ok(())
}

// The packed numbers that the encoding guide spells.
#[test]
fn the_packed_numbers_of_the_encoding_guide_are_read(rt: HostRuntime) {
    let mut numbers = Varints::new(b"\x03\x8e\x02\x9e\xa7\x05");
    for want in [Some(3), Some(270), Some(86942), None] {
        assert_eq!(rt; numbers.next(), want);
    }
}
