//! Heads, lines and trailers at their limits.
use super::{told, told_by_bytes};
use dkv_base::NoMemory;
use std::alloc::Global;
use std::test::Fail;

// A text, so many bytes, and another text.
fn filled(alloc: Global, front: &[u8], n: usize, back: &[u8]) -> Result<Vec<u8>, NoMemory> {
    let mut text = Vec::new(alloc);
    text.extend_from_slice(front)?;
    for _ in 0..n {
        text.extend_from_slice(b"x")?;
    }
    text.extend_from_slice(back)?;
    Ok(text)
}

// A head of version 1.0 with so many header lines.
fn lined(alloc: Global, lines: usize) -> Result<Vec<u8>, NoMemory> {
    let mut text = Vec::new(alloc);
    text.extend_from_slice(b"GET / HTTP/1.0\r\n")?;
    for _ in 0..lines {
        text.extend_from_slice(b"a:b\r\n")?;
    }
    text.extend_from_slice(b"\r\n")?;
    Ok(text)
}

// Whether the text is answered so whole, and byte by byte.
fn is_answered(alloc: Global, text: &[u8], said: &[u8]) -> Result<bool, NoMemory> {
    let whole = told(alloc, &[text])?;
    let by_bytes = told_by_bytes(alloc, text)?;
    Ok(whole.as_slice() == said && by_bytes.as_slice() == said)
}

#[test]
fn limits_are_exact(rt: HostRuntime) -> Result<(), Fail> {
    let head = "GET / HTTP/1.0\r\na:";
    let line = "POST / HTTP/1.0\r\ntransfer-encoding: chunked\r\n\r\n0;";
    let trailer = "POST / HTTP/1.0\r\ntransfer-encoding: chunked\r\n\r\n0\r\na:";
    let served = "GET / 1.0 [] last; ";
    let taken = "POST / 1.0 [] last; ";
    for (front, n, back, said) in [
        // A head of 65,536 bytes, one of 65,537, and 65,537 bytes without an end.
        (head, 65_514, "\r\n\r\n", served),
        (head, 65_515, "\r\n\r\n", "long"),
        (head, 65_519, "", "long"),
        // A chunk line of 4,096 bytes, and one of 4,097.
        (line, 4092, "\r\n\r\n", taken),
        (line, 4093, "\r\n\r\n", "bad"),
        // Trailers of 8,192 bytes, and of 8,193, before either empty line.
        (trailer, 8188, "\r\n\r\n", taken),
        (trailer, 8188, "\r\n\n", taken),
        (trailer, 8189, "\r\n\r\n", "bad"),
        (trailer, 8189, "\r\n\n", "bad"),
    ] {
        let text = filled(rt.alloc(), front.as_bytes(), n, back.as_bytes())?;
        let right = is_answered(rt.alloc(), text.as_slice(), said.as_bytes())?;
        assert!(rt; right, "{n} bytes are not answered {said}");
    }
    Ok(())
}

#[test]
fn a_head_has_at_most_64_lines(rt: HostRuntime) -> Result<(), Fail> {
    let served = "GET / 1.0 [] last; ";
    for (lines, said) in [(63, served), (64, served), (65, "bad")] {
        let text = lined(rt.alloc(), lines)?;
        let right = is_answered(rt.alloc(), text.as_slice(), said.as_bytes())?;
        assert!(rt; right, "{lines} lines are not answered {said}");
    }
    Ok(())
}
