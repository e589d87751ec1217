// With ample memory every command does its work, and every frame is answered.
use super::files::run;
use super::running::{
    ACKNOWLEDGE, FAIL, KEY, NONE_FOUND, NOT_OUT, NOTHING, READ, SET, TAKE, WRITE, WRITTEN, frame,
};
use std::process::Abort;
use std::test::*;

// An id of a message.
const ID: &[u8] = &[0; 12];

// The kind, the body and the reply of each frame of an input.
const FRAMES: [(u8, &[u8], &[u8]); 5] = [
    (READ, KEY, NONE_FOUND),
    (WRITE, SET, WRITTEN),
    (TAKE, b"", NOTHING),
    (ACKNOWLEDGE, ID, NOT_OUT),
    (FAIL, ID, NOT_OUT),
];

#[test]
fn ample_memory_never_answers_no_memory(rt: HostRuntime) -> Result<(), Fail> {
    let alloc = rt.alloc();
    let made = run(alloc, "create d", b"", b"", &[])?;
    assert_eq!(rt; made.exit, 0);
    assert_eq!(rt; run(alloc, "check d", b"", &made.a, &[])?.exit, 0);
    let mut input = Vec::new(alloc);
    let mut wanted = Vec::new(alloc);
    for (kind, body, reply) in FRAMES {
        let one = frame(alloc, 5, kind, body)?;
        input.extend_from_slice(&one)?;
        wanted.extend_from_slice(reply)?;
    }
    for line in [
        "pipe",
        "pipe --trail 1000",
        "pipe --folder d",
        "pipe --trail 1000 --folder d",
    ] {
        let left = run(alloc, line, &input, &made.a, &[])?;
        assert_eq!(rt; left.exit, 0);
        assert_eq!(rt; left.out.as_slice(), wanted.as_slice());
    }
    for line in ["pipe --summary", "pipe --folder d --summary"] {
        let left = run(alloc, line, &input, &made.a, &[])?;
        assert_eq!(rt; left.exit, 0);
        assert_eq!(rt;
            left.out.as_slice(),
            b"frames 5\ncommits 1\nentries 1 messages 0\n".as_slice()
        );
    }
    Ok(())
}
