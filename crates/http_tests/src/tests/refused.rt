//! What is refused: bytes that are no request, and those that another server might read as another request.
use super::first_wrong;
use std::test::Fail;

#[test]
fn heads_that_are_none_are_refused(rt: HostRuntime) -> Result<(), Fail> {
    let wrong = first_wrong(
        rt.alloc(),
        &[
            ("\0", "bad"),
            (" GET /x HTTP/1.1\r\nhost: a\r\n\r\n", "bad"),
            ("GET  /x HTTP/1.1\r\nhost: a\r\n\r\n", "bad"),
            ("GET /a b HTTP/1.1\r\nhost: a\r\n\r\n", "bad"),
            ("GET /x\r\n\r\n", "bad"),
            ("GET /x HTTP/1.2\r\nhost: a\r\n\r\n", "bad"),
            ("GET /x HTTP/2.0\r\nhost: a\r\n\r\n", "bad"),
            ("G(T /x HTTP/1.1\r\nhost: a\r\n\r\n", "bad"),
            ("\rGET /x HTTP/1.1\r\nhost: a\r\n\r\n", "bad"),
            ("GET /x HTTP/1.1\r\n\r\n", "bad"),
            ("GET /x HTTP/1.1\r\nhost: a\r\nHost: a\r\n\r\n", "bad"),
            ("GET /x HTTP/1.0\r\nhost: a\r\nhost: b\r\n\r\n", "bad"),
            ("GET /x HTTP/1.1\r\nhost : a\r\n\r\n", "bad"),
            ("GET /x HTTP/1.1\r\nhost: a\r\n b\r\n\r\n", "bad"),
            ("GET /x HTTP/1.1\r\n host: a\r\n\r\n", "bad"),
            ("GET /x HTTP/1.1\r\nhost: a\0b\r\n\r\n", "bad"),
            ("GET /x HTTP/1.1\r\nhost: a\rb\r\n\r\n", "bad"),
            ("GET /x HTTP/1.1\r\nhost: a\x7f\r\n\r\n", "bad"),
            ("GET /x HTTP/1.1\r\nhost\r\n\r\n", "bad"),
            ("GET /x HTTP/1.1\r\n: a\r\n\r\n", "bad"),
        ],
    )?;
    assert!(rt; wrong.is_none(), "{wrong:?}");
    Ok(())
}

#[test]
fn lengths_that_smuggle_are_refused(rt: HostRuntime) -> Result<(), Fail> {
    let wrong = first_wrong(
        rt.alloc(),
        &[
            (
                "POST / HTTP/1.1\r\nhost: a\r\ncontent-length: 3\r\ncontent-length: 4\r\n\r\nabcd",
                "bad",
            ),
            (
                "POST / HTTP/1.1\r\nhost: a\r\ncontent-length: 3, 3\r\n\r\nabc",
                "bad",
            ),
            (
                "POST / HTTP/1.1\r\nhost: a\r\ncontent-length: -3\r\n\r\nabc",
                "bad",
            ),
            (
                "POST / HTTP/1.1\r\nhost: a\r\ncontent-length: +3\r\n\r\nabc",
                "bad",
            ),
            (
                "POST / HTTP/1.1\r\nhost: a\r\ncontent-length: 0x3\r\n\r\nabc",
                "bad",
            ),
            (
                "POST / HTTP/1.1\r\nhost: a\r\ncontent-length:\r\n\r\nabc",
                "bad",
            ),
            (
                "POST / HTTP/1.1\r\nhost: a\r\ncontent-length : 3\r\n\r\nabc",
                "bad",
            ),
            (
                "POST / HTTP/1.1\r\nhost: a\r\ncontent-length: 3\r\ntransfer-encoding: chunked\r\n\r\n0\r\n\r\n",
                "bad",
            ),
            (
                "POST / HTTP/1.1\r\nhost: a\r\ntransfer-encoding: xchunked\r\n\r\n0\r\n\r\n",
                "bad",
            ),
            (
                "POST / HTTP/1.1\r\nhost: a\r\ntransfer-encoding: gzip, chunked\r\n\r\n0\r\n\r\n",
                "bad",
            ),
            (
                "POST / HTTP/1.1\r\nhost: a\r\ntransfer-encoding: identity\r\n\r\n",
                "bad",
            ),
            (
                "POST / HTTP/1.1\r\nhost: a\r\ntransfer-encoding: chunked\r\ntransfer-encoding: chunked\r\n\r\n0\r\n\r\n",
                "bad",
            ),
            (
                "POST / HTTP/1.1\r\nhost: a\r\ntransfer-encoding:\x0bchunked\r\n\r\n0\r\n\r\n",
                "bad",
            ),
            (
                "POST / HTTP/1.1\r\nhost: a\r\ncontent-length: 2097153\r\n\r\n",
                "large",
            ),
            (
                "POST / HTTP/1.1\r\nhost: a\r\ncontent-length: 99999999999999999999999999999999\r\n\r\n",
                "large",
            ),
        ],
    )?;
    assert!(rt; wrong.is_none(), "{wrong:?}");
    Ok(())
}

#[test]
fn chunks_that_smuggle_are_refused(rt: HostRuntime) -> Result<(), Fail> {
    let wrong = first_wrong(
        rt.alloc(),
        &[
            (
                "POST / HTTP/1.1\r\nhost: a\r\ntransfer-encoding: chunked\r\n\r\n00000000000000003\r\nabc",
                "bad",
            ),
            (
                "POST / HTTP/1.1\r\nhost: a\r\ntransfer-encoding: chunked\r\n\r\nffffffffffffffff\r\n",
                "large",
            ),
            (
                "POST / HTTP/1.1\r\nhost: a\r\ntransfer-encoding: chunked\r\n\r\n200001\r\n",
                "large",
            ),
            (
                "POST / HTTP/1.1\r\nhost: a\r\ntransfer-encoding: chunked\r\n\r\n-3\r\nabc\r\n",
                "bad",
            ),
            (
                "POST / HTTP/1.1\r\nhost: a\r\ntransfer-encoding: chunked\r\n\r\n0x3\r\nabc\r\n",
                "bad",
            ),
            (
                "POST / HTTP/1.1\r\nhost: a\r\ntransfer-encoding: chunked\r\n\r\n\r\n",
                "bad",
            ),
            (
                "POST / HTTP/1.1\r\nhost: a\r\ntransfer-encoding: chunked\r\n\r\n3\nabc\r\n",
                "bad",
            ),
            (
                "POST / HTTP/1.1\r\nhost: a\r\ntransfer-encoding: chunked\r\n\r\n3\r\nabcd\r\n",
                "bad",
            ),
            (
                "POST / HTTP/1.1\r\nhost: a\r\ntransfer-encoding: chunked\r\n\r\n3\r\nabc\n0\r\n\r\n",
                "bad",
            ),
            (
                "POST / HTTP/1.1\r\nhost: a\r\ntransfer-encoding: chunked\r\n\r\n3\r\nabc\r0",
                "bad",
            ),
            (
                "POST / HTTP/1.1\r\nhost: a\r\ntransfer-encoding: chunked\r\n\r\n3 4\r\nabc\r\n",
                "bad",
            ),
            (
                "POST / HTTP/1.1\r\nhost: a\r\ntransfer-encoding: chunked\r\n\r\n0\r\nx : y\r\n\r\n",
                "bad",
            ),
            (
                "POST / HTTP/1.1\r\nhost: a\r\ntransfer-encoding: chunked\r\n\r\n0\r\n y\r\n\r\n",
                "bad",
            ),
        ],
    )?;
    assert!(rt; wrong.is_none(), "{wrong:?}");
    Ok(())
}
