//! Requests that are served, alone and one behind the other.
use super::first_wrong;
use std::test::Fail;

#[test]
fn requests_are_read_however_they_are_cut(rt: HostRuntime) -> Result<(), Fail> {
    let wrong = first_wrong(
        rt.alloc(),
        &[
            ("", ""),
            ("GET", ""),
            ("GET /x", ""),
            ("GET /x HTTP/1.1\r\nhost: a", ""),
            ("GET /x HTTP/1.1\r\nhost: a\r\n\r\n", "GET /x 1.1 []; "),
            (
                "\r\n\r\nGET /x HTTP/1.1\r\nhost: a\r\n\r\n",
                "GET /x 1.1 []; ",
            ),
            ("GET /x HTTP/1.1\nhost: a\n\n", "GET /x 1.1 []; "),
            ("GET /x HTTP/1.0\r\n\r\n", "GET /x 1.0 [] last; "),
            (
                "GET /x HTTP/1.0\r\nHost: a\r\n\r\nmore",
                "GET /x 1.0 [] last; ",
            ),
            (
                "GET http://a/x?y=z HTTP/1.1\r\nHOST:a\r\n\r\n",
                "GET http://a/x?y=z 1.1 []; ",
            ),
            ("get * HTTP/1.1\r\nhost: \ta \r\n\r\n", "get * 1.1 []; "),
            (
                "POST /x HTTP/1.1\r\nhost: a\r\ncontent-length: 3\r\n\r\nabc",
                "POST /x 1.1 [abc]; ",
            ),
            (
                "POST /x HTTP/1.1\r\nhost: a\r\ncontent-length: 3\r\n\r\nab",
                "",
            ),
            (
                "POST /x HTTP/1.1\r\nhost: a\r\ncontent-length: 3\r\nContent-Length: 003\r\n\r\nabc",
                "POST /x 1.1 [abc]; ",
            ),
            (
                "POST /x HTTP/1.1\r\nhost: a\r\ncontent-length: 000000000000000000000000000000003\r\n\r\nabc",
                "POST /x 1.1 [abc]; ",
            ),
            (
                "POST /x HTTP/1.1\r\nhost: a\r\ncontent-length: 0\r\n\r\n",
                "POST /x 1.1 []; ",
            ),
            (
                "POST /x HTTP/1.1\r\nhost: a\r\ncontent-length: 2097152\r\n\r\nabc",
                "",
            ),
            (
                "POST /x HTTP/1.0\r\ncontent-length: 3\r\n\r\nabcdef",
                "POST /x 1.0 [abc] last; ",
            ),
            (
                "GET /x HTTP/1.1\r\nhost: a\r\nexpect: 100-continue\r\n\r\n",
                "GET /x 1.1 []; ",
            ),
        ],
    )?;
    assert!(rt; wrong.is_none(), "{wrong:?}");
    Ok(())
}

#[test]
fn chunks_are_joined_however_they_are_cut(rt: HostRuntime) -> Result<(), Fail> {
    let wrong = first_wrong(
        rt.alloc(),
        &[
            (
                "POST / HTTP/1.1\r\nhost: a\r\ntransfer-encoding: chunked\r\n\r\n0\r\n\r\n",
                "POST / 1.1 []; ",
            ),
            (
                "POST / HTTP/1.1\r\nhost: a\r\nTransfer-Encoding: Chunked\r\n\r\n3\r\nabc\r\n0\r\n\r\n",
                "POST / 1.1 [abc]; ",
            ),
            (
                "POST / HTTP/1.1\r\nhost: a\r\ntransfer-encoding: chunked\r\n\r\n1\r\na\r\n002\r\nbc\r\n000\r\n\r\n",
                "POST / 1.1 [abc]; ",
            ),
            (
                "POST / HTTP/1.1\r\nhost: a\r\ntransfer-encoding: chunked\r\n\r\na;x=\"y\"\r\n0123456789\r\n0\r\n\r\n",
                "POST / 1.1 [0123456789]; ",
            ),
            (
                "POST / HTTP/1.1\r\nhost: a\r\ntransfer-encoding: chunked\r\n\r\nA \t\r\n0123456789\r\n0 ;z\r\n\r\n",
                "POST / 1.1 [0123456789]; ",
            ),
            (
                "POST / HTTP/1.1\r\nhost: a\r\ntransfer-encoding: chunked\r\n\r\n1\r\n\n\r\n0\r\nx: y\r\nz:\r\n\r\n",
                "POST / 1.1 [\n]; ",
            ),
            (
                "POST / HTTP/1.1\r\nhost: a\r\ntransfer-encoding: chunked\r\n\r\n0\r\nx: y\n\n",
                "POST / 1.1 []; ",
            ),
            (
                "POST / HTTP/1.0\r\ntransfer-encoding: chunked\r\n\r\n1\r\na\r\n0\r\n\r\nGET",
                "POST / 1.0 [a] last; ",
            ),
            (
                "POST / HTTP/1.1\r\nhost: a\r\ntransfer-encoding: chunked\r\n\r\n3\r\nabc\r\n",
                "",
            ),
            (
                "POST / HTTP/1.1\r\nhost: a\r\ntransfer-encoding: chunked\r\n\r\n200000\r\nabc",
                "",
            ),
        ],
    )?;
    assert!(rt; wrong.is_none(), "{wrong:?}");
    Ok(())
}

#[test]
fn requests_follow_one_another(rt: HostRuntime) -> Result<(), Fail> {
    let wrong = first_wrong(
        rt.alloc(),
        &[
            (
                "GET /a HTTP/1.1\r\nhost: a\r\n\r\nGET /b HTTP/1.1\r\nhost: a\r\n\r\n",
                "GET /a 1.1 []; GET /b 1.1 []; ",
            ),
            (
                "POST /a HTTP/1.1\r\nhost: a\r\ncontent-length: 2\r\n\r\nhi\r\nGET /b HTTP/1.0\r\n\r\nGET /c",
                "POST /a 1.1 [hi]; GET /b 1.0 [] last; ",
            ),
            (
                "POST /a HTTP/1.1\r\nhost: a\r\ntransfer-encoding: chunked\r\n\r\n2\r\nhi\r\n0\r\n\r\nPOST /b HTTP/1.1\r\nhost: a\r\ncontent-length: 1\r\n\r\nxGET",
                "POST /a 1.1 [hi]; POST /b 1.1 [x]; ",
            ),
            (
                "GET /a HTTP/1.1\r\nhost: a\r\n\r\nGET /b HTTP/1.1\r\n\r\n",
                "GET /a 1.1 []; bad",
            ),
            (
                "GET /a HTTP/1.1\r\nhost: a\r\nconnection: close\r\n\r\nGET /b HTTP/1.1\r\nhost: a\r\n\r\n",
                "GET /a 1.1 [] last; ",
            ),
            (
                "GET /a HTTP/1.1\r\nhost: a\r\nConnection: keep-alive ,\tCLOSE\r\n\r\n\0",
                "GET /a 1.1 [] last; ",
            ),
            (
                "GET /a HTTP/1.1\r\nhost: a\r\nconnection: x\r\nconnection: close\r\n\r\n",
                "GET /a 1.1 [] last; ",
            ),
            (
                "GET /a HTTP/1.1\r\nhost: a\r\nconnection: close it, closed\r\n\r\n\0",
                "GET /a 1.1 []; bad",
            ),
        ],
    )?;
    assert!(rt; wrong.is_none(), "{wrong:?}");
    Ok(())
}
