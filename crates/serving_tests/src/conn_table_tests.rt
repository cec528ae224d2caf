//! What no clause says: that there is memory for a call, and a request whose meaning was found elsewhere, cut at each byte.
use conn_table::{CONNECTION_LIMIT, Conns, Progress, Start};
use http_wire::{HttpRequest, Method};
use std::test::Fail;

/// A POST to `/acs` with the body `abc`, and three bytes behind its end.
const REQUEST: &[u8] = b"POST /acs HTTP/1.1\r\nContent-Length: 3\r\n\r\nabcGET";

/// Where the request ends.
const END: u32 = 44;

#[test]
fn sixty_five_connections_bring_their_requests(rt: HostRuntime) -> Result<(), Fail> {
    let mut conns = Conns::new(rt.alloc())?;
    for conn in 0..CONNECTION_LIMIT as u32 {
        assert_eq!(rt; conns.started(conn), Start::Taken);
    }
    assert_eq!(rt; conns.started(64), Start::TableFull);
    assert_eq!(rt; conns.piece(64, REQUEST), Progress::Unknown);

    // connection N brings N bytes first, and the others later
    for conn in 0..END {
        let front = &REQUEST[..conn as usize];
        assert_eq!(rt; conns.piece(conn, front), Progress::Waiting);
    }
    let twice = b"POST /acs HTTP/1.1\r\nContent-Length: 0\r\ncontent-length: 0\r\n\r\n";
    assert_eq!(rt; conns.piece(END, twice), Progress::Refused(400));
    for conn in 0..END {
        let back = &REQUEST[conn as usize..];
        let answer = conns.piece(conn, back);
        assert_eq!(rt; answer, Progress::Ready);
        let request = HttpRequest {
            method: Method::Post,
            path: "/acs",
            cookie: None,
            content_type: None,
            body: b"abc",
        };
        assert_eq!(rt; conns.request(conn), request);
        conns.gone(conn);
        assert_eq!(rt; conns.piece(conn, back), Progress::Unknown);
    }
    Ok(())
}
