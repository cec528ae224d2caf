//! What no clause says: that the system's sockets do what the trait promises, here all in one thread.
use super::*;
use std::io::Write;
use std::net::{SocketAddr, TcpStream};
use std::test::Fail;

// The next event, with the first bytes of a piece.
fn event_of(link: &mut impl Link) -> Result<(LinkEvent, [u8; 4]), Failed> {
    let mut into = [b'.'; 4];
    let event = link.next(&mut into)?;
    Ok((event, into))
}

// Listens at a port that is free, and says at which.
fn listen(link: &mut TcpLink<'_, HostRuntime>) -> Result<SocketAddr, Fail> {
    link.listen("127.0.0.1:0")?;
    let server = link.server.as_ref().ok_or("no server")?;
    let listener = server.sockets().listener().ok_or("no listener")?;
    Ok(listener.local_addr()?)
}

#[test]
fn a_request_is_answered_with_no_second_thread(rt: HostRuntime) -> Result<(), Fail> {
    let mut link = TcpLink::new(&rt);
    let mut client = TcpStream::connect(&rt, listen(&mut link)?)?;
    client.write_all(b"asks")?;
    for event in [LinkEvent::Started(1), LinkEvent::Piece(1, 4)] {
        assert_eq!(rt; event_of(&mut link)?.0, event);
    }
    link.send(1, b"answer")?;
    link.close(1);
    assert_eq!(rt; io::read_to_string(rt.alloc(), &client)?.as_str(), "answer");
    Ok(())
}

#[test]
fn each_of_two_connections_has_its_own_pieces_and_answer(rt: HostRuntime) -> Result<(), Fail> {
    let mut link = TcpLink::new(&rt);
    let address = listen(&mut link)?;
    let mut first = TcpStream::connect(&rt, address)?;
    assert_eq!(rt; event_of(&mut link)?.0, LinkEvent::Started(1));
    let mut second = TcpStream::connect(&rt, address)?;
    assert_eq!(rt; event_of(&mut link)?.0, LinkEvent::Started(2));
    second.write_all(b"2222")?;
    assert_eq!(rt; event_of(&mut link)?, (LinkEvent::Piece(2, 4), *b"2222"));
    first.write_all(b"111")?;
    assert_eq!(rt; event_of(&mut link)?, (LinkEvent::Piece(1, 3), *b"111."));
    link.send(2, b"to 2")?;
    link.send(1, b"to 1")?;
    link.close(1);
    link.close(2);
    assert_eq!(rt; link.send(3, b"to 3"), Err(Failed));
    assert_eq!(rt; link.send(1, b"more"), Err(Failed));
    assert_eq!(rt; link.send_faults(), 2);
    assert_eq!(rt; io::read_to_string(rt.alloc(), &first)?.as_str(), "to 1");
    assert_eq!(rt; io::read_to_string(rt.alloc(), &second)?.as_str(), "to 2");
    Ok(())
}

#[test]
fn the_pieces_of_two_connections_come_in_turn(rt: HostRuntime) -> Result<(), Fail> {
    let mut link = TcpLink::new(&rt);
    let address = listen(&mut link)?;
    let mut first = TcpStream::connect(&rt, address)?;
    assert_eq!(rt; event_of(&mut link)?.0, LinkEvent::Started(1));
    let mut second = TcpStream::connect(&rt, address)?;
    assert_eq!(rt; event_of(&mut link)?.0, LinkEvent::Started(2));
    first.write_all(b"aaaabbbb")?;
    second.write_all(b"cccc")?;
    assert_eq!(rt; event_of(&mut link)?, (LinkEvent::Piece(1, 4), *b"aaaa"));
    assert_eq!(rt; event_of(&mut link)?, (LinkEvent::Piece(2, 4), *b"cccc"));
    assert_eq!(rt; event_of(&mut link)?, (LinkEvent::Piece(1, 4), *b"bbbb"));
    Ok(())
}

#[test]
fn an_answer_is_read_by_a_client_that_still_sends(rt: HostRuntime) -> Result<(), Fail> {
    let mut link = TcpLink::new(&rt);
    let mut client = TcpStream::connect(&rt, listen(&mut link)?)?;
    client.write_all(&[b'x'; 60_000])?;
    for event in [LinkEvent::Started(1), LinkEvent::Piece(1, 4)] {
        assert_eq!(rt; event_of(&mut link)?.0, event);
    }
    link.send(1, b"enough")?;
    link.close(1);
    client.write_all(&[b'x'; 60_000])?;
    assert_eq!(rt; io::read_to_string(rt.alloc(), &client)?.as_str(), "enough");
    Ok(())
}

#[test]
fn a_client_that_closes_ends_its_connection(rt: HostRuntime) -> Result<(), Fail> {
    let mut link = TcpLink::new(&rt);
    let address = listen(&mut link)?;
    {
        let mut client = TcpStream::connect(&rt, address)?;
        client.write_all(b"a")?;
    }
    for event in [
        LinkEvent::Started(1),
        LinkEvent::Piece(1, 1),
        LinkEvent::Ended(1),
    ] {
        assert_eq!(rt; event_of(&mut link)?.0, event);
    }
    link.finish();
    assert_eq!(rt; link.next(&mut [0]), Err(Failed));
    Ok(())
}
