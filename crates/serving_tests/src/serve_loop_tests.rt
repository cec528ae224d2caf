//! What no clause says: that there is memory for a call, and a run over objects in memory, with a small node.
ghost use Rattle.std.specs.Prelude.{IsTrue};
ghost use Rattle.crash_disk.specs.Moments.{Leaves};
ghost use Rattle.http_wire.specs.Answers.{is_fixed};

use crash_disk::{Disk, MemDisk};
use event_link::{LinkEvent, ListClock, ListLink};
use gate_journal::OpenFault;
use http_wire::{Answer, FIXED_ROOM, HttpRequest, full_answer, put_fixed};
use serve_loop::{Node, ServeFault, Served, serve};
use std::alloc::Global;
use std::test::Fail;

/// A node that answers a request with its path, and keeps nothing but the last moment.
#[derive(Drop)]
struct Echo {
    alloc: Global,
    last: u64,
}

impl Node for Echo {
    ghost rules = { record {
      own = λ _ _. Unit {0};
      step = λ _ _ _ _ _ _ _ _ _. Unit {0};
      leaves = λ _ disk _ _. Leaves disk;
      reopens = λ _ _ _ _ _ _ _. Unit {0};
      reopening_leaves = λ _. Leaves;
      compacts = λ _ _ _ _ _ _ _ _. Unit {0};
      compaction_leaves = λ _ disk _. Leaves disk;
    } };

    ghost may_open = { λ _. Unit {0} };

    ghost own_may_open = { λ _ _ _. tt };

    fn answer<D: Disk>(&mut self, request: &HttpRequest<'_>, now: u64, disk: &mut D) -> Answer {
        let _ = disk;
        self.last = now;
        match full_answer(self.alloc, 200, None, None, request.path.as_bytes()) {
            Ok(bytes) => Answer::Full(bytes),
            Err(_) => Answer::Fixed(52),
        }
    }

    fn restart<D: Disk>(&mut self, disk: &mut D) -> Result<(), OpenFault> {
        let _ = disk;
        Ok(())
    }

    fn compact<D: Disk>(&mut self, disk: &mut D, now: u64) -> Result<(), OpenFault> {
        let _ = disk;
        let _ = now;
        Ok(())
    }
}

/// Adds a piece that comes.
fn add_piece(link: &mut ListLink, conn: u32, bytes: &'static [u8]) -> Result<(), Fail> {
    if !bytes.is_empty() {
        link.add(LinkEvent::Piece(conn, bytes.len()), bytes)?;
    }
    Ok(())
}

/// Serves what comes with a new node and an empty disk. It gives the last moment that the node was given, too.
fn serve_echo(
    alloc: Global,
    link: &mut ListLink,
    clock: &mut ListClock,
    budget: u64,
) -> Result<(Result<Served, ServeFault>, u64), Fail> {
    let mut node = Echo { alloc, last: 0 };
    let mut disk = MemDisk::of(alloc, b"", b"")?;
    let served = serve(alloc, &mut node, link, &mut disk, clock, budget);
    Ok((served, node.last))
}

/// Whether just the page of a path was sent on a connection.
fn is_echoed(alloc: Global, link: &ListLink, conn: u32, path: &'static str) -> Result<bool, Fail> {
    let page = full_answer(alloc, 200, None, None, path.as_bytes())?;
    Ok(link.sent(conn) == page.as_slice())
}

/// Whether just the page of a status was sent on a connection.
fn is_refused(link: &ListLink, conn: u32, status: u16) -> bool
    requires { IsTrue (is_fixed status) }
{
    let mut page = [0; FIXED_ROOM];
    let end = put_fixed(status, &mut page);
    link.sent(conn) == &page[..end]
}

/// Connections 7 to 11 start, and their pieces come; then Stop, and another connection.
fn add_events(link: &mut ListLink) -> Result<(), Fail> {
    for conn in 7..12 {
        link.add(LinkEvent::Started(conn), b"")?;
    }
    add_piece(link, 7, b"GET /se")?;
    add_piece(link, 8, b"GET /eig")?;
    add_piece(link, 8, b"ht HTTP/1.1\r\n\r\n")?;
    add_piece(link, 7, b"ven HTTP/1.1\r\n\r\n")?;
    add_piece(link, 7, b"GET /again HTTP/1.1\r\n\r\n")?;
    add_piece(link, 9, b"POST / HTTP/1.1\r\n\r\n")?;
    add_piece(link, 10, b"GET /ten HTTP/1.1\r\n\r\n")?;
    add_piece(link, 11, b"GET /eleven HTTP/1.1\r\n\r\n")?;
    link.add(LinkEvent::Stop, b"")?;
    link.add(LinkEvent::Started(12), b"")?;
    add_piece(link, 12, b"GET / HTTP/1.1\r\n\r\n")
}

#[test]
fn connections_are_answered_one_after_the_other(rt: HostRuntime) -> Result<(), Fail> {
    let alloc = rt.alloc();
    let mut link = ListLink::new(alloc);
    add_events(&mut link)?;
    // the fourth page is that of connection 10
    link.fail_send(4)?;
    let mut clock = ListClock::new(alloc);
    for moment in [5, 4, 3, 253_402_300_800_000] {
        clock.add(moment)?;
    }
    let wanted = Served {
        events: 13,
        stopped: true,
    };
    let given = serve_echo(alloc, &mut link, &mut clock, 99)?;
    assert_eq!(rt; given, (Ok(wanted), 253_402_300_799_999));
    assert!(rt; is_echoed(alloc, &link, 7, "/seven")?);
    assert!(rt; is_echoed(alloc, &link, 8, "/eight")?);
    assert!(rt; is_refused(&link, 9, 411));
    assert!(rt; link.sent(10).is_empty());
    assert!(rt; is_echoed(alloc, &link, 11, "/eleven")?);
    assert!(rt; link.sent(12).is_empty());
    Ok(())
}

#[test]
fn the_sixty_fifth_connection_is_refused(rt: HostRuntime) -> Result<(), Fail> {
    let alloc = rt.alloc();
    let mut link = ListLink::new(alloc);
    for conn in 0..65 {
        link.add(LinkEvent::Started(conn), b"")?;
    }
    // this one is kept, and starts again
    link.add(LinkEvent::Started(0), b"")?;
    let mut clock = ListClock::new(alloc);
    let wanted = Served {
        events: 66,
        stopped: false,
    };
    let given = serve_echo(alloc, &mut link, &mut clock, 66)?;
    assert_eq!(rt; given, (Ok(wanted), 0));
    assert!(rt; is_refused(&link, 64, 503));
    assert!(rt; link.sent(0).is_empty());
    Ok(())
}
