//! What no clause says: that a real file is read, and what a sink does over a writer that takes little or fails.
use crate::{FsFiles, StdoutSink};
use saml_outside::{FileRead, Files, Sink, SinkFailed};
use std::test::Fail;
use std::{fs, io};

fn read_of(files: &mut impl Files, name: &str, limit: u64, into: &mut Vec<u8>) -> (FileRead, u64) {
    let answer = files.read_all(name, limit, into);
    (answer, files.faults())
}

fn put_in(sink: &mut impl Sink, bytes: &[u8]) -> (Result<(), SinkFailed>, u64) {
    let answer = sink.put(bytes);
    (answer, sink.faults())
}

#[test]
fn a_file_is_read_to_its_limit(rt: HostRuntime) -> Result<(), Fail> {
    let name = "a_file_is_read_to_its_limit.tmp";
    fs::write(&rt, name, b"abc")?;
    let mut files = FsFiles::new(&rt);
    let mut into = Vec::new(rt.alloc());
    assert_eq!(rt;
        read_of(&mut files, name, 3, &mut into),
        (FileRead::Whole, 0)
    );
    assert_eq!(rt; into.as_slice(), b"abc".as_slice());
    assert_eq!(rt;
        read_of(&mut files, name, 2, &mut into),
        (FileRead::TooLong, 0)
    );
    fs::remove_file(&rt, name)?;
    assert_eq!(rt;
        read_of(&mut files, name, 3, &mut into),
        (FileRead::Absent, 0)
    );
    assert_eq!(rt;
        read_of(&mut files, ".", 3, &mut into),
        (FileRead::Failed, 1)
    );
    Ok(())
}

// Takes one byte at every second call, and is interrupted at the others. Once it has `room` bytes it fails, or takes
// nothing more.
#[derive(Drop)]
struct Slow<'a> {
    taken: &'a mut Vec<u8>,
    room: usize,
    fails: bool,
    interrupted: bool,
}

impl io::Write for Slow<'_> {
    fn write(&mut self, buf: &[u8]) -> io::Result<usize> {
        self.interrupted = !self.interrupted;
        if self.interrupted {
            return Err(io::Error::from(io::ErrorKind::Interrupted));
        }
        if self.room == 0 && self.fails {
            return Err(io::Error::from(io::ErrorKind::BrokenPipe));
        }
        match buf.first() {
            Some(byte) if self.room > 0 => {
                self.taken.push(*byte)?;
                self.room = self.room.saturating_sub(1);
                Ok(1)
            }
            _ => Ok(0),
        }
    }

    fn flush(&mut self) -> io::Result<()> {
        Ok(())
    }
}

#[test]
fn a_piece_is_sent_until_the_writer_fails_or_takes_nothing(rt: HostRuntime) -> Result<(), Fail> {
    for fails in [true, false] {
        let mut taken = Vec::new(rt.alloc());
        let mut sink = StdoutSink::new(Slow {
            taken: &mut taken,
            room: 5,
            fails,
            interrupted: false,
        });
        assert_eq!(rt; put_in(&mut sink, b"abc"), (Ok(()), 0));
        assert_eq!(rt; put_in(&mut sink, b""), (Ok(()), 0));
        assert_eq!(rt;
            put_in(&mut sink, b"defg"),
            (Err(SinkFailed { sent: 2 }), 1)
        );
        assert_eq!(rt; taken.as_slice(), b"abcde".as_slice());
    }
    Ok(())
}
