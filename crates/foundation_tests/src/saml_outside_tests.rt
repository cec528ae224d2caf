//! What no clause says: that there is memory for a call, and that a trait's object works through its bound.
use saml_outside::{FileRead, Files, MemFiles, MemSink, Sink, SinkFailed, SteadyFiles, read_file};
use std::test::Fail;

fn read_of(files: &mut impl Files, name: &str, limit: u64, into: &mut Vec<u8>) -> (FileRead, u64) {
    let answer = files.read_all(name, limit, into);
    (answer, files.faults())
}

fn put_in(sink: &mut impl Sink, bytes: &[u8]) -> (Result<(), SinkFailed>, u64) {
    let answer = sink.put(bytes);
    (answer, sink.faults())
}

#[test]
fn files_in_memory_are_read_and_one_call_fails(rt: HostRuntime) -> Result<(), Fail> {
    let mut files = MemFiles::new(rt.alloc());
    files.add("a", b"old")?;
    files.add("a", b"new")?;
    files.fail_at(3)?;
    let mut into = Vec::new(rt.alloc());
    assert_eq!(rt;
        read_of(&mut files, "a", 3, &mut into),
        (FileRead::Whole, 0)
    );
    assert_eq!(rt; into.as_slice(), b"new".as_slice());
    assert_eq!(rt;
        read_of(&mut files, "a", 2, &mut into),
        (FileRead::TooLong, 0)
    );
    assert_eq!(rt;
        read_of(&mut files, "a", 3, &mut into),
        (FileRead::Failed, 1)
    );
    assert_eq!(rt;
        read_of(&mut files, "b", 3, &mut into),
        (FileRead::Absent, 1)
    );
    Ok(())
}

#[test]
fn steady_files_are_read(rt: HostRuntime) -> Result<(), Fail> {
    let mut files = SteadyFiles::new(rt.alloc());
    files.add("a", b"new")?;
    let mut into = Vec::new(rt.alloc());
    assert_eq!(rt;
        read_of(&mut files, "a", 3, &mut into),
        (FileRead::Whole, 0)
    );
    assert_eq!(rt; into.as_slice(), b"new".as_slice());
    let found = read_file(rt.alloc(), &mut files, "a", 3)?;
    assert_eq!(rt; found.as_deref(), Some(b"new".as_slice()));
    assert!(rt; read_file(rt.alloc(), &mut files, "a", 2)?.is_none());
    Ok(())
}

#[test]
fn a_sink_in_memory_takes_and_one_call_fails(rt: HostRuntime) -> Result<(), Fail> {
    let mut sink = MemSink::new(rt.alloc());
    sink.fail_at(2)?;
    assert_eq!(rt; put_in(&mut sink, b"ab"), (Ok(()), 0));
    assert_eq!(rt; put_in(&mut sink, b"c"), (Err(SinkFailed { sent: 0 }), 1));
    assert_eq!(rt; put_in(&mut sink, b"d"), (Ok(()), 1));
    assert_eq!(rt; sink.bytes(), b"abd".as_slice());
    Ok(())
}
