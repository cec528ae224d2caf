//! What no clause says: that the system's clock and files do what the traits promise.
use crate::{Failed, FsDisk, SystemClock};
use crash_disk::{Disk, FileNo};
use event_link::Clock;
use std::fs;
use std::test::Fail;

const NAMES: [&str; 2] = ["journal.0", "journal.1"];

fn moment_of(clock: &mut impl Clock) -> u64 {
    clock.now()
}

#[test]
fn the_clock_shows_a_moment_of_our_days(rt: HostRuntime) {
    let mut clock = SystemClock::new(&rt);
    // from 2026-01-01 to 2100-01-01, each at 00:00:00Z
    let now = moment_of(&mut clock);
    assert!(rt; now > 1_767_225_600_000 && now < 4_102_444_800_000);
}

// The length of a file, and what a read of it into four bytes gives.
fn read_of(
    disk: &mut FsDisk<'_, HostRuntime>,
    file: FileNo,
    at: u64,
) -> Result<(u64, usize, [u8; 4]), Failed> {
    let mut into = [b'.'; 4];
    let length = disk.length(file)?;
    let count = disk.read_at(file, at, &mut into)?;
    Ok((length, count, into))
}

fn write(rt: &HostRuntime) -> Result<(), Failed> {
    let mut disk = FsDisk::new(rt);
    disk.write_at(FileNo::Zero, 0, b"abcdef")?;
    disk.write_at(FileNo::One, 0, b"123")?;
    disk.write_at(FileNo::Zero, 2, b"C")?;
    disk.sync(FileNo::Zero)?;
    disk.sync(FileNo::One)?;
    disk.cut(FileNo::Zero, 5)
}

#[test]
fn a_disk_keeps_what_was_written_and_cut_and_is_one_at_a_time(rt: HostRuntime) -> Result<(), Fail> {
    write(&rt)?;
    let mut disk = FsDisk::new(&rt);
    let rows = [
        (FileNo::Zero, 0, Ok((5, 4, *b"abCd"))),
        (FileNo::Zero, 3, Ok((5, 2, *b"de.."))),
        (FileNo::One, 1, Ok((3, 2, *b"23.."))),
        (FileNo::One, 3, Ok((3, 0, *b"...."))),
        // the system counts places up to 2^63 - 1
        (FileNo::One, 1 << 63, Err(Failed)),
    ];
    for (file, at, wanted) in rows {
        assert_eq!(rt; read_of(&mut disk, file, at), wanted, "at {at}");
    }
    assert_eq!(rt; disk.faults(), 1);
    let mut second = FsDisk::new(&rt);
    assert_eq!(rt; second.length(FileNo::Zero), Err(Failed));
    assert_eq!(rt; second.write_at(FileNo::One, 0, b"x"), Err(Failed));
    assert_eq!(rt; second.faults(), 2);
    drop(disk);
    assert_eq!(rt; second.length(FileNo::Zero), Ok(5));
    assert_eq!(rt; second.length(FileNo::One), Ok(3));
    assert_eq!(rt; fs::read(&rt, NAMES[0])?.as_slice(), b"abCde".as_slice());
    for name in NAMES {
        fs::remove_file(&rt, name)?;
    }
    Ok(())
}
