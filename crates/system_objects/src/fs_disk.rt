//! The disk of the system.
ghost use Rattle.std.specs.Prelude.{◌≡◌, ◌<◌, ◌≤◌, length, take, None, true, false, refl, IfOk, MatchResult};
ghost use Rattle.std.specs.Io.KnownBytes.{Consumes, IsAtEnd};

use crate::faults::counted;
use crash_disk::{Disk, Failed, FileNo};
use std::fs::{File, OpenFile, OpenOptions};
use std::io::{ErrorKind, Read, Seek, SeekFrom, Write};
use std::os::unix::fs::OpenOptionsExt;
use std::{fs, io, rt};

/// The names of the two files, in the current folder.
const NAME_ZERO: &str = "journal.0";

const NAME_ONE: &str = "journal.1";

/// An open file, and whether a sync of it failed.
#[derive(Drop)]
struct Journal<F> {
    file: F,
    lost: bool,
}

/// The two files.
#[derive(Drop)]
struct Journals<F> {
    zero: Journal<F>,
    one: Journal<F>,
}

// Opens a file for reading and writing, and makes it where it is absent, for its owner alone.
fn open_file<R: rt::Files<File = File>>(rt: &R, name: &str) -> io::Result<Journal<File>> {
    let file = OpenOptions::new()
        .read(true)
        .write(true)
        .create(true)
        .mode(0o600)
        .open(rt, name)?;
    Ok(Journal { file, lost: false })
}

// Opens both files, and syncs the folder, so that a crash leaves them there. The first is locked before the second is
// opened: where another process has it locked, nothing else is done.
fn open_both<R: rt::Files<File = File>>(rt: &R) -> io::Result<Journals<File>> {
    let zero = open_file(rt, NAME_ZERO)?;
    zero.file.try_lock()?;
    let one = open_file(rt, NAME_ONE)?;
    fs::open(rt, ".")?.sync_all()?;
    Ok(Journals { zero, one })
}

// The file of that number. Both are opened where they are not yet.
fn opened<'f, R: rt::Files<File = File>>(
    rt: &R,
    files: &'f mut Option<Journals<File>>,
    file: FileNo,
) -> io::Result<&'f mut Journal<File>> {
    let both = match files {
        Some(both) => both,
        None => files.insert(open_both(rt)?),
    };
    match file {
        FileNo::Zero => Ok(&mut both.zero),
        FileNo::One => Ok(&mut both.one),
    }
}

// Reads until there is no more room or no more bytes. A read that a signal interrupted is tried again.
fn read_whole<F: Read>(file: &mut F, into: &mut [u8]) -> io::Result<usize>
    ensures fits { IfOk result (λ n. n ≤ length into.new) }
    ensures bytes { IfOk result (λ n. Consumes (F.remaining file.old) (F.remaining file.new) (take n into.new)) }
    ensures end { IfOk result (λ n. n < length into.new → IsAtEnd (F.remaining file.new)) }
{
    let mut count = 0;
    for _ in 0..u64::MAX {
        if count == into.len() {
            return Ok(count);
        }
        match file.read(&mut into[count..]) {
            Ok(0) => return Ok(count),
            Ok(more) => count += more,
            Err(e) => {
                if e.kind() != ErrorKind::Interrupted {
                    return Err(e);
                }
            }
        }
    }
    Err(ErrorKind::Other.into())
}

impl<F: Read + Write + Seek + OpenFile> Journal<F> {
    fn length(&mut self) -> io::Result<u64> {
        Ok(self.file.metadata()?.len())
    }

    fn read_at(&mut self, at: u64, into: &mut [u8]) -> io::Result<usize>
        ensures { IfOk result (λ n. n ≤ length into.new) }
    {
        self.file.seek(SeekFrom::Start(at))?;
        read_whole(&mut self.file, into)
    }

    // A write that was cut short or interrupted is gone on with.
    fn write_at(&mut self, at: u64, bytes: &[u8]) -> io::Result<()> {
        self.file.seek(SeekFrom::Start(at))?;
        self.file.write_all(bytes)
    }

    // Once a sync failed the system may have dropped what was written, and it says so only once. So all later ones fail.
    fn sync(&mut self) -> io::Result<()>
        ensures { MatchResult result (λ _. (self.old.lost ≡ false) × (self.new.lost ≡ false)) (λ _. self.new.lost ≡ true) }
    {
        if self.lost {
            return Err(ErrorKind::Other.into());
        }
        let answer = self.file.sync_all();
        self.lost = answer.is_err();
        answer
    }
}

/// The files `journal.0` and `journal.1` of the current folder, with a count of the calls that failed. It does not tell
/// what they hold.
///
/// The first call opens both files and makes those that are absent, empty and for their owner alone. Before it opens
/// `journal.1`, and before anything is read or written, it locks `journal.0` for itself; the system gives the lock back
/// when the process ends, however it ends. Where any of that fails, or another process has the lock, the call fails,
/// and the next one tries again. A crash after it leaves both files in the folder. A sync waits until the system has
/// written the file to its device. After a sync that failed each further sync of that file fails too, since the system
/// may have dropped what it could not write and still read it from memory: what the device holds is known again once
/// the system itself was started anew.
#[derive(Drop)]
pub struct FsDisk<'a, R> {
    rt: &'a R,
    files: Option<Journals<File>>,
    faults: u64,
}

impl<'a, R: rt::Files<File = File>> FsDisk<'a, R> {
    /// The disk of this runtime, with no file opened and no fault so far.
    pub fn new(rt: &'a R) -> FsDisk<'a, R>
        ensures { result.faults ≡ 0 }
    {
        FsDisk {
            rt,
            files: None,
            faults: 0,
        }
    }
}

impl<R: rt::Files<File = File>> Disk for FsDisk<'_, R> {
    ghost shows = { λ d. record { told = None; faults = d.faults; moment = 0; left_since = λ _ _. ⊥; memory = None } };

    ghost tells = { false };

    ghost tells_always = { λ _. refl };

    ghost reads_an_image = { λ _. tt };

    ghost counts_now = { λ _ _ _ _ left. left };

    ghost only_now = { λ _ _ left. left };

    fn length(&mut self, file: FileNo) -> Result<u64, Failed> {
        let journal = opened(self.rt, &mut self.files, file);
        let answer = journal.and_then(|journal| journal.length());
        counted(answer, &mut self.faults)
    }

    fn read_at(&mut self, file: FileNo, at: u64, into: &mut [u8]) -> Result<usize, Failed> {
        let journal = opened(self.rt, &mut self.files, file);
        let answer = journal.and_then(|journal| journal.read_at(at, into));
        counted(answer, &mut self.faults)
    }

    fn write_at(&mut self, file: FileNo, at: u64, bytes: &[u8]) -> Result<(), Failed> {
        let journal = opened(self.rt, &mut self.files, file);
        let answer = journal.and_then(|journal| journal.write_at(at, bytes));
        counted(answer, &mut self.faults)
    }

    fn cut(&mut self, file: FileNo, len: u64) -> Result<(), Failed> {
        let journal = opened(self.rt, &mut self.files, file);
        let answer = journal.and_then(|journal| journal.file.set_len(len));
        counted(answer, &mut self.faults)
    }

    fn sync(&mut self, file: FileNo) -> Result<(), Failed> {
        let journal = opened(self.rt, &mut self.files, file);
        let answer = journal.and_then(|journal| journal.sync());
        counted(answer, &mut self.faults)
    }

    fn faults(&self) -> u64 {
        self.faults
    }
}
