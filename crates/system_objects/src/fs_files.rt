//! The files of the system, by their paths.
ghost use Rattle.std.specs.Prelude.{◌≡◌, ◌≢◌, ◌^◌, ◌<◌, ◌≤◌, None};
ghost use Rattle.saml_outside.specs.Counts.{Rose, one_more};
ghost use Rattle.saml_outside.specs.Files.{Reads};
ghost use Rattle.system_objects.specs.Streams.{ReadsToEnd};

use saml_outside::{FileRead, Files};
use std::io::{ErrorKind, Read};
use std::{fs, rt};

/// How many bytes are asked of the system at once.
const PIECE: usize = 16_384;

/// The files that a runtime reaches, with a count of the readings that failed. It does not tell what the files hold.
#[derive(Drop)]
pub struct FsFiles<'a, R> {
    rt: &'a R,
    faults: u64,
}

impl<'a, R: rt::Files> FsFiles<'a, R> {
    /// The files of this runtime, and no fault so far.
    pub fn new(rt: &'a R) -> FsFiles<'a, R>
        ensures { result.faults ≡ 0 }
    {
        FsFiles { rt, faults: 0 }
    }
}

// Reads all that is left, of at most `limit` bytes, and keeps no more than those. A read that a signal interrupted is
// tried again.
fn read_to_end<F: Read>(file: &mut F, limit: u64, into: &mut Vec<u8>) -> FileRead
    ensures { ReadsToEnd (F.remaining file.old) limit result into.new.items }
{
    let mut piece = [0u8; PIECE];
    into.clear();
    for _ in 0..u64::MAX {
        match file.read(&mut piece) {
            Ok(0) => return FileRead::Whole,
            Ok(count) => {
                if count as u64 > limit - into.len() as u64 {
                    into.clear();
                    return FileRead::TooLong;
                }
                if into.extend_from_slice(&piece[..count]).is_err() {
                    into.clear();
                    return FileRead::NoMemory;
                }
            }
            Err(e) => {
                if e.kind() != ErrorKind::Interrupted {
                    into.clear();
                    return FileRead::Failed;
                }
            }
        }
    }
    into.clear();
    FileRead::Failed
}

// Opens the file and reads it. A file that is not found is Absent, also where its path goes through a file; whatever else
// goes wrong with it has failed.
fn read_file<R: rt::Files>(rt: &R, name: &str, limit: u64, into: &mut Vec<u8>) -> FileRead
    ensures { Reads None name.now limit result into.new.items }
{
    match fs::open(rt, name) {
        Ok(mut file) => read_to_end(&mut file, limit, into),
        Err(e) => {
            into.clear();
            if e.kind() == ErrorKind::NotFound || e.kind() == ErrorKind::NotADirectory {
                FileRead::Absent
            } else {
                FileRead::Failed
            }
        }
    }
}

impl<R: rt::Files> Files for FsFiles<'_, R> {
    ghost holds = { λ _. None };

    ghost faults_of = { λ f. f.faults };

    /// A folder, and a file that may not be read, have failed.
    fn read_all(&mut self, name: &str, limit: u64, into: &mut Vec<u8>) -> FileRead
        ensures reads { Reads None name.now limit result into.new.items }
        ensures failed { result ≡ FileRead.Failed → Rose self.old.faults self.new.faults }
        ensures never_falls { self.old.faults ≤ self.new.faults }
        ensures in_range { self.new.faults < 2 ^ 64 }

        // Each failed reading counts as one fault, and nothing else does.
        ensures counted { result ≡ FileRead.Failed → self.new.faults ≡ one_more self.old.faults }
        ensures else_kept { result ≢ FileRead.Failed → self.new.faults ≡ self.old.faults }
    {
        let faults = self.faults;
        let answer = read_file(self.rt, name, limit, into);
        if answer == FileRead::Failed {
            self.faults = faults.saturating_add(1);
        }
        answer
    }

    fn faults(&self) -> u64 {
        self.faults
    }
}
