//! A whole file, or why there is none.
ghost use Rattle.std.specs.Prelude.{◌≡◌, ◌≤◌, IfOk, MatchOption, Err};
ghost use Rattle.saml_outside.specs.Counts.{Rose};
ghost use Rattle.saml_outside.specs.Files.{Reads, IsUnread};
ghost use Rattle.saml_outside.specs.declared.reading.FileRead.TheVariants as reads;

use crate::reading::{FileRead, Files};
use owned_values::NoMemory;
use std::alloc::Global;

/// Why nothing is known of a file.
#[derive(Clone, Copy, Debug, PartialEq, Eq)]
pub enum ReadStop {
    /// The reading failed, and the count of faults rose.
    ReadFault,
    /// There was no memory for the bytes.
    NoMemory,
}

impl From<NoMemory> for ReadStop {
    ghost use Rattle.std.specs.Prelude.{◌≡◌};
    ghost use Rattle.saml_outside.specs.declared.stop.ReadStop.TheVariants as stops;

    ghost from_gives = { λ _ e. e ≡ stops.NoMemory };

    fn from(_: NoMemory) -> ReadStop {
        ReadStop::NoMemory
    }
}

/// The bytes of the file `name`, or none where it can't be used: it is absent, or longer than `limit` bytes.
pub fn read_file<F: Files>(
    alloc: Global,
    files: &mut F,
    name: &str,
    limit: u64,
) -> Result<Option<Vec<u8>>, ReadStop>
    ensures ok { IfOk result (λ found. MatchOption found (IsUnread (F.holds files.old) name.now limit)
        (λ bytes. Reads (F.holds files.old) name.now limit reads.Whole bytes.items)) }
    ensures same { F.holds files.new ≡ F.holds files.old }
    ensures never_falls { F.faults_of files.old ≤ F.faults_of files.new }
    ensures err { result ≡ Err ReadStop.ReadFault → Rose (F.faults_of files.old) (F.faults_of files.new) }
{
    let mut bytes = Vec::new(alloc);
    match files.read_all(name, limit, &mut bytes) {
        FileRead::Whole => Ok(Some(bytes)),
        FileRead::Absent | FileRead::TooLong => Ok(None),
        FileRead::Failed => Err(ReadStop::ReadFault),
        FileRead::NoMemory => Err(ReadStop::NoMemory),
    }
}
