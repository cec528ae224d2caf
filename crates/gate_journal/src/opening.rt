//! How a journal is opened.
ghost use Rattle.std.specs.Prelude.{◌≡◌, ◌<◌, None, Some, Ok, Err, true, false, length, take, IfOk, IfErr, IfSome, IfNone, OnOk, OnErr, IsErrOf};
ghost use Rattle.std.specs.Option.{option_map};
ghost use Rattle.owned_values.specs.Gives.{Gives};
ghost use Rattle.crash_disk.specs.Counts.{CountsFaults};
ghost use Rattle.crash_disk.specs.Disk.{image_of, reads_of};
ghost use Rattle.crash_disk.specs.Moments.{Leaves, LeavesOnly};
ghost use Rattle.crash_disk.specs.Torn.{IsQuietDisk};
ghost use Rattle.crash_disk.specs.Plans.{Follows, after_all};
ghost use Rattle.gate_journal.specs.Calls.{making_first, opening, preparing_first, syncing_both};
ghost use Rattle.gate_journal.specs.Format.{file_of, joined, journal};
ghost use Rattle.gate_journal.specs.Making.{IsBlankBeside, IsMadeOrBlank, IsWritten, IsMade, fields_bytes, head_bytes, first_journal, read_of};
ghost use Rattle.gate_journal.specs.Journal.{IsOwn};
ghost use Rattle.gate_journal.specs.Opening.{at_file, open_fault_of, opened, Opens, IsEmptyOrNone, CausesFaults};

use crate::format::{CLOSED, HEAD_LENGTH, LONGEST_FILE};
use crate::making::{begin_anew, commit, fields_of, head_of, put_head};
use crate::stored::{Stored, stored_of};
use crate::texts::{FileText, newer, read_text};
use crate::{Disk, Failed, FileNo, Header, Journal, OpenFault};
use std::alloc::Global;

/// One more byte than the greatest length of a file.
const TOO_LONG: u64 = LONGEST_FILE as u64 + 1;

/// Syncs both files, so that a crash leaves what a read gives.
fn sync_both<D: Disk>(disk: &mut D) -> Result<(), Failed>
    ensures ok { OnOk result ((D.shows disk.new).told ≡ option_map (after_all syncing_both) (D.shows disk.old).told) }
    ensures moments { LeavesOnly D.shows disk.old disk.new (Leaves (D.shows disk.old).told) }
    ensures faults { CountsFaults result (D.shows disk.old).faults (D.shows disk.new).faults }
    ensures calls { Follows D.shows (λ _. syncing_both) disk.old disk.new result }
{
    disk.sync(FileNo::Zero)?;
    disk.sync(FileNo::One)
}

/// The bytes of a file, or the first of them where it is too long.
fn read_whole<D: Disk>(alloc: Global, disk: &mut D, file: FileNo) -> Result<Vec<u8>, OpenFault>
    ensures bytes { IfOk result (λ bytes. IfSome (D.shows disk.old).told (λ d. bytes.items ≡ take 134217729 (reads_of d file))) }
    ensures no_fault { IfErr result (λ e. open_fault_of e ≡ None) }
    ensures same { (D.shows disk.new).told ≡ (D.shows disk.old).told }
    ensures moments { LeavesOnly D.shows disk.old disk.new (Leaves (D.shows disk.old).told) }
    ensures faults { CausesFaults result (D.shows disk.old).faults (D.shows disk.new).faults }
{
    let size = disk.length(file)?.min(TOO_LONG);
    let mut bytes = vec![in alloc; 0; size as usize]?;
    let count = disk.read_at(file, 0, &mut bytes)?;
    bytes.truncate(count);
    Ok(bytes)
}

/// What the bytes of a file hold, read where they lie.
fn text_of(file: FileNo, bytes: &[u8]) -> Result<Option<FileText<'_>>, OpenFault>
    ensures { result ≡ at_file file (file_of bytes.now) }
{
    read_text(bytes).map_err(|place| OpenFault::Foreign { file, place })
}

/// What two texts stand for, with copies of the payloads of the newer one alone.
fn copy_newer(
    alloc: Global,
    zero: Option<FileText<'_>>,
    one: Option<FileText<'_>>,
) -> Result<Option<(FileNo, Stored)>, OpenFault>
    ensures gives { Gives (option_map (λ pair. record { file = pair.0; holds = pair.1 })) open_fault_of result (joined (Ok zero.entry) (Ok one.entry)) }
    ensures not_failed { ¬ (IsErrOf result OpenFault.DiskFault) }
{
    match newer(zero, one) {
        Ok(Some((file, text))) => Ok(Some((file, stored_of(alloc, &text)?))),
        Ok(None) => Ok(None),
        Err(place) => Err(OpenFault::Foreign {
            file: FileNo::One,
            place,
        }),
    }
}

/// What the two files of a disk stand for. File 0 is judged before file 1 is read.
fn load<D: Disk>(alloc: Global, disk: &mut D) -> Result<Option<(FileNo, Stored)>, OpenFault>
    ensures gives { IfSome (D.shows disk.old).told (λ d. Gives (option_map (λ pair. record { file = pair.0; holds = pair.1 })) open_fault_of result (journal (image_of d))) }
    ensures same { (D.shows disk.new).told ≡ (D.shows disk.old).told }
    ensures moments { LeavesOnly D.shows disk.old disk.new (Leaves (D.shows disk.old).told) }
    ensures faults { CausesFaults result (D.shows disk.old).faults (D.shows disk.new).faults }
{
    let first = read_whole(alloc, disk, FileNo::Zero)?;
    let zero = text_of(FileNo::Zero, &first)?;
    let second = read_whole(alloc, disk, FileNo::One)?;
    let one = text_of(FileNo::One, &second)?;
    copy_newer(alloc, zero, one)
}

/// The header of the first journal.
const FIRST: Header = Header {
    generation: 1,
    horizon: 0,
    next: 1,
};

/// Writes all of the first journal but its commit to file 0, which holds none.
fn prepare_first<D: Disk>(disk: &mut D, head: &[u8], fields: &[u8]) -> Result<(), Failed>
    requires quiet { IfSome (D.shows disk.old).told IsQuietDisk }
    requires none { file_of (read_of (D.shows disk.old).told FileNo.Zero) ≡ Ok None }
    requires head { head.now ≡ head_bytes FIRST 0 }
    requires fields { fields.now ≡ fields_bytes FIRST 0 }
    ensures moments { LeavesOnly D.shows disk.old disk.new (IsBlankBeside FileNo.Zero (read_of (D.shows disk.old).told FileNo.One)) }
    ensures ok { OnOk result (IfSome (D.shows disk.new).told (IsWritten FileNo.Zero first_journal (read_of (D.shows disk.old).told FileNo.One))) }
    ensures faults { CountsFaults result (D.shows disk.old).faults (D.shows disk.new).faults }
    ensures calls { Follows D.shows (λ d. preparing_first (reads_of d FileNo.Zero)) disk.old disk.new result }
{
    if disk.length(FileNo::Zero)? < HEAD_LENGTH {
        put_head(disk, FileNo::Zero, head)
    } else {
        begin_anew(disk, FileNo::Zero, fields)
    }
}

/// Makes the first journal in file 0, where the two files hold none.
fn make_first<D: Disk>(alloc: Global, disk: &mut D) -> Result<(), OpenFault>
    requires quiet { IfSome (D.shows disk.old).told IsQuietDisk }
    requires none { file_of (read_of (D.shows disk.old).told FileNo.Zero) ≡ Ok None }
    ensures moments { LeavesOnly D.shows disk.old disk.new (IsMadeOrBlank FileNo.Zero first_journal (read_of (D.shows disk.old).told FileNo.One)) }
    ensures ok { OnOk result (IfSome (D.shows disk.new).told (IsMade FileNo.Zero first_journal (read_of (D.shows disk.old).told FileNo.One))) }
    ensures no_fault { IfErr result (λ e. open_fault_of e ≡ None) }
    ensures faults { CausesFaults result (D.shows disk.old).faults (D.shows disk.new).faults }
    ensures calls { Follows D.shows (λ d. making_first (reads_of d FileNo.Zero)) disk.old disk.new result }
{
    let fields = fields_of(alloc, &FIRST, CLOSED)?;
    let head = head_of(alloc, &fields)?;
    prepare_first(disk, &head, &fields)?;
    commit(disk, FileNo::Zero)?;
    Ok(())
}

/// Opens the journal of a disk: what the two files stand for, or an empty journal in file 0 where they hold none yet.
/// It begins with a sync of both files, and copies the records of no file but the journal's. At an error the disk may have
/// been synced, or the empty journal made.
///
/// It answers [`OpenFault::Foreign`] where the files are no journal, [`OpenFault::DiskFault`] only where the disk's
/// count of faults rose.
pub fn open_journal<D: Disk>(alloc: Global, disk: &mut D) -> Result<Journal, OpenFault>
    ensures gives { IfSome (D.shows disk.old).told (λ d. Gives (λ j. j.kept) open_fault_of result (opened (journal (image_of d)))) }
    ensures whole { IfOk result (λ j. (j.broken ≡ false) × (j.spare ≡ None)) }
    ensures own { IfOk result (λ j. IsOwn (D.shows disk.new).told j) }
    // A crash at any moment of the call leaves what an image of the disk at its start stood for.
    ensures moments { IfSome (D.shows disk.old).told (λ d. LeavesOnly D.shows disk.old disk.new (Opens d)) }
    // Of a disk that does not tell, none is told but of an empty journal that is made.
    ensures untold { IfNone (D.shows disk.old).told (LeavesOnly D.shows disk.old disk.new IsEmptyOrNone) }
    ensures faults { CausesFaults result (D.shows disk.old).faults (D.shows disk.new).faults }
    ensures calls { Follows D.shows opening disk.old disk.new result }
{
    sync_both(disk)?;
    match load(alloc, disk)? {
        Some((file, stored)) => Ok(Journal::of(alloc, file, stored)),
        None => {
            make_first(alloc, disk)?;
            Ok(Journal::first(alloc, FIRST))
        }
    }
}

impl Journal {
    /// Opens the journal again, as `open_journal` does. At an error it is broken, and else as it was.
    pub fn reopen<D: Disk>(&mut self, disk: &mut D) -> Result<(), OpenFault>
        ensures gives { IfSome (D.shows disk.old).told (λ d. Gives (λ _. self.new.kept) open_fault_of result (opened (journal (image_of d)))) }
        ensures whole { OnOk result ((self.new.broken ≡ false) × (self.new.spare ≡ None)) }
        ensures own { OnOk result (IsOwn (D.shows disk.new).told self.new) }
        ensures err { OnErr result (self.new ≡ record self.old { broken = true }) }
        // A crash at any moment of the call leaves what an image of the disk at its start stood for.
        ensures moments { IfSome (D.shows disk.old).told (λ d. LeavesOnly D.shows disk.old disk.new (Opens d)) }
        ensures faults { CausesFaults result (D.shows disk.old).faults (D.shows disk.new).faults }
        ensures calls { Follows D.shows opening disk.old disk.new result }
    {
        let alloc = self.allocator();
        match open_journal(alloc, disk) {
            Ok(opened) => {
                *self = opened;
                Ok(())
            }
            Err(fault) => {
                self.broken = true;
                Err(fault)
            }
        }
    }
}
