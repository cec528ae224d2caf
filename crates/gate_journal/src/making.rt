//! How a file is made anew, in pieces of a few calls each. Between them, until the commit, the file holds no journal.
ghost use Rattle.std.specs.Prelude.{◌≡◌, ◌∷◌, ◌++◌, [], ◌<◌, ◌≤◌, List, ℕ, length, IfOk, OnOk, IfSome};
ghost use Rattle.crash_disk.specs.Counts.{CountsFaults};
ghost use Rattle.crash_disk.specs.Disk.{overwritten, reads_of};
ghost use Rattle.crash_disk.specs.Moments.{LeavesOnly};
ghost use Rattle.crash_disk.specs.Torn.{other_file};
ghost use Rattle.crash_disk.specs.Plans.{Follows};
ghost use Rattle.gate_journal.specs.Calls.{beginning, committing, lengthening, putting_header};
ghost use Rattle.gate_journal.specs.Format.{Committed, letters};
ghost use Rattle.gate_journal.specs.Making.{IsAt, IsShort, IsUnfinished, IsBlankBeside, IsMadeOrBlank, IsWritten, IsMade, IsClosed, IsFilling, Changing, fields_bytes};

use crate::Header;
use crate::format::{COMMITTED, HEAD_LENGTH, LETTERS};
use crash_disk::{Disk, Failed, FileNo};
use owned_values::NoMemory;
use std::alloc::Global;

/// Where the fields of a header stand, behind the commit and the letters.
const FIELDS: u64 = 8;

/// Where the last byte of a header stands.
const HEAD_END: u64 = 71;

/// Bytes 8 to 70 of a header.
pub(crate) fn fields_of(alloc: Global, header: &Header, gate: u8) -> Result<Vec<u8>, NoMemory>
    ensures { IfOk result (λ v. v.items ≡ fields_bytes header.now gate) }
{
    let mut fields = Vec::new(alloc);
    fields.extend_from_slice(&header.generation.to_be_bytes())?;
    fields.extend_from_slice(&header.horizon.to_be_bytes())?;
    fields.extend_from_slice(&header.next.to_be_bytes())?;
    fields.push(2)?;
    fields.extend_from_slice(&[0; 37])?;
    fields.push(gate)?;
    Ok(fields)
}

/// The first 71 bytes of a header that is not committed.
pub(crate) fn head_of(alloc: Global, fields: &[u8]) -> Result<Vec<u8>, NoMemory>
    ensures { IfOk result (λ v. v.items ≡ (0 ∷ []) ++ letters ++ fields.now) }
{
    let mut head = Vec::new(alloc);
    head.push(0)?;
    head.extend_from_slice(&LETTERS)?;
    head.extend_from_slice(fields)?;
    Ok(head)
}

/// Commits a file of which all but the commit was written: a sync, the commit in a write of its own, a sync.
pub(crate) fn commit<D: Disk>(disk: &mut D, file: FileNo) -> Result<(), Failed>
    ensures moments { (holds : Committed) (other : List ℕ) →
        IfSome (D.shows disk.old).told (IsWritten file holds other) →
        LeavesOnly D.shows disk.old disk.new (IsMadeOrBlank file holds other) }
    ensures ok { OnOk result ((holds : Committed) (other : List ℕ) →
        IfSome (D.shows disk.old).told (IsWritten file holds other) →
        IfSome (D.shows disk.new).told (IsMade file holds other)) }
    ensures faults { CountsFaults result (D.shows disk.old).faults (D.shows disk.new).faults }
    ensures calls { Follows D.shows (λ _. committing file) disk.old disk.new result }
{
    disk.sync(file)?;
    disk.write_at(file, 0, &[COMMITTED])?;
    disk.sync(file)
}

/// Begins a file that is shorter than a header: all but the last byte of one that is not committed.
fn lengthen<D: Disk>(disk: &mut D, file: FileNo, head: &[u8]) -> Result<(), Failed>
    requires { length head.now < 72 }
    ensures moments { (other : List ℕ) → IfSome (D.shows disk.old).told (IsShort file other) → LeavesOnly D.shows disk.old disk.new (IsBlankBeside file other) }
    ensures ok { OnOk result ((other : List ℕ) → IfSome (D.shows disk.old).told (IsShort file other) → IfSome (D.shows disk.new).told (IsAt file head.now other)) }
    ensures faults { CountsFaults result (D.shows disk.old).faults (D.shows disk.new).faults }
    ensures calls { Follows D.shows (λ _. lengthening file head.now) disk.old disk.new result }
{
    disk.cut(file, 0)?;
    disk.sync(file)?;
    disk.write_at(file, 0, head)?;
    disk.sync(file)
}

/// Writes a header that is not committed to a file that is shorter than one: all but its last byte, and once that is
/// synced the last byte, which is not looked at.
pub(crate) fn put_head<D: Disk>(disk: &mut D, file: FileNo, head: &[u8]) -> Result<(), Failed>
    requires head { IsUnfinished head.now }
    requires short { IfSome (D.shows disk.old).told (λ d. IsShort file (reads_of d (other_file file)) d) }
    ensures moments { (other : List ℕ) → IfSome (D.shows disk.old).told (IsShort file other) → LeavesOnly D.shows disk.old disk.new (IsBlankBeside file other) }
    ensures ok { OnOk result ((other : List ℕ) → IfSome (D.shows disk.old).told (IsShort file other) →
        IfSome (D.shows disk.new).told
        (Changing (IsBlankBeside file other) file (overwritten head.now 71 (0 ∷ [])) other)) }
    ensures faults { CountsFaults result (D.shows disk.old).faults (D.shows disk.new).faults }
    ensures calls { Follows D.shows (λ _. putting_header file head.now) disk.old disk.new result }
{
    lengthen(disk, file, head)?;
    disk.write_at(file, HEAD_END, &[0])
}

/// Begins a file anew that has a header and is not committed: it is cut to the header, and then its fields are written.
pub(crate) fn begin_anew<D: Disk>(disk: &mut D, file: FileNo, fields: &[u8]) -> Result<(), Failed>
    requires long { IfSome (D.shows disk.old).told (λ d. 72 ≤ length (reads_of d file)) }
    requires fields { length fields.now ≡ 63 }
    ensures moments { (other : List ℕ) → IfSome (D.shows disk.old).told (IsClosed file other) → LeavesOnly D.shows disk.old disk.new (IsBlankBeside file other) }
    ensures ok { OnOk result ((other : List ℕ) → IfSome (D.shows disk.old).told (IsClosed file other) →
        IfSome (D.shows disk.new).told (IsFilling file fields.now [] other)) }
    ensures faults { CountsFaults result (D.shows disk.old).faults (D.shows disk.new).faults }
    ensures calls { Follows D.shows (λ _. beginning file fields.now) disk.old disk.new result }
{
    disk.cut(file, HEAD_LENGTH)?;
    disk.sync(file)?;
    disk.write_at(file, FIELDS, fields)
}
