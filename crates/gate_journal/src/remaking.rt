//! How a journal is made anew in one file, while the other file keeps the one from before.
ghost use Rattle.std.specs.Prelude.{◌≡◌, ◌+◌, ◌<◌, ◌≤◌, ℕ, List, All, Option, length, vec_capacity, IfOk, OnOk, IfSome};
ghost use Rattle.crash_disk.specs.Counts.{CountsFaults};
ghost use Rattle.crash_disk.specs.Disk.{reads_of};
ghost use Rattle.crash_disk.specs.Moments.{LeavesOnly};
ghost use Rattle.crash_disk.specs.Torn.{other_file};
ghost use Rattle.crash_disk.specs.Plans.{Follows};
ghost use Rattle.gate_journal.specs.Calls.{clearing, closing, filling, making_beside};
ghost use Rattle.gate_journal.specs.declared.header.Header.{Header};
ghost use Rattle.gate_journal.specs.Format.{Committed, bodies_of, gate_of};
ghost use Rattle.gate_journal.specs.Journal.{Fits};
ghost use Rattle.gate_journal.specs.Making.{IsBeforeOrBlank, IsBeforeOrMade, IsBlankBeside, IsClosed, IsFilling, IsHolding, IsMade, IsUnfinished, IsWritable, fields_bytes};

use crate::format::{AROUND, CLOSED, COMMITTED, HEAD_LENGTH, OPEN};
use crate::making::{begin_anew, commit, put_head};
use crate::writing::fill_body;
use crate::{Disk, Failed, FileNo, Record};
use owned_values::{Blob, NoMemory};
use std::alloc::Global;

/// The other file.
pub(crate) fn other_of(file: FileNo) -> FileNo
    ensures { result ≡ other_file file }
{
    match file {
        FileNo::Zero => FileNo::One,
        FileNo::One => FileNo::Zero,
    }
}

/// Records of these payloads.
pub(crate) fn records_of(alloc: Global, payloads: &[Blob]) -> Result<Vec<Record>, NoMemory>
    ensures { IfOk result (λ v. v.items ≡ payloads.now) }
{
    let mut records = Vec::new(alloc);
    for payload in payloads {
        records.push(Record::of(alloc, payload.as_slice())?)?;
    }
    Ok(records)
}

/// How long the longest payload is.
fn longest_of(records: &[Record]) -> usize
    ensures { All (λ payload. length payload ≤ result) records.now }
{
    let mut longest = 0;
    for record in records {
        longest = longest.max(record.len());
    }
    longest
}

/// A buffer with room for the body of each of these records.
pub(crate) fn body_room(alloc: Global, records: &[Record]) -> Result<Vec<u8>, NoMemory>
    ensures { IfOk result (λ v. All (λ payload. length payload + 5 ≤ vec_capacity v) records.now) }
{
    let Some(whole) = longest_of(records).checked_add(AROUND as usize) else {
        return Err(NoMemory);
    };
    Ok(Vec::with_capacity(alloc, whole)?)
}

/// The gate in front of these records.
pub(crate) fn first_gate(records: &[Record]) -> u8
    ensures { result ≡ gate_of records.now }
{
    if records.is_empty() { CLOSED } else { OPEN }
}

/// Takes the commit off a file that has one. At every moment the file holds what it held before, or no journal.
fn close<D: Disk>(disk: &mut D, file: FileNo) -> Result<(), Failed>
    requires { IfSome (D.shows disk.old).told (λ d. 72 ≤ length (reads_of d file)) }
    ensures moments { (before : Option Committed) (other : List ℕ) →
        IfSome (D.shows disk.old).told (IsHolding file before other) →
        LeavesOnly D.shows disk.old disk.new (IsBeforeOrBlank file before other) }
    ensures ok { OnOk result ((before : Option Committed) (other : List ℕ) →
        IfSome (D.shows disk.old).told (IsHolding file before other) →
        IfSome (D.shows disk.new).told (IsClosed file other)) }
    ensures faults { CountsFaults result (D.shows disk.old).faults (D.shows disk.new).faults }
    ensures calls { Follows D.shows (λ d. closing file (reads_of d file)) disk.old disk.new result }
{
    let mut first = [0];
    disk.read_at(file, 0, &mut first)?;
    if first[0] != COMMITTED {
        return Ok(());
    }
    disk.write_at(file, 0, &[0])?;
    disk.sync(file)
}

/// Makes a file one that has a header and is not committed.
fn clear<D: Disk>(disk: &mut D, file: FileNo, head: &[u8]) -> Result<(), Failed>
    requires head { IsUnfinished head.now }
    requires holding { IfSome (D.shows disk.old).told (λ d. (before : Option Committed) × IsHolding file before (reads_of d (other_file file)) d) }
    ensures moments { (before : Option Committed) (other : List ℕ) →
        IfSome (D.shows disk.old).told (IsHolding file before other) →
        LeavesOnly D.shows disk.old disk.new (IsBeforeOrBlank file before other) }
    ensures ok { OnOk result ((before : Option Committed) (other : List ℕ) →
        IfSome (D.shows disk.old).told (IsHolding file before other) →
        IfSome (D.shows disk.new).told (IsClosed file other)) }
    ensures faults { CountsFaults result (D.shows disk.old).faults (D.shows disk.new).faults }
    ensures calls { Follows D.shows (λ d. clearing file head.now (reads_of d file)) disk.old disk.new result }
{
    if disk.length(file)? >= HEAD_LENGTH {
        return close(disk, file);
    }
    put_head(disk, file, head)?;
    disk.sync(file)
}

/// Begins a file anew that has a header and is not committed, and writes the bodies of these records behind the header,
/// each in one write.
fn fill<D: Disk>(
    disk: &mut D,
    file: FileNo,
    fields: &[u8],
    records: &[Record],
    body: &mut Vec<u8>,
) -> Result<(), Failed>
    requires closed { IfSome (D.shows disk.old).told (λ d. IsClosed file (reads_of d (other_file file)) d) }
    requires fields { length fields.now ≡ 63 }
    requires fits { Fits records.now }
    requires room { All (λ payload. length payload + 5 ≤ vec_capacity body.old) records.now }
    ensures moments { (other : List ℕ) → IfSome (D.shows disk.old).told (IsClosed file other) → LeavesOnly D.shows disk.old disk.new (IsBlankBeside file other) }
    ensures ok { OnOk result ((other : List ℕ) → IfSome (D.shows disk.old).told (IsClosed file other) →
        IfSome (D.shows disk.new).told (IsFilling file fields.now (bodies_of records.now) other)) }
    ensures faults { CountsFaults result (D.shows disk.old).faults (D.shows disk.new).faults }
    ensures calls { Follows D.shows (λ _. filling file fields.now records.now) disk.old disk.new result }
{
    begin_anew(disk, file, fields)?;
    let mut at = HEAD_LENGTH;
    let mut left = records;
    while let Some((record, rest)) = left.split_first() {
        fill_body(body, record.as_slice(), first_gate(rest));
        disk.write_at(file, at, body)?;
        at += body.len() as u64;
        left = rest;
    }
    Ok(())
}

/// Makes a journal of these records in a file. At every moment the file holds what it held before, no journal, or this
/// one, and the other file stays as it is.
pub(crate) fn make_beside<D: Disk>(
    disk: &mut D,
    file: FileNo,
    head: &[u8],
    fields: &[u8],
    records: &[Record],
    body: &mut Vec<u8>,
) -> Result<(), Failed>
    requires head { IsUnfinished head.now }
    requires fields { length fields.now ≡ 63 }
    requires fits { Fits records.now }
    requires room { All (λ payload. length payload + 5 ≤ vec_capacity body.old) records.now }
    requires holding { IfSome (D.shows disk.old).told (λ d. (before : Option Committed) × IsHolding file before (reads_of d (other_file file)) d) }
    ensures moments { (before : Option Committed) (header : Header) (other : List ℕ) →
        fields.now ≡ fields_bytes header (gate_of records.now) → IsWritable header →
        IfSome (D.shows disk.old).told (IsHolding file before other) →
        LeavesOnly D.shows disk.old disk.new
        (IsBeforeOrMade file before (record { version = 2; header = header; payloads = records.now }) other) }
    ensures ok { OnOk result ((before : Option Committed) (header : Header) (other : List ℕ) →
        fields.now ≡ fields_bytes header (gate_of records.now) → IsWritable header →
        IfSome (D.shows disk.old).told (IsHolding file before other) →
        IfSome (D.shows disk.new).told
        (IsMade file (record { version = 2; header = header; payloads = records.now }) other)) }
    ensures faults { CountsFaults result (D.shows disk.old).faults (D.shows disk.new).faults }
    ensures calls { Follows D.shows
        (λ d. making_beside file head.now fields.now records.now (reads_of d file)) disk.old disk.new result }
{
    clear(disk, file, head)?;
    fill(disk, file, fields, records, body)?;
    commit(disk, file)
}
