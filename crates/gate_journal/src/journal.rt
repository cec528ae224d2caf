//! An opened journal.
ghost use Rattle.std.specs.Prelude.{◌≡◌, ◌+◌, ◌-◌, ◌<◌, ◌≤◌, ◌^◌, ◌++◌, ◌∷◌, [], None, Some, true, false, length, take, vec_capacity, OnOk, OnErr, IfSome, IsSomeAnd};
ghost use Rattle.crash_disk.specs.Counts.{CountsFaults};
ghost use Rattle.crash_disk.specs.Moments.{LeavesOnly};
ghost use Rattle.crash_disk.specs.Plans.{Follows};
ghost use Rattle.gate_journal.specs.Calls.{appending};
ghost use Rattle.gate_journal.specs.Format.{end_of, gate_place, sizes, LONGEST_PAYLOAD};
ghost use Rattle.gate_journal.specs.Journal.{Fits, FitsVersion, IsOwn, IsBeforeOrAfter, kept_with, room_of};

use crate::format::{AROUND, FIRST_GATE, HEAD_LENGTH, LONGEST_FILE};
use crate::stored::Stored;
use crate::writing::write_record;
use crate::{Disk, Failed, FileNo, Header, Record};
use owned_values::NoMemory;
use std::alloc::Global;
use std::marker::Model;
use std::mem;

/// Where the gate of the next record stands.
fn gate_before(end: u64, records: &[Record]) -> u64
    requires { end ≡ end_of records.now }
    ensures { result ≡ gate_place records.now }
{
    if records.is_empty() {
        FIRST_GATE
    } else {
        end - 1
    }
}

/// Puts a payload behind the records. There has to be room for it.
fn keep(records: &mut Vec<Record>, slot: &mut Vec<u8>, payload: &[u8])
    requires empty { slot.old.items ≡ [] }
    requires slot_room { length payload.now ≤ vec_capacity slot.old }
    requires room { length records.old.items < vec_capacity records.old }
    ensures records { records.new.items ≡ records.old.items ++ payload.now ∷ [] }
    ensures slot { slot.new.items ≡ [] }
{
    let _ = slot.extend_from_slice(payload);
    let alloc = *slot.allocator();
    let bytes = mem::replace(slot, Vec::new(alloc));
    let _ = records.push(Record::from_vec(bytes));
}

/// How many bytes these records take in a file.
pub(crate) fn size_before(records: &[Record]) -> u64
    requires { sizes records.now < 2 ^ 64 }
    ensures { result ≡ sizes records.now }
{
    let mut size = 0;
    for record in records {
        size += record.len() as u64 + AROUND;
    }
    size
}

/// A list of records in one of two files of a disk, with what its header keeps.
#[derive(Debug, Drop)]
pub struct Journal {
    pub(crate) file: FileNo,
    pub(crate) version: u8,
    pub(crate) header: Header,
    pub(crate) records: Vec<Record>,
    pub(crate) end: u64,
    pub(crate) spare: Option<usize>,
    pub(crate) body: Vec<u8>,
    pub(crate) slot: Vec<u8>,
    pub(crate) broken: bool,
}

impl Model for Journal {
    ghost use Rattle.std.specs.Prelude.{◌≡◌, ◌+◌, ◌-◌, ◌^◌, ◌<◌, ◌≤◌, [], All, length, vec_capacity};
    ghost use Rattle.std.specs.Option.{ForSome};
    ghost use Rattle.gate_journal.specs.Format.{end_of, LONGEST_FILE, LONGEST_PAYLOAD};
    ghost use Rattle.gate_journal.specs.Journal.{FitsVersion, OpenedJournal};

    ghost Value = { OpenedJournal };

    ghost view = { λ j. record {
      kept = record { file = j.file; holds = record { version = j.version; header = j.header; payloads = j.records.items } };
      spare = j.spare;
      broken = j.broken;
    } };

    ghost invariant = { λ j. (j.end ≡ end_of j.records.items) × (j.end ≤ LONGEST_FILE) × (j.slot.items ≡ [])
        × (j.version ≡ 1 → j.header.generation < 2 ^ 64 - 1)
        × All (λ payload. length payload ≤ LONGEST_PAYLOAD) j.records.items
        × (j.version ≡ 1 → FitsVersion 1 j.records.items)
        × ForSome j.spare (λ n. n + 5 ≤ vec_capacity j.body)
        × ForSome j.spare (λ n. n ≤ vec_capacity j.slot)
        × ForSome j.spare (λ n. length j.records.items < vec_capacity j.records) };
}

impl Journal {
    /// The journal that a file holds.
    pub(crate) fn of(alloc: Global, file: FileNo, stored: Stored) -> Journal
        ensures { result ≡ record { kept = record { file = file; holds = stored }; spare = None; broken = false } }
    {
        let Stored {
            version,
            header,
            records,
            end,
        } = stored;
        Journal {
            file,
            version,
            header,
            records,
            end,
            spare: None,
            body: Vec::new(alloc),
            slot: Vec::new(alloc),
            broken: false,
        }
    }

    /// The journal without records, of this header, in file 0.
    pub(crate) fn first(alloc: Global, header: Header) -> Journal
        ensures { result ≡ record { kept = record { file = FileNo.Zero; holds = record { version = 2; header = header; payloads = [] } }; spare = None; broken = false } }
    {
        Journal {
            file: FileNo::Zero,
            version: 2,
            header,
            records: Vec::new(alloc),
            end: HEAD_LENGTH,
            spare: None,
            body: Vec::new(alloc),
            slot: Vec::new(alloc),
            broken: false,
        }
    }

    /// The allocator of what it keeps.
    pub(crate) fn allocator(&self) -> Global {
        *self.records.allocator()
    }

    /// Makes room for a record whose payload has `length` bytes, so that `append` takes no memory. The room serves one
    /// record. Room that was there is kept.
    pub fn reserve(&mut self, length: usize) -> Result<(), NoMemory>
        ensures ok { OnOk result (IsSomeAnd self.new.spare (λ n. length ≤ n)) }
        ensures more { IfSome self.old.spare (λ n. IsSomeAnd self.new.spare (λ m. n ≤ m)) }
        ensures kept { self.new.kept ≡ self.old.kept }
        ensures broken { self.new.broken ≡ self.old.broken }
        ensures err { OnErr result (self.new ≡ self.old) }
    {
        if let Some(spare) = self.spare
            && length <= spare
        {
            return Ok(());
        }
        let Some(whole) = length.checked_add(AROUND as usize) else {
            return Err(NoMemory);
        };
        self.records.reserve(1)?;
        self.slot.reserve(length)?;
        self.body.reserve(whole.saturating_sub(self.body.len()))?;
        self.spare = Some(length);
        Ok(())
    }

    /// That the records fit a file of version 2, as `compact` and `migrate` ask of what is kept, and one of version 1
    /// where the journal has that version. It does nothing.
    pub fn records_fit(&self)
        ensures two { Fits self.now.kept.holds.payloads }
        ensures one { self.now.kept.holds.version ≡ 1 → FitsVersion 1 self.now.kept.holds.payloads }
    {
        let _end = self.end;
    }

    /// How many bytes are left in the file for bodies: each has its payload and 5 bytes more.
    pub fn room(&self) -> u64
        ensures { result ≡ room_of self.now.kept }
    {
        (LONGEST_FILE as u64).saturating_sub(self.end)
    }

    /// Adds a record. It takes no memory. At `Failed` the journal is broken, and has to be opened again; the disk then
    /// stands for the records with the new one or without.
    pub fn append<D: Disk>(&mut self, disk: &mut D, payload: &[u8]) -> Result<(), Failed>
        requires own { IsOwn (D.shows disk.old).told self.old }
        requires whole { self.old.broken ≡ false }
        requires version { self.old.kept.holds.version ≡ 2 }
        requires spare { IsSomeAnd self.old.spare (λ n. length payload.now ≤ n) }
        requires longest { length payload.now ≤ LONGEST_PAYLOAD }
        requires room { length payload.now + 5 ≤ room_of self.old.kept }
        ensures ok { OnOk result (self.new ≡ record { kept = kept_with payload.now self.old.kept; spare = None; broken = false }) }
        ensures err { OnErr result (self.new ≡ record self.old { broken = true }) }
        ensures own { IsOwn (D.shows disk.new).told self.new }
        // A crash at any moment of the call leaves the records from before it, with the new one or without.
        ensures moments { LeavesOnly D.shows disk.old disk.new (IsBeforeOrAfter payload.now self.old.kept) }
        ensures faults { CountsFaults result (D.shows disk.old).faults (D.shows disk.new).faults }
        ensures calls { Follows D.shows (λ _. appending self.old.kept payload.now) disk.old disk.new result }
    {
        let gate = gate_before(self.end, &self.records);
        self.broken = true;
        write_record(disk, self.file, self.end, gate, &mut self.body, payload)?;
        keep(&mut self.records, &mut self.slot, payload);
        self.end += payload.len() as u64 + AROUND;
        self.spare = None;
        self.broken = false;
        Ok(())
    }

    /// The records, in order.
    pub fn records(&self) -> &[Record]
        ensures { result.now ≡ self.now.kept.holds.payloads }
    {
        self.records.as_slice()
    }

    /// What the header keeps.
    pub fn header(&self) -> Header
        ensures { result ≡ self.now.kept.holds.header }
    {
        self.header
    }

    /// The file that holds the journal.
    pub fn file(&self) -> FileNo
        ensures { result ≡ self.now.kept.file }
    {
        self.file
    }

    /// The version of the file's format, 1 or 2.
    pub fn version(&self) -> u8
        ensures { result ≡ self.now.kept.holds.version }
    {
        self.version
    }

    /// Whether a call failed since the journal was opened.
    pub fn is_broken(&self) -> bool
        ensures { result ≡ self.now.broken }
    {
        self.broken
    }

    /// The place of the length field of record `i`, counted from 0.
    pub fn place(&self, i: usize) -> u64
        requires { i < length self.now.kept.holds.payloads }
        ensures { result ≡ end_of (take i self.now.kept.holds.payloads) }
    {
        HEAD_LENGTH + size_before(&self.records[..i])
    }
}
