//! How a journal is made anew in its other file: with fewer records, or in version 2.
ghost use Rattle.std.specs.Prelude.{◌≡◌, ◌+◌, ◌-◌, ◌<◌, ◌^◌, None, false, true, OnOk, IfErr, IsErrOf};
ghost use Rattle.crash_disk.specs.Moments.{LeavesOnly};
ghost use Rattle.crash_disk.specs.Plans.{Follows};
ghost use Rattle.gate_journal.specs.Calls.{remaking};
ghost use Rattle.gate_journal.specs.Journal.{Fits, IsOwn, IsOldOrNew, made_anew, remade};
ghost use Rattle.gate_journal.specs.Making.{IsWritable};
ghost use Rattle.gate_journal.specs.Opening.{open_fault_of, CausesFaults};

use crate::format::HEAD_LENGTH;
use crate::journal::size_before;
use crate::making::{fields_of, head_of};
use crate::remaking::{body_room, first_gate, make_beside, other_of, records_of};
use crate::stored::Stored;
use crate::{Disk, Header, Journal, OpenFault};
use owned_values::Blob;

impl Journal {
    /// Makes the journal anew in the other file, with these payloads and this header.
    fn make_anew<D: Disk>(
        &mut self,
        disk: &mut D,
        kept: &[Blob],
        header: Header,
    ) -> Result<(), OpenFault>
        requires own { IsOwn (D.shows disk.old).told self.old }
        requires whole { self.old.broken ≡ false }
        requires generation { header.generation ≡ self.old.kept.holds.header.generation + 1 }
        requires writable { IsWritable header }
        requires fits { Fits kept.now }
        ensures ok { OnOk result (self.new ≡ record { kept = made_anew kept.now header.horizon header.next self.old.kept; spare = None; broken = false }) }
        ensures failed { IsErrOf result OpenFault.DiskFault → self.new ≡ record self.old { broken = true } }
        ensures no_memory { IsErrOf result OpenFault.NoMemory → (self.new ≡ self.old) × (disk.new ≡ disk.old) }
        ensures not_foreign { IfErr result (λ e. open_fault_of e ≡ None) }
        ensures own { IsOwn (D.shows disk.new).told self.new }
        ensures moments { LeavesOnly D.shows disk.old disk.new (IsOldOrNew self.old.kept (made_anew kept.now header.horizon header.next self.old.kept)) }
        ensures faults { CausesFaults result (D.shows disk.old).faults (D.shows disk.new).faults }
        ensures calls { Follows D.shows
            (remaking (made_anew kept.now header.horizon header.next self.old.kept)) disk.old disk.new result }
    {
        let alloc = self.allocator();
        let records = records_of(alloc, kept)?;
        let mut body = body_room(alloc, &records)?;
        let fields = fields_of(alloc, &header, first_gate(&records))?;
        let head = head_of(alloc, &fields)?;
        let file = other_of(self.file);
        self.broken = true;
        make_beside(disk, file, &head, &fields, &records, &mut body)?;
        let end = HEAD_LENGTH + size_before(&records);
        let stored = Stored {
            version: 2,
            header,
            records,
            end,
        };
        *self = Journal::of(alloc, file, stored);
        Ok(())
    }

    /// Leaves out all records but those that are kept: the journal is made anew in its other file, with these payloads,
    /// this horizon and this next number, and with the next generation. Room that was reserved is given up.
    ///
    /// It answers [`OpenFault::NoMemory`] before it changes anything, and [`OpenFault::DiskFault`] only where the disk's
    /// count of faults rose: then the journal is broken, and the disk stands for the journal from before or the new one.
    /// It never answers [`OpenFault::Foreign`].
    pub fn compact<D: Disk>(
        &mut self,
        disk: &mut D,
        kept: &[Blob],
        horizon: u64,
        next: u64,
    ) -> Result<(), OpenFault>
        requires own { IsOwn (D.shows disk.old).told self.old }
        requires whole { self.old.broken ≡ false }
        requires version { self.old.kept.holds.version ≡ 2 }
        requires generation { self.old.kept.holds.header.generation < 2 ^ 64 - 1 }
        requires fits { Fits kept.now }
        ensures ok { OnOk result (self.new ≡ record { kept = made_anew kept.now horizon next self.old.kept; spare = None; broken = false }) }
        ensures failed { IsErrOf result OpenFault.DiskFault → self.new ≡ record self.old { broken = true } }
        ensures no_memory { IsErrOf result OpenFault.NoMemory → (self.new ≡ self.old) × (disk.new ≡ disk.old) }
        ensures not_foreign { IfErr result (λ e. open_fault_of e ≡ None) }
        ensures own { IsOwn (D.shows disk.new).told self.new }
        // A crash at any moment of the call leaves the journal from before it, or the new one.
        ensures moments { LeavesOnly D.shows disk.old disk.new (IsOldOrNew self.old.kept (made_anew kept.now horizon next self.old.kept)) }
        ensures faults { CausesFaults result (D.shows disk.old).faults (D.shows disk.new).faults }
        ensures calls { Follows D.shows
            (remaking (made_anew kept.now horizon next self.old.kept)) disk.old disk.new result }
    {
        let generation = self.header.generation + 1;
        let header = Header {
            generation,
            horizon,
            next,
        };
        self.make_anew(disk, kept, header)
    }

    /// Makes a journal of version 1 anew in version 2: in its other file, with these payloads, its horizon, its next
    /// number, and the next generation. Its answers are those of `compact`.
    pub fn migrate<D: Disk>(&mut self, disk: &mut D, kept: &[Blob]) -> Result<(), OpenFault>
        requires own { IsOwn (D.shows disk.old).told self.old }
        requires whole { self.old.broken ≡ false }
        requires version { self.old.kept.holds.version ≡ 1 }
        requires fits { Fits kept.now }
        ensures ok { OnOk result (self.new ≡ record { kept = remade kept.now self.old.kept; spare = None; broken = false }) }
        ensures failed { IsErrOf result OpenFault.DiskFault → self.new ≡ record self.old { broken = true } }
        ensures no_memory { IsErrOf result OpenFault.NoMemory → (self.new ≡ self.old) × (disk.new ≡ disk.old) }
        ensures not_foreign { IfErr result (λ e. open_fault_of e ≡ None) }
        ensures own { IsOwn (D.shows disk.new).told self.new }
        // A crash at any moment of the call leaves the journal from before it, or the new one.
        ensures moments { LeavesOnly D.shows disk.old disk.new (IsOldOrNew self.old.kept (remade kept.now self.old.kept)) }
        ensures faults { CausesFaults result (D.shows disk.old).faults (D.shows disk.new).faults }
        ensures calls { Follows D.shows (remaking (remade kept.now self.old.kept)) disk.old disk.new result }
    {
        let header = Header {
            generation: self.header.generation + 1,
            ..self.header
        };
        self.make_anew(disk, kept, header)
    }
}
