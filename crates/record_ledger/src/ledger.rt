//! An opened ledger.
ghost use Rattle.std.specs.Prelude.{◌≡◌, true, false, OnOk, OnErr};
ghost use Rattle.crash_disk.specs.Counts.{CountsFaults};
ghost use Rattle.crash_disk.specs.Moments.{LeavesOnly};
ghost use Rattle.crash_disk.specs.Plans.{Follows};
ghost use Rattle.record_ledger.specs.Calls.{committing};
ghost use Rattle.record_ledger.specs.Rules.{AreRecords};
ghost use Rattle.record_ledger.specs.Ledger.{CanCommit, IsOwn, IsWithOrWithout, held_with, next_number};

use crate::drafting::DraftedRecord;
use crate::standing::Standing;
use gate_journal::{Disk, Failed, Header, Journal};
use std::alloc::Global;
use std::marker::Model;

/// Records in a journal, and the rows that they stand for.
#[derive(Debug, Drop)]
pub struct RecordLedger<S: Standing> {
    pub(crate) journal: Journal,
    pub(crate) standing: S,
    pub(crate) broken: bool,
    pub(crate) key: [u8; 32],
    pub(crate) alloc: Global,
}

impl<S: Standing> Model for RecordLedger<S> {
    ghost use Rattle.std.specs.Prelude.{◌≡◌, false};
    ghost use Rattle.record_ledger.specs.Ledger.{OpenedLedger};
    ghost use Rattle.record_ledger.specs.Keeping.{opened_of, StandsFor};
    ghost use Rattle.record_ledger.specs.Rules.{StandReady};

    ghost Value = { OpenedLedger S.Record S };

    ghost view = { λ l. opened_of S.rules l.journal l.standing l.key l.broken };

    ghost invariant = { λ l. StandsFor S.rules (StandReady S.row_rules) l.journal.kept.holds l.standing × (l.broken ≡ false → l.journal.broken ≡ false) };
}

impl<S: Standing> RecordLedger<S> {
    /// The rows that the records stand for.
    pub fn standing(&self) -> &S
        ensures is { result.now ≡ self.now.standing }
        ensures stands { S.row_rules.stands result.now self.now.held.records }
        ensures ready { S.row_rules.is_ready result.now }
    {
        &self.standing
    }

    /// What the journal's header keeps.
    pub fn header(&self) -> Header
        ensures { result ≡ self.now.held.header }
    {
        self.journal.header()
    }

    /// Whether a call failed since the ledger was opened.
    pub fn is_broken(&self) -> bool
        ensures { result ≡ self.now.broken }
    {
        self.broken
    }

    /// The key of the IDs that are drawn.
    pub fn key(&self) -> &[u8; 32]
        ensures { result.now ≡ self.now.key }
    {
        &self.key
    }

    /// The allocator of what it keeps.
    pub fn allocator(&self) -> Global {
        self.alloc
    }

    /// The next number to be drawn: the larger of the header's and one more than the greatest that a record drew.
    pub fn next_number(&self) -> u64
        ensures { result ≡ next_number S.rules self.now.held }
    {
        self.journal.header().next.max(self.standing.next())
    }

    /// That the records are records of a ledger, each behind those before it. It does nothing.
    pub fn holds_records(&self)
        ensures { AreRecords S.rules self.now.held.records }
    {
        self.journal.records_fit();
    }

    /// Adds the record of a draft. It takes no memory. At `Failed` the ledger is broken, and has to be opened again; the
    /// disk then stands for the records with the new one or without.
    pub fn commit<D: Disk>(&mut self, disk: &mut D, draft: DraftedRecord<S>) -> Result<(), Failed>
        requires own { IsOwn S.rules (D.shows disk.old).told self.old }
        requires whole { self.old.broken ≡ false }
        requires can { CanCommit S.rules S.row_rules self.old draft }
        ensures ok { OnOk result ((self.new.held ≡ held_with draft self.old.held) × (self.new.broken ≡ false)) }
        ensures err { OnErr result ((self.new.held ≡ self.old.held) × (self.new.broken ≡ true)) }
        ensures key { self.new.key ≡ self.old.key }
        ensures own { IsOwn S.rules (D.shows disk.new).told self.new }
        // A crash at any moment of the call leaves the records from before it, with the new one or without.
        ensures moments { LeavesOnly D.shows disk.old disk.new (IsWithOrWithout S.rules draft self.old.held) }
        ensures faults { CountsFaults result (D.shows disk.old).faults (D.shows disk.new).faults }
        ensures calls { Follows D.shows (committing S.rules self.old.held draft) disk.old disk.new result }
    {
        self.journal.records_fit();
        let DraftedRecord { entry, payload } = draft;
        self.broken = true;
        self.journal.append(disk, payload.as_slice())?;
        self.standing.put(entry);
        self.broken = false;
        Ok(())
    }
}
