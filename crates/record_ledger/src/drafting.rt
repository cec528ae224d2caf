//! How records are drafted.
ghost use Rattle.std.specs.Prelude.{◌≡◌, ◌≤◌, ◌<◌, ◌↔◌, true, false, length, Some, IsSomeAnd, IsTrue, IfSome, IfNone, OnOk};
ghost use Rattle.record_ledger.specs.Ledger.{KeepsSpare, IsFitting};
ghost use Rattle.record_ledger.specs.Drafts.{capped, is_full, IsCause, Drafts, IsDraftable, SameLedger};

use crate::ledger::RecordLedger;
use crate::standing::Standing;
use gate_journal::{AROUND, LONGEST_PAYLOAD};
use ledger_rules::DraftFault;
use owned_values::{Blob, NoMemory};
use std::marker::Model;

/// How many rows of one kind may be kept.
pub const MOST_ROWS: usize = 65_536;

/// A record that was drafted, and its payload. Contracts see it as the record.
#[derive(Drop)]
pub struct DraftedRecord<S: Standing> {
    pub(crate) entry: S::Record,
    pub(crate) payload: Blob,
}

impl<S: Standing> Model for DraftedRecord<S> {
    ghost use Rattle.record_ledger.specs.Keeping.{IsPayload};

    ghost Value = { S.Record };

    ghost view = { λ d. d.entry };

    ghost invariant = { λ d. IsPayload S.rules d.payload d.entry };
}

impl<S: Standing> DraftedRecord<S> {
    /// The record.
    pub fn entry(&self) -> &S::Record
        ensures { result.now ≡ self.now }
    {
        &self.entry
    }
}

impl<S: Standing> RecordLedger<S> {
    /// How many rows there are of a record's kind, where there are as many as there may be, or more.
    fn full_rows(&self, entry: &S::Record) -> Option<u32>
        ensures some { IfSome result (λ kept. (is_full S.rules self.now.held.records entry.now ≡ true)
            × (S.rules.rows_of_kind self.now.held.records entry.now ≡ Some kept)) }
        ensures none { IfNone result (is_full S.rules self.now.held.records entry.now ≡ false) }
    {
        S::laws_hold();
        self.journal.records_fit();
        let kept = self.standing.rows_of_kind(entry)?;
        if kept < MOST_ROWS {
            return None;
        }
        Some(kept as u32)
    }

    /// Whether a record whose payload has this length fits.
    fn is_fitting(&self, entry: &S::Record, len: u64) -> bool
        requires { len ≡ capped (length (S.rules.bytes 2 entry.now)) }
        ensures { IsTrue result ↔ IsFitting S.rules self.now.held entry.now }
    {
        len <= LONGEST_PAYLOAD as u64
            && len + AROUND <= self.journal.room()
            && S::are_before_end(entry)
    }

    /// Why a record is not drafted, beside want of memory; none where it can be.
    fn refusal(&self, entry: &S::Record) -> Option<DraftFault>
        ensures some { IfSome result (IsCause S.rules self.now entry.now) }
        ensures none { IfNone result ((is_full S.rules self.now.held.records entry.now ≡ false) × IsFitting S.rules self.now.held entry.now) }
    {
        if let Some(kept) = self.full_rows(entry) {
            return Some(DraftFault::LedgerFull { kept });
        }
        let length = S::payload_len(entry);
        if self.is_fitting(entry, length) {
            return None;
        }
        Some(DraftFault::JournalFull {
            length,
            room: self.journal.room(),
            next: self.next_number(),
        })
    }

    /// Makes room for all that `commit` fills with a record whose payload has this length.
    fn make_room(&mut self, entry: &S::Record, len: usize) -> Result<(), NoMemory>
        ensures same { SameLedger self.old self.new }
        ensures spare { KeepsSpare S.row_rules self.old self.new }
        ensures payload { OnOk result (IsSomeAnd self.new.payload_spare (λ n. len ≤ n)) }
        ensures row { OnOk result (S.row_rules.has_room self.new.standing entry.now) }
    {
        S::laws_hold();
        self.journal.reserve(len)?;
        self.standing.reserve(entry)
    }

    /// Drafts a record of the ledger: makes its payload, and room for all that `commit` fills.
    ///
    /// Errors: [`DraftFault::LedgerFull`] exactly where 65,536 rows of the record's kind are kept or more; else
    /// [`DraftFault::JournalFull`] exactly where the record does not fit; [`DraftFault::NoMemory`].
    pub fn draft(&mut self, entry: S::Record) -> Result<DraftedRecord<S>, DraftFault>
        requires { IsDraftable S.rules self.old.held entry }
        ensures drafts { Drafts S.rules S.row_rules self.old self.new entry result }
        ensures same { SameLedger self.old self.new }
        ensures spare { KeepsSpare S.row_rules self.old self.new }
    {
        S::laws_hold();
        if let Some(fault) = self.refusal(&entry) {
            return Err(fault);
        }
        let payload = S::payload(&entry, self.alloc)?;
        self.make_room(&entry, payload.len())?;
        Ok(DraftedRecord { entry, payload })
    }
}
