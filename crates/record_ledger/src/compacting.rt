//! How records are left out that no one can ask for any more.
ghost use Rattle.std.specs.Prelude.{◌≡◌, ◌<◌, List, None, Ok, true, false, length, IfOk, IfErr, IsErrOf, OnOk};
ghost use Rattle.crash_disk.specs.Moments.{LeavesOnly};
ghost use Rattle.ledger_rules.specs.Kept.{selected};
ghost use Rattle.gate_journal.specs.Opening.{open_fault_of, CausesFaults};
ghost use Rattle.record_ledger.specs.Calls.{FollowsCompaction};
ghost use Rattle.record_ledger.specs.Rules.{StandReady, records_of};
ghost use Rattle.record_ledger.specs.Ledger.{IsOwn};
ghost use Rattle.record_ledger.specs.Compacting.{AreFlags, Compacts, IsOldOrCompacted};
ghost use Rattle.record_ledger.specs.Choosing.{AreRead, AreStanding, IsChosen};

use crate::ledger::RecordLedger;
use crate::links::Links;
use crate::standing::Standing;
use gate_journal::{Disk, Journal, OpenFault};
use ledger_rules::keep;
use owned_values::{Blob, NoMemory};
use std::alloc::Global;

/// The payloads of the records that are kept, and what they stand for.
#[derive(Drop)]
pub(crate) struct Chosen<S> {
    payloads: Vec<Blob>,
    standing: S,
}

/// Which records of a ledger's journal are kept at a moment.
fn flags_of<S: Standing>(
    alloc: Global,
    journal: &Journal,
    now: u64,
    horizon: u64,
) -> Result<Vec<bool>, NoMemory>
    requires { AreRead S.rules journal.now.kept.holds.payloads }
    ensures { IfOk result (λ flags. (records : List S.Record) →
        records_of S.rules 2 journal.now.kept.holds.payloads ≡ Ok records →
        AreFlags S.rules now horizon records flags.items) }
{
    S::laws_hold();
    journal.records_fit();
    let mut links = Links::new::<S>(alloc);
    let mut seen = Vec::new(alloc);
    for payload in journal.records() {
        let Some(entry) = S::read(alloc, payload.as_slice(), 2)? else {
            unreachable!();
        };
        let is_seen = S::has_visible(&entry, now, horizon);
        links.take_own::<S>(entry)?;
        seen.push(is_seen)?;
    }
    keep(alloc, &links.links, &seen)
}

/// Copies of the payloads whose flags are set.
fn payloads_of(alloc: Global, journal: &Journal, flags: &[bool]) -> Result<Vec<Blob>, NoMemory>
    requires { length flags.now ≡ length journal.now.kept.holds.payloads }
    ensures { IfOk result (λ payloads. payloads.items ≡ selected flags.now journal.now.kept.holds.payloads) }
{
    let mut payloads = Vec::new(alloc);
    for (place, payload) in journal.records().iter().enumerate() {
        if flags[place] {
            payloads.push(Blob::of(alloc, payload.as_slice())?)?;
        }
    }
    Ok(payloads)
}

/// What these payloads stand for, which are records of the ledger.
fn standing_of<S: Standing>(alloc: Global, payloads: &[Blob]) -> Result<S, NoMemory>
    requires read { AreRead S.rules payloads.now }
    requires few { length payloads.now < 4294967295 }
    ensures { IfOk result (AreStanding S.rules (StandReady S.row_rules) payloads.now) }
{
    let mut standing = S::new(alloc);
    for payload in payloads {
        let Some(entry) = S::read(alloc, payload.as_slice(), 2)? else {
            unreachable!();
        };
        standing.reserve(&entry)?;
        standing.put(entry);
    }
    Ok(standing.ready(alloc)?)
}

/// The records that are kept at a moment.
fn choose<S: Standing>(alloc: Global, journal: &Journal, now: u64) -> Result<Chosen<S>, NoMemory>
    requires { AreRead S.rules journal.now.kept.holds.payloads }
    ensures { IfOk result (λ chosen. IsChosen S.rules (StandReady S.row_rules) now journal.now.kept chosen.payloads.items chosen.standing) }
{
    S::laws_hold();
    journal.records_fit();
    let flags = flags_of::<S>(alloc, journal, now, journal.header().horizon)?;
    let payloads = payloads_of(alloc, journal, &flags)?;
    let standing = standing_of::<S>(alloc, &payloads)?;
    Ok(Chosen { payloads, standing })
}

impl<S: Standing> RecordLedger<S> {
    /// Leaves out each record that no one can ask for any more from the moment `now` on: a record is kept where a row of it is
    /// visible, and with it each that it names and each that names it. The journal is made anew in its other file, with the
    /// same next number, and with the larger of its horizon and `now`. A ledger of the last generation, 2^64 - 1, stays as it
    /// is.
    ///
    /// It answers [`OpenFault::NoMemory`] before it changes anything, and [`OpenFault::DiskFault`] only where the disk's count
    /// of faults rose: then the ledger is broken, and the disk stands for it as before or as made anew. It never answers
    /// [`OpenFault::Foreign`].
    pub fn compact<D: Disk>(&mut self, disk: &mut D, now: u64) -> Result<(), OpenFault>
        requires own { IsOwn S.rules (D.shows disk.old).told self.old }
        requires whole { self.old.broken ≡ false }
        ensures ok { OnOk result (Compacts S.rules now self.old.held self.new.held × (self.new.broken ≡ false)) }
        ensures failed { IsErrOf result OpenFault.DiskFault → (self.new.held ≡ self.old.held) × (self.new.broken ≡ true) }
        ensures no_memory { IsErrOf result OpenFault.NoMemory → (self.new ≡ self.old) × (disk.new ≡ disk.old) }
        ensures not_foreign { IfErr result (λ e. open_fault_of e ≡ None) }
        ensures key { self.new.key ≡ self.old.key }
        ensures own { IsOwn S.rules (D.shows disk.new).told self.new }
        // A crash at any moment of the call leaves the ledger from before it, or the one that is made anew.
        ensures moments { LeavesOnly D.shows disk.old disk.new (IsOldOrCompacted S.rules now self.old.held) }
        ensures faults { CausesFaults result (D.shows disk.old).faults (D.shows disk.new).faults }
        ensures calls { FollowsCompaction S.rules D.shows now self.old.held disk.old disk.new result }
    {
        S::laws_hold();
        let header = self.journal.header();
        if header.generation == u64::MAX {
            return Ok(());
        }
        let Chosen { payloads, standing } = choose::<S>(self.alloc, &self.journal, now)?;
        let horizon = header.horizon.max(now);
        let next = self.next_number();
        match self.journal.compact(disk, &payloads, horizon, next) {
            Ok(()) => {
                self.standing = standing;
                Ok(())
            }
            Err(OpenFault::NoMemory) => Err(OpenFault::NoMemory),
            Err(OpenFault::DiskFault) => {
                self.broken = true;
                Err(OpenFault::DiskFault)
            }
            Err(OpenFault::Foreign { .. }) => unreachable!(),
        }
    }
}
