//! How a ledger is opened.
ghost use Rattle.std.specs.Prelude.{◌≡◌, ◌⊎◌, ◌≤◌, ◌<◌, ◌^◌, ◌++◌, ◌∷◌, [], ℕ, true, false, None, Some, List, length, IfOk, IsOk, IfSome, IfErr, OnOk, OnErr};
ghost use Rattle.owned_values.specs.Gives.{Gives};
ghost use Rattle.crash_disk.specs.Disk.{Image, image_of};
ghost use Rattle.crash_disk.specs.Moments.{Leaves, LeavesOnly};
ghost use Rattle.crash_disk.specs.Plans.{Follows};
ghost use Rattle.gate_journal.specs.Format.{LONGEST_PAYLOAD};
ghost use Rattle.gate_journal.specs.Opening.{open_fault_of, CausesFaults};
ghost use Rattle.gate_journal.specs.Journal.{Fits, IsOldOrNew};
ghost use Rattle.gate_journal.specs.Journal.{IsOwn as IsJournalsOwn};
ghost use Rattle.record_ledger.specs.Calls.{migrating, opening};
ghost use Rattle.record_ledger.specs.Rules.{StandReady};
ghost use Rattle.record_ledger.specs.Ledger.{IsOwn, LeftByOpening, held_of, ledger_in, some_held, taken};
ghost use Rattle.record_ledger.specs.Keeping.{held_in, StandsFor};
ghost use Rattle.record_ledger.specs.Loading.{CanLoad, IsLoaded, IsTakenFrom, IsVersion, LoadsOne, Loads, in_version_2, to_version_2};

use crate::ledger::RecordLedger;
use crate::standing::Standing;
use gate_journal::{Disk, Journal, OpenFault, open_journal};
use owned_values::{Blob, NoMemory};
use std::alloc::Global;

/// Where the version of a file stands.
const VERSION_PLACE: u64 = 32;

/// What the payloads of a journal stand for, and the payloads of version 2 where it has version 1.
#[derive(Drop)]
pub(crate) struct Loaded<S> {
    pub(crate) standing: S,
    pub(crate) payloads: Vec<Blob>,
}

impl<S: Standing> Loaded<S> {
    /// What no payloads stand for. It takes no memory.
    pub(crate) fn new(alloc: Global) -> Loaded<S>
        ensures { (version : ℕ) → IsLoaded S.rules S.row_rules.stands version [] result.standing result.payloads.items }
    {
        Loaded {
            standing: S::new(alloc),
            payloads: Vec::new(alloc),
        }
    }

    /// Keeps the payload of version 2 of a record that was read from a journal of version 1.
    fn keep_anew(&mut self, alloc: Global, entry: &S::Record, version: u8) -> Result<(), NoMemory>
        requires { length (S.rules.bytes 2 entry.now) < 2 ^ 32 }
        ensures standing { self.new.standing ≡ self.old.standing }
        ensures anew { OnOk result (version ≡ 1 → self.new.payloads.items ≡ self.old.payloads.items ++ S.rules.bytes 2 entry.now ∷ []) }
        ensures found { OnOk result (version ≡ 1 → S.rules.found 2 (S.rules.bytes 2 entry.now) ≡ Some entry.now) }
    {
        if version == 1 {
            self.payloads.push(S::payload(entry, alloc)?)?;
        }
        Ok(())
    }

    /// Reads one payload more: whether it is a record behind the others.
    fn load_one(&mut self, alloc: Global, payload: &[u8], version: u8) -> Result<bool, NoMemory>
        requires few { CanLoad S.rules S.row_rules.stands version self.old.standing self.old.payloads.items }
        requires short { length payload.now ≤ LONGEST_PAYLOAD }
        ensures { IfOk result (λ is. (payloads : List (List ℕ)) →
            IsLoaded S.rules S.row_rules.stands version payloads self.old.standing self.old.payloads.items →
            LoadsOne S.rules S.row_rules.stands version payloads payload.now is
            self.new.standing self.new.payloads.items) }
    {
        S::laws_hold();
        let Some(entry) = S::read(alloc, payload, version)? else {
            return Ok(false);
        };
        if !self.standing.is_next(&entry) {
            return Ok(false);
        }
        self.keep_anew(alloc, &entry, version)?;
        self.standing.reserve(&entry)?;
        self.standing.put(entry);
        Ok(true)
    }

    /// The same with the rows ready to be asked for. Where there is no memory all is let go.
    fn ready(self, alloc: Global) -> Result<Loaded<S>, NoMemory>
        ensures { IfOk result (λ loaded. (version : ℕ) (payloads : List (List ℕ)) →
            IsLoaded S.rules S.row_rules.stands version payloads self.standing self.payloads.items →
            IsLoaded S.rules (StandReady S.row_rules) version payloads loaded.standing loaded.payloads.items) }
    {
        let standing = self.standing.ready(alloc)?;
        Ok(Loaded {
            standing,
            payloads: self.payloads,
        })
    }
}

/// What the payloads of a journal stand for, or the number of the first that is no record of the ledger.
fn load<S: Standing>(alloc: Global, journal: &Journal) -> Result<Loaded<S>, OpenFault>
    ensures { Loads S.rules (StandReady S.row_rules) journal.now.kept result }
{
    journal.records_fit();
    let version = journal.version();
    let mut loaded = Loaded::<S>::new(alloc);
    for (i, payload) in journal.records().iter().enumerate() {
        if !loaded.load_one(alloc, payload.as_slice(), version)? {
            return Err(OpenFault::Foreign {
                file: journal.file(),
                place: journal.place(i),
            });
        }
    }
    Ok(loaded.ready(alloc)?)
}

/// Makes a journal of version 1 anew in version 2, with these payloads.
fn to_version_2<D: Disk>(
    journal: &mut Journal,
    disk: &mut D,
    payloads: &[Blob],
) -> Result<(), OpenFault>
    requires own { IsJournalsOwn (D.shows disk.old).told journal.old }
    requires whole { journal.old.broken ≡ false }
    requires fits { journal.old.kept.holds.version ≡ 1 → Fits payloads.now }
    ensures ok { OnOk result ((journal.new.kept ≡ in_version_2 payloads.now journal.old.kept) × (journal.new.broken ≡ false)) }
    ensures version { OnOk result (IsVersion journal.old.kept.holds.version) }
    ensures no_fault { IfErr result (λ e. IsVersion journal.old.kept.holds.version → open_fault_of e ≡ None) }
    ensures own { OnOk result (IsJournalsOwn (D.shows disk.new).told journal.new) }
    ensures moments { LeavesOnly D.shows disk.old disk.new (IsOldOrNew journal.old.kept (in_version_2 payloads.now journal.old.kept)) }
    ensures faults { CausesFaults result (D.shows disk.old).faults (D.shows disk.new).faults }
    ensures calls { Follows D.shows
        (to_version_2 payloads.now journal.old.kept) disk.old disk.new result }
{
    match journal.version() {
        1 => journal.migrate(disk, payloads),
        2 => Ok(()),
        _ => Err(OpenFault::Foreign {
            file: journal.file(),
            place: VERSION_PLACE,
        }),
    }
}

/// A journal that was opened, in version 2, and what its payloads stand for.
fn take<S: Standing, D: Disk>(
    alloc: Global,
    disk: &mut D,
    mut journal: Journal,
) -> Result<(Journal, S), OpenFault>
    requires own { IsJournalsOwn (D.shows disk.old).told journal }
    requires whole { journal.broken ≡ false }
    ensures gives { IsVersion journal.kept.holds.version →
        Gives (λ pair. held_in S.rules pair.0.kept) open_fault_of result
        (taken (some_held (held_of S.rules journal.kept))) }
    ensures whole { IfOk result (λ pair. (pair.0.broken ≡ false) × StandsFor S.rules (StandReady S.row_rules) pair.0.kept.holds pair.1) }
    ensures own { IfOk result (λ pair. IsJournalsOwn (D.shows disk.new).told pair.0) }
    ensures err { OnErr result ((image : Image) → Leaves (D.shows disk.new).told image → Leaves (D.shows disk.old).told image ⊎ IsOk (ledger_in S.rules image)) }
    ensures moments { LeavesOnly D.shows disk.old disk.new (IsTakenFrom S.rules journal.kept) }
    ensures faults { CausesFaults result (D.shows disk.old).faults (D.shows disk.new).faults }
    ensures calls { Follows D.shows (migrating S.rules (some_held (held_of S.rules journal.kept))) disk.old disk.new result }
{
    S::laws_hold();
    journal.records_fit();
    let Loaded { standing, payloads } = load::<S>(alloc, &journal)?;
    to_version_2(&mut journal, disk, &payloads)?;
    Ok((journal, standing))
}

/// The journal of a disk, in version 2, and what its payloads stand for.
fn open_both<S: Standing, D: Disk>(alloc: Global, disk: &mut D) -> Result<(Journal, S), OpenFault>
    ensures gives { IfSome (D.shows disk.old).told (λ d. Gives (λ pair. held_in S.rules pair.0.kept) open_fault_of result (taken (ledger_in S.rules (image_of d)))) }
    ensures whole { IfOk result (λ pair. (pair.0.broken ≡ false) × StandsFor S.rules (StandReady S.row_rules) pair.0.kept.holds pair.1) }
    ensures own { IfOk result (λ pair. IsJournalsOwn (D.shows disk.new).told pair.0) }
    ensures err { OnErr result (
        ((image : Image) → Leaves (D.shows disk.old).told image → IsOk (ledger_in S.rules image)) →
        (image : Image) → Leaves (D.shows disk.new).told image → IsOk (ledger_in S.rules image)) }
    ensures moments { LeavesOnly D.shows disk.old disk.new (LeftByOpening S.rules (D.shows disk.old).told) }
    ensures faults { CausesFaults result (D.shows disk.old).faults (D.shows disk.new).faults }
    ensures calls { Follows D.shows (opening S.rules) disk.old disk.new result }
{
    let journal = open_journal(alloc, disk)?;
    take::<S, D>(alloc, disk, journal)
}

impl<S: Standing> RecordLedger<S> {
    /// Opens the ledger of a disk: the records of its journal, or an empty journal where there is none yet. A journal of
    /// version 1 is made anew in version 2. `key` is the key of the IDs that are drawn.
    ///
    /// It begins with a sync of both files. It answers [`OpenFault::Foreign`] exactly where the files are no journal, or a
    /// payload is no record of the ledger: then with the place of the length of the first such payload.
    /// [`OpenFault::DiskFault`] comes only where the disk's count of faults rose.
    pub fn start<D: Disk>(
        alloc: Global,
        disk: &mut D,
        key: [u8; 32],
    ) -> Result<RecordLedger<S>, OpenFault>
        ensures gives { IfSome (D.shows disk.old).told (λ d. Gives (λ l. l.held) open_fault_of result (taken (ledger_in S.rules (image_of d)))) }
        ensures whole { IfOk result (λ l. (l.broken ≡ false) × (l.key ≡ key)) }
        ensures own { IfOk result (λ l. IsOwn S.rules (D.shows disk.new).told l) }
        // A crash at any moment of the call leaves what an image at its start stood for, or what is opened from that.
        ensures moments { LeavesOnly D.shows disk.old disk.new (LeftByOpening S.rules (D.shows disk.old).told) }
        ensures faults { CausesFaults result (D.shows disk.old).faults (D.shows disk.new).faults }
        ensures calls { Follows D.shows (opening S.rules) disk.old disk.new result }
    {
        let (journal, standing) = open_both::<S, D>(alloc, disk)?;
        Ok(RecordLedger {
            journal,
            standing,
            broken: false,
            key,
            alloc,
        })
    }

    /// Opens the ledger again, as `start` does. At an error it is broken, and else as it was.
    pub fn reopen<D: Disk>(&mut self, disk: &mut D) -> Result<(), OpenFault>
        ensures gives { IfSome (D.shows disk.old).told (λ d. Gives (λ _. self.new.held) open_fault_of result (taken (ledger_in S.rules (image_of d)))) }
        ensures whole { OnOk result (self.new.broken ≡ false) }
        ensures own { OnOk result (IsOwn S.rules (D.shows disk.new).told self.new) }
        ensures err { OnErr result ((self.new.held ≡ self.old.held) × (self.new.broken ≡ true)) }
        ensures own_err { OnErr result (IsOwn S.rules (D.shows disk.old).told (record self.old { broken = true }) → IsOwn S.rules (D.shows disk.new).told self.new) }
        ensures key { self.new.key ≡ self.old.key }
        // A crash at any moment of the call leaves what an image at its start stood for, or what is opened from that.
        ensures moments { LeavesOnly D.shows disk.old disk.new (LeftByOpening S.rules (D.shows disk.old).told) }
        ensures faults { CausesFaults result (D.shows disk.old).faults (D.shows disk.new).faults }
        ensures calls { Follows D.shows (opening S.rules) disk.old disk.new result }
    {
        match open_both::<S, D>(self.alloc, disk) {
            Ok((journal, standing)) => {
                self.journal = journal;
                self.standing = standing;
                self.broken = false;
                Ok(())
            }
            Err(fault) => {
                self.broken = true;
                Err(fault)
            }
        }
    }
}
