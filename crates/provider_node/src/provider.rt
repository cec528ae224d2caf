//! A provider over a disk.
ghost use Rattle.std.specs.Prelude.{◌≡◌, false, IfOk, IfSome};
ghost use Rattle.owned_values.specs.Gives.{Gives};
ghost use Rattle.crash_disk.specs.Disk.{image_of};
ghost use Rattle.crash_disk.specs.Moments.{LeavesOnly};
ghost use Rattle.crash_disk.specs.Plans.{Follows};
ghost use Rattle.gate_journal.specs.Opening.{open_fault_of, CausesFaults};
ghost use Rattle.record_ledger.specs.Calls.{opening};
ghost use Rattle.record_ledger.specs.Ledger.{LeftByOpening, ledger_in, taken};
ghost use Rattle.provider_node.specs.Step.{OwnsDisk, seen};

use crate::role::Role;
use crash_disk::Disk;
use gate_journal::OpenFault;
use record_ledger::RecordLedger;
use std::alloc::Global;
use std::marker::Model;

/// A provider: its role, with what it is set up with, and its ledger.
#[derive(Drop)]
pub struct ProviderNode<R: Role> {
    pub(crate) role: R,
    pub(crate) ledger: RecordLedger<R::Rows>,
}

impl<R: Role> Model for ProviderNode<R> {
    ghost use Rattle.std.specs.Prelude.{◌≡◌};
    ghost use Rattle.provider_node.specs.Step.{Provider, provider, seen};

    ghost Value = { Provider R R.Rows.Record };

    ghost view = { λ n. provider n.role (seen n.ledger) };

    ghost invariant = { λ n. (seen n.ledger).key ≡ R.key n.role };
}

impl<R: Role> ProviderNode<R> {
    /// Starts a provider: its ledger is opened from the disk. The answers are those of
    /// [`RecordLedger::start`].
    pub fn start<D: Disk>(
        alloc: Global,
        role: R,
        disk: &mut D,
    ) -> Result<ProviderNode<R>, OpenFault>
        ensures gives { IfSome (D.shows disk.old).told (λ d.
            Gives (λ n. n.ledger.held) open_fault_of result (taken (ledger_in R.Rows.rules (image_of d)))) }
        ensures setup { IfOk result (λ n. n.setup ≡ role) }
        ensures whole { IfOk result (λ n. n.ledger.broken ≡ false) }
        ensures key { IfOk result (λ n. n.ledger.key ≡ R.key role) }
        ensures own { IfOk result (λ n. OwnsDisk R.Rows.rules n (D.shows disk.new).told) }
        ensures moments { LeavesOnly D.shows disk.old disk.new (LeftByOpening R.Rows.rules (D.shows disk.old).told) }
        ensures faults { CausesFaults result (D.shows disk.old).faults (D.shows disk.new).faults }
        ensures calls { Follows D.shows (opening R.Rows.rules) disk.old disk.new result }
    {
        let ledger = RecordLedger::start(alloc, disk, role.id_key())?;
        Ok(ProviderNode { role, ledger })
    }

    /// The ledger.
    pub fn ledger(&self) -> &RecordLedger<R::Rows>
        ensures { seen result.now ≡ self.now.ledger }
    {
        &self.ledger
    }

    /// The role, with what the provider is set up with.
    pub fn role(&self) -> &R
        ensures { result.now ≡ self.now.setup }
    {
        &self.role
    }
}
