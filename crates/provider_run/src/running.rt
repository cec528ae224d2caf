//! The run of a provider.

ghost use Rattle.std.specs.Prelude.{◌≡◌, ◌≢◌, ◌≤◌, ◌⊎◌, ℕ, List, Option, Err};
ghost use Rattle.saml_outside.specs.Files.{File};
ghost use Rattle.crash_disk.specs.Counts.{Rose};
ghost use Rattle.crash_disk.specs.Moments.{LeavesOnly};
ghost use Rattle.serve_loop.specs.Serving.{MightLeave};
ghost use Rattle.serve_loop.specs.Turns.{Turn};
ghost use Rattle.provider_node.specs.Step.{OwnsDisk, StepLeaves};
ghost use Rattle.provider_run.specs.Runs.{IsNotSetUp, IsServed, Outside, outside};
ghost use Rattle.provider_run.specs.Providers.{IsOpened, IsRunnable, RunLeaves, Runs};

use crate::ended::{Ended, RunFault, ended_of};
use crate::runs_provider::RunsProvider;
use crash_disk::Disk;
use event_link::{Clock, Link};
use gate_journal::OpenFault;
use provider_node::ProviderNode;
use saml_outside::Files;
use serve_loop::serve;
use sp_setup::SetupFault;
use std::alloc::Global;

/// Listens at the address of a provider whose ledger was opened, and serves.
fn listen_and_serve<R: RunsProvider, L: Link, D: Disk, C: Clock>(
    alloc: Global,
    node: &mut ProviderNode<R::Role>,
    link: &mut L,
    disk: &mut D,
    clock: &mut C,
    budget: u64,
) -> Result<Ended, RunFault>
    requires { OwnsDisk R.Role.Rows.rules node.old (D.shows disk.old).told }
    // Where it was set up and its ledger opened so, this is how the run goes.
    ensures runs { let opened = outside (D.shows disk.old) (L.shows link.old) (C.to_come clock.old) in
        let after = outside (D.shows disk.new) (L.shows link.new) (C.to_come clock.new) in
        (turns : List (Turn _))
        × ((told : Option (List File)) (file : List ℕ) (before : Outside) →
        IsOpened R.sets_up R.listens_at R.Role.key R.Role.Rows.rules told file before node.old opened →
        Runs R.sets_up R.is_bad R.listens_at R.Role.key R.Role.Rows.rules R.Role.answers (D.shows disk.new).left_since told file
        budget before turns result after)
        × LeavesOnly D.shows disk.old disk.new
        (MightLeave (StepLeaves R.Role.Rows.rules R.Role.answers) (D.shows disk.old).told turns) }
    ensures disk_never_falls { (D.shows disk.old).faults ≤ (D.shows disk.new).faults }
    ensures link_never_falls { (L.shows link.old).faults ≤ (L.shows link.new).faults }
    ensures set_up { ¬ (IsNotSetUp result) }
    ensures disk_fault { result ≢ Err RunFault.DiskFault }
    ensures link_fault { result ≡ Err RunFault.LinkFault → Rose (L.shows link.old).faults (L.shows link.new).faults }
{
    link.listen(R::address(node.role()))?;
    ended_of(serve(alloc, node, link, disk, clock, budget))
}

/// Opens the ledger of a provider that was set up, listens, and serves.
fn run_by<R: RunsProvider, L: Link, D: Disk, C: Clock>(
    alloc: Global,
    role: R::Role,
    link: &mut L,
    disk: &mut D,
    clock: &mut C,
    budget: u64,
) -> Result<Ended, RunFault>
    // Where it was set up so, this is how the run goes.
    ensures runs { let before = outside (D.shows disk.old) (L.shows link.old) (C.to_come clock.old) in
        let after = outside (D.shows disk.new) (L.shows link.new) (C.to_come clock.new) in
        (turns : List (Turn _))
        × ((told : Option (List File)) (file : List ℕ) → R.sets_up told file role →
        Runs R.sets_up R.is_bad R.listens_at R.Role.key R.Role.Rows.rules R.Role.answers (D.shows disk.new).left_since told file
        budget before turns result after)
        × LeavesOnly D.shows disk.old disk.new
        (RunLeaves R.Role.Rows.rules R.Role.answers (D.shows disk.old).told turns) }
    ensures disk_never_falls { (D.shows disk.old).faults ≤ (D.shows disk.new).faults }
    ensures link_never_falls { (L.shows link.old).faults ≤ (L.shows link.new).faults }
    ensures set_up { ¬ (IsNotSetUp result) }
    ensures disk_fault { result ≡ Err RunFault.DiskFault → Rose (D.shows disk.old).faults (D.shows disk.new).faults }
    ensures link_fault { result ≡ Err RunFault.LinkFault → Rose (L.shows link.old).faults (L.shows link.new).faults }
{
    match ProviderNode::start(alloc, role, disk) {
        Ok(mut node) => listen_and_serve::<R, L, D, C>(alloc, &mut node, link, disk, clock, budget),
        Err(OpenFault::Foreign { file, place }) => Ok(Ended::Foreign { file, place }),
        Err(OpenFault::DiskFault) => Err(RunFault::DiskFault),
        Err(OpenFault::NoMemory) => Err(RunFault::NoMemory),
    }
}

/// Runs a provider by the config in a file: it is set up by the config and the files that this names, opens its
/// ledger on the disk, listens at the address of the config, and serves until the link gives Stop or `budget` events
/// were taken.
///
/// [`Ended::BadFile`] tells the first file that can't be used, and [`Ended::Foreign`] that what the disk holds is no
/// ledger, and where. A fault comes only where the count of its kind rose: of the files, of the disk while the ledger
/// was opened, of the link. Want of memory may come in place of any other answer before serving began.
pub fn run<R: RunsProvider, F: Files, L: Link, D: Disk, C: Clock>(
    alloc: Global,
    files: &mut F,
    config: &str,
    link: &mut L,
    disk: &mut D,
    clock: &mut C,
    budget: u64,
) -> Result<Ended, RunFault>
    // The run goes so, it carries the headline of its role, and a crash at any moment of it leaves what one inside the
    // opening or inside an answer may leave.
    ensures runs { let before = outside (D.shows disk.old) (L.shows link.old) (C.to_come clock.old) in
        let after = outside (D.shows disk.new) (L.shows link.new) (C.to_come clock.new) in
        (turns : List (Turn _))
        × Runs R.sets_up R.is_bad R.listens_at R.Role.key R.Role.Rows.rules R.Role.answers (D.shows disk.new).left_since
        (F.holds files.old) config.now budget before turns result after
        × R.headline (D.shows disk.new).left_since (F.holds files.old) config.now before turns after
        × LeavesOnly D.shows disk.old disk.new
        (RunLeaves R.Role.Rows.rules R.Role.answers (D.shows disk.old).told turns) }

    // Each fault has a cause.
    ensures read_fault { result ≡ Err RunFault.ReadFault → Rose (F.faults_of files.old) (F.faults_of files.new) }
    ensures disk_fault { result ≡ Err RunFault.DiskFault → Rose (D.shows disk.old).faults (D.shows disk.new).faults }
    ensures link_fault { result ≡ Err RunFault.LinkFault → Rose (L.shows link.old).faults (L.shows link.new).faults }

    // Where the provider can be run and no fault kept it from that, it served, or there was no memory.
    ensures complete { IsRunnable R.sets_up R.Role.Rows.rules (F.holds files.old) config.now (D.shows disk.old).told →
        ¬ (Rose (F.faults_of files.old) (F.faults_of files.new)) →
        ¬ (Rose (L.shows link.old).faults (L.shows link.new).faults) → result ≢ Err RunFault.DiskFault →
        IsServed result ⊎ (result ≡ Err RunFault.NoMemory) }

    // A provider that was not set up touches nothing. The files hold what they held, and no count falls.
    ensures untouched { IsNotSetUp result → (link.new ≡ link.old) × (disk.new ≡ disk.old) × (clock.new ≡ clock.old) }
    ensures same { F.holds files.new ≡ F.holds files.old }
    ensures files_never_fall { F.faults_of files.old ≤ F.faults_of files.new }
    ensures disk_never_falls { (D.shows disk.old).faults ≤ (D.shows disk.new).faults }
    ensures link_never_falls { (L.shows link.old).faults ≤ (L.shows link.new).faults }
{
    R::never_both();
    R::carries_headline::<D>();
    match R::set_up(alloc, files, config) {
        Ok(role) => run_by::<R, L, D, C>(alloc, role, link, disk, clock, budget),
        Err(SetupFault::BadFile { file, line }) => Ok(Ended::BadFile { file, line }),
        Err(SetupFault::ReadFault) => Err(RunFault::ReadFault),
        Err(SetupFault::NoMemory) => Err(RunFault::NoMemory),
    }
}
