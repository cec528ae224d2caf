// Schedules are replayed over the deployment.

ghost use Rattle.std.specs.Prelude.{◌≡◌, ◌≤◌, List, false, Some, IfOk, Err};
ghost use Rattle.crash_disk.specs.Disk.{empty_image};
ghost use Rattle.crash_disk.specs.Memory.{holding, state_of};
ghost use Rattle.saml_outside.specs.Counts.{Rose};
ghost use Rattle.record_ledger.specs.Ledger.{taken};
ghost use Rattle.provider_node.specs.Step.{OwnsDisk};
ghost use Rattle.request_ledger.specs.Record.{request_rules};
ghost use Rattle.idp_ledger.specs.Record.{idp_rules};
ghost use Rattle.provider_node.specs.Starts.{Start};
ghost use Rattle.idp_server.specs.Step as idp;
ghost use Rattle.sp_server.specs.Step as sp;
ghost use Rattle.schedule_replay.specs.Runs.{alone, beginning};
ghost use Rattle.replay_runs.specs.Runs.{Carries, Goes, IsBeginning, IsStarted};

use crate::deployed::{identity_provider, service_provider};
use crash_disk::MemDisk;
use idp_server::{IdpNode, IdpRole};
use owned_values::NoMemory;
use provider_node::{ProviderNode, Role};
use saml_outside::Sink;
use schedule_replay::{ReplayFault, Tally, replay};
use schedules::Schedule;
use sp_server::{SpNode, SpRole};
use std::alloc::Global;

/// Lets no call of a disk fail or stop it, but by a schedule.
fn without_faults(disk: &mut MemDisk)
    ensures { disk.new ≡ record disk.old { failing = 0; stopping = 0; pick = 0; stopped = false } }
{
    disk.restart();
    disk.fail_at(0);
    disk.stop_at(0, 0);
}

/// Starts a provider over an empty disk. Where that fails, there was no memory.
fn start_over_empty<R: Role>(
    alloc: Global,
    role: R,
    disk: &mut MemDisk,
) -> Result<ProviderNode<R>, NoMemory>
    requires { disk.old ≡ holding empty_image }
    ensures setup { IfOk result (λ node. node.setup ≡ role) }
    ensures started { IfOk result (λ node. IsStarted R.Rows.rules (alone node disk.new)) }
    ensures own { IfOk result (λ node. OwnsDisk R.Rows.rules node (Some (state_of disk.new))) }
{
    let Ok(node) = ProviderNode::start(alloc, role, disk) else {
        return Err(NoMemory);
    };
    without_faults(disk);
    Ok(node)
}

/// Starts both providers, each over an empty disk. Where that fails, there was no memory.
fn start_both(
    alloc: Global,
    sp_disk: &mut MemDisk,
    idp_disk: &mut MemDisk,
) -> Result<(SpNode, IdpNode), NoMemory>
    requires sp_empty { sp_disk.old ≡ holding empty_image }
    requires idp_empty { idp_disk.old ≡ holding empty_image }
    ensures started { IfOk result (λ (sp, idp). IsBeginning (beginning (alone sp sp_disk.new) (alone idp idp_disk.new))) }
    ensures sp_own { IfOk result (λ (sp, idp). OwnsDisk request_rules sp (Some (state_of sp_disk.new))) }
    ensures idp_own { IfOk result (λ (sp, idp). OwnsDisk idp_rules idp (Some (state_of idp_disk.new))) }
{
    let sp = start_over_empty(alloc, service_provider(alloc)?, sp_disk)?;
    let idp = start_over_empty(alloc, identity_provider(alloc)?, idp_disk)?;
    Ok((sp, idp))
}

/// Replays a schedule over the deployment, and prints the lines of its steps and what they came to; with `quiet` the
/// last line alone.
///
/// # Errors
///
/// [`ReplayFault::WriteFault`], only where the sink's count of faults rose. [`ReplayFault::NoMemory`] may come in place
/// of any answer.
pub fn replay_deployed<K: Sink>(
    alloc: Global,
    schedule: &Schedule,
    quiet: bool,
    out: &mut K,
) -> Result<Tally, ReplayFault>
    // It goes so, with these starts of the two providers; and the whole sentence holds of them.
    ensures goes { (sp_starts : List (Start sp.Provider)) × (idp_starts : List (Start idp.Provider))
        × Goes schedule.now quiet sp_starts idp_starts result (K.taken out.old) (K.taken out.new)
        × Carries sp_starts idp_starts }
    ensures write_fault { result ≡ Err ReplayFault.WriteFault → Rose (K.faults_of out.old) (K.faults_of out.new) }
    ensures never_falls { K.faults_of out.old ≤ K.faults_of out.new }
{
    replay_starts::laws::a_replay_is_starts::<SpRole, IdpRole>();
    request_ledger::laws::images_hold_records();
    idp_ledger::laws::images_hold_records();
    both_providers::the_headline_holds_of_both();
    let mut sp_disk = MemDisk::new(alloc);
    let mut idp_disk = MemDisk::new(alloc);
    let (mut sp, mut idp) = match start_both(alloc, &mut sp_disk, &mut idp_disk) {
        Ok(both) => both,
        Err(NoMemory) => return Err(ReplayFault::NoMemory),
    };
    replay(
        alloc,
        schedule,
        &mut sp,
        &mut idp,
        &mut sp_disk,
        &mut idp_disk,
        quiet,
        out,
    )
}
