// What `sp`, `idp` and `hub` do and print.

ghost use Rattle.std.specs.Prelude.{◌≡◌, ◌≢◌, ◌≤◌, ◌⊎◌, Err, IfOk, codes, if◌then◌else◌};
ghost use Rattle.crash_disk.specs.Moments.{LeavesOnly};
ghost use Rattle.saml_outside.specs.Counts.{Rose};
ghost use Rattle.provider_run.specs.Runs.{IsServed, outside};
ghost use Rattle.saml_commands.specs.Running.{Serve, DoesCommand, CommandCarries, OfCommand, EndsWith, EndsAfter};
ghost use Rattle.saml_commands.specs.Serving.{HeadlineAs, IsRunnableAs, Ran, RanLeaves, RunLeavesAs, RunsAs, TurnsOf, served_line, answer_of, status_of_fault};

use crate::answer::Answer;
use crate::command::Role;
use crate::status::Status;
use crash_disk::Disk;
use event_link::{Clock, Link};
use hub_runs::Hub;
use idp_runs::IdentityProvider;
use provider_run::{Ended, RunFault, run};
use saml_outside::{Blob, Files, NoMemory, Sink};
use serve_loop::Served;
use sp_runs::ServiceProvider;
use std::alloc::Global;

/// Why serving ended.
fn why_ended(stopped: bool) -> &'static str
    ensures { result.now ≡ (if stopped then codes "stopped" else codes "budget") }
{
    if stopped { "stopped" } else { "budget" }
}

/// What is printed where serving came to its end.
fn served_line(alloc: Global, served: Served) -> Result<Blob, NoMemory>
    ensures { IfOk result (λ text. text ≡ served_line served) }
{
    let events = served.events;
    let why = why_ended(served.stopped);
    let line = format!(in alloc; "served {events} {why}\n")?;
    Blob::of(alloc, line.as_bytes())
}

/// What a run that came to an end is answered with.
fn answer_of(alloc: Global, ended: Ended) -> Result<Answer, NoMemory>
    ensures { IfOk result (λ answer. answer ≡ answer_of ended) }
{
    match ended {
        Ended::BadFile { file, line } => Ok(Answer::BadFile { file, line }),
        Ended::Foreign { file, place } => Ok(Answer::Foreign { file, place }),
        Ended::Served(served) => Ok(Answer::Printed(served_line(alloc, served)?)),
    }
}

/// Prints what a run came to.
fn print_ended<K: Sink>(alloc: Global, ended: Ended, out: &mut K) -> Status
    ensures ends { EndsWith (λ answer. answer ≡ answer_of ended) (K.taken out.old) (K.taken out.new) result }
    ensures no_read_fault { result ≢ Status.ReadFault }
    ensures write_fault { result ≡ Status.WriteFault → Rose (K.faults_of out.old) (K.faults_of out.new) }
    ensures never_falls { K.faults_of out.old ≤ K.faults_of out.new }
{
    match answer_of(alloc, ended) {
        Ok(answer) => answer.print(alloc, out),
        Err(NoMemory) => Status::NoMemory,
    }
}

/// The status of a run that ended early.
fn status_of_fault(fault: RunFault) -> Status
    ensures { result ≡ status_of_fault fault }
{
    match fault {
        RunFault::ReadFault => Status::ReadFault,
        RunFault::DiskFault => Status::DiskFault,
        RunFault::LinkFault => Status::LinkFault,
        RunFault::NoMemory => Status::NoMemory,
    }
}

/// Runs a provider of this role by the config in a file, until `events` were taken or the link gives Stop.
fn run_as<F: Files, L: Link, D: Disk, C: Clock>(
    alloc: Global,
    role: Role,
    files: &mut F,
    config: &str,
    link: &mut L,
    disk: &mut D,
    clock: &mut C,
    events: u64,
) -> Result<Ended, RunFault>
    ensures runs { let before = outside (D.shows disk.old) (L.shows link.old) (C.to_come clock.old) in
        let after = outside (D.shows disk.new) (L.shows link.new) (C.to_come clock.new) in
        (turns : TurnsOf role)
        × RunsAs role (D.shows disk.new).left_since (F.holds files.old) config.now events before turns result after
        × HeadlineAs role (D.shows disk.new).left_since (F.holds files.old) config.now before turns after
        × LeavesOnly D.shows disk.old disk.new (RunLeavesAs role (D.shows disk.old).told turns) }
    ensures read_fault { result ≡ Err RunFault.ReadFault → Rose (F.faults_of files.old) (F.faults_of files.new) }
    ensures disk_fault { result ≡ Err RunFault.DiskFault → Rose (D.shows disk.old).faults (D.shows disk.new).faults }
    ensures link_fault { result ≡ Err RunFault.LinkFault → Rose (L.shows link.old).faults (L.shows link.new).faults }
    ensures complete { IsRunnableAs role (F.holds files.old) config.now (D.shows disk.old).told → ¬ (Rose (F.faults_of files.old) (F.faults_of files.new)) →
        ¬ (Rose (L.shows link.old).faults (L.shows link.new).faults) → result ≢ Err RunFault.DiskFault → IsServed result ⊎ (result ≡ Err RunFault.NoMemory) }
    ensures same { F.holds files.new ≡ F.holds files.old }
    ensures files_never_fall { F.faults_of files.old ≤ F.faults_of files.new }
    ensures disk_never_falls { (D.shows disk.old).faults ≤ (D.shows disk.new).faults }
    ensures link_never_falls { (L.shows link.old).faults ≤ (L.shows link.new).faults }
{
    match role {
        Role::Sp => run::<ServiceProvider, F, L, D, C>(
            alloc, files, config, link, disk, clock, events,
        ),
        Role::Idp => run::<IdentityProvider, F, L, D, C>(
            alloc, files, config, link, disk, clock, events,
        ),
        Role::Hub => run::<Hub, F, L, D, C>(alloc, files, config, link, disk, clock, events),
    }
}

/// Runs a provider of this role, and prints what the run came to.
pub(crate) fn run_provider<L: Link, D: Disk, C: Clock, F: Files, K: Sink>(
    alloc: Global,
    role: Role,
    config: &str,
    events: u64,
    link: &mut L,
    disk: &mut D,
    clock: &mut C,
    files: &mut F,
    out: &mut K,
) -> Status
    ensures ends { let before = outside (D.shows disk.old) (L.shows link.old) (C.to_come clock.old) in
        let after = outside (D.shows disk.new) (L.shows link.new) (C.to_come clock.new) in
        (ran : Ran)
        × DoesCommand (D.shows disk.new).left_since (F.holds files.old) (Serve role config.now events) before ran after
        × CommandCarries (D.shows disk.new).left_since (F.holds files.old) (Serve role config.now events) before ran after
        × EndsAfter ran (OfCommand (F.holds files.old) ran (Serve role config.now events)) (K.taken out.old) (K.taken out.new) result
        × LeavesOnly D.shows disk.old disk.new (RanLeaves (D.shows disk.old).told ran) }
    ensures read_fault { result ≡ Status.ReadFault → Rose (F.faults_of files.old) (F.faults_of files.new) }
    ensures write_fault { result ≡ Status.WriteFault → Rose (K.faults_of out.old) (K.faults_of out.new) }
    ensures disk_fault { result ≡ Status.DiskFault → Rose (D.shows disk.old).faults (D.shows disk.new).faults }
    ensures link_fault { result ≡ Status.LinkFault → Rose (L.shows link.old).faults (L.shows link.new).faults }
    ensures complete { IsRunnableAs role (F.holds files.old) config.now (D.shows disk.old).told → ¬ (Rose (F.faults_of files.old) (F.faults_of files.new)) →
        ¬ (Rose (K.faults_of out.old) (K.faults_of out.new)) → ¬ (Rose (L.shows link.old).faults (L.shows link.new).faults) → result ≢ Status.DiskFault →
        (result ≡ Status.Done) ⊎ (result ≡ Status.NoMemory) }
    ensures same { F.holds files.new ≡ F.holds files.old }
    ensures files_never_fall { F.faults_of files.old ≤ F.faults_of files.new }
    ensures out_never_falls { K.faults_of out.old ≤ K.faults_of out.new }
    ensures disk_never_falls { (D.shows disk.old).faults ≤ (D.shows disk.new).faults }
    ensures link_never_falls { (L.shows link.old).faults ≤ (L.shows link.new).faults }
{
    match run_as(alloc, role, files, config, link, disk, clock, events) {
        Ok(ended) => print_ended(alloc, ended, out),
        Err(fault) => status_of_fault(fault),
    }
}
