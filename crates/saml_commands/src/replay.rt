// Schedules are replayed.

ghost use Rattle.std.specs.Prelude.{◌≡◌, ◌≢◌, ◌≤◌, ◌⊎◌, length, true};
ghost use Rattle.saml_outside.specs.Counts.{Rose};
ghost use Rattle.schedules.specs.Made.{made};
ghost use Rattle.schedules.specs.declared.make.TheConstants.{MOST_LOGINS};
ghost use Rattle.schedules.specs.declared.read.TheConstants.{MAX_SCHEDULE_LENGTH};
ghost use Rattle.saml_commands.specs.Answers.{BadFile};
ghost use Rattle.saml_commands.specs.Replay.{DidReplay, DidReplayFile, DidReplayText, OfSchedule, status_of_replay};
ghost use Rattle.saml_commands.specs.Running.{Replay, EndsAfter, EndsWith, OfCommand};
ghost use Rattle.saml_commands.specs.Serving.{Ran};

use crate::answer::Answer;
use crate::limits::MOST_START;
use crate::status::Status;
use replay_runs::replay_deployed;
use saml_outside::{Files, NoMemory, ReadStop, Sink, read_file};
use schedule_replay::{ReplayFault, Tally};
use schedules::{MAX_SCHEDULE_LENGTH, Schedule, ScheduleFault, make_schedule, read_schedule};
use std::alloc::Global;

/// How a replay ends.
fn status_of(outcome: Result<Tally, ReplayFault>) -> Status
    ensures { result ≡ status_of_replay outcome }
{
    match outcome {
        Ok(_) => Status::Done,
        Err(ReplayFault::WriteFault) => Status::WriteFault,
        Err(ReplayFault::NoMemory) => Status::NoMemory,
    }
}

/// Prints that a line of a file, or with 0 the whole file, can't be used.
fn print_bad_line<K: Sink>(alloc: Global, file: &str, line: u64, out: &mut K) -> Status
    ensures ends { EndsWith (λ answer. answer ≡ BadFile file.now line) (K.taken out.old) (K.taken out.new) result }
    ensures no_read_fault { result ≢ Status.ReadFault }
    ensures write_fault { result ≡ Status.WriteFault → Rose (K.faults_of out.old) (K.faults_of out.new) }
    ensures never_falls { K.faults_of out.old ≤ K.faults_of out.new }
{
    match Answer::bad_file(alloc, file, line) {
        Ok(answer) => answer.print(alloc, out),
        Err(NoMemory) => Status::NoMemory,
    }
}

/// Replays a schedule, and prints the lines of its steps and what they came to, or with `quiet` that alone.
fn replay_steps<K: Sink>(alloc: Global, schedule: &Schedule, quiet: bool, out: &mut K) -> Status
    ensures goes { (ran : Ran) × DidReplay schedule.now quiet ran × EndsAfter ran (λ _. ⊥) (K.taken out.old) (K.taken out.new) result }
    ensures either { (result ≡ Status.Done) ⊎ (result ≡ Status.WriteFault) ⊎ (result ≡ Status.NoMemory) }
    ensures write_fault { result ≡ Status.WriteFault → Rose (K.faults_of out.old) (K.faults_of out.new) }
    ensures never_falls { K.faults_of out.old ≤ K.faults_of out.new }
{
    status_of(replay_deployed(alloc, schedule, quiet, out))
}

/// Replays the schedule of a text, or prints the number of its first bad line.
fn replay_text<K: Sink>(alloc: Global, file: &str, text: &[u8], out: &mut K) -> Status
    requires { length text.now ≤ MAX_SCHEDULE_LENGTH }
    ensures ends { (ran : Ran) × DidReplayText text.now ran
        × EndsAfter ran (OfSchedule file.now text.now) (K.taken out.old) (K.taken out.new) result }
    ensures no_read_fault { result ≢ Status.ReadFault }
    ensures write_fault { result ≡ Status.WriteFault → Rose (K.faults_of out.old) (K.faults_of out.new) }
    ensures never_falls { K.faults_of out.old ≤ K.faults_of out.new }
{
    match read_schedule(alloc, text) {
        Ok(schedule) => replay_steps(alloc, &schedule, false, out),
        Err(ScheduleFault::Line(line)) => print_bad_line(alloc, file, u64::from(line), out),
        Err(ScheduleFault::NoMemory) => Status::NoMemory,
    }
}

/// Replays the schedule in a file.
pub(crate) fn run_replay<F: Files, K: Sink>(
    alloc: Global,
    files: &mut F,
    out: &mut K,
    file: &str,
) -> Status
    ensures ends { (ran : Ran) × DidReplayFile (F.holds files.old) file.now ran
        × EndsAfter ran (OfCommand (F.holds files.old) ran (Replay file.now)) (K.taken out.old) (K.taken out.new) result }
    ensures same { F.holds files.new ≡ F.holds files.old }
    ensures read_fault { result ≡ Status.ReadFault → Rose (F.faults_of files.old) (F.faults_of files.new) }
    ensures write_fault { result ≡ Status.WriteFault → Rose (K.faults_of out.old) (K.faults_of out.new) }
    ensures no_disk_fault { result ≢ Status.DiskFault }
    ensures no_link_fault { result ≢ Status.LinkFault }
    ensures files_never_fall { F.faults_of files.old ≤ F.faults_of files.new }
    ensures out_never_falls { K.faults_of out.old ≤ K.faults_of out.new }
{
    match read_file(alloc, files, file, MAX_SCHEDULE_LENGTH as u64) {
        Ok(Some(text)) => replay_text(alloc, file, &text, out),
        Ok(None) => print_bad_line(alloc, file, 0, out),
        Err(ReadStop::ReadFault) => Status::ReadFault,
        Err(ReadStop::NoMemory) => Status::NoMemory,
    }
}

/// Replays the schedule of so many logins, 1 to [`MOST_LOGINS`](schedules::MOST_LOGINS), and prints what it came to.
pub(crate) fn run_make<K: Sink>(alloc: Global, out: &mut K, logins: u32, start: u32) -> Status
    requires some { 1 ≤ logins }
    requires few { logins ≤ MOST_LOGINS }
    requires start { start ≤ MOST_START }
    ensures ends { (ran : Ran) × DidReplay (made logins start) true ran
        × EndsAfter ran (λ _. ⊥) (K.taken out.old) (K.taken out.new) result }
    ensures either { (result ≡ Status.Done) ⊎ (result ≡ Status.WriteFault) ⊎ (result ≡ Status.NoMemory) }
    ensures write_fault { result ≡ Status.WriteFault → Rose (K.faults_of out.old) (K.faults_of out.new) }
    ensures never_falls { K.faults_of out.old ≤ K.faults_of out.new }
{
    match make_schedule(alloc, logins, start) {
        Ok(schedule) => replay_steps(alloc, &schedule, true, out),
        Err(NoMemory) => Status::NoMemory,
    }
}
