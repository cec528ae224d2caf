// What the program does with its words.

ghost use Rattle.std.specs.Prelude.{◌≡◌, ◌≢◌, ◌≤◌, ◌⊎◌, length, IfOk, IsSome, Some, Err};
ghost use Rattle.std.specs.Option.{option_map};
ghost use Rattle.xml_spec.specs.declared.TheConstants.{MAX_DOCUMENT_LENGTH};
ghost use Rattle.crash_disk.specs.Moments.{LeavesOnly};
ghost use Rattle.saml_outside.specs.Counts.{Rose};
ghost use Rattle.provider_run.specs.Runs.{outside};
ghost use Rattle.saml_commands.specs.Check.{rows_of, OfJudged};
ghost use Rattle.saml_commands.specs.Vouch.{OfVouch};
ghost use Rattle.sp_setup.specs.declared.limits.TheConstants.{GREATEST_KEY};
ghost use Rattle.sp_setup.specs.Views.{IsWithinBounds};
ghost use Rattle.saml_commands.specs.Reading.{OfFile};
ghost use Rattle.saml_commands.specs.Running.{Canon, Vouch, Check, command_of, Does, DoesCommand, Carries, CommandCarries, OfCommand, Answers, EndsWith, EndsAfter, Accepts, AcceptsServing, DoesServe, IsRunnableBy};
ghost use Rattle.saml_commands.specs.Serving.{Ran, RanLeaves, Unserved};
ghost use Rattle.saml_commands.specs.Answers.{BadFile};
ghost use Rattle.saml_commands.specs.Views.{command_view, HasMoment};

use crate::answer::Answer;
use crate::canon::canon;
use crate::check::check;
use crate::command::{Command, command_of};
use crate::limits::GREATEST_BODY;
use crate::records::run_records;
use crate::replay::{run_make, run_replay};
use crate::serve::run_provider;
use crate::status::Status;
use crate::vouch::vouch;
use crash_disk::Disk;
use event_link::{Clock, Link};
use saml_outside::{Files, NoMemory, ReadStop, Sink, Text, read_file};
use saml_time::LAST;
use sp_setup::{GREATEST_KEY, Purpose, SetUp, SetupFault, set_up};
use std::alloc::Global;
use xml_spec::MAX_DOCUMENT_LENGTH;

/// How a run ends where nothing is known of a file.
pub(crate) fn status_of(stop: ReadStop) -> Status
    ensures fault { result ≡ Status.ReadFault → stop ≡ ReadStop.ReadFault }
    ensures either { (result ≡ Status.ReadFault) ⊎ (result ≡ Status.NoMemory) }
{
    match stop {
        ReadStop::ReadFault => Status::ReadFault,
        ReadStop::NoMemory => Status::NoMemory,
    }
}

/// Prints that a file can't be used.
fn print_bad_file<K: Sink>(alloc: Global, file: &str, out: &mut K) -> Status
    ensures ends { EndsWith (λ answer. answer ≡ BadFile file.now 0) (K.taken out.old) (K.taken out.new) result }
    ensures no_read_fault { result ≢ Status.ReadFault }
    ensures write_fault { result ≡ Status.WriteFault → Rose (K.faults_of out.old) (K.faults_of out.new) }
    ensures never_falls { K.faults_of out.old ≤ K.faults_of out.new }
{
    match Answer::bad_file(alloc, file, 0) {
        Ok(answer) => answer.print(alloc, out),
        Err(NoMemory) => Status::NoMemory,
    }
}

/// Prints what `canon` answers, by what the files tell.
fn run_canon<F: Files, K: Sink>(
    alloc: Global,
    files: &mut F,
    out: &mut K,
    file: &str,
    id: Option<&str>,
) -> Status
    ensures ends { EndsWith (OfCommand (F.holds files.old) Unserved
        (Canon file.now (option_map (λ text. text.now) id.entry))) (K.taken out.old) (K.taken out.new) result }
    ensures same { F.holds files.new ≡ F.holds files.old }
    ensures read_fault { result ≡ Status.ReadFault → Rose (F.faults_of files.old) (F.faults_of files.new) }
    ensures write_fault { result ≡ Status.WriteFault → Rose (K.faults_of out.old) (K.faults_of out.new) }
    ensures files_never_fall { F.faults_of files.old ≤ F.faults_of files.new }
    ensures out_never_falls { K.faults_of out.old ≤ K.faults_of out.new }
{
    let found = match read_file(alloc, files, file, MAX_DOCUMENT_LENGTH as u64) {
        Ok(found) => found,
        Err(stop) => return status_of(stop),
    };
    match found {
        Some(bytes) => canon(alloc, &bytes, id, out),
        None => print_bad_file(alloc, file, out),
    }
}

/// What `vouch` answers for the bytes of the document, by what the files tell of the key.
fn answer_with_key<F: Files>(
    alloc: Global,
    files: &mut F,
    bytes: &[u8],
    id: &str,
    key_file: &str,
) -> Result<Answer, ReadStop>
    requires { length bytes.now ≤ MAX_DOCUMENT_LENGTH }
    ensures ok { IfOk result (λ answer. OfFile (OfVouch id.now key_file.now bytes.now) (F.holds files.old) key_file.now GREATEST_KEY answer) }
    ensures same { F.holds files.new ≡ F.holds files.old }
    ensures err { result ≡ Err ReadStop.ReadFault → Rose (F.faults_of files.old) (F.faults_of files.new) }
    ensures never_falls { F.faults_of files.old ≤ F.faults_of files.new }
{
    match read_file(alloc, files, key_file, GREATEST_KEY)? {
        Some(key) => Ok(vouch(alloc, bytes, id, key_file, &key)?),
        None => Ok(Answer::bad_file(alloc, key_file, 0)?),
    }
}

/// What `vouch` answers, by what the files tell.
fn answer_vouch<F: Files>(
    alloc: Global,
    files: &mut F,
    file: &str,
    id: &str,
    key_file: &str,
) -> Result<Answer, ReadStop>
    ensures ok { IfOk result (λ answer. OfCommand (F.holds files.old) Unserved (Vouch file.now id.now key_file.now) answer) }
    ensures same { F.holds files.new ≡ F.holds files.old }
    ensures err { result ≡ Err ReadStop.ReadFault → Rose (F.faults_of files.old) (F.faults_of files.new) }
    ensures never_falls { F.faults_of files.old ≤ F.faults_of files.new }
{
    match read_file(alloc, files, file, MAX_DOCUMENT_LENGTH as u64)? {
        Some(bytes) => answer_with_key(alloc, files, &bytes, id, key_file),
        None => Ok(Answer::bad_file(alloc, file, 0)?),
    }
}

/// Prints what `vouch` answers, by what the files tell.
fn run_vouch<F: Files, K: Sink>(
    alloc: Global,
    files: &mut F,
    out: &mut K,
    file: &str,
    id: &str,
    key_file: &str,
) -> Status
    ensures ends { EndsWith (OfCommand (F.holds files.old) Unserved (Vouch file.now id.now key_file.now)) (K.taken out.old) (K.taken out.new) result }
    ensures same { F.holds files.new ≡ F.holds files.old }
    ensures read_fault { result ≡ Status.ReadFault → Rose (F.faults_of files.old) (F.faults_of files.new) }
    ensures write_fault { result ≡ Status.WriteFault → Rose (K.faults_of out.old) (K.faults_of out.new) }
    ensures files_never_fall { F.faults_of files.old ≤ F.faults_of files.new }
    ensures out_never_falls { K.faults_of out.old ≤ K.faults_of out.new }
{
    match answer_vouch(alloc, files, file, id, key_file) {
        Ok(answer) => answer.print(alloc, out),
        Err(stop) => status_of(stop),
    }
}

/// What `check` answers for a provider that is set up, by what the files tell of the form.
fn answer_form<F: Files>(
    alloc: Global,
    files: &mut F,
    setup: SetUp,
    body: &str,
    now: u64,
) -> Result<Answer, ReadStop>
    requires now { now ≤ LAST }
    requires bounds { IsWithinBounds setup }
    ensures ok { IfOk result (λ answer.
        OfFile (OfJudged (rows_of setup.asked.items setup.opened.items) setup.config now)
        (F.holds files.old) body.now GREATEST_BODY answer) }
    ensures same { F.holds files.new ≡ F.holds files.old }
    ensures err { result ≡ Err ReadStop.ReadFault → Rose (F.faults_of files.old) (F.faults_of files.new) }
    ensures never_falls { F.faults_of files.old ≤ F.faults_of files.new }
{
    match read_file(alloc, files, body, GREATEST_BODY)? {
        Some(bytes) => Ok(check(alloc, setup, now, &bytes)?),
        None => Ok(Answer::bad_file(alloc, body, 0)?),
    }
}

/// What `check` answers, by what the files tell.
fn answer_check<F: Files>(
    alloc: Global,
    files: &mut F,
    config: &str,
    body: &str,
    now: u64,
) -> Result<Answer, ReadStop>
    requires { now ≤ LAST }
    ensures ok { IfOk result (λ answer. OfCommand (F.holds files.old) Unserved (Check config.now body.now now) answer) }
    ensures same { F.holds files.new ≡ F.holds files.old }
    ensures err { result ≡ Err ReadStop.ReadFault → Rose (F.faults_of files.old) (F.faults_of files.new) }
    ensures never_falls { F.faults_of files.old ≤ F.faults_of files.new }
{
    match set_up(alloc, files, config, Purpose::Check) {
        Ok(setup) => answer_form(alloc, files, setup, body, now),
        Err(SetupFault::BadFile { file, line }) => Ok(Answer::BadFile { file, line }),
        Err(SetupFault::ReadFault) => Err(ReadStop::ReadFault),
        Err(SetupFault::NoMemory) => Err(ReadStop::NoMemory),
    }
}

/// Prints what `check` answers, by what the files tell.
fn run_check<F: Files, K: Sink>(
    alloc: Global,
    files: &mut F,
    out: &mut K,
    config: &str,
    body: &str,
    now: u64,
) -> Status
    requires { now ≤ LAST }
    ensures ends { EndsWith (OfCommand (F.holds files.old) Unserved (Check config.now body.now now)) (K.taken out.old) (K.taken out.new) result }
    ensures same { F.holds files.new ≡ F.holds files.old }
    ensures read_fault { result ≡ Status.ReadFault → Rose (F.faults_of files.old) (F.faults_of files.new) }
    ensures write_fault { result ≡ Status.WriteFault → Rose (K.faults_of out.old) (K.faults_of out.new) }
    ensures files_never_fall { F.faults_of files.old ≤ F.faults_of files.new }
    ensures out_never_falls { K.faults_of out.old ≤ K.faults_of out.new }
{
    match answer_check(alloc, files, config, body, now) {
        Ok(answer) => answer.print(alloc, out),
        Err(stop) => status_of(stop),
    }
}

/// Does what a command asks for, and prints what it answers, by what the files tell.
fn run_command<L: Link, D: Disk, C: Clock, F: Files, K: Sink>(
    alloc: Global,
    command: Command<'_>,
    link: &mut L,
    disk: &mut D,
    clock: &mut C,
    files: &mut F,
    out: &mut K,
) -> Status
    requires { HasMoment command }
    ensures ends { let before = outside (D.shows disk.old) (L.shows link.old) (C.to_come clock.old) in
        let after = outside (D.shows disk.new) (L.shows link.new) (C.to_come clock.new) in
        (ran : Ran)
        × DoesCommand (D.shows disk.new).left_since (F.holds files.old) (command_view command.entry) before ran after
        × CommandCarries (D.shows disk.new).left_since (F.holds files.old) (command_view command.entry) before ran after
        × EndsAfter ran (OfCommand (F.holds files.old) ran (command_view command.entry)) (K.taken out.old) (K.taken out.new) result
        × LeavesOnly D.shows disk.old disk.new (RanLeaves (D.shows disk.old).told ran) }
    ensures read_fault { result ≡ Status.ReadFault → Rose (F.faults_of files.old) (F.faults_of files.new) }
    ensures write_fault { result ≡ Status.WriteFault → Rose (K.faults_of out.old) (K.faults_of out.new) }
    ensures disk_fault { result ≡ Status.DiskFault →
        DoesServe (Some (command_view command.entry)) × Rose (D.shows disk.old).faults (D.shows disk.new).faults }
    ensures link_fault { result ≡ Status.LinkFault →
        DoesServe (Some (command_view command.entry)) × Rose (L.shows link.old).faults (L.shows link.new).faults }
    ensures complete { IsRunnableBy (F.holds files.old) (D.shows disk.old).told (command_view command.entry) →
        ¬ (Rose (F.faults_of files.old) (F.faults_of files.new)) →
        ¬ (Rose (K.faults_of out.old) (K.faults_of out.new)) →
        ¬ (Rose (L.shows link.old).faults (L.shows link.new).faults) → result ≢ Status.DiskFault →
        (result ≡ Status.Done) ⊎ (result ≡ Status.NoMemory) }
    ensures untouched { ¬ (DoesServe (Some (command_view command.entry))) → (link.new ≡ link.old) × (disk.new ≡ disk.old) × (clock.new ≡ clock.old) }
    ensures same { F.holds files.new ≡ F.holds files.old }
    ensures files_never_fall { F.faults_of files.old ≤ F.faults_of files.new }
    ensures out_never_falls { K.faults_of out.old ≤ K.faults_of out.new }
    ensures disk_never_falls { (D.shows disk.old).faults ≤ (D.shows disk.new).faults }
    ensures link_never_falls { (L.shows link.old).faults ≤ (L.shows link.new).faults }
{
    match command {
        Command::Canon { file, id } => run_canon(alloc, files, out, file, id),
        Command::Vouch { file, id, key_file } => run_vouch(alloc, files, out, file, id, key_file),
        Command::Check { config, body, now } => run_check(alloc, files, out, config, body, now),
        Command::Records { role } => run_records(alloc, role, files, out),
        Command::Serve {
            role,
            config,
            events,
        } => run_provider(alloc, role, config, events, link, disk, clock, files, out),
        Command::Replay { file } => run_replay(alloc, files, out, file),
        Command::Make { logins, start } => run_make(alloc, out, logins, start),
    }
}

/// Runs the program for these words, over this link, disk and clock, these files and this output, and says how it ended.
///
/// The commands `sp`, `idp` and `hub` run a service provider, an identity provider and a hub; they may end early where the disk
/// fails while the ledger is opened, or the link fails. All other commands leave link, disk and clock as they are.
pub fn run<L: Link, D: Disk, C: Clock, F: Files, K: Sink>(
    alloc: Global,
    words: &[Text],
    link: &mut L,
    disk: &mut D,
    clock: &mut C,
    files: &mut F,
    out: &mut K,
) -> Status
    // What was done is what the words ask for: a service provider opened sessions exactly where a posted form opens one, each of a
    // login that was signed, and no two of one request; an identity provider issued each Assertion to a user with a password or a
    // session, and signed nothing but what its durable records stand for; a hub passed a login from above on exactly where a posted
    // form brings it for a request of a provider below, and no two for one request upwards. Of a schedule that was replayed the whole
    // sentence holds that joins both providers. From each point of a service on, also inside later requests, each image that a crash
    // might leave has in its history the records for which the answers up to that point stand, where the disk tells. What was answered
    // is what the words ask for, and a crash at any moment leaves of the disk what one inside the opening of a ledger or inside an
    // answer may leave.
    ensures ends { let before = outside (D.shows disk.old) (L.shows link.old) (C.to_come clock.old) in
        let after = outside (D.shows disk.new) (L.shows link.new) (C.to_come clock.new) in
        (ran : Ran)
        × Does (D.shows disk.new).left_since words.now (F.holds files.old) before ran after
        × Carries (D.shows disk.new).left_since words.now (F.holds files.old) before ran after
        × EndsAfter ran (Answers words.now (F.holds files.old) ran) (K.taken out.old) (K.taken out.new) result
        × LeavesOnly D.shows disk.old disk.new (RanLeaves (D.shows disk.old).told ran) }

    // Each fault has a cause.
    ensures read_fault { result ≡ Status.ReadFault →
        IsSome (command_of words.now) × Rose (F.faults_of files.old) (F.faults_of files.new) }
    ensures write_fault { result ≡ Status.WriteFault → Rose (K.faults_of out.old) (K.faults_of out.new) }
    ensures disk_fault { result ≡ Status.DiskFault →
        DoesServe (command_of words.now) × Rose (D.shows disk.old).faults (D.shows disk.new).faults }
    ensures link_fault { result ≡ Status.LinkFault →
        DoesServe (command_of words.now) × Rose (L.shows link.old).faults (L.shows link.new).faults }

    // It does not give up by itself, but for want of memory.
    ensures complete { Accepts words.now (F.holds files.old) →
        ¬ (Rose (F.faults_of files.old) (F.faults_of files.new)) → ¬ (Rose (K.faults_of out.old) (K.faults_of out.new)) →
        (result ≡ Status.Done) ⊎ (result ≡ Status.NoMemory) }
    // Nor where it serves, but where the disk failed while the ledger was opened.
    ensures complete_serving { AcceptsServing words.now (F.holds files.old) (D.shows disk.old).told →
        ¬ (Rose (F.faults_of files.old) (F.faults_of files.new)) → ¬ (Rose (K.faults_of out.old) (K.faults_of out.new)) →
        ¬ (Rose (L.shows link.old).faults (L.shows link.new).faults) → result ≢ Status.DiskFault →
        (result ≡ Status.Done) ⊎ (result ≡ Status.NoMemory) }

    // Only a command that serves touches the link, the disk and the clock.
    ensures untouched { ¬ (DoesServe (command_of words.now)) → (link.new ≡ link.old) × (disk.new ≡ disk.old) × (clock.new ≡ clock.old) }

    // The files hold what they held, and no count falls.
    ensures same { F.holds files.new ≡ F.holds files.old }
    ensures files_never_fall { F.faults_of files.old ≤ F.faults_of files.new }
    ensures out_never_falls { K.faults_of out.old ≤ K.faults_of out.new }
    ensures disk_never_falls { (D.shows disk.old).faults ≤ (D.shows disk.new).faults }
    ensures link_never_falls { (L.shows link.old).faults ≤ (L.shows link.new).faults }
{
    sp_rules::laws::a_form_has_one_verdict();
    sp_setup::laws::a_config_has_one_outcome();
    match command_of(words) {
        Some(command) => run_command(alloc, command, link, disk, clock, files, out),
        None => Answer::Usage.print(alloc, out),
    }
}
