// What `records ROLE` answers for the files of the folder.

ghost use Rattle.std.specs.Prelude.{◌≡◌, ◌≢◌, ◌≤◌, List, [], Ok, Err, false, IfOk, IsOk};
ghost use Rattle.saml_outside.specs.Counts.{Rose};
ghost use Rattle.record_ledger.specs.Rules.{records_of};
ghost use Rattle.record_lines.specs.Judging.{lines};
ghost use Rattle.saml_commands.specs.Answers.{Printed};
ghost use Rattle.saml_commands.specs.Records.{IsTaken, OfBoth, OfFirst, OfLedger, OfRecords, held_as};
ghost use Rattle.saml_commands.specs.Running.{EndsWith};

use crate::answer::Answer;
use crate::command::Role;
use crate::limits::GREATEST_JOURNAL;
use crate::printing::SinkOctets;
use crate::status::Status;
use crate::top_call::status_of;
use crash_disk::FileNo;
use gate_journal::{FileText, read_text};
use record_lines::{HubStanding, IdpStanding, Judged, Lines, SpRows, judge, put_lines};
use saml_outside::{Blob, FileRead, Files, NoMemory, ReadStop, Sink};
use std::alloc::Global;

/// The files of the journal.
const JOURNAL_0: &str = "journal.0";

const JOURNAL_1: &str = "journal.1";

/// Reads a file of the journal into `bytes`: whether it is not too long. An absent one counts as an empty one.
fn take_file<F: Files>(files: &mut F, name: &str, bytes: &mut Vec<u8>) -> Result<bool, ReadStop>
    ensures ok { IfOk result (λ fits. IsTaken (F.holds files.old) name.now fits bytes.new.items) }
    ensures same { F.holds files.new ≡ F.holds files.old }
    ensures err { result ≡ Err ReadStop.ReadFault → Rose (F.faults_of files.old) (F.faults_of files.new) }
    ensures never_falls { F.faults_of files.old ≤ F.faults_of files.new }
{
    match files.read_all(name, GREATEST_JOURNAL, bytes) {
        FileRead::Whole | FileRead::Absent => Ok(true),
        FileRead::TooLong => Ok(false),
        FileRead::Failed => Err(ReadStop::ReadFault),
        FileRead::NoMemory => Err(ReadStop::NoMemory),
    }
}

/// What a file of the journal holds, or the place of what is wrong.
fn held_in(fits: bool, bytes: &[u8]) -> Result<Option<FileText<'_>>, u64>
    ensures { result ≡ held_as fits bytes.now }
{
    if !fits {
        return Err(GREATEST_JOURNAL);
    }
    read_text(bytes)
}

/// Puts the lines of a journal into a sink.
fn put_whole<S: Lines, K: Sink>(
    alloc: Global,
    file: &FileText<'_>,
    place: &mut SinkOctets<'_, K>,
) -> Status
    requires are { IsOk (records_of S.rules file.now.version file.now.payloads) }
    requires none { place.old.kept.now.items ≡ [] }
    requires whole { place.old.failed ≡ false }
    ensures same_reference { place.new.out.ghost_name ≡ place.old.out.ghost_name }
    ensures ends { (records : List S.Record) → records_of S.rules file.now.version file.now.payloads ≡ Ok records →
        EndsWith (λ answer. answer ≡ Printed (lines S.line records)) (K.taken place.old.out.now) (K.taken place.new.out.now) result }
    ensures no_read_fault { result ≢ Status.ReadFault }
    ensures write_fault { result ≡ Status.WriteFault → Rose (K.faults_of place.old.out.now) (K.faults_of place.new.out.now) }
    ensures never_falls { K.faults_of place.old.out.now ≤ K.faults_of place.new.out.now }
{
    match put_lines::<S, SinkOctets<'_, K>>(alloc, file, place) {
        Ok(()) => match place.flush() {
            Ok(()) => Status::Done,
            Err(NoMemory) => Status::WriteFault,
        },
        Err(NoMemory) if place.failed => Status::WriteFault,
        Err(NoMemory) => Status::NoMemory,
    }
}

/// Prints the lines of a journal, piece by piece. Where memory runs out, a part of them may have been printed.
fn print_lines<S: Lines, K: Sink>(alloc: Global, file: &FileText<'_>, out: &mut K) -> Status
    requires { IsOk (records_of S.rules file.now.version file.now.payloads) }
    ensures ends { (records : List S.Record) → records_of S.rules file.now.version file.now.payloads ≡ Ok records →
        EndsWith (λ answer. answer ≡ Printed (lines S.line records)) (K.taken out.old) (K.taken out.new) result }
    ensures no_read_fault { result ≢ Status.ReadFault }
    ensures write_fault { result ≡ Status.WriteFault → Rose (K.faults_of out.old) (K.faults_of out.new) }
    ensures never_falls { K.faults_of out.old ≤ K.faults_of out.new }
{
    let mut room = Vec::new(alloc);
    let mut place = SinkOctets::new(out, &mut room);
    put_whole::<S, K>(alloc, file, &mut place)
}

/// Prints what two files are answered with that are not wrong by themselves.
fn print_both<S: Lines, K: Sink>(
    alloc: Global,
    zero: Option<FileText<'_>>,
    one: Option<FileText<'_>>,
    out: &mut K,
) -> Status
    ensures ends { EndsWith (OfBoth S.rules S.line zero.entry (Ok one.entry)) (K.taken out.old) (K.taken out.new) result }
    ensures no_read_fault { result ≢ Status.ReadFault }
    ensures write_fault { result ≡ Status.WriteFault → Rose (K.faults_of out.old) (K.faults_of out.new) }
    ensures never_falls { K.faults_of out.old ≤ K.faults_of out.new }
{
    match judge::<S>(alloc, zero, one) {
        Ok(Judged::Nothing) => Answer::Printed(Blob::new(alloc)).print(alloc, out),
        Ok(Judged::Records(file)) => print_lines::<S, K>(alloc, &file, out),
        Ok(Judged::Foreign { file, place }) => Answer::Foreign { file, place }.print(alloc, out),
        Err(NoMemory) => Status::NoMemory,
    }
}

/// Prints what the files are answered with, where this is what file 0 holds.
fn run_second<S: Lines, F: Files, K: Sink>(
    alloc: Global,
    zero: Option<FileText<'_>>,
    files: &mut F,
    out: &mut K,
) -> Status
    ensures ends { EndsWith (OfFirst S.rules S.line (F.holds files.old) (Ok zero.entry)) (K.taken out.old) (K.taken out.new) result }
    ensures same { F.holds files.new ≡ F.holds files.old }
    ensures read_fault { result ≡ Status.ReadFault → Rose (F.faults_of files.old) (F.faults_of files.new) }
    ensures write_fault { result ≡ Status.WriteFault → Rose (K.faults_of out.old) (K.faults_of out.new) }
    ensures files_never_fall { F.faults_of files.old ≤ F.faults_of files.new }
    ensures out_never_falls { K.faults_of out.old ≤ K.faults_of out.new }
{
    let mut bytes = Vec::new(alloc);
    let fits = match take_file(files, JOURNAL_1, &mut bytes) {
        Ok(fits) => fits,
        Err(stop) => return status_of(stop),
    };
    match held_in(fits, &bytes) {
        Ok(one) => print_both::<S, K>(alloc, zero, one, out),
        Err(place) => Answer::Foreign {
            file: FileNo::One,
            place,
        }
        .print(alloc, out),
    }
}

/// Prints what the files are answered with, as the journal of such a ledger.
fn run_first<S: Lines, F: Files, K: Sink>(alloc: Global, files: &mut F, out: &mut K) -> Status
    ensures ends { EndsWith (OfLedger S.rules S.line (F.holds files.old)) (K.taken out.old) (K.taken out.new) result }
    ensures same { F.holds files.new ≡ F.holds files.old }
    ensures read_fault { result ≡ Status.ReadFault → Rose (F.faults_of files.old) (F.faults_of files.new) }
    ensures write_fault { result ≡ Status.WriteFault → Rose (K.faults_of out.old) (K.faults_of out.new) }
    ensures files_never_fall { F.faults_of files.old ≤ F.faults_of files.new }
    ensures out_never_falls { K.faults_of out.old ≤ K.faults_of out.new }
{
    let mut bytes = Vec::new(alloc);
    let fits = match take_file(files, JOURNAL_0, &mut bytes) {
        Ok(fits) => fits,
        Err(stop) => return status_of(stop),
    };
    match held_in(fits, &bytes) {
        Ok(zero) => run_second::<S, F, K>(alloc, zero, files, out),
        Err(place) => Answer::Foreign {
            file: FileNo::Zero,
            place,
        }
        .print(alloc, out),
    }
}

/// Prints what `records` answers, by what the files tell.
pub(crate) fn run_records<F: Files, K: Sink>(
    alloc: Global,
    role: Role,
    files: &mut F,
    out: &mut K,
) -> Status
    ensures ends { EndsWith (OfRecords role (F.holds files.old)) (K.taken out.old) (K.taken out.new) result }
    ensures same { F.holds files.new ≡ F.holds files.old }
    ensures read_fault { result ≡ Status.ReadFault → Rose (F.faults_of files.old) (F.faults_of files.new) }
    ensures write_fault { result ≡ Status.WriteFault → Rose (K.faults_of out.old) (K.faults_of out.new) }
    ensures files_never_fall { F.faults_of files.old ≤ F.faults_of files.new }
    ensures out_never_falls { K.faults_of out.old ≤ K.faults_of out.new }
{
    match role {
        Role::Sp => run_first::<SpRows, F, K>(alloc, files, out),
        Role::Idp => run_first::<IdpStanding, F, K>(alloc, files, out),
        Role::Hub => run_first::<HubStanding, F, K>(alloc, files, out),
    }
}
