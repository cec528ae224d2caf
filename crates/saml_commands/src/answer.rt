// What the program answers, and how it is printed.

ghost use Rattle.std.specs.Prelude.{◌≡◌, ◌≢◌, ◌≤◌, IfOk};
ghost use Rattle.saml_outside.specs.Counts.{Rose};
ghost use Rattle.saml_commands.specs.Answers.{BadFile, Foreign, file_number, text_of, status_of};
ghost use Rattle.saml_commands.specs.Running.{EndsWith};

use crate::status::Status;
use crash_disk::FileNo;
use saml_outside::{Blob, NoMemory, Sink, Text, Verdict};
use std::alloc::Global;

/// What a command answers.
#[derive(Debug, Drop)]
pub(crate) enum Answer {
    /// The definition of the command says yes, and this is printed.
    Printed(Blob),
    /// The verdict on a message, a document or an element.
    Refused(Verdict),
    /// A named file can't be used: the line, or 0 for the whole file.
    BadFile { file: Text, line: u64 },
    /// What a file of the disk holds is no ledger, and the place in it of what is wrong, in bytes.
    Foreign { file: FileNo, place: u64 },
    /// The words are no command.
    Usage,
}

impl Answer {
    /// That this line of a file, or with 0 the whole file, can't be used.
    pub(crate) fn bad_file(alloc: Global, file: &str, line: u64) -> Result<Answer, NoMemory>
        ensures { IfOk result (λ answer. answer ≡ BadFile file.now line) }
    {
        let file = Text::of(alloc, file)?;
        Ok(Answer::BadFile { file, line })
    }

    /// All that is printed.
    fn text(&self, alloc: Global) -> Result<Blob, NoMemory>
        ensures { IfOk result (λ text. text ≡ text_of self.now) }
    {
        match self {
            Answer::Printed(text) => text.copy(),
            Answer::Refused(verdict) => refusal(alloc, *verdict),
            Answer::BadFile { file, line } => bad_file(alloc, file.as_str(), *line),
            Answer::Foreign { file, place } => foreign(alloc, *file, *place),
            Answer::Usage => Blob::of(alloc, b"usage\n"),
        }
    }

    /// How the run ends.
    fn status(&self) -> Status
        ensures { result ≡ status_of self.now }
    {
        match self {
            Answer::Printed(_) => Status::Done,
            Answer::Refused(_) => Status::Refused,
            Answer::BadFile { .. } => Status::BadInput,
            Answer::Foreign { .. } => Status::ForeignJournal,
            Answer::Usage => Status::Usage,
        }
    }

    /// Prints the answer, and says how the run ends.
    pub(crate) fn print<K: Sink>(&self, alloc: Global, out: &mut K) -> Status
        ensures ends { EndsWith (λ answer. answer ≡ self.now) (K.taken out.old) (K.taken out.new) result }
        ensures no_read_fault { result ≢ Status.ReadFault }
        ensures write_fault { result ≡ Status.WriteFault → Rose (K.faults_of out.old) (K.faults_of out.new) }
        ensures never_falls { K.faults_of out.old ≤ K.faults_of out.new }
    {
        let Ok(text) = self.text(alloc) else {
            return Status::NoMemory;
        };
        match out.put(text.as_slice()) {
            Ok(()) => self.status(),
            Err(_) => Status::WriteFault,
        }
    }
}

/// The line of a refusal.
fn refusal(alloc: Global, verdict: Verdict) -> Result<Blob, NoMemory>
    ensures { IfOk result (λ text. text ≡ text_of (Answer.Refused verdict)) }
{
    let number = verdict.number();
    let name = verdict.name();
    let line = format!(in alloc; "refused {number} {name}\n")?;
    Blob::of(alloc, line.as_bytes())
}

/// The line of a file that can't be used.
fn bad_file(alloc: Global, file: &str, line: u64) -> Result<Blob, NoMemory>
    ensures { IfOk result (λ text. text ≡ text_of (BadFile file.now line)) }
{
    let text = format!(in alloc; "bad {file} {line}\n")?;
    Blob::of(alloc, text.as_bytes())
}

/// The number of a file of the disk.
fn file_number(file: FileNo) -> u8
    ensures { result ≡ file_number file }
{
    match file {
        FileNo::Zero => 0,
        FileNo::One => 1,
    }
}

/// The line of a disk that holds no ledger.
fn foreign(alloc: Global, file: FileNo, place: u64) -> Result<Blob, NoMemory>
    ensures { IfOk result (λ text. text ≡ text_of (Foreign file place)) }
{
    let number = file_number(file);
    let text = format!(in alloc; "foreign {number} {place}\n")?;
    Blob::of(alloc, text.as_bytes())
}
