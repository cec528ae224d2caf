//! Files that the program reads.
ghost use Rattle.std.specs.Prelude.{◌≡◌, ◌^◌, ◌<◌, ◌≤◌, List, Option, ℕ};
ghost use Rattle.saml_outside.specs.Counts.{Rose};
ghost use Rattle.saml_outside.specs.Files.{File, Reads};

/// The answer of `Files::read_all`.
#[derive(Clone, Copy, Debug, PartialEq, Eq)]
pub enum FileRead {
    /// All of the file was read.
    Whole,
    /// There is no file of that name.
    Absent,
    /// The file has more bytes than the limit.
    TooLong,
    /// The reading failed, and the count of faults rose.
    Failed,
    /// There was no memory for the bytes.
    NoMemory,
}

/// Files by their names.
pub trait Files {
    /// The files, where the object tells what it holds.
    ghost holds: { Self → Option (List File) };

    /// How many faults there were.
    ghost faults_of: { Self → ℕ };

    /// Reads the file `name`, of at most `limit` bytes, into `into`. After Whole `into` holds the file's bytes, and
    /// after every other answer it is empty; what it held before is lost. Absent comes only where there is no file of
    /// that name, TooLong only where it has more than `limit` bytes, and Failed only where the count of faults rose.
    /// The memory is that of `into`.
    fn read_all(&mut self, name: &str, limit: u64, into: &mut Vec<u8>) -> FileRead
        ensures reads { Reads (holds self.old) name.now limit result into.new.items }
        ensures failed { result ≡ FileRead.Failed → Rose (faults_of self.old) (faults_of self.new) }
        ensures same { holds self.new ≡ holds self.old }
        ensures never_falls { faults_of self.old ≤ faults_of self.new }
        ensures in_range { faults_of self.new < 2 ^ 64 };

    /// How many faults there were. The count never falls, and stays at 2^64 - 1 once it is there.
    fn faults(&self) -> u64
        ensures { result ≡ faults_of self.now };
}
