//! A place that the program writes to.
ghost use Rattle.std.specs.Prelude.{◌≡◌, ◌^◌, ◌<◌, ◌≤◌, List, Option, ℕ, OnErr};
ghost use Rattle.saml_outside.specs.Counts.{Rose};
ghost use Rattle.saml_outside.specs.Sinks.{Puts};

/// A `put` failed. It took the first `sent` bytes of its piece, and no more.
#[derive(Clone, Copy, Debug, PartialEq, Eq)]
pub struct SinkFailed {
    /// How many bytes of the piece were taken.
    pub sent: usize,
}

/// A place that takes bytes one piece after another.
pub trait Sink {
    /// All the bytes that it has taken, where the object tells it.
    ghost taken: { Self → Option (List ℕ) };

    /// How many faults there were.
    ghost faults_of: { Self → ℕ };

    /// Appends all of `bytes`, or fails after the first `sent` of them; it fails only where the count of faults rose.
    /// A sink that takes nothing of a piece that is not empty has failed.
    fn put(&mut self, bytes: &[u8]) -> Result<(), SinkFailed>
        ensures puts { Puts (taken self.old) bytes.now result (taken self.new) }
        ensures failed { OnErr result (Rose (faults_of self.old) (faults_of self.new)) }
        ensures never_falls { faults_of self.old ≤ faults_of self.new }
        ensures in_range { faults_of self.new < 2 ^ 64 };

    /// How many faults there were. The count never falls, and stays at 2^64 - 1 once it is there.
    fn faults(&self) -> u64
        ensures { result ≡ faults_of self.now };
}
