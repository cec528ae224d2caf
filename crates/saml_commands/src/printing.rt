// A sink as a place of the canonical form.

ghost use Rattle.std.specs.Prelude.{◌≡◌, ℕ, [], false, true, take, OnOk, OnErr};
ghost use Rattle.saml_commands.specs.Passing.{Appends, passing_of};
ghost use Rattle.saml_commands.specs.Composing.{appends_by_passing};

use canon_octets::Octets;
use owned_values::NoMemory;
use saml_outside::Sink;

/// So many bytes are kept at most before they are passed on.
const ROOM: usize = 8192;

/// Passes what is put on to a sink, by some kilobytes at a time. Once the sink has failed it takes nothing more.
#[derive(Drop)]
pub(crate) struct SinkOctets<'s, K> {
    pub(crate) out: &'s mut K,
    pub(crate) kept: &'s mut Vec<u8>,
    /// Whether the sink has failed.
    pub(crate) failed: bool,
}

impl<'s, K: Sink> SinkOctets<'s, K> {
    /// Nothing was put so far. It takes no memory.
    pub(crate) fn new(out: &'s mut K, kept: &'s mut Vec<u8>) -> SinkOctets<'s, K>
        requires none { kept.old.items ≡ [] }
        ensures same_reference { result.out.ghost_name ≡ out.entry.ghost_name }
        ensures sink { result.out.now ≡ out.old }
        ensures kept { result.kept.now.items ≡ [] }
        ensures whole { result.failed ≡ false }
    {
        SinkOctets {
            out,
            kept,
            failed: false,
        }
    }

    /// Passes on what is kept.
    pub(crate) fn flush(&mut self) -> Result<(), NoMemory>
        ensures same_reference { self.new.out.ghost_name ≡ self.old.out.ghost_name }
        ensures appends { Appends (passing_of K.taken K.faults_of self.old.out.now self.old.kept.now.items self.old.failed)
            (passing_of K.taken K.faults_of self.new.out.now self.new.kept.now.items self.new.failed) [] }
        ensures ok { OnOk result ((self.new.failed ≡ false) × (self.new.kept.now.items ≡ [])) }
        ensures err { OnErr result (self.new.failed ≡ true) }
    {
        if self.failed {
            return Err(NoMemory);
        }
        match self.out.put(self.kept) {
            Ok(()) => {
                self.kept.clear();
                Ok(())
            }
            Err(_) => {
                self.failed = true;
                Err(NoMemory)
            }
        }
    }

    /// Passes a piece on, where nothing is kept.
    fn pass(&mut self, bytes: &[u8]) -> Result<(), NoMemory>
        requires whole { self.old.failed ≡ false }
        requires none { self.old.kept.now.items ≡ [] }
        ensures same_reference { self.new.out.ghost_name ≡ self.old.out.ghost_name }
        ensures ok { OnOk result (Appends (passing_of K.taken K.faults_of self.old.out.now self.old.kept.now.items self.old.failed)
            (passing_of K.taken K.faults_of self.new.out.now self.new.kept.now.items self.new.failed) bytes.now) }
        ensures err { OnErr result ((n : ℕ) × Appends (passing_of K.taken K.faults_of self.old.out.now self.old.kept.now.items self.old.failed)
            (passing_of K.taken K.faults_of self.new.out.now self.new.kept.now.items self.new.failed) (take n bytes.now)) }
    {
        match self.out.put(bytes) {
            Ok(()) => Ok(()),
            Err(_) => {
                self.failed = true;
                Err(NoMemory)
            }
        }
    }

    /// Keeps a piece.
    fn keep(&mut self, bytes: &[u8]) -> Result<(), NoMemory>
        requires whole { self.old.failed ≡ false }
        ensures same_reference { self.new.out.ghost_name ≡ self.old.out.ghost_name }
        ensures ok { OnOk result (Appends (passing_of K.taken K.faults_of self.old.out.now self.old.kept.now.items self.old.failed)
            (passing_of K.taken K.faults_of self.new.out.now self.new.kept.now.items self.new.failed) bytes.now) }
        ensures err { OnErr result (Appends (passing_of K.taken K.faults_of self.old.out.now self.old.kept.now.items self.old.failed)
            (passing_of K.taken K.faults_of self.new.out.now self.new.kept.now.items self.new.failed) []) }
    {
        self.kept.extend_from_slice(bytes)?;
        Ok(())
    }
}

impl<'s, K: Sink> Octets for SinkOctets<'s, K> {
    ghost appends = { λ before after bytes. (after.out.ghost_name ≡ before.out.ghost_name)
        × Appends (passing_of K.taken K.faults_of before.out.now before.kept.now.items before.failed)
        (passing_of K.taken K.faults_of after.out.now after.kept.now.items after.failed) bytes };

    ghost may_refuse = { true };

    ghost composes = { appends_by_passing (λ p. p.out.ghost_name) (λ p. passing_of K.taken K.faults_of p.out.now p.kept.now.items p.failed) };

    /// It answers NoMemory too where the sink has failed.
    fn put(&mut self, bytes: &[u8]) -> Result<(), NoMemory> {
        if self.failed {
            return Err(NoMemory);
        }
        if bytes.len() < ROOM && self.kept.len() < ROOM - bytes.len() {
            return self.keep(bytes);
        }
        self.flush()?;
        self.pass(bytes)
    }
}
