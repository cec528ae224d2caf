//! Places that take bytes.
ghost use Rattle.std.specs.Prelude.{◌≡◌, ℕ, ◌++◌, List, OnOk, OnErr, true, IsTrue, Bool};
ghost use Rattle.canon_octets.specs.Places.{IsAppending, AppendsPart};
ghost use Rattle.canon_octets.specs.Composing.{appends_to_view};

use owned_values::NoMemory;

/// Bytes in memory.
pub use owned_values::Blob as ByteList;

/// A place that takes bytes one piece after another.
pub trait Octets {
    /// From the earlier state to the later one, these bytes were appended.
    ghost appends: { Self → Self → List ℕ → Type 0 };

    /// Whether it may refuse a piece, for want of memory or of room.
    ghost may_refuse: { Bool };

    /// Appends all of `bytes`.
    ///
    /// # Errors
    ///
    /// `NoMemory`, where memory runs out, or the room of a place that takes so many bytes and no more: a part of them
    /// from the first on may have been appended.
    fn put(&mut self, bytes: &[u8]) -> Result<(), NoMemory>
        ensures ok { OnOk result (appends self.old self.new bytes.now) }
        ensures err { OnErr result (AppendsPart appends self.old self.new bytes.now) }
        ensures refusing { OnErr result (IsTrue may_refuse) };

    /// Bytes that are appended one after the other are appended together.
    ghost composes: { IsAppending appends };
}

impl Octets for ByteList {
    ghost appends = { λ before after bytes. after ≡ before ++ bytes };

    ghost may_refuse = { true };

    ghost composes = { appends_to_view (λ list. list) };

    /// Where memory runs out, nothing was appended.
    fn put(&mut self, bytes: &[u8]) -> Result<(), NoMemory>
        ensures ok { OnOk result (self.new ≡ self.old ++ bytes.now) }
        ensures err { OnErr result (self.new ≡ self.old) }
    {
        self.push(bytes)
    }
}

impl Octets for Vec<u8> {
    ghost appends = { λ before after bytes. after.items ≡ before.items ++ bytes };

    ghost may_refuse = { true };

    ghost composes = { appends_to_view (λ list. list.items) };

    /// Where memory runs out, nothing was appended.
    fn put(&mut self, bytes: &[u8]) -> Result<(), NoMemory>
        ensures ok { OnOk result (self.new.items ≡ self.old.items ++ bytes.now) }
        ensures err { OnErr result (self.new.items ≡ self.old.items) }
    {
        self.extend_from_slice(bytes)?;
        Ok(())
    }
}
