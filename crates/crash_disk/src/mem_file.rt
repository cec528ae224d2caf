//! A file of a disk in memory: what a read gives, and apart from it what the last sync left.
ghost use Rattle.std.specs.Prelude.{◌≡◌, ◌+◌, ◌<◌, ◌≤◌, ◌||◌, ℕ, max, nat_le, if◌then◌else◌, length, slice_index, vec_capacity, OnOk, OnErr, IfOk, []};
ghost use Rattle.crash_disk.specs.Disk.{after_write, after_cut, after_sync, settled, overwritten};
ghost use Rattle.crash_disk.specs.Ranges.{IsOutside, is_in};
ghost use Rattle.crash_disk.specs.Memory.{picked, marked};

use crate::range::{Range, copy_range, copy_ranges, mark_range, mark_ranges};
use owned_values::NoMemory;
use std::alloc::Global;
use std::marker::Model;

/// Puts bytes over what is there, and past the end. There has to be room for them.
fn overwrite(to: &mut Vec<u8>, at: usize, bytes: &[u8])
    requires place { at ≤ length to.old.items }
    requires room { at + length bytes.now ≤ vec_capacity to.old }
    ensures bytes { to.new.items ≡ overwritten to.old.items at bytes.now }
    ensures capacity { vec_capacity to.old ≤ vec_capacity to.new }
{
    let inside = bytes.len().min(to.len() - at);
    let _ = to.extend_from_slice(&bytes[inside..]);
    to[at..at + inside].copy_from_slice(&bytes[..inside]);
}

/// Gives `to` the length of `from`. There has to be room for it.
fn resize(from: &[u8], to: &mut Vec<u8>)
    requires room { length from.now ≤ vec_capacity to.old }
    ensures length { length to.new.items ≡ length from.now }
    ensures front { (i : ℕ) → i < length to.old.items → i < length from.now → slice_index to.new.items i ≡ slice_index to.old.items i }
    ensures capacity { vec_capacity to.old ≤ vec_capacity to.new }
{
    let len = to.len();
    if len < from.len() {
        let _ = to.extend_from_slice(&from[len..]);
    } else {
        to.truncate(from.len());
    }
}

/// Makes `to` equal to `from`, from which it differs only from the place `least` on and in these ranges.
fn level(from: &[u8], to: &mut Vec<u8>, least: usize, written: &[Range])
    requires from_long { least ≤ length from.now }
    requires to_long { least ≤ length to.old.items }
    requires elsewhere { (i : ℕ) → i < least → IsOutside i written.now → slice_index to.old.items i ≡ slice_index from.now i }
    requires room { length from.now ≤ vec_capacity to.old }
    ensures same { to.new.items ≡ from.now }
    ensures capacity { vec_capacity to.old ≤ vec_capacity to.new }
{
    resize(from, to);
    let end = from.len();
    copy_range(from, to, Range { start: least, end });
    copy_ranges(from, to, written);
}

/// Puts the byte 0x01 into each place from `least` on and in these ranges.
fn mark_pending(to: &mut Vec<u8>, least: usize, written: &[Range])
    ensures length { length to.new.items ≡ length to.old.items }
    ensures marked { (i : ℕ) → i < length to.old.items → slice_index to.new.items i ≡ (if nat_le least i || is_in i written.now then 1 else slice_index to.old.items i) }
    ensures capacity { vec_capacity to.new ≡ vec_capacity to.old }
{
    let end = to.len();
    mark_range(to, Range { start: least, end });
    mark_ranges(to, written);
}

/// A file of a disk in memory.
#[derive(Debug, Drop)]
pub struct MemFile {
    reads: Vec<u8>,
    kept: Vec<u8>,
    least: usize,
    greatest: usize,
    written: Vec<Range>,
}

impl Model for MemFile {
    ghost use Rattle.std.specs.Prelude.{◌≤◌, length, vec_capacity};
    ghost use Rattle.crash_disk.specs.Disk.{FileState};
    ghost use Rattle.crash_disk.specs.Memory.{IsSound};

    ghost Value = { FileState };

    ghost view = { λ f. record { reads = f.reads.items; kept = f.kept.items; least = f.least; greatest = f.greatest; written = f.written.items } };

    ghost invariant = { λ f. IsSound (record { reads = f.reads.items; kept = f.kept.items; least = f.least; greatest = f.greatest; written = f.written.items })
        × (length f.reads.items ≤ vec_capacity f.kept)
        × (length f.kept.items ≤ vec_capacity f.reads) };
}

impl MemFile {
    /// An empty file. It takes no memory.
    pub fn new(alloc: Global) -> MemFile
        ensures { result ≡ settled [] }
    {
        MemFile {
            reads: Vec::new(alloc),
            kept: Vec::new(alloc),
            least: 0,
            greatest: 0,
            written: Vec::new(alloc),
        }
    }

    /// A file that holds these bytes, all of them synced.
    pub fn of(alloc: Global, bytes: &[u8]) -> Result<MemFile, NoMemory>
        ensures { IfOk result (λ file. file ≡ settled bytes.now) }
    {
        Ok(MemFile {
            reads: Vec::from_slice(alloc, bytes)?,
            kept: Vec::from_slice(alloc, bytes)?,
            least: bytes.len(),
            greatest: bytes.len(),
            written: Vec::new(alloc),
        })
    }

    /// What a read gives.
    pub fn bytes(&self) -> &[u8]
        ensures { result.now ≡ self.now.reads }
    {
        self.reads.as_slice()
    }

    /// Writes, or leaves all as it was where there is no memory.
    pub fn write(&mut self, at: usize, bytes: &[u8]) -> Result<(), NoMemory>
        requires { at ≤ length self.old.reads }
        ensures ok { OnOk result (self.new ≡ after_write at bytes.now self.old) }
        ensures err { OnErr result (self.new ≡ self.old) }
    {
        let Some(end) = at.checked_add(bytes.len()) else {
            return Err(NoMemory);
        };
        let longest = end.max(self.reads.len());
        self.written.reserve(1)?;
        self.kept.reserve(longest.saturating_sub(self.kept.len()))?;
        self.reads.reserve(longest - self.reads.len())?;
        overwrite(&mut self.reads, at, bytes);
        let _ = self.written.push(Range { start: at, end });
        let len = self.reads.len();
        self.least = self.least.min(len);
        self.greatest = self.greatest.max(len);
        Ok(())
    }

    /// Cuts the file to a length.
    pub fn cut(&mut self, len: usize)
        ensures { self.new ≡ after_cut len self.old }
    {
        self.reads.truncate(len);
        let len = self.reads.len();
        self.least = self.least.min(len);
        self.greatest = self.greatest.max(len);
    }

    /// Keeps all changes. It copies what is pending, and nothing else.
    pub fn sync(&mut self)
        ensures { self.new ≡ after_sync self.old }
    {
        level(&self.reads, &mut self.kept, self.least, &self.written);
        self.least = self.reads.len();
        self.greatest = self.reads.len();
        self.written.clear();
    }

    /// Takes all changes back that were not synced.
    pub fn lose(&mut self)
        ensures { self.new ≡ settled self.old.kept }
    {
        level(&self.kept, &mut self.reads, self.least, &self.written);
        self.least = self.kept.len();
        self.greatest = self.kept.len();
        self.written.clear();
    }

    /// Keeps all changes, with the byte 0x01 at every place that was not synced.
    pub fn mark(&mut self)
        ensures { self.new ≡ settled (marked self.old) }
    {
        mark_pending(&mut self.reads, self.least, &self.written);
        self.sync();
    }

    /// Leaves what a stop with this pick leaves, all of it synced.
    pub fn stop(&mut self, pick: u8)
        ensures { self.new ≡ settled (picked pick self.old) }
    {
        match pick {
            0 => self.lose(),
            1 => self.sync(),
            _ => self.mark(),
        }
    }
}
