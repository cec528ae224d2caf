//! A disk in memory.
ghost use Rattle.std.specs.Prelude.{◌≡◌, ◌<◌, ◌≤◌, ◌^◌, ◌++◌, ◌∷◌, [], Some, length, drop, true, false, IsTrue, IfSome, IfOk, OnOk, OnErr};
ghost use Rattle.crash_disk.specs.Counts.{CountsFaults, one_more};
ghost use Rattle.crash_disk.specs.Disk.{Changes, changed, begun, files, empty_image, reads_of, read_from};
ghost use Rattle.crash_disk.specs.InMemory.{shown_in_memory};
ghost use Rattle.crash_disk.specs.Moments.{Elapses};
ghost use Rattle.crash_disk.specs.Memory.{after_taken, holding, state_of, IsAllowed, Calls, faulted, starved_by_call};

use crate::mem_file::MemFile;
use crate::{Change, Disk, Failed, FileNo, Taken};
use owned_values::{Blob, NoMemory};
use std::alloc::Global;
use std::marker::Model;

/// Does what a changing call asks of the two files, or leaves them as they were where there is no memory.
fn apply(zero: &mut MemFile, one: &mut MemFile, change: &Change) -> Result<(), NoMemory>
    requires { IsAllowed change.now (files zero.old one.old) }
    ensures ok { OnOk result (files zero.new one.new ≡ changed change.now (files zero.old one.old)) }
    ensures zero_err { OnErr result (zero.new ≡ zero.old) }
    ensures one_err { OnErr result (one.new ≡ one.old) }
{
    match change {
        Change::Write(FileNo::Zero, at, bytes) => zero.write(*at as usize, bytes.as_slice()),
        Change::Write(FileNo::One, at, bytes) => one.write(*at as usize, bytes.as_slice()),
        Change::Cut(FileNo::Zero, len) => {
            zero.cut(*len as usize);
            Ok(())
        }
        Change::Cut(FileNo::One, len) => {
            one.cut(*len as usize);
            Ok(())
        }
        Change::Sync(FileNo::Zero) => {
            zero.sync();
            Ok(())
        }
        Change::Sync(FileNo::One) => {
            one.sync();
            Ok(())
        }
    }
}

/// Begins what a changing call asks: a sync does nothing yet.
fn begin(zero: &mut MemFile, one: &mut MemFile, change: &Change) -> Result<(), NoMemory>
    requires { IsAllowed change.now (files zero.old one.old) }
    ensures ok { OnOk result (let now = begun change.now (files zero.old one.old) in record { zero = zero.new; one = one.new; calls = now.calls } ≡ now) }
    ensures zero_err { OnErr result (zero.new ≡ zero.old) }
    ensures one_err { OnErr result (one.new ≡ one.old) }
{
    match change {
        Change::Sync(_) => Ok(()),
        _ => apply(zero, one, change),
    }
}

/// Takes a changing call, and stops in it where `stop` has a pick.
fn take(
    zero: &mut MemFile,
    one: &mut MemFile,
    change: &Change,
    stop: Option<u8>,
) -> Result<(), NoMemory>
    requires { IsAllowed change.now (files zero.old one.old) }
    ensures ok { OnOk result (record { zero = zero.new; one = one.new; calls = change.now ∷ [] } ≡ after_taken stop change.now (files zero.old one.old)) }
    ensures zero_err { OnErr result (zero.new ≡ zero.old) }
    ensures one_err { OnErr result (one.new ≡ one.old) }
{
    let Some(pick) = stop else {
        return apply(zero, one, change);
    };
    begin(zero, one, change)?;
    zero.stop(pick);
    one.stop(pick);
    Ok(())
}

/// Counts a fault.
fn fault(faults: &mut u64) -> Failed
    ensures { faults.new ≡ one_more faults.old }
{
    *faults = faults.saturating_add(1);
    Failed
}

/// Reads as many bytes from a place on as are there and fit into the front of `into`, and answers how many.
fn read_bytes(bytes: &[u8], at: usize, into: &mut [u8]) -> usize
    ensures fits { result ≤ length into.new }
    ensures count { result ≡ length (read_from bytes.now at (length into.old)) }
    ensures bytes { into.new ≡ read_from bytes.now at (length into.old) ++ drop result into.old }
{
    let start = at.min(bytes.len());
    let count = into.len().min(bytes.len() - start);
    into[..count].copy_from_slice(&bytes[start..start + count]);
    count
}

/// A disk in memory, of which one changing call may be chosen to fail and one to stop it. The changing calls,
/// `write_at`, `cut` and `sync`, are counted from 1.
#[derive(Debug, Drop)]
pub struct MemDisk {
    start_zero: Blob,
    start_one: Blob,
    log: Vec<Taken>,
    zero: MemFile,
    one: MemFile,
    failing: u64,
    stopping: u64,
    pick: u8,
    stopped: bool,
    starved: bool,
    faults: u64,
}

impl Model for MemDisk {
    ghost use Rattle.std.specs.Prelude.{◌≡◌, map};
    ghost use Rattle.crash_disk.specs.Disk.{settled_image};
    ghost use Rattle.crash_disk.specs.Memory.{DiskInMemory, replay};

    ghost Value = { DiskInMemory };

    ghost view = { λ m. record {
      start = record { zero = m.start_zero; one = m.start_one };
      log = m.log.items;
      failing = m.failing;
      stopping = m.stopping;
      pick = m.pick;
      stopped = m.stopped;
      starved = m.starved;
      faults = m.faults;
    } };

    ghost invariant = { λ m. record { zero = m.zero; one = m.one; calls = map (λ t. t.change) m.log.items } ≡ replay (settled_image (record { zero = m.start_zero; one = m.start_one })) m.log.items };
}

impl MemDisk {
    /// Two empty files. It takes no memory.
    pub fn new(alloc: Global) -> MemDisk
        ensures { result ≡ holding empty_image }
    {
        MemDisk {
            start_zero: Blob::new(alloc),
            start_one: Blob::new(alloc),
            log: Vec::new(alloc),
            zero: MemFile::new(alloc),
            one: MemFile::new(alloc),
            failing: 0,
            stopping: 0,
            pick: 0,
            stopped: false,
            starved: false,
            faults: 0,
        }
    }

    /// Two files that hold these bytes, all of them synced.
    pub fn of(alloc: Global, zero: &[u8], one: &[u8]) -> Result<MemDisk, NoMemory>
        ensures { IfOk result (λ disk. disk ≡ holding (record { zero = zero.now; one = one.now })) }
    {
        Ok(MemDisk {
            start_zero: Blob::of(alloc, zero)?,
            start_one: Blob::of(alloc, one)?,
            log: Vec::new(alloc),
            zero: MemFile::of(alloc, zero)?,
            one: MemFile::of(alloc, one)?,
            failing: 0,
            stopping: 0,
            pick: 0,
            stopped: false,
            starved: false,
            faults: 0,
        })
    }

    /// Lets the `k`-th changing call from now fail and change nothing; with 0 none. It replaces the choice of an
    /// earlier `fail_at`. It takes no memory.
    pub fn fail_at(&mut self, k: u64)
        ensures { self.new ≡ record self.old { failing = k } }
    {
        self.failing = k;
    }

    /// Lets the disk stop at the `k`-th changing call from now; with 0 at none. It replaces the choice of an earlier
    /// `stop_at`. That call and every later one fails until `restart`. Pick 0 leaves the contents of the last syncs,
    /// pick 1 all pending changes and the `k`-th call's, every other pick these with the byte 0x01 at every pending
    /// place. It takes no memory.
    pub fn stop_at(&mut self, k: u64, pick: u8)
        ensures { self.new ≡ record self.old { stopping = k; pick = pick } }
    {
        self.stopping = k;
        self.pick = pick;
    }

    /// Starts the disk again after a stop. It takes no memory.
    pub fn restart(&mut self)
        ensures { self.new ≡ record self.old { stopped = false } }
    {
        self.stopped = false;
    }

    /// Whether the disk stopped and was not started again.
    pub fn stopped(&self) -> bool
        ensures { result ≡ self.now.stopped }
    {
        self.stopped
    }

    /// Whether some call failed for want of memory.
    pub fn starved(&self) -> bool
        ensures { result ≡ self.now.starved }
    {
        self.starved
    }

    /// What the file holds, as a read gives it; after a stop what that left.
    pub fn bytes(&self, file: FileNo) -> &[u8]
        ensures { result.now ≡ reads_of (state_of self.now) file }
    {
        match file {
            FileNo::Zero => self.zero.bytes(),
            FileNo::One => self.one.bytes(),
        }
    }

    /// Takes a changing call.
    fn change(&mut self, change: Change) -> Result<(), Failed>
        requires { IsAllowed change (state_of self.old) }
        ensures calls { Calls change self.old result self.new }
        ensures never_falls { self.old.faults ≤ self.new.faults }
        ensures in_range { self.new.faults < 2 ^ 64 }
    {
        if self.stopped {
            return Err(fault(&mut self.faults));
        }
        let stops = self.stopping == 1;
        let fails = self.failing == 1;
        self.stopping = self.stopping.saturating_sub(1);
        self.failing = self.failing.saturating_sub(1);
        if fails && !stops {
            return Err(fault(&mut self.faults));
        }
        let stop = if stops { Some(self.pick) } else { None };
        if self.log.reserve(1).is_err()
            || take(&mut self.zero, &mut self.one, &change, stop).is_err()
        {
            self.starved = true;
            return Err(fault(&mut self.faults));
        }
        let _ = self.log.push(Taken { change, stop });
        if stops {
            self.stopped = true;
            return Err(fault(&mut self.faults));
        }
        Ok(())
    }

    /// Fails for want of memory.
    fn starve(&mut self) -> Failed
        ensures starved { (false, self.new) ≡ starved_by_call self.old }
        ensures never_falls { self.old.faults ≤ self.new.faults }
        ensures in_range { self.new.faults < 2 ^ 64 }
    {
        self.stopping = self.stopping.saturating_sub(1);
        self.failing = self.failing.saturating_sub(1);
        self.starved = true;
        fault(&mut self.faults)
    }
}

impl Disk for MemDisk {
    ghost use Rattle.std.specs.Prelude.{true, refl};
    ghost use Rattle.crash_disk.specs.InMemory.{shown_in_memory};
    ghost use Rattle.crash_disk.specs.Soundness.{reads_an_image, left_since_now, left_now};

    ghost shows = { shown_in_memory };

    ghost tells = { true };

    ghost tells_always = { λ _. refl };

    ghost reads_an_image = { reads_an_image };

    ghost counts_now = { left_since_now };

    ghost only_now = { left_now };

    /// It fails only where the disk has stopped.
    fn length(&mut self, file: FileNo) -> Result<u64, Failed>
        ensures length { IfOk result (λ n. IfSome (Some (state_of self.old)) (λ disk. n ≡ Rattle.std.specs.Prelude.length (reads_of disk file))) }
        ensures same { Some (state_of self.new) ≡ Some (state_of self.old) }
        ensures time { Elapses (shown_in_memory self.old) (shown_in_memory self.new) }
        ensures faults { CountsFaults result self.old.faults self.new.faults }
        ensures ok { OnOk result (self.new ≡ self.old) }
        ensures err { OnErr result (IsTrue self.old.stopped × (self.new ≡ faulted self.old)) }
    {
        if self.stopped {
            return Err(fault(&mut self.faults));
        }
        Ok(self.bytes(file).len() as u64)
    }

    /// It fails only where the disk has stopped.
    fn read_at(&mut self, file: FileNo, at: u64, into: &mut [u8]) -> Result<usize, Failed>
        ensures fits { IfOk result (λ n. n ≤ length into.new) }
        ensures count { IfOk result (λ n. IfSome (Some (state_of self.old)) (λ disk. n ≡ length (read_from (reads_of disk file) at (length into.old)))) }
        ensures bytes { IfOk result (λ n. IfSome (Some (state_of self.old)) (λ disk. into.new ≡ read_from (reads_of disk file) at (length into.old) ++ drop n into.old)) }
        ensures same { Some (state_of self.new) ≡ Some (state_of self.old) }
        ensures time { Elapses (shown_in_memory self.old) (shown_in_memory self.new) }
        ensures faults { CountsFaults result self.old.faults self.new.faults }
        ensures ok { OnOk result (self.new ≡ self.old) }
        ensures err { OnErr result (IsTrue self.old.stopped × (self.new ≡ faulted self.old)) }
    {
        if self.stopped {
            return Err(fault(&mut self.faults));
        }
        Ok(read_bytes(self.bytes(file), at as usize, into))
    }

    fn write_at(&mut self, file: FileNo, at: u64, bytes: &[u8]) -> Result<(), Failed>
        requires { at ≤ length (reads_of (state_of self.old) file) }
        ensures changes { Changes (Change.Write file at bytes.now) (Some (state_of self.old)) result (Some (state_of self.new)) }
        ensures time { Elapses (shown_in_memory self.old) (shown_in_memory self.new) }
        ensures faults { CountsFaults result self.old.faults self.new.faults }
        ensures calls { Calls (Change.Write file at bytes.now) self.old result self.new }
    {
        match Blob::of(*self.log.allocator(), bytes) {
            Ok(bytes) => self.change(Change::Write(file, at, bytes)),
            Err(_) => Err(self.starve()),
        }
    }

    fn cut(&mut self, file: FileNo, len: u64) -> Result<(), Failed>
        requires { len ≤ length (reads_of (state_of self.old) file) }
        ensures changes { Changes (Change.Cut file len) (Some (state_of self.old)) result (Some (state_of self.new)) }
        ensures time { Elapses (shown_in_memory self.old) (shown_in_memory self.new) }
        ensures faults { CountsFaults result self.old.faults self.new.faults }
        ensures calls { Calls (Change.Cut file len) self.old result self.new }
    {
        self.change(Change::Cut(file, len))
    }

    fn sync(&mut self, file: FileNo) -> Result<(), Failed>
        ensures changes { Changes (Change.Sync file) (Some (state_of self.old)) result (Some (state_of self.new)) }
        ensures time { Elapses (shown_in_memory self.old) (shown_in_memory self.new) }
        ensures faults { CountsFaults result self.old.faults self.new.faults }
        ensures calls { Calls (Change.Sync file) self.old result self.new }
    {
        self.change(Change::Sync(file))
    }

    fn faults(&self) -> u64 {
        self.faults
    }
}
