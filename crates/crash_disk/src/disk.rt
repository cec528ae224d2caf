//! A disk of two files, and the rule that it keeps.
ghost use Rattle.std.specs.Prelude.{◌≡◌, ◌<◌, ◌≤◌, ◌++◌, ℕ, Bool, is_some, length, drop, IfSome, IfOk};
ghost use Rattle.crash_disk.specs.Counts.{CountsFaults};
ghost use Rattle.crash_disk.specs.Disk.{Image, Changes, MayLeave, image_of, read_from, reads_of};
ghost use Rattle.crash_disk.specs.Moments.{DiskShown, Elapses, Leaves};

use crate::{Change, Failed, FileNo};

/// Two files of bytes. Places and lengths are counted in bytes from 0.
pub trait Disk {
    /// What the disk shows: what it tells of itself, its count of faults, and its moment.
    ghost shows: { Self → DiskShown };

    /// Whether the object tells: it does at each moment, or at none.
    ghost tells: { Bool };

    /// How long the file is.
    fn length(&mut self, file: FileNo) -> Result<u64, Failed>
        ensures length { IfOk result (λ n. IfSome (shows self.old).told (λ disk. n ≡ length (reads_of disk file))) }
        ensures same { (shows self.new).told ≡ (shows self.old).told }
        ensures time { Elapses (shows self.old) (shows self.new) }
        ensures faults { CountsFaults result (shows self.old).faults (shows self.new).faults };

    /// Reads as many bytes from `at` on as are there and fit into the front of `into`, and answers how many.
    /// A read begins inside the file or at its end: where a system refuses places far behind it, no caller meets that.
    fn read_at(&mut self, file: FileNo, at: u64, into: &mut [u8]) -> Result<usize, Failed>
        requires { IfSome (shows self.old).told (λ disk. at ≤ length (reads_of disk file)) }
        ensures fits { IfOk result (λ n. n ≤ length into.new) }
        ensures count { IfOk result (λ n. IfSome (shows self.old).told (λ disk. n ≡ length (read_from (reads_of disk file) at (length into.old)))) }
        ensures bytes { IfOk result (λ n. IfSome (shows self.old).told (λ disk. into.new ≡ read_from (reads_of disk file) at (length into.old) ++ drop n into.old)) }
        ensures same { (shows self.new).told ≡ (shows self.old).told }
        ensures time { Elapses (shows self.old) (shows self.new) }
        ensures faults { CountsFaults result (shows self.old).faults (shows self.new).faults };

    /// Writes over what is there, and past the end. Until a sync succeeds a crash may leave any bytes in the range.
    fn write_at(&mut self, file: FileNo, at: u64, bytes: &[u8]) -> Result<(), Failed>
        requires { IfSome (shows self.old).told (λ disk. at ≤ length (reads_of disk file)) }
        ensures changes { Changes (Change.Write file at bytes.now) (shows self.old).told result (shows self.new).told }
        ensures time { Elapses (shows self.old) (shows self.new) }
        ensures faults { CountsFaults result (shows self.old).faults (shows self.new).faults };

    /// Cuts the file to a length.
    fn cut(&mut self, file: FileNo, len: u64) -> Result<(), Failed>
        requires { IfSome (shows self.old).told (λ disk. len ≤ length (reads_of disk file)) }
        ensures changes { Changes (Change.Cut file len) (shows self.old).told result (shows self.new).told }
        ensures time { Elapses (shows self.old) (shows self.new) }
        ensures faults { CountsFaults result (shows self.old).faults (shows self.new).faults };

    /// After it a crash leaves of this file what a read gives.
    fn sync(&mut self, file: FileNo) -> Result<(), Failed>
        ensures changes { Changes (Change.Sync file) (shows self.old).told result (shows self.new).told }
        ensures time { Elapses (shows self.old) (shows self.new) }
        ensures faults { CountsFaults result (shows self.old).faults (shows self.new).faults };

    /// How many faults there were. The count never falls, and stays at 2^64 - 1 once it is there.
    fn faults(&self) -> u64
        ensures { result ≡ (shows self.now).faults };

    /// No call changes whether the object tells.
    ghost tells_always: { (disk : Self) → is_some (shows disk).told ≡ tells };

    /// A disk as it reads is one of its images.
    ghost reads_an_image: { (disk : Self) → IfSome (shows disk).told (λ state. MayLeave state (image_of state)) };

    /// This moment is one of those since an earlier one.
    ghost counts_now: { (disk : Self) (t : ℕ) (image : Image) → t ≤ (shows disk).moment → Leaves (shows disk).told image → (shows disk).left_since t image };

    /// Since this moment there is no other.
    ghost only_now: { (disk : Self) (image : Image) → (shows disk).left_since (shows disk).moment image → Leaves (shows disk).told image };
}
