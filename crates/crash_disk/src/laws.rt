//! Laws of the disk rule. Each function does nothing: what it ensures is the law.
ghost use Rattle.std.specs.Prelude.{◌≡◌, ◌⊎◌, ◌^◌, ◌+◌, ◌-◌, ◌<◌, ◌≤◌, ◌↔◌, ℕ, List, false};
ghost use Rattle.crash_disk.specs.declared.change.Change.TheVariants.{Sync};
ghost use Rattle.crash_disk.specs.declared.file_no.FileNo.TheVariants.{Zero, One};
ghost use Rattle.crash_disk.specs.Counts.{Rose};
ghost use Rattle.crash_disk.specs.Disk.{Image, DiskState, IsSettled, after, begun, settled_image, MayLeave};
ghost use Rattle.crash_disk.specs.Memory.{Call, DiskInMemory, after_calls, due, left_by, state_of};

use crate::Change;

/// A count rose where it is greater than before or stands at its end, and nowhere else.
pub fn a_count_rose_where_it_is_greater_or_at_its_end()
    ensures { (before now : ℕ) → before < 2 ^ 64 → now < 2 ^ 64 → Rose before now ↔ ((before < now) ⊎ (now ≡ 2 ^ 64 - 1)) }
{}

/// After a sync of both files a crash leaves what they read, and nothing else.
pub fn a_synced_disk_leaves_what_it_reads()
    ensures synced { (disk : DiskState) → IsSettled (after (Sync One) (after (Sync Zero) disk)) }
    ensures image { (image : Image) → IsSettled (settled_image image) }
{}

/// What a stop of a disk in memory leaves is what a crash may leave.
pub fn a_stop_leaves_what_a_crash_may_leave()
    ensures { (m : DiskInMemory) (change : Change) (pick : ℕ) → MayLeave (begun change (state_of m)) (left_by pick (begun change (state_of m))) }
{}

/// A disk in memory fails only where that was set. After calls of a disk that runs, none of which found no memory, it has stopped only
/// where a stop was set; and where it has not stopped, no more calls failed than failures were set and are not still to come.
pub fn a_disk_in_memory_fails_where_that_was_set()
    ensures stops { (m : DiskInMemory) (calls : List Call) → m.stopped ≡ false → m.stopping ≡ 0 → (after_calls calls m).starved ≡ false →
        (after_calls calls m).stopped ≡ false }
    ensures fails { (m : DiskInMemory) (calls : List Call) → (after_calls calls m).starved ≡ false → (after_calls calls m).stopped ≡ false →
        (after_calls calls m).faults + due (after_calls calls m).failing ≤ m.faults + due m.failing }
{}
