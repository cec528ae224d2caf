//! A disk of two files that may crash at any moment.
//!
//! ```
//! let mut disk = MemDisk::of(alloc, b"abc", b"")?;
//! disk.write_at(FileNo::Zero, 3, b"d")?;      // a read gives abcd, a crash may leave abc and any fourth byte
//! disk.sync(FileNo::Zero)?;                   // a crash leaves abcd
//! disk.stop_at(1, 0);
//! disk.cut(FileNo::Zero, 0).is_err();         // the disk stops, and all that was not synced is lost
//! disk.restart();                             // abcd again
//! ```
//!
//! A contract sees what a disk tells of itself: of each file what a read gives, what the last sync kept, the least and
//! the greatest length since then, and the ranges that were written since then; and which changing calls it took, in their
//! order. The disk rule, in `specs/Disk.antt`, says which images a crash may leave of that. A disk that does not tell, as one over real files, meets the same
//! contract; an object tells at each moment or at none (`tells`). `left_since` is what a crash at some moment from one on
//! might have left, so that a clause can speak of every moment inside a call (`specs/Moments.antt`).
//!
//! A plan is a list of changing calls in an order. That a run of calls follows a plan says that the disk took these, all of
//! them or a beginning, and no other (`specs/Plans.antt`).
//!
//! A call answers [`Failed`] only where the count of faults rose in it, and the count rises in no other. What a call that
//! failed did is no more than begun.
//!
//! # What is proved
//!
//! The disk rule as definitions (`specs/Disk.antt`): what a read gives, which changing calls were taken, and which
//! images a crash may leave now, and at some moment since a call began. The trait `Disk` says it of every disk that
//! tells, and a disk tells at each moment or at none (`tells_always`); the count of faults rises where a call failed,
//! and in no other (`CountsFaults`). `MemDisk` keeps the rule with an exact outcome for each call (`calls`), also where
//! it is told to fail or to stop; a stop leaves one of the images that a crash may leave
//! (`laws::a_stop_leaves_what_a_crash_may_leave`).
#![tactic(auto)]

mod change;
mod disk;
mod file_no;
pub mod laws;
mod mem_disk;
mod mem_file;
mod range;

pub use change::{Change, Taken};
pub use disk::Disk;
pub use file_no::{Failed, FileNo};
pub use mem_disk::MemDisk;
