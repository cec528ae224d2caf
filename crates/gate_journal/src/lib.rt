//! A journal: a list of records in one of two files of a disk that may crash at any moment.
//!
//! ```
//! let mut journal = open_journal(alloc, &mut disk)?;   // what the files stand for; an empty journal where there is none
//! journal.reserve(3)?;                                 // the memory for one record
//! journal.append(&mut disk, b"abc")?;                  // in every image that a crash may leave from now on
//! journal.records().len();
//! journal.compact(&mut disk, &kept, horizon, next)?;   // these payloads alone from now on, in the other file
//!
//! let found = newer(read_text(&zero)?, read_text(&one)?)?;   // what two texts stand for, read where they lie
//! ```
//!
//! What two files stand for is a function of their bytes alone, `journal` of `specs/Format.antt`: a list of payloads, a
//! header and a version in one of them, no journal yet, or a fault at a place. A contract sees an opened journal as
//! that, with the room that was reserved and whether a call has failed. Each call that changes the disk says what a
//! crash at any moment of it may leave: `append` the records from before with the new one or without, `open_journal`
//! and `reopen` what an image at their start stood for, `compact` and `migrate` the journal from before or the new one.
//! Its clause `calls` says which changing calls it makes, in their order and no other (`specs/Calls.antt`): an opening
//! writes nothing but the first journal where there is none.
//!
//! [`Failed`] and [`OpenFault::DiskFault`] come only where the disk's count of faults rose. After [`Failed`] the journal
//! is broken, and is opened again by `reopen`. [`OpenFault::Foreign`] comes exactly where the files hold a fault, unless
//! the disk fails or memory runs out; want of memory may come from each call that allocates: `append` does not.
//!
//! # What is proved
//!
//! What two files stand for is a function of their bytes (`journal`). `read_text` and `newer` give it of two texts that
//! lie in memory, with payloads that are slices of them, and make no call of a disk. `open_journal` and `reopen` give
//! that, the first journal where there is none yet, or Foreign with the file and place of the fault exactly where they
//! hold one, unless the disk fails or memory runs out; `append` adds its payload and takes no memory; `compact` and
//! `migrate` leave the kept payloads in the other file, one generation on, with the new horizon and next number, or
//! with the old ones; `reserve`, `room` and the calls that show the journal are exact. At every moment during and after
//! a call each image that a crash may leave stands for the list before or with the new record (`append`), for the old
//! journal or the new one (`compact`, `migrate`), or for what an image at the start stood for, or the first journal
//! where that was none (`open_journal`, `reopen`). Each of these calls makes the changing calls of the disk that its
//! plan names, in their order and no other: all of them where it answers Ok, and else a beginning; an opening writes
//! nothing but the first journal where there is none (`calls`: `Follows` of crash_disk, over the plans of
//! `specs/Calls.antt`). The disk's count of faults rises where a call answers Failed or DiskFault, which breaks the
//! journal, and in no other; want of memory leaves journal and disk as they were in `compact`, `migrate` and `reserve`,
//! and breaks the journal in `reopen`.
#![tactic(auto)]

mod compacting;
mod fault;
mod format;
mod header;
mod journal;
mod making;
mod opening;
mod record;
mod remaking;
mod stored;
mod texts;
mod writing;

pub use crash_disk::{Disk, Failed, FileNo};
pub use fault::OpenFault;
pub use format::{AROUND, LONGEST_FILE, LONGEST_PAYLOAD};
pub use header::Header;
pub use journal::Journal;
pub use opening::open_journal;
pub use record::Record;
pub use texts::{FilePayloads, FileText, newer, read_text};
