//! What the program sees of the outside: files that it reads and a place that it writes to. The values that it owns
//! (`owned_values`) and the verdicts that it may answer (`verdict_codes`) are offered here too.
//!
//! Files and sinks are traits. A trait's ghost members say what an object holds or has taken, where the object tells it
//! (the objects in memory do, those over a real file or stream do not), and how many faults it has counted. A call
//! answers a fault only where that count rose in the call.
//!
//! # What is proved
//!
//! Files and sinks with what an object tells and its count of faults (`Files::read_all`, `Sink::put`); objects in
//! memory whose content and failing call are exact (`MemFiles`, `SteadyFiles`, `MemSink`). `read_file` gives the bytes
//! of a file, none exactly where it is absent or too long.
#![tactic(auto)]

mod held_files;
pub mod laws;
mod reading;
mod stop;
mod taken_bytes;
mod writing;

pub use held_files::{MemFiles, SteadyFiles};
pub use owned_values::{Attribute, Attributes, Blob, NoMemory, Text, Texts};
pub use reading::{FileRead, Files};
pub use stop::{ReadStop, read_file};
pub use taken_bytes::MemSink;
pub use verdict_codes::Verdict;
pub use writing::{Sink, SinkFailed};
