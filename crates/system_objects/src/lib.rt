//! The clock, the disk, the connections, the files and the output of the system, behind the traits that a program is proved over.
//!
//! ```
//! let mut clock = SystemClock::new(&rt);
//! clock.now();                                // milliseconds since 1970
//! let mut disk = FsDisk::new(&rt);
//! disk.write_at(FileNo::Zero, 0, b"abc")?;    // journal.0 and journal.1 are there from here on
//! disk.sync(FileNo::Zero)?;                   // a crash leaves abc
//! let mut link = TcpLink::new(&rt);
//! link.listen("127.0.0.1:8080")?;
//! link.next(&mut into)?;                      // waits for a connection: Started(1)
//! link.next(&mut into)?;                      // waits for its bytes: Piece(1, 18)
//! link.send(1, b"HTTP/1.1 204 \r\n\r\n")?;
//! link.close(1);
//! link.finish();                              // what was sent goes out, also to a slow client
//! let mut files = FsFiles::new(&rt);
//! files.read_all("sp.conf", 65_536, &mut into);
//! let mut out = StdoutSink::new(io::writer(&rt));
//! out.put(b"yes\n")?;
//! ```
//!
//! None of them tells what it holds or what is to come, so a contract sees no more than their counts of faults: a call
//! answers [`Failed`] only where the count rose in it. What real files and sockets do is trusted.
//!
//! # What is proved
//!
//! `SystemClock`, `FsDisk` and `TcpLink` meet their traits: a call of a disk or a link answers Failed only where its
//! count of faults rose, and the count rises in no other; each fault is counted once (`counted`). `FsFiles::read_all`
//! meets its trait and counts each failed reading once; what a reader gives, where it knows that, is what is kept, up
//! to the limit (`read_to_end`). `StdoutSink::put` meets its trait and counts each failed piece once; after a failure
//! the writer took the first `sent` bytes, where it knows what it holds (`send`). They tell nothing, so nothing is
//! claimed of what real files, sockets and clocks hold ("What is trusted" says what this leaves).
#![tactic(auto)]

mod faults;
mod fs_disk;
mod fs_files;
mod server;
mod sockets;
mod stdout_sink;
#[cfg(test)]
mod stream_tests;
mod system_clock;
mod tcp_link;
#[cfg(test)]
mod tests;

pub use crash_disk::Failed;
pub use fs_disk::FsDisk;
pub use fs_files::FsFiles;
pub use stdout_sink::StdoutSink;
pub use system_clock::SystemClock;
pub use tcp_link::TcpLink;
