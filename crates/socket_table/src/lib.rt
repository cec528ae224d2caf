//! The connections that a program has open at once: whose turn it is, who has waited too long, and what is left to send
//! to whom.
//!
//! ```
//! let mut table = SocketTable::new(alloc)?;
//! let conn = table.admit(stream, 0)?;         // 1
//! let place = table.arrived(5)?;              // 0
//! table.start(place, 5);                      // its Started is given: 30 seconds from here on
//! table.mark(1, true, true);                  // the system says that it can be read and written
//! let place = table.next_ready()?;            // 0
//! table.hear(place, &mut into, 7);            // Said::Piece(1, 18)
//! table.pass_turn(place);                     // behind all others
//! table.send(1, b"HTTP/1.1 204 \r\n\r\n", 9)?;   // as much as the stream takes, the rest is left
//! table.close(1, 9);                          // no longer open; what is left goes out when the stream takes more
//! ```
//!
//! | A connection is | that is, and for how long |
//! |---|---|
//! | `Arrived` | taken, its start not yet told: that is at once where fewer than 64 ask or it can be read, else in a second |
//! | `Asking` | started, and nothing was sent on it: 30 seconds from its start |
//! | `Answered` | one on which something was sent, and not closed: 30 seconds from the last sending |
//! | `Closed` | closed, with bytes left to send: 30 seconds |
//! | `Shut` | closed, with nothing left to send; what still comes is read and dropped: one second |
//!
//! A moment is in milliseconds, of a clock that never goes back. The seats stand in the order of their turns: the first
//! that is ready is served next, and then goes behind all others. A stream is any reader and writer that answers
//! `WouldBlock` where it would wait; contracts say what happens to its bytes where it knows them.
//!
//! All bytes that were sent on a connection have gone out on its own stream or are left to, in their order, and nothing
//! else is.
//!
//! # What is proved
//!
//! The connections that are open at once, over any reader and writer that say where they would wait: numbers, stages
//! and moments (`Connection`); the next that can be read in turn, the first that is overdue, the one that has been
//! silent longest (`next_ready`, `overdue`, `in_the_way`); a piece has its own connection's number and the next bytes
//! of its own stream (`hear`); what was sent on a connection has gone out on its own stream or is left to, in order,
//! and nothing else is (`send`, `flush`).
#![tactic(auto)]

mod connection;
mod fault;
mod limits;
mod rest;
mod seat;
mod streams;
mod table;

pub use connection::{Connection, Stage};
pub use fault::SendFault;
pub use limits::{LINGER, LONGEST, MOST_ASKING, MOST_SEATS, SILENCE};
pub use rest::Rest;
pub use seat::{Said, Seat};
pub use streams::{Heard, Next, Taken};
pub use table::SocketTable;
