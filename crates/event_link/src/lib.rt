//! Where the events of a program come from, where its answers go, and what time it is.
//!
//! ```
//! let mut link = ListLink::new(alloc);
//! link.add(LinkEvent::Started(1), b"")?;
//! link.add(LinkEvent::Piece(1, 3), b"abc")?;
//! let mut into = [0; 2];
//! link.next(&mut into)?;                      // Started(1)
//! link.next(&mut into)?;                      // Piece(1, 2), into is ab
//! link.next(&mut into)?;                      // Piece(1, 1), into is cb
//! link.next(&mut into)?;                      // Stop, and so for ever
//! link.send(1, b"hello")?;
//! link.sent(1);                               // hello
//! ```
//!
//! A [`Clock`] and a [`Link`] are traits. Their ghost members say what is to come, what was sent, where a link listens
//! and how connections were closed, where the object tells it: [`ListClock`] and [`ListLink`] do, those over a real
//! clock or real sockets do not. A link may also tell which calls it took, in their order, and how each ended
//! (`LinkCall`); a [`ListLink`] does not. No call changes whether an object tells.
//!
//! A call of a link answers [`Failed`] only where the count of faults of its kind rose in it, and this rises in no
//! other: one counts `listen` and `next`, the other `send`. After a `next` that failed what is to come is as before,
//! and of a `send` that failed a prefix of the bytes went out. A clock can't fail.
//!
//! # What is proved
//!
//! The traits `Clock` and `Link` say which moments a clock gives, which event a link gives next with the bytes of a
//! piece (`next`: a piece that is longer than the place for it comes in several, and loses nothing,
//! `laws::a_cut_piece_loses_nothing`), which bytes went out on which connection (`send`), where it listens (`listen`),
//! and which connection was closed, behind how many bytes, by how many closings (`close`); where a link tells its calls,
//! each of these adds itself to them, and how it ended (`noted`). A count of faults rises where a call of its kind
//! failed, and in no other. `ListClock` and `ListLink` keep this with an exact outcome for each call, also where one is
//! told to fail; `ListLink` does not tell its calls.
#![tactic(auto)]

mod arrival;
mod clock;
mod closings;
mod faults;
pub mod laws;
mod link;
mod list_clock;
mod list_link;
mod outbox;
mod queue;

pub use arrival::Arrival;
pub use clock::Clock;
pub use closings::Closings;
pub use crash_disk::Failed;
pub use link::{Link, LinkEvent};
pub use list_clock::ListClock;
pub use list_link::ListLink;
