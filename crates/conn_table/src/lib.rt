//! The connections that a server keeps, each with all bytes that it has brought since it was started.
//!
//! ```
//! let mut conns = Conns::new(alloc)?;
//! if conns.started(7) != Start::Taken {
//!     // the table is full, or there was no memory: connection 7 is not kept
//! }
//! match conns.piece(7, bytes) {
//!     Progress::Waiting => {} // its bytes are the beginning of a request
//!     Progress::Ready => {
//!         answer(&conns.request(7));
//!         conns.gone(7);
//!     }
//!     Progress::Refused(status) => {
//!         refuse(status);
//!         conns.gone(7);
//!     }
//!     Progress::Unknown => {} // it is not kept
//!     Progress::NoMemory => conns.gone(7),
//! }
//! ```
//!
//! A contract sees [`Conns`] as a map from the number of each connection that is kept to its bytes. What `http_wire` says of
//! these bytes is the answer to a piece, however they were cut, and whatever other connections brought. A head is read once,
//! when it has come: one that comes byte by byte is searched for its end once, a body that comes so costs no look at its head,
//! and the request is made of what was kept of it.
//!
//! `specs/Events.antt` says for a whole list of events which connections are kept and which requests they complete, with no
//! table: [`laws::calls_give_completions`] says that the calls, made event by event, complete just these. By the other
//! [`laws`] a piece may as well come as two, and a connection brings what it would bring alone, but for whether it was taken.
//!
//! # What is proved
//!
//! `Conns`: a table of at most 64 connections, each with all bytes that it brought. `started`, `piece`, `request` and
//! `gone` are exact on it: the answer to a piece is what `http_wire` says of all the connection's bytes, and the others
//! are as they were. Over each list of events the calls complete what the definition says without a table
//! (`laws::calls_give_completions`); a piece may as well come as two (`cuts_change_nothing`), and a connection brings
//! what it would bring alone, but for whether it was taken (`others_change_nothing`). Behind each event a connection
//! that is kept has brought fewer bytes than `HEAD_LIMIT` and `BODY_LIMIT` of `http_wire` together, and all that are
//! kept fewer than 64 times as many (`kept_bytes_are_few`).
#![tactic(auto)]

mod connection;
mod conns;
pub mod laws;
mod limits;
mod progress;

pub use conns::Conns;
pub use limits::CONNECTION_LIMIT;
pub use progress::{Progress, Start};
