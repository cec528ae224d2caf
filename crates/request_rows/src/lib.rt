//! The rows that a service provider keeps: requests that it asked, sessions that it opened, logouts that it asked for.
//!
//! ```
//! let mut rows = Rows::new(alloc);
//! rows.add_asked(AskedRow { request, relay, target, until: 1_704_067_800_000 })?;
//! let asked = rows.asked_row("_r1", now, horizon);
//! let spent = rows.is_spent("_r1");
//! ```
//!
//! Contracts see [`Rows`] as the lists of its rows, in the order in which they came, and as how many more rows fit in each
//! without memory. A look-up gives what its definition gives over the lists: the first row that is asked for,
//! and only one that is still visible, where that is said. It finds it by halving a sorted list of places
//! ([`Rows::order`]), and takes no memory. The rows determine each such list ([`laws::keys_have_one_order`]).
//!
//! [`KeptRows`] are the rows of a ledger. They are gathered while its records are read, and have their indexes, each made by
//! one sort, from then on; so to open a ledger takes time in the order of n log n, whatever keys come in which order.
//!
//! Moments are milliseconds since 1970-01-01T00:00:00Z. A row is visible where the moment `until` which it holds is greater
//! than the larger of the present and the horizon, the latest moment at which rows were dropped.
//!
//! [`Rows::add_asked`] and [`Rows::add_opened`] refuse only for want of memory, and all is then as before. What must
//! not fail later is done in two steps: `reserve_asked`, which may, and `put_asked`, which can't.
//!
//! # What is proved
//!
//! The rows of a service provider: `add_asked`, `add_opened` put a row at the end and change nothing else; `asked_row`,
//! `is_spent`, `is_seen`, `session_row` give what their definitions give over the lists, without a word of an index;
//! `order` is each place once, by key and place, and the rows have one such order (`laws::keys_have_one_order`). In two
//! steps: `reserve_*` may want memory, `put_*` can't. `KeptRows` are rows that are gathered first and indexed at once
//! (`indexed`), with the same clauses.
#![tactic(auto)]

mod index;
mod kept;
mod key;
pub mod laws;
mod row;
mod rows;

pub use kept::KeptRows;
pub use key::RowKey;
pub use row::{AskedRow, LeftRow, NewSession, OpenedRow};
pub use rows::{ROW_LIMIT, Rows};
