//! The users of an identity provider, and their passwords.
//!
//! ```text
//! user alice 100000 73616c74 120fb6cf..
//! attr mail alice@example.org
//! ```
//!
//! ```
//! let users = read_users(alloc, text)?;
//! match users.check("alice", password) {
//!     Some(user) => { /* `user.attributes` are what is stated of alice */ }
//!     None => { /* there is no such user, or the password is another */ }
//! }
//! ```
//!
//! A user has a name, a salt, a number of rounds, and the value that PBKDF2 (RFC 8018, 5.2) gives for the password. A
//! contract sees the users as a list. [`read_users`] gives what the definition `users` gives: the users of a text, or the
//! number of the first line that is bad ([`UserFault`]). [`Users::check`] takes no memory, and finds a name in the
//! logarithm of how many users there are. Values are compared in all their bytes.
//!
//! # What is proved
//!
//! `read_users`: the users of a file exactly where it keeps the grammar, else the number of the first line that does
//! not (`Gives`), unless memory ran out. `Users::check`: the user of that name whose PBKDF2 value is that of the
//! password, none exactly where there is none; no memory.
#![tactic(auto)]

mod fault;
mod line;
mod read;
mod user;
mod users;

pub use fault::UserFault;
pub use line::MOST_ROUNDS;
pub use read::{MAX_USERS_LENGTH, read_users};
pub use user::User;
pub use users::{MAX_USERS, Users};
