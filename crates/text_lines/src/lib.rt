//! Files that people write: lines of words.
//!
//! ```
//! let mut lines = Lines::new(text);
//! while let Some(said) = lines.next_said() {
//!     match said {
//!         Said::Line { number, text } => { /* line `number` says `text` */ }
//!         Said::NoText { number } => return Err(Fault::Line(number)),
//!     }
//! }
//! ```
//!
//! A text is UTF-8 of characters that XML allows, in lines that a line feed ends. Empty lines and those that begin with
//! `#` are passed over; all are counted. One space separates two words. A contract sees `Lines` as the list of what is
//! still to be said. Each call is linear in what it looks at, and [`words_of`]
//! alone takes memory.
//!
//! # What is proved
//!
//! What a file's lines say: `Lines::next_said` gives each line that is neither empty nor a comment with its number, and
//! the first line that is no text; `parts_of`, `Words::next_word`, `number_of` and `positive` are exact. The test of a text is
//! XML's word (`laws::a_text_is_one_of_xml`).
#![tactic(auto)]

pub mod laws;
mod line;
mod number;
mod word;

pub use line::{Lines, Said};
pub use number::{number_of, positive};
pub use word::{Parts, Words, parts_of, words_of};
