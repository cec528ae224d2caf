//! The tokens of XML documents (XML 1.0, fifth edition): what stands before them, and one after the other.
//!
//! # What is proved
//!
//! The tokens of a document, one after the other: what is read is the first token of the text, as long as it can be,
//! and what follows it; a refusal says that no valid tokens are written so (`next_token`). A start tag of a name alone,
//! none exactly where none begins the text (`bare_start`). What stands behind the byte order mark and the XML
//! declaration, none only where no document is written so (`behind_head`); line ends (`put_line_ends`,
//! `strip_line_ends`). A text of an element that is kept as it is written: what it means (`ElementText::put`, `is`),
//! read token by token (`TextRun`). A name with the place of its first colon (`WrittenName`); a quick test for names of
//! ASCII without a colon, of which `false` says nothing (`is_ascii_no_colon_name`).
#![tactic(auto)]

mod class;
mod head;
mod lex;
mod lines;
mod marks;
mod name;
mod parts;
mod settings;
mod tags;
mod text;
mod token;
mod value;
mod values;

pub use head::behind_head;
pub use lex::next_token;
pub use lines::{put_line_ends, strip_line_ends};
pub use name::WrittenName;
pub use parts::is_ascii_no_colon_name;
pub use tags::bare_start;
pub use text::{ElementText, TextRun};
pub use token::{Attribute, Markup, TokenFault};
pub use value::AttributeValue;
