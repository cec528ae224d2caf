//! Characters of XML, the names and references that they make, and the places that they stand at; the two parts of a name,
//! and the namespaces that are bound from the start.
//!
//! # What is proved
//!
//! Exactly the characters, names and texts of XML 1.0 (`is_char`, `is_name_start`, `is_name_char`, `is_name`,
//! `is_text`, `text_of`), the parts of a qualified name, the bytes that are no white space (`without_white`), and
//! references: the character and where the reference ends, none exactly where none begins (`read_reference`).
#![tactic(auto)]

ghost use Rattle.std.specs.Prelude.{◌↔◌, IsTrue};
ghost use Rattle.xml_spec.specs.Characters.{InRanges, char_ranges, name_start_ranges, name_ranges, IsName};

mod parts;
mod references;
mod text;

pub use parts::{
    XML_NAMESPACE, XMLNS_NAMESPACE, has_colon, is_white, local_of, prefix_of, split_colon,
    without_white,
};
pub use references::read_reference;
pub use text::{is_text, text_of};

/// A range of bytes of a text: from `start` to in front of `end`.
#[derive(Clone, Copy, Debug, PartialEq, Eq)]
pub struct Span {
    /// The first byte, counted from 0.
    pub start: usize,
    /// The byte behind the last one.
    pub end: usize,
}

/// Whether XML allows the character in a document (XML 1.0, 2.2, Char).
pub fn is_char(c: char) -> bool
    ensures { IsTrue result ↔ InRanges char_ranges c }
{
    matches!(c,
        '\t' | '\n' | '\r' | ' '..='\u{D7FF}' | '\u{E000}'..='\u{FFFD}' | '\u{10000}'..='\u{10FFFF}')
}

/// Whether a name may begin with the character (XML 1.0, 2.3, NameStartChar).
pub fn is_name_start(c: char) -> bool
    ensures { IsTrue result ↔ InRanges name_start_ranges c }
{
    matches!(c,
        ':' | 'A'..='Z' | '_' | 'a'..='z' | '\u{C0}'..='\u{D6}' | '\u{D8}'..='\u{F6}' | '\u{F8}'..='\u{2FF}'
        | '\u{370}'..='\u{37D}' | '\u{37F}'..='\u{1FFF}' | '\u{200C}'..='\u{200D}' | '\u{2070}'..='\u{218F}'
        | '\u{2C00}'..='\u{2FEF}' | '\u{3001}'..='\u{D7FF}' | '\u{F900}'..='\u{FDCF}' | '\u{FDF0}'..='\u{FFFD}'
        | '\u{10000}'..='\u{EFFFF}')
}

/// Whether a name may hold the character behind its first (XML 1.0, 2.3, NameChar).
pub fn is_name_char(c: char) -> bool
    ensures { IsTrue result ↔ InRanges name_ranges c }
{
    matches!(c, '-' | '.' | '0'..='9' | '\u{B7}' | '\u{300}'..='\u{36F}' | '\u{203F}'..='\u{2040}')
        || is_name_start(c)
}

/// Whether the text is a name: a character that may begin one, and any number that it may hold (XML 1.0, 2.3, Name).
pub fn is_name(s: &str) -> bool
    ensures { IsTrue result ↔ IsName s.now }
{
    let mut characters = s.chars();
    let Some(first) = characters.next() else {
        return false;
    };
    is_name_start(first) && characters.all(|c| is_name_char(c))
}
