//! What is checked of each record: the numbers that it draws, the characters of its texts, and its moments.
ghost use Rattle.std.specs.Prelude.{◌≡◌, ◌&&◌, nat_le, nat_lt};
ghost use Rattle.std.specs.List.{list_all, flat_map};
ghost use Rattle.ledger_rules.specs.Numbers.{NUMBER_END, has_number, is_xml_text};
ghost use Rattle.ledger_rules.specs.Texts.{of_attribute};

use crate::numbers::{has_number, is_xml_text};
use owned_values::{Attribute, Text};

/// The last millisecond of the year 9999.
pub const LAST: u64 = 253_402_300_799_999;

/// How long a request for a login or a logout may be answered, in milliseconds.
pub const LIFE: u64 = 600_000;

/// How long an Assertion may be presented, in milliseconds.
pub const ASSERTION_LIFE: u64 = 300_000;

/// Numbers end below this one.
pub const END_OF_NUMBERS: u64 = 1 << 63;

/// Whether a number is this one or greater and below the end, and an ID begins with it.
pub fn is_fresh(least: u64, number: u64, id: &Text) -> bool
    ensures { result ≡ (nat_le least number && nat_lt number NUMBER_END && has_number number id.now) }
{
    least <= number && number < END_OF_NUMBERS && has_number(number, id.as_str())
}

/// Whether a document may hold the characters of a text.
pub fn is_allowed(text: &Text) -> bool
    ensures { result ≡ is_xml_text text.now }
{
    is_xml_text(text.as_str())
}

/// Whether a document may hold the characters of these texts.
pub fn are_allowed(texts: &[Text]) -> bool
    ensures { result ≡ list_all is_xml_text texts.now }
{
    texts.iter().all(|text| is_allowed(text))
}

/// Whether a document may hold the characters of an attribute's name and values.
fn is_allowed_attribute(attribute: &Attribute) -> bool
    ensures { result ≡ list_all is_xml_text (of_attribute attribute.now) }
{
    is_allowed(&attribute.name) && are_allowed(attribute.values.as_slice())
}

/// Whether a document may hold the characters of the names and values of attributes.
pub fn are_allowed_attributes(attributes: &[Attribute]) -> bool
    ensures { result ≡ list_all is_xml_text (flat_map of_attribute attributes.now) }
{
    attributes
        .iter()
        .all(|attribute| is_allowed_attribute(attribute))
}
