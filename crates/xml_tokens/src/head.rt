// What stands before the content of a document.

ghost use Rattle.std.specs.Prelude.{◌≡◌};
ghost use Rattle.std.specs.Option.{MatchOption};
ghost use Rattle.xml_spec.specs.Bytes.{begins_with};
ghost use Rattle.xml_spec.specs.Syntax.{is_white};
ghost use Rattle.xml_spec.specs.Document.{Document, IsDocument, print_document};
ghost use Rattle.xml_tokens.specs.Heads.{HasHead};

use crate::class::Class;
use crate::marks::strip_word;
use crate::settings::behind_declaration;

/// Whether the text begins with white space.
fn begins_white(rest: &str) -> bool
    ensures { result ≡ begins_with is_white rest.now }
{
    match rest.as_bytes() {
        [first, ..] => Class::White.has(*first),
        [] => false,
    }
}

/// What stands behind the byte order mark and the XML declaration of a document (XML 1.0, 2.8). `None` where they are
/// such that no document is written so.
pub fn behind_head<'a>(text: &'a str) -> Option<&'a str>
    ensures { MatchOption result ((d : Document) → IsDocument d → ¬ (text.now ≡ print_document d)) (λ rest. HasHead text.now rest.now) }
{
    let unmarked = strip_word(text, "\u{FEFF}").unwrap_or(text);
    let Some(declared) = strip_word(unmarked, "<?xml") else {
        return Some(unmarked);
    };
    if begins_white(declared) {
        behind_declaration(declared)
    } else {
        Some(unmarked)
    }
}
