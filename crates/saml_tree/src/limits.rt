// The limits of a document: how deep its elements stand, and how many attributes they have.

ghost use Rattle.std.specs.Prelude.{◌≡◌, List, length};
ghost use Rattle.xml_spec.specs.Tree.{Attribute};
ghost use Rattle.xml_spec.specs.Syntax.{Token};
ghost use Rattle.xml_tokens.specs.Views.{Shows};
ghost use Rattle.saml_tree.specs.RowTests.{is_small_token};

use xml_spec::{MAX_ATTRIBUTES, MAX_DEPTH};
use xml_tokens::Markup;

/// Whether the token, a tag of which has so many attributes, begins no element that stands deeper than `MAX_DEPTH` or has more
/// than `MAX_ATTRIBUTES` attributes. It stands in this many elements, so that the depth of its own is one more.
pub(crate) fn is_small(markup: &Markup<'_>, attributes: usize, depth: usize) -> bool
    ensures { (token : Token) (list : List Attribute) → Shows token markup.now list → attributes ≡ length list →
        is_small_token depth token ≡ result }
{
    match markup {
        Markup::Start { .. } | Markup::Empty { .. } => {
            depth < MAX_DEPTH && attributes <= MAX_ATTRIBUTES
        }
        _ => true,
    }
}
