// From the bytes of a text to its rows.

ghost use Rattle.std.specs.Prelude.{◌≡◌, ◌<◌, ◌≤◌, ◌^◌, [], length, IfOk, IfErr};
ghost use Rattle.xml_spec.specs.Characters.{IsText};
ghost use Rattle.xml_spec.specs.Tree.{IsWithinLimits};
ghost use Rattle.xml_tokens.specs.Heads.{HasHead};
ghost use Rattle.tree_rows.specs.Rows.{nodes_at};
ghost use Rattle.saml_tree.specs.Kept.{IsRead};
ghost use Rattle.saml_tree.specs.Documents.{IsSpelled, IsRefused};
ghost use Rattle.saml_tree.specs.Reads.{IsNotKept};
ghost use Rattle.saml_tree.specs.Links.{depths_of, AreLinkedSoFar};

use crate::beyond::fault_beyond;
use crate::build::Builder;
use crate::doc::Doc;
use crate::ids::index_of;
use crate::limits::is_small;
use crate::names::resolve;
use crate::node::TreeFault;
use crate::outline::Outline;
use std::alloc::Global;
use tree_rows::Rows;
use xml_chars::text_of;
use xml_spec::MAX_DOCUMENT_LENGTH;
use xml_tokens::{TokenFault, behind_head};

impl From<TokenFault> for TreeFault {
    ghost use Rattle.std.specs.Prelude.{◌≡◌};
    ghost use Rattle.saml_tree.specs.Reads.{fault_of};

    ghost from_gives = { λ fault e. e ≡ fault_of fault };

    fn from(fault: TokenFault) -> TreeFault {
        match fault {
            TokenFault::Invalid => TreeFault::BadXml,
            TokenFault::NoMemory => TreeFault::NoMemory,
        }
    }
}

/// The rows of a text, of which `rest` stands behind the head. It is read to its end before the limits are judged:
/// `BadXml` says that the text spells no tree, `XmlLimit` that it spells one beyond them.
pub(crate) fn read_rows<'a>(
    alloc: Global,
    text: &'a str,
    rest: &'a str,
) -> Result<Rows<'a>, TreeFault>
    requires head { HasHead text.now rest.now }
    requires small { length text.now < 2 ^ 32 }
    ensures ok { IfOk result (λ rows. IsText text.now → IsRead text.now rows.rows) }
    ensures limits { IfOk result (λ rows. IsWithinLimits (nodes_at 0 rows.rows)) }
    ensures few { IfOk result (λ rows. length rows.rows ≤ length text.now) }
    ensures linked { IfOk result (λ rows. AreLinkedSoFar (depths_of rows.rows) rows.links []) }
    ensures err { IfErr result (λ fault. IsNotKept text.now fault) }
{
    let mut outline = Outline::new(alloc, rest);
    let mut builder = Builder::new(alloc, rest, text.len() - rest.len());
    let mut left = rest;
    'tokens: while !left.is_empty() {
        let (markup, behind) = builder.rows.next_token(left)?;
        let small = is_small(&markup, builder.rows.pending(), outline.depth());
        outline.take(&markup, left)?;
        if !small {
            return Err(fault_beyond(alloc, outline, behind));
        }
        builder.take(markup, behind)?;
        left = behind;
    }
    if !outline.is_complete() {
        return Err(TreeFault::BadXml);
    }
    Ok(builder.rows)
}

// The document of the rows that were read, where its names and its IDs keep the rules.
fn document_of<'a>(alloc: Global, text: &'a [u8], rows: Rows<'a>) -> Result<Doc<'a>, TreeFault>
    requires read { IsRead text.now rows.rows }
    requires limits { IsWithinLimits (nodes_at 0 rows.rows) }
    requires count { length rows.rows < 2 ^ 32 }
    requires linked { AreLinkedSoFar (depths_of rows.rows) rows.links [] }
    ensures text { IfOk result (λ doc. doc.text ≡ text.now) }
    ensures ok { IfOk result (λ doc. IsSpelled text.now doc.tree) }
    ensures refused { IfErr result (λ fault. IsRefused text.now fault) }
{
    let names = resolve(alloc, &rows)?;
    let ids = index_of(alloc, &rows)?;
    Ok(Doc::of(text, rows, names, ids))
}

/// The document that a text of at most `MAX_DOCUMENT_LENGTH` bytes spells (XML 1.0, fifth edition).
///
/// # Errors
///
/// The first of `BadXml`, `XmlLimit`, `BadNames` and `DuplicateId` that holds of the whole text. `NoMemory` may come in
/// place of any other answer.
pub fn read_document<'a>(alloc: Global, text: &'a [u8]) -> Result<Doc<'a>, TreeFault>
    requires small { length text.now ≤ MAX_DOCUMENT_LENGTH }
    ensures text { IfOk result (λ doc. doc.text ≡ text.now) }
    ensures ok { IfOk result (λ doc. IsSpelled text.now doc.tree) }
    ensures refused { IfErr result (λ fault. IsRefused text.now fault) }
{
    let Some(characters) = text_of(text) else {
        return Err(TreeFault::BadXml);
    };
    let Some(rest) = behind_head(characters) else {
        return Err(TreeFault::BadXml);
    };
    let rows = read_rows(alloc, characters, rest)?;
    document_of(alloc, text, rows)
}
