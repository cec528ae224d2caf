// The text of an element.

ghost use Rattle.std.specs.Prelude.{◌≡◌, ◌+◌, ◌-◌, ◌<◌, ◌≤◌, ◌++◌, length, take, drop, reverse, slice_index, string_bytes, MatchOption, IfOk, OnOk};
ghost use Rattle.xml_spec.specs.Numbering.{size, from_node, kids_of};
ghost use Rattle.xml_spec.specs.Syntax.{is_white};
ghost use Rattle.tree_read.specs.Texts.{text_of, behind_white, trimmed};
ghost use Rattle.tree_read.specs.Places.{IsLastKid};
ghost use Rattle.tree_read.specs.Views.{tree_of};

use crate::at::At;
use owned_values::{NoMemory, Text};
use saml_tree::{Doc, NodeKind, NodeNo};
use std::alloc::Global;
use xml_chars::is_white;

/// The last kid of a node; only an element has kids.
fn last_kid(doc: &Doc<'_>, node: NodeNo) -> Option<NodeNo>
    requires { node.0 < size doc.now.tree }
    ensures { MatchOption result (size (kids_of (from_node doc.now.tree node.0)) ≡ 0) (λ kid. IsLastKid doc.now.tree node.0 kid.0) }
{
    if doc.kind(node) != NodeKind::Element {
        return None;
    }
    let mut last = doc.first_kid(node)?;
    while let Some(next) = doc.next(last) {
        last = next;
    }
    Some(last)
}

/// The last node in document order of a node and all that is below it.
fn last_below(doc: &Doc<'_>, node: NodeNo) -> NodeNo
    requires { node.0 < size doc.now.tree }
    ensures { result.0 ≡ node.0 + size (kids_of (from_node doc.now.tree node.0)) }
{
    let mut last = node;
    while let Some(kid) = last_kid(doc, last) {
        last = kid;
    }
    last
}

/// Appends the text of an element.
fn put_text(at: At<'_, '_>, out: &mut String) -> Result<(), NoMemory>
    ensures { OnOk result (string_bytes out.new ≡ string_bytes out.old ++ text_of (tree_of at.entry) at.entry.node.0) }
{
    let last = last_below(at.doc, at.node);
    for before in at.node.0..last.0 {
        let node = NodeNo(before + 1);
        match at.doc.kind(node) {
            NodeKind::Text => at.doc.put_text(node, out)?,
            NodeKind::Element | NodeKind::Comment | NodeKind::Instruction => {}
        }
    }
    Ok(())
}

/// The text of an element: all texts inside it, in document order, those of inner elements too. Comments and
/// instructions are passed over (profile).
pub fn text_of(alloc: Global, at: At<'_, '_>) -> Result<Text, NoMemory>
    ensures { IfOk result (λ text. text ≡ text_of (tree_of at.entry) at.entry.node.0) }
{
    let mut chars = String::new(alloc);
    put_text(at, &mut chars)?;
    Text::of(alloc, chars.as_str())
}

/// How many bytes of white space stand in front.
fn white_len(bytes: &[u8]) -> usize
    ensures within { result ≤ length bytes.now }
    ensures rest { behind_white bytes.now ≡ drop result bytes.now }
    ensures ascii { 0 < result → slice_index bytes.now (result - 1) < 128 }
{
    for (i, byte) in bytes.iter().enumerate() {
        if !is_white(*byte) {
            return i;
        }
    }
    bytes.len()
}

/// Where the white space at the end begins.
fn white_start(bytes: &[u8]) -> usize
    ensures within { result ≤ length bytes.now }
    ensures rest { reverse (behind_white (reverse bytes.now)) ≡ take result bytes.now }
    ensures ascii { result < length bytes.now → slice_index bytes.now result < 128 }
{
    for i in (0..bytes.len()).rev() {
        if !is_white(bytes[i]) {
            return i + 1;
        }
    }
    0
}

/// The text without the white space that it begins with.
fn trimmed_start(text: &str) -> &str
    ensures { result.now ≡ behind_white text.now }
{
    let start = white_len(text.as_bytes());
    &text[start..]
}

/// The text without the white space that it ends with.
fn trimmed_end(text: &str) -> &str
    ensures { result.now ≡ reverse (behind_white (reverse text.now)) }
{
    let end = white_start(text.as_bytes());
    &text[..end]
}

/// The text of an element without the white space at both ends (XML 1.0, 2.3, S).
pub fn trimmed(alloc: Global, at: At<'_, '_>) -> Result<Text, NoMemory>
    ensures { IfOk result (λ text. text ≡ trimmed (text_of (tree_of at.entry) at.entry.node.0)) }
{
    let mut chars = String::new(alloc);
    put_text(at, &mut chars)?;
    Text::of(alloc, trimmed_end(trimmed_start(chars.as_str())))
}
