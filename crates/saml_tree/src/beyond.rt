// Texts that go beyond the limits: nothing is kept of what is left of them, and it is read for its faults alone.

ghost use Rattle.std.specs.Prelude.{◌≡◌, ℕ, ◌<◌, ◌≤◌, ◌⊎◌, List, [], ◌++◌, length, IfOk, IfErr, Some};
ghost use Rattle.xml_spec.specs.Syntax.{Token};
ghost use Rattle.saml_tree.specs.Outlines.{outline_of};
ghost use Rattle.saml_tree.specs.Reads.{Reads, NoneComplete, IsFaultBeyond};
ghost use Rattle.saml_tree.specs.Views.{outline_view};

use crate::node::TreeFault;
use crate::outline::Outline;
use std::alloc::Global;
use xml_tokens::{Attribute, bare_start, next_token};

// Opens the elements whose start tags stand in a row and hold a name alone, and gives what follows them. Of such tags
// texts are made that are so deep.
fn open_all<'a>(outline: &mut Outline<'a>, rest: &'a str) -> Result<&'a str, TreeFault>
    requires tail { (front : List ℕ) × (outline.old.names.text ≡ front ++ rest.now) }
    ensures text { outline.new.names.text ≡ outline.old.names.text }
    ensures shorter { IfOk result (λ behind. length behind.now ≤ length rest.now) }
    ensures ok { IfOk result (λ behind. (tokens : List Token) × Reads rest.now tokens behind.now
        × (outline_of (outline_view outline.old) tokens ≡ Some (outline_view outline.new))) }
    ensures err { IfErr result (λ e. (e ≡ TreeFault.NoMemory) ⊎ ((e ≡ TreeFault.BadXml) × NoneComplete (outline_view outline.old) rest.now)) }
{
    let mut left = rest;
    'tags: while let Some((name, behind)) = bare_start(left) {
        outline.open(name, left)?;
        left = behind;
    }
    Ok(left)
}

// Adds the next token, and gives what follows it. The attributes of a tag are put into the list, which is not read.
fn take_next<'a>(
    outline: &mut Outline<'a>,
    left: &'a str,
    attributes: &mut Vec<Attribute<'a>>,
) -> Result<&'a str, TreeFault>
    requires some { 0 < length left.now }
    requires tail { (front : List ℕ) × (outline.old.names.text ≡ front ++ left.now) }
    ensures text { outline.new.names.text ≡ outline.old.names.text }
    ensures shorter { IfOk result (λ behind. length behind.now < length left.now) }
    ensures ok { IfOk result (λ behind. (tokens : List Token) × Reads left.now tokens behind.now
        × (outline_of (outline_view outline.old) tokens ≡ Some (outline_view outline.new))) }
    ensures err { IfErr result (λ e. (e ≡ TreeFault.NoMemory) ⊎ ((e ≡ TreeFault.BadXml) × NoneComplete (outline_view outline.old) left.now)) }
{
    attributes.clear();
    let (markup, behind) = next_token(left, attributes)?;
    outline.take(&markup, left)?;
    Ok(behind)
}

// The outline behind the tokens of the rest.
fn outline_behind<'a>(
    alloc: Global,
    begun: Outline<'a>,
    rest: &'a str,
) -> Result<Outline<'a>, TreeFault>
    requires tail { (front : List ℕ) × (begun.names.text ≡ front ++ rest.now) }
    ensures ok { IfOk result (λ last. (tokens : List Token) × Reads rest.now tokens []
        × (outline_of (outline_view begun.entry) tokens ≡ Some (outline_view last))) }
    ensures err { IfErr result (λ e. (e ≡ TreeFault.NoMemory) ⊎ ((e ≡ TreeFault.BadXml) × NoneComplete (outline_view begun.entry) rest.now)) }
{
    let mut outline = begun;
    let mut attributes = Vec::new(alloc);
    let mut left = open_all(&mut outline, rest)?;
    'tokens: while !left.is_empty() {
        let behind = take_next(&mut outline, left, &mut attributes)?;
        left = open_all(&mut outline, behind)?;
    }
    Ok(outline)
}

/// The fault of a text that has an element beyond the limits, of which this is the rest: `XmlLimit` where its tokens
/// complete the outline, else `BadXml`.
pub(crate) fn fault_beyond<'a>(alloc: Global, begun: Outline<'a>, rest: &'a str) -> TreeFault
    requires tail { (front : List ℕ) × (begun.names.text ≡ front ++ rest.now) }
    ensures { IsFaultBeyond (outline_view begun.entry) rest.now result }
{
    match outline_behind(alloc, begun, rest) {
        Ok(last) => {
            if last.is_complete() {
                TreeFault::XmlLimit
            } else {
                TreeFault::BadXml
            }
        }
        Err(fault) => fault,
    }
}
