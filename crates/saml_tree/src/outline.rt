// Whether the tokens of a document stand where they may.

ghost use Rattle.std.specs.Prelude.{◌≡◌, ℕ, ◌<◌, ◌⊎◌, ◌^◌, List, ◌∷◌, ◌++◌, length, IfErr, OnOk, IsTrue, IsFalse, None, Some};
ghost use Rattle.std.specs.List.{list_all};
ghost use Rattle.xml_spec.specs.Ascii.{less_than};
ghost use Rattle.xml_spec.specs.Tree.{Attribute};
ghost use Rattle.xml_spec.specs.Syntax.{is_white, Tag, EmptyTag, Token, Alone, StartTag, print_token};
ghost use Rattle.xml_tokens.specs.Views.{Shows};
ghost use Rattle.saml_tree.specs.Outlines.{first_outline, next_outline, named_end, is_complete};
ghost use Rattle.saml_tree.specs.Views.{outline_view};

use crate::node::TreeFault;
use crate::open_names::OpenNames;
use std::alloc::Global;
use xml_chars::is_white;
use xml_tokens::Markup;

/// The names of the open elements, the innermost last, and whether the root has begun.
#[derive(Drop)]
pub(crate) struct Outline<'a> {
    pub(crate) names: OpenNames<'a>,
    pub(crate) begun: bool,
}

impl<'a> Outline<'a> {
    /// Before the first token of this text.
    pub(crate) fn new(alloc: Global, text: &'a str) -> Outline<'a>
        requires { length text.now < 2 ^ 32 }
        ensures outline { outline_view result ≡ first_outline }
        ensures text { result.names.text ≡ text.now }
    {
        Outline {
            names: OpenNames::new(alloc, text),
            begun: false,
        }
    }

    /// How many elements are open.
    pub(crate) fn depth(&self) -> usize
        ensures { result ≡ length (outline_view self.now).names }
    {
        self.names.len()
    }

    /// Adds the token at the front of `left`, the end of the text. A refusal says that the token has no place there.
    pub(crate) fn take(&mut self, markup: &Markup<'_>, left: &str) -> Result<(), TreeFault>
        requires tail { (front : List ℕ) × (self.old.names.text ≡ front ++ left.now) }
        requires token { (token : Token) × (attributes : List Attribute) × Shows token markup.now attributes
            × (behind : List ℕ) × (left.now ≡ print_token token ++ behind) }
        ensures text { self.new.names.text ≡ self.old.names.text }
        ensures ok { OnOk result ((token : Token) (attributes : List Attribute) → Shows token markup.now attributes →
            next_outline (outline_view self.old) token ≡ Some (outline_view self.new)) }
        ensures err { IfErr result (λ e. (e ≡ TreeFault.NoMemory) ⊎ ((e ≡ TreeFault.BadXml)
            × ((token : Token) (attributes : List Attribute) → Shows token markup.now attributes → next_outline (outline_view self.old) token ≡ None))) }
    {
        let inside = !self.names.is_empty();
        match markup {
            Markup::Characters(text) => allow(inside || is_all_white(text)),
            Markup::Reference(_) | Markup::Section(_) => allow(inside),
            Markup::Comment(_) | Markup::Instruction { .. } => Ok(()),
            Markup::Empty { .. } => self.take_empty(),
            Markup::Start { name } => self.open(name.as_str(), left),
            Markup::End { name } => self.close(name),
        }
    }

    // An element that ends where it begins, in an open one or as the root.
    fn take_empty(&mut self) -> Result<(), TreeFault>
        ensures text { self.new.names.text ≡ self.old.names.text }
        ensures ok { OnOk result ((tag : Tag) → next_outline (outline_view self.old) (Alone (EmptyTag tag)) ≡ Some (outline_view self.new)) }
        ensures err { IfErr result (λ e. (e ≡ TreeFault.BadXml)
            × ((tag : Tag) → next_outline (outline_view self.old) (Alone (EmptyTag tag)) ≡ None)) }
    {
        if !self.names.is_empty() {
            return Ok(());
        }
        allow(!self.begun)?;
        self.begun = true;
        Ok(())
    }

    /// The start of an element whose tag stands at the front of `left`, in an open one or as the root. A refusal says that
    /// it has no place there.
    pub(crate) fn open(&mut self, name: &str, left: &str) -> Result<(), TreeFault>
        requires tail { (front : List ℕ) × (self.old.names.text ≡ front ++ left.now) }
        requires named { (behind : List ℕ) × (left.now ≡ less_than ∷ (name.now ++ behind)) }
        ensures text { self.new.names.text ≡ self.old.names.text }
        ensures ok { OnOk result ((tag : Tag) → name.now ≡ tag.name →
            next_outline (outline_view self.old) (StartTag tag) ≡ Some (outline_view self.new)) }
        ensures err { IfErr result (λ e. (e ≡ TreeFault.NoMemory) ⊎ ((e ≡ TreeFault.BadXml)
            × ((tag : Tag) → next_outline (outline_view self.old) (StartTag tag) ≡ None))) }
    {
        allow(!self.names.is_empty() || !self.begun)?;
        self.names.push(name, left)?;
        self.begun = true;
        Ok(())
    }

    // The end of the innermost open element, where it has this name.
    fn close(&mut self, name: &str) -> Result<(), TreeFault>
        ensures text { self.new.names.text ≡ self.old.names.text }
        ensures ok { OnOk result (named_end (outline_view self.old) (outline_view self.old).names name.now ≡ Some (outline_view self.new)) }
        ensures err { IfErr result (λ e. (e ≡ TreeFault.BadXml)
            × (named_end (outline_view self.old) (outline_view self.old).names name.now ≡ None)) }
    {
        match self.names.pop_is(name) {
            Some(same) => allow(same),
            None => Err(TreeFault::BadXml),
        }
    }

    /// Whether the root is read and no element is open.
    pub(crate) fn is_complete(&self) -> bool
        ensures { result ≡ is_complete (outline_view self.now) }
    {
        self.names.is_empty() && self.begun
    }
}

// No fault where the token may stand there.
fn allow(holds: bool) -> Result<(), TreeFault>
    ensures ok { OnOk result (IsTrue holds) }
    ensures err { IfErr result (λ e. (e ≡ TreeFault.BadXml) × IsFalse holds) }
{
    if holds {
        Ok(())
    } else {
        Err(TreeFault::BadXml)
    }
}

// Whether each byte is white space.
fn is_all_white(text: &str) -> bool
    ensures { result ≡ list_all is_white text.now }
{
    text.bytes().all(|b| is_white(b))
}
