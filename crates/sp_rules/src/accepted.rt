// What is accepted of a form.

ghost use Rattle.std.specs.Prelude.{◌≡◌, ◌<◌, [], ◌∷◌, ◌++◌, length, slice_get, OnOk, OnErr, IsTrue, ◌↔◌, Some};

use owned_values::{NoMemory, Text};
use request_rows::NewSession;
use std::alloc::Global;
use std::marker::Model;
use xml_chars::Span;

/// A list of places in a text.
#[derive(Debug, Drop)]
pub struct Spans {
    items: Vec<Span>,
}

impl Model for Spans {
    ghost use Rattle.std.specs.Prelude.{List};
    ghost use Rattle.xml_chars.specs.declared.Span.{Span};

    ghost Value = { List Span };

    ghost view = { λ s. s.items.items };
}

impl Spans {
    /// The empty list. It takes no memory.
    pub fn new(alloc: Global) -> Spans
        ensures { result ≡ [] }
    {
        Spans {
            items: Vec::new(alloc),
        }
    }

    /// How many places there are.
    pub fn len(&self) -> usize
        ensures { result ≡ length self.now }
    {
        self.items.len()
    }

    /// Whether there is none.
    pub fn is_empty(&self) -> bool
        ensures { IsTrue result ↔ (self.now ≡ []) }
    {
        self.items.is_empty()
    }

    /// Place number `i`, counted from 0.
    pub fn at(&self, i: usize) -> Span
        requires { i < length self.now }
        ensures { slice_get self.now i ≡ Some result }
    {
        self.items[i]
    }

    /// The places themselves, in order.
    pub fn as_slice(&self) -> &[Span]
        ensures { result.now ≡ self.now }
    {
        self.items.as_slice()
    }

    /// Puts a place at the end, or leaves the list as it was where there is no memory.
    pub fn push(&mut self, span: Span) -> Result<(), NoMemory>
        ensures ok { OnOk result (self.new ≡ self.old ++ span ∷ []) }
        ensures err { OnErr result (self.new ≡ self.old) }
    {
        self.items.push(span)?;
        Ok(())
    }
}

/// What is accepted of a form: the session that it opens, and where in the posted message all that is shown of it stands
/// (counted in bytes from 0).
#[derive(Debug, Drop)]
pub struct Accepted {
    /// The session to be opened.
    pub session: NewSession,
    /// The path to which the user goes.
    pub target: Text,
    /// Where the first signed element stands: the Response, or the Assertion.
    pub covered: Span,
    /// Where its Signature stands.
    pub signature: Span,
    /// Where the Assertion stands.
    pub assertion: Span,
    /// Where the NameID stands whose text is the name of the session.
    pub name_span: Span,
    /// Where the AttributeValues stand whose texts are the values of the session's attributes, in order.
    pub value_spans: Spans,
}
