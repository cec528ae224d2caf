// The audiences of an assertion.
ghost use Rattle.std.specs.Prelude.{◌≡◌, ◌<◌, [], ◌∷◌, ◌++◌, length, slice_get, OnOk, OnErr, IsTrue, ◌↔◌, Some};

use owned_values::{NoMemory, Texts};
use std::alloc::Global;
use std::marker::Model;

/// The audiences of an assertion: a list of them for each AudienceRestriction (SAML Core, 2.5.1.4).
#[derive(Debug, Drop)]
pub struct Audiences {
    items: Vec<Texts>,
}

impl Model for Audiences {
    ghost use Rattle.std.specs.Prelude.{List, ℕ};

    ghost Value = { List (List (List ℕ)) };

    ghost view = { λ a. a.items.items };
}

impl Audiences {
    /// The empty list. It takes no memory.
    pub fn new(alloc: Global) -> Audiences
        ensures { result ≡ [] }
    {
        Audiences {
            items: Vec::new(alloc),
        }
    }

    /// How many restrictions there are.
    pub fn len(&self) -> usize
        ensures { result ≡ length self.now }
    {
        self.items.len()
    }

    /// Whether there is none.
    pub fn is_empty(&self) -> bool
        ensures { IsTrue result ↔ (self.now ≡ []) }
    {
        self.items.is_empty()
    }

    /// The audiences of the restriction at place `i`, counted from 0.
    pub fn at(&self, i: usize) -> &Texts
        requires { i < length self.now }
        ensures { slice_get self.now i ≡ Some result.now }
    {
        &self.items[i]
    }

    /// The audiences themselves, a list for each restriction, in order.
    pub fn as_slice(&self) -> &[Texts]
        ensures { result.now ≡ self.now }
    {
        self.items.as_slice()
    }

    /// Puts a restriction at the end. Where there is no memory the list is as it was, and `audiences` is let go.
    pub fn push(&mut self, audiences: Texts) -> Result<(), NoMemory>
        ensures ok { OnOk result (self.new ≡ self.old ++ audiences ∷ []) }
        ensures err { OnErr result (self.new ≡ self.old) }
    {
        self.items.push(audiences)?;
        Ok(())
    }
}
