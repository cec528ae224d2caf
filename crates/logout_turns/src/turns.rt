//! Turns of a logout.
ghost use Rattle.std.specs.Prelude.{◌≡◌, ◌<◌, [], ◌∷◌, ◌++◌, length, slice_get, IfOk, OnOk, OnErr, IsTrue, ◌↔◌, Some};

use owned_values::{NoMemory, Text, Texts};
use std::alloc::Global;
use std::marker::Model;

/// A provider that is asked for a logout (SAML Core, 3.7.1).
#[derive(Debug, Drop)]
pub struct Turn {
    /// The entity of the provider.
    pub peer: Text,
    /// The name of the user, as it was told to the provider.
    pub name: Text,
    /// The indexes of the sessions that end (SAML Core, 2.7.2).
    pub indexes: Texts,
}

impl Turn {
    /// The same turn once more.
    pub fn copy(&self) -> Result<Turn, NoMemory>
        ensures { IfOk result (λ turn. turn ≡ self.now) }
    {
        let peer = self.peer.copy()?;
        let name = self.name.copy()?;
        let indexes = self.indexes.copy()?;
        Ok(Turn {
            peer,
            name,
            indexes,
        })
    }
}

/// A list of turns.
#[derive(Debug, Drop)]
pub struct Turns {
    items: Vec<Turn>,
}

impl Model for Turns {
    ghost use Rattle.std.specs.Prelude.{List};
    ghost use Rattle.logout_turns.specs.declared.turns.Turn.{Turn};

    ghost Value = { List Turn };

    ghost view = { λ t. t.items.items };
}

impl Turns {
    /// The empty list. It takes no memory.
    pub fn new(alloc: Global) -> Turns
        ensures { result ≡ [] }
    {
        Turns {
            items: Vec::new(alloc),
        }
    }

    /// How many turns there are.
    pub fn len(&self) -> usize
        ensures { result ≡ length self.now }
    {
        self.items.len()
    }

    /// Whether there is none.
    pub fn is_empty(&self) -> bool
        ensures { IsTrue result ↔ (self.now ≡ []) }
    {
        self.items.is_empty()
    }

    /// The turn at place `i`, counted from 0.
    pub fn at(&self, i: usize) -> &Turn
        requires { i < length self.now }
        ensures { slice_get self.now i ≡ Some result.now }
    {
        &self.items[i]
    }

    /// The turns themselves, in order.
    pub fn as_slice(&self) -> &[Turn]
        ensures { result.now ≡ self.now }
    {
        self.items.as_slice()
    }

    /// Puts `turn` at the end. Where there is no memory the list is as it was, and `turn` is let go.
    pub fn push(&mut self, turn: Turn) -> Result<(), NoMemory>
        ensures ok { OnOk result (self.new ≡ self.old ++ turn ∷ []) }
        ensures err { OnErr result (self.new ≡ self.old) }
    {
        self.items.push(turn)?;
        Ok(())
    }
}
