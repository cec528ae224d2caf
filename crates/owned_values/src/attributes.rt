//! Attributes of a user, as an identity provider states them (SAML Core, 2.7.3).
ghost use Rattle.std.specs.Prelude.{◌≡◌, ◌<◌, [], ◌∷◌, ◌++◌, length, slice_get, IfOk, OnOk, OnErr, IsTrue, ◌↔◌, Some};

use crate::{NoMemory, Text, Texts};
use std::alloc::Global;
use std::marker::Model;

/// An attribute: its name, and its values in order (SAML Core, 2.7.3.1).
#[derive(Debug, Drop)]
pub struct Attribute {
    /// The name, as it is stated.
    pub name: Text,
    /// The values, in the order in which they are stated.
    pub values: Texts,
}

impl Attribute {
    /// The same attribute once more.
    pub fn copy(&self) -> Result<Attribute, NoMemory>
        ensures { IfOk result (λ attribute. attribute ≡ self.now) }
    {
        let name = self.name.copy()?;
        let values = self.values.copy()?;
        Ok(Attribute { name, values })
    }
}

/// A list of attributes.
#[derive(Debug, Drop)]
pub struct Attributes {
    items: Vec<Attribute>,
}

impl Model for Attributes {
    ghost use Rattle.std.specs.Prelude.{List};
    ghost use Rattle.owned_values.specs.declared.attributes.Attribute.{Attribute};

    ghost Value = { List Attribute };

    ghost view = { λ a. a.items.items };
}

impl Attributes {
    /// The empty list. It takes no memory.
    pub fn new(alloc: Global) -> Attributes
        ensures { result ≡ [] }
    {
        Attributes {
            items: Vec::new(alloc),
        }
    }

    /// How many attributes there are.
    pub fn len(&self) -> usize
        ensures { result ≡ length self.now }
    {
        self.items.len()
    }

    /// Whether there is none.
    pub fn is_empty(&self) -> bool
        ensures { IsTrue result ↔ (self.now ≡ []) }
    {
        self.items.is_empty()
    }

    /// The attribute at place `i`, counted from 0.
    pub fn at(&self, i: usize) -> &Attribute
        requires { i < length self.now }
        ensures { slice_get self.now i ≡ Some result.now }
    {
        &self.items[i]
    }

    /// The attributes themselves, in order.
    pub fn as_slice(&self) -> &[Attribute]
        ensures { result.now ≡ self.now }
    {
        self.items.as_slice()
    }

    /// Puts `attribute` at the end. Where there is no memory the list is as it was, and `attribute` is let go.
    pub fn push(&mut self, attribute: Attribute) -> Result<(), NoMemory>
        ensures ok { OnOk result (self.new ≡ self.old ++ attribute ∷ []) }
        ensures err { OnErr result (self.new ≡ self.old) }
    {
        self.items.push(attribute)?;
        Ok(())
    }

    /// A list of the same attributes.
    pub fn copy(&self) -> Result<Attributes, NoMemory>
        ensures { IfOk result (λ attributes. attributes ≡ self.now) }
    {
        let mut items = Vec::new(*self.items.allocator());
        for attribute in &self.items {
            items.push(attribute.copy()?)?;
        }
        Ok(Attributes { items })
    }
}
