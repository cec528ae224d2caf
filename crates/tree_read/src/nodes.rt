// A list of nodes. A contract sees it as the list of their numbers.
ghost use Rattle.std.specs.Prelude.{◌≡◌, ◌<◌, [], ◌∷◌, ◌++◌, map, length, slice_get, OnOk, OnErr, Some};

use owned_values::NoMemory;
use saml_tree::NodeNo;
use std::alloc::Global;
use std::marker::Model;

/// A list of nodes of a document, by their numbers.
#[derive(Debug, Drop)]
pub struct Nodes {
    numbers: Vec<NodeNo>,
}

impl Model for Nodes {
    ghost use Rattle.std.specs.Prelude.{List, ℕ, map};

    ghost Value = { List ℕ };

    ghost view = { λ n. map (λ k. k.0) n.numbers.items };
}

impl Nodes {
    /// The empty list. It takes no memory.
    pub fn new(alloc: Global) -> Nodes
        ensures { result ≡ [] }
    {
        Nodes {
            numbers: Vec::new(alloc),
        }
    }

    /// How many nodes there are.
    pub fn len(&self) -> usize
        ensures { result ≡ length self.now }
    {
        self.numbers.len()
    }

    /// The node at place `i`, counted from 0.
    pub fn at(&self, i: usize) -> NodeNo
        requires { i < length self.now }
        ensures { slice_get self.now i ≡ Some result.0 }
    {
        self.numbers[i]
    }

    /// Puts `node` at the end, or leaves the list as it was where there is no memory.
    pub fn push(&mut self, node: NodeNo) -> Result<(), NoMemory>
        ensures ok { OnOk result (self.new ≡ self.old ++ node.0 ∷ []) }
        ensures err { OnErr result (self.new ≡ self.old) }
    {
        self.numbers.push(node)?;
        Ok(())
    }

    /// The nodes themselves, in order.
    pub fn as_slice(&self) -> &[NodeNo]
        ensures { map (λ k. k.0) result.now ≡ self.now }
    {
        self.numbers.as_slice()
    }
}
