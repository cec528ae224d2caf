//! Prefixes, each with a place of the document that speaks of its namespace.
ghost use Rattle.std.specs.Prelude.{◌≡◌, ◌<◌, ℕ, List, [], ◌||◌, false, length, slice_index_or, OnOk};
ghost use Rattle.std.specs.Str.{bytes_eq};
ghost use Rattle.xml_spec.specs.Laws.{IsAscending};
ghost use Rattle.xml_spec.specs.Tree.{Nodes};
ghost use Rattle.xml_spec.specs.Names.{Scope};
ghost use Rattle.xml_spec.specs.Canonical.{byte_order};
ghost use Rattle.excl_c14n.specs.Levels.{is_among};
ghost use Rattle.excl_c14n.specs.Pairs.{Pair, prefixes_in, IsPlaced, ArePlaced};

use owned_values::NoMemory;
use saml_tree::NameAt;
use std::alloc::Global;
use std::marker::Model;

/// Prefixes in ascending order, each once and with its place.
#[derive(Drop)]
pub(crate) struct Placed<'d> {
    prefixes: Vec<&'d str>,
    places: Vec<NameAt>,
}

impl<'d> Model for Placed<'d> {
    ghost use Rattle.std.specs.Prelude.{List};
    ghost use Rattle.excl_c14n.specs.Pairs.{Pair, pairs_of, IsSorted};

    ghost Value = { List Pair };

    ghost view = { λ p. pairs_of p.prefixes.items p.places.items };

    ghost invariant = { λ p. IsSorted p.prefixes.items p.places.items };
}

impl<'d> Placed<'d> {
    /// No prefix. It takes no memory.
    pub(crate) fn new(alloc: Global) -> Placed<'d>
        ensures { result ≡ [] }
    {
        Placed {
            prefixes: Vec::new(alloc),
            places: Vec::new(alloc),
        }
    }

    /// How many prefixes there are.
    pub(crate) fn len(&self) -> usize
        ensures { result ≡ length self.now }
    {
        self.prefixes.len()
    }

    /// Prefix i.
    pub(crate) fn prefix(&self, i: usize) -> &'d str
        requires { i < length self.now }
        ensures { (d : Pair) → result.now ≡ (slice_index_or self.now i d).0 }
    {
        self.prefixes[i]
    }

    /// The place of prefix i.
    pub(crate) fn place(&self, i: usize) -> NameAt
        requires { i < length self.now }
        ensures { (d : Pair) → result ≡ (slice_index_or self.now i d).1 }
    {
        self.places[i]
    }

    /// Adds a prefix with its place, unless it is there.
    pub(crate) fn add(&mut self, prefix: &'d str, place: NameAt) -> Result<(), NoMemory>
        ensures ascending { OnOk result (IsAscending byte_order (prefixes_in self.new)) }
        ensures among { OnOk result ((q : List ℕ) →
            is_among q (prefixes_in self.new) ≡ (is_among q (prefixes_in self.old) || bytes_eq q prefix.now)) }
        ensures placed { OnOk result ((tree : Nodes) (scope : Scope) → ArePlaced tree scope self.old →
            (is_among prefix.now (prefixes_in self.old) ≡ false → IsPlaced tree scope (prefix.now, place)) → ArePlaced tree scope self.new) }
    {
        if let Err(k) = self.prefixes.as_slice().binary_search(&prefix) {
            self.places.insert(k, place)?;
            if self.prefixes.insert(k, prefix).is_err() {
                self.places.remove(k);
                return Err(NoMemory);
            }
        }
        Ok(())
    }
}
