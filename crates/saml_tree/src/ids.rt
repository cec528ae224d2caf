// The elements of a document by their IDs.

ghost use Rattle.std.specs.Prelude.{◌≡◌, ◌<◌, ◌^◌, ◌⊎◌, ◌++◌, List, [], ◌∷◌, length, map, string_bytes, IfOk, OnOk, IfErr};
ghost use Rattle.std.specs.BTreeMap.{get_by_text};
ghost use Rattle.std.specs.List.{filter_map};
ghost use Rattle.xml_spec.specs.Identifiers.{Identifier, identifier_at, identifiers, IsSingle};
ghost use Rattle.tree_rows.specs.Rows.{nodes_at};
ghost use Rattle.tree_rows.specs.Shaped.{IsShaped};
ghost use Rattle.saml_tree.specs.Index.{IsIndex, AreIndexed, AreOnce};
ghost use Rattle.xml_tokens.specs.Views.{attribute_view};
ghost use Rattle.saml_tree.specs.declared.node.TreeFault.TheVariants as faults;

use crate::node::TreeFault;
use std::alloc::Global;
use std::collections::BTreeMap;
use tree_rows::{Rows, Shape};
use xml_tokens::Attribute;

/// The elements of a document by their IDs: a look-up takes the logarithm of how many there are.
#[derive(Debug, Drop)]
pub(crate) struct Ids {
    index: BTreeMap<String, u32>,
}

impl Ids {
    fn new(alloc: Global) -> Ids
        ensures { AreIndexed [] result }
    {
        Ids {
            index: BTreeMap::new(alloc),
        }
    }

    /// The element with this ID.
    pub(crate) fn get(&self, value: &str) -> Option<u32>
        ensures { result ≡ get_by_text self.now.index value.now }
    {
        self.index.get(value).copied()
    }

    // One ID more. `DuplicateId` says that there is one of this value.
    fn add(&mut self, value: String, node: u32) -> Result<(), TreeFault>
        ensures ok { OnOk result ((before : List Identifier) → AreIndexed before self.old →
            AreIndexed (before ++ record { value = string_bytes value; node = node } ∷ []) self.new) }
        ensures err { IfErr result (λ e. (e ≡ faults.NoMemory) ⊎ ((e ≡ faults.DuplicateId)
            × ((before : List Identifier) → AreIndexed before self.old →
            ¬ (AreOnce (before ++ record { value = string_bytes value; node = node } ∷ []))))) }
    {
        let before = self.index.insert(value, node)?;
        if before.is_some() {
            return Err(TreeFault::DuplicateId);
        }
        Ok(())
    }

    // The IDs among the attributes of this element.
    fn add_all(
        &mut self,
        alloc: Global,
        attributes: &[Attribute<'_>],
        node: u32,
    ) -> Result<(), TreeFault>
        ensures ok { OnOk result ((before : List Identifier) → AreIndexed before self.old →
            AreIndexed (before ++ filter_map (identifier_at node) (map attribute_view attributes.now)) self.new) }
        ensures err { IfErr result (λ e. (e ≡ faults.NoMemory) ⊎ ((e ≡ faults.DuplicateId)
            × ((before : List Identifier) → AreIndexed before self.old →
            ¬ (AreOnce (before ++ filter_map (identifier_at node) (map attribute_view attributes.now)))))) }
    {
        for attribute in attributes {
            if attribute.name.as_str() == "ID" {
                let value = attribute.value.text(alloc)?;
                self.add(value, node)?;
            }
        }
        Ok(())
    }
}

/// The elements of a document by their IDs, which are the values of attributes named ID. Time goes with n log n of
/// the document's length.
///
/// # Errors
///
/// `DuplicateId`: two attributes named ID have one value. `NoMemory`.
pub(crate) fn index_of(alloc: Global, rows: &Rows<'_>) -> Result<Ids, TreeFault>
    requires shaped { IsShaped rows.now.rows }
    requires count { length rows.now.rows < 2 ^ 32 }
    ensures ok { IfOk result (λ ids. IsSingle (nodes_at 0 rows.now.rows)
        × IsIndex (identifiers (nodes_at 0 rows.now.rows)) ids) }
    ensures err { IfErr result (λ e. (e ≡ faults.NoMemory)
        ⊎ ((e ≡ faults.DuplicateId) × ¬ (IsSingle (nodes_at 0 rows.now.rows)))) }
{
    let mut ids = Ids::new(alloc);
    for k in 0..rows.len() {
        if let Shape::Element { attributes, .. } = rows.shape(k) {
            ids.add_all(alloc, attributes, k as u32)?;
        }
    }
    Ok(ids)
}
