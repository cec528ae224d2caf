//! What the canonical form of an element says: the bytes of it spell a tree, which has the content of the element. So
//! elements with equal canonical forms have equal contents.
//!
//! # What is proved
//!
//! What canonical forms say: the canonical form of an element of a document spells a tree
//! (`a_canonical_form_spells_its_tree`) that has the element's content (`a_canonical_tree_keeps_the_content`) and good
//! names (`a_canonical_tree_is_named`). So two elements of documents with equal canonical forms have equal contents,
//! whatever prefixes they are written with, whatever element below them is left out and whatever prefix lists are given
//! (`equal_forms_have_equal_contents`). A tree that bytes spell can be written (`a_spelled_tree_is_writable`).
#![tactic(auto)]

ghost use Rattle.std.specs.Prelude.{◌≡◌, ℕ, ◌<◌, List, Option, None, IsTrue, IfSome};
ghost use Rattle.xml_spec.specs.Tree.{Nodes, IsJoined};
ghost use Rattle.xml_spec.specs.Numbering.{from_node};
ghost use Rattle.xml_spec.specs.Names.{HasNames};
ghost use Rattle.xml_spec.specs.Document.{Spells};
ghost use Rattle.xml_spec.specs.Canonical.{canonical};
ghost use Rattle.xml_spec.specs.Content.{content};
ghost use Rattle.canon_laws.specs.Trees.{begins_with_element, canonical_tree};
ghost use Rattle.canon_laws.specs.Writable.{IsWritable};

/// The canonical form of an element spells a tree: the element with the declarations that it needs, its attributes in
/// order, and without comments.
pub fn a_canonical_form_spells_its_tree()
    ensures { (tree : Nodes) (k : ℕ) (skip : Option ℕ) (listed : List (List ℕ)) → IsTrue (begins_with_element (from_node tree k)) →
        IfSome skip (λ s. k < s) → IsWritable tree → Spells (canonical tree k skip listed) (canonical_tree tree k skip listed) }
{}

/// A tree that bytes spell can be written.
pub fn a_spelled_tree_is_writable()
    ensures { (bytes : List ℕ) (tree : Nodes) → Spells bytes tree → IsWritable tree }
{}

/// The tree that a canonical form spells has the content of the element: nothing that the element says is lost. A tree that
/// bytes spell is joined; an empty text, which only other trees have, would be lost.
pub fn a_canonical_tree_keeps_the_content()
    ensures { (tree : Nodes) (k : ℕ) (skip : Option ℕ) (listed : List (List ℕ)) → HasNames tree → IsJoined tree →
        IsTrue (begins_with_element (from_node tree k)) → IfSome skip (λ s. k < s) →
        content (canonical_tree tree k skip listed) 0 None ≡ content tree k skip }
{}

/// The names of the tree that a canonical form spells are in order: each prefix that one of its names uses is declared, and
/// nothing is declared twice or against the rules.
pub fn a_canonical_tree_is_named()
    ensures { (tree : Nodes) (k : ℕ) (skip : Option ℕ) (listed : List (List ℕ)) → HasNames tree →
        IsTrue (begins_with_element (from_node tree k)) → IfSome skip (λ s. k < s) → HasNames (canonical_tree tree k skip listed) }
{}

/// Where two elements of documents have equal canonical forms, their contents are equal: the same expanded names,
/// attributes and texts, whatever prefixes they are written with, whatever element below them is left out, and whatever
/// prefix lists are given.
pub fn equal_forms_have_equal_contents()
    ensures { (bytes others : List ℕ) (one other : Nodes) (k l : ℕ) (skip leave : Option ℕ) (listed wanted : List (List ℕ)) →
        Spells bytes one → HasNames one → Spells others other → HasNames other →
        IsTrue (begins_with_element (from_node one k)) → IsTrue (begins_with_element (from_node other l)) →
        IfSome skip (λ s. k < s) → IfSome leave (λ s. l < s) →
        canonical one k skip listed ≡ canonical other l leave wanted → content one k skip ≡ content other l leave }
{}
