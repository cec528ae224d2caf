//! What the bytes of an XML document spell, and what the canonical form of its elements is: the definitions
//! stand in `specs/`, and the functions here carry the laws about them in their contracts.
//!
//! # What is proved
//!
//! The definitions of XML documents (characters, names, trees, spelling, namespaces, IDs, canonical form, content), and
//! their laws, each the contract of a function with an empty body: no bytes spell two trees
//! (`no_bytes_spell_two_trees`); an element has one range (`a_range_is_one`); bytes begin with one token
//! (`bytes_begin_with_one_token`); texts of a spelled tree are joined (`a_spelled_tree_is_joined`); paths lead to
//! numbers and back (`a_path_leads_to_its_node`, `a_number_leads_to_its_path`); the classes are their ranges
//! (`classes_are_their_ranges`); declarations and attributes are written in order, none lost, none doubled
//! (`declarations_are_in_order`, `attributes_are_in_order`). Worked examples compute as theorems.
#![tactic(auto)]

/// How deep an element of a document may stand; the root has depth 1 (profile).
pub const MAX_DEPTH: usize = 64;

/// How many attributes an element may have, declarations of namespaces with them (profile).
pub const MAX_ATTRIBUTES: usize = 128;

/// The greatest length of a document, in bytes (profile).
pub const MAX_DOCUMENT_LENGTH: usize = 262_144;

ghost use Rattle.std.specs.Prelude.{◌≡◌, ℕ, ◌<◌, ◌↔◌, List, ◌∷◌, map, IsTrue, IsSomeAnd, Some};
ghost use Rattle.std.specs.List.Sorted.{IsPermutation};
ghost use Rattle.xml_spec.specs.Characters.{Ranges, InRanges, in_ranges};
ghost use Rattle.xml_spec.specs.Tree.{Attribute, Nodes, IsJoined};
ghost use Rattle.xml_spec.specs.Numbering.{size, path_of, number_of};
ghost use Rattle.xml_spec.specs.Syntax.{Token, AreTokens, print_tokens};
ghost use Rattle.xml_spec.specs.Document.{Spells, IsRange, Span};
ghost use Rattle.xml_spec.specs.Names.{Scope, attribute_name, proper_attributes};
ghost use Rattle.xml_spec.specs.Canonical.{byte_order, expanded_order, written_declarations, written_attributes};
ghost use Rattle.xml_spec.specs.Laws.{IsAscending, IsNonDescending, IsDeclaredAsNeeded, BeginsWith};

/// The tests of the classes of characters agree with the ranges of the standard.
pub fn classes_are_their_ranges()
    ensures { (ranges : Ranges) (c : ℕ) → IsTrue (in_ranges ranges c) ↔ InRanges ranges c }
{}

/// Bytes begin with one token at most, and what prints them goes on behind it.
pub fn bytes_begin_with_one_token()
    ensures { (bytes : List ℕ) (token other : Token) (rest : List ℕ) (tokens : List Token) →
        BeginsWith bytes token rest → AreTokens (other ∷ tokens) → bytes ≡ print_tokens (other ∷ tokens) →
        (other ≡ token) × (print_tokens tokens ≡ rest) }
{}

/// No bytes spell two trees.
pub fn no_bytes_spell_two_trees()
    ensures { (bytes : List ℕ) (one other : Nodes) → Spells bytes one → Spells bytes other → one ≡ other }
{}

/// An element of the document that bytes spell stands in one range of them.
pub fn a_range_is_one()
    ensures { (bytes : List ℕ) (n : ℕ) (one other : Span) → IsRange bytes n one → IsRange bytes n other → one ≡ other }
{}

/// In a tree that bytes spell no text is empty and no two texts are neighbours.
pub fn a_spelled_tree_is_joined()
    ensures { (bytes : List ℕ) (tree : Nodes) → Spells bytes tree → IsJoined tree }
{}

/// Each node has a path, and the path leads back to its number.
pub fn a_path_leads_to_its_node()
    ensures { (nodes : Nodes) (k : ℕ) → k < size nodes →
        IsSomeAnd (path_of nodes k) (λ path. number_of nodes path ≡ Some k) }
{}

/// A path that leads to a number leads to a node of the list, and is the path of that node.
pub fn a_number_leads_to_its_path()
    ensures there { (nodes : Nodes) (path : List ℕ) (k : ℕ) → number_of nodes path ≡ Some k → k < size nodes }
    ensures path { (nodes : Nodes) (path : List ℕ) (k : ℕ) → number_of nodes path ≡ Some k → path_of nodes k ≡ Some path }
{}

/// Declarations are written in ascending order of their prefixes: each that is needed once, and no other.
pub fn declarations_are_in_order()
    ensures ascending { (listed : List (List ℕ)) (scope rendered : Scope) (name : List ℕ) (attributes : List Attribute) →
        IsAscending byte_order (map (λ b. b.prefix) (written_declarations listed scope rendered name attributes)) }
    ensures needed { (listed : List (List ℕ)) (scope rendered : Scope) (name : List ℕ) (attributes : List Attribute)
        (prefix : List ℕ) → IsDeclaredAsNeeded listed scope rendered name attributes prefix }
{}

/// Attributes are written in the order of their expanded names, none lost and none doubled.
pub fn attributes_are_in_order()
    ensures in_order { (scope : Scope) (attributes : List Attribute) →
        IsNonDescending (λ a b. expanded_order (attribute_name scope a.name) (attribute_name scope b.name))
        (written_attributes scope attributes) }
    ensures all { (scope : Scope) (attributes : List Attribute) →
        IsPermutation (proper_attributes attributes) (written_attributes scope attributes) }
{}
