//! Where the elements of a document stand in its bytes: elements that lie in others are written within these, and elements
//! of which neither lies in the other are written apart (XML 1.0, 2.1: the elements, delimited by start- and end-tags, nest
//! properly within each other).
//!
//! # What is proved
//!
//! Elements that lie in others are written within these, and elements of which neither lies in the other are written
//! apart (`ranges_nest`, `other_ranges_are_apart`).
#![tactic(auto)]

ghost use Rattle.std.specs.Prelude.{ℕ, List};
ghost use Rattle.xml_spec.specs.Tree.{Nodes};
ghost use Rattle.xml_spec.specs.Document.{Spells, Span};
ghost use Rattle.range_laws.specs.Ranges.{StandsAt, LiesIn, IsWithin, AreApart};

/// The range of an element that lies in another is within the range of that one.
pub fn ranges_nest()
    ensures { (bytes : List ℕ) (tree : Nodes) (e n : ℕ) (outer inner : Span) → Spells bytes tree → LiesIn tree e n →
        StandsAt bytes tree e outer → StandsAt bytes tree n inner → IsWithin outer inner }
{}

/// The ranges of two elements, neither of which lies in the other, are apart.
pub fn other_ranges_are_apart()
    ensures { (bytes : List ℕ) (tree : Nodes) (m n : ℕ) (one other : Span) → Spells bytes tree → ¬ (LiesIn tree m n) → ¬ (LiesIn tree n m) →
        StandsAt bytes tree m one → StandsAt bytes tree n other → AreApart one other }
{}
