// The element children of an element, one after the other.

ghost use Rattle.std.specs.Prelude.{◌≡◌, ℕ, ◌<◌, ◌↔◌, List, [], ◌∷◌, length, MatchOption, IfOk, IfSome, IsTrue, OnOk, OnErr};
ghost use Rattle.std.specs.Option.{option_map};
ghost use Rattle.xml_spec.specs.Numbering.{size, next_of};
ghost use Rattle.saml_names.specs.Views.{name_of};
ghost use Rattle.saml_tree.specs.Elements.{IsElement};
ghost use Rattle.tree_read.specs.Children.{Child, child, is_name, named, element_children};
ghost use Rattle.tree_read.specs.Views.{tree_of};
ghost use Rattle.std.specs.Iterator.{YieldsFirstBy};
ghost use Rattle.tree_read.specs.Walk.{IsFrom, IsOneAtMost, name_of_node, children_from, children_first, child_at};

use crate::at::At;
use crate::fault::OtherShape;
use saml_names::ExpandedName;
use saml_tree::{Doc, NodeKind, NodeNo};
use std::marker::Model;

/// Whether an element has this expanded name (Namespaces in XML 1.0, 2.1).
fn is_named(doc: &Doc<'_>, node: NodeNo, name: ExpandedName<'_>) -> bool
    requires { IsElement doc.now.tree node.0 }
    ensures test { result ≡ is_name (name_of name.entry) (name_of_node doc.now.tree node.0) }
    ensures equal { IsTrue result ↔ (name_of_node doc.now.tree node.0 ≡ name_of name.entry) }
{
    let here = doc.name(node);
    here.namespace == name.namespace && here.local == name.local
}

impl At<'_, '_> {
    /// Whether the element has this expanded name (Namespaces in XML 1.0, 2.1).
    pub fn is_named(self, name: ExpandedName<'_>) -> bool
        ensures test { result ≡ is_name (name_of name.entry) (name_of_node (tree_of self.entry) self.entry.node.0) }
        ensures equal { IsTrue result ↔ (name_of_node (tree_of self.entry) self.entry.node.0 ≡ name_of name.entry) }
    {
        is_named(self.doc, self.node, name)
    }
}

/// The first element among a node and those behind it in its list.
fn first_element(doc: &Doc<'_>, from: Option<NodeNo>) -> Option<NodeNo>
    requires { IfSome from (λ k. k.0 < size doc.now.tree) }
    ensures found { children_from doc.now.tree (option_map (λ k. k.0) from) ≡ children_first doc.now.tree (option_map (λ k. k.0) result) }
    ensures element { IfSome result (λ k. IsElement doc.now.tree k.0) }
    ensures behind { IfSome result (λ k. IsFrom (option_map (λ m. m.0) from) k.0) }
{
    let mut next = from;
    while let Some(node) = next {
        if doc.kind(node) == NodeKind::Element {
            return Some(node);
        }
        next = doc.next(node);
    }
    None
}

/// The first element of this name among a node and those behind it in its list.
fn first_named(doc: &Doc<'_>, from: Option<NodeNo>, name: ExpandedName<'_>) -> Option<NodeNo>
    requires { IfSome from (λ k. k.0 < size doc.now.tree) }
    ensures found { MatchOption result (named (name_of name.entry) (children_from doc.now.tree (option_map (λ k. k.0) from)) ≡ [])
        (λ k. named (name_of name.entry) (children_from doc.now.tree (option_map (λ k. k.0) from))
        ≡ k.0 ∷ named (name_of name.entry) (children_from doc.now.tree (next_of doc.now.tree k.0))) }
    ensures element { IfSome result (λ k. IsElement doc.now.tree k.0) }
{
    let mut next = first_element(doc, from);
    while let Some(node) = next {
        if is_named(doc, node, name) {
            return Some(node);
        }
        next = first_element(doc, doc.next(node));
    }
    None
}

/// The element children of an element that are left, in document order. Texts, comments and instructions between them
/// are passed over.
#[derive(Drop)]
pub struct ElementChildren<'d, 'a> {
    doc: &'d Doc<'a>,
    next: Option<NodeNo>,
}

impl<'d, 'a> Model for ElementChildren<'d, 'a> {
    ghost use Rattle.tree_read.specs.Walk.{ChildrenView, coded_children};

    ghost Value = { ChildrenView };

    ghost coded = { coded_children };

    ghost use Rattle.std.specs.Option.{option_map};
    ghost use Rattle.tree_read.specs.Walk.{IsPlace, children_from};

    ghost view = { λ w. record { document = w.doc.now; left = children_from w.doc.now.tree (option_map (λ k. k.0) w.next) } };

    ghost invariant = { λ w. IsPlace w.doc.now.tree (option_map (λ k. k.0) w.next) };
}

impl<'d, 'a> ElementChildren<'d, 'a> {
    /// All the element children of an element.
    pub fn of(at: At<'d, 'a>) -> ElementChildren<'d, 'a>
        ensures document { result.document ≡ at.entry.doc.now }
        ensures left { result.left ≡ element_children (tree_of at.entry) at.entry.node.0 }
    {
        ElementChildren {
            doc: at.doc,
            next: at.doc.first_kid(at.node),
        }
    }

    /// Takes the next one.
    fn next_element(&mut self) -> Option<At<'d, 'a>>
        ensures taken { YieldsFirstBy child_at (λ w. w.left) self.old result self.new }
        ensures there { IfSome result (λ at. at.doc.now ≡ self.old.document) }
        ensures document { self.new.document ≡ self.old.document }
    {
        let doc = self.doc;
        let Some(node) = first_element(doc, self.next) else {
            self.next = None;
            return None;
        };
        self.next = doc.next(node);
        Some(At { doc, node })
    }

    /// Takes the next one, which has to have this name.
    ///
    /// # Errors
    ///
    /// `OtherShape`, exactly where there is none or the next one has another name. All are then still left.
    pub fn take(&mut self, name: ExpandedName<'_>) -> Result<At<'d, 'a>, OtherShape>
        ensures taken { IfOk result (λ at. self.old.left ≡ child at.node.0 (name_of name.entry) ∷ self.new.left) }
        ensures there { IfOk result (λ at. at.doc.now ≡ self.old.document) }
        ensures document { self.new.document ≡ self.old.document }
        ensures other { OnErr result ((k : ℕ) (others : List Child) → ¬ (self.old.left ≡ child k (name_of name.entry) ∷ others)) }
        ensures unchanged { OnErr result (self.new.left ≡ self.old.left) }
    {
        let doc = self.doc;
        let Some(node) = first_element(doc, self.next) else {
            return Err(OtherShape);
        };
        if !is_named(doc, node, name) {
            return Err(OtherShape);
        }
        self.next = doc.next(node);
        Ok(At { doc, node })
    }

    /// Takes the next one of this name. Those in front of it are passed over, and where there is none, all.
    pub fn next_named(&mut self, name: ExpandedName<'_>) -> Option<At<'d, 'a>>
        ensures taken { MatchOption result (named (name_of name.entry) self.old.left ≡ [])
            (λ at. named (name_of name.entry) self.old.left ≡ at.node.0 ∷ named (name_of name.entry) self.new.left) }
        ensures there { IfSome result (λ at. at.doc.now ≡ self.old.document) }
        ensures document { self.new.document ≡ self.old.document }
    {
        let doc = self.doc;
        let Some(node) = first_named(doc, self.next, name) else {
            self.next = None;
            return None;
        };
        self.next = doc.next(node);
        Some(At { doc, node })
    }

    /// How many of those that are left have this name.
    pub fn count(&self, name: ExpandedName<'_>) -> u32
        ensures { result ≡ length (named (name_of name.entry) self.now.left) }
    {
        let doc = self.doc;
        let mut count: u32 = 0;
        let mut next = first_element(doc, self.next);
        while let Some(node) = next {
            if is_named(doc, node, name) {
                count += 1;
            }
            next = first_element(doc, doc.next(node));
        }
        count
    }

    /// Whether none that is left has this name.
    pub fn has_no(&self, name: ExpandedName<'_>) -> bool
        ensures { IsTrue result ↔ (named (name_of name.entry) self.now.left ≡ []) }
    {
        self.count(name) == 0
    }

    /// Whether none is left.
    pub fn is_done(&self) -> bool
        ensures { IsTrue result ↔ (self.now.left ≡ []) }
    {
        first_element(self.doc, self.next).is_none()
    }

    /// Asks that none be left.
    ///
    /// # Errors
    ///
    /// `OtherShape`, exactly where one is.
    pub fn end(&self) -> Result<(), OtherShape>
        ensures done { OnOk result (self.now.left ≡ []) }
        ensures other { OnErr result (¬ (self.now.left ≡ [])) }
    {
        if self.is_done() {
            Ok(())
        } else {
            Err(OtherShape)
        }
    }

    /// Asks that none be left, or one alone that has this name.
    ///
    /// # Errors
    ///
    /// `OtherShape`, exactly where others are left. The one may have been taken.
    pub fn end_or(&mut self, name: ExpandedName<'_>) -> Result<(), OtherShape>
        ensures done { OnOk result (IsOneAtMost (name_of name.entry) self.old.left) }
        ensures other { OnErr result (¬ (IsOneAtMost (name_of name.entry) self.old.left)) }
        ensures document { self.new.document ≡ self.old.document }
    {
        if self.is_done() {
            return Ok(());
        }
        self.take(name)?;
        self.end()
    }
}

/// The element children of an element that are left, in document order, as an iterator.
#[derive(Drop)]
pub struct Elements<'d, 'a> {
    left: ElementChildren<'d, 'a>,
}

impl<'d, 'a> Model for Elements<'d, 'a> {
    ghost use Rattle.tree_read.specs.Walk.{ChildrenView, coded_children};

    ghost Value = { ChildrenView };

    ghost coded = { coded_children };

    ghost view = { λ e. e.left };
}

impl<'d, 'a> Elements<'d, 'a> {
    /// All the element children of an element.
    pub fn of(at: At<'d, 'a>) -> Elements<'d, 'a>
        ensures document { result.document ≡ at.entry.doc.now }
        ensures left { result.left ≡ element_children (tree_of at.entry) at.entry.node.0 }
    {
        Elements {
            left: ElementChildren::of(at),
        }
    }
}

impl<'d, 'a> Iterator for Elements<'d, 'a> {
    type Item = At<'d, 'a>;

    ghost use Rattle.std.specs.Iterator.{YieldsFirstBy, item_count};
    ghost use Rattle.tree_read.specs.Walk.{child_at};

    ghost next_gives = { λ old result new. YieldsFirstBy child_at (λ w. w.left) old result new
        × (new.document ≡ old.document) × IfSome result (λ at. at.doc.now ≡ old.document) };

    ghost remaining = { item_count (λ w. w.left) };

    /// The next one.
    fn next(&mut self) -> Option<At<'d, 'a>> {
        self.left.next_element()
    }
}
