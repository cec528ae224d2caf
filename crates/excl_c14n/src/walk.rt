//! The canonical form of an element, node by node in document order.
ghost use Rattle.std.specs.Prelude.{◌≡◌, ℕ, ◌<◌, [], ◌∷◌, ◌||◌, List, map, length, Some, IsSome, IfSome, IfOk, OnOk, OnErr};
ghost use Rattle.std.specs.List.{flat_map};
ghost use Rattle.std.specs.Option.{option_map};
ghost use Rattle.xml_spec.specs.Names.{Scope, HasNames, outermost};
ghost use Rattle.xml_spec.specs.Numbering.{size, from_node};
ghost use Rattle.xml_spec.specs.Canonical.{scope_at, escape_text, canonical, print_attribute, print_binding, print_start, print_instruction, print_end, written_attributes};
ghost use Rattle.canon_octets.specs.Places.{AppendsPart};
ghost use Rattle.saml_tree.specs.Documents.{kind_of, text_of};
ghost use Rattle.saml_tree.specs.declared.node.NodeKind.TheVariants as kinds;
ghost use Rattle.saml_tree.specs.NodeNames.{attribute_at};
ghost use Rattle.saml_tree.specs.Elements.{IsElement, name_in, attributes_in};
ghost use Rattle.excl_c14n.specs.Levels.{in_force, with_bindings, is_among, AreListedRendered};
ghost use Rattle.excl_c14n.specs.Pairs.{prefixes_in, binding_placed, ArePlaced, AreThere, AreDeclared, is_declared_in, IsBoundAs};
ghost use Rattle.excl_c14n.specs.NodeByNode.{scope_inside, wanted_prefixes, written_in, start_in, is_skipped, node_form};

use crate::listed::Listed;
use crate::names::{attribute_name, declared, node_name};
use crate::order::{Order, put_in_order};
use crate::placed::Placed;
use crate::rendered::Rendered;
use crate::wanted::{want, want_used};
use canon_octets::{
    Octets, escape_text, put_attribute, put_declaration, put_end, put_instruction, put_start,
};
use owned_values::{NoMemory, Texts};
use saml_tree::{Doc, NameAt, NodeKind, NodeNo};
use std::alloc::Global;

/// Appends the declarations of these prefixes.
fn put_declarations<O: Octets>(
    doc: &Doc<'_>,
    wanted: &Placed<'_>,
    out: &mut O,
) -> Result<(), NoMemory>
    requires { AreThere doc.now.tree wanted.now }
    ensures ok { OnOk result (O.appends out.old out.new (flat_map print_binding (map (binding_placed doc.now.tree) wanted.now))) }
    ensures err { OnErr result (AppendsPart O.appends out.old out.new (flat_map print_binding (map (binding_placed doc.now.tree) wanted.now))) }
{
    for i in 0..wanted.len() {
        put_declaration(wanted.prefix(i), doc.namespace_at(wanted.place(i)), out)?;
    }
    Ok(())
}

/// Notes that the innermost element renders these prefixes.
fn render_all<'d>(wanted: &Placed<'d>, rendered: &mut Rendered<'d, '_>) -> Result<(), NoMemory>
    requires level { 0 < length rendered.old.levels }
    requires there { AreThere rendered.old.tree wanted.now }
    ensures { OnOk result (rendered.new ≡ record rendered.old {
      levels = with_bindings (map (binding_placed rendered.old.tree) wanted.now) rendered.old.levels;
    }) }
{
    for i in (0..wanted.len()).rev() {
        rendered.render(wanted.prefix(i), wanted.place(i))?;
    }
    Ok(())
}

/// Room for one value or one element after the other. What was put into it for one says nothing of the next.
#[derive(Drop)]
struct Room<'d> {
    text: String,
    order: Order<'d>,
}

/// A document whose nodes are written, all but one that is left out.
#[derive(Drop)]
struct Walk<'d, 'a> {
    alloc: Global,
    doc: &'d Doc<'a>,
    skip: Option<NodeNo>,
    listed: Listed<'d>,
}

impl<'d, 'a> Walk<'d, 'a> {
    /// Adds the listed prefixes that element n declares, but for those that are there.
    fn add_declared(&self, n: NodeNo, found: &mut Placed<'d>) -> Result<(), NoMemory>
        requires element { IsElement self.now.doc.now.tree n.0 }
        requires names { HasNames self.now.doc.now.tree }
        ensures among { OnOk result ((q : List ℕ) → is_among q (prefixes_in found.new)
            ≡ (is_among q (prefixes_in found.old) || is_declared_in self.now.listed (attributes_in (from_node self.now.doc.now.tree n.0)) q)) }
        ensures placed { OnOk result ((scope : Scope) → ArePlaced self.now.doc.now.tree scope found.old →
            IsBoundAs self.now.listed (attributes_in (from_node self.now.doc.now.tree n.0)) (prefixes_in found.old) scope →
            ArePlaced self.now.doc.now.tree scope found.new) }
    {
        if self.listed.is_empty() {
            return Ok(());
        }
        for i in 0..self.doc.attr_count(n) {
            let Some(prefix) = declared(self.doc, n, i) else {
                continue;
            };
            if self.listed.has(prefix) {
                found.add(prefix, NameAt::Declaration(n, i))?;
            }
        }
        Ok(())
    }

    /// The listed prefixes that a node declares.
    fn declared_at(&self, n: NodeNo) -> Result<Placed<'d>, NoMemory>
        requires there { n.0 < size self.now.doc.now.tree }
        requires names { HasNames self.now.doc.now.tree }
        ensures { IfOk result (λ found. (rendered : Scope) → AreListedRendered self.now.listed [] (scope_at outermost self.now.doc.now.tree n.0) rendered →
            AreDeclared self.now.listed self.now.doc.now.tree n.0 rendered found) }
    {
        let mut found = Placed::new(self.alloc);
        if self.doc.kind(n) == NodeKind::Element {
            self.add_declared(n, &mut found)?;
        }
        Ok(found)
    }

    /// The listed prefixes that element n and those around it declare, each as the innermost of them does.
    fn declared_around(&self, n: NodeNo) -> Result<Placed<'d>, NoMemory>
        requires element { IsElement self.now.doc.now.tree n.0 }
        requires names { HasNames self.now.doc.now.tree }
        ensures { IfOk result (AreDeclared self.now.listed self.now.doc.now.tree n.0 []) }
    {
        let mut found = Placed::new(self.alloc);
        let mut next = Some(n);
        while let Some(element) = next {
            self.add_declared(element, &mut found)?;
            next = self.doc.parent(element);
        }
        Ok(found)
    }

    /// The prefixes that are declared in the start tag of element n, in order. Of the listed ones only those can be among
    /// them that were declared since the last start tag was written.
    fn wanted_at(
        &self,
        n: NodeNo,
        declared: &Placed<'d>,
        rendered: &Rendered<'d, 'a>,
    ) -> Result<Placed<'d>, NoMemory>
        requires element { IsElement self.now.doc.now.tree n.0 }
        requires names { HasNames self.now.doc.now.tree }
        requires tree { rendered.now.tree ≡ self.now.doc.now.tree }
        requires declared { AreDeclared self.now.listed self.now.doc.now.tree n.0 (in_force rendered.now.levels) declared.now }
        ensures prefixes { IfOk result (λ wanted. prefixes_in wanted
            ≡ wanted_prefixes self.now.listed (scope_inside self.now.doc.now.tree n.0) (in_force rendered.now.levels)
            (name_in (from_node self.now.doc.now.tree n.0)) (attributes_in (from_node self.now.doc.now.tree n.0))) }
        ensures placed { IfOk result (λ wanted. ArePlaced self.now.doc.now.tree (scope_inside self.now.doc.now.tree n.0) wanted) }
    {
        let mut wanted = want_used(self.alloc, self.doc, rendered, n)?;
        for i in 0..declared.len() {
            want(rendered, declared.prefix(i), declared.place(i), &mut wanted)?;
        }
        Ok(wanted)
    }

    /// Appends attribute i of node n. `room` takes its value.
    fn put_attribute<O: Octets>(
        &self,
        n: NodeNo,
        i: usize,
        room: &mut String,
        out: &mut O,
    ) -> Result<(), NoMemory>
        requires there { IsSome (attribute_at self.now.doc.now.tree n.0 i) }
        ensures ok { OnOk result (IfSome (attribute_at self.now.doc.now.tree n.0 i) (λ a.
            O.appends out.old out.new (print_attribute a.name a.value))) }
        ensures err { OnErr result (IfSome (attribute_at self.now.doc.now.tree n.0 i) (λ a.
            AppendsPart O.appends out.old out.new (print_attribute a.name a.value))) }
    {
        room.clear();
        self.doc.put_attr(n, i, room)?;
        let name = attribute_name(self.doc, n, i);
        put_attribute(name, room.as_str(), out)
    }

    /// Appends the attributes of an element that declare nothing, in order.
    fn put_attributes<O: Octets>(
        &self,
        n: NodeNo,
        room: &mut Room<'d>,
        out: &mut O,
    ) -> Result<(), NoMemory>
        requires element { IsElement self.now.doc.now.tree n.0 }
        requires names { HasNames self.now.doc.now.tree }
        ensures ok { OnOk result (O.appends out.old out.new (flat_map (λ a. print_attribute a.name a.value)
            (written_attributes (scope_inside self.now.doc.now.tree n.0) (attributes_in (from_node self.now.doc.now.tree n.0))))) }
        ensures err { OnErr result (AppendsPart O.appends out.old out.new (flat_map (λ a. print_attribute a.name a.value)
            (written_attributes (scope_inside self.now.doc.now.tree n.0) (attributes_in (from_node self.now.doc.now.tree n.0))))) }
    {
        put_in_order(self.doc, n, &mut room.order)?;
        for i in &room.order.numbers {
            self.put_attribute(n, *i, &mut room.text, out)?;
        }
        Ok(())
    }

    /// Appends the start tag of an element, with the declarations of these prefixes.
    fn put_start<O: Octets>(
        &self,
        n: NodeNo,
        wanted: &Placed<'d>,
        room: &mut Room<'d>,
        out: &mut O,
    ) -> Result<(), NoMemory>
        requires element { IsElement self.now.doc.now.tree n.0 }
        requires names { HasNames self.now.doc.now.tree }
        requires there { AreThere self.now.doc.now.tree wanted.now }
        ensures ok { OnOk result (O.appends out.old out.new (print_start (name_in (from_node self.now.doc.now.tree n.0))
            (map (binding_placed self.now.doc.now.tree) wanted.now)
            (written_attributes (scope_inside self.now.doc.now.tree n.0) (attributes_in (from_node self.now.doc.now.tree n.0))))) }
        ensures err { OnErr result (AppendsPart O.appends out.old out.new (print_start (name_in (from_node self.now.doc.now.tree n.0))
            (map (binding_placed self.now.doc.now.tree) wanted.now)
            (written_attributes (scope_inside self.now.doc.now.tree n.0) (attributes_in (from_node self.now.doc.now.tree n.0))))) }
    {
        let name = node_name(self.doc, n);
        put_start(name, out)?;
        put_declarations(self.doc, wanted, out)?;
        self.put_attributes(n, room, out)?;
        out.put(b">")
    }

    /// Begins an element: appends its start tag, and notes what that renders. `declared` are the listed prefixes that were
    /// declared since the last start tag was written.
    fn begin<O: Octets>(
        &self,
        n: NodeNo,
        declared: &Placed<'d>,
        rendered: &mut Rendered<'d, 'a>,
        room: &mut Room<'d>,
        out: &mut O,
    ) -> Result<(), NoMemory>
        requires element { IsElement self.now.doc.now.tree n.0 }
        requires names { HasNames self.now.doc.now.tree }
        requires tree { rendered.old.tree ≡ self.now.doc.now.tree }
        requires declared { AreDeclared self.now.listed self.now.doc.now.tree n.0 (in_force rendered.old.levels) declared.now }
        ensures start { OnOk result (O.appends out.old out.new
            (start_in self.now.listed (scope_at outermost self.now.doc.now.tree n.0) (in_force rendered.old.levels)
            (name_in (from_node self.now.doc.now.tree n.0)) (attributes_in (from_node self.now.doc.now.tree n.0)))) }
        ensures err { OnErr result (AppendsPart O.appends out.old out.new
            (start_in self.now.listed (scope_at outermost self.now.doc.now.tree n.0) (in_force rendered.old.levels)
            (name_in (from_node self.now.doc.now.tree n.0)) (attributes_in (from_node self.now.doc.now.tree n.0)))) }
        ensures shown { OnOk result (rendered.new ≡ record rendered.old {
          levels = with_bindings (written_in self.now.listed (scope_at outermost self.now.doc.now.tree n.0) (in_force rendered.old.levels)
              (name_in (from_node self.now.doc.now.tree n.0)) (attributes_in (from_node self.now.doc.now.tree n.0))) ([] ∷ rendered.old.levels);
        }) }
    {
        rendered.enter()?;
        let wanted = self.wanted_at(n, declared, rendered)?;
        self.put_start(n, &wanted, room, out)?;
        render_all(&wanted, rendered)
    }

    /// Appends the end tag of an element.
    fn put_end<O: Octets>(&self, n: NodeNo, out: &mut O) -> Result<(), NoMemory>
        requires element { IsElement self.now.doc.now.tree n.0 }
        ensures ok { OnOk result (O.appends out.old out.new (print_end (name_in (from_node self.now.doc.now.tree n.0)))) }
        ensures err { OnErr result (AppendsPart O.appends out.old out.new (print_end (name_in (from_node self.now.doc.now.tree n.0)))) }
    {
        let name = node_name(self.doc, n);
        put_end(name, out)
    }

    /// Appends a text. `room` takes it.
    fn put_text<O: Octets>(&self, n: NodeNo, room: &mut String, out: &mut O) -> Result<(), NoMemory>
        requires { IsSome (text_of (from_node self.now.doc.now.tree n.0)) }
        ensures ok { OnOk result (IfSome (text_of (from_node self.now.doc.now.tree n.0)) (λ text.
            O.appends out.old out.new (escape_text text))) }
        ensures err { OnErr result (IfSome (text_of (from_node self.now.doc.now.tree n.0)) (λ text.
            AppendsPart O.appends out.old out.new (escape_text text))) }
    {
        room.clear();
        self.doc.put_text(n, room)?;
        escape_text(room.as_str(), out)
    }

    /// Appends an instruction. `room` takes its value.
    fn put_instruction<O: Octets>(
        &self,
        n: NodeNo,
        room: &mut String,
        out: &mut O,
    ) -> Result<(), NoMemory>
        requires { kind_of (from_node self.now.doc.now.tree n.0) ≡ Some kinds.Instruction }
        ensures ok { OnOk result (IfSome (text_of (from_node self.now.doc.now.tree n.0)) (λ value.
            O.appends out.old out.new (print_instruction (name_in (from_node self.now.doc.now.tree n.0)) value))) }
        ensures err { OnErr result (IfSome (text_of (from_node self.now.doc.now.tree n.0)) (λ value.
            AppendsPart O.appends out.old out.new (print_instruction (name_in (from_node self.now.doc.now.tree n.0)) value))) }
    {
        room.clear();
        self.doc.put_text(n, room)?;
        put_instruction(self.doc.name(n).local, room.as_str(), out)
    }

    /// Whether the node is the one that is left out.
    fn skips(&self, n: NodeNo) -> bool
        ensures { result ≡ is_skipped (option_map (λ s. s.0) self.now.skip) n.0 }
    {
        self.skip == Some(n)
    }

    /// Appends a node with all that is below it, and leaves what was rendered as it was. `declared` are the listed prefixes
    /// that were declared since the last start tag was written. A document's elements
    /// stand at most 64 deep, and so deep are the calls.
    fn put_node<O: Octets>(
        &self,
        n: NodeNo,
        declared: &Placed<'d>,
        rendered: &mut Rendered<'d, 'a>,
        room: &mut Room<'d>,
        out: &mut O,
    ) -> Result<(), NoMemory>
        requires there { n.0 < size self.now.doc.now.tree }
        requires names { HasNames self.now.doc.now.tree }
        requires tree { rendered.old.tree ≡ self.now.doc.now.tree }
        requires declared { AreDeclared self.now.listed self.now.doc.now.tree n.0 (in_force rendered.old.levels) declared.now }
        ensures form { OnOk result (O.appends out.old out.new
            (node_form self.now.listed (option_map (λ s. s.0) self.now.skip) n.0 (scope_at outermost self.now.doc.now.tree n.0)
            (in_force rendered.old.levels) (from_node self.now.doc.now.tree n.0))) }
        ensures err { OnErr result (AppendsPart O.appends out.old out.new
            (node_form self.now.listed (option_map (λ s. s.0) self.now.skip) n.0 (scope_at outermost self.now.doc.now.tree n.0)
            (in_force rendered.old.levels) (from_node self.now.doc.now.tree n.0))) }
        ensures same { OnOk result (rendered.new ≡ rendered.old) }
    {
        if self.skips(n) {
            return Ok(());
        }
        match self.doc.kind(n) {
            NodeKind::Text => return self.put_text(n, &mut room.text, out),
            NodeKind::Comment => return Ok(()),
            NodeKind::Instruction => return self.put_instruction(n, &mut room.text, out),
            NodeKind::Element => {}
        }
        self.begin(n, declared, rendered, room, out)?;
        let mut next = self.doc.first_kid(n);
        while let Some(kid) = next {
            let own = self.declared_at(kid)?;
            self.put_node(kid, &own, rendered, room, out)?;
            next = self.doc.next(kid);
        }
        rendered.leave();
        self.put_end(n, out)
    }
}

/// Appends the exclusive canonical form of an element, without comments and without the element `skip`, where
/// `prefixes` is the PrefixList of InclusiveNamespaces (Exclusive C14N 1.0, 3 and 4). `skip` comes behind the element in
/// document order; one that does not stand in it changes nothing. The form is put piece by piece, in document order, and no
/// piece is longer than 64 bytes or than what it comes from; the memory that it takes is that of the longest value and of what
/// is declared around a place. Where memory runs out, or the place refuses a piece, nothing more is put: a part of the form from
/// its first byte on may have been appended.
pub fn canon_into<O: Octets>(
    alloc: Global,
    doc: &Doc<'_>,
    node: NodeNo,
    skip: Option<NodeNo>,
    prefixes: &Texts,
    out: &mut O,
) -> Result<(), NoMemory>
    requires element { IsElement doc.now.tree node.0 }
    requires skipped { IfSome skip (λ s. node.0 < s.0) }
    ensures ok { OnOk result (O.appends out.old out.new (canonical doc.now.tree node.0 (option_map (λ s. s.0) skip) prefixes.now)) }
    ensures err { OnErr result (AppendsPart O.appends out.old out.new
        (canonical doc.now.tree node.0 (option_map (λ s. s.0) skip) prefixes.now)) }
{
    // The document is named well, which its root tells.
    let _ = doc.root();
    let listed = Listed::new(alloc, prefixes)?;
    let walk = Walk {
        alloc,
        doc,
        skip,
        listed,
    };
    let declared = walk.declared_around(node)?;
    let mut rendered = Rendered::new(alloc, doc);
    let mut room = Room {
        text: String::new(alloc),
        order: Order::new(alloc),
    };
    walk.put_node(node, &declared, &mut rendered, &mut room, out)
}
