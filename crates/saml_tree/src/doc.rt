// A document that was read.

ghost use Rattle.std.specs.Prelude.{◌≡◌, ℕ, ◌<◌, ◌++◌, ◌↔◌, [], length, map, take, string_bytes, unwrap_or, Some, IsTrue, OnOk, OnErr, IfSome, IsSome, ◌^◌};
ghost use Rattle.std.specs.Option.{option_map};
ghost use Rattle.xml_spec.specs.Numbering.{size, from_node, kids_of, rest_of, first_kid_of, next_of, parent_of, elements_before};
ghost use Rattle.xml_spec.specs.Identifiers.{identifiers, node_with};
ghost use Rattle.xml_spec.specs.Document.{IsRange};
ghost use Rattle.xml_spec.specs.Canonical.{byte_order};
ghost use Rattle.saml_tree.specs.Documents.{IsSpelled, IsWritten, kind_of, name_of, attributes_of, text_of};
ghost use Rattle.saml_tree.specs.NodeNames.{name_at, attribute_at, attribute_name_at, IsNameAt, namespace_at};
ghost use Rattle.tree_rows.specs.Rows.{node, nodes_at};
ghost use Rattle.tree_rows.specs.Shaped.{IsShaped};
ghost use Rattle.tree_rows.specs.Views.{shown_shape};
ghost use Rattle.saml_tree.specs.Resolved.{AreResolved, kept_for};
ghost use Rattle.saml_tree.specs.Kept.{HaveRanges};
ghost use Rattle.saml_tree.specs.Index.{IsIndex};
ghost use Rattle.saml_tree.specs.Links.{depths_of, AreLinkedSoFar};
ghost use Rattle.saml_tree.specs.Views.{leaf_text, name_view};
ghost use Rattle.xml_spec.specs.Meaning.{line_ends};
ghost use Rattle.xml_tokens.specs.Views.{attribute_view};

use crate::ids::Ids;
use crate::names::{Kept, Names, shown_name};
use crate::node::{Name, NameAt, NodeKind, NodeNo};
use element_names::is_declaration;
use owned_values::NoMemory;
use std::cmp::Ordering;
use std::marker::Model;
use tree_rows::{Leaf, Rows, Shape};
use xml_chars::Span;
use xml_tokens::{Attribute, WrittenName, put_line_ends, strip_line_ends};

/// A document: the text that it was read from, and the nodes of its tree, each addressed by its number.
#[derive(Debug, Drop)]
pub struct Doc<'a> {
    text: &'a [u8],
    rows: Rows<'a>,
    names: Names,
    ids: Ids,
}

impl<'a> Model for Doc<'a> {
    ghost use Rattle.saml_tree.specs.Documents.{DocumentView, coded_document};

    ghost Value = { DocumentView };

    ghost coded = { coded_document };

    ghost use Rattle.tree_rows.specs.Rows.{nodes_at};
    ghost use Rattle.saml_tree.specs.Links.{IsKept};

    ghost view = { λ d. record { text = d.text.now; tree = nodes_at 0 d.rows.rows } };

    ghost invariant = { λ d. IsKept d.text.now d.rows.rows d.rows.links d.names d.ids };
}

impl<'a> Doc<'a> {
    ghost use Rattle.saml_tree.specs.declared.node.NodeKind.{NodeKind};
    ghost use Rattle.saml_tree.specs.declared.node.NodeKind.TheVariants as kinds;

    /// The document of these rows, with its elements by their IDs.
    pub(crate) fn of(text: &'a [u8], rows: Rows<'a>, names: Names, ids: Ids) -> Doc<'a>
        requires shaped { IsShaped rows.rows }
        requires ranges { HaveRanges text.now rows.rows }
        requires count { length rows.rows < 2 ^ 32 }
        requires linked { AreLinkedSoFar (depths_of rows.rows) rows.links [] }
        requires resolved { AreResolved rows.rows names }
        requires spelled { IsSpelled text.now (nodes_at 0 rows.rows) }
        requires indexed { IsIndex (identifiers (nodes_at 0 rows.rows)) ids }
        ensures text { result.text ≡ text.now }
        ensures tree { result.tree ≡ nodes_at 0 rows.entry.rows }
    {
        Doc {
            text,
            rows,
            names,
            ids,
        }
    }

    /// The root element.
    pub fn root(&self) -> NodeNo
        ensures number { result.0 ≡ 0 }
        ensures element { kind_of (from_node self.now.tree result.0) ≡ Some kinds.Element }
        // The tree is the one that the text spells, under the limits, named and single.
        ensures spelled { IsSpelled self.now.text self.now.tree }
    {
        let _ = &self.rows;
        NodeNo(0)
    }

    /// The node itself, without its kids.
    fn shape(&self, n: NodeNo) -> Shape<'_, 'a>
        requires { n.0 < size self.now.tree }
        ensures node { let here = from_node self.now.tree n.0 in here ≡ node (shown_shape result) (kids_of here) (rest_of here) }
    {
        self.rows.shape(n.0 as usize)
    }

    /// What the node is.
    pub fn kind(&self, n: NodeNo) -> NodeKind
        requires { n.0 < size self.now.tree }
        ensures { kind_of (from_node self.now.tree n.0) ≡ Some result }
    {
        match self.shape(n) {
            Shape::Element { .. } => NodeKind::Element,
            Shape::Leaf(leaf) => match leaf {
                Leaf::Text(_) => NodeKind::Text,
                Leaf::Comment(_) => NodeKind::Comment,
                Leaf::Instruction { .. } => NodeKind::Instruction,
            },
        }
    }

    /// The first kid of an element.
    pub fn first_kid(&self, n: NodeNo) -> Option<NodeNo>
        requires { kind_of (from_node self.now.tree n.0) ≡ Some kinds.Element }
        ensures number { option_map (λ kid. kid.0) result ≡ first_kid_of self.now.tree n.0 }
        ensures inside { IfSome result (λ kid. kid.0 < size self.now.tree) }
    {
        let end = self.rows.link(n.0 as usize).end;
        let behind = n.0 as usize + 1;
        if behind < end {
            Some(NodeNo(behind as u32))
        } else {
            None
        }
    }

    /// The node behind this one among the kids of their parent.
    pub fn next(&self, n: NodeNo) -> Option<NodeNo>
        requires { n.0 < size self.now.tree }
        ensures number { option_map (λ node. node.0) result ≡ next_of self.now.tree n.0 }
        ensures inside { IfSome result (λ node. node.0 < size self.now.tree) }
    {
        let end = self.rows.link(n.0 as usize).end;
        if end < self.rows.len() && self.rows.depth(end) == self.rows.depth(n.0 as usize) {
            Some(NodeNo(end as u32))
        } else {
            None
        }
    }

    /// The element that the node is a kid of; the root has none.
    pub fn parent(&self, n: NodeNo) -> Option<NodeNo>
        requires { n.0 < size self.now.tree }
        ensures number { option_map (λ element. element.0) result ≡ parent_of self.now.tree n.0 }
        ensures element { IfSome result (λ element. kind_of (from_node self.now.tree element.0) ≡ Some kinds.Element) }
    {
        if n.0 == 0 {
            None
        } else {
            Some(NodeNo(self.rows.link(n.0 as usize).parent as u32))
        }
    }

    /// The name of an element, with its namespace.
    pub fn name(&self, n: NodeNo) -> Name<'_>
        requires { IsSome (name_of (from_node self.now.tree n.0)) }
        ensures { name_at self.now.tree n.0 ≡ Some (name_view result) }
    {
        match self.shape(n) {
            Shape::Element { name, .. } => {
                shown_name(name, self.namespace_at(NameAt::Element(n)))
            }
            Shape::Leaf(leaf) => match leaf {
                Leaf::Instruction { target, .. } => Name {
                    prefix: "",
                    local: target,
                    namespace: "",
                },
                Leaf::Text(_) | Leaf::Comment(_) => unreachable!(),
            },
        }
    }

    /// The name of an element as it is written.
    pub fn written_name(&self, n: NodeNo) -> &WrittenName<'a>
        requires { kind_of (from_node self.now.tree n.0) ≡ Some kinds.Element }
        ensures { name_of (from_node self.now.tree n.0) ≡ Some result.now }
    {
        match self.shape(n) {
            Shape::Element { name, .. } => name,
            Shape::Leaf(_) => unreachable!(),
        }
    }

    /// Which number is kept for a place.
    fn kept(&self, place: NameAt) -> Kept
        requires { IsNameAt self.now.tree place }
        ensures { result ≡ kept_for self.now.tree place }
    {
        match place {
            NameAt::Element(n) => Kept::Element(n),
            NameAt::Attribute(n, i) => {
                if is_declaration(&self.attribute(n, i).name) {
                    Kept::Xmlns
                } else {
                    Kept::Attribute(n, i)
                }
            }
            NameAt::Declaration(n, i) => Kept::Attribute(n, i),
        }
    }

    /// The namespace that the name at a place is in, or that a declaration binds its prefix to; empty where that is none.
    pub fn namespace_at(&self, place: NameAt) -> &str
        requires { IsNameAt self.now.tree place }
        ensures { namespace_at self.now.tree place ≡ Some result.now }
    {
        self.names.text(self.kept(place))
    }

    /// Where an element stands in the text: from its first '<' to behind its last '>'.
    pub fn span(&self, n: NodeNo) -> Span
        requires { kind_of (from_node self.now.tree n.0) ≡ Some kinds.Element }
        ensures { IsRange self.now.text (elements_before self.now.tree n.0) (record { start = result.start; end = result.end }) }
    {
        self.rows.span(n.0 as usize)
    }

    /// The bytes of the text that an element is written as, which are those of its `span`. It takes no memory.
    pub fn bytes_of(&self, n: NodeNo) -> &'a [u8]
        requires { kind_of (from_node self.now.tree n.0) ≡ Some kinds.Element }
        ensures { IsWritten self.now.text (elements_before self.now.tree n.0) result.now }
    {
        let span = self.span(n);
        &self.text[span.start..span.end]
    }

    /// The attributes of an element.
    fn attributes(&self, n: NodeNo) -> &[Attribute<'a>]
        requires { IsSome (attributes_of (from_node self.now.tree n.0)) }
        ensures attributes { attributes_of (from_node self.now.tree n.0) ≡ Some (map attribute_view result.now) }
    {
        match self.shape(n) {
            Shape::Element { attributes, .. } => attributes,
            Shape::Leaf(_) => unreachable!(),
        }
    }

    /// How many attributes an element has, declarations of namespaces with them.
    pub fn attr_count(&self, n: NodeNo) -> usize
        requires { kind_of (from_node self.now.tree n.0) ≡ Some kinds.Element }
        ensures { option_map length (attributes_of (from_node self.now.tree n.0)) ≡ Some result }
    {
        self.attributes(n).len()
    }

    /// Attribute i of an element.
    fn attribute(&self, n: NodeNo, i: usize) -> &Attribute<'a>
        requires { IsSome (attribute_at self.now.tree n.0 i) }
        ensures { attribute_at self.now.tree n.0 i ≡ Some (attribute_view result.now) }
    {
        &self.attributes(n)[i]
    }

    /// The name of attribute i of an element, with its namespace.
    pub fn attr_name(&self, n: NodeNo, i: usize) -> Name<'_>
        requires { IsSome (attribute_at self.now.tree n.0 i) }
        ensures { attribute_name_at self.now.tree n.0 i ≡ Some (name_view result) }
    {
        let namespace = self.namespace_at(NameAt::Attribute(n, i));
        shown_name(&self.attribute(n, i).name, namespace)
    }

    /// The name of attribute i of an element as it is written.
    pub fn written_attr_name(&self, n: NodeNo, i: usize) -> &WrittenName<'a>
        requires { IsSome (attribute_at self.now.tree n.0 i) }
        ensures { IfSome (attribute_at self.now.tree n.0 i) (λ a. a.name ≡ result.now) }
    {
        &self.attribute(n, i).name
    }

    /// Whether the namespaces at two places are the same. The time does not grow with the namespaces' names.
    pub fn same_namespace(&self, one: NameAt, other: NameAt) -> bool
        requires one { IsNameAt self.now.tree one }
        requires other { IsNameAt self.now.tree other }
        ensures { IsTrue result ↔ (namespace_at self.now.tree one ≡ namespace_at self.now.tree other) }
    {
        self.names.is_same(self.kept(one), self.kept(other))
    }

    /// The order of the namespaces at two places, byte by byte. The time does not grow with the namespaces' names.
    pub fn namespace_order(&self, one: NameAt, other: NameAt) -> Ordering
        requires one { IsNameAt self.now.tree one }
        requires other { IsNameAt self.now.tree other }
        ensures { result ≡ byte_order (unwrap_or (namespace_at self.now.tree one) []) (unwrap_or (namespace_at self.now.tree other) []) }
    {
        self.names.order(self.kept(one), self.kept(other))
    }

    /// Whether the value of attribute i of an element is `s`, byte by byte.
    pub fn attr_is(&self, n: NodeNo, i: usize, s: &str) -> bool
        requires { IsSome (attribute_at self.now.tree n.0 i) }
        ensures { IfSome (attribute_at self.now.tree n.0 i) (λ a. IsTrue result ↔ (a.value ≡ s.now)) }
    {
        self.attribute(n, i).value.is(s)
    }

    /// Appends the value of attribute i of an element.
    ///
    /// # Errors
    ///
    /// `NoMemory`: a part of the value may have been appended.
    pub fn put_attr(&self, n: NodeNo, i: usize, out: &mut String) -> Result<(), NoMemory>
        requires { IsSome (attribute_at self.now.tree n.0 i) }
        ensures ok { IfSome (attribute_at self.now.tree n.0 i) (λ a. OnOk result (string_bytes out.new ≡ string_bytes out.old ++ a.value)) }
        ensures err { IfSome (attribute_at self.now.tree n.0 i) (λ a. OnErr result ((k : ℕ) × (string_bytes out.new ≡ string_bytes out.old ++ take k a.value))) }
    {
        self.attribute(n, i).value.put(out)?;
        Ok(())
    }

    /// A node that nothing stands in: a text or an instruction.
    fn leaf(&self, n: NodeNo) -> &Leaf<'a>
        requires { IsSome (text_of (from_node self.now.tree n.0)) }
        ensures { text_of (from_node self.now.tree n.0) ≡ leaf_text result.now }
    {
        match self.shape(n) {
            Shape::Leaf(leaf) => leaf,
            Shape::Element { .. } => unreachable!(),
        }
    }

    /// Whether the text, or the value of an instruction, is `s`, byte by byte.
    pub fn text_is(&self, n: NodeNo, s: &str) -> bool
        requires { IsSome (text_of (from_node self.now.tree n.0)) }
        ensures { IfSome (text_of (from_node self.now.tree n.0)) (λ text. IsTrue result ↔ (text ≡ s.now)) }
    {
        match self.leaf(n) {
            Leaf::Text(text) => text.is(s),
            Leaf::Instruction { value, .. } => is_translated(value, s),
            Leaf::Comment(_) => unreachable!(),
        }
    }

    /// Appends the text, or the value of an instruction.
    ///
    /// # Errors
    ///
    /// `NoMemory`: a part of the text may have been appended.
    pub fn put_text(&self, n: NodeNo, out: &mut String) -> Result<(), NoMemory>
        requires { IsSome (text_of (from_node self.now.tree n.0)) }
        ensures ok { IfSome (text_of (from_node self.now.tree n.0)) (λ text. OnOk result (string_bytes out.new ≡ string_bytes out.old ++ text)) }
        ensures err { IfSome (text_of (from_node self.now.tree n.0)) (λ text. OnErr result ((k : ℕ) × (string_bytes out.new ≡ string_bytes out.old ++ take k text))) }
    {
        match self.leaf(n) {
            Leaf::Text(text) => text.put(out)?,
            Leaf::Instruction { value, .. } => put_line_ends(value, out)?,
            Leaf::Comment(_) => unreachable!(),
        }
        Ok(())
    }

    /// The element with this ID, which is the value of its attribute named ID.
    pub fn by_id(&self, id: &str) -> Option<NodeNo>
        ensures number { option_map (λ element. element.0) result ≡ node_with (identifiers self.now.tree) id.now }
        ensures element { IfSome result (λ element. kind_of (from_node self.now.tree element.0) ≡ Some kinds.Element) }
    {
        let number = self.ids.get(id)?;
        Some(NodeNo(number))
    }
}

/// Whether a text is this one, its line ends translated.
fn is_translated(written: &str, text: &str) -> bool
    ensures { IsTrue result ↔ (line_ends written.now ≡ text.now) }
{
    match strip_line_ends(text, written) {
        Some(behind) => behind.is_empty(),
        None => false,
    }
}
