// Rows, and their attributes in one list.

ghost use Rattle.std.specs.Prelude.{◌≡◌, ◌<◌, ◌+◌, ◌^◌, [], length, slice_index_or, slice_set, OnOk, IfOk, IfErr, ◌⊎◌};
ghost use Rattle.xml_spec.specs.Syntax.{Token};
ghost use Rattle.xml_spec.specs.Laws.{BeginsWith};
ghost use Rattle.xml_tokens.specs.Markup.{NoTokens};
ghost use Rattle.xml_tokens.specs.Views.{Shows};
ghost use Rattle.tree_rows.specs.Rows.{ElementShape, row_at, end_at};
ghost use Rattle.tree_rows.specs.Views.{leaf_shape, shown_shape, with_row};

use crate::node::{Leaf, Link, Place, Shape};
use owned_values::NoMemory;
use std::alloc::Global;
use std::marker::Model;
use xml_chars::Span;
use xml_tokens::{Attribute, Markup, TokenFault, WrittenName};

/// A node. The attributes of an element are those of the list from number `from` up to number `to`.
#[derive(Debug, Drop)]
enum Node<'a> {
    Element {
        name: WrittenName<'a>,
        from: u32,
        to: u32,
    },
    Leaf(Leaf<'a>),
}

#[derive(Debug, Drop)]
struct Row<'a> {
    place: Place,
    node: Node<'a>,
}

/// The nodes of a document in document order, each without its kids.
#[derive(Debug, Drop)]
pub struct Rows<'a> {
    rows: Vec<Row<'a>>,
    attributes: Vec<Attribute<'a>>,
    // how many of the attributes belong to rows
    used: usize,
}

impl<'a> Model for Rows<'a> {
    ghost use Rattle.tree_rows.specs.Views.{RowsView};

    ghost Value = { RowsView };

    ghost use Rattle.tree_rows.specs.Kept.{rows_view, IsKept};

    ghost view = { λ r. rows_view r.rows.items r.attributes.items r.used };

    ghost invariant = { λ r. IsKept r.rows.items r.attributes.items r.used };
}

impl<'a> Rows<'a> {
    /// No rows. It takes no memory.
    pub fn new(alloc: Global) -> Rows<'a>
        ensures { result ≡ record { rows = []; links = []; pending = [] } }
    {
        Rows {
            rows: Vec::new(alloc),
            attributes: Vec::new(alloc),
            used: 0,
        }
    }

    /// How many rows there are.
    pub fn len(&self) -> usize
        ensures rows { result ≡ length self.now.rows }
        ensures links { result ≡ length self.now.links }
        ensures room { result + 1 < 2 ^ 64 }
    {
        self.rows.len()
    }

    /// How many attributes the tag has that was read last and is no row so far.
    pub fn pending(&self) -> usize
        ensures { result ≡ length self.now.pending }
    {
        self.attributes.len() - self.used
    }

    /// The first token of the rest, and what follows it. The attributes of a tag are kept until the next token is read; a tag
    /// that becomes a row before keeps them.
    ///
    /// # Errors
    ///
    /// `Invalid`: no valid tokens are written so. `NoMemory`.
    pub fn next_token(&mut self, rest: &'a str) -> Result<(Markup<'a>, &'a str), TokenFault>
        requires some { 0 < length rest.now }
        ensures read { IfOk result (λ found. (token : Token) × Shows token found.0 self.new.pending × BeginsWith rest.now token found.1.now) }
        ensures refused { IfErr result (λ e. (e ≡ TokenFault.NoMemory) ⊎ ((e ≡ TokenFault.Invalid) × NoTokens rest.now)) }
        ensures rows { self.new.rows ≡ self.old.rows }
        ensures links { self.new.links ≡ self.old.links }
    {
        self.attributes.truncate(self.used);
        xml_tokens::next_token(rest, &mut self.attributes)
    }

    /// Adds an element with the attributes of the tag that was read last.
    ///
    /// # Errors
    ///
    /// `NoMemory`: there are as many rows as before. It stands for more than 2^32 attributes too.
    pub fn push_element(&mut self, place: Place, name: WrittenName<'a>) -> Result<(), NoMemory>
        ensures ok { OnOk result (self.new ≡ with_row self.old place (ElementShape name.entry self.old.pending) []) }
    {
        let count = self.attributes.len();
        let Ok(from) = u32::try_from(self.used) else {
            return Err(NoMemory);
        };
        let Ok(to) = u32::try_from(count) else {
            return Err(NoMemory);
        };
        self.rows.push(Row {
            place,
            node: Node::Element { name, from, to },
        })?;
        self.used = count;
        Ok(())
    }

    /// Adds another node.
    ///
    /// # Errors
    ///
    /// `NoMemory`: there are as many rows as before.
    pub fn push_leaf(&mut self, place: Place, leaf: Leaf<'a>) -> Result<(), NoMemory>
        ensures ok { OnOk result (self.new ≡ with_row self.old place (leaf_shape leaf.entry) self.old.pending) }
    {
        self.rows.push(Row {
            place,
            node: Node::Leaf(leaf),
        })?;
        Ok(())
    }

    /// Ends row `k` at this place of the text, and behind the rows so far.
    pub fn end_row(&mut self, k: usize, place: usize)
        requires { k < length self.old.rows }
        ensures rows { self.new.rows ≡ end_at place k self.old.rows }
        ensures links { (link : Link) → self.new.links
            ≡ slice_set self.old.links k (record (slice_index_or self.old.links k link) { end = length self.old.rows }) }
        ensures pending { self.new.pending ≡ self.old.pending }
    {
        let end = self.rows.len();
        let row = &mut self.rows[k];
        row.place.span.end = place;
        row.place.link.end = end;
    }

    /// How many elements row `k` stands in.
    pub fn depth(&self, k: usize) -> u32
        requires { k < length self.now.rows }
        ensures { result ≡ (row_at self.now.rows k).depth }
    {
        self.rows[k].place.depth
    }

    /// Where row `k` stands among the others.
    pub fn link(&self, k: usize) -> Link
        requires { k < length self.now.rows }
        ensures { (link : Link) → result ≡ slice_index_or self.now.links k link }
    {
        self.rows[k].place.link
    }

    /// The bytes that row `k` is written as.
    pub fn span(&self, k: usize) -> Span
        requires { k < length self.now.rows }
        ensures start { result.start ≡ (row_at self.now.rows k).start }
        ensures end { result.end ≡ (row_at self.now.rows k).end }
    {
        self.rows[k].place.span
    }

    /// The node of row `k`.
    pub fn shape(&self, k: usize) -> Shape<'_, 'a>
        requires { k < length self.now.rows }
        ensures { shown_shape result ≡ (row_at self.now.rows k).shape }
    {
        match &self.rows[k].node {
            Node::Element { name, from, to } => Shape::Element {
                name,
                attributes: &self.attributes[*from as usize..*to as usize],
            },
            Node::Leaf(leaf) => Shape::Leaf(leaf),
        }
    }
}
