// What is made of a document's tokens: rows, one token after the other.

ghost use Rattle.std.specs.Prelude.{◌≡◌, ◌<◌, ◌+◌, ◌-◌, ◌^◌, ◌++◌, [], ◌∷◌, length, slice_index, vec_len, IfErr, OnOk, IsTrue};
ghost use Rattle.xml_spec.specs.Syntax.{Item, Token, Alone};
ghost use Rattle.xml_spec.specs.Laws.{BeginsWith};
ghost use Rattle.xml_tokens.specs.Views.{Shows};
ghost use Rattle.xml_tokens.specs.Texts.{is_text, item_text};
ghost use Rattle.tree_rows.specs.Rows.{ElementShape, end_at};
ghost use Rattle.tree_rows.specs.Views.{leaf_shape};
ghost use Rattle.saml_tree.specs.Run.{first_state, all_rows, TextPart, NodePart, with_part, with_part_inside, opened, closed, step};
ghost use Rattle.saml_tree.specs.Links.{depths_of, AreLinkedSoFar};
ghost use Rattle.saml_tree.specs.Views.{builder_view, IsLinking, IsClear};

use crate::node::TreeFault;
use std::alloc::Global;
use tree_rows::{Leaf, Link, Place, Rows};
use xml_chars::Span;
use xml_tokens::{Markup, TextRun, WrittenName};

/// The rows so far, the text behind them that may go on, the numbers of the open elements, the innermost last, and
/// where the next token begins.
#[derive(Drop)]
pub(crate) struct Builder<'a> {
    pub(crate) rows: Rows<'a>,
    pub(crate) text: TextRun<'a>,
    pub(crate) open_elements: Vec<usize>,
    pub(crate) place: usize,
}

impl<'a> Builder<'a> {
    /// Before the first token, with which `rest` begins, at this place.
    pub(crate) fn new(alloc: Global, rest: &'a str, place: usize) -> Builder<'a>
        ensures state { builder_view result ≡ first_state place }
        ensures behind { result.text.behind ≡ rest.now }
        ensures linked { IsLinking result }
        ensures clear { IsClear result }
    {
        Builder {
            rows: Rows::new(alloc),
            text: TextRun::at(rest),
            open_elements: Vec::new(alloc),
            place,
        }
    }

    // Where a node stands that is added now, in the innermost open element, and is written up to this place.
    fn place_to(&self, end: usize) -> Place
        requires { vec_len self.now.open_elements < 2 ^ 32 }
        ensures depth { result.depth ≡ length self.now.open_elements.items }
        ensures parent { result.link.parent ≡ slice_index self.now.open_elements.items (length self.now.open_elements.items - 1) }
        ensures behind { result.link.end ≡ length self.now.rows.rows + 1 }
        ensures start { result.span.start ≡ self.now.place }
        ensures end { result.span.end ≡ end }
    {
        let parent = match self.open_elements.last() {
            Some(number) => *number,
            None => 0,
        };
        Place {
            depth: self.open_elements.len() as u32,
            link: Link {
                parent,
                end: self.rows.len() + 1,
            },
            span: Span {
                start: self.place,
                end,
            },
        }
    }

    // The text so far becomes a row, an empty one none.
    fn end_text(&mut self) -> Result<(), TreeFault>
        requires { vec_len self.old.open_elements < 2 ^ 32 }
        ensures ok { OnOk result (builder_view self.new ≡ record (builder_view self.old) { rows = all_rows (builder_view self.old); text = [] }) }
        ensures pending { OnOk result (self.new.rows.pending ≡ self.old.rows.pending) }
        ensures linked { OnOk result (IsLinking self.old → IsLinking self.new) }
        ensures err { IfErr result (λ e. e ≡ TreeFault.NoMemory) }
    {
        let text = self.text.text();
        if text.is("") {
            return Ok(());
        }
        let place = self.place_to(self.place);
        self.rows.push_leaf(place, Leaf::Text(text))?;
        self.text = TextRun::at(self.text.behind());
        Ok(())
    }

    // The next token begins here, and no text stands in front of it.
    fn move_to(&mut self, behind: &'a str, place: usize)
        ensures view { builder_view self.new ≡ record (builder_view self.old) { text = []; place = place } }
        ensures behind { self.new.text.behind ≡ behind.now }
        ensures pending { self.new.rows.pending ≡ self.old.rows.pending }
        ensures linked { IsLinking self.old → IsLinking self.new }
    {
        self.text = TextRun::at(behind);
        self.place = place;
    }

    // A node at the end, in the innermost open element, written in this many bytes.
    fn push_leaf(&mut self, leaf: Leaf<'a>, behind: &'a str, len: usize) -> Result<(), TreeFault>
        requires fits { self.old.place + len < 2 ^ 64 }
        requires few { vec_len self.old.open_elements < 2 ^ 32 }
        ensures ok { OnOk result (builder_view self.new
            ≡ with_part (builder_view self.old) (NodePart (leaf_shape leaf.entry)) (self.old.place + len)) }
        ensures behind { OnOk result (self.new.text.behind ≡ behind.now) }
        ensures linked { OnOk result (IsLinking self.old → IsLinking self.new) }
        ensures err { IfErr result (λ e. e ≡ TreeFault.NoMemory) }
    {
        self.end_text()?;
        let end = self.place + len;
        let place = self.place_to(end);
        self.rows.push_leaf(place, leaf)?;
        self.move_to(behind, end);
        Ok(())
    }

    // An element at the end, with the attributes of the tag that was read last, written in this many bytes so far.
    fn push_element(
        &mut self,
        name: WrittenName<'a>,
        behind: &'a str,
        len: usize,
    ) -> Result<(), TreeFault>
        requires fits { self.old.place + len < 2 ^ 64 }
        requires few { vec_len self.old.open_elements < 2 ^ 32 }
        ensures ok { OnOk result (builder_view self.new
            ≡ with_part (builder_view self.old) (NodePart (ElementShape name.entry self.old.rows.pending)) (self.old.place + len)) }
        ensures behind { OnOk result (self.new.text.behind ≡ behind.now) }
        ensures linked { OnOk result (IsLinking self.old → IsLinking self.new) }
        ensures err { IfErr result (λ e. e ≡ TreeFault.NoMemory) }
    {
        self.end_text()?;
        let end = self.place + len;
        let place = self.place_to(end);
        self.rows.push_element(place, name)?;
        self.move_to(behind, end);
        Ok(())
    }

    // A piece of a text, written in this many bytes. Outside the root it is not kept.
    fn put(&mut self, behind: &'a str, len: usize)
        requires fits { self.old.place + len < 2 ^ 64 }
        requires clear { IsClear self.old }
        requires piece { (item : Item) × IsTrue (is_text item) × BeginsWith self.old.text.behind (Alone item) behind.now }
        ensures view { (item : Item) → IsTrue (is_text item) → BeginsWith self.old.text.behind (Alone item) behind.now →
            builder_view self.new ≡ with_part_inside (builder_view self.old) (TextPart (item_text item)) (self.old.place + len) }
        ensures behind { self.new.text.behind ≡ behind.now }
        ensures linked { IsLinking self.old → IsLinking self.new }
        ensures clear { IsClear self.new }
    {
        if self.open_elements.is_empty() {
            self.move_to(behind, self.place + len);
        } else {
            self.text.add(behind);
            self.place += len;
        }
    }

    // A comment or an instruction. Outside the root it is not kept.
    fn leaf(&mut self, leaf: Leaf<'a>, behind: &'a str, len: usize) -> Result<(), TreeFault>
        requires fits { self.old.place + len < 2 ^ 64 }
        requires few { vec_len self.old.open_elements < 2 ^ 32 }
        requires clear { IsClear self.old }
        ensures ok { OnOk result (builder_view self.new
            ≡ with_part_inside (builder_view self.old) (NodePart (leaf_shape leaf.entry)) (self.old.place + len)) }
        ensures behind { OnOk result (self.new.text.behind ≡ behind.now) }
        ensures linked { OnOk result (IsLinking self.old → IsLinking self.new) }
        ensures clear { OnOk result (IsClear self.new) }
        ensures err { IfErr result (λ e. e ≡ TreeFault.NoMemory) }
    {
        if self.open_elements.is_empty() {
            self.move_to(behind, self.place + len);
            return Ok(());
        }
        self.push_leaf(leaf, behind, len)
    }

    // An element that the tokens behind stand in.
    fn open(&mut self, name: WrittenName<'a>, behind: &'a str, len: usize) -> Result<(), TreeFault>
        requires fits { self.old.place + len < 2 ^ 64 }
        requires few { vec_len self.old.open_elements < 2 ^ 32 }
        ensures ok { OnOk result (builder_view self.new
            ≡ opened (builder_view self.old) (ElementShape name.entry self.old.rows.pending) (self.old.place + len)) }
        ensures behind { OnOk result (self.new.text.behind ≡ behind.now) }
        ensures linked { OnOk result (IsLinking self.old → IsLinking self.new) }
        ensures clear { OnOk result (IsClear self.new) }
        ensures err { IfErr result (λ e. e ≡ TreeFault.NoMemory) }
    {
        self.end_text()?;
        let number = self.rows.len();
        self.push_element(name, behind, len)?;
        self.open_elements.push(number)?;
        Ok(())
    }

    // The end of the innermost open element.
    fn close(&mut self, behind: &'a str, len: usize) -> Result<(), TreeFault>
        requires fits { self.old.place + len < 2 ^ 64 }
        requires few { vec_len self.old.open_elements < 2 ^ 32 }
        ensures ok { OnOk result (builder_view self.new
            ≡ closed (builder_view self.old) (builder_view self.old).open_elements (self.old.place + len)) }
        ensures behind { OnOk result (self.new.text.behind ≡ behind.now) }
        ensures linked { OnOk result (IsLinking self.old → IsLinking self.new) }
        ensures clear { OnOk result (IsClear self.new) }
        ensures err { IfErr result (λ e. e ≡ TreeFault.NoMemory) }
    {
        self.end_text()?;
        self.move_to(behind, self.place + len);
        let Some(number) = self.open_elements.pop() else {
            return Ok(());
        };
        self.end_row(number);
        Ok(())
    }

    // Row `number` ends where the next token begins, and behind the rows so far.
    fn end_row(&mut self, number: usize)
        ensures linked { AreLinkedSoFar (depths_of self.old.rows.rows) self.old.rows.links
            (self.old.open_elements.items ++ number ∷ []) → IsLinking self.new }
        ensures rows { builder_view self.new
            ≡ record (builder_view self.old) { rows = end_at self.old.place number (builder_view self.old).rows } }
        ensures text { self.new.text ≡ self.old.text }
    {
        if number < self.rows.len() {
            self.rows.end_row(number, self.place);
        }
    }

    /// Adds the token in front of `behind`, which was read last.
    pub(crate) fn take(&mut self, markup: Markup<'a>, behind: &'a str) -> Result<(), TreeFault>
        requires token { (token : Token) × Shows token markup self.old.rows.pending × BeginsWith self.old.text.behind token behind.now }
        requires fits { self.old.place + length self.old.text.behind < 2 ^ 64 }
        requires few { vec_len self.old.open_elements < 2 ^ 32 }
        requires clear { IsClear self.old }
        ensures ok { OnOk result ((token : Token) → Shows token markup.entry self.old.rows.pending →
            BeginsWith self.old.text.behind token behind.now → step (builder_view self.old) token ≡ builder_view self.new) }
        ensures behind { OnOk result (self.new.text.behind ≡ behind.now) }
        ensures linked { OnOk result (IsLinking self.old → IsLinking self.new) }
        ensures clear { OnOk result (IsClear self.new) }
        ensures err { IfErr result (λ e. e ≡ TreeFault.NoMemory) }
    {
        let len = self.text.behind().len() - behind.len();
        match markup {
            Markup::Characters(_) | Markup::Section(_) | Markup::Reference(_) => {
                self.put(behind, len);
                Ok(())
            }
            Markup::Comment(text) => self.leaf(Leaf::Comment(text), behind, len),
            Markup::Instruction { target, value } => {
                self.leaf(Leaf::Instruction { target, value }, behind, len)
            }
            Markup::Empty { name } => self.push_element(name, behind, len),
            Markup::Start { name } => self.open(name, behind, len),
            Markup::End { .. } => self.close(behind, len),
        }
    }
}
