// An element that is made.
ghost use Rattle.std.specs.Prelude.{◌≡◌, ◌≢◌, ℕ, [], ◌∷◌, ◌++◌, take, codes, IfOk, OnOk, OnErr};
ghost use Rattle.std.specs.List.{AllByRecursion};
ghost use Rattle.std.specs.Option.{option_map};
ghost use Rattle.xml_spec.specs.Characters.{IsText, IsNoColonName};
ghost use Rattle.canon_octets.specs.Places.{AppendsPart};
ghost use Rattle.element_make.specs.Made.{IsMade, NothingMade, MadeText, alone, joined, with_second, IsAny, value_of, written};
ghost use Rattle.element_make.specs.Pieces.{pieces_of};
ghost use Rattle.element_make.specs.Views.{piece_views};

use crate::names::Ns;
use crate::piece::{Attribute, Piece, Tag, first_length, put_at};
use crate::writing::put_form;
use canon_octets::Octets;
use owned_values::{Blob, NoMemory};
use std::alloc::Global;
use std::marker::Model;

/// An element that is made: its name is in one of the namespaces of the messages, its attributes have no prefixes, and
/// its kids are elements and texts.
#[derive(Debug, Drop)]
pub struct Made {
    tag: Tag,
    content: Vec<Piece>,
}

impl Model for Made {
    ghost use Rattle.element_make.specs.Made as made;
    ghost use Rattle.element_make.specs.Codes.{coded_made};

    ghost Value = { made.Made };

    ghost coded = { coded_made };

    ghost use Rattle.element_make.specs.Views.{made_view, IsKept};

    ghost view = { λ m. made_view m.tag m.content.items };

    ghost invariant = { λ m. IsKept m.tag m.content.items };
}

/// The pieces of the element itself.
fn pieces_of(kid: Made) -> Result<Vec<Piece>, NoMemory>
    ensures pieces { IfOk result (λ pieces. piece_views pieces.items ≡ pieces_of (alone kid)) }
    ensures made { IsMade kid }
{
    let Made { tag, mut content } = kid;
    content.insert(0, Piece::Start(tag))?;
    content.push(Piece::End)?;
    Ok(content)
}

impl Made {
    /// An element without attributes and kids. It takes no memory.
    pub fn new(alloc: Global, ns: Ns, local: &'static str) -> Made
        requires { IsNoColonName local.now }
        ensures { result ≡ record { ns = ns; local = local.now; attributes = []; kids = NothingMade } }
    {
        Made {
            tag: Tag {
                ns,
                local,
                attributes: Vec::new(alloc),
            },
            content: Vec::new(alloc),
        }
    }

    /// Adds an attribute, which stands in no namespace. Where there is no memory the element is as it was.
    pub fn attr(&mut self, local: &'static str, value: &str) -> Result<(), NoMemory>
        requires name { IsNoColonName local.now }
        requires no_declaration { local.now ≢ codes "xmlns" }
        requires anew { AllByRecursion (λ a. a.name ≢ local.now) self.old.attributes }
        requires value { IsText value.now }
        ensures ok { OnOk result (self.new
            ≡ record self.old { attributes = self.old.attributes ++ record { name = local.now; value = value.now } ∷ [] }) }
        ensures err { OnErr result (self.new ≡ self.old) }
    {
        let value = String::from_str(*self.content.allocator(), value)?;
        self.tag.attributes.push(Attribute { name: local, value })?;
        Ok(())
    }

    /// Adds a text behind the last kid. Where there is no memory the element is as it was.
    pub fn text(&mut self, s: &str) -> Result<(), NoMemory>
        requires { IsText s.now }
        ensures ok { OnOk result (self.new ≡ record self.old { kids = joined self.old.kids (MadeText s.now NothingMade) }) }
        ensures err { OnErr result (self.new ≡ self.old) }
    {
        let text = String::from_str(*self.content.allocator(), s)?;
        self.content.push(Piece::Text(text))?;
        Ok(())
    }

    /// Adds an element behind the last kid. Where there is no memory the element is as it was, and `kid` is let go.
    pub fn child(&mut self, kid: Made) -> Result<(), NoMemory>
        ensures ok { OnOk result (self.new ≡ record self.old { kids = joined self.old.kids (alone kid) }) }
        ensures err { OnErr result (self.new ≡ self.old) }
    {
        let mut pieces = pieces_of(kid)?;
        self.content.append(&mut pieces)?;
        Ok(())
    }

    /// Puts an element behind the first kid. Where there is no memory the element is as it was, and `kid` is let go.
    pub fn insert_second(&mut self, kid: Made) -> Result<(), NoMemory>
        requires { IsAny self.old.kids }
        ensures ok { OnOk result (self.new ≡ record self.old { kids = with_second self.old.kids (alone kid) }) }
        ensures err { OnErr result (self.new ≡ self.old) }
    {
        let pieces = pieces_of(kid)?;
        let first = first_length(self.content.as_slice());
        put_at(&mut self.content, first, pieces)?;
        Ok(())
    }

    /// The value of the attribute of this name; none where there is none.
    pub fn attr_value(&self, local: &str) -> Option<&str>
        ensures { option_map (λ v. v.now) result ≡ value_of local.now self.now.attributes }
    {
        for attribute in &self.tag.attributes {
            if attribute.name == local {
                return Some(attribute.value.as_str());
            }
        }
        None
    }

    /// Appends the element as it is written: its exclusive canonical form (Exclusive C14N 1.0, 3). It goes piece by piece
    /// into a place that takes bytes, so that a hash of it gathers nothing.
    ///
    /// # Errors
    ///
    /// `NoMemory`: a part of it from the first byte on may have been appended.
    pub fn put_into<O: Octets>(&self, out: &mut O) -> Result<(), NoMemory>
        // The element is one that can be made.
        ensures made { IsMade self.now }
        ensures ok { OnOk result (O.appends out.old out.new (written self.now)) }
        ensures err { OnErr result (AppendsPart O.appends out.old out.new (written self.now)) }
    {
        put_form(&self.tag, self.content.as_slice(), out)
    }

    /// Appends the element as it is written: its exclusive canonical form (Exclusive C14N 1.0, 3). Where memory runs
    /// out, a part of it from the first byte on may have been appended.
    pub fn put(&self, out: &mut Vec<u8>) -> Result<(), NoMemory>
        // The element is one that can be made.
        ensures made { IsMade self.now }
        ensures ok { OnOk result (out.new.items ≡ out.old.items ++ written self.now) }
        ensures err { OnErr result ((n : ℕ) × (out.new.items ≡ out.old.items ++ take n (written self.now))) }
    {
        self.put_into(out)
    }

    /// What is written of the element: its exclusive canonical form.
    pub fn written(&self, alloc: Global) -> Result<Blob, NoMemory>
        ensures made { IsMade self.now }
        ensures bytes { IfOk result (λ bytes. bytes ≡ written self.now) }
    {
        let mut out = Vec::new(alloc);
        self.put(&mut out)?;
        Blob::of(alloc, out.as_slice())
    }
}
