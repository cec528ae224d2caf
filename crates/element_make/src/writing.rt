// An element as it is written, one piece after the other.
ghost use Rattle.std.specs.Prelude.{◌≡◌, [], ◌∷◌, drop, OnOk, OnErr};
ghost use Rattle.canon_octets.specs.Places.{AppendsPart};
ghost use Rattle.element_make.specs.Views.{piece_view, piece_views, attribute_views, open_views};
ghost use Rattle.element_make.specs.Pieces.{StartPiece};
ghost use Rattle.element_make.specs.Writing.{written_pieces, piece_form, open_behind, start_tag, opened, inside_of, innermost_end};

use crate::piece::{Piece, Tag};
use crate::scope::Declared;
use crate::tag::{Open, put_start};
use canon_octets::{Octets, escape_text};
use owned_values::NoMemory;

/// The open elements, the innermost last.
#[derive(Drop)]
struct Writing {
    open_elements: Vec<Open>,
}

impl Writing {
    /// The namespaces that the open elements declare.
    fn declared(&self) -> Declared
        ensures { result ≡ inside_of (open_views self.now.open_elements.items) }
    {
        match self.open_elements.last() {
            Some(element) => element.inside,
            None => Declared::none(),
        }
    }

    /// Begins an element.
    fn start<O: Octets>(&mut self, tag: &Tag, out: &mut O) -> Result<(), NoMemory>
        ensures ok { OnOk result (O.appends out.old out.new
            (start_tag (inside_of (open_views self.old.open_elements.items)) tag.now.ns tag.now.local.now (attribute_views tag.now.attributes.items))) }
        ensures inside { OnOk result (open_views self.new.open_elements.items
            ≡ opened (inside_of (open_views self.old.open_elements.items)) tag.now.ns tag.now.local.now ∷ open_views self.old.open_elements.items) }
        ensures err { OnErr result (AppendsPart O.appends out.old out.new
            (start_tag (inside_of (open_views self.old.open_elements.items)) tag.now.ns tag.now.local.now (attribute_views tag.now.attributes.items))) }
    {
        let outside = self.declared();
        put_start(tag, outside, out)?;
        self.open_elements.push(Open::of(tag, outside))?;
        Ok(())
    }

    /// Ends the innermost open element, where there is one.
    fn end<O: Octets>(&mut self, out: &mut O) -> Result<(), NoMemory>
        ensures ok { OnOk result (O.appends out.old out.new (innermost_end (open_views self.old.open_elements.items))) }
        ensures inside { OnOk result (open_views self.new.open_elements.items ≡ drop 1 (open_views self.old.open_elements.items)) }
        ensures err { OnErr result (AppendsPart O.appends out.old out.new (innermost_end (open_views self.old.open_elements.items))) }
    {
        let Some(element) = self.open_elements.pop() else {
            return Ok(());
        };
        element.put_end(out)
    }

    /// Writes a piece.
    fn put<O: Octets>(&mut self, piece: &Piece, out: &mut O) -> Result<(), NoMemory>
        ensures ok { OnOk result (O.appends out.old out.new (piece_form (open_views self.old.open_elements.items) (piece_view piece.now))) }
        ensures inside { OnOk result (open_views self.new.open_elements.items
            ≡ open_behind (open_views self.old.open_elements.items) (piece_view piece.now)) }
        ensures err { OnErr result (AppendsPart O.appends out.old out.new
            (piece_form (open_views self.old.open_elements.items) (piece_view piece.now))) }
    {
        match piece {
            Piece::Start(tag) => self.start(tag, out),
            Piece::Text(text) => escape_text(text.as_str(), out),
            Piece::End => self.end(out),
        }
    }
}

/// Appends what is written of the element of this tag with this content.
pub(crate) fn put_form<O: Octets>(tag: &Tag, content: &[Piece], out: &mut O) -> Result<(), NoMemory>
    ensures ok { OnOk result (O.appends out.old out.new
        (written_pieces [] (StartPiece tag.now.ns tag.now.local.now (attribute_views tag.now.attributes.items) ∷ piece_views content.now))) }
    ensures err { OnErr result (AppendsPart O.appends out.old out.new
        (written_pieces [] (StartPiece tag.now.ns tag.now.local.now (attribute_views tag.now.attributes.items) ∷ piece_views content.now))) }
{
    let mut writing = Writing {
        open_elements: Vec::new(*tag.attributes.allocator()),
    };
    writing.start(tag, out)?;
    for piece in content {
        writing.put(piece, out)?;
    }
    while !writing.open_elements.is_empty() {
        writing.end(out)?;
    }
    Ok(())
}
