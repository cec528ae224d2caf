// An element's content as it is kept: starts of elements, texts, and ends of elements, in the order in which they
// are written.
ghost use Rattle.std.specs.Prelude.{◌≡◌, ◌≤◌, ◌++◌, length, take, drop, vec_len, OnOk, OnErr};
ghost use Rattle.element_make.specs.Pieces.{first_length};
ghost use Rattle.element_make.specs.Views.{piece_views};

use crate::names::Ns;
use owned_values::NoMemory;

/// An attribute. Its name has no prefix.
#[derive(Debug, Drop)]
pub(crate) struct Attribute {
    pub(crate) name: &'static str,
    pub(crate) value: String,
}

/// What an element's tags say: its namespace, its local name, and its attributes as they were given.
#[derive(Debug, Drop)]
pub(crate) struct Tag {
    pub(crate) ns: Ns,
    pub(crate) local: &'static str,
    pub(crate) attributes: Vec<Attribute>,
}

/// A piece of content.
#[derive(Debug, Drop)]
pub(crate) enum Piece {
    Start(Tag),
    Text(String),
    End,
}

/// How many pieces the first node has.
pub(crate) fn first_length(content: &[Piece]) -> usize
    ensures length { result ≡ first_length 0 (piece_views content.now) }
    ensures within { result ≤ length content.now }
{
    let mut open: usize = 0;
    for (i, piece) in content.iter().enumerate() {
        match piece {
            Piece::Start(_) => open += 1,
            Piece::Text(_) => {}
            Piece::End => open = open.saturating_sub(1),
        }
        if open == 0 {
            return i + 1;
        }
    }
    content.len()
}

/// Puts pieces in at a place. Where there is no memory the content is as it was.
pub(crate) fn put_at(
    content: &mut Vec<Piece>,
    place: usize,
    mut pieces: Vec<Piece>,
) -> Result<(), NoMemory>
    requires { place ≤ vec_len content.old }
    ensures ok { OnOk result (content.new.items ≡ take place content.old.items ++ pieces.items ++ drop place content.old.items) }
    ensures err { OnErr result (content.new.items ≡ content.old.items) }
{
    let behind = content.len() - place;
    content.append(&mut pieces)?;
    content.slice_mut(place..).rotate_left(behind);
    Ok(())
}
