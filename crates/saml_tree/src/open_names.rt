// The names of the open elements.

ghost use Rattle.std.specs.Prelude.{◌≡◌, ℕ, ◌<◌, ◌==◌, ◌^◌, List, [], ◌∷◌, ◌++◌, length, OnOk, IfErr, IfSome, None};
ghost use Rattle.std.specs.Str.{bytes_eq};
ghost use Rattle.xml_spec.specs.Ascii.{less_than};

use crate::node::TreeFault;
use std::alloc::Global;
use std::marker::Model;

/// Where a name stands in a text: from its first byte to behind its last.
#[derive(Clone, Copy, Debug)]
struct Place {
    start: u32,
    end: u32,
}

/// The names of the open elements of a text, the innermost last. Each is kept as its place, since a text may open some
/// 87,000.
#[derive(Drop)]
pub(crate) struct OpenNames<'a> {
    text: &'a str,
    places: Vec<Place>,
}

impl<'a> Model for OpenNames<'a> {
    ghost use Rattle.saml_tree.specs.NamePlaces.{NamesView, coded_names, names_at, ArePlaces};

    ghost Value = { NamesView };

    ghost coded = { coded_names };

    ghost view = { λ o. record { text = o.text.now; names = names_at o.text.now o.places.items } };

    ghost invariant = { λ o. ArePlaces o.text.now o.places.items };
}

impl<'a> OpenNames<'a> {
    /// No element of the text is open.
    pub(crate) fn new(alloc: Global, text: &'a str) -> OpenNames<'a>
        requires { length text.now < 2 ^ 32 }
        ensures { result ≡ record { text = text.now; names = [] } }
    {
        OpenNames {
            text,
            places: Vec::new(alloc),
        }
    }

    /// How many elements are open.
    pub(crate) fn len(&self) -> usize
        ensures { result ≡ length self.now.names }
    {
        self.places.len()
    }

    /// Whether no element is open.
    pub(crate) fn is_empty(&self) -> bool
        ensures { result ≡ (length self.now.names == 0) }
    {
        self.places.is_empty()
    }

    /// Adds the name of an element whose start tag stands at the front of `left`, the end of the text.
    pub(crate) fn push(&mut self, name: &str, left: &str) -> Result<(), TreeFault>
        requires tail { (front : List ℕ) × (self.old.text ≡ front ++ left.now) }
        requires named { (behind : List ℕ) × (left.now ≡ less_than ∷ (name.now ++ behind)) }
        ensures text { self.new.text ≡ self.old.text }
        ensures ok { OnOk result (self.new ≡ record self.old { names = self.old.names ++ name.now ∷ [] }) }
        ensures err { IfErr result (λ e. e ≡ TreeFault.NoMemory) }
    {
        let start = self.text.len() - left.len() + 1;
        let end = start + name.len();
        self.places.push(Place {
            start: start as u32,
            end: end as u32,
        })?;
        Ok(())
    }

    /// Takes away the innermost element, and says whether it has this name; none where no element is open.
    pub(crate) fn pop_is(&mut self, name: &str) -> Option<bool>
        ensures none { result ≡ None → self.old.names ≡ [] }
        ensures some { IfSome result (λ same. (last : List ℕ) × (self.old.names ≡ self.new.names ++ last ∷ []) × (same ≡ bytes_eq last name.now)) }
        ensures text { self.new.text ≡ self.old.text }
    {
        let place = self.places.pop()?;
        let last = &self.text.as_bytes()[place.start as usize..place.end as usize];
        Some(last == name.as_bytes())
    }
}
