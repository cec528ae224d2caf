//! The prefixes that the elements around a place have rendered.
ghost use Rattle.std.specs.Prelude.{◌≡◌, ◌<◌, List, [], ◌∷◌, length, drop, OnOk};
ghost use Rattle.xml_spec.specs.Names.{Binding, namespace_of};
ghost use Rattle.xml_spec.specs.Canonical.{is_rendered_anew};
ghost use Rattle.saml_tree.specs.NodeNames.{IsNameAt};
ghost use Rattle.excl_c14n.specs.Levels.{in_force, with_binding};
ghost use Rattle.excl_c14n.specs.Pairs.{binding_placed, space_at};

use namespace_scope::Scope;
use owned_values::NoMemory;
use saml_tree::{Doc, NameAt};
use std::alloc::Global;
use std::marker::Model;

/// What the prefixes are bound to by the declarations that were written, by levels, of which each element has one. A
/// namespace is kept as a place of the document that speaks of it.
#[derive(Drop)]
pub(crate) struct Rendered<'d, 'a> {
    doc: &'d Doc<'a>,
    /// The number of each prefix's place.
    numbers: Scope<'d>,
    places: Vec<NameAt>,
    /// How many places there were where each level began.
    starts: Vec<usize>,
}

impl<'d, 'a> Model for Rendered<'d, 'a> {
    ghost use Rattle.excl_c14n.specs.Levels.{RenderedView, coded_rendered};
    ghost use Rattle.excl_c14n.specs.Tables.{rendered_view, IsKept};
    ghost use Rattle.std.specs.Prelude.{reverse};

    ghost Value = { RenderedView };

    ghost coded = { coded_rendered };

    ghost view = { λ r. rendered_view r.doc.now.tree r.places.items r.numbers };

    ghost invariant = { λ r. IsKept r.doc.now.tree r.places.items r.numbers (reverse r.starts.items) };
}

impl<'d, 'a> Rendered<'d, 'a> {
    /// Nothing of the document is written.
    pub(crate) fn new(alloc: Global, doc: &'d Doc<'a>) -> Rendered<'d, 'a>
        ensures { result ≡ record { tree = doc.now.tree; levels = [] } }
    {
        Rendered {
            doc,
            numbers: Scope::new(alloc),
            places: Vec::new(alloc),
            starts: Vec::new(alloc),
        }
    }

    /// Begins an element.
    pub(crate) fn enter(&mut self) -> Result<(), NoMemory>
        ensures { OnOk result (self.new ≡ record self.old { levels = [] ∷ self.old.levels }) }
    {
        self.numbers.push()?;
        if self.starts.push(self.places.len()).is_err() {
            self.numbers.pop();
            return Err(NoMemory);
        }
        Ok(())
    }

    /// Ends an element, with all that it rendered.
    pub(crate) fn leave(&mut self)
        requires { 0 < length self.old.levels }
        ensures { self.new ≡ record self.old { levels = drop 1 self.old.levels } }
    {
        self.numbers.pop();
        if let Some(start) = self.starts.pop() {
            self.places.truncate(start);
        }
    }

    /// Notes that the innermost element renders a prefix with the namespace of this place.
    pub(crate) fn render(&mut self, prefix: &'d str, place: NameAt) -> Result<(), NoMemory>
        requires level { 0 < length self.old.levels }
        requires place { IsNameAt self.old.tree place }
        ensures { OnOk result (self.new ≡ record self.old {
          levels = with_binding (binding_placed self.old.tree (prefix.now, place)) self.old.levels;
        }) }
    {
        let count = self.places.len();
        let Ok(number) = u32::try_from(count) else {
            return Err(NoMemory);
        };
        self.places.push(place)?;
        self.numbers.declare(prefix, number)
    }

    /// Whether a prefix that is needed is to be declared here, where this place speaks of its namespace: where that is not
    /// the one that was rendered for it (Exclusive C14N 1.0, 3). The time does not grow with the namespaces' names.
    pub(crate) fn is_anew(&self, prefix: &str, place: NameAt) -> bool
        requires { IsNameAt self.now.tree place }
        ensures { (scope : List Binding) → space_at self.now.tree place ≡ namespace_of scope prefix.now →
            result ≡ is_rendered_anew scope (in_force self.now.levels) prefix.now }
    {
        if prefix == "xml" {
            return false;
        }
        match self.numbers.lookup(prefix) {
            Some(number) => !self.doc.same_namespace(self.places[number as usize], place),
            None => !self.doc.namespace_at(place).is_empty(),
        }
    }
}
