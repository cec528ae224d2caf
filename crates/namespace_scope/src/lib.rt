//! A stack of namespace bindings, as Namespaces in XML 1.0 scopes them.
//!
//! A level is what one start tag declares. The latest declaration of the innermost level that has
//! one decides what a prefix means (Namespaces in XML 1.0, 6.1), and a level ends with its element.
//!
//! Contracts see a [`Scope`] as its list of levels, the innermost first. A level is its list of
//! pairs of a prefix, as bytes, and a number, the latest first.
//!
//! # What is proved
//!
//! A stack of prefix bindings: `lookup` gives the latest pair of the innermost level that has one;
//! `laws::pop_undoes_its_level`.
#![tactic(auto)]

ghost use Rattle.std.specs.Prelude.{◌≡◌, ◌<◌, [], ◌∷◌, length, drop, OnOk, OnErr};
ghost use Rattle.namespace_scope.specs.Levels.{declared_in, lookup_of};

mod index;
pub mod laws;
mod marks;

use index::restore;
use marks::{Mark, settle};
use owned_values::NoMemory;
use std::alloc::Global;
use std::collections::BTreeMap;
use std::marker::Model;

/// The declarations in force: a stack of levels, each with the prefixes that it declares and the
/// number of each one's namespace.
///
/// A look-up, and each declaration as it is made and as it is dropped, cost the logarithm of the
/// number of prefixes in force.
#[derive(Drop)]
pub struct Scope<'a> {
    marks: Vec<Mark<'a>>,
    // how many levels began behind the marks: they declare nothing, and most end so
    bare: usize,
    // the number of each prefix in force
    latest: BTreeMap<String, u32>,
}

impl<'a> Model for Scope<'a> {
    ghost use Rattle.std.specs.Prelude.{List, ℕ};

    ghost Value = { List (List (List ℕ × ℕ)) };

    ghost use Rattle.namespace_scope.specs.Marks.{levels_of, with_bare, IsIndexed};
    ghost use Rattle.std.specs.Prelude.{reverse};

    ghost view = { λ s. with_bare s.bare (levels_of (reverse s.marks.items)) };

    ghost invariant = { λ s. IsIndexed (reverse s.marks.items) s.latest };
}

impl<'a> Scope<'a> {
    /// A scope with no level. It takes no memory.
    pub fn new(alloc: Global) -> Scope<'a>
        ensures { result ≡ [] }
    {
        Scope {
            marks: Vec::new(alloc),
            bare: 0,
            latest: BTreeMap::new(alloc),
        }
    }

    /// Begins a level, which declares nothing yet. After `NoMemory` the scope is as before. It takes no memory.
    pub fn push(&mut self) -> Result<(), NoMemory>
        ensures ok { OnOk result (self.new ≡ [] ∷ self.old) }
        ensures err { OnErr result (self.new ≡ self.old) }
    {
        let Some(bare) = self.bare.checked_add(1) else {
            return Err(NoMemory);
        };
        self.bare = bare;
        Ok(())
    }

    /// Declares in the innermost level that `prefix` means the namespace of the number `name`. After
    /// `NoMemory` the scope is as before.
    pub fn declare(&mut self, prefix: &'a str, name: u32) -> Result<(), NoMemory>
        requires { 0 < length self.old }
        ensures ok { OnOk result (self.new ≡ declared_in prefix.now name self.old) }
        ensures err { OnErr result (self.new ≡ self.old) }
    {
        let key = String::from_str(*self.marks.allocator(), prefix)?;
        settle(&mut self.marks, &mut self.bare)?;
        self.marks.reserve(1)?;
        let shadowed = self.latest.insert(key, name)?;
        self.marks.push_reserved(Mark::Pair {
            prefix,
            name,
            shadowed,
        });
        Ok(())
    }

    /// Ends the innermost level, with all that it declared. It takes no memory.
    pub fn pop(&mut self)
        requires { 0 < length self.old }
        ensures { self.new ≡ drop 1 self.old }
    {
        if self.bare > 0 {
            self.bare -= 1;
            return;
        }
        while let Some(mark) = self.marks.pop() {
            match mark {
                Mark::Level => return,
                Mark::Pair {
                    prefix,
                    shadowed,
                    ..
                } => restore(&mut self.latest, prefix, shadowed),
            }
        }
    }

    /// The number that `prefix` has: that of its latest declaration in the innermost level that has
    /// one, and none where no level declares it. It takes no memory.
    #[tactic(auto, using(crate::proofs::Bare::seen_through))]
    pub fn lookup(&self, prefix: &str) -> Option<u32>
        ensures { result ≡ lookup_of prefix.now self.now }
    {
        self.latest.get(prefix).copied()
    }
}
