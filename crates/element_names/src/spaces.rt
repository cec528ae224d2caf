// The namespaces in force at a place of a document.

ghost use Rattle.std.specs.Prelude.{◌≡◌, suc, ◌-◌, ◌<◌, ◌^◌, [], ◌∷◌, drop, length, map, IfOk, IfErr, OnOk};

use crate::fault::NameFault;
use crate::qualified::declared_prefix;
use crate::table::Table;
use namespace_scope::Scope;
use std::alloc::Global;
use xml_chars::{XML_NAMESPACE, XMLNS_NAMESPACE};
use xml_tokens::Attribute;

/// The number of no namespace.
pub const NONE: u32 = 0;

/// The number of the namespace of the prefix xmlns.
pub const XMLNS: u32 = 2;

/// Namespaces by number, and which of them each prefix is bound to.
#[derive(Drop)]
pub struct Spaces<'a> {
    /// No namespace, that of the prefix xml, that of xmlns, and then that of each declaration.
    pub table: Table,
    /// A level for the document, and one for each open element.
    pub scope: Scope<'a>,
    /// How many levels there are.
    pub levels: usize,
}

impl<'a> Spaces<'a> {
    ghost use Rattle.std.specs.Prelude.{None, IsSome, MatchOption, slice_get};
    ghost use Rattle.xml_spec.specs.Names.{bound, outermost, declarations};
    ghost use Rattle.xml_tokens.specs.Views.{attribute_view};
    ghost use Rattle.element_names.specs.Spaces.{scope_of, IsReady, Binds, Enters};

    /// Those of a document, outside its root.
    pub fn new(alloc: Global) -> Result<Spaces<'a>, NameFault>
        ensures ready { IfOk result (λ s. IsReady s) }
        ensures one { IfOk result (λ s. length s.scope ≡ 1) }
        ensures scope { IfOk result (λ s. scope_of s ≡ outermost) }
        ensures err { IfErr result (λ e. e ≡ NameFault.NoMemory) }
    {
        let mut table = Table::new(alloc);
        let _none = table.add(alloc, "")?;
        let xml = table.add(alloc, XML_NAMESPACE)?;
        let _xmlns = table.add(alloc, XMLNS_NAMESPACE)?;
        let mut scope = Scope::new(alloc);
        scope.push()?;
        scope.declare("xml", xml)?;
        Ok(Spaces {
            table,
            scope,
            levels: 1,
        })
    }

    /// Ends the levels of the elements that a node of this depth doesn't stand in.
    pub fn leave(&mut self, depth: u32)
        requires ready { IsReady self.old }
        requires deep { depth < length self.old.scope }
        ensures ready { IsReady self.new }
        ensures scope { self.new.scope ≡ drop (length self.old.scope - suc depth) self.old.scope }
        ensures count { length self.new.scope ≡ suc depth }
        ensures table { self.new.table ≡ self.old.table }
    {
        while self.levels > depth as usize + 1 {
            self.scope.pop();
            self.levels -= 1;
        }
    }

    /// Begins the level of an element with these attributes.
    pub fn enter(&mut self, alloc: Global, attributes: &[Attribute<'a>]) -> Result<(), NameFault>
        requires ready { IsReady self.old }
        requires few { self.old.levels < 2 ^ 33 }
        ensures ok { OnOk result (Enters self.old self.new (declarations (map attribute_view attributes.now))) }
        ensures err { IfErr result (λ e. e ≡ NameFault.NoMemory) }
    {
        self.scope.push()?;
        self.levels += 1;
        self.declare_all(alloc, attributes)
    }

    // The last declaration of a prefix hides the others, so they are made from the last to the first.
    fn declare_all(&mut self, alloc: Global, attributes: &[Attribute<'a>]) -> Result<(), NameFault>
        requires ready { IsReady self.old }
        ensures ok { OnOk result (Binds self.old self.new (declarations (map attribute_view attributes.now))) }
        ensures err { IfErr result (λ e. e ≡ NameFault.NoMemory) }
    {
        for i in (0..attributes.len()).rev() {
            self.declare(alloc, &attributes[i])?;
        }
        Ok(())
    }

    fn declare(&mut self, alloc: Global, attribute: &Attribute<'a>) -> Result<(), NameFault>
        requires ready { IsReady self.old }
        ensures ok { OnOk result (Binds self.old self.new (declarations (attribute_view attribute.now ∷ []))) }
        ensures err { IfErr result (λ e. e ≡ NameFault.NoMemory) }
    {
        match declared_prefix(&attribute.name) {
            Some(prefix) => {
                let namespace = attribute.value.text(alloc)?;
                let number = self.table.add(alloc, namespace.as_str())?;
                self.scope.declare(prefix, number)?;
                Ok(())
            }
            None => Ok(()),
        }
    }

    /// The number of the namespace of a prefix.
    pub(crate) fn number_of(&self, prefix: &str) -> Option<u32>
        requires { IsReady self.now }
        ensures { MatchOption result (bound (scope_of self.now) prefix.now ≡ None)
            (λ n. IsSome (bound (scope_of self.now) prefix.now) × (slice_get self.now.table n ≡ bound (scope_of self.now) prefix.now)) }
    {
        self.scope.lookup(prefix)
    }
}
