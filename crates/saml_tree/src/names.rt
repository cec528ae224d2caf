// The names of a document: whether they keep the rules of Namespaces in XML 1.0, and which namespace each is in.

ghost use Rattle.std.specs.Prelude.{◌≡◌, ◌<◌, ◌^◌, ◌⊎◌, ◌↔◌, [], unwrap_or, Some, IsSome, IsTrue, IfOk, IfErr, OnOk, slice_get};
ghost use Rattle.xml_spec.specs.Canonical.{byte_order};
ghost use Rattle.xml_spec.specs.Names.{HasNames};
ghost use Rattle.tree_rows.specs.Rows.{nodes_at};
ghost use Rattle.tree_rows.specs.Shaped.{IsShaped};
ghost use Rattle.tree_rows.specs.Views.{shown_shape};
ghost use Rattle.element_names.specs.Spaces.{scope_of, IsReady, Grows};
ghost use Rattle.saml_tree.specs.NodeNames.{shown};
ghost use Rattle.saml_tree.specs.Views.{name_view};
ghost use Rattle.saml_tree.specs.Resolved.{IsNamedShape, Moves, IsResolvedShape, AreResolved, kept_at};

use crate::node::{Name, NodeNo, TreeFault};
use element_names::{NONE, NameFault, RankedTable, Room, RowNames, Spaces, XMLNS, element_names};
use std::alloc::Global;
use std::cmp::Ordering;
use tree_rows::{Rows, Shape};
use xml_tokens::WrittenName;

impl From<NameFault> for TreeFault {
    ghost use Rattle.std.specs.Prelude.{◌≡◌};
    ghost use Rattle.saml_tree.specs.Reads.{name_fault};

    ghost from_gives = { λ fault e. e ≡ name_fault fault };

    fn from(fault: NameFault) -> TreeFault {
        match fault {
            NameFault::BadNames => TreeFault::BadNames,
            NameFault::NoMemory => TreeFault::NoMemory,
        }
    }
}

/// Which of the numbers that a document keeps is meant.
#[derive(Clone, Copy, Debug)]
pub(crate) enum Kept {
    /// That of xmlns, which the names of declarations are in.
    Xmlns,
    /// That of the name of this element.
    Element(NodeNo),
    /// That of attribute i of this element.
    Attribute(NodeNo, usize),
}

/// The namespaces of a document's names: a table, the numbers of all attributes, and what each row has of them.
#[derive(Debug, Drop)]
pub(crate) struct Names {
    pub(crate) table: RankedTable,
    pub(crate) attributes: Vec<u32>,
    pub(crate) rows: Vec<RowNames>,
}

impl Names {
    /// The number that is kept.
    fn number(&self, kept: Kept) -> u32
        requires { IsSome (kept_at self.now kept) }
        ensures { kept_at self.now kept ≡ slice_get self.now.table result }
    {
        match kept {
            Kept::Xmlns => XMLNS,
            Kept::Element(n) => self.rows[n.0 as usize].element,
            Kept::Attribute(n, i) => self.attributes[self.rows[n.0 as usize].from as usize + i],
        }
    }

    /// The namespace that is kept.
    pub(crate) fn text(&self, kept: Kept) -> &str
        requires { IsSome (kept_at self.now kept) }
        ensures { kept_at self.now kept ≡ Some result.now }
    {
        self.table.text(self.number(kept))
    }

    /// Whether two namespaces that are kept are the same.
    pub(crate) fn is_same(&self, one: Kept, other: Kept) -> bool
        requires one { IsSome (kept_at self.now one) }
        requires other { IsSome (kept_at self.now other) }
        ensures { IsTrue result ↔ (kept_at self.now one ≡ kept_at self.now other) }
    {
        self.table.is_same(self.number(one), self.number(other))
    }

    /// The order of two namespaces that are kept.
    pub(crate) fn order(&self, one: Kept, other: Kept) -> Ordering
        requires one { IsSome (kept_at self.now one) }
        requires other { IsSome (kept_at self.now other) }
        ensures { result ≡ byte_order (unwrap_or (kept_at self.now one) []) (unwrap_or (kept_at self.now other) []) }
    {
        self.table.order(self.number(one), self.number(other))
    }
}

/// A name in its two parts, with the namespace that it is in.
pub(crate) fn shown_name<'d>(name: &WrittenName<'d>, namespace: &'d str) -> Name<'d>
    ensures { name_view result ≡ shown name.now namespace.now }
{
    Name {
        prefix: name.prefix(),
        local: name.local(),
        namespace,
    }
}

/// The names of a row, after its element's level was begun. The numbers of its attributes are put behind the others.
fn row_names<'a>(
    alloc: Global,
    spaces: &mut Spaces<'a>,
    shape: Shape<'_, 'a>,
    room: &mut Room<'a>,
    numbers: &mut Vec<u32>,
) -> Result<RowNames, TreeFault>
    requires ready { IsReady spaces.old }
    requires few { spaces.old.levels < 2 ^ 33 }
    ensures named { OnOk result (IsNamedShape (scope_of spaces.old) (shown_shape shape.entry)) }
    ensures resolved { IfOk result (λ names. IsResolvedShape spaces.new.table numbers.new.items (scope_of spaces.old) (shown_shape shape.entry) names) }
    ensures moves { OnOk result (Moves spaces.old spaces.new (shown_shape shape.entry)) }
    ensures grows { OnOk result (Grows numbers.old.items numbers.new.items) }
    ensures err { IfErr result (λ e. (e ≡ TreeFault.NoMemory)
        ⊎ ((e ≡ TreeFault.BadNames) × ¬ (IsNamedShape (scope_of spaces.old) (shown_shape shape.entry)))) }
{
    match shape {
        Shape::Element { name, attributes } => {
            spaces.enter(alloc, attributes)?;
            Ok(element_names(alloc, spaces, name, attributes, room, numbers)?)
        }
        Shape::Leaf(_) => Ok(RowNames {
            element: NONE,
            from: 0,
        }),
    }
}

/// The namespaces of the names of one tree.
///
/// # Errors
///
/// `BadNames`: a name breaks a rule of Namespaces in XML 1.0. `NoMemory`.
pub(crate) fn resolve<'a>(alloc: Global, rows: &Rows<'a>) -> Result<Names, TreeFault>
    requires { IsShaped rows.now.rows }
    ensures named { OnOk result (HasNames (nodes_at 0 rows.now.rows)) }
    ensures resolved { IfOk result (λ names. AreResolved rows.now.rows names) }
    ensures err { IfErr result (λ e. (e ≡ TreeFault.NoMemory)
        ⊎ ((e ≡ TreeFault.BadNames) × ¬ (HasNames (nodes_at 0 rows.now.rows)))) }
{
    let mut spaces = Spaces::new(alloc)?;
    let mut named = Vec::new(alloc);
    let mut numbers = Vec::new(alloc);
    let mut room = Room::new(alloc);
    for k in 0..rows.len() {
        spaces.leave(rows.depth(k));
        let names = row_names(alloc, &mut spaces, rows.shape(k), &mut room, &mut numbers)?;
        named.push(names)?;
    }
    let table = RankedTable::of(alloc, spaces.table)?;
    Ok(Names {
        table,
        attributes: numbers,
        rows: named,
    })
}
