// What a scope keeps of the calls that added to it.

ghost use Rattle.std.specs.Prelude.{◌≡◌, reverse, OnOk};
ghost use Rattle.namespace_scope.specs.Index.{Index};
ghost use Rattle.namespace_scope.specs.Marks.{levels_of, with_bare, IsIndexed};

use crate::NoMemory;

/// What a scope keeps of each call that added to it, in the order of the calls.
#[derive(Drop)]
pub enum Mark<'a> {
    /// A level began.
    Level,
    /// A prefix was declared, which until then had the number `shadowed`.
    Pair {
        prefix: &'a str,
        name: u32,
        shadowed: Option<u32>,
    },
}

/// Gives each level that began behind the marks a mark of its own.
pub fn settle(marks: &mut Vec<Mark<'_>>, bare: &mut usize) -> Result<(), NoMemory>
    ensures none { OnOk result (bare.new ≡ 0) }
    ensures same { with_bare bare.new (levels_of (reverse marks.new.items)) ≡ with_bare bare.old (levels_of (reverse marks.old.items)) }
    ensures indexed { (latest : Index) → IsIndexed (reverse marks.old.items) latest → IsIndexed (reverse marks.new.items) latest }
{
    'levels: while *bare > 0 {
        marks.push(Mark::Level)?;
        *bare -= 1;
    }
    Ok(())
}
