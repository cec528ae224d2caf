//! Laws of the levels, each the contract of a function that does nothing.

ghost use Rattle.namespace_scope.specs.Laws.{PopUndoesItsLevel, MissesOnlyTheUndeclared};

/// After a `pop` every look-up answers as before the matching `push`, whatever was called in between.
pub fn pop_undoes_its_level()
    ensures { PopUndoesItsLevel }
{}

/// A look-up finds nothing exactly where no pair in force has the prefix.
pub fn lookup_misses_only_the_undeclared()
    ensures { MissesOnlyTheUndeclared }
{}
