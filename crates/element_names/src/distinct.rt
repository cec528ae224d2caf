// Whether the names of an element's attributes differ.

ghost use Rattle.std.specs.Prelude.{◌≡◌};
ghost use Rattle.element_names.specs.Keys.{are_distinct};

/// A name and the number of its namespace.
pub(crate) type Key<'a> = (u32, &'a str);

/// Whether no two of the keys are equal. They are sorted for it, so that time goes with n log n of how many there are. Most
/// elements have at most one.
pub(crate) fn are_distinct(keys: &mut [Key<'_>]) -> bool
    ensures { result ≡ are_distinct keys.old }
{
    if keys.len() < 2 {
        return true;
    }
    keys.sort_unstable();
    'pairs: for i in 1..keys.len() {
        if keys[i - 1] == keys[i] {
            return false;
        }
    }
    true
}
