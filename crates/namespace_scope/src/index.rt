// The index of a scope: the number of each prefix in force.

ghost use Rattle.std.specs.Prelude.{◌≡◌, ℕ, List, IsSome};
ghost use Rattle.namespace_scope.specs.Index.{found, found_after};

use std::collections::BTreeMap;

/// Gives a prefix in force the number that it had before, or takes it out where it had none.
pub fn restore(latest: &mut BTreeMap<String, u32>, prefix: &str, before: Option<u32>)
    requires { IsSome (found latest.old prefix.now) }
    ensures { (q : List ℕ) → found latest.new q ≡ found_after latest.old prefix.now before q }
{
    match before {
        Some(name) => {
            if let Some(slot) = latest.get_mut(prefix) {
                *slot = name;
            }
        }
        None => {
            let _ = latest.remove(prefix);
        }
    }
}
