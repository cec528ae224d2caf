// Under which key the root is vouched for.

ghost use Rattle.std.specs.Prelude.{◌≡◌, ◌∷◌, ℕ, List, IfErr, OnOk};
ghost use Rattle.std.specs.Option.{option_map, option_to_list};
ghost use Rattle.tree_read.specs.Views.{tree_of};
ghost use Rattle.logout_profile.specs.Keys.{IsVouched, IsNotVouched};

use sig_reference::{SigFault, verify};
use std::alloc::Global;
use tree_read::At;

/// Asks that the key vouches for the root, or the second one where the key does not make the tag.
///
/// # Errors
///
/// The fault under the key or, where that is `TagDiffers` and there is a second key, the fault under that.
pub(crate) fn ask_vouched(
    alloc: Global,
    root: At<'_, '_>,
    key: &[u8],
    second: Option<&[u8]>,
) -> Result<(), SigFault>
    requires { root.node.0 ≡ 0 }
    ensures ok { OnOk result ((vouching : List ℕ) × IsVouched (key.now ∷ option_to_list (option_map (λ other. other.now) second.entry)) (tree_of root.entry) vouching) }
    ensures err { IfErr result (IsNotVouched (key.now ∷ option_to_list (option_map (λ other. other.now) second.entry)) (tree_of root.entry)) }
{
    let Err(fault) = verify(alloc, root.doc, root.node, key) else {
        return Ok(());
    };
    match fault {
        SigFault::TagDiffers => match second {
            Some(other) => {
                verify(alloc, root.doc, root.node, other)?;
                Ok(())
            }
            None => Err(SigFault::TagDiffers),
        },
        other => Err(other),
    }
}
