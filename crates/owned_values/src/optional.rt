//! Texts that may be there.
ghost use Rattle.std.specs.Prelude.{◌≡◌, IfOk};
ghost use Rattle.std.specs.Option.{option_map};

use crate::{NoMemory, Text};

/// A copy of a text, where there is one.
pub fn copy_if_any(text: &Option<Text>) -> Result<Option<Text>, NoMemory>
    ensures { IfOk result (λ copy. copy ≡ text.now) }
{
    match text {
        Some(text) => Ok(Some(text.copy()?)),
        None => Ok(None),
    }
}

/// The characters of a text, where there is one.
pub fn chars_if_any(text: &Option<Text>) -> Option<&str>
    ensures { option_map (λ chars. chars.now) result ≡ text.now }
{
    match text {
        Some(text) => Some(text.as_str()),
        None => None,
    }
}
