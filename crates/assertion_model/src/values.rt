// The values of attributes, read as what they have to be.
ghost use Rattle.std.specs.Prelude.{◌≡◌, ◌≤◌, IfOk, IfSome};
ghost use Rattle.std.specs.Option.{option_and_then};
ghost use Rattle.assertion_model.specs.Contents.{value};
ghost use Rattle.assertion_model.specs.Instants.{moment_of, moment_if_any};
ghost use Rattle.assertion_model.specs.Login.{some_text};
ghost use Rattle.assertion_model.specs.Parts.{part_of};
ghost use Rattle.assertion_model.specs.Reading.{Reads};

use crate::look::value_of;
use owned_values::Text;
use saml_time::{LAST, read_instant};
use std::alloc::Global;
use tree_read::{At, ShapeFault};

/// The moment that a text tells (SAML Core, 1.3.3).
pub(crate) fn moment(text: &str) -> Option<u64>
    ensures told { result ≡ moment_of text.now }
    ensures bound { IfSome result (λ ms. ms ≤ LAST) }
{
    read_instant(text)
}

/// The value of an attribute that has to be there.
pub(crate) fn text_at(alloc: Global, at: At<'_, '_>, local: &str) -> Result<Text, ShapeFault>
    ensures { Reads result (value local.now (part_of at.entry).attributes) }
{
    match value_of(alloc, at, local)? {
        Some(text) => Ok(text),
        None => Err(ShapeFault::WrongShape),
    }
}

/// The same, where it must not be empty.
pub(crate) fn some_text_at(alloc: Global, at: At<'_, '_>, local: &str) -> Result<Text, ShapeFault>
    ensures { Reads result (option_and_then some_text (value local.now (part_of at.entry).attributes)) }
{
    let text = text_at(alloc, at, local)?;
    if text.as_str().is_empty() {
        return Err(ShapeFault::WrongShape);
    }
    Ok(text)
}

/// The moment that the value of an attribute tells, which has to be there.
pub(crate) fn moment_at(alloc: Global, at: At<'_, '_>, local: &str) -> Result<u64, ShapeFault>
    ensures read { Reads result (option_and_then moment_of (value local.now (part_of at.entry).attributes)) }
    ensures bound { IfOk result (λ ms. ms ≤ LAST) }
{
    let text = text_at(alloc, at, local)?;
    match moment(text.as_str()) {
        Some(ms) => Ok(ms),
        None => Err(ShapeFault::WrongShape),
    }
}

/// The same, where the attribute is there.
pub(crate) fn moment_if_any(
    alloc: Global,
    at: At<'_, '_>,
    local: &str,
) -> Result<Option<u64>, ShapeFault>
    ensures { Reads result (moment_if_any (value local.now (part_of at.entry).attributes)) }
{
    let Some(text) = value_of(alloc, at, local)? else {
        return Ok(None);
    };
    match moment(text.as_str()) {
        Some(ms) => Ok(Some(ms)),
        None => Err(ShapeFault::WrongShape),
    }
}
