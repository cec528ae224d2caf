// Names in two parts, white space, and the namespaces that are bound from the start.

ghost use Rattle.std.specs.Prelude.{◌≡◌, filter, is_some, not, IfOk};
ghost use Rattle.std.specs.Option.{option_map};
ghost use Rattle.xml_spec.specs.Characters.{at_colon, prefix_of, local_of};
ghost use Rattle.xml_spec.specs.Syntax.{is_white};

use std::alloc::{AllocError, Global};

/// The namespace of the prefix xml (Namespaces in XML 1.0, 3).
pub const XML_NAMESPACE: &str = "http://www.w3.org/XML/1998/namespace";

/// The namespace of the prefix xmlns (Namespaces in XML 1.0, 3).
pub const XMLNS_NAMESPACE: &str = "http://www.w3.org/2000/xmlns/";

/// Whether the byte is white space (XML 1.0, 2.3, S).
pub fn is_white(byte: u8) -> bool
    ensures { result ≡ is_white byte }
{
    matches!(byte, b' ' | b'\t' | b'\r' | b'\n')
}

/// The bytes that are no white space.
pub fn without_white(alloc: Global, bytes: &[u8]) -> Result<Vec<u8>, AllocError>
    ensures { IfOk result (λ kept. kept.items ≡ filter (λ b. not (is_white b)) bytes.now) }
{
    let kept = bytes
        .iter()
        .filter(|byte| !is_white(**byte))
        .copied()
        .collect(alloc)?;
    Ok(kept)
}

/// What stands before the first colon of a name and what stands behind it (Namespaces in XML 1.0, 4).
pub fn split_colon<'a>(name: &'a str) -> Option<(&'a str, &'a str)>
    ensures { option_map (λ parts. (parts.0.now, parts.1.now)) result ≡ at_colon name.now }
{
    name.split_once(':')
}

/// Whether a name has a colon.
pub fn has_colon(name: &str) -> bool
    ensures { result ≡ is_some (at_colon name.now) }
{
    split_colon(name).is_some()
}

/// The prefix of a name, empty where it has none.
pub fn prefix_of<'a>(name: &'a str) -> &'a str
    ensures { result.now ≡ prefix_of name.now }
{
    match split_colon(name) {
        Some((prefix, _)) => prefix,
        None => "",
    }
}

/// The name behind the prefix.
pub fn local_of<'a>(name: &'a str) -> &'a str
    ensures { result.now ≡ local_of name.now }
{
    match split_colon(name) {
        Some((_, local)) => local,
        None => name,
    }
}
