// Names in two parts, and what a name declares (Namespaces in XML 1.0, 3 to 5).

ghost use Rattle.std.specs.Prelude.{◌≡◌, ◌↔◌, IsTrue, is_some};
ghost use Rattle.std.specs.Option.{option_map};
ghost use Rattle.xml_spec.specs.Characters.{IsNoColonName, IsQualifiedName};
ghost use Rattle.xml_spec.specs.Names.{is_scheme_byte, scheme_goes_on, is_absolute, declared_prefix, IsBinding};

use xml_chars::{XML_NAMESPACE, XMLNS_NAMESPACE, is_name, split_colon};
use xml_tokens::{WrittenName, is_ascii_no_colon_name};

/// Whether the text is a Name without a colon (Namespaces, 3, NCName).
fn is_no_colon_name(text: &str) -> bool
    ensures { IsTrue result ↔ IsNoColonName text.now }
{
    // most are of ASCII alone, which is told faster
    if is_ascii_no_colon_name(text) {
        return true;
    }
    is_name(text) && split_colon(text).is_none()
}

/// Whether the text is a qualified name (Namespaces, 4, QName).
pub(crate) fn is_qualified(name: &WrittenName<'_>) -> bool
    ensures { IsTrue result ↔ IsQualifiedName name.now }
{
    name.is_named();
    if !name.has_colon() {
        return true;
    }
    is_no_colon_name(name.prefix()) && is_no_colon_name(name.local())
}

/// The prefix that an attribute of this name declares, empty for the default.
pub(crate) fn declared_prefix<'a>(name: &WrittenName<'a>) -> Option<&'a str>
    ensures { option_map (λ prefix. prefix.now) result ≡ declared_prefix name.now }
{
    if name.as_str() == "xmlns" {
        Some("")
    } else if name.prefix() == "xmlns" {
        Some(name.local())
    } else {
        None
    }
}

/// Whether an attribute of this name declares a namespace.
pub fn is_declaration(name: &WrittenName<'_>) -> bool
    ensures { result ≡ is_some (declared_prefix name.now) }
{
    declared_prefix(name).is_some()
}

/// Whether a scheme may hold the byte behind its first.
fn is_scheme_byte(byte: u8) -> bool
    ensures { result ≡ is_scheme_byte byte }
{
    byte.is_ascii_alphanumeric() || matches!(byte, b'+' | b'-' | b'.')
}

/// Whether bytes of a scheme stand in front of the first colon.
fn scheme_goes_on(bytes: &[u8]) -> bool
    ensures { result ≡ scheme_goes_on bytes.now }
{
    for byte in bytes {
        if *byte == b':' {
            return true;
        }
        if !is_scheme_byte(*byte) {
            return false;
        }
    }
    false
}

/// Whether the name of a namespace is an absolute one, which begins with a scheme (RFC 3986, 4.3).
fn is_absolute(namespace: &str) -> bool
    ensures { result ≡ is_absolute namespace.now }
{
    match namespace.as_bytes() {
        [] => false,
        [first, rest @ ..] => first.is_ascii_alphabetic() && scheme_goes_on(rest),
    }
}

/// Whether a declaration may bind the prefix to the namespace.
pub(crate) fn is_binding(prefix: &str, namespace: &str) -> bool
    ensures { IsTrue result ↔ IsBinding (record { prefix = prefix.now; namespace = namespace.now }) }
{
    let is_reserved = prefix == "xml"
        || prefix == "xmlns"
        || namespace == XML_NAMESPACE
        || namespace == XMLNS_NAMESPACE;
    if is_reserved {
        false
    } else if namespace.is_empty() {
        prefix.is_empty()
    } else {
        is_absolute(namespace)
    }
}
