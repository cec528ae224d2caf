// The parts that several messages have (SAML Core, 3.2).

ghost use Rattle.std.specs.Prelude.{◌≡◌, ℕ, List, Option, None, Some, IfOk, IfErr, OnErr, codes};
ghost use Rattle.std.specs.Option.{option_map};
ghost use Rattle.saml_names.specs.Names.{samlp};
ghost use Rattle.saml_names.specs.Views.{name_of};
ghost use Rattle.tree_read.specs.Children.{children};
ghost use Rattle.tree_read.specs.Texts.{attribute_text};
ghost use Rattle.tree_read.specs.Faults.{IsShapeFault};
ghost use Rattle.tree_read.specs.Views.{tree_of};
ghost use Rattle.protocol_messages.specs.Messages.{IsMessage, Tell, only, issuer_of, boolean, flag, value_inside, at_most_one, status_in_code, status_of};

use owned_values::Text;
use saml_names::{ExpandedName, saml, samlp};
use saml_time::read_instant;
use std::alloc::Global;
use tree_read::{
    At, OtherShape, ShapeFault, at_most_one, attr_equals, attr_text, only_child, trimmed,
};

/// The only child of a name.
///
/// # Errors
///
/// `OtherShape`, exactly where there is none or there are several.
pub(crate) fn one<'d, 'a>(at: At<'d, 'a>, name: ExpandedName<'_>) -> Result<At<'d, 'a>, OtherShape>
    ensures found { IfOk result (λ child. only (children (tree_of at.entry) at.entry.node.0 (name_of name.entry)) ≡ Some child.node.0) }
    ensures there { IfOk result (λ child. child.doc.now ≡ at.entry.doc.now) }
    ensures other { OnErr result (only (children (tree_of at.entry) at.entry.node.0 (name_of name.entry)) ≡ None) }
{
    match only_child(at, name.namespace, name.local) {
        Ok(child) => Ok(child),
        Err(_) => Err(OtherShape),
    }
}

/// The provider that the one Issuer of a message names (SAML Core, 2.2.5).
///
/// # Errors
///
/// `WrongShape`, exactly where there is not just one Issuer.
pub(crate) fn read_issuer(alloc: Global, at: At<'_, '_>) -> Result<Text, ShapeFault>
    ensures ok { IfOk result (λ issuer. issuer_of (tree_of at.entry) at.entry.node.0 ≡ Some issuer) }
    ensures other { IfErr result (λ fault. IsShapeFault fault (issuer_of (tree_of at.entry) at.entry.node.0 ≡ None)) }
{
    let issuer = one(at, saml("Issuer"))?;
    Ok(trimmed(alloc, issuer)?)
}

/// The moment that an attribute tells (SAML Core, 1.3.3), in milliseconds since 1970; none where it is not given.
///
/// # Errors
///
/// `WrongShape`, exactly where it is given and tells none.
pub(crate) fn read_moment(
    alloc: Global,
    at: At<'_, '_>,
    local: &str,
) -> Result<Option<u64>, ShapeFault>
    ensures ok { IfOk result (λ moment. Tell (attribute_text (tree_of at.entry) at.entry.node.0 local.now) moment) }
    ensures other { IfErr result (λ fault. IsShapeFault fault ((moment : Option ℕ) → ¬ (Tell (attribute_text (tree_of at.entry) at.entry.node.0 local.now) moment))) }
{
    let Some(text) = attr_text(alloc, at, local)? else {
        return Ok(None);
    };
    match read_instant(text.as_str()) {
        Some(moment) => Ok(Some(moment)),
        None => Err(ShapeFault::WrongShape),
    }
}

/// The value of a boolean as XML Schema writes it (XML Schema 2, 3.2.2); none where the text is no boolean.
fn boolean(text: &str) -> Option<bool>
    ensures { result ≡ boolean text.now }
{
    if text == "true" || text == "1" {
        Some(true)
    } else if text == "false" || text == "0" {
        Some(false)
    } else {
        None
    }
}

/// Whether an attribute is given and is true.
///
/// # Errors
///
/// `WrongShape`, exactly where it is given and is no boolean.
pub(crate) fn read_flag(alloc: Global, at: At<'_, '_>, local: &str) -> Result<bool, ShapeFault>
    ensures ok { IfOk result (λ set. flag (attribute_text (tree_of at.entry) at.entry.node.0 local.now) ≡ Some set) }
    ensures other { IfErr result (λ fault. IsShapeFault fault (flag (attribute_text (tree_of at.entry) at.entry.node.0 local.now) ≡ None)) }
{
    let Some(text) = attr_text(alloc, at, local)? else {
        return Ok(false);
    };
    match boolean(text.as_str()) {
        Some(set) => Ok(set),
        None => Err(ShapeFault::WrongShape),
    }
}

/// What each message has.
#[derive(Drop)]
pub(crate) struct Head {
    pub(crate) id: Text,
    pub(crate) issued: u64,
}

/// What each message has, of an element of this local name.
///
/// # Errors
///
/// `WrongShape`, exactly where the element is no message of that name.
pub(crate) fn read_head(alloc: Global, at: At<'_, '_>, local: &str) -> Result<Head, ShapeFault>
    ensures ok { IfOk result (λ head. IsMessage (tree_of at.entry) at.entry.node.0 local.now head.id head.issued) }
    ensures other { IfErr result (λ fault. IsShapeFault fault ((id : List ℕ) (issued : ℕ) → ¬ (IsMessage (tree_of at.entry) at.entry.node.0 local.now id issued))) }
{
    if !at.is_named(samlp(local)) {
        return Err(ShapeFault::WrongShape);
    }
    if !attr_equals(at, "Version", "2.0") {
        return Err(ShapeFault::WrongShape);
    }
    let Some(id) = attr_text(alloc, at, "ID")? else {
        return Err(ShapeFault::WrongShape);
    };
    if id.is_empty() {
        return Err(ShapeFault::WrongShape);
    }
    if id.len() > 256 {
        return Err(ShapeFault::WrongShape);
    }
    match read_moment(alloc, at, "IssueInstant")? {
        Some(issued) => Ok(Head { id, issued }),
        None => Err(ShapeFault::WrongShape),
    }
}

/// A status: the Value of its StatusCode, and that of the StatusCode inside it where it has one (SAML Core, 3.2.2.2).
#[derive(Drop)]
pub(crate) struct Status {
    pub(crate) top: Text,
    pub(crate) inner: Option<Text>,
}

/// The Value of the StatusCode inside another; none where there is no such StatusCode or it has no Value.
///
/// # Errors
///
/// `WrongShape`, exactly where there are several.
fn read_inner(alloc: Global, code: At<'_, '_>) -> Result<Option<Text>, ShapeFault>
    ensures ok { IfOk result (λ inner. option_map (value_inside (tree_of code.entry))
        (at_most_one (children (tree_of code.entry) code.entry.node.0 (samlp (codes "StatusCode")))) ≡ Some inner) }
    ensures other { IfErr result (λ fault. IsShapeFault fault (at_most_one (children (tree_of code.entry) code.entry.node.0 (samlp (codes "StatusCode"))) ≡ None)) }
{
    match at_most_one(code, samlp("StatusCode"))? {
        Some(inner) => Ok(attr_text(alloc, inner, "Value")?),
        None => Ok(None),
    }
}

/// The status that a StatusCode says.
///
/// # Errors
///
/// `WrongShape`, exactly where it has no Value or holds several StatusCodes.
fn read_code(alloc: Global, code: At<'_, '_>) -> Result<Status, ShapeFault>
    ensures ok { IfOk result (λ status. status_in_code (tree_of code.entry) code.entry.node.0 ≡ Some status) }
    ensures other { IfErr result (λ fault. IsShapeFault fault (status_in_code (tree_of code.entry) code.entry.node.0 ≡ None)) }
{
    let inner = read_inner(alloc, code)?;
    match attr_text(alloc, code, "Value")? {
        Some(top) => Ok(Status { top, inner }),
        None => Err(ShapeFault::WrongShape),
    }
}

/// The status of a response (SAML Core, 3.2.2.1).
///
/// # Errors
///
/// `WrongShape`, exactly where it has not just one Status with one StatusCode that says one.
pub(crate) fn read_status(alloc: Global, at: At<'_, '_>) -> Result<Status, ShapeFault>
    ensures ok { IfOk result (λ status. status_of (tree_of at.entry) at.entry.node.0 ≡ Some status) }
    ensures other { IfErr result (λ fault. IsShapeFault fault (status_of (tree_of at.entry) at.entry.node.0 ≡ None)) }
{
    let status = one(at, samlp("Status"))?;
    let code = one(status, samlp("StatusCode"))?;
    read_code(alloc, code)
}
