// The parts of a signature, read from their elements (XML Signature, 4).

ghost use Rattle.std.specs.Prelude.{◌≡◌, ℕ, List, IfOk, IfErr};
ghost use Rattle.tree_read.specs.Faults.{IsShapeFault};
ghost use Rattle.tree_read.specs.Views.{tree_of};
ghost use Rattle.sig_reference.specs.Form.{Parts, AreTransforms, IsReference, IsSignedInfo, IsSignature, HasForm, HasFirstForm};
ghost use Rattle.sig_reference.specs.Views.{reference_parts, info_parts, parts_of};

use crate::encoded::read_digest;
use crate::methods::{check_method, read_canonicalization};
use crate::uris::{ENVELOPED, HMAC_SHA256, SHA256};
use owned_values::{Text, Texts};
use saml_names::{ds, saml};
use saml_tree::NodeNo;
use std::alloc::Global;
use tree_read::{At, ElementChildren, ShapeFault, attr_text};

/// What a Reference says: the prefixes of its canonical form, the DigestValue and the URI.
#[derive(Drop)]
pub(crate) struct Reference {
    pub(crate) prefixes: Texts,
    pub(crate) digest: [u8; 32],
    pub(crate) uri: Option<Text>,
}

/// What SignedInfo says: where it stands, the prefixes of its own canonical form and its Reference.
#[derive(Drop)]
pub(crate) struct SignedInfo {
    pub(crate) node: NodeNo,
    pub(crate) prefixes: Texts,
    pub(crate) reference: Reference,
}

/// What a Signature says: where it stands, its SignedInfo and the SignatureValue.
#[derive(Drop)]
pub(crate) struct Signature {
    pub(crate) node: NodeNo,
    pub(crate) info: SignedInfo,
    pub(crate) tag: [u8; 32],
}

/// The prefixes of the canonical form to which Transforms leads.
///
/// # Errors
///
/// `WrongShape`, exactly where it is not that the enveloped signature is left out and then the exclusive form taken.
fn read_transforms(alloc: Global, at: At<'_, '_>) -> Result<Texts, ShapeFault>
    ensures ok { IfOk result (λ prefixes. AreTransforms (tree_of at.entry) at.entry.node.0 prefixes) }
    ensures other { IfErr result (λ fault. IsShapeFault fault ((prefixes : List (List ℕ)) → ¬ (AreTransforms (tree_of at.entry) at.entry.node.0 prefixes))) }
{
    let mut children = ElementChildren::of(at);
    let first = children.take(ds("Transform"))?;
    let second = children.take(ds("Transform"))?;
    children.end()?;
    check_method(first, ENVELOPED)?;
    read_canonicalization(alloc, second)
}

/// What a Reference says.
///
/// # Errors
///
/// `WrongShape`, exactly where it is not of the form that it should have.
fn read_reference(alloc: Global, at: At<'_, '_>) -> Result<Reference, ShapeFault>
    ensures ok { IfOk result (λ reference. IsReference (tree_of at.entry) at.entry.node.0 (reference_parts reference)) }
    ensures other { IfErr result (λ fault. IsShapeFault fault ((parts : Parts) → ¬ (IsReference (tree_of at.entry) at.entry.node.0 parts))) }
{
    let mut children = ElementChildren::of(at);
    let transforms = children.take(ds("Transforms"))?;
    let method = children.take(ds("DigestMethod"))?;
    let value = children.take(ds("DigestValue"))?;
    children.end()?;
    let prefixes = read_transforms(alloc, transforms)?;
    check_method(method, SHA256)?;
    let digest = read_digest(alloc, value)?;
    let uri = attr_text(alloc, at, "URI")?;
    Ok(Reference {
        prefixes,
        digest,
        uri,
    })
}

/// What SignedInfo says.
///
/// # Errors
///
/// `WrongShape`, exactly where it is not of the form that it should have.
fn read_signed_info(alloc: Global, at: At<'_, '_>) -> Result<SignedInfo, ShapeFault>
    ensures ok { IfOk result (λ info. IsSignedInfo (tree_of at.entry) (info_parts info)) }
    ensures node { IfOk result (λ info. info.node.0 ≡ at.entry.node.0) }
    ensures other { IfErr result (λ fault. IsShapeFault fault ((parts : Parts) → parts.signed_info ≡ at.entry.node.0 → ¬ (IsSignedInfo (tree_of at.entry) parts))) }
{
    let mut children = ElementChildren::of(at);
    let canonicalization = children.take(ds("CanonicalizationMethod"))?;
    let method = children.take(ds("SignatureMethod"))?;
    let reference = children.take(ds("Reference"))?;
    children.end()?;
    let prefixes = read_canonicalization(alloc, canonicalization)?;
    check_method(method, HMAC_SHA256)?;
    let reference = read_reference(alloc, reference)?;
    Ok(SignedInfo {
        node: at.node,
        prefixes,
        reference,
    })
}

/// What a Signature says.
///
/// # Errors
///
/// `WrongShape`, exactly where it is not of the form that it should have.
fn read_signature(alloc: Global, at: At<'_, '_>) -> Result<Signature, ShapeFault>
    ensures ok { IfOk result (λ signature. IsSignature (tree_of at.entry) (parts_of signature)) }
    ensures node { IfOk result (λ signature. signature.node.0 ≡ at.entry.node.0) }
    ensures other { IfErr result (λ fault. IsShapeFault fault ((parts : Parts) → parts.signature ≡ at.entry.node.0 → ¬ (IsSignature (tree_of at.entry) parts))) }
{
    let mut children = ElementChildren::of(at);
    let info = children.take(ds("SignedInfo"))?;
    let value = children.take(ds("SignatureValue"))?;
    children.end_or(ds("KeyInfo"))?;
    let info = read_signed_info(alloc, info)?;
    let tag = read_digest(alloc, value)?;
    Ok(Signature {
        node: at.node,
        info,
        tag,
    })
}

/// What the signature of an element says.
///
/// # Errors
///
/// `WrongShape`, exactly where the element has no signature of the form that SAML and this profile ask for.
pub(crate) fn read_form(alloc: Global, at: At<'_, '_>) -> Result<Signature, ShapeFault>
    ensures ok { IfOk result (λ signature. HasForm (tree_of at.entry) at.entry.node.0 (parts_of signature)) }
    ensures other { IfErr result (λ fault. IsShapeFault fault ((parts : Parts) → ¬ (HasForm (tree_of at.entry) at.entry.node.0 parts))) }
{
    let mut children = ElementChildren::of(at);
    children.take(saml("Issuer"))?;
    let signature = children.take(ds("Signature"))?;
    if !children.has_no(ds("Signature")) {
        return Err(ShapeFault::WrongShape);
    }
    read_signature(alloc, signature)
}

/// What the signature in front of an element says.
///
/// # Errors
///
/// `WrongShape`, exactly where the first element child of the element is no Signature of the form that this profile asks
/// for, or not the only one.
pub(crate) fn read_first_form(alloc: Global, at: At<'_, '_>) -> Result<Signature, ShapeFault>
    ensures ok { IfOk result (λ signature. HasFirstForm (tree_of at.entry) at.entry.node.0 (parts_of signature)) }
    ensures other { IfErr result (λ fault. IsShapeFault fault ((parts : Parts) → ¬ (HasFirstForm (tree_of at.entry) at.entry.node.0 parts))) }
{
    let mut left = ElementChildren::of(at);
    let signature = left.take(ds("Signature"))?;
    if !left.has_no(ds("Signature")) {
        return Err(ShapeFault::WrongShape);
    }
    read_signature(alloc, signature)
}
