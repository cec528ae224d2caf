// Whether a signature vouches for an element (SAML Core 5.4; XML Signature, 3.2).

ghost use Rattle.std.specs.Prelude.{◌≡◌, ◌≢◌, ◌↔◌, ◌<◌, [], ◌∷◌, IfOk, IfErr, IsTrue, OnOk};
ghost use Rattle.saml_tree.specs.Elements.{IsElement};
ghost use Rattle.tree_read.specs.Views.{tree_of};
ghost use Rattle.sig_reference.specs.Signature.{number_sign, IsReferredTo, IsTagged, IsDigested, IsValid, IsInvalid, IsUnvouched, IsFirstUnvouched};
ghost use Rattle.sig_reference.specs.Views.{parts_of};
ghost use Rattle.sig_reference.specs.Vouching.{IsVouchedWith, IsVouchedFirstWith};

use crate::fault::SigFault;
use crate::form::{Signature, read_first_form, read_form};
use crate::limits::MAX_CHECKED_FORM_LENGTH;
use crate::vouched::Vouched;
use excl_c14n::{HashOctets, MacOctets, canon_into};
use hmac_sha256::same_tag;
use owned_values::NoMemory;
use saml_tree::{Doc, NodeNo};
use std::alloc::Global;
use tree_read::{At, attr_text};

/// Whether the URI is a reference to this ID, which is not empty.
fn refers_to(uri: &str, id: &str) -> bool
    ensures { IsTrue result ↔ ((id.now ≢ []) × (uri.now ≡ number_sign ∷ id.now)) }
{
    let Some((first, rest)) = uri.as_bytes().split_first() else {
        return false;
    };
    *first == b'#' && !rest.is_empty() && rest == id.as_bytes()
}

/// Whether the Reference is to the ID of the element (SAML Core 5.4.2).
fn is_referred_to(alloc: Global, at: At<'_, '_>, signature: &Signature) -> Result<bool, NoMemory>
    ensures { IfOk result (λ is. IsTrue is ↔ IsReferredTo (tree_of at.entry) at.entry.node.0 (parts_of signature.now)) }
{
    let Some(id) = attr_text(alloc, at, "ID")? else {
        return Ok(false);
    };
    match &signature.info.reference.uri {
        Some(uri) => Ok(refers_to(uri.as_str(), id.as_str())),
        None => Ok(false),
    }
}

/// Whether the SignatureValue is the HMAC of SignedInfo under the key (XML Signature, 3.2.2). Its form is put no
/// further than it is checked.
fn is_tagged(
    alloc: Global,
    doc: &Doc<'_>,
    signature: &Signature,
    key: &[u8],
) -> Result<bool, NoMemory>
    requires { IsElement doc.now.tree signature.now.info.node.0 }
    ensures { IfOk result (λ is. IsTrue is ↔ IsTagged key.now doc.now.tree (parts_of signature.now)) }
{
    let info = &signature.info;
    let mut code = MacOctets::within(MAX_CHECKED_FORM_LENGTH, key);
    let put = canon_into(alloc, doc, info.node, None, &info.prefixes, &mut code);
    let Some(tag) = code.finish() else {
        return Ok(false);
    };
    put?;
    Ok(same_tag(&signature.tag, &tag))
}

/// Whether the DigestValue is the hash of the element without its Signature (XML Signature, 3.2.1). Its form is put no
/// further than it is checked.
fn is_digested(
    alloc: Global,
    doc: &Doc<'_>,
    node: NodeNo,
    signature: &Signature,
) -> Result<bool, NoMemory>
    requires element { IsElement doc.now.tree node.0 }
    requires below { node.0 < signature.now.node.0 }
    ensures { IfOk result (λ is. IsTrue is ↔ IsDigested doc.now.tree node.0 (parts_of signature.now)) }
{
    let reference = &signature.info.reference;
    let mut hash = HashOctets::within(MAX_CHECKED_FORM_LENGTH);
    let put = canon_into(
        alloc,
        doc,
        node,
        Some(signature.node),
        &reference.prefixes,
        &mut hash,
    );
    let Some(digest) = hash.finish() else {
        return Ok(false);
    };
    put?;
    Ok(same_tag(&reference.digest, &digest))
}

/// Asks that what a signature says holds of an element.
///
/// # Errors
///
/// The first of `BadReference`, `TagDiffers` and `DigestDiffers` that holds.
fn validate(
    alloc: Global,
    at: At<'_, '_>,
    signature: &Signature,
    key: &[u8],
) -> Result<(), SigFault>
    requires info { IsElement (tree_of at) signature.now.info.node.0 }
    requires below { at.node.0 < signature.now.node.0 }
    ensures ok { OnOk result (IsValid key.now (tree_of at.entry) at.entry.node.0 (parts_of signature.now)) }
    ensures err { IfErr result (IsInvalid key.now (tree_of at.entry) at.entry.node.0 (parts_of signature.now)) }
{
    if !is_referred_to(alloc, at, signature)? {
        return Err(SigFault::BadReference);
    }
    if !is_tagged(alloc, at.doc, signature, key)? {
        return Err(SigFault::TagDiffers);
    }
    if !is_digested(alloc, at.doc, at.node, signature)? {
        return Err(SigFault::DigestDiffers);
    }
    Ok(())
}

/// Whether a signature vouches for an element under the key, which may have any length.
///
/// # Errors
///
/// The first of `BadSignatureForm`, `BadReference`, `TagDiffers` and `DigestDiffers` that holds. `NoMemory` may come in
/// place of any other answer.
pub fn verify<'d, 'a>(
    alloc: Global,
    doc: &'d Doc<'a>,
    node: NodeNo,
    key: &[u8],
) -> Result<Vouched<'d, 'a>, SigFault>
    requires element { IsElement doc.now.tree node.0 }
    ensures vouched { IfOk result (IsVouchedWith key.now) }
    ensures place { IfOk result (λ vouched. (vouched.document ≡ doc.now) × (vouched.node ≡ node.0)) }
    ensures err { IfErr result (IsUnvouched key.now doc.now.tree node.0) }
{
    // The document has each ID once, which its root tells.
    let _ = doc.root();
    let at = At { doc, node };
    let signature = read_form(alloc, at)?;
    validate(alloc, at, &signature, key)?;
    Ok(Vouched::of(doc, node, signature.node))
}

/// Whether a signature that stands in front of all other children vouches for an element under the key, which may have
/// any length. No Issuer is asked for (SAML Metadata, 3.1).
///
/// # Errors
///
/// As those of `verify`.
pub fn verify_first<'d, 'a>(
    alloc: Global,
    doc: &'d Doc<'a>,
    node: NodeNo,
    key: &[u8],
) -> Result<Vouched<'d, 'a>, SigFault>
    requires element { IsElement doc.now.tree node.0 }
    ensures vouched { IfOk result (IsVouchedFirstWith key.now) }
    ensures place { IfOk result (λ vouched. (vouched.document ≡ doc.now) × (vouched.node ≡ node.0)) }
    ensures err { IfErr result (IsFirstUnvouched key.now doc.now.tree node.0) }
{
    // The document has each ID once, which its root tells.
    let _ = doc.root();
    let at = At { doc, node };
    let signature = read_first_form(alloc, at)?;
    validate(alloc, at, &signature, key)?;
    Ok(Vouched::of(doc, node, signature.node))
}
