// Signatures that are made (XML Signature, 4; SAML Core 5.4).

ghost use Rattle.std.specs.Prelude.{◌≡◌, [], codes, IfOk};
ghost use Rattle.xml_spec.specs.Characters.{IsText, IsNoColonName};
ghost use Rattle.element_make.specs.Made.{alone, joined};
ghost use Rattle.sig_reference.specs.Algorithms.{exclusive, enveloped};
ghost use Rattle.sig_reference.specs.Signing.{part, method, encoded, reference, signed_info, signature, signed, CanBeSigned};

use crate::uris::{ENVELOPED, EXCLUSIVE, HMAC_SHA256, SHA256};
use base64::engine::general_purpose::STANDARD;
use element_make::{Made, Ns};
use hmac_sha256::hmac;
use owned_values::NoMemory;
use sha2::{Digest, Sha256};
use std::alloc::Global;

/// An element with an algorithm and no more.
fn method(alloc: Global, local: &'static str, algorithm: &str) -> Result<Made, NoMemory>
    requires name { IsNoColonName local.now }
    requires algorithm { IsText algorithm.now }
    ensures { IfOk result (λ made. alone made ≡ method local.now algorithm.now) }
{
    let mut made = Made::new(alloc, Ns::Ds, local);
    made.attr("Algorithm", algorithm)?;
    Ok(made)
}

/// An element that holds the base64 of these bytes.
fn encoded(alloc: Global, local: &'static str, bytes: &[u8]) -> Result<Made, NoMemory>
    requires { IsNoColonName local.now }
    ensures { IfOk result (λ made. alone made ≡ encoded local.now bytes.now) }
{
    let text = STANDARD.encode(alloc, bytes)?;
    let mut made = Made::new(alloc, Ns::Ds, local);
    made.text(text.as_str())?;
    Ok(made)
}

/// The Transforms of a Reference: the signature is left out, and then the exclusive canonical form is taken.
fn transforms(alloc: Global) -> Result<Made, NoMemory>
    ensures { IfOk result (λ made. alone made ≡ part (codes "Transforms") [] (joined (method (codes "Transform") enveloped) (method (codes "Transform") exclusive))) }
{
    let mut made = Made::new(alloc, Ns::Ds, "Transforms");
    made.child(method(alloc, "Transform", ENVELOPED)?)?;
    made.child(method(alloc, "Transform", EXCLUSIVE)?)?;
    Ok(made)
}

/// The Reference to the element with this ID, of which the canonical form has this digest.
fn reference(alloc: Global, id: &str, digest: &[u8]) -> Result<Made, NoMemory>
    requires { IsText id.now }
    ensures { IfOk result (λ made. alone made ≡ reference id.now digest.now) }
{
    let mut uri = String::from_str(alloc, "#")?;
    uri.push_str(id)?;
    let mut made = Made::new(alloc, Ns::Ds, "Reference");
    made.attr("URI", uri.as_str())?;
    made.child(transforms(alloc)?)?;
    made.child(method(alloc, "DigestMethod", SHA256)?)?;
    made.child(encoded(alloc, "DigestValue", digest)?)?;
    Ok(made)
}

/// The SignedInfo with this Reference.
fn signed_info(alloc: Global, id: &str, digest: &[u8]) -> Result<Made, NoMemory>
    requires { IsText id.now }
    ensures { IfOk result (λ made. made ≡ signed_info id.now digest.now) }
{
    let mut made = Made::new(alloc, Ns::Ds, "SignedInfo");
    made.child(method(alloc, "CanonicalizationMethod", EXCLUSIVE)?)?;
    made.child(method(alloc, "SignatureMethod", HMAC_SHA256)?)?;
    made.child(reference(alloc, id, digest)?)?;
    Ok(made)
}

/// The Signature of this SignedInfo under the key.
fn signature(alloc: Global, key: &[u8], info: Made) -> Result<Made, NoMemory>
    ensures { IfOk result (λ made. made ≡ signature key.now info) }
{
    let mut form = Vec::new(alloc);
    info.put(&mut form)?;
    let value = encoded(alloc, "SignatureValue", &hmac(key, form.as_slice()))?;
    let mut made = Made::new(alloc, Ns::Ds, "Signature");
    made.child(info)?;
    made.child(value)?;
    Ok(made)
}

/// The element with its signature under the key, which may have any length. The signature becomes its second child
/// (SAML Core 5.4). The SignatureValue is the HMAC of SignedInfo, and the DigestValue the hash of the element, both of
/// their exclusive canonical forms.
///
/// # Errors
///
/// `NoMemory` alone.
pub fn sign(alloc: Global, mut made: Made, key: &[u8]) -> Result<Made, NoMemory>
    requires { CanBeSigned made }
    ensures { IfOk result (λ result. result ≡ signed key.now made) }
{
    let mut form = Vec::new(alloc);
    made.put(&mut form)?;
    let id = made.attr_value("ID").unwrap_or("");
    let info = signed_info(alloc, id, &Sha256::digest(form.as_slice()))?;
    let signature = signature(alloc, key, info)?;
    made.insert_second(signature)?;
    Ok(made)
}
