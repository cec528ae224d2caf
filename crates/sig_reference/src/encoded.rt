// Base64 of 32 bytes in the text of an element (RFC 4648, 4; XML Signature, 4.2 and 4.3.3.6).

ghost use Rattle.std.specs.Prelude.{◌≡◌, ℕ, List, length, IfOk, IfErr};
ghost use Rattle.tree_read.specs.Faults.{IsShapeFault};
ghost use Rattle.tree_read.specs.Texts.{text_of};
ghost use Rattle.tree_read.specs.Views.{tree_of};
ghost use Rattle.sig_reference.specs.Form.{IsBase64};

use base64::DecodeAllocError;
use base64::engine::general_purpose::STANDARD;
use owned_values::NoMemory;
use std::alloc::Global;
use tree_read::{At, ShapeFault, text_of};
use xml_chars::without_white;

/// The 32 bytes that there are.
fn digest_of(bytes: &[u8]) -> Result<[u8; 32], ShapeFault>
    ensures ok { IfOk result (λ digest. (digest ≡ bytes.now) × (length bytes.now ≡ 32)) }
    ensures other { IfErr result (λ fault. IsShapeFault fault (¬ (length bytes.now ≡ 32))) }
{
    if bytes.len() != 32 {
        return Err(ShapeFault::WrongShape);
    }
    let mut digest = [0; 32];
    digest.copy_from_slice(bytes);
    Ok(digest)
}

/// The 32 bytes whose base64 the text is, white space left out.
///
/// # Errors
///
/// `WrongShape`, exactly where it is that of no 32 bytes.
fn decoded(alloc: Global, text: &[u8]) -> Result<[u8; 32], ShapeFault>
    ensures ok { IfOk result (λ digest. IsBase64 text.now digest) }
    ensures other { IfErr result (λ fault. IsShapeFault fault ((digest : List ℕ) → ¬ (IsBase64 text.now digest))) }
{
    let Ok(symbols) = without_white(alloc, text) else {
        return Err(ShapeFault::NoMemory);
    };
    match STANDARD.decode(alloc, symbols.as_slice()) {
        Ok(bytes) => digest_of(bytes.as_slice()),
        Err(DecodeAllocError::OutOfMemory) => Err(ShapeFault::NoMemory),
        Err(DecodeAllocError::DecodeError(_)) => Err(ShapeFault::WrongShape),
    }
}

/// The 32 bytes whose base64 the text of an element is.
///
/// # Errors
///
/// `WrongShape`, exactly where it is that of no 32 bytes.
pub(crate) fn read_digest(alloc: Global, at: At<'_, '_>) -> Result<[u8; 32], ShapeFault>
    ensures ok { IfOk result (λ digest. IsBase64 (text_of (tree_of at.entry) at.entry.node.0) digest) }
    ensures other { IfErr result (λ fault. IsShapeFault fault ((digest : List ℕ) → ¬ (IsBase64 (text_of (tree_of at.entry) at.entry.node.0) digest))) }
{
    let text = text_of(alloc, at)?;
    decoded(alloc, text.as_str().as_bytes())
}
