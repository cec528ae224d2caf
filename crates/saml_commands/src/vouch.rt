// What `vouch` answers for the bytes of a file and a key.

ghost use Rattle.std.specs.Prelude.{◌≤◌, length, IfOk, Some};
ghost use Rattle.xml_spec.specs.declared.TheConstants.{MAX_DOCUMENT_LENGTH};
ghost use Rattle.saml_commands.specs.Running.{IsVerdictOf};
ghost use Rattle.saml_commands.specs.Documents.{OfElement};
ghost use Rattle.saml_commands.specs.Vouch.{OfVouching, OfVouch};

use crate::answer::Answer;
use crate::canon::element_of;
use fault_verdicts::{of_document, of_signature};
use saml_outside::{Blob, NoMemory, Verdict};
use saml_tree::{Doc, read_document};
use sig_reference::verify;
use sp_setup::LEAST_KEY;
use std::alloc::Global;

/// The refusal with this verdict; where there is none, memory ran out.
fn refused(verdict: Option<Verdict>) -> Result<Answer, NoMemory>
    ensures { IfOk result (λ answer. IsVerdictOf verdict answer) }
{
    match verdict {
        Some(verdict) => Ok(Answer::Refused(verdict)),
        None => Err(NoMemory),
    }
}

/// Whether the element of a document with this ID is vouched for with the key.
fn vouch_document(alloc: Global, doc: &Doc<'_>, id: &str, key: &[u8]) -> Result<Answer, NoMemory>
    ensures { IfOk result (λ answer. OfElement (OfVouching key.now) (Some id.now) doc.now.tree answer) }
{
    let Some(node) = element_of(doc, Some(id)) else {
        return Ok(Answer::Refused(Verdict::BadReference));
    };
    match verify(alloc, doc, node, key) {
        Ok(_) => Ok(Answer::Printed(Blob::of(alloc, b"yes\n")?)),
        Err(fault) => refused(of_signature(fault)),
    }
}

/// What `vouch` answers for the bytes of a file and those of `key_file`, where it asks for the element with this ID.
pub(crate) fn vouch(
    alloc: Global,
    bytes: &[u8],
    id: &str,
    key_file: &str,
    key: &[u8],
) -> Result<Answer, NoMemory>
    requires { length bytes.now ≤ MAX_DOCUMENT_LENGTH }
    ensures { IfOk result (λ answer. OfVouch id.now key_file.now bytes.now key.now answer) }
{
    if key.len() < LEAST_KEY {
        return Answer::bad_file(alloc, key_file, 0);
    }
    match read_document(alloc, bytes) {
        Ok(doc) => vouch_document(alloc, &doc, id, key),
        Err(fault) => refused(of_document(fault)),
    }
}
