// The verdict for each fault of a reader.

ghost use Rattle.std.specs.Prelude.{◌≡◌};
ghost use Rattle.fault_verdicts.specs.Verdicts.{of_document, of_form, of_signature};

use post_binding::FormFault;
use saml_tree::TreeFault;
use sig_reference::SigFault;
use verdict_codes::Verdict;

/// The verdict for a document that is not read; none for want of memory.
pub fn of_document(fault: TreeFault) -> Option<Verdict>
    ensures { result ≡ of_document fault }
{
    match fault {
        TreeFault::BadXml => Some(Verdict::BadXml),
        TreeFault::XmlLimit => Some(Verdict::XmlLimit),
        TreeFault::BadNames => Some(Verdict::BadNames),
        TreeFault::DuplicateId => Some(Verdict::DuplicateId),
        TreeFault::NoMemory => None,
    }
}

/// The verdict for an element that is not vouched for; none for want of memory.
pub fn of_signature(fault: SigFault) -> Option<Verdict>
    ensures { result ≡ of_signature fault }
{
    match fault {
        SigFault::BadSignatureForm => Some(Verdict::BadSignatureForm),
        SigFault::BadReference => Some(Verdict::BadReference),
        SigFault::TagDiffers => Some(Verdict::TagDiffers),
        SigFault::DigestDiffers => Some(Verdict::DigestDiffers),
        SigFault::NoMemory => None,
    }
}

/// The verdict for a form that is not read; none for want of memory.
pub fn of_form(fault: FormFault) -> Option<Verdict>
    ensures { result ≡ of_form fault }
{
    match fault {
        FormFault::BadForm => Some(Verdict::BadForm),
        FormFault::BadBase64 => Some(Verdict::BadBase64),
        FormFault::TooLarge(_) => Some(Verdict::TooLarge),
        FormFault::NoMemory => None,
    }
}
