// What a posted message is refused for.

ghost use Rattle.std.specs.Prelude.{◌≡◌};
ghost use Rattle.fault_verdicts.specs.Judging.{judged_of};

use crate::verdicts::{of_document, of_form, of_signature};
use owned_values::NoMemory;
use post_binding::FormFault;
use saml_tree::TreeFault;
use sig_reference::SigFault;
use verdict_codes::Verdict;

/// Why a posted message is not done.
#[derive(Clone, Copy, Debug, PartialEq, Eq)]
pub enum Judged {
    /// It is refused with this verdict.
    Code(Verdict),
    /// Memory ran out.
    NoMemory,
}

/// The verdict, or want of memory where there is none.
fn judgement(verdict: Option<Verdict>) -> Judged
    ensures { result ≡ judged_of verdict }
{
    match verdict {
        Some(verdict) => Judged::Code(verdict),
        None => Judged::NoMemory,
    }
}

impl From<NoMemory> for Judged {
    ghost use Rattle.std.specs.Prelude.{◌≡◌};
    ghost use Rattle.fault_verdicts.specs.declared.judged.Judged.TheVariants.{NoMemory};

    ghost from_gives = { λ _ e. e ≡ NoMemory };

    fn from(_: NoMemory) -> Judged {
        Judged::NoMemory
    }
}

impl From<Verdict> for Judged {
    ghost use Rattle.std.specs.Prelude.{◌≡◌};
    ghost use Rattle.fault_verdicts.specs.declared.judged.Judged.TheVariants.{Code};

    ghost from_gives = { λ verdict e. e ≡ Code verdict };

    fn from(verdict: Verdict) -> Judged {
        Judged::Code(verdict)
    }
}

impl From<FormFault> for Judged {
    ghost use Rattle.std.specs.Prelude.{◌≡◌};
    ghost use Rattle.fault_verdicts.specs.Judging.{judged_of};
    ghost use Rattle.fault_verdicts.specs.Verdicts.{of_form};

    ghost from_gives = { λ fault e. e ≡ judged_of (of_form fault) };

    fn from(fault: FormFault) -> Judged {
        judgement(of_form(fault))
    }
}

impl From<TreeFault> for Judged {
    ghost use Rattle.std.specs.Prelude.{◌≡◌};
    ghost use Rattle.fault_verdicts.specs.Judging.{judged_of};
    ghost use Rattle.fault_verdicts.specs.Verdicts.{of_document};

    ghost from_gives = { λ fault e. e ≡ judged_of (of_document fault) };

    fn from(fault: TreeFault) -> Judged {
        judgement(of_document(fault))
    }
}

impl From<SigFault> for Judged {
    ghost use Rattle.std.specs.Prelude.{◌≡◌};
    ghost use Rattle.fault_verdicts.specs.Judging.{judged_of};
    ghost use Rattle.fault_verdicts.specs.Verdicts.{of_signature};

    ghost from_gives = { λ fault e. e ≡ judged_of (of_signature fault) };

    fn from(fault: SigFault) -> Judged {
        judgement(of_signature(fault))
    }
}
