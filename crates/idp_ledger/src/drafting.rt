//! How records are drafted.
ghost use Rattle.idp_ledger.specs.Ledger.{KeepsSpare};
ghost use Rattle.idp_ledger.specs.Drafts.{Drafts, IsDraftable};
ghost use Rattle.record_ledger.specs.Drafts.{SameLedger};

use crate::draft::Draft;
use crate::ledger::IdpLedger;
use idp_rows::Noted;
use ledger_records::IdpRecord;
use ledger_rules::DraftFault;

/// Drafts a record of the ledger with the session that it begins: makes its payload, and room for all that `commit` fills.
pub(crate) fn draft(ledger: &mut IdpLedger, entry: IdpRecord) -> Result<Draft, DraftFault>
    requires { IsDraftable ledger.old.held entry }
    ensures drafts { Drafts ledger.old ledger.new entry result }
    ensures same { SameLedger ledger.old ledger.new }
    ensures spare { KeepsSpare ledger.old ledger.new }
{
    let noted = Noted::new(entry)?;
    ledger.draft(noted)
}
