//! How a request is replied to with a record.
ghost use Rattle.std.specs.Prelude.{◌≤◌, IfSome, false};
ghost use Rattle.record_ledger.specs.Drafts.{DraftsSome, SameLedger};
ghost use Rattle.saml_time.specs.declared.TheConstants.{LAST};
ghost use Rattle.hub_ledger.specs.Record.{hub_rules};
ghost use Rattle.hub_ledger.specs.Standing.{hub_row_rules};
ghost use Rattle.identity_hub.specs.Replies.{CanDraft, record_for};

use hub_ledger::{BelowRow, Draft, DraftFault, HubLedger, draft_back, draft_route, draft_speak};
use sp_rules::Accepted;

/// A reply that stands for a record.
#[derive(Drop)]
pub enum Reply {
    /// A Response without an Assertion to this request of a provider below, as the user may not be asked (SAML Core,
    /// 3.4.1, IsPassive).
    Speak {
        /// The request.
        below: BelowRow,
    },
    /// A request to the provider above for this one of a provider below (SAML Core, 3.4.1.5).
    Ask {
        /// The request below.
        below: BelowRow,
    },
    /// The login that a posted form brings, passed on to the provider below for which it was asked.
    Pass {
        /// What the form was accepted for.
        accepted: Accepted,
        /// The place of that provider among the peers, counted from 0.
        peer: usize,
    },
}

impl Reply {
    /// Drafts the record of the reply.
    pub(crate) fn draft(
        &self,
        ledger: &mut HubLedger,
        now: u64,
    ) -> Result<Option<Draft>, DraftFault>
        requires moment { now ≤ LAST }
        requires can { CanDraft ledger.old.held now self.now }
        ensures drafts { IfSome (record_for ledger.old.key ledger.old.held now self.now)
            (λ r. DraftsSome hub_rules hub_row_rules ledger.old ledger.new false r result) }
        ensures same { SameLedger ledger.old ledger.new }
    {
        match self {
            Reply::Speak { below } => {
                let draft = draft_speak(ledger, now, below)?;
                Ok(Some(draft))
            }
            Reply::Ask { below } => {
                let draft = draft_route(ledger, now, below)?;
                Ok(Some(draft))
            }
            Reply::Pass { accepted, .. } => {
                let draft = draft_back(ledger, now, &accepted.session)?;
                Ok(Some(draft))
            }
        }
    }
}
