//! The role of a provider: what it is set up with, and how it replies.
ghost use Rattle.std.specs.Prelude.{◌≡◌, ◌≤◌, ℕ, List, IfOk, None};
ghost use Rattle.http_wire.specs.Requests.{Request};
ghost use Rattle.http_wire.specs.Views.{request_view};
ghost use Rattle.record_ledger.specs.Ledger.{CanCommit};
ghost use Rattle.provider_node.specs.Added.{DrawsAbove};
ghost use Rattle.provider_node.specs.Step.{AnswersBy, seen};
ghost use Rattle.provider_node.specs.Replies.{AreReplies, IsDrafted, IsWanted, Replies, ReplyRules};

use crate::drafted::DraftOutcome;
use crate::replied::Replied;
use fault_verdicts::Judged;
use http_wire::HttpRequest;
use owned_values::{Blob, NoMemory};
use record_ledger::{DraftedRecord, RecordLedger, Standing};
use saml_time::LAST;
use verdict_codes::Verdict;

/// The role of a provider, with what it is set up with. It says where a request goes and what is replied to it, how a
/// reply is drafted, and how it is shown.
pub trait Role: Drop {
    /// The rows that the records of its ledger stand for.
    type Rows: Standing;

    /// A reply that stands for a record.
    type Reply: Drop;

    /// The key of the IDs that are drawn.
    ghost key: { Self → List ℕ };

    /// What is answered to a request, and which record is added with it.
    ghost answers: { AnswersBy Self Self.Rows.Record };

    /// What is said of the replies.
    ghost replies: { ReplyRules Self Self.Rows.Record Self.Reply };

    /// The key of the IDs that are drawn.
    fn id_key(&self) -> [u8; 32]
        ensures { result ≡ key self.now };

    /// What is replied to a request over a ledger at a moment: an answer that stands for no record, or a reply that
    /// does.
    ///
    /// # Errors
    ///
    /// The verdict that the request is refused with, whose page is answered. `NoMemory` may come in place of any other
    /// answer.
    fn reply(
        &self,
        ledger: &RecordLedger<Self::Rows>,
        request: &HttpRequest<'_>,
        now: u64,
    ) -> Result<Replied<Self::Reply>, Judged>
        requires { now ≤ LAST }
        ensures { Replies
            (λ answer. answers self.now ledger.now.held (request_view request.now) now answer None)
            (replies.wants self.now ledger.now.held (request_view request.now) now) result };

    /// Drafts the record of a reply.
    fn draft(
        &self,
        reply: &Self::Reply,
        ledger: &mut RecordLedger<Self::Rows>,
        now: u64,
    ) -> DraftOutcome<DraftedRecord<Self::Rows>>
        requires moment { now ≤ LAST }
        requires key { ledger.old.key ≡ key self.now }
        requires wanted { (request : Request)
            × replies.wants self.now ledger.old.held request now reply.now }
        ensures drafts { IsDrafted Self.Rows.rules ledger.old.held (CanCommit Self.Rows.rules
            Self.Rows.row_rules ledger.new) (replies.record_for self.now ledger.old.held now reply.now) result }
        ensures same { seen ledger.new ≡ seen ledger.old };

    /// The bytes of the page of a reply whose record was drafted.
    fn page(
        &self,
        reply: &Self::Reply,
        draft: &DraftedRecord<Self::Rows>,
        now: u64,
    ) -> Result<Blob, NoMemory>
        requires moment { now ≤ LAST }
        requires wanted { IsWanted replies self.now now reply.now draft.now }
        ensures { IfOk result (replies.shows self.now reply.now draft.now now) };

    /// The verdict that says that there is nothing to record.
    fn refusal(&self, reply: &Self::Reply) -> Verdict
        ensures { result ≡ replies.refusal reply.now };

    /// That what is said of the replies agrees with the answers. It does nothing.
    fn laws_hold(&self, now: u64)
        requires { now ≤ LAST }
        ensures { AreReplies replies Self.Rows.rules answers self.now now };

    /// That the numbers of each record that is added with an answer were not drawn before. It does nothing.
    fn numbers_are_new()
        ensures { DrawsAbove Self.Rows.rules answers };
}
