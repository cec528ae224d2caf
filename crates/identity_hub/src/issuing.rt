//! The pages that stand for records.
ghost use Rattle.std.specs.Prelude.{◌≡◌, ◌≤◌, IfOk, min};
ghost use Rattle.saml_time.specs.declared.TheConstants.{LAST};
ghost use Rattle.idp_answers.specs.Stating.{stated_view};
ghost use Rattle.identity_hub.specs.Logins.{stated_by};
ghost use Rattle.identity_hub.specs.Replies.{CanBeShown, HasLogin, HasRefusal, HasRequest, IsAskingPage, IsPage, IsPassedPage, IsSpokenPage};

use crate::reply::Reply;
use crate::role::HubRole;
use hub_ledger::{BelowRow, backed, first_id, second_id};
use idp_answers::{Statement, issued_answer, no_passive_answer, stated_login};
use ledger_records::HubRecord;
use ledger_records::hub_record::Backed;
use ledger_rules::ASSERTION_LIFE;
use owned_values::{Blob, NoMemory, chars_if_any};
use provider_config::SignMode;
use saml_time::LAST;
use sp_answers::ask_answer;

/// What the hub states by a login that it passes on.
fn statement_of(passed: &Backed) -> Statement<'_>
    requires { passed.now.moment ≤ LAST }
    ensures { stated_view result ≡ stated_by passed.now }
{
    Statement {
        assertion: &passed.assertion,
        index: &passed.index,
        user: &passed.name,
        attributes: &passed.attributes,
        peer: &passed.peer,
        consumer: &passed.consumer,
        request: &passed.below,
        moment: passed.moment,
        until: LAST.min(passed.moment + ASSERTION_LIFE),
        session_end: passed.until,
    }
}

impl HubRole {
    /// The answer without an Assertion of a record.
    fn spoken_page(&self, entry: &HubRecord, below: &BelowRow, now: u64) -> Result<Blob, NoMemory>
        requires moment { now ≤ LAST }
        requires shown { HasRefusal below.now entry.now }
        ensures { IfOk result (IsSpokenPage self.now below.now entry.now now) }
    {
        no_passive_answer(
            self.alloc,
            self.config.upstream.entity.as_str(),
            first_id(entry),
            below.request.as_str(),
            below.consumer.as_str(),
            chars_if_any(&below.relay),
            now,
        )
    }

    /// The answer with the request upwards of a record.
    fn asking_page(&self, entry: &HubRecord, now: u64) -> Result<Blob, NoMemory>
        requires moment { now ≤ LAST }
        requires shown { HasRequest entry.now }
        ensures { IfOk result (IsAskingPage self.now entry.now now) }
    {
        let id = first_id(entry);
        let relay = second_id(entry);
        ask_answer(self.alloc, &self.config.upstream, id, relay, now)
    }

    /// The answer with the Assertion of a record, for the peer at this place.
    fn passed_page(&self, entry: &HubRecord, peer: usize, now: u64) -> Result<Blob, NoMemory>
        requires moment { now ≤ LAST }
        requires shown { HasLogin self.now peer entry.now }
        ensures { IfOk result (IsPassedPage self.now peer entry.now now) }
    {
        let passed = backed(entry);
        let statement = statement_of(passed);
        let login = stated_login(self.alloc, self.config.upstream.entity.as_str(), &statement)?;
        issued_answer(
            self.alloc,
            SignMode::Assertion,
            self.config.peers.at(peer).key_out.as_slice(),
            &login,
            passed.message.as_str(),
            passed.consumer.as_str(),
            chars_if_any(&passed.below_relay),
            None,
            now,
        )
    }

    /// The answer that stands for the record of a reply.
    pub(crate) fn page_of(
        &self,
        reply: &Reply,
        entry: &HubRecord,
        now: u64,
    ) -> Result<Blob, NoMemory>
        requires moment { now ≤ LAST }
        requires shown { CanBeShown self.now reply.now entry.now }
        ensures { IfOk result (IsPage self.now reply.now entry.now now) }
    {
        match reply {
            Reply::Speak { below } => self.spoken_page(entry, below, now),
            Reply::Ask { .. } => self.asking_page(entry, now),
            Reply::Pass { peer, .. } => self.passed_page(entry, *peer, now),
        }
    }
}
