//! The pages that stand for records.
ghost use Rattle.std.specs.Prelude.{◌≡◌, ◌≤◌, IfOk, IsTrue};
ghost use Rattle.std.specs.Option.{option_map, ForSome};
ghost use Rattle.idp_answers.specs.Stating.{stated_view};
ghost use Rattle.http_wire.specs.Answers.{is_one_line};
ghost use Rattle.http_wire.specs.declared.answer.Answer.TheVariants.{Full};
ghost use Rattle.saml_time.specs.declared.TheConstants.{LAST};
ghost use Rattle.idp_server.specs.Logins.{stated_by};
ghost use Rattle.idp_server.specs.Replies.{CanBeShown, HasAssertion, HasRefusal, HasRequest, HasResponse, IsAssertionPage, IsEndingPage, IsLeavingPage, IsPage, IsPassivePage};

use crate::reply::Reply;
use crate::role::IdpRole;
use idp_answers::{Statement, issued_answer, just, login_answer, no_passive_answer, stated_login};
use idp_ledger::{Ask, first_id, is_partial, issued, peer, second_id};
use ledger_records::IdpRecord;
use ledger_records::idp_record::Issued;
use logout_answers::{end_answer, ending_answer, leaving_answer};
use owned_values::{Blob, NoMemory, Text, chars_if_any};
use protocol_messages::LogoutRequest;

/// What is stated by an issued record.
fn statement_of(issued: &Issued) -> Statement<'_>
    ensures { stated_view result ≡ stated_by issued.now }
{
    Statement {
        assertion: &issued.assertion,
        index: &issued.index,
        user: &issued.user,
        attributes: &issued.attributes,
        peer: &issued.peer,
        consumer: &issued.consumer,
        request: &issued.request,
        moment: issued.moment,
        until: issued.until,
        session_end: issued.session_end,
    }
}

impl IdpRole {
    /// The answer with the Assertion of a record, for the peer at this place, which sets this cookie where there is
    /// one.
    fn assertion_page(
        &self,
        entry: &IdpRecord,
        peer: usize,
        cookie: Option<&str>,
        now: u64,
    ) -> Result<Blob, NoMemory>
        requires moment { now ≤ LAST }
        requires shown { HasAssertion self.now peer entry.now }
        requires cookie { ForSome cookie (λ token. IsTrue (is_one_line token.now)) }
        ensures { IfOk result (λ bytes. IsAssertionPage self.now peer (option_map (λ text. text.now) cookie.entry)
            entry.now now (Full bytes)) }
    {
        let issued = issued(entry);
        let statement = statement_of(issued);
        let login = stated_login(self.alloc, self.config.entity.as_str(), &statement)?;
        issued_answer(
            self.alloc,
            self.config.mode,
            self.config.peers.at(peer).key_out.as_slice(),
            &login,
            issued.message.as_str(),
            issued.consumer.as_str(),
            chars_if_any(&issued.relay),
            cookie,
            now,
        )
    }

    /// The answer without an Assertion that a record stands for.
    fn passive_page(&self, entry: &IdpRecord, ask: &Ask, now: u64) -> Result<Blob, NoMemory>
        requires moment { now ≤ LAST }
        requires shown { HasRefusal ask.now entry.now }
        ensures { IfOk result (λ bytes. IsPassivePage self.now ask.now entry.now now (Full bytes)) }
    {
        no_passive_answer(
            self.alloc,
            self.config.entity.as_str(),
            first_id(entry),
            ask.request.as_str(),
            ask.consumer.as_str(),
            chars_if_any(&ask.relay),
            now,
        )
    }

    /// The answer to this user, who leaves the session with this index: a request to the peer of the record, where it
    /// is known.
    fn leaving_page(
        &self,
        entry: &IdpRecord,
        user: &Text,
        index: &Text,
        now: u64,
    ) -> Result<Blob, NoMemory>
        requires moment { now ≤ LAST }
        requires shown { HasRequest self.now user.now index.now entry.now }
        ensures { IfOk result (λ bytes. IsLeavingPage self.now user.now index.now entry.now now (Full bytes)) }
    {
        let Some(place) = self.config.peers.place_of(peer(entry)) else {
            return end_answer(self.alloc, true);
        };
        let indexes = just(self.alloc, index)?;
        leaving_answer(
            self.alloc,
            self.config.peers.at(place),
            first_id(entry),
            self.config.entity.as_str(),
            now,
            user.as_str(),
            &indexes,
        )
    }

    /// The answer to the peer at this place, which asked to end sessions.
    fn ending_page(
        &self,
        entry: &IdpRecord,
        asked: &LogoutRequest,
        peer: usize,
        relay: &Option<Text>,
        now: u64,
    ) -> Result<Blob, NoMemory>
        requires moment { now ≤ LAST }
        requires shown { HasResponse self.now asked.now peer entry.now }
        ensures { IfOk result (λ bytes. IsEndingPage self.now peer relay.now entry.now now (Full bytes)) }
    {
        ending_answer(
            self.alloc,
            self.config.peers.at(peer),
            first_id(entry),
            self.config.entity.as_str(),
            now,
            asked.id.as_str(),
            is_partial(entry),
            chars_if_any(relay),
        )
    }

    /// The answer that stands for the record of a reply.
    pub(crate) fn page_of(
        &self,
        reply: &Reply,
        entry: &IdpRecord,
        now: u64,
    ) -> Result<Blob, NoMemory>
        requires moment { now ≤ LAST }
        requires shown { CanBeShown self.now reply.now entry.now }
        ensures { IfOk result (λ bytes. IsPage self.now reply.now entry.now now (Full bytes)) }
    {
        match reply {
            Reply::InSession { peer, .. } => self.assertion_page(entry, *peer, None, now),
            Reply::Passive { ask } => self.passive_page(entry, ask, now),
            Reply::Question { .. } => login_answer(self.alloc, first_id(entry)),
            Reply::Login { peer, .. } => {
                let cookie = second_id(entry);
                self.assertion_page(entry, *peer, Some(cookie), now)
            }
            Reply::Leave { user, index, .. } => self.leaving_page(entry, user, index, now),
            Reply::End {
                asked,
                peer,
                relay,
                ..
            } => self.ending_page(entry, asked, *peer, relay, now),
            Reply::Confirm { partial, .. } => end_answer(self.alloc, *partial),
            Reply::AskAll { plan, .. } => self.asking_page(plan, entry, now),
            Reply::Told { follows, .. } => self.told_page(follows, entry, now),
        }
    }
}
