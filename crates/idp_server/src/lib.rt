//! The identity provider: what it answers to each request, and what it records.
//!
//! ```
//! let role = IdpRole::new(alloc, config);                      // what it is set up with
//! let mut node = IdpNode::start(alloc, role, &mut disk)?;      // opens the ledger of the disk
//! let answer = node.answer(&request, now, &mut disk);          // one step: an answer, and at most one record
//! ```
//!
//! | Request | Answer |
//! |---|---|
//! | POST `/sso` | the verdict on the posted form; where it asks for a login: a form with an Assertion in the user's live session, a form with a Response without one where the user may not be asked, else the page where the user logs in |
//! | POST `/login` | a form with an Assertion and the cookie of a new session, where the login is pending and the password is the user's |
//! | POST `/logout` | the user's session ends, and a form with a LogoutRequest goes to the peer to which its last Assertion went; code 33 where the user has no live session |
//! | POST `/slo` | the verdict on the posted form; to a LogoutRequest a form with a LogoutResponse, where there are sessions to end, else code 33; to a LogoutResponse the page at the end of the logout that it replies to, else code 34 |
//! | GET `/metadata` | the metadata of the provider |
//!
//! Where the provider that a message of a logout goes to is no peer any more, or has no address for logout, the page at
//! the end of a logout stands in place of the form.
//!
//! Where the config has `fanout`, a logout asks each other provider to which an Assertion was issued in the sessions
//! that it ends, one after the other: the answer to POST `/logout` and to a LogoutRequest is then a form with a
//! LogoutRequest to the first of them, and to the LogoutResponse of each the form to the next one; behind the last
//! answer it is the LogoutResponse to the provider that asked, or the page at the end. It says Success exactly where
//! each confirmed and none was skipped. The sessions are ended before the first is asked.
//!
//! What one request does is one definition, `Steps` of `specs/Step.antt`, by the named cases of `provider_node`:
//! nothing is recorded; a record is added; it is added after one compaction that made room; there is no room (code 51);
//! the disk failed (50); it holds no ledger (53); there was no memory (52). What is answered, and with which record, is
//! `Answers`. An answer that stands for a record is sent only where the record is in every image that a crash may
//! leave. All pages are made before the record is written, so from then on only the disk can refuse.
//!
//! Of each step the [`laws`] hold: an Assertion is issued only for a password that was posted and accepted, or in a
//! live session of the request's cookie; a session is ended exactly where its user leaves it or a peer asks for it,
//! and never lives again; whatever page or form is answered, its record is in every image that a crash may leave; and
//! the elements that are signed in an answer are those that its record stands for.
//!
//! # What is proved
//!
//! The identity provider as a role of the one provider (`IdpRole`; `IdpNode` is `ProviderNode<IdpRole>`): each answer
//! is one step of one definition by named cases (`ProviderNode::answer`, `Steps`): the status where there is no such
//! service, the metadata, the verdict on a form that asks for no login, an Assertion in a live session, a Response
//! without one where the user may not be asked, the page where a user logs in, and behind it 1, 45, 46 or an Assertion
//! with the cookie of a new session; of a logout as at the service provider, with PartialLogout where an ended session
//! had issued to another peer, or, where the config has `fanout`, with each other provider asked in its turn and
//! Success exactly where each confirmed and none was skipped. Records, codes 50 to 53, crashes, `start`, `restart` and
//! `compact` as at the service provider. Laws: each Assertion is issued to a user whose password was posted for a login
//! that was pending and unused, or in the user's live session, to the peer that asked by a form, at its address and
//! with its relay state, and not where the user is to be authenticated anew (`each_issue_has_a_password_or_a_session`);
//! a login is pending, and a Response without an Assertion is recorded, only where a peer asked for it by a form
//! (`each_question_has_an_asker`); each form and page that is answered to a POST stands for a record that is in every
//! image that a crash may leave behind the step (`what_is_answered_is_recorded`); each signed element in an answer,
//! those of a logout too, is one that its record stands for, and the answer is of the record's kind, at its address and
//! with its relay state (`each_signed_element_is_of_a_record`); a page that stands for no record is the metadata
//! (`no_other_page_is_unrecorded`); a session is ended only where its user leaves it or a peer asks to end it that it
//! issued to, alone where no other provider is to be asked and else with all of them, and wherever one does, where
//! there is room, at once or behind one compaction, the disk does not fail and memory is found
//! (`a_session_is_ended_exactly`); where the disk tells, what an answer acknowledged is in the history of every ledger
//! that a crash may leave, and in none of these a session lives that was ended (`what_is_acknowledged_is_kept`); over
//! each list of starts the first half holds (`what_is_acknowledged_is_kept_over_starts`), and a session that was ended
//! at their start, or by what was acknowledged, is live in no ledger that may be opened behind them
//! (`sessions_stay_ended_over_starts`); a session that is ended is live at no later request
//! (`sessions_stay_ended_in_a_service`), and each that a record ends is ended before the answer is sent
//! (`sessions_end_before_the_answer`); a session whose answer went out is found as it was left, by its cookie its own
//! row (`what_was_begun_is_as_left`, `sessions_stay_in_a_service`, `sessions_stay_over_starts`), and at 52 what was
//! visible is, where the ledger was not broken (`what_is_visible_stays`). Of a logout that asks all others: the answer
//! that begins it asks the provider of the first turn, each later one that of the next turn or, where that is no peer
//! any more or has no address for logout, shows that the logout ended in part, and the one behind the last answer says
//! Success exactly where none was skipped, as many providers answered as there are turns, and each confirmed
//! (`a_round_ends_as_confirmed`); all its sessions are ended in every image that a crash may leave before the first
//! provider is asked (`sessions_end_before_the_answer`). That a provider answers is not claimed: a round whose provider
//! never does is never finished. Where nothing fails none of the codes 50 to 53 is answered
//! (`no_definition_gives_an_own_code`).
#![tactic(auto)]

mod issuing;
pub mod laws;
mod leave;
mod login;
mod reply;
mod replying;
mod role;
mod rounds;
mod route;
mod sign_on;
mod single_logout;

pub use role::IdpRole;

/// An identity provider over a disk.
pub type IdpNode = provider_node::ProviderNode<IdpRole>;
