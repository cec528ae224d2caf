//! The service provider: what it answers to each request, and what it records.
//!
//! ```
//! let role = SpRole::new(alloc, config, policy, expiry, guard); // what it is set up with
//! let mut node = SpNode::start(alloc, role, &mut disk)?;       // opens the ledger of the disk
//! let answer = node.answer(&request, now, &mut disk);          // one step: an answer, and at most one record
//! ```
//!
//! | Request | Answer |
//! |---|---|
//! | GET `/app` and below, with the cookie of a live session | the page of the user, or the rule of the policy that denies it |
//! | GET `/app` and below, without one | a form that asks the identity provider for a login; the request is recorded |
//! | POST `/acs` | the verdict on the posted form; where it opens a session this is recorded, and the user is sent to where the login began |
//! | POST `/logout`, with the cookie of a live session | a form that asks the identity provider to end its session, too; that the user left is recorded |
//! | POST `/slo`, a LogoutRequest of the identity provider | its user's sessions that it lists end, or all where it lists none, which is recorded, and a form tells it so; code 33 where there is none |
//! | POST `/slo`, its LogoutResponse to a logout that began here | how the logout ended; that it was confirmed is recorded |
//! | GET `/metadata` | the metadata of the provider |
//! | GET `/auth` and a path behind it, with a guard | a proxy is told who a live session is of, where no policy denies it that path; nothing is recorded |
//!
//! Where the identity provider has no address for logout, the page at the end of a logout stands in place of a form.
//!
//! What one request does is one definition, `Steps` of `specs/Step.antt`, by named cases: nothing is recorded; a
//! record is added; it is added after one compaction that made room; there is no room (code 51); the disk failed
//! (50); it holds no ledger (53); there was no memory (52). An answer that stands for a record is sent only where the
//! record is in every image that a crash may leave. All pages are made before the record is written, so from then on
//! only the disk can refuse.
//!
//! Over whole services the [`laws`] hold: a session is opened exactly where a posted form opens one, and closed
//! exactly where its user leaves it or the identity provider ends it; one that is closed stays so; what an answer
//! acknowledged is in the history of every ledger that a crash may leave, and no two sessions are of one request.
//!
//! # What is proved
//!
//! The service provider as a role of the one provider (`SpRole`; `SpNode` is `ProviderNode<SpRole>`): each answer is
//! one step of one definition by named cases (`ProviderNode::answer`, `Steps`): the status where there is no such
//! service, the metadata, the page of a live session or the rule of the policy that denies it, a form that asks for a
//! login with its record, a 303 with the record of the session where the posted form opens one (`Opens`), the verdict
//! where it does not; a LogoutRequest with the record of who leaves, a LogoutResponse with the record of what ended,
//! the page at the end of a logout, or 33, 34 and the verdicts on messages of a logout; what a guard says of the
//! cookie's session; 70 where the registry has ended. A record is added at once or after one compaction; 51 comes only
//! where there is no room even then, 50 only where the disk's count rose in this request, 53 only where a ledger that
//! had failed is opened again and the disk holds none; 52 adds no record. At every moment a crash leaves the ledger
//! that the request found, as compacted, or either with the record (`moments`). Laws: a session is recorded only where
//! a posted form opens it, and wherever one does, where no registry has ended, there is room, at once or behind one
//! compaction, the disk does not fail and memory is found (`a_session_opens_exactly`); over each list of events,
//! moments, disk faults and openings on a disk that tells, what an answer acknowledged is in the history of every
//! ledger that a crash may leave, and no two sessions are of one request, those that were let go included
//! (`what_is_acknowledged_is_kept_once`), and so over each list of starts, wherever a crash stopped one
//! (`what_is_acknowledged_is_kept_once_over_starts`); from the moment of a compaction on each form has the verdict that
//! it had without (`compactions_change_no_verdict`); a session is closed only where its user leaves it or an accepted
//! LogoutRequest asks to end it, and wherever one does, where no registry has ended, there is room, at once or behind
//! one compaction, the disk does not fail and memory is found (`a_session_is_closed_exactly`), nothing else closes one,
//! and it is live at no later request and in no ledger that a crash may leave since (`a_closed_session_stays_closed`,
//! `sessions_stay_closed_in_a_service`, `sessions_stay_closed_over_starts`); each form and page that is answered to a
//! POST, and each form that asks for a login, stands for a record that is in every image that a crash may leave behind
//! the step, as far as the disk tells (`what_is_answered_is_recorded`); a guard answers 200 exactly where the cookie's
//! session lives and there is no policy, or one that allows the path, which is plain then, names that session's user
//! and values, depends on nothing but that row, the policy and the path, and leaves the ledger as it was
//! (`a_guard_tells_exactly`). A session whose answer went out is found as it was left in each image that a crash may
//! leave, in a service and over starts: until it is closed or ends, the row of its own record is what its token finds;
//! and a request stays spent while it could be answered (`what_was_opened_is_as_left`, `sessions_stay_in_a_service`,
//! `sessions_stay_over_starts`); at 52 all that may be asked of the rows is answered as before, where the ledger was
//! not broken (`what_is_visible_stays`). Where nothing fails none of the codes 50 to 53 is answered
//! (`no_definition_gives_an_own_code`).
#![tactic(auto)]

mod app;
mod consumer;
mod guard;
pub mod laws;
mod leave;
mod peer;
mod reply;
mod replying;
mod role;
mod route;
mod single_logout;

pub use role::SpRole;

/// A service provider over a disk.
pub type SpNode = provider_node::ProviderNode<SpRole>;
