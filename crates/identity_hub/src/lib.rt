//! The hub: an identity provider to those below it, and a service provider to one identity provider above it (SAML
//! Core, 3.4.1.5). It keeps no sessions of its own and has no logout.
//!
//! ```
//! let role = HubRole::new(alloc, config);                      // what it is set up with
//! let mut node = HubNode::start(alloc, role, &mut disk)?;      // opens the ledger of the disk
//! let answer = node.answer(&request, now, &mut disk);          // one step: an answer, and at most one record
//! ```
//!
//! | Request | Answer |
//! |---|---|
//! | POST `/sso` | the verdict on the posted form; where it asks for a login: a form with a Response without an Assertion where the user may not be asked, else a form with a signed AuthnRequest to the provider above |
//! | POST `/acs` | the verdict on the posted form; where it brings a login: a form with an Assertion of the hub's own to the provider below for which it was asked, code 41 where this is not known any more |
//! | GET `/metadata` | the metadata of the hub as an identity provider |
//! | GET `/metadata/sp` | the metadata of the hub as a service provider |
//!
//! What one request does is one definition, `Steps` of `provider_node`, by named cases: nothing is recorded; a record
//! is added; it is added after one compaction that made room; there is no room (code 51); the disk failed (50); it
//! holds no ledger (53); there was no memory (52). What is answered, and with which record, is `Answers` of
//! `specs/Step.antt`. An answer that stands for a record is sent only where the record is in every image that a crash
//! may leave. The laws of a hub are in [`laws`].
//!
//! # What is proved
//!
//! The hub as a role of the one provider (`HubRole`; `HubNode` is `ProviderNode<HubRole>`): each answer is one step of
//! one definition by named cases (`ProviderNode::answer`, `Steps`, `Answers`): the status where there is no such
//! service, the metadata of the hub in either role, the verdict on a form of a provider below, a Response without an
//! Assertion where the user may not be asked, else a request upwards; the verdict on a form of the provider above, 41
//! where the provider below is not known any more, else a login that is passed on to it. Records, codes 50 to 53,
//! crashes, `start`, `restart` and `compact` as at the service provider. Laws: a login is passed on only where a posted
//! form brings it, over the hub's rows, for the request of a provider below that is known, with the name and the
//! attributes of the login from above and to that provider alone, and wherever a form brings one, where there is room,
//! at once or behind one compaction, the disk does not fail and memory is found (`a_login_is_passed_on_exactly`); a
//! request is sent upwards only where a form of such a provider asks for a login of a user who may be asked, and has
//! that provider, its address, and the ID and the relay state of its request (`each_request_upwards_is_of_one_below`);
//! no login is asked for above of a user who may not be asked (`nothing_is_asked_of_a_user_who_may_not_be_asked`);
//! whatever form is answered to what is posted stands for a record that is in every image that a crash may leave behind
//! the step (`what_is_answered_is_recorded`); for those below it signs nothing but the Assertions of its records, and
//! what it sends goes to the record's address with its relay state (`each_signed_element_is_of_a_record`); a page that
//! stands for no record is the metadata (`no_other_page_is_unrecorded`); what an answer acknowledged is in the history
//! of every ledger that a crash may leave, and no request upwards backs two logins of such a history, those that were
//! let go included, nor two of those that were acknowledged or stood at the start, over each list of events and of
//! starts (`what_is_acknowledged_is_kept_once`, `what_is_acknowledged_is_kept_once_over_starts`). Where nothing fails
//! none of the codes 50 to 53 is answered (`no_definition_gives_an_own_code`).
#![tactic(auto)]

mod config;
mod consumer;
mod issuing;
pub mod laws;
mod reply;
mod replying;
mod role;
mod route;
mod sign_on;

pub use config::HubConfig;
pub use role::HubRole;

/// A hub over a disk.
pub type HubNode = provider_node::ProviderNode<HubRole>;
