//! A scripted user agent: exactly what it sends to the two nodes of a deployment, in place of a user's browser.
//!
//! ```
//! let mut agent = Agent::new(alloc);
//! if let Some(request) = agent.visit("/app")? {
//!     let answer = serve(request.site, &request.bytes);
//!     let seen = agent.receive(request.site, answer.as_slice())?; // seen.what: Form(Request)
//! }
//! if let Some(request) = agent.submit()? { /* the form of that page, posted to the identity provider */ }
//! ```
//!
//! An [`Agent`] keeps a cookie for each node, the form of the last page that had one, the last login page and the last
//! Location. What it sends is defined by these and by what it is asked for alone (`Requests` and `Agents` of specs/),
//! and its calls for that change nothing. [`Agent::receive`] reads an answer, as `http_wire` writes it, and the page
//! that its body is, as `post_binding` makes it: a page is one of these exactly where some texts give these bytes, and
//! bytes are one page at most ([`laws::each_answer_has_one_reading`]).
//!
//! A node reads what is sent as a whole request for its path, with its cookie and its form, where the path and the
//! cookie are visible characters of ASCII and the lengths are within the node's limits
//! ([`laws::each_request_is_read`]).
//!
//! Each call that takes memory may answer `NoMemory`, and the agent is then as it was.
//!
//! # What is proved
//!
//! A scripted user agent: what it sends is a definition of a cookie for each node, the last form, login page and
//! Location (`visit`, `submit`, `login`, `follow`, `leave`), with None exactly where there is nothing to send; what an
//! answer shows, and what is kept of it (`receive`, `Receives`). Bytes are one answer at most, and a body one page
//! (`laws::each_answer_has_one_reading`).
#![tactic(auto)]

mod agent;
mod answer;
mod cut;
mod escaped;
mod form;
pub mod laws;
mod page;
mod request;
mod seen;
mod site;

pub use agent::Agent;
pub use seen::{AutoForm, Location, LoginPage, Outgoing, Page, Seen, What};
pub use site::Site;
