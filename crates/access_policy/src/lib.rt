//! Access policies: ordered rules that say which user may see which page.
//!
//! ```text
//! staff allow /app/* has role reader
//! closed deny /app
//! ```
//!
//! ```
//! let policy = read_policy(alloc, text)?;
//! let decision = policy.decide("/app/x", "alice", &attributes);
//! if !decision.allowed {
//!     let page = denied_page(alloc, decision.rule)?;
//! }
//! ```
//!
//! A policy is a text of lines, each a rule. The first rule that is for the path and whose conditions all hold decides;
//! without one, `default` denies. A contract sees a policy as the list of its rules. [`read_policy`] gives what the
//! definition `policy` gives: the rules, or the number of the first line that is bad ([`PolicyFault`]). [`Policy::decide`]
//! takes no memory.
//!
//! # What is proved
//!
//! `read_policy`: unless memory ran out, the rules of a file exactly where it keeps the grammar, else the number of the
//! first line that does not. `Policy::decide`: the first rule whose path matches and whose conditions all hold decides;
//! without one, `default` denies. `denied_page` is the text of its definition.
#![tactic(auto)]

mod conditions;
mod denied;
mod draft;
mod fault;
mod line;
mod policy;
mod read;
mod rule;

pub use denied::denied_page;
pub use fault::PolicyFault;
pub use line::{are_path_bytes, is_app};
pub use policy::{Decision, Policy};
pub use read::{MAX_POLICY_LENGTH, read_policy};
pub use rule::{MAX_CONDITIONS, MAX_NAME_LENGTH, MAX_RULES};
