//! Which verdict a posted message gets that a reader refuses.
//!
//! A contract sees the verdict of each fault as `Verdicts.antt` has it; want of memory has none. [`Judged`] is such a refusal:
//! a verdict or want of memory, which may come in place of any other answer (`IsJudged` of `Judging.antt`). No call takes
//! memory.
//!
//! # What is proved
//!
//! The verdict for each fault of the reader of forms, of the reader of documents and of `verify` (`of_form`,
//! `of_document`, `of_signature`); the refusal of a posted message, a verdict or want of memory (`Judged`).
#![tactic(auto)]

mod judged;
mod verdicts;

pub use judged::Judged;
pub use verdicts::{of_document, of_form, of_signature};
