//! The verdicts: what the program answers where it does not do what a message asks for, with their numbers and names.
//!
//! ```
//! let verdict = Verdict::RequestSpent;
//! println!(rt; "refused {} {}", verdict.number(), verdict.name())?; // refused 21 RequestSpent
//! ```
//!
//! A contract sees a verdict as its variant, and `number_of` and `name_of` are the whole table. Neither call can fail.
//!
//! # What is proved
//!
//! The verdicts' numbers and names, the whole table (`Verdict::number`, `Verdict::name`); no two are alike (`laws`). A
//! condition that does not hold is answered by its verdict (`ask`).
#![tactic(auto)]

mod codes;
pub mod laws;

pub use codes::{VERDICTS, Verdict, ask};
