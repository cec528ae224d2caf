//! Instants as SAML writes them (SAML Core 2.0, 1.3.3): `YYYY-MM-DDThh:mm:ss`, a fraction where there
//! is one, and `Z`. A moment is a count of milliseconds since 1970-01-01T00:00:00Z.
//!
//! # What is proved
//!
//! Instants: `read_instant` gives the moment exactly where the text has the form, `put_instant` writes the form of the
//! moment, and what was written is read again (`reading_gives_what_was_written`). Each moment up to the last one has a
//! written form (`each_moment_is_told`).
#![tactic(auto)]

ghost use Rattle.saml_time.specs.Instant.{EachIsTold, OneInstant, ReadsBack};

mod read;
mod write;

pub use read::read_instant;
pub use write::put_instant;

/// The last moment that has a written form: 9999-12-31T23:59:59.999Z, in milliseconds since 1970.
pub const LAST: u64 = 253_402_300_799_999;

/// The longest difference between the clocks of two providers that may be allowed for, in milliseconds.
pub const GREATEST_SKEW: u64 = 300_000;

/// The law that a text is the written form of one instant at most: no bytes are printed by two.
pub fn text_has_one_instant()
    ensures { OneInstant }
{}

/// The law that reading gives what was written: whatever instant a text that tells a moment in full
/// spells, it means that moment.
pub fn reading_gives_what_was_written()
    ensures { ReadsBack }
{}

/// The law that each moment up to the last one has a written form, in graphic characters of ASCII.
pub fn each_moment_is_told()
    ensures { EachIsTold }
{}
