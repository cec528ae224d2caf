//! The records that the ledgers of the providers keep in their journals, as payloads.
//!
//! ```
//! let record = SpRecord::Left(sp_record::Left { first: 4, moment, until, token, request });
//! if record.payload_len() > room { /* the journal is full */ }
//! let payload = record.payload(alloc)?;
//! let same = read_sp_record(alloc, payload.as_slice(), 2)?;   // Some of that record
//! ```
//!
//! A contract sees a record as its fields, and a payload as bytes. What a payload says is one definition for each
//! provider: `IsSpPayload` of `specs/SpRecord.antt`, `IsIdpPayload` of `specs/IdpRecord.antt` and `IsHubPayload` of
//! `specs/HubRecord.antt` list the fields of each kind of record in order, and `specs/Fields.antt` has the bytes of each
//! kind of field. A payload is one record at most ([`laws`]).
//!
//! [`read_sp_record`], [`read_idp_record`] and [`read_hub_record`] answer none exactly where the payload is no record. A list grows as its items
//! are read and is not reserved by its count, so memory and time are linear in the payload. `NoMemory` may come from each
//! call that takes an allocator. `payload_len` takes no memory.
//!
//! # What is proved
//!
//! The payloads of the records of all three roles: `payload` writes exactly the bytes of the definition, `read_sp_record`,
//! `read_idp_record` and `read_hub_record` give the record exactly where a payload is one, and none exactly where it is
//! the bytes of none; a payload is one record at most, and that is a function of its bytes (`is`, `laws`). The functions
//! by which the ledgers' definitions find records are fixed by the bytes of each record: they give one exactly where the
//! bytes are its payload (`a_record_is_found_in_its_payload`, `a_found_record_has_that_payload`). A session of a version 1
//! journal is read with the first key.
#![tactic(auto)]

pub mod hub_record;
pub mod idp_record;
pub mod idp_round;
mod key_number;
pub mod laws;
mod reading;
pub mod sp_record;
mod turn_reading;
mod turn_writing;
mod writing;

pub use hub_record::{HubRecord, read_hub_record};
pub use idp_record::{IdpRecord, read_idp_record};
pub use key_number::KeyNumber;
pub use sp_record::{SpRecord, read_sp_record};
