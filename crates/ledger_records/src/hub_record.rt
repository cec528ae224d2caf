//! What the ledger of a hub records: a provider that is an identity provider to those below it, and a service provider to
//! one above it (SAML Core, 3.4.1.5).
ghost use Rattle.std.specs.Prelude.{◌≡◌, ◌∷◌, ◌<◌, ◌^◌, map, length, IfOk, IfSome, IfNone};
ghost use Rattle.ledger_records.specs.declared.hub_record.HubRecord.{HubRecord};
ghost use Rattle.ledger_records.specs.declared.hub_record.HubRecord.TheVariants as kinds;
ghost use Rattle.ledger_records.specs.Reading.{Reads, record_in};
ghost use Rattle.ledger_records.specs.HubFound.{hub_forms, hub_record};
ghost use Rattle.ledger_records.specs.HubRecord.{hub_parts, hub_bytes, IsHubPayload};
ghost use Rattle.ledger_records.specs.Writing.{field_view, capped};

use crate::KeyNumber;
use crate::reading::{Fields, Unread};
use crate::writing::{Field, payload_len_of, payload_of};
use owned_values::{Attributes, Blob, NoMemory, Text};
use std::alloc::Global;

const ROUTED: u8 = 21;

const BACKED: u8 = 22;

const SPOKE: u8 = 23;

/// A request for a login came from a provider below, and one was sent to the provider above (SAML Core, 3.4.1, 3.4.1.5).
#[derive(Debug, Drop)]
pub struct Routed {
    /// The number that the ID of the request upwards has; the relay state has the next one.
    pub first: u64,
    /// When it was recorded, in milliseconds since 1970-01-01T00:00:00Z, as each moment here.
    pub moment: u64,
    /// The moment until which an answer is accepted.
    pub until: u64,
    /// The ID of the request upwards.
    pub request: Text,
    /// Its relay state (SAML Bindings, 3.5.3).
    pub relay: Text,
    /// The entity below that asked.
    pub peer: Text,
    /// The address to which the answer to it goes.
    pub consumer: Text,
    /// The ID of its request.
    pub below: Text,
    /// The relay state of its request, where it has one.
    pub below_relay: Option<Text>,
}

/// A login of the provider above was accepted, and one of the hub's own was issued for it (SAML Profiles, 4.1.3.5).
#[derive(Debug, Drop)]
pub struct Backed {
    /// The first number drawn: that of the assertion, then those of the message and the index.
    pub first: u64,
    /// When it was recorded.
    pub moment: u64,
    /// The ID of the request upwards that was answered.
    pub request: Text,
    /// The entity above.
    pub issuer: Text,
    /// The ID of its assertion.
    pub above: Text,
    /// The moment until which its assertion would be accepted again, were it not recorded.
    pub assertion_until: u64,
    /// Which of its keys verified it.
    pub key: KeyNumber,
    /// The ID of the assertion that was issued.
    pub assertion: Text,
    /// The ID of the answer in which it went.
    pub message: Text,
    /// The index of the session (SAML Core, 2.7.2).
    pub index: Text,
    /// The name of the user.
    pub name: Text,
    /// The entity below that asked.
    pub peer: Text,
    /// The address to which the answer went.
    pub consumer: Text,
    /// The ID of its request.
    pub below: Text,
    /// The relay state of its request, where it has one.
    pub below_relay: Option<Text>,
    /// The moment until which the session may live.
    pub until: u64,
    /// What the assertion states of the user (SAML Core, 2.7.3).
    pub attributes: Attributes,
}

/// An answer without an assertion was sent downwards (SAML Core, 3.2.2).
#[derive(Debug, Drop)]
pub struct Spoke {
    /// The number that the ID of the answer has.
    pub first: u64,
    /// When it was recorded.
    pub moment: u64,
    /// The ID of the answer.
    pub message: Text,
    /// The ID of the request that it answers.
    pub request: Text,
    /// The entity below that asked.
    pub peer: Text,
}

/// A record of a hub.
#[derive(Debug, Drop)]
pub enum HubRecord {
    /// A request from below was passed on upwards.
    Routed(Routed),
    /// A login from above was passed on downwards.
    Backed(Backed),
    /// An answer without an assertion was sent.
    Spoke(Spoke),
}

impl Routed {
    fn fields(&self) -> [Field<'_>; 9]
        ensures { map field_view result ≡ (hub_parts (kinds.Routed self.now)).1 }
    {
        [
            Field::Number(self.first),
            Field::Number(self.moment),
            Field::Number(self.until),
            Field::Text(&self.request),
            Field::Text(&self.relay),
            Field::Text(&self.peer),
            Field::Text(&self.consumer),
            Field::Text(&self.below),
            Field::Optional(&self.below_relay),
        ]
    }

    fn read(mut fields: Fields<'_>) -> Result<Routed, Unread>
        ensures { Reads (λ r. hub_parts (kinds.Routed r)) result (record_in hub_forms (21 ∷ fields.entry.rest.now)) }
    {
        let first = fields.number()?;
        let moment = fields.number()?;
        let until = fields.number()?;
        let request = fields.text()?;
        let relay = fields.text()?;
        let peer = fields.text()?;
        let consumer = fields.text()?;
        let below = fields.text()?;
        let below_relay = fields.optional()?;
        fields.end()?;
        Ok(Routed {
            first,
            moment,
            until,
            request,
            relay,
            peer,
            consumer,
            below,
            below_relay,
        })
    }
}

impl Backed {
    fn fields(&self) -> [Field<'_>; 17]
        ensures { map field_view result ≡ (hub_parts (kinds.Backed self.now)).1 }
    {
        [
            Field::Number(self.first),
            Field::Number(self.moment),
            Field::Text(&self.request),
            Field::Text(&self.issuer),
            Field::Text(&self.above),
            Field::Number(self.assertion_until),
            Field::Key(self.key),
            Field::Text(&self.assertion),
            Field::Text(&self.message),
            Field::Text(&self.index),
            Field::Text(&self.name),
            Field::Text(&self.peer),
            Field::Text(&self.consumer),
            Field::Text(&self.below),
            Field::Optional(&self.below_relay),
            Field::Number(self.until),
            Field::Attributes(&self.attributes),
        ]
    }

    fn read(mut fields: Fields<'_>) -> Result<Backed, Unread>
        ensures { Reads (λ r. hub_parts (kinds.Backed r)) result (record_in hub_forms (22 ∷ fields.entry.rest.now)) }
    {
        let first = fields.number()?;
        let moment = fields.number()?;
        let request = fields.text()?;
        let issuer = fields.text()?;
        let above = fields.text()?;
        let assertion_until = fields.number()?;
        let key = fields.key()?;
        let assertion = fields.text()?;
        let message = fields.text()?;
        let index = fields.text()?;
        let name = fields.text()?;
        let peer = fields.text()?;
        let consumer = fields.text()?;
        let below = fields.text()?;
        let below_relay = fields.optional()?;
        let until = fields.number()?;
        let attributes = fields.attributes()?;
        fields.end()?;
        Ok(Backed {
            first,
            moment,
            request,
            issuer,
            above,
            assertion_until,
            key,
            assertion,
            message,
            index,
            name,
            peer,
            consumer,
            below,
            below_relay,
            until,
            attributes,
        })
    }
}

impl Spoke {
    fn fields(&self) -> [Field<'_>; 5]
        ensures { map field_view result ≡ (hub_parts (kinds.Spoke self.now)).1 }
    {
        [
            Field::Number(self.first),
            Field::Number(self.moment),
            Field::Text(&self.message),
            Field::Text(&self.request),
            Field::Text(&self.peer),
        ]
    }

    fn read(mut fields: Fields<'_>) -> Result<Spoke, Unread>
        ensures { Reads (λ r. hub_parts (kinds.Spoke r)) result (record_in hub_forms (23 ∷ fields.entry.rest.now)) }
    {
        let first = fields.number()?;
        let moment = fields.number()?;
        let message = fields.text()?;
        let request = fields.text()?;
        let peer = fields.text()?;
        fields.end()?;
        Ok(Spoke {
            first,
            moment,
            message,
            request,
            peer,
        })
    }
}

impl HubRecord {
    /// The payload that keeps the record in a journal.
    pub fn payload(&self, alloc: Global) -> Result<Blob, NoMemory>
        requires { length (hub_bytes self.now) < 2 ^ 32 }
        ensures { IfOk result (λ payload. IsHubPayload payload self.now) }
    {
        match self {
            HubRecord::Routed(routed) => payload_of(alloc, ROUTED, &routed.fields()),
            HubRecord::Backed(backed) => payload_of(alloc, BACKED, &backed.fields()),
            HubRecord::Spoke(spoke) => payload_of(alloc, SPOKE, &spoke.fields()),
        }
    }

    /// How many bytes that payload has, or `u64::MAX` where it would have more.
    pub fn payload_len(&self) -> u64
        ensures { result ≡ capped (length (hub_bytes self.now)) }
    {
        match self {
            HubRecord::Routed(routed) => payload_len_of(&routed.fields()),
            HubRecord::Backed(backed) => payload_len_of(&backed.fields()),
            HubRecord::Spoke(spoke) => payload_len_of(&spoke.fields()),
        }
    }
}

/// The record whose kind and fields stand in a payload.
fn record_of(alloc: Global, payload: &[u8]) -> Result<HubRecord, Unread>
    ensures { Reads hub_parts result (record_in hub_forms payload.now) }
{
    let Some((kind, rest)) = payload.split_first() else {
        return Err(Unread::Malformed);
    };
    let fields = Fields { alloc, rest };
    match *kind {
        ROUTED => Ok(HubRecord::Routed(Routed::read(fields)?)),
        BACKED => Ok(HubRecord::Backed(Backed::read(fields)?)),
        SPOKE => Ok(HubRecord::Spoke(Spoke::read(fields)?)),
        _ => Err(Unread::Malformed),
    }
}

/// The record that a payload of a journal is; none exactly where it is no record of a hub. Both versions of the journal
/// have one form.
pub fn read_hub_record(alloc: Global, payload: &[u8]) -> Result<Option<HubRecord>, NoMemory>
    ensures found { IfOk result (λ found. IfSome found (IsHubPayload payload.now)) }
    ensures none { IfOk result (λ found. IfNone found ((r : HubRecord) → ¬ (IsHubPayload payload.now r))) }
    ensures is { IfOk result (λ found. found ≡ hub_record payload.now) }
{
    if payload.len() > u32::MAX as usize {
        return Ok(None);
    }
    match record_of(alloc, payload) {
        Ok(record) => Ok(Some(record)),
        Err(Unread::Malformed) => Ok(None),
        Err(Unread::NoMemory) => Err(NoMemory),
    }
}
