//! What a service provider's ledger records.
ghost use Rattle.std.specs.Prelude.{◌≡◌, ◌∷◌, ◌<◌, ◌^◌, map, length, IfOk, IfSome, IfNone};
ghost use Rattle.ledger_records.specs.declared.sp_record.SpRecord.{SpRecord};
ghost use Rattle.ledger_records.specs.declared.sp_record.SpRecord.TheVariants as kinds;
ghost use Rattle.ledger_records.specs.Reading.{Reads, record_in, sp_forms};
ghost use Rattle.ledger_records.specs.SpRecord.{sp_parts, sp_bytes, IsOfVersion, IsSpPayload};
ghost use Rattle.ledger_records.specs.Found.{sp_record};
ghost use Rattle.ledger_records.specs.Writing.{field_view, capped};

use crate::KeyNumber;
use crate::reading::{Fields, Unread};
use crate::writing::{Field, payload_len_of, payload_of};
use owned_values::{Attributes, Blob, NoMemory, Text, Texts};
use std::alloc::Global;

const ASKED: u8 = 1;

const OPENED: u8 = 2;

const LEFT: u8 = 3;

const ENDED: u8 = 4;

const CONFIRMED: u8 = 5;

/// A request for a login was sent to the identity provider (SAML Core, 3.4.1).
#[derive(Debug, Drop)]
pub struct Asked {
    /// The number that the ID of the request has; the relay state has the next one.
    pub first: u64,
    /// When it was recorded, in milliseconds since 1970-01-01T00:00:00Z, as each moment here.
    pub moment: u64,
    /// The moment until which an answer is accepted.
    pub until: u64,
    /// The path to which the user goes after the login.
    pub target: Text,
    /// The ID of the request.
    pub request: Text,
    /// The relay state that was sent with it (SAML Bindings, 3.5.3).
    pub relay: Text,
}

/// A session was opened for an accepted login (SAML Profiles, 4.1.4.3).
#[derive(Debug, Drop)]
pub struct Opened {
    /// The number that the token has.
    pub first: u64,
    /// When it was recorded.
    pub moment: u64,
    /// The moment until which the session lives.
    pub until: u64,
    /// The ID of the request that was answered.
    pub request: Text,
    /// The entity that issued the assertion.
    pub issuer: Text,
    /// The ID of the assertion.
    pub assertion: Text,
    /// The moment until which the assertion may not come again.
    pub assertion_until: u64,
    /// The token of the session, which its cookie holds.
    pub token: Text,
    /// The name of the user.
    pub name: Text,
    /// The index of the session at the issuer, where it gave one (SAML Core, 2.7.2).
    pub index: Option<Text>,
    /// What the issuer states of the user (SAML Core, 2.7.3).
    pub attributes: Attributes,
    /// The key by which the login was verified.
    pub key: KeyNumber,
}

/// A logout was begun here: a session was closed, and a request was sent to the identity provider (SAML Core, 3.7.1).
#[derive(Debug, Drop)]
pub struct Left {
    /// The number that the ID of the request has.
    pub first: u64,
    /// When it was recorded.
    pub moment: u64,
    /// The moment until which an answer is accepted.
    pub until: u64,
    /// The token of the session that was closed.
    pub token: Text,
    /// The ID of the request.
    pub request: Text,
}

/// The identity provider asked for a logout: sessions were closed, and an answer was sent (SAML Core, 3.7.2).
#[derive(Debug, Drop)]
pub struct Ended {
    /// The number that the ID of the answer has.
    pub first: u64,
    /// When it was recorded.
    pub moment: u64,
    /// The tokens of the sessions that were closed.
    pub tokens: Texts,
    /// The ID of the answer.
    pub message: Text,
    /// The ID of the request that it answers.
    pub request: Text,
}

/// The identity provider answered a request for a logout. No number is drawn.
#[derive(Debug, Drop)]
pub struct Confirmed {
    /// When it was recorded.
    pub moment: u64,
    /// The ID of the request that was answered.
    pub request: Text,
}

/// A record of a service provider.
#[derive(Debug, Drop)]
pub enum SpRecord {
    /// A login was asked for.
    Asked(Asked),
    /// A session was opened.
    Opened(Opened),
    /// A logout was begun here.
    Left(Left),
    /// The identity provider ended sessions.
    Ended(Ended),
    /// The identity provider answered a request for a logout.
    Confirmed(Confirmed),
}

impl Asked {
    fn fields(&self) -> [Field<'_>; 6]
        ensures { map field_view result ≡ (sp_parts 2 (kinds.Asked self.now)).1 }
    {
        [
            Field::Number(self.first),
            Field::Number(self.moment),
            Field::Number(self.until),
            Field::Text(&self.target),
            Field::Text(&self.request),
            Field::Text(&self.relay),
        ]
    }

    fn read(mut fields: Fields<'_>) -> Result<Asked, Unread>
        ensures { Reads (λ r. sp_parts 2 (kinds.Asked r)) result (record_in (sp_forms 2) (1 ∷ fields.entry.rest.now)) }
    {
        let first = fields.number()?;
        let moment = fields.number()?;
        let until = fields.number()?;
        let target = fields.text()?;
        let request = fields.text()?;
        let relay = fields.text()?;
        fields.end()?;
        Ok(Asked {
            first,
            moment,
            until,
            target,
            request,
            relay,
        })
    }
}

impl Opened {
    fn fields(&self) -> [Field<'_>; 12]
        ensures { map field_view result ≡ (sp_parts 2 (kinds.Opened self.now)).1 }
    {
        [
            Field::Number(self.first),
            Field::Number(self.moment),
            Field::Number(self.until),
            Field::Text(&self.request),
            Field::Text(&self.issuer),
            Field::Text(&self.assertion),
            Field::Number(self.assertion_until),
            Field::Text(&self.token),
            Field::Text(&self.name),
            Field::Optional(&self.index),
            Field::Attributes(&self.attributes),
            Field::Key(self.key),
        ]
    }

    fn read(mut fields: Fields<'_>, version: u8) -> Result<Opened, Unread>
        ensures read { Reads (λ r. sp_parts version (kinds.Opened r)) result (record_in (sp_forms version) (2 ∷ fields.entry.rest.now)) }
        ensures first { version ≡ 1 → IfOk result (λ r. r.key ≡ KeyNumber.First) }
    {
        let first = fields.number()?;
        let moment = fields.number()?;
        let until = fields.number()?;
        let request = fields.text()?;
        let issuer = fields.text()?;
        let assertion = fields.text()?;
        let assertion_until = fields.number()?;
        let token = fields.text()?;
        let name = fields.text()?;
        let index = fields.optional()?;
        let attributes = fields.attributes()?;
        let key = fields.last_key(version)?;
        Ok(Opened {
            first,
            moment,
            until,
            request,
            issuer,
            assertion,
            assertion_until,
            token,
            name,
            index,
            attributes,
            key,
        })
    }
}

impl Left {
    fn fields(&self) -> [Field<'_>; 5]
        ensures { map field_view result ≡ (sp_parts 2 (kinds.Left self.now)).1 }
    {
        [
            Field::Number(self.first),
            Field::Number(self.moment),
            Field::Number(self.until),
            Field::Text(&self.token),
            Field::Text(&self.request),
        ]
    }

    fn read(mut fields: Fields<'_>) -> Result<Left, Unread>
        ensures { Reads (λ r. sp_parts 2 (kinds.Left r)) result (record_in (sp_forms 2) (3 ∷ fields.entry.rest.now)) }
    {
        let first = fields.number()?;
        let moment = fields.number()?;
        let until = fields.number()?;
        let token = fields.text()?;
        let request = fields.text()?;
        fields.end()?;
        Ok(Left {
            first,
            moment,
            until,
            token,
            request,
        })
    }
}

impl Ended {
    fn fields(&self) -> [Field<'_>; 5]
        ensures { map field_view result ≡ (sp_parts 2 (kinds.Ended self.now)).1 }
    {
        [
            Field::Number(self.first),
            Field::Number(self.moment),
            Field::Texts(&self.tokens),
            Field::Text(&self.message),
            Field::Text(&self.request),
        ]
    }

    fn read(mut fields: Fields<'_>) -> Result<Ended, Unread>
        ensures { Reads (λ r. sp_parts 2 (kinds.Ended r)) result (record_in (sp_forms 2) (4 ∷ fields.entry.rest.now)) }
    {
        let first = fields.number()?;
        let moment = fields.number()?;
        let tokens = fields.texts()?;
        let message = fields.text()?;
        let request = fields.text()?;
        fields.end()?;
        Ok(Ended {
            first,
            moment,
            tokens,
            message,
            request,
        })
    }
}

impl Confirmed {
    fn fields(&self) -> [Field<'_>; 3]
        ensures { map field_view result ≡ (sp_parts 2 (kinds.Confirmed self.now)).1 }
    {
        [
            Field::NoNumber,
            Field::Number(self.moment),
            Field::Text(&self.request),
        ]
    }

    fn read(mut fields: Fields<'_>) -> Result<Confirmed, Unread>
        ensures { Reads (λ r. sp_parts 2 (kinds.Confirmed r)) result (record_in (sp_forms 2) (5 ∷ fields.entry.rest.now)) }
    {
        fields.no_number()?;
        let moment = fields.number()?;
        let request = fields.text()?;
        fields.end()?;
        Ok(Confirmed { moment, request })
    }
}

impl SpRecord {
    /// The payload that keeps the record in a journal of version 2.
    pub fn payload(&self, alloc: Global) -> Result<Blob, NoMemory>
        requires { length (sp_bytes 2 self.now) < 2 ^ 32 }
        ensures { IfOk result (λ payload. IsSpPayload 2 payload self.now) }
    {
        match self {
            SpRecord::Asked(asked) => payload_of(alloc, ASKED, &asked.fields()),
            SpRecord::Opened(opened) => payload_of(alloc, OPENED, &opened.fields()),
            SpRecord::Left(left) => payload_of(alloc, LEFT, &left.fields()),
            SpRecord::Ended(ended) => payload_of(alloc, ENDED, &ended.fields()),
            SpRecord::Confirmed(confirmed) => payload_of(alloc, CONFIRMED, &confirmed.fields()),
        }
    }

    /// How many bytes that payload has, or `u64::MAX` where it would have more.
    pub fn payload_len(&self) -> u64
        ensures { result ≡ capped (length (sp_bytes 2 self.now)) }
    {
        match self {
            SpRecord::Asked(asked) => payload_len_of(&asked.fields()),
            SpRecord::Opened(opened) => payload_len_of(&opened.fields()),
            SpRecord::Left(left) => payload_len_of(&left.fields()),
            SpRecord::Ended(ended) => payload_len_of(&ended.fields()),
            SpRecord::Confirmed(confirmed) => payload_len_of(&confirmed.fields()),
        }
    }
}

/// The record whose kind and fields stand in a payload.
fn record_of(alloc: Global, payload: &[u8], version: u8) -> Result<SpRecord, Unread>
    ensures read { Reads (sp_parts version) result (record_in (sp_forms version) payload.now) }
    ensures version { IfOk result (IsOfVersion version) }
{
    let Some((kind, rest)) = payload.split_first() else {
        return Err(Unread::Malformed);
    };
    let fields = Fields { alloc, rest };
    match *kind {
        ASKED => Ok(SpRecord::Asked(Asked::read(fields)?)),
        OPENED => Ok(SpRecord::Opened(Opened::read(fields, version)?)),
        LEFT => Ok(SpRecord::Left(Left::read(fields)?)),
        ENDED => Ok(SpRecord::Ended(Ended::read(fields)?)),
        CONFIRMED => Ok(SpRecord::Confirmed(Confirmed::read(fields)?)),
        _ => Err(Unread::Malformed),
    }
}

/// The record that a payload of a journal is; none exactly where it is no record of a service provider. In version 1 a
/// session has no key and is read with the first one; every other version has the form of version 2.
pub fn read_sp_record(
    alloc: Global,
    payload: &[u8],
    version: u8,
) -> Result<Option<SpRecord>, NoMemory>
    ensures found { IfOk result (λ found. IfSome found (IsSpPayload version payload.now)) }
    ensures none { IfOk result (λ found. IfNone found ((r : SpRecord) → ¬ (IsSpPayload version payload.now r))) }
    ensures is { IfOk result (λ found. found ≡ sp_record version payload.now) }
{
    if payload.len() > u32::MAX as usize {
        return Ok(None);
    }
    match record_of(alloc, payload, version) {
        Ok(record) => Ok(Some(record)),
        Err(Unread::Malformed) => Ok(None),
        Err(Unread::NoMemory) => Err(NoMemory),
    }
}
