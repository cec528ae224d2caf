// One line of a file of users.

ghost use Rattle.std.specs.Prelude.{◌≡◌, ◌≤◌, IfOk, IfSome};
ghost use Rattle.user_store.specs.Line as spec;

use crate::user::{User, VALUE_LENGTH};
use hex::FromHexError;
use owned_values::{Attributes, Blob, NoMemory, Text};
use std::alloc::Global;
use text_lines::{parts_of, positive, words_of};

/// The most rounds of PBKDF2.
pub const MOST_ROUNDS: u64 = 100_000;

/// What a line says.
#[derive(Debug, Drop)]
pub(crate) enum UserLine {
    /// A user, without attributes.
    User(User),
    /// A value of an attribute of the last user.
    Attribute { name: Text, value: Text },
}

/// The number of rounds that a word says: 1 to [`MOST_ROUNDS`].
fn rounds_of(word: &str) -> Option<u32>
    ensures value { result ≡ spec.rounds_of word.now }
    ensures some { IfSome result (λ rounds. 1 ≤ rounds) }
{
    let rounds = positive(word, MOST_ROUNDS)?;
    Some(rounds as u32)
}

/// The bytes that a word says in hexadecimal.
fn bytes_of(alloc: Global, word: &str) -> Result<Option<Blob>, NoMemory>
    ensures { IfOk result (λ bytes. bytes ≡ spec.bytes_of word.now) }
{
    match hex::decode(alloc, word) {
        Ok(bytes) => Ok(Some(Blob::of(alloc, bytes.as_slice())?)),
        Err(FromHexError::OutOfMemory) => Err(NoMemory),
        Err(_) => Ok(None),
    }
}

/// The PBKDF2 value that a word says in hexadecimal.
fn value_of(word: &str) -> Option<[u8; VALUE_LENGTH]>
    ensures { result ≡ spec.value_of word.now }
{
    let mut value = [0; VALUE_LENGTH];
    match hex::decode_to_slice(word, &mut value) {
        Ok(()) => Some(value),
        Err(_) => None,
    }
}

/// The line `user NAME ROUNDS SALT VALUE`.
fn user_of(alloc: Global, words: &[Text]) -> Result<Option<UserLine>, NoMemory>
    ensures value { IfOk result (λ line. line ≡ spec.user_of words.now) }
    ensures rounds { IfOk result (λ line. IfSome line spec.HasRounds) }
{
    let [key, name, rounds, salt, value] = words else {
        return Ok(None);
    };
    if key.as_str() != "user" {
        return Ok(None);
    }
    let Some(rounds) = rounds_of(rounds.as_str()) else {
        return Ok(None);
    };
    let Some(salt) = bytes_of(alloc, salt.as_str())? else {
        return Ok(None);
    };
    let Some(value) = value_of(value.as_str()) else {
        return Ok(None);
    };
    let name = name.copy()?;
    Ok(Some(UserLine::User(User {
        name,
        attributes: Attributes::new(alloc),
        salt,
        rounds,
        value,
    })))
}

/// The line `attr NAME VALUE`, behind its key. The value is all that stands behind the name and a space.
fn attribute_of(alloc: Global, behind: &str) -> Result<Option<UserLine>, NoMemory>
    ensures value { IfOk result (λ line. line ≡ spec.attribute_of behind.now) }
    ensures rounds { IfOk result (λ line. IfSome line spec.HasRounds) }
{
    let parts = parts_of(behind);
    let Some(value) = parts.rest else {
        return Ok(None);
    };
    if parts.first.is_empty() {
        return Ok(None);
    }
    let name = Text::of(alloc, parts.first)?;
    let value = Text::of(alloc, value)?;
    Ok(Some(UserLine::Attribute { name, value }))
}

/// The line that a text spells.
pub(crate) fn line_of(alloc: Global, text: &str) -> Result<Option<UserLine>, NoMemory>
    ensures value { IfOk result (λ line. line ≡ spec.line_of text.now) }
    ensures rounds { IfOk result (λ line. IfSome line spec.HasRounds) }
{
    let parts = parts_of(text);
    if parts.first == "attr" {
        return match parts.rest {
            Some(behind) => attribute_of(alloc, behind),
            None => Ok(None),
        };
    }
    match words_of(alloc, text)? {
        Some(words) => user_of(alloc, words.as_slice()),
        None => Ok(None),
    }
}
