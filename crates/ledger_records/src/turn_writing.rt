// Askers and turns written into a payload, and how long they are.

ghost use Rattle.std.specs.Prelude.{◌≡◌, ◌++◌, length, OnOk, IfSome};
ghost use Rattle.std.specs.List.{AllByRecursion};
ghost use Rattle.ledger_records.specs.Fields.{option_of, list_of, asking, turn, IsAsking, IsTurn};
ghost use Rattle.ledger_records.specs.Writing.{capped};

use crate::writing::{
    COUNT, optional_len, put_count, put_optional, put_text, put_texts, text_len, texts_len,
};
use logout_turns::{Asker, Turn, Turns};
use owned_values::{Blob, NoMemory};

/// Puts a provider that asks.
fn put_asking(out: &mut Blob, value: &Asker) -> Result<(), NoMemory>
    ensures put { OnOk result (out.new ≡ out.old ++ asking value.now) }
    ensures held { OnOk result (IsAsking value.now) }
{
    put_text(out, &value.peer)?;
    put_text(out, &value.request)?;
    put_optional(out, &value.relay)?;
    Ok(())
}

/// Puts a provider that asks, where one does.
pub(crate) fn put_asker(out: &mut Blob, value: &Option<Asker>) -> Result<(), NoMemory>
    ensures put { OnOk result (out.new ≡ out.old ++ option_of asking value.now) }
    ensures held { OnOk result (IfSome value.now IsAsking) }
{
    match value {
        None => {
            out.push(&[0])?;
            Ok(())
        }
        Some(value) => {
            out.push(&[1])?;
            put_asking(out, value)?;
            Ok(())
        }
    }
}

/// Puts a turn.
fn put_turn(out: &mut Blob, value: &Turn) -> Result<(), NoMemory>
    ensures put { OnOk result (out.new ≡ out.old ++ turn value.now) }
    ensures held { OnOk result (IsTurn value.now) }
{
    put_text(out, &value.peer)?;
    put_text(out, &value.name)?;
    put_texts(out, &value.indexes)?;
    Ok(())
}

/// Puts a list of turns.
pub(crate) fn put_turns(out: &mut Blob, listed: &Turns) -> Result<(), NoMemory>
    ensures put { OnOk result (out.new ≡ out.old ++ list_of turn listed.now) }
    ensures held { OnOk result (AllByRecursion IsTurn listed.now) }
{
    put_count(out, listed.len())?;
    for value in listed.as_slice() {
        put_turn(out, value)?;
    }
    Ok(())
}

/// How long a provider that asks is, where one does.
pub(crate) fn asker_len(value: &Option<Asker>) -> u64
    ensures { result ≡ capped (length (option_of asking value.now)) }
{
    match value {
        None => 1,
        Some(value) => {
            let behind = text_len(&value.request).saturating_add(optional_len(&value.relay));
            text_len(&value.peer)
                .saturating_add(behind)
                .saturating_add(1)
        }
    }
}

/// How long a turn is.
fn turn_len(value: &Turn) -> u64
    ensures { result ≡ capped (length (turn value.now)) }
{
    let behind = text_len(&value.name).saturating_add(texts_len(&value.indexes));
    text_len(&value.peer).saturating_add(behind)
}

/// How long a list of turns is.
pub(crate) fn turns_len(values: &Turns) -> u64
    ensures { result ≡ capped (length (list_of turn values.now)) }
{
    let mut len = COUNT;
    for value in values.as_slice() {
        len = len.saturating_add(turn_len(value));
    }
    len
}
