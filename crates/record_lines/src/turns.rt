//! Who asks for a logout, and whom it tells.
ghost use Rattle.std.specs.Prelude.{◌≡◌, ◌++◌, map, OnOk};
ghost use Rattle.record_lines.specs.Lines.{Asker as Asks, Turns as Told, text_piece, turn_pieces, spaced, shown};

use crate::field::put_text;
use logout_turns::{Asker, Turn, Turns};
use owned_values::{Blob, NoMemory, Texts};

/// Puts texts, each behind the name.
fn put_texts(name: &[u8], texts: &Texts, line: &mut Blob) -> Result<(), NoMemory>
    ensures { OnOk result (line.new ≡ line.old ++ spaced (map (text_piece name.now) texts.now)) }
{
    for text in texts.as_slice() {
        put_text(name, text.as_str().as_bytes(), line)?;
    }
    Ok(())
}

/// Puts a turn: the provider, the name of the user, and each index.
#[tactic(auto, unfolding(crate::specs::Lines::turn_pieces))]
fn put_turn(turn: &Turn, line: &mut Blob) -> Result<(), NoMemory>
    ensures { OnOk result (line.new ≡ line.old ++ spaced (turn_pieces turn.now)) }
{
    put_text(b"turn", turn.peer.as_str().as_bytes(), line)?;
    put_text(b"turn.name", turn.name.as_str().as_bytes(), line)?;
    put_texts(b"turn.index", &turn.indexes, line)?;
    Ok(())
}

/// Puts turns.
pub(crate) fn put_turns(turns: &Turns, line: &mut Blob) -> Result<(), NoMemory>
    ensures { OnOk result (line.new ≡ line.old ++ shown (Told turns.now)) }
{
    for turn in turns.as_slice() {
        put_turn(turn, line)?;
    }
    Ok(())
}

/// Puts the provider that asks and the ID of its request, where one does.
pub(crate) fn put_asker(asker: &Option<Asker>, line: &mut Blob) -> Result<(), NoMemory>
    ensures { OnOk result (line.new ≡ line.old ++ shown (Asks asker.now)) }
{
    match asker {
        Some(asker) => {
            put_text(b"asker.peer", asker.peer.as_str().as_bytes(), line)?;
            put_text(b"asker.request", asker.request.as_str().as_bytes(), line)?;
            Ok(())
        }
        None => Ok(()),
    }
}
