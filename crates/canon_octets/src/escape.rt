//! Characters that are written as references: Canonical XML 1.0, 2.3.
ghost use Rattle.std.specs.Prelude.{◌≡◌, ◌≤◌, [], ◌∷◌, length, take, drop, MatchOption, OnOk, OnErr, IsTrue, IsFalse};
ghost use Rattle.std.specs.List.{flat_map};
ghost use Rattle.xml_spec.specs.Bytes.{AllPass, begins_with};
ghost use Rattle.xml_spec.specs.Canonical.{escape_text, escape_value};
ghost use Rattle.canon_octets.specs.Places.{AppendsPart};
ghost use Rattle.canon_octets.specs.Escapes.{escape_byte, is_kept};

use crate::octets::Octets;
use byte_runs::{ByteClass, run_len};
use owned_values::NoMemory;

/// Where a character stands.
#[derive(Clone, Copy)]
enum Place {
    Text,
    Value,
}

/// The reference that stands for a byte; none where the byte is written as it is.
#[inline(always)]
fn reference(place: Place, b: u8) -> Option<&'static [u8]>
    ensures { MatchOption result (escape_byte place b ≡ b ∷ []) (λ bytes. escape_byte place b ≡ bytes.now) }
{
    match (place, b) {
        (_, b'&') => Some(b"&amp;"),
        (_, b'<') => Some(b"&lt;"),
        (_, b'\r') => Some(b"&#xD;"),
        (Place::Text, b'>') => Some(b"&gt;"),
        (Place::Value, b'"') => Some(b"&quot;"),
        (Place::Value, b'\t') => Some(b"&#x9;"),
        (Place::Value, b'\n') => Some(b"&#xA;"),
        _ => None,
    }
}

/// The bytes that are written as they are in a text. Most lie above the others, which one comparison tells; the others are
/// told by `|`, without a branch, so that blocks of bytes are compared in vectors. So it is in `InValue` too.
struct InText;

impl ByteClass for InText {
    ghost use Rattle.canon_octets.specs.Escapes.{is_kept_in_text};

    ghost contains = { λ _ b. is_kept_in_text b };

    #[inline(always)]
    fn has(&self, byte: u8) -> bool {
        byte > b'>' || !((byte == b'&') | (byte == b'<') | (byte == b'>') | (byte == b'\r'))
    }
}

/// The bytes that are written as they are in an attribute's value.
struct InValue;

impl ByteClass for InValue {
    ghost use Rattle.canon_octets.specs.Escapes.{is_kept_in_value};

    ghost contains = { λ _ b. is_kept_in_value b };

    #[inline(always)]
    fn has(&self, byte: u8) -> bool {
        byte > b'<'
            || !((byte == b'&')
                | (byte == b'<')
                | (byte == b'"')
                | (byte == b'\t')
                | (byte == b'\n')
                | (byte == b'\r'))
    }
}

/// How many of the first bytes are written as they are. Each class is known where it is compiled, so that many bytes
/// are looked at together.
#[inline(always)]
fn kept_len(place: Place, bytes: &[u8]) -> usize
    ensures within { result ≤ length bytes.now }
    ensures passes { AllPass (is_kept place) (take result bytes.now) }
    ensures stops { IsFalse (begins_with (is_kept place) (drop result bytes.now)) }
{
    match place {
        Place::Text => run_len(&InText, bytes),
        Place::Value => run_len(&InValue, bytes),
    }
}

/// Appends `bytes`, each as it is written in this place: in runs of those that are written as they are. The first byte
/// of what is left is looked at by itself, so that no block is looked at in vain for each of many references.
fn escape<O: Octets>(place: Place, bytes: &[u8], out: &mut O) -> Result<(), NoMemory>
    ensures ok { OnOk result (O.appends out.old out.new (flat_map (escape_byte place) bytes.now)) }
    ensures err { OnErr result (AppendsPart O.appends out.old out.new (flat_map (escape_byte place) bytes.now)) }
    ensures refusing { OnErr result (IsTrue O.may_refuse) }
{
    let mut rest = bytes;
    'pieces: while let Some((first, behind)) = rest.split_first() {
        if let Some(name) = reference(place, *first) {
            out.put(name)?;
            rest = behind;
        } else {
            let (run, more) = rest.split_at(1 + kept_len(place, behind));
            out.put(run)?;
            rest = more;
        }
    }
    Ok(())
}

/// Appends a text as it is written between tags.
///
/// # Errors
///
/// `NoMemory`, where the place refuses a piece: a part of it from the first byte on may have been appended.
pub fn escape_text<O: Octets>(text: &str, out: &mut O) -> Result<(), NoMemory>
    ensures ok { OnOk result (O.appends out.old out.new (escape_text text.now)) }
    ensures err { OnErr result (AppendsPart O.appends out.old out.new (escape_text text.now)) }
    ensures refusing { OnErr result (IsTrue O.may_refuse) }
{
    escape(Place::Text, text.as_bytes(), out)
}

/// Appends the value of an attribute as it is written between quotation marks.
///
/// # Errors
///
/// `NoMemory`, where the place refuses a piece: a part of it from the first byte on may have been appended.
pub fn escape_value<O: Octets>(value: &str, out: &mut O) -> Result<(), NoMemory>
    ensures ok { OnOk result (O.appends out.old out.new (escape_value value.now)) }
    ensures err { OnErr result (AppendsPart O.appends out.old out.new (escape_value value.now)) }
    ensures refusing { OnErr result (IsTrue O.may_refuse) }
{
    escape(Place::Value, value.as_bytes(), out)
}
