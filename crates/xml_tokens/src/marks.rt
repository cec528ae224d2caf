// Bytes and words that a text begins with, or that stand in it.

ghost use Rattle.std.specs.Prelude.{◌≡◌, ℕ, ◌<◌, List, [], ◌∷◌, ◌++◌, length};
ghost use Rattle.std.specs.Option.{MatchOption};
ghost use Rattle.std.specs.Char.{encode_utf8};
ghost use Rattle.xml_spec.specs.Bytes.{has};
ghost use Rattle.xml_tokens.specs.Lexing.{CutAt};

use byte_runs::{ByteClass, run_len};

/// What follows this byte of ASCII, where the text begins with it.
pub(crate) fn strip_byte<'a>(rest: &'a str, byte: u8) -> Option<&'a str>
    requires ascii { byte < 128 }
    ensures { MatchOption result ((x : List ℕ) → ¬ (rest.now ≡ byte ∷ x)) (λ behind. rest.now ≡ byte ∷ behind.now) }
{
    match rest.as_bytes() {
        [first, ..] if *first == byte => Some(&rest[1..]),
        _ => None,
    }
}

/// What follows this word, where the text begins with it.
pub(crate) fn strip_word<'a>(rest: &'a str, word: &str) -> Option<&'a str>
    ensures { MatchOption result ((x : List ℕ) → ¬ (rest.now ≡ word.now ++ x)) (λ behind. rest.now ≡ word.now ++ behind.now) }
{
    rest.strip_prefix(word)
}

/// What follows this character, where the text begins with it.
pub(crate) fn strip_character<'a>(rest: &'a str, character: char) -> Option<&'a str>
    ensures { MatchOption result ((x : List ℕ) → ¬ (rest.now ≡ encode_utf8 character ++ x)) (λ behind. rest.now ≡ encode_utf8 character ++ behind.now) }
{
    let mut bytes = [0; 4];
    let word = character.encode_utf8(&mut bytes);
    strip_word(rest, word)
}

/// All bytes but this one.
#[derive(Drop)]
struct Others(u8);

impl ByteClass for Others {
    ghost use Rattle.xml_tokens.specs.Lexing.{is_other};

    ghost contains = { λ c b. is_other c.0 b };

    #[inline(always)]
    fn has(&self, byte: u8) -> bool {
        byte != self.0
    }
}

/// Whether the byte stands in the text.
pub(crate) fn has_byte(text: &str, byte: u8) -> bool
    ensures { result ≡ has (byte ∷ []) text.now }
{
    run_len(&Others(byte), text.as_bytes()) < text.len()
}

/// What stands before the first place of this mark, and what stands behind it. Most texts have not even its first byte, which
/// is told faster.
pub(crate) fn split_mark<'a>(rest: &'a str, mark: &str) -> Option<(&'a str, &'a str)>
    ensures { MatchOption result ((front behind : List ℕ) → ¬ (rest.now ≡ front ++ (mark.now ++ behind)))
        (λ found. CutAt mark.now rest.now found.0.now found.1.now) }
{
    match mark.as_bytes() {
        [first, ..] if !has_byte(rest, *first) => None,
        _ => rest.split_once(mark),
    }
}

/// Whether the mark stands in the text. Most texts have not even its first byte.
pub(crate) fn has_mark(text: &str, mark: &str) -> bool
    requires some { 0 < length mark.now }
    ensures { result ≡ has mark.now text.now }
{
    match mark.as_bytes() {
        [first, ..] if !has_byte(text, *first) => false,
        _ => text.contains(mark),
    }
}
