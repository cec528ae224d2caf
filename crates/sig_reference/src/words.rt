// The words of a text, and the prefixes of a PrefixList (Exclusive XML Canonicalization 1.0, 4).

ghost use Rattle.std.specs.Prelude.{◌≡◌, ◌↔◌, [], ◌++◌, IfOk, IsTrue, OnOk};
ghost use Rattle.std.specs.List.{AllByRecursion};
ghost use Rattle.sig_reference.specs.Form.{with_word, words, IsPrefix};

use owned_values::{NoMemory, Text, Texts};
use std::alloc::Global;
use xml_chars::{has_colon, is_name, is_white};

/// Puts a word behind others; an empty one is none.
fn push_word(alloc: Global, word: &str, words: &mut Texts) -> Result<(), NoMemory>
    ensures { OnOk result (words.new ≡ words.old ++ with_word word.now []) }
{
    if word.is_empty() {
        return Ok(());
    }
    let word = Text::of(alloc, word)?;
    words.push(word)?;
    Ok(())
}

/// The words of a text, which white space parts.
pub(crate) fn words(alloc: Global, text: &str) -> Result<Texts, NoMemory>
    ensures { IfOk result (λ found. found ≡ words text.now) }
{
    let bytes = text.as_bytes();
    let mut found = Texts::new(alloc);
    let mut start = 0;
    for i in 0..bytes.len() {
        if is_white(bytes[i]) {
            push_word(alloc, &text[start..i], &mut found)?;
            start = i + 1;
        }
    }
    push_word(alloc, &text[start..], &mut found)?;
    Ok(found)
}

/// Whether the word is a prefix, or `#default`, which stands for the default namespace.
fn is_prefix(word: &str) -> bool
    ensures { IsTrue result ↔ IsPrefix word.now }
{
    word == "#default" || (is_name(word) && !has_colon(word))
}

/// Whether each word is one.
pub(crate) fn are_prefixes(words: &Texts) -> bool
    ensures { IsTrue result ↔ AllByRecursion IsPrefix words.now }
{
    for i in 0..words.len() {
        if !is_prefix(words.at(i).as_str()) {
            return false;
        }
    }
    true
}
