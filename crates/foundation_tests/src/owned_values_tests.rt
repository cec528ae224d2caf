//! What no clause says: that there is memory for a call.
use owned_values::laws::what_is_given_is_one_answer;
use owned_values::{Attribute, Attributes, Blob, Text, Texts};
use std::test::Fail;

#[test]
fn texts_and_bytes_are_made_and_grow(rt: HostRuntime) -> Result<(), Fail> {
    let mut text = Text::of(rt.alloc(), "ab")?;
    text.push("c")?;
    assert_eq!(rt; text.copy()?.as_str(), "abc");
    let mut blob = Blob::of(rt.alloc(), b"ab")?;
    blob.push(b"c")?;
    assert_eq!(rt; blob.copy()?.as_slice(), b"abc".as_slice());
    let mut texts = Texts::new(rt.alloc());
    texts.push(text)?;
    texts.push(Text::of(rt.alloc(), "d")?)?;
    let copy = texts.copy()?;
    assert_eq!(rt; copy.len(), 2);
    assert_eq!(rt; copy.at(0).as_str(), "abc");
    assert_eq!(rt; copy.at(1).as_str(), "d");
    Ok(())
}

#[test]
fn bytes_that_are_utf_8_are_a_text(rt: HostRuntime) -> Result<(), Fail> {
    let Some(text) = Text::of_utf8(rt.alloc(), b"\xC3\xA9")? else {
        return Err(Fail::from("no text"));
    };
    assert_eq!(rt; text.as_str(), "é");
    assert!(rt; Text::of_utf8(rt.alloc(), b"\xC3")?.is_none());
    Ok(())
}

#[test]
fn attributes_are_kept_and_copied(rt: HostRuntime) -> Result<(), Fail> {
    let mut values = Texts::new(rt.alloc());
    values.push(Text::of(rt.alloc(), "reader")?)?;
    let name = Text::of(rt.alloc(), "role")?;
    let mut attributes = Attributes::new(rt.alloc());
    attributes.push(Attribute { name, values })?;
    let copy = attributes.copy()?;
    assert_eq!(rt; copy.len(), 1);
    assert_eq!(rt; copy.at(0).name.as_str(), "role");
    assert_eq!(rt; copy.at(0).values.len(), 1);
    Ok(())
}

#[test]
fn the_law_of_answers_can_be_called() {
    what_is_given_is_one_answer::<u8, u16, bool, u8>();
}
