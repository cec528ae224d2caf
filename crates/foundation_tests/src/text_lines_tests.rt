//! What no clause says: that a text of several lines is read to its end.
use std::test::Fail;
use text_lines::{Lines, Said, Words, number_of};

#[test]
fn lines_are_read_in_order(rt: HostRuntime) -> Result<(), Fail> {
    let mut lines = Lines::new(b"# c\n\nskew 60\n\xFF\n");
    let Some(Said::Line { number, text }) = lines.next_said() else {
        return Err(Fail::from("no line"));
    };
    assert_eq!(rt; number, 3);
    let mut words = Words::of(text);
    assert_eq!(rt; words.next_word(), Some("skew"));
    assert_eq!(rt;
        words.next_word().and_then(|word| number_of(word, 300)),
        Some(60)
    );
    assert_eq!(rt; words.next_word(), None);
    assert_eq!(rt; lines.next_said(), Some(Said::NoText { number: 4 }));
    assert_eq!(rt; lines.next_said(), None);
    Ok(())
}
