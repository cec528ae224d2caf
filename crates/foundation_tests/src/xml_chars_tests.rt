//! Names and references as XML 1.0 (fifth edition) has them: what its productions allow and what they do not, and the
//! references of its examples.
use xml_chars::{is_char, is_name, is_name_char, is_name_start, read_reference};

const NAMES: [(&str, bool); 24] = [
    ("", false),
    ("a", true),
    (":", true),
    ("_", true),
    ("ds:SignedInfo", true),
    ("term-def.2", true),
    ("-", false),
    (".a", false),
    ("2a", false),
    ("a b", false),
    ("a<", false),
    ("a;", false),
    ("\u{C9}t\u{E9}", true),
    ("\u{D7}", false),
    ("a\u{F7}", false),
    ("\u{B7}a", false),
    ("a\u{B7}", true),
    ("\u{300}a", false),
    ("a\u{300}", true),
    ("\u{37E}", false),
    ("a\u{203F}\u{2040}", true),
    ("a\u{2041}", false),
    ("\u{EFFFF}", true),
    ("\u{F0000}", false),
];

const REFERENCES: [(&str, Option<(char, usize)>); 30] = [
    ("&lt;/a>", Some(('<', 4))),
    ("&gt;", Some(('>', 4))),
    ("&amp;lt;", Some(('&', 5))),
    ("&quot;", Some(('"', 6))),
    ("&apos;", Some(('\'', 6))),
    ("&#38;#60;", Some(('&', 5))),
    ("&#60;", Some(('<', 5))),
    ("&#x3C;", Some(('<', 6))),
    ("&#x3c;", Some(('<', 6))),
    ("&#xd;", Some(('\r', 5))),
    ("&#000000000065;", Some(('A', 15))),
    ("&#x00000000000041;", Some(('A', 18))),
    ("&#x1F600;", Some(('\u{1F600}', 9))),
    ("&#xD7FF;", Some(('\u{D7FF}', 8))),
    ("&#x10FFFF;", Some(('\u{10FFFF}', 10))),
    ("&#1114111;", Some(('\u{10FFFF}', 10))),
    ("&#0;", None),
    ("&#8;", None),
    ("&#xD800;", None),
    ("&#xFFFE;", None),
    ("&#x110000;", None),
    ("&#4294967361;", None),
    ("&#18446744073709551681;", None),
    ("&#;", None),
    ("&#x;", None),
    ("&#X41;", None),
    ("&#A;", None),
    ("&#65", None),
    ("&nbsp;", None),
    ("&LT;", None),
];

#[test]
fn names_of_the_standard_are_names(rt: HostRuntime) {
    for (text, expected) in NAMES {
        assert_eq!(rt; is_name(text), expected, "{text}");
    }
    assert!(rt; is_char('\u{10FFFF}') && !is_char('\u{FFFF}'));
    assert!(rt; is_name_start('\u{3001}') && !is_name_start('\u{3000}'));
    assert!(rt; is_name_char('9') && !is_name_char('/'));
}

#[test]
fn references_of_the_standard_are_read(rt: HostRuntime) {
    for (text, expected) in REFERENCES {
        assert_eq!(rt; read_reference(text.as_bytes(), 0), expected, "{text}");
    }
    assert_eq!(rt; read_reference(b"a&amp;b", 1), Some(('&', 6)));
    assert_eq!(rt; read_reference(b"a&amp;b", 7), None);
}
