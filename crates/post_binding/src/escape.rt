//! Texts that stand in pages: each character that could end them is written as a reference (HTML, 13.1.4).
ghost use Rattle.std.specs.Prelude.{◌≡◌, ◌<◌, [], ◌∷◌, ◌++◌, MatchOption, OnOk, OnErr, string_bytes};
ghost use Rattle.post_binding.specs.Html.{escape_byte, escape};

use owned_values::NoMemory;

/// The reference that stands for a byte; none where the byte is written as it is.
fn reference(byte: u8) -> Option<&'static str>
    ensures { MatchOption result (escape_byte byte ≡ byte ∷ []) (λ text. (escape_byte byte ≡ text.now) × (byte < 128)) }
{
    match byte {
        b'&' => Some("&amp;"),
        b'<' => Some("&lt;"),
        b'>' => Some("&gt;"),
        b'"' => Some("&quot;"),
        b'\'' => Some("&#39;"),
        _ => None,
    }
}

/// Appends the text, escaped. Where there is no memory, a part of it may have been appended.
fn put_escaped(text: &str, out: &mut String) -> Result<(), NoMemory>
    ensures { OnOk result (string_bytes out.new ≡ string_bytes out.old ++ escape text.now) }
{
    let mut from = 0;
    for (i, byte) in text.as_bytes().iter().enumerate() {
        if let Some(reference) = reference(*byte) {
            out.push_str(&text[from..i])?;
            out.push_str(reference)?;
            from = i + 1;
        }
    }
    out.push_str(&text[from..])?;
    Ok(())
}

/// Appends a text as it is written in an element or in the value of an attribute in quotation marks: `&`, `<`, `>`, `"`
/// and `'` as `&amp;`, `&lt;`, `&gt;`, `&quot;` and `&#39;`. Where there is no memory, `out` is as it was.
pub fn escape_html(s: &str, out: &mut String) -> Result<(), NoMemory>
    ensures ok { OnOk result (string_bytes out.new ≡ string_bytes out.old ++ escape s.now) }
    ensures err { OnErr result (string_bytes out.new ≡ string_bytes out.old) }
{
    let mut escaped = String::new(*out.allocator());
    put_escaped(s, &mut escaped)?;
    out.push_str(escaped.as_str())?;
    Ok(())
}
