// Bytes that are cut in two.

ghost use Rattle.std.specs.Prelude.{◌≡◌};
ghost use Rattle.std.specs.Option.{option_map};
ghost use Rattle.post_agent.specs.Cuts as spec;
ghost use Rattle.post_agent.specs.Views.{text_view, cut_view};

/// What stands behind `front`; none where the bytes do not begin with it.
pub(crate) fn behind<'b>(bytes: &'b [u8], front: &[u8]) -> Option<&'b [u8]>
    ensures { text_view result ≡ spec.behind front.now bytes.now }
{
    if bytes.starts_with(front) {
        Some(&bytes[front.len()..])
    } else {
        None
    }
}

/// What stands in front of the first such byte, and what stands behind it; none where there is no such byte.
pub(crate) fn cut(bytes: &[u8], stop: u8) -> Option<(&[u8], &[u8])>
    ensures { option_map cut_view result ≡ spec.cut stop bytes.now }
{
    for (i, byte) in bytes.iter().enumerate() {
        if *byte == stop {
            return Some((&bytes[..i], &bytes[i + 1..]));
        }
    }
    None
}

/// What stands between `front` and the next quotation mark, and what stands behind that mark.
pub(crate) fn quoted<'b>(bytes: &'b [u8], front: &[u8]) -> Option<(&'b [u8], &'b [u8])>
    ensures { option_map cut_view result ≡ spec.quoted front.now bytes.now }
{
    match behind(bytes, front) {
        Some(rest) => cut(rest, b'"'),
        None => None,
    }
}
