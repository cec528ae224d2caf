// The head of a request (RFC 9112, 2 to 5).

ghost use Rattle.std.specs.Prelude.{◌≡◌, take, map, length, false, true, All, MatchOption, IfSome, None};
ghost use Rattle.std.specs.List.{list_all};
ghost use Rattle.std.specs.Char.{is_ascii_graphic};
ghost use Rattle.httparse.specs.Grammar.{RequestHead};
ghost use Rattle.httparse.specs.Spans.{IsWithin, IsHeaderWithin, span_bytes, header_bytes};
ghost use Rattle.http_wire.specs.Heads.{end_of_lines, IsHead, path_of, parts_by};
ghost use Rattle.http_wire.specs.Places.{parts_at, AreWithin, IsReadFrom};

use crate::cut::before_first;
use crate::limits::LINE_LIMIT;
use crate::lines::{size_of, values_of};
use crate::method::{Method, method_of};
use httparse::Status;
use httparse::spans::{EMPTY_HEADER_SPAN, HeaderSpan, Span, parse_request};

// The end of a line, and an empty line.
const EMPTY_LINE: &[u8] = b"\r\n\r\n";

/// What is read of a head, as places in its bytes. They are kept while the bytes move, and the head is not read again.
#[derive(Clone, Copy, Debug)]
pub(crate) struct HeadPlaces {
    pub(crate) method: Method,
    /// The target without the query.
    pub(crate) path: Span,
    /// The value of the first Cookie line, a text or not.
    pub(crate) cookie: Option<Span>,
    /// The value of the first Content-Type line, a text or not.
    pub(crate) content_type: Option<Span>,
    /// The size of the body in bytes, or the status that refuses it.
    pub(crate) size: Result<usize, u16>,
    /// Where the head ends, and its body begins.
    pub(crate) end: usize,
}

/// The place behind the first CR LF CR LF. None ends in the first `searched` bytes, so these are not looked through again.
pub(crate) fn end_of_lines(bytes: &[u8], searched: usize) -> Option<usize>
    requires { end_of_lines (take searched bytes.now) ≡ None }
    ensures { result ≡ end_of_lines bytes.now }
{
    let start = searched.saturating_sub(EMPTY_LINE.len() - 1);
    for i in start..bytes.len() {
        if bytes[i..].starts_with(EMPTY_LINE) {
            return Some(i + EMPTY_LINE.len());
        }
    }
    None
}

/// Whether each byte is a visible character of ASCII.
fn is_visible(target: &[u8]) -> bool
    ensures { result ≡ list_all is_ascii_graphic target.now }
{
    target.iter().all(|byte| byte.is_ascii_graphic())
}

/// The place of the path of a target; none where a byte of it is not a visible character of ASCII.
fn path_at(bytes: &[u8], target: Span) -> Option<Span>
    requires { IsWithin (length bytes.now) target }
    ensures visible { MatchOption result (list_all is_ascii_graphic (span_bytes bytes.now target) ≡ false)
        (λ path. list_all is_ascii_graphic (span_bytes bytes.now target) ≡ true) }
    ensures path { IfSome result (λ path. span_bytes bytes.now path ≡ path_of (span_bytes bytes.now target)) }
    ensures within { IfSome result (IsWithin (length bytes.now)) }
{
    let text = target.of(bytes);
    if !is_visible(text) {
        return None;
    }
    let path = before_first(text, b'?');
    Some(Span {
        start: target.start,
        end: target.start + path.len(),
    })
}

/// What is read of the head that the bytes are, with this method, this path and these lines.
fn places_by(bytes: &[u8], method: &[u8], path: Span, lines: &[HeaderSpan]) -> HeadPlaces
    requires path { IsWithin (length bytes.now) path }
    requires lines { All (IsHeaderWithin (length bytes.now)) lines.now }
    ensures parts { parts_at bytes.now result ≡ parts_by method.now (span_bytes bytes.now path) (map (header_bytes bytes.now) lines.now) }
    ensures within { AreWithin (length bytes.now) result }
    ensures end { result.end ≡ length bytes.now }
{
    let method = method_of(method);
    let codings = values_of(bytes, lines, "transfer-encoding");
    let lengths = values_of(bytes, lines, "content-length");
    HeadPlaces {
        method,
        path,
        cookie: values_of(bytes, lines, "cookie").first,
        content_type: values_of(bytes, lines, "content-type").first,
        size: size_of(bytes, method, codings, lengths),
        end: bytes.len(),
    }
}

/// What is read of the head that the bytes are; none where they are none, or more than one.
pub(crate) fn read_head(bytes: &[u8]) -> Option<HeadPlaces>
    ensures { MatchOption result ((head : RequestHead) → ¬ (IsHead bytes.now head)) (IsReadFrom bytes.now) }
{
    let mut lines = [EMPTY_HEADER_SPAN; LINE_LIMIT];
    let Ok(Status::Complete(head)) = parse_request(bytes, &mut lines) else {
        return None;
    };
    if head.len != bytes.len() {
        return None;
    }
    let path = path_at(bytes, head.path)?;
    Some(places_by(bytes, head.method.of(bytes), path, &lines[..head.headers]))
}

impl HeadPlaces {
    /// The path, in the bytes of the head.
    pub(crate) fn path_in<'b>(&self, head: &'b [u8]) -> &'b str
        requires { IsReadFrom head.now self.now }
        ensures { result.now ≡ span_bytes head.now self.now.path }
    {
        match str::from_utf8(self.path.of(head)) {
            Ok(path) => path,
            Err(_) => unreachable!(),
        }
    }
}
