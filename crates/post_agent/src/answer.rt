// Answers are read (RFC 9112, 2 to 5).

ghost use Rattle.std.specs.Prelude.{◌≡◌, IfSome};
ghost use Rattle.std.specs.Option.{option_map};
ghost use Rattle.http.specs.StatusCode.{IsStatusCode};
ghost use Rattle.http_wire.specs.Answers.{is_one_line};
ghost use Rattle.post_agent.specs.Reading as spec;
ghost use Rattle.post_agent.specs.Views.{text_view, cut_view, field_view, answer_view};

use crate::cut::{behind, cut};
use http::StatusCode;
use http_wire::phrase;
use itoa::Buffer;

/// The parts of an answer.
#[derive(Clone, Copy)]
pub(crate) struct Answer<'b> {
    pub(crate) status: u16,
    pub(crate) location: Option<&'b str>,
    pub(crate) cookie: Option<&'b str>,
    pub(crate) body: &'b [u8],
}

/// The status that three digits at the front write, and what stands behind them.
fn status_in(bytes: &[u8]) -> Option<(u16, &[u8])>
    ensures value { option_map (λ found. (found.0, found.1.now)) result ≡ spec.status_in bytes.now }
    ensures valid { IfSome result (λ found. IsStatusCode found.0) }
{
    if bytes.len() < 3 {
        return None;
    }
    match StatusCode::from_bytes(&bytes[..3]) {
        Ok(status) => Some((status.as_u16(), &bytes[3..])),
        Err(_) => None,
    }
}

/// The status of an answer, and what stands behind its phrase.
fn status_line(bytes: &[u8]) -> Option<(u16, &[u8])>
    ensures { option_map (λ found. (found.0, found.1.now)) result ≡ spec.status_line bytes.now }
{
    let rest = behind(bytes, b"HTTP/1.1 ")?;
    let (status, rest) = status_in(rest)?;
    let rest = behind(rest, b" ")?;
    let rest = behind(rest, phrase(status).as_bytes())?;
    Some((status, rest))
}

/// The size that an answer says, and what stands behind the lines that each answer has.
fn page_lines(bytes: &[u8]) -> Option<(&[u8], &[u8])>
    ensures { option_map cut_view result ≡ spec.page_lines bytes.now }
{
    let rest = behind(
        bytes,
        b"\r\nContent-Type: text/html; charset=utf-8\r\nContent-Length: ",
    )?;
    let (size, rest) = cut(rest, b'\r')?;
    let rest = behind(rest, b"\nCache-Control: no-store\r\nConnection: close\r\n")?;
    Some((size, rest))
}

/// Whether neither CR nor LF stands in the value.
fn is_one_line(value: &[u8]) -> bool
    ensures { result ≡ is_one_line value.now }
{
    value.iter().all(|byte| *byte != b'\r' && *byte != b'\n')
}

/// The value that ends so, without its end, where it is a text of one line.
fn value_in<'b>(line: &'b [u8], end: &[u8]) -> Option<&'b str>
    ensures { text_view result ≡ spec.value_in line.now end.now }
{
    if !line.ends_with(end) {
        return None;
    }
    let value = &line[..line.len() - end.len()];
    if !is_one_line(value) {
        return None;
    }
    match str::from_utf8(value) {
        Ok(value) => Some(value),
        Err(_) => None,
    }
}

/// The value of a line behind its name, and what stands behind the line.
fn field_in<'b>(bytes: &'b [u8], end: &[u8]) -> Option<(&'b str, &'b [u8])>
    ensures { option_map cut_view result ≡ spec.field_in bytes.now end.now }
{
    let (line, rest) = cut(bytes, b'\r')?;
    let value = value_in(line, end)?;
    let rest = behind(rest, b"\n")?;
    Some((value, rest))
}

/// The value of the next line where it has this name, else none, and what stands behind.
fn next_field<'b>(bytes: &'b [u8], name: &[u8], end: &[u8]) -> Option<(Option<&'b str>, &'b [u8])>
    ensures { option_map field_view result ≡ spec.next_field bytes.now name.now end.now }
{
    match behind(bytes, name) {
        None => Some((None, bytes)),
        Some(rest) => {
            let (value, rest) = field_in(rest, end)?;
            Some((Some(value), rest))
        }
    }
}

/// Whether the digits are those of the size of a body.
fn is_size(digits: &[u8], body: &[u8]) -> bool
    ensures { result ≡ spec.is_size digits.now body.now }
{
    let mut size = Buffer::new();
    digits == size.format(body.len()).as_bytes()
}

/// The parts of the answer that the bytes are.
pub(crate) fn answer_of(bytes: &[u8]) -> Option<Answer<'_>>
    ensures { option_map answer_view result ≡ spec.answer_of bytes.now }
{
    let (status, rest) = status_line(bytes)?;
    let (size, rest) = page_lines(rest)?;
    let (location, rest) = next_field(rest, b"Location: ", b"")?;
    let (cookie, rest) = next_field(rest, b"Set-Cookie: ", b"; Path=/; HttpOnly")?;
    let body = behind(rest, b"\r\n")?;
    if !is_size(size, body) {
        return None;
    }
    Some(Answer {
        status,
        location,
        cookie,
        body,
    })
}
