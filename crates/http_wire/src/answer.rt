//! Answers as bytes (RFC 9112, 2 to 5).
ghost use Rattle.std.specs.Prelude.{◌≡◌, ◌++◌, [], IfOk, OnOk, IsTrue, unwrap_or};
ghost use Rattle.std.specs.List.{flat_map};
ghost use Rattle.std.specs.Option.{option_map, option_map_or, ForSome};
ghost use Rattle.http.specs.StatusCode.{IsStatusCode, reason_phrase};
ghost use Rattle.http_wire.specs.Answers.{answer, is_page_status, is_one_line, page_lines, status_line};

use crate::status::{FORBIDDEN, OK, SEE_OTHER};
use http::StatusCode;
use itoa::Buffer;
use owned_values::{Blob, NoMemory};
use std::alloc::Global;

// The statuses of answers with a body of their own.
const PAGE_STATUSES: [u16; 3] = [OK, SEE_OTHER, FORBIDDEN];

// What stands in front of the status.
pub(crate) const VERSION: &str = "HTTP/1.1 ";

// What stands between the phrase of the status and the size of the body.
pub(crate) const LINES_TO_SIZE: &str =
    "\r\nContent-Type: text/html; charset=utf-8\r\nContent-Length: ";

// What stands behind the size of the body.
pub(crate) const LINES_FROM_SIZE: &str = "\r\nCache-Control: no-store\r\nConnection: close\r\n";

/// An answer.
#[derive(Debug, Drop)]
pub enum Answer {
    /// The one that [`put_fixed`](crate::put_fixed) writes for this code.
    Fixed(u16),
    /// All its bytes, as [`full_answer`] makes them.
    Full(Blob),
}

/// The canonical phrase of a status (RFC 9110, 15); empty where it has none.
pub fn phrase(status: u16) -> &'static str
    requires { IsStatusCode status }
    ensures { result.now ≡ unwrap_or (reason_phrase status) [] }
{
    match StatusCode::from_u16(status).unwrap().canonical_reason() {
        Some(phrase) => phrase,
        None => "",
    }
}

/// Puts the pieces at the end, one after the other. Where there is no memory, a part of them may have been put.
fn put_pieces(pieces: &[&str], out: &mut Blob) -> Result<(), NoMemory>
    ensures { OnOk result (out.new ≡ out.old ++ flat_map (λ piece. piece.now) pieces.now) }
{
    for piece in pieces {
        out.push(piece.as_bytes())?;
    }
    Ok(())
}

/// Puts the line of a field, where it has a value.
fn put_line(
    name: &'static str,
    value: Option<&str>,
    end: &'static str,
    out: &mut Blob,
) -> Result<(), NoMemory>
    ensures { OnOk result (out.new ≡ out.old ++ option_map_or (λ text. name.now ++ text.now ++ end.now) value.entry []) }
{
    match value {
        Some(value) => put_pieces(&[name, value, end], out),
        None => Ok(()),
    }
}

/// Puts the status line, and the lines of each answer whose body has this size.
pub(crate) fn put_head(status: u16, size: usize, out: &mut Blob) -> Result<(), NoMemory>
    requires { IsStatusCode status }
    ensures { OnOk result (out.new ≡ out.old ++ status_line status ++ page_lines size) }
{
    let mut status_digits = Buffer::new();
    let mut size_digits = Buffer::new();
    let pieces = [
        VERSION,
        status_digits.format(status),
        " ",
        phrase(status),
        LINES_TO_SIZE,
        size_digits.format(size),
        LINES_FROM_SIZE,
    ];
    put_pieces(&pieces, out)?;
    Ok(())
}

/// All bytes of an answer with this status, which goes on at `location` and sets `cookie`, as `NAME=TOKEN`, where they are
/// given: a page of HTML that no one keeps, on a connection that it ends. Neither text holds CR or LF.
pub fn full_answer(
    alloc: Global,
    status: u16,
    location: Option<&str>,
    cookie: Option<&str>,
    body: &[u8],
) -> Result<Blob, NoMemory>
    requires status { IsTrue (is_page_status status) }
    requires location { ForSome location (λ text. IsTrue (is_one_line text.now)) }
    requires cookie { ForSome cookie (λ text. IsTrue (is_one_line text.now)) }
    ensures { IfOk result (λ bytes. bytes ≡ answer status (option_map (λ text. text.now) location.entry) (option_map (λ text. text.now) cookie.entry) body.now) }
{
    let mut answer = Blob::new(alloc);
    put_head(status, body.len(), &mut answer)?;
    put_line("Location: ", location, "\r\n", &mut answer)?;
    put_line(
        "Set-Cookie: ",
        cookie,
        "; Path=/; HttpOnly\r\n",
        &mut answer,
    )?;
    answer.push(b"\r\n")?;
    answer.push(body)?;
    Ok(answer)
}
