// The page that a body is.

ghost use Rattle.std.specs.Prelude.{◌≡◌, find, IfOk};
ghost use Rattle.std.specs.List.{flat_map};
ghost use Rattle.std.specs.Str.{bytes_eq};
ghost use Rattle.post_agent.specs.Reading as spec;

use crate::cut::behind;
use crate::form::{form_in, login_in};
use crate::seen::Page;
use itoa::Buffer;
use owned_values::NoMemory;
use std::alloc::Global;
use verdict_codes::{VERDICTS, Verdict};

/// Whether the bytes are these pieces, one after the other.
fn is_made_of(bytes: &[u8], pieces: &[&str]) -> bool
    ensures { result ≡ bytes_eq bytes.now (flat_map (λ piece. piece.now) pieces.now) }
{
    let mut rest = bytes;
    for piece in pieces {
        match behind(rest, piece.as_bytes()) {
            Some(others) => rest = others,
            None => return false,
        }
    }
    rest.is_empty()
}

/// Whether the page is that of this verdict.
fn is_refusal(page: &[u8], verdict: Verdict) -> bool
    ensures { result ≡ spec.is_refusal page.now verdict }
{
    let mut digits = Buffer::new();
    let pieces = [
        "<!DOCTYPE html><html><body><p>Refused: ",
        digits.format(verdict.number()),
        " ",
        verdict.name(),
        "</p></body></html>",
    ];
    is_made_of(page, &pieces)
}

/// The first of these verdicts whose page it is.
fn verdict_among(page: &[u8], verdicts: &[Verdict]) -> Option<Verdict>
    ensures { result ≡ find (spec.is_refusal page.now) verdicts.now }
{
    verdicts
        .iter()
        .copied()
        .find(|verdict| is_refusal(page, *verdict))
}

/// The number of the verdict whose page it is.
fn code_in(page: &[u8]) -> Option<u16>
    ensures { result ≡ spec.code_in page.now }
{
    match verdict_among(page, &VERDICTS) {
        Some(verdict) => Some(verdict.number()),
        None => None,
    }
}

/// Whether the page is that of this status.
fn is_status(status: u16, page: &[u8]) -> bool
    ensures { result ≡ spec.is_status status page.now }
{
    let mut digits = Buffer::new();
    let pieces = [
        "<!DOCTYPE html><html><body><p>",
        digits.format(status),
        "</p></body></html>",
    ];
    is_made_of(page, &pieces)
}

/// Whether the page says how a logout ended.
fn is_end(page: &[u8]) -> bool
    ensures { result ≡ spec.is_end page.now }
{
    page == b"<!DOCTYPE html><html><body><p>Logged out: PartialLogout</p></body></html>".as_slice()
        || page == b"<!DOCTYPE html><html><body><p>Logged out: Success</p></body></html>".as_slice()
}

/// The page that a body is which is neither a form nor a login page.
fn other_page(status: u16, page: &[u8]) -> Page
    ensures { result ≡ spec.other_page status page.now }
{
    if is_end(page) {
        return Page::End;
    }
    match code_in(page) {
        Some(code) => Page::Code(code),
        None if is_status(status, page) => Page::Status,
        None => Page::Other,
    }
}

/// The page that the body of an answer is.
pub(crate) fn page_of(alloc: Global, status: u16, body: &[u8]) -> Result<Page, NoMemory>
    ensures { IfOk result (λ page. page ≡ spec.page_of status body.now) }
{
    if let Some(form) = form_in(alloc, body)? {
        return Ok(Page::Form(form));
    }
    match login_in(alloc, body)? {
        Some(pending) => Ok(Page::Login(pending)),
        None => Ok(other_page(status, body)),
    }
}
