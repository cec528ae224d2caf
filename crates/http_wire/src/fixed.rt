//! Answers without a choice: the pages of verdicts and of statuses.
ghost use Rattle.std.specs.Prelude.{◌≡◌, ◌≤◌, ◌==◌, ◌++◌, None, length, drop, decimal, find, IsTrue};
ghost use Rattle.std.specs.List.{flat_map};
ghost use Rattle.http.specs.StatusCode.{IsStatusCode};
ghost use Rattle.verdict_codes.specs.Codes.{number_of};
ghost use Rattle.http_wire.specs.Answers.{answer, page, status_of, verdict_of, is_fixed, fixed};

use crate::answer::{LINES_FROM_SIZE, LINES_TO_SIZE, VERSION, phrase};
use crate::status::{
    BAD_REQUEST, FORBIDDEN, LENGTH_REQUIRED, METHOD_NOT_ALLOWED, NOT_FOUND, NOT_IMPLEMENTED,
    PAYLOAD_TOO_LARGE, SERVICE_UNAVAILABLE, UNAUTHORIZED, UNSUPPORTED_MEDIA_TYPE,
};
use itoa::Buffer;
use verdict_codes::{VERDICTS, Verdict};

/// The room for an answer that [`put_fixed`] writes, in bytes.
pub const FIXED_ROOM: usize = 512;

// The statuses that are answered alone.
const FIXED_STATUSES: [u16; 9] = [
    BAD_REQUEST,
    UNAUTHORIZED,
    NOT_FOUND,
    METHOD_NOT_ALLOWED,
    LENGTH_REQUIRED,
    PAYLOAD_TOO_LARGE,
    UNSUPPORTED_MEDIA_TYPE,
    NOT_IMPLEMENTED,
    SERVICE_UNAVAILABLE,
];

// How a page begins and ends.
const PAGE_HEAD: &str = "<!DOCTYPE html><html><body><p>";

const PAGE_TAIL: &str = "</p></body></html>";

/// The first of these verdicts that has this number.
fn verdict_in(verdicts: &[Verdict], code: u16) -> Option<Verdict>
    ensures { result ≡ find (λ verdict. number_of verdict == code) verdicts.now }
{
    for verdict in verdicts {
        if verdict.number() == code {
            return Some(*verdict);
        }
    }
    None
}

/// The verdict of this number.
fn verdict_of(code: u16) -> Option<Verdict>
    ensures { result ≡ verdict_of code }
{
    verdict_in(&VERDICTS, code)
}

/// The status that a verdict is answered with.
fn status_of(verdict: Verdict) -> u16
    ensures { result ≡ status_of verdict }
{
    match verdict {
        Verdict::DiskFault | Verdict::Full | Verdict::NoMemory | Verdict::Foreign => {
            SERVICE_UNAVAILABLE
        }
        _ => FORBIDDEN,
    }
}

/// Writes the pieces, one after the other, to the front, and returns their length.
fn put_pieces(pieces: &[&str], out: &mut [u8]) -> usize
    requires { length (flat_map (λ piece. piece.now) pieces.now) ≤ length out.old }
    ensures text { out.new ≡ flat_map (λ piece. piece.now) pieces.now ++ drop result out.old }
    ensures length { result ≡ length (flat_map (λ piece. piece.now) pieces.now) }
    ensures within { result ≤ length out.old }
{
    let mut at = 0;
    for piece in pieces {
        let end = at + piece.len();
        out[at..end].copy_from_slice(piece.as_bytes());
        at = end;
    }
    at
}

/// Writes the answer of a page whose one paragraph is `label`, a number, `space` and `name`.
fn put_page(
    status: u16,
    label: &'static str,
    number: u16,
    space: &'static str,
    name: &'static str,
    out: &mut [u8],
) -> usize
    requires status { IsStatusCode status }
    requires fits { length (answer status None None (page (label.now ++ decimal number ++ space.now ++ name.now))) ≤ length out.old }
    ensures text { out.new ≡ answer status None None (page (label.now ++ decimal number ++ space.now ++ name.now)) ++ drop result out.old }
    ensures length { result ≡ length (answer status None None (page (label.now ++ decimal number ++ space.now ++ name.now))) }
    ensures within { result ≤ length out.old }
{
    let mut status_digits = Buffer::new();
    let mut number_digits = Buffer::new();
    let mut size_digits = Buffer::new();
    let number = number_digits.format(number);
    let size = PAGE_HEAD.len()
        + label.len()
        + number.len()
        + space.len()
        + name.len()
        + PAGE_TAIL.len();
    let pieces = [
        VERSION,
        status_digits.format(status),
        " ",
        phrase(status),
        LINES_TO_SIZE,
        size_digits.format(size),
        LINES_FROM_SIZE,
        "\r\n",
        PAGE_HEAD,
        label,
        number,
        space,
        name,
        PAGE_TAIL,
    ];
    put_pieces(&pieces, out)
}

/// Writes the whole answer for the number of a verdict, or for a status that is answered alone (400, 401, 404, 405, 411,
/// 413, 415, 501 and 503), to the front of `out`, and returns its length. What stands behind it is left. It takes no memory.
pub fn put_fixed(code: u16, out: &mut [u8; FIXED_ROOM]) -> usize
    requires { IsTrue (is_fixed code) }
    ensures text { out.new ≡ fixed code ++ drop result out.old }
    ensures length { result ≡ length (fixed code) }
    ensures within { result ≤ FIXED_ROOM }
{
    match verdict_of(code) {
        Some(verdict) => put_page(
            status_of(verdict),
            "Refused: ",
            code,
            " ",
            verdict.name(),
            out,
        ),
        None => put_page(code, "", code, "", "", out),
    }
}
