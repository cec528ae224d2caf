//! Requests in the bytes that a connection brings.
ghost use Rattle.std.specs.Prelude.{◌≡◌, ℕ, ◌+◌, ◌<◌, ◌≤◌, ◌↔◌, List, ◌++◌, length, take, drop, None, Some, IsSome};
ghost use Rattle.http_wire.specs.Awaiting.{IsAwaited, KeepsHead};
ghost use Rattle.http_wire.specs.Heads.{head_end};
ghost use Rattle.http_wire.specs.Places.{parts_at, IsReadFrom};
ghost use Rattle.http_wire.specs.Requests.{Request, Reads, Whole, More, reading_behind, request_of};
ghost use Rattle.http_wire.specs.Views.{reading_view, request_view};

use crate::head::{HeadPlaces, end_of_lines, read_head};
use crate::limits::HEAD_LIMIT;
use crate::lines::text_at;
use crate::method::Method;
use crate::status::BAD_REQUEST;
use std::marker::Model;

/// A request. All texts and bytes of it are borrowed from the bytes that it was found in.
#[derive(Clone, Copy, Debug, PartialEq, Eq)]
pub struct HttpRequest<'b> {
    /// The method (RFC 9110, 9).
    pub method: Method,
    /// The target without the query, of visible characters of ASCII.
    pub path: &'b str,
    /// The first Cookie line; none where there is none, or it is no UTF-8.
    pub cookie: Option<&'b str>,
    /// The first Content-Type line; none where there is none, or it is no UTF-8.
    pub content_type: Option<&'b str>,
    /// The content, as many bytes as its Content-Length says (RFC 9112, 6.3).
    pub body: &'b [u8],
}

/// What bytes are.
#[derive(Clone, Copy, Debug, PartialEq, Eq)]
pub enum Found<'b> {
    /// A whole request. What stands behind its body is not looked at.
    Whole(HttpRequest<'b>),
    /// The beginning of a request.
    More,
    /// No request, whatever follows: the status says why.
    Refused(u16),
}

/// The request whose head was read in these places, with a body of this size behind it.
fn request_at<'b>(head: HeadPlaces, bytes: &'b [u8], size: usize) -> HttpRequest<'b>
    requires read { IsReadFrom (take head.end bytes.now) head }
    requires within { head.end + size ≤ length bytes.now }
    ensures { request_view result ≡ request_of (parts_at (take head.end bytes.now) head) (take size (drop head.end bytes.now)) }
{
    let (front, behind) = bytes.split_at(head.end);
    HttpRequest {
        method: head.method,
        path: head.path_in(front),
        cookie: text_at(front, head.cookie),
        content_type: text_at(front, head.content_type),
        body: &behind[..size],
    }
}

/// What bytes are whose head was read in these places.
fn found_at<'b>(head: HeadPlaces, bytes: &'b [u8]) -> Found<'b>
    requires ended { head.end ≤ length bytes.now }
    requires read { IsReadFrom (take head.end bytes.now) head }
    ensures { reading_view result ≡ reading_behind (parts_at (take head.end bytes.now) head) (drop head.end bytes.now) }
{
    match head.size {
        Err(status) => Found::Refused(status),
        Ok(size) if bytes.len() - head.end < size => Found::More,
        Ok(size) => Found::Whole(request_at(head, bytes, size)),
    }
}

/// What is known of the bytes that a connection has brought so far, so that bytes which were looked at are not looked at
/// again. A contract sees how many bytes were searched for the end of the head, with how many there may be more to say than
/// [`Found::More`], and where the parts of the head are once it has come. What is known of bytes stays true when others come
/// behind them.
#[derive(Debug, Drop)]
pub struct Awaited {
    searched: usize,
    wanted: usize,
    // what was read of the head, where it has come and is one
    head: Option<HeadPlaces>,
}

impl Model for Awaited {
    ghost use Rattle.http_wire.specs.Awaiting as awaiting;

    ghost Value = { awaiting.Awaited };

    ghost view = { λ a. record { searched = a.searched; wanted = a.wanted; head = a.head } };
}

impl Awaited {
    /// Nothing is known yet. It is true of all bytes.
    pub fn new() -> Awaited
        ensures { (bytes : List ℕ) → IsAwaited result bytes }
    {
        Awaited {
            searched: 0,
            wanted: 0,
            head: None,
        }
    }

    /// The number of bytes below which [`Awaited::look`] gives [`Found::More`] at once.
    pub fn wanted(&self) -> usize
        ensures { result ≡ self.now.wanted }
    {
        self.wanted
    }

    /// Reads a head that ends there, and keeps what it says.
    fn look_behind<'b>(&mut self, buffer: &'b [u8], end: usize) -> Found<'b>
        requires known { IsAwaited self.old buffer.now }
        requires ended { head_end buffer.now ≡ Some end }
        ensures reading { Reads buffer.now (reading_view result) }
        ensures awaited { IsAwaited self.new buffer.now }
        ensures more { reading_view result ≡ More → length buffer.now < self.new.wanted }
        ensures kept { KeepsHead self.new buffer.now }
    {
        let Some(head) = read_head(&buffer[..end]) else {
            return Found::Refused(BAD_REQUEST);
        };
        if let Ok(size) = head.size {
            self.wanted = end + size;
        }
        self.head = Some(head);
        found_at(head, buffer)
    }

    /// Looks for the end of a head of which nothing is kept, in what is new.
    fn look_for_head<'b>(&mut self, buffer: &'b [u8]) -> Found<'b>
        requires known { IsAwaited self.old buffer.now }
        requires none { self.old.head ≡ None }
        ensures reading { Reads buffer.now (reading_view result) }
        ensures awaited { IsAwaited self.new buffer.now }
        ensures more { reading_view result ≡ More → length buffer.now < self.new.wanted }
        ensures kept { KeepsHead self.new buffer.now }
    {
        let start = &buffer[..buffer.len().min(HEAD_LIMIT)];
        match end_of_lines(start, self.searched) {
            Some(end) => self.look_behind(buffer, end),
            None if buffer.len() < HEAD_LIMIT => {
                self.searched = buffer.len();
                self.wanted = buffer.len() + 1;
                Found::More
            }
            None => Found::Refused(BAD_REQUEST),
        }
    }

    /// What the bytes are that a connection has brought so far, as [`request_of`] gives it, where they begin with those that
    /// were looked at before. Only what is new is searched for the end of the head, and the head is read once, when it has
    /// come. It takes no memory.
    pub fn look<'b>(&mut self, buffer: &'b [u8]) -> Found<'b>
        requires { IsAwaited self.old buffer.now }
        ensures reading { Reads buffer.now (reading_view result) }
        ensures awaited { IsAwaited self.new buffer.now }
        ensures more { reading_view result ≡ More → length buffer.now < self.new.wanted }
        ensures kept { KeepsHead self.new buffer.now }

        // where the head has come, the length that is wanted is just that of the whole request
        ensures exact { Reads buffer.now More → IsSome (head_end buffer.now)
            → (more : List ℕ) → (length (buffer.now ++ more) < self.new.wanted) ↔ Reads (buffer.now ++ more) More }
    {
        if buffer.len() < self.wanted {
            return Found::More;
        }
        match self.head {
            Some(head) => found_at(head, buffer),
            None => self.look_for_head(buffer),
        }
    }

    /// The request that the bytes are, where they were looked at. It is made of what was kept of its head, which is not read
    /// again. It takes no memory.
    pub fn request<'b>(&self, buffer: &'b [u8]) -> HttpRequest<'b>
        requires known { IsAwaited self.now buffer.now }
        requires kept { KeepsHead self.now buffer.now }
        requires whole { (request : Request) × Reads buffer.now (Whole request) }
        ensures { Reads buffer.now (Whole (request_view result)) }
    {
        let Some(head) = self.head else {
            unreachable!()
        };
        match found_at(head, buffer) {
            Found::Whole(request) => request,
            _ => unreachable!(),
        }
    }
}

/// What the bytes are that a connection has brought so far: a whole request, the beginning of one, or no request. It takes
/// no memory.
///
/// A head ends with the first empty line, CR LF CR LF, which must lie in the first [`HEAD_LIMIT`] bytes. It is refused, in
/// this order, with 400 where it is not one request head of at most [`LINE_LIMIT`] lines with a target of visible ASCII,
/// with 501 where it has a Transfer-Encoding, with 400 where its Content-Length is given twice or is not of 1 to 10 digits,
/// with 411 where a POST has none, and with 413 where it is above [`BODY_LIMIT`].
pub fn request_of(buffer: &[u8]) -> Found<'_>
    ensures { Reads buffer.now (reading_view result) }
{
    let mut awaited = Awaited::new();
    awaited.look(buffer)
}
