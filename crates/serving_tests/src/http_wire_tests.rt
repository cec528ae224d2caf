//! Heads, cookies and answers whose meaning was found elsewhere, and each call that takes memory.
use http_wire::{
    Awaited, FIXED_ROOM, Found, HttpRequest, Method, cookie_of, full_answer, is_form_type,
    put_fixed, request_of, vouched_answer,
};
use owned_values::{Attribute, Attributes, Text, Texts};
use std::test::Fail;

fn get(path: &str) -> HttpRequest<'_> {
    HttpRequest {
        method: Method::Get,
        path,
        cookie: None,
        content_type: None,
        body: b"",
    }
}

#[test]
fn heads_are_read_or_refused(rt: HostRuntime) -> Result<(), Fail> {
    let whole = b"GET /app?x=1 HTTP/1.1\r\nHost: x\r\n\r\n";
    assert_eq!(rt; request_of(whole), Found::Whole(get("/app")));
    assert_eq!(rt; Awaited::new().look(whole), Found::Whole(get("/app")));
    assert_eq!(rt;
        request_of(b"GET /app HTTP/1.1\r\nHost: x\r\n\r"),
        Found::More
    );
    assert_eq!(rt;
        request_of(b"\r\n\r\nGET / HTTP/1.1\r\n\r\n"),
        Found::Refused(400)
    );
    assert_eq!(rt;
        request_of(b"POST /acs HTTP/1.1\r\nHost: x\r\n\r\n"),
        Found::Refused(411)
    );
    assert_eq!(rt;
        request_of(b"POST /acs HTTP/1.1\r\nContent-Length: +3\r\n\r\n"),
        Found::Refused(400)
    );
    assert_eq!(rt;
        request_of(b"POST /acs HTTP/1.1\r\nContent-Length: 0\r\ncontent-length: 0\r\n\r\n"),
        Found::Refused(400)
    );
    assert_eq!(rt;
        request_of(b"POST /acs HTTP/1.1\r\nContent-Length: 1048577\r\n\r\n"),
        Found::Refused(413)
    );
    assert_eq!(rt;
        request_of(
            b"POST /acs HTTP/1.1\r\nContent-Length: x\r\nTransfer-Encoding: chunked\r\n\r\n"
        ),
        Found::Refused(501)
    );
    let post = HttpRequest {
        method: Method::Post,
        body: b"abc",
        cookie: Some("a=1"),
        ..get("/acs")
    };
    let bytes =
        b"POST /acs HTTP/1.1\r\nCookie: a=1\r\ncookie: a=2\r\nContent-Length: 0000000003\r\n\r\nabcGET";
    assert_eq!(rt; request_of(bytes), Found::Whole(post));
    Ok(())
}

#[test]
fn answers_are_written(rt: HostRuntime) -> Result<(), Fail> {
    let moved = full_answer(rt.alloc(), 303, Some("/app"), Some("sp_sid=abc"), b"")
        .ok()
        .ok_or("no memory")?;
    let text =
        b"HTTP/1.1 303 See Other\r\nContent-Type: text/html; charset=utf-8\r\nContent-Length: 0\r\nCache-Control: no-store\r\nConnection: close\r\nLocation: /app\r\nSet-Cookie: sp_sid=abc; Path=/; HttpOnly\r\n\r\n";
    assert_eq!(rt; moved.as_slice(), text.as_slice());
    let mut out = [0; FIXED_ROOM];
    let length = put_fixed(404, &mut out);
    let text =
        b"HTTP/1.1 404 Not Found\r\nContent-Type: text/html; charset=utf-8\r\nContent-Length: 51\r\nCache-Control: no-store\r\nConnection: close\r\n\r\n<!DOCTYPE html><html><body><p>404</p></body></html>";
    assert_eq!(rt; &out[..length], text.as_slice());
    assert_eq!(rt; cookie_of("x; a=b=c;b=2 ", "a"), Some("b=c"));
    assert!(rt; is_form_type("Application/X-WWW-Form-Urlencoded\t; charset=utf-8"));
    Ok(())
}

#[test]
fn a_proxy_is_told_who_it_is(rt: HostRuntime) -> Result<(), Fail> {
    let alloc = rt.alloc();
    let mut values = Texts::new(alloc);
    values.push(Text::of(alloc, "a\r\nX: b&c=\u{e9}")?)?;
    let mut attributes = Attributes::new(alloc);
    let name = Text::of(alloc, "group 1")?;
    attributes.push(Attribute { name, values })?;
    let told = vouched_answer(alloc, "100% al\u{ef}ce\r\n", &attributes)?;
    let text =
        b"HTTP/1.1 200 OK\r\nContent-Type: text/html; charset=utf-8\r\nContent-Length: 0\r\nCache-Control: no-store\r\nConnection: close\r\nRemote-User: 100%25%20al%C3%AFce%0D%0A\r\nRemote-Attributes: group+1=a%0D%0AX%3A+b%26c%3D%C3%A9\r\n\r\n";
    assert_eq!(rt; told.as_slice(), text.as_slice());
    Ok(())
}
