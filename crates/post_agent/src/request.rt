// Requests as a user agent sends them (RFC 9112, 2 to 5).

ghost use Rattle.std.specs.Prelude.{◌≡◌, ◌++◌, IfOk, OnOk};
ghost use Rattle.http_wire.specs.Answers.{field_line};
ghost use Rattle.post_agent.specs.Requests as spec;
ghost use Rattle.post_agent.specs.Views.{text_view};

use crate::site::{Site, host_of};
use form_urlencoded::Serializer;
use itoa::Buffer;
use owned_values::{Blob, NoMemory};
use std::alloc::Global;

/// Puts a field line at the end. Where there is no memory, a part of it may have been put.
fn put_line(name: &'static str, value: &[u8], out: &mut Blob) -> Result<(), NoMemory>
    ensures { OnOk result (out.new ≡ out.old ++ field_line name.now value.now) }
{
    out.push(name.as_bytes())?;
    out.push(b": ")?;
    out.push(value)?;
    out.push(b"\r\n")
}

/// Puts the line of a cookie at the end, where there is one.
fn put_cookie(cookie: Option<&str>, out: &mut Blob) -> Result<(), NoMemory>
    ensures { OnOk result (out.new ≡ out.old ++ spec.cookie_line (text_view cookie.entry)) }
{
    match cookie {
        Some(cookie) => put_line("Cookie", cookie.as_bytes(), out),
        None => Ok(()),
    }
}

/// The request line, the host and the cookie.
fn head_of(
    alloc: Global,
    method: &'static str,
    site: Site,
    cookie: Option<&str>,
    path: &[u8],
) -> Result<Blob, NoMemory>
    ensures { IfOk result (λ head. head ≡ spec.head_of method.now site (text_view cookie.entry) path.now) }
{
    let mut head = Blob::of(alloc, method.as_bytes())?;
    head.push(b" ")?;
    head.push(path)?;
    head.push(b" HTTP/1.1\r\n")?;
    put_line("Host", host_of(site).as_bytes(), &mut head)?;
    put_cookie(cookie, &mut head)?;
    Ok(head)
}

/// A GET of a path.
pub(crate) fn get(
    alloc: Global,
    site: Site,
    cookie: Option<&str>,
    path: &[u8],
) -> Result<Blob, NoMemory>
    ensures { IfOk result (λ bytes. bytes ≡ spec.get site (text_view cookie.entry) path.now) }
{
    let mut request = head_of(alloc, "GET", site, cookie, path)?;
    request.push(b"\r\n")?;
    Ok(request)
}

/// A POST of a form.
pub(crate) fn post(
    alloc: Global,
    site: Site,
    cookie: Option<&str>,
    path: &[u8],
    form: &[u8],
) -> Result<Blob, NoMemory>
    ensures { IfOk result (λ bytes. bytes ≡ spec.post site (text_view cookie.entry) path.now form.now) }
{
    let mut size = Buffer::new();
    let mut request = head_of(alloc, "POST", site, cookie, path)?;
    put_line(
        "Content-Type",
        b"application/x-www-form-urlencoded",
        &mut request,
    )?;
    put_line(
        "Content-Length",
        size.format(form.len()).as_bytes(),
        &mut request,
    )?;
    request.push(b"\r\n")?;
    request.push(form)?;
    Ok(request)
}

/// The form of a login page, filled in.
pub(crate) fn login_form(
    alloc: Global,
    pending: &str,
    user: &str,
    password: &str,
) -> Result<Blob, NoMemory>
    ensures { IfOk result (λ form. form ≡ spec.login_form pending.now user.now password.now) }
{
    let mut form = Serializer::new(String::new(alloc));
    form.append_pair("pending", pending)?;
    form.append_pair("user", user)?;
    form.append_pair("password", password)?;
    Blob::of(alloc, form.finish().as_bytes())
}
