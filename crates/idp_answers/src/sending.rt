//! How a Response is sent.
ghost use Rattle.std.specs.Prelude.{◌≡◌, IfOk, None, IsTrue};
ghost use Rattle.std.specs.Option.{option_map, ForSome};
ghost use Rattle.element_make.specs.Made.{IsMade};
ghost use Rattle.http_wire.specs.Answers.{answer, is_one_line};
ghost use Rattle.idp_answers.specs.Answers as spec;

use element_make::Made;
use http_wire::full_answer;
use owned_values::{Blob, NoMemory, Text};
use post_binding::{Field, auto_form};
use std::alloc::Global;

/// The status of a page.
pub(crate) const OK: u16 = 200;

/// The form that sends a Response on to the consumer, with the relay where there is one (SAML Bindings, 3.5.4).
pub(crate) fn response_form(
    alloc: Global,
    sent: Made,
    consumer: &str,
    relay: Option<&str>,
) -> Result<Blob, NoMemory>
    ensures page { IfOk result (λ page. page ≡ spec.response_form sent consumer.now (option_map (λ text. text.now) relay.entry)) }
    ensures made { IsMade sent }
{
    let message = sent.written(alloc)?;
    auto_form(alloc, consumer, Field::Response, message.as_slice(), relay)
}

/// The cookie of a session.
fn session_cookie(alloc: Global, token: &str) -> Result<Text, NoMemory>
    ensures { IfOk result (λ cookie. cookie ≡ spec.session_cookie token.now) }
{
    let mut cookie = Text::of(alloc, "idp_sid=")?;
    cookie.push(token)?;
    Ok(cookie)
}

/// The answer with this page, which sets the cookie of a session where one is given.
pub(crate) fn page_answer(
    alloc: Global,
    page: &[u8],
    cookie: Option<&str>,
) -> Result<Blob, NoMemory>
    requires { ForSome cookie (λ token. IsTrue (is_one_line token.now)) }
    ensures { IfOk result (λ bytes. bytes ≡ answer 200 None (option_map spec.session_cookie (option_map (λ text. text.now) cookie.entry)) page.now) }
{
    match cookie {
        None => full_answer(alloc, OK, None, None, page),
        Some(token) => {
            let cookie = session_cookie(alloc, token)?;
            full_answer(alloc, OK, None, Some(cookie.as_str()), page)
        }
    }
}
