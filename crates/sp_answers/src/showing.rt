//! What a user is shown, and where a user is sent.
ghost use Rattle.std.specs.Prelude.{◌≡◌, IfOk, IsTrue};
ghost use Rattle.http_wire.specs.Answers.{is_one_line};
ghost use Rattle.sp_answers.specs.Answers as spec;

use crate::asking::OK;
use access_policy::denied_page;
use http_wire::full_answer;
use metadata::{Role, put_metadata};
use owned_values::{Attributes, Blob, NoMemory, Text};
use post_binding::user_page;
use sp_rules::SpConfig;
use std::alloc::Global;

/// Whether no line ends in a text.
fn is_one_line(text: &str) -> bool
    ensures { result ≡ is_one_line text.now }
{
    text.bytes().all(|byte| byte != b'\r' && byte != b'\n')
}

/// The answer that shows a user who is logged in, with each value of each attribute.
pub fn user_answer(alloc: Global, name: &Text, attributes: &Attributes) -> Result<Blob, NoMemory>
    ensures { IfOk result (λ bytes. bytes ≡ spec.user_answer name.now attributes.now) }
{
    let page = user_page(alloc, name, attributes)?;
    full_answer(alloc, OK, None, None, page.as_slice())
}

/// The answer that names the rule which denied a page.
pub fn denied_answer(alloc: Global, rule: &str) -> Result<Blob, NoMemory>
    ensures { IfOk result (λ bytes. bytes ≡ spec.denied_answer rule.now) }
{
    let page = denied_page(alloc, rule)?;
    full_answer(alloc, 403, None, None, page.as_slice())
}

/// The answer that sends a user to the target of a request, with the cookie of the session that was opened. Where the target
/// holds the end of a line, the user is sent to `/app`.
pub fn opened_answer(alloc: Global, target: &str, token: &str) -> Result<Blob, NoMemory>
    requires { IsTrue (is_one_line token.now) }
    ensures { IfOk result (λ bytes. bytes ≡ spec.opened_answer target.now token.now) }
{
    let location = if is_one_line(target) { target } else { "/app" };
    let mut cookie = Text::of(alloc, "sp_sid=")?;
    cookie.push(token)?;
    full_answer(alloc, 303, Some(location), Some(cookie.as_str()), b"")
}

/// The answer that shows the metadata of the provider (SAML Metadata, 2.4.4).
pub fn metadata_answer(alloc: Global, config: &SpConfig) -> Result<Blob, NoMemory>
    requires { spec.HoldsTexts config.now }
    ensures { IfOk result (λ bytes. bytes ≡ spec.metadata_answer config.now) }
{
    let bytes = put_metadata(
        alloc,
        Role::Sp,
        config.entity.as_str(),
        config.base.as_str(),
    )?;
    full_answer(alloc, OK, None, None, bytes.as_slice())
}
