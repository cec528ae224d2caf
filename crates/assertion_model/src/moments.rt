// The moments of a login, as they are written.
ghost use Rattle.std.specs.Prelude.{IfOk, IfSome};
ghost use Rattle.xml_spec.specs.Characters.{IsText};
ghost use Rattle.saml_time.specs.Instant.{TellsInFull};
ghost use Rattle.assertion_model.specs.Moments.{HasMoments, AreWritten, AllAreTexts, IsWritten, IsTextIfAny, IsMoment};

use crate::login::Login;
use owned_values::{NoMemory, Text};
use saml_time::put_instant;
use std::alloc::Global;

/// The moments of a login, as they are written.
#[derive(Drop)]
pub(crate) struct Moments {
    pub(crate) issued: Text,
    pub(crate) confirm_until: Text,
    pub(crate) not_before: Option<Text>,
    pub(crate) not_on_or_after: Option<Text>,
    pub(crate) session_until: Option<Text>,
}

/// A moment in full.
fn instant(alloc: Global, ms: u64) -> Result<Text, NoMemory>
    requires { IsMoment ms }
    ensures told { IfOk result (λ text. TellsInFull text ms) }
    ensures text { IfOk result (λ text. IsText text) }
{
    let mut bytes = [0; 24];
    put_instant(ms, &mut bytes);
    match str::from_utf8(&bytes) {
        Ok(text) => Text::of(alloc, text),
        Err(_) => unreachable!(),
    }
}

/// The same, where there is one.
fn instant_if_any(alloc: Global, ms: Option<u64>) -> Result<Option<Text>, NoMemory>
    requires { IfSome ms IsMoment }
    ensures told { IfOk result (λ text. IsWritten ms text) }
    ensures text { IfOk result (λ text. IsTextIfAny text) }
{
    match ms {
        Some(ms) => Ok(Some(instant(alloc, ms)?)),
        None => Ok(None),
    }
}

impl Moments {
    /// Those of a login.
    pub(crate) fn of(alloc: Global, login: &Login) -> Result<Moments, NoMemory>
        requires { HasMoments login.now }
        ensures written { IfOk result (AreWritten login.now) }
        ensures texts { IfOk result AllAreTexts }
    {
        Ok(Moments {
            issued: instant(alloc, login.issued)?,
            confirm_until: instant(alloc, login.confirm_until)?,
            not_before: instant_if_any(alloc, login.not_before)?,
            not_on_or_after: instant_if_any(alloc, login.not_on_or_after)?,
            session_until: instant_if_any(alloc, login.session_until)?,
        })
    }
}
