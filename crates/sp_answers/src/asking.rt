//! How a login is asked for.
ghost use Rattle.std.specs.Prelude.{◌≢◌, ◌≤◌, [], IfOk};
ghost use Rattle.xml_spec.specs.Characters.{IsText};
ghost use Rattle.sp_answers.specs.Answers.{HoldsTexts, IsAskAnswer};

use element_make::Made;
use http_wire::full_answer;
use owned_values::{Blob, NoMemory};
use post_binding::{Field, auto_form};
use protocol_messages::make_authn;
use saml_time::LAST;
use sig_reference::sign;
use sp_rules::{SpConfig, consumer_address};
use std::alloc::Global;

/// The status of a page.
pub(crate) const OK: u16 = 200;

/// The answer that asks the identity provider for a login, by a form that sends on a signed AuthnRequest of this ID, issued at
/// `now`, with its relay state (SAML Profiles, 4.1.4.1; SAML Bindings, 3.5.4).
pub fn ask_answer(
    alloc: Global,
    config: &SpConfig,
    id: &str,
    relay: &str,
    now: u64,
) -> Result<Blob, NoMemory>
    requires config { HoldsTexts config.now }
    requires id { IsText id.now }
    requires named { id.now ≢ [] }
    requires now { now ≤ LAST }
    ensures { IfOk result (λ bytes. IsAskAnswer config.now id.now relay.now now bytes) }
{
    let service = config.idp.service.as_str();
    let consumer = consumer_address(alloc, config)?;
    let made = make_authn(
        alloc,
        id,
        config.entity.as_str(),
        service,
        consumer.as_str(),
        now,
    )?;
    let signed = sign(alloc, made, config.key_out.as_slice())?;
    let message = signed.written(alloc)?;
    let page = auto_form(
        alloc,
        service,
        Field::Request,
        message.as_slice(),
        Some(relay),
    )?;
    full_answer(alloc, OK, None, None, page.as_slice())
}
