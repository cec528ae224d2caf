//! What no clause says: that there is memory for each call.
ghost use Rattle.std.specs.Prelude.{◌≢◌, [], IfOk};
ghost use Rattle.assertion_model.specs.Assertion.{CanBeMade};

use assertion_model::{Audiences, Login};
use idp_answers::{issued_answer, login_answer, metadata_answer, no_passive_answer};
use owned_values::{Attributes, NoMemory, Text};
use provider_config::SignMode;
use std::alloc::Global;
use std::test::Fail;

fn login(alloc: Global) -> Result<Login, NoMemory>
    ensures made { IfOk result CanBeMade }
    ensures named { IfOk result (λ login. login.id ≢ []) }
{
    Ok(Login {
        id: Text::of(alloc, "r")?,
        issuer: Text::of(alloc, "r")?,
        issued: 0,
        audiences: Audiences::new(alloc),
        recipient: Text::of(alloc, "r")?,
        request: Text::of(alloc, "r")?,
        confirm_until: 0,
        not_before: None,
        not_on_or_after: None,
        name: Text::of(alloc, "r")?,
        index: None,
        session_until: None,
        attributes: Attributes::new(alloc),
    })
}

#[test]
fn there_is_memory_for_each_answer(rt: HostRuntime) -> Result<(), Fail> {
    let alloc = rt.alloc();
    let login = login(alloc)?;
    login_answer(alloc, "p")?;
    issued_answer(
        alloc,
        SignMode::Both,
        &[0x22; 32],
        &login,
        "r",
        "r",
        Some("s"),
        Some("t"),
        0,
    )?;
    no_passive_answer(alloc, "r", "r", "r", "r", None, 0)?;
    metadata_answer(alloc, "r", "r")?;
    Ok(())
}
