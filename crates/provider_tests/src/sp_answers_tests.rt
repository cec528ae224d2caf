//! What no clause says: that there is memory for each call.
ghost use Rattle.std.specs.Prelude.{IfOk};
ghost use Rattle.sp_answers.specs.Answers.{HoldsTexts};

use metadata::Peer;
use owned_values::{Attributes, Blob, NoMemory, Text};
use sp_answers::{ask_answer, denied_answer, metadata_answer, opened_answer, user_answer};
use sp_rules::SpConfig;
use std::alloc::Global;
use std::test::Fail;

fn config(alloc: Global) -> Result<SpConfig, NoMemory>
    ensures { IfOk result HoldsTexts }
{
    Ok(SpConfig {
        entity: Text::of(alloc, "r")?,
        base: Text::of(alloc, "r")?,
        listen: Text::of(alloc, "l")?,
        idp: Peer {
            entity: Text::of(alloc, "r")?,
            service: Text::of(alloc, "r")?,
            logout: None,
        },
        key_in: Blob::of(alloc, &[0x11; 32])?,
        next_in: None,
        key_out: Blob::of(alloc, &[0x22; 32])?,
        id_key: [0x44; 32],
        skew: 60_000,
    })
}

#[test]
fn there_is_memory_for_each_answer(rt: HostRuntime) -> Result<(), Fail> {
    let alloc = rt.alloc();
    let config = config(alloc)?;
    ask_answer(alloc, &config, "r", "s", 0)?;
    opened_answer(alloc, "/a", "t")?;
    user_answer(alloc, &Text::of(alloc, "a")?, &Attributes::new(alloc))?;
    denied_answer(alloc, "d")?;
    metadata_answer(alloc, &config)?;
    Ok(())
}
