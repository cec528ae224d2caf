// An identity provider's config is read.

ghost use Rattle.std.specs.Prelude.{◌<◌, ◌≤◌, ◌*◌, ◌^◌, length, count_by, IfOk, IsTrue};
ghost use Rattle.owned_values.specs.Gives.{Gives};
ghost use Rattle.xml_spec.specs.Characters.{IsText};
ghost use Rattle.text_lines.specs.Views.{said_view};
ghost use Rattle.text_lines.specs.Lines.{number_said, SaysText};
ghost use Rattle.provider_config.specs.IdpConfig.{idp_config, config_view, IsSound, has_files, is_peer_file};
ghost use Rattle.provider_config.specs.IdpDrafts.{next_line};
ghost use Rattle.provider_config.specs.Shared.{fault_of};

use crate::config::MAX_CONFIG_LENGTH;
use crate::fault::ConfigFault;
use crate::idp_config::{IdpLines, MAX_PEERS};
use crate::idp_draft::IdpDraft;
use crate::idp_line::{IdpLine, line_of};
use crate::line::{MILLIS, MOST_SKEW};
use std::alloc::Global;
use text_lines::{Lines, Said};

/// The line that is said next.
///
/// # Errors
///
/// `Line`, exactly where it is no text, is none of a config, or has a key that was found as often as it may stand.
fn next_line(alloc: Global, draft: &IdpDraft, said: Said<'_>) -> Result<IdpLine, ConfigFault>
    requires number { number_said (said_view said) < 2 ^ 32 }
    requires text { SaysText (said_view said) }
    ensures value { Gives (λ line. line) fault_of result (next_line draft.now (said_view said.entry)) }
    ensures sound { IfOk result IsSound }
{
    match said {
        Said::Line { number, text } => match line_of(alloc, number as u32, text)? {
            Some(line) if !draft.stands(&line) => Ok(line),
            _ => Err(ConfigFault::Line(number as u32)),
        },
        Said::NoText { number } => Err(ConfigFault::Line(number as u32)),
    }
}

/// The lines of an identity provider's config.
///
/// # Errors
///
/// `Line` with the number of the first line that is no text, is none of a config, has a key that stands in a line before
/// it, or is one peer more than [`MAX_PEERS`](crate::MAX_PEERS); with 0 where no line is bad and a key is missing.
/// `NoMemory` may come in place of any answer.
pub fn read_idp_config(alloc: Global, text: &[u8]) -> Result<IdpLines, ConfigFault>
    requires { length text.now ≤ MAX_CONFIG_LENGTH }
    ensures value { Gives config_view fault_of result (idp_config text.now) }
    ensures skew { IfOk result (λ lines. lines.skew ≤ MILLIS * MOST_SKEW) }
    ensures texts { IfOk result (λ lines. IsText lines.entity × IsText lines.base × IsText lines.listen) }
    ensures files { IfOk result (λ lines. IsTrue (has_files lines.files.items)) }
    ensures few { IfOk result (λ lines. count_by is_peer_file lines.files.items ≤ MAX_PEERS) }
{
    let mut draft = IdpDraft::new(alloc);
    let mut lines = Lines::new(text);
    while let Some(said) = lines.next_said() {
        let line = next_line(alloc, &draft, said)?;
        draft.take(line)?;
    }
    match draft.complete() {
        Some(lines) => Ok(lines),
        None => Err(ConfigFault::Line(0)),
    }
}
