// The commands, and the words that ask for them.

ghost use Rattle.std.specs.Prelude.{◌≡◌, ◌≤◌, IfSome};
ghost use Rattle.std.specs.Option.{option_map, option_and_then};
ghost use Rattle.text_lines.specs.Numbers.{number_of};
ghost use Rattle.saml_commands.specs.Running.{Check, Make, Records, Serve, of_one, of_two, of_three, command_of, positive, role_of};
ghost use Rattle.saml_commands.specs.Views.{command_view, HasMoment};

use crate::limits::{MOST_EVENTS, MOST_START};
use saml_outside::Text;
use saml_time::LAST;
use schedules::MOST_LOGINS;
use text_lines::{number_of, positive};

/// As what a provider serves, or whose records are printed.
#[derive(Clone, Copy, Debug, PartialEq, Eq)]
pub(crate) enum Role {
    /// A service provider.
    Sp,
    /// An identity provider.
    Idp,
    /// A hub.
    Hub,
}

/// What the program is asked for.
#[derive(Clone, Copy, Debug)]
pub(crate) enum Command<'w> {
    /// The canonical form of the element of a file that has this ID, or of the root.
    Canon {
        file: &'w str,
        id: Option<&'w str>,
    },
    /// Whether the element of a file that has this ID is vouched for with the key in another file.
    Vouch {
        file: &'w str,
        id: &'w str,
        key_file: &'w str,
    },
    /// What a provider with this config says at this moment, in milliseconds since 1970-01-01T00:00:00Z, to the form in
    /// another file.
    Check {
        config: &'w str,
        body: &'w str,
        now: u64,
    },
    /// The records of the journal in the folder, as one of this role.
    Records {
        role: Role,
    },
    /// That a provider of this role with this config serves, until so many events were taken.
    Serve {
        role: Role,
        config: &'w str,
        events: u64,
    },
    /// That the schedule in this file is replayed.
    Replay {
        file: &'w str,
    },
    /// That the schedule of so many logins is replayed, which numbers choose that follow from this one.
    Make {
        logins: u32,
        start: u32,
    },
}

/// What `check CONFIG BODYFILE NOW` asks for, where NOW is a moment.
fn check_at<'w>(config: &'w str, body: &'w str, now: &str) -> Option<Command<'w>>
    ensures command { option_map command_view result ≡ option_map (Check config.entry.now body.entry.now) (number_of LAST now.now) }
    ensures moment { IfSome result HasMoment }
{
    let now = number_of(now, LAST)?;
    Some(Command::Check { config, body, now })
}

/// The number from which a schedule is made, as a word says it.
fn start_of(word: &str) -> Option<u64>
    ensures value { result ≡ number_of MOST_START word.now }
    ensures small { IfSome result (λ start. start ≤ MOST_START) }
{
    let start = number_of(word, MOST_START)?;
    Some(start)
}

/// What `make N START` asks for.
fn make_of<'w>(logins: &str, start: &str) -> Option<Command<'w>>
    ensures command { option_map command_view result
        ≡ option_and_then (λ count. option_map (Make count) (number_of MOST_START start.now)) (positive MOST_LOGINS logins.now) }
    ensures moment { IfSome result HasMoment }
{
    let logins = positive(logins, u64::from(MOST_LOGINS))?;
    let start = start_of(start)?;
    Some(Command::Make {
        logins: logins as u32,
        start: start as u32,
    })
}

/// The role that a word says.
fn role_of(word: &str) -> Option<Role>
    ensures { result ≡ role_of word.now }
{
    match word {
        "sp" => Some(Role::Sp),
        "idp" => Some(Role::Idp),
        "hub" => Some(Role::Hub),
        _ => None,
    }
}

/// What `ROLE CONFIG EVENTS` asks for.
fn serve_of<'w>(word: &str, config: &'w str, events: &str) -> Option<Command<'w>>
    ensures command { option_map command_view result
        ≡ option_and_then (λ role. option_map (Serve role config.entry.now) (positive MOST_EVENTS events.now)) (role_of word.now) }
    ensures moment { IfSome result HasMoment }
{
    let role = role_of(word)?;
    let events = positive(events, MOST_EVENTS)?;
    Some(Command::Serve {
        role,
        config,
        events,
    })
}

/// What `records ROLE` asks for.
fn records_of<'w>(word: &str) -> Option<Command<'w>>
    ensures command { option_map command_view result ≡ option_map Records (role_of word.now) }
    ensures moment { IfSome result HasMoment }
{
    let role = role_of(word)?;
    Some(Command::Records { role })
}

/// The command of this name with one word behind it.
fn of_one<'w>(word: &str, first: &'w str) -> Option<Command<'w>>
    ensures command { option_map command_view result ≡ of_one word.now first.entry.now }
    ensures moment { IfSome result HasMoment }
{
    match word {
        "canon" => Some(Command::Canon {
            file: first,
            id: None,
        }),
        "records" => records_of(first),
        "replay" => Some(Command::Replay { file: first }),
        _ => None,
    }
}

/// The command of this name with two words behind it.
fn of_two<'w>(word: &str, first: &'w str, second: &'w str) -> Option<Command<'w>>
    ensures command { option_map command_view result ≡ of_two word.now first.entry.now second.entry.now }
    ensures moment { IfSome result HasMoment }
{
    match word {
        "canon" => Some(Command::Canon {
            file: first,
            id: Some(second),
        }),
        "make" => make_of(first, second),
        _ => serve_of(word, first, second),
    }
}

/// The command of this name with three words behind it.
fn of_three<'w>(word: &str, first: &'w str, second: &'w str, third: &'w str) -> Option<Command<'w>>
    ensures command { option_map command_view result ≡ of_three word.now first.entry.now second.entry.now third.entry.now }
    ensures moment { IfSome result HasMoment }
{
    match word {
        "vouch" => Some(Command::Vouch {
            file: first,
            id: second,
            key_file: third,
        }),
        "check" => check_at(first, second, third),
        _ => None,
    }
}

/// The command of the words `canon FILE`, `canon FILE ID`, `vouch FILE ID KEYFILE`, `check CONFIG BODYFILE NOW`,
/// `records ROLE`, `sp CONFIG EVENTS`, `idp CONFIG EVENTS`, `hub CONFIG EVENTS`, `replay SCHEDULE` and `make N START`.
pub(crate) fn command_of(words: &[Text]) -> Option<Command<'_>>
    ensures command { option_map command_view result ≡ command_of words.now }
    ensures moment { IfSome result HasMoment }
{
    match words {
        [word, first] => of_one(word.as_str(), first.as_str()),
        [word, first, second] => of_two(word.as_str(), first.as_str(), second.as_str()),
        [word, first, second, third] => of_three(
            word.as_str(),
            first.as_str(),
            second.as_str(),
            third.as_str(),
        ),
        _ => None,
    }
}
