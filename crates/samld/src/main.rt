//! `samld`: SAML 2.0 Web Browser Single Sign-On and Single Logout.
//!
//! The program takes its command from its words, prints to the standard output alone, and ends with the number of the
//! `Status` that `run` gives.
//!
//! # What is proved
//!
//! The words behind the program's name, none where the system tells no arguments, as where one of them is no UTF-8
//! (`words`), and the exit status that is the number of a status (`exit_code`). That `main` hands these words to `run`
//! with the objects of the system, and ends with the status that `run` gives, no clause says: it stands in `main.rt`,
//! in some thirty lines.
#![tactic(auto)]

ghost use Rattle.std.specs.Prelude.{◌≡◌, [], drop, map, string_bytes, IfErr, IfOk, IsErr};
ghost use Rattle.std.specs.IoError.{error_kind};
ghost use Rattle.std.specs.Vec.Iter.{into_iter_items};
ghost use Rattle.std.specs.declared.io.ErrorKind.TheVariants.{OutOfMemory};
ghost use Rattle.std.specs.Process.{exit_status};
ghost use Rattle.saml_commands.specs.Exit.{exit_number};

use saml_commands::{Status, run};
use saml_outside::{NoMemory, Text};
use std::alloc::Global;
use std::env::Args;
use std::fs::File;
use std::io::ErrorKind;
use std::net::Net;
use std::process::ExitCode;
use std::rt::{Clock, Env, Files};
use std::{env, fs, io};
use system_objects::{FsDisk, FsFiles, StdoutSink, SystemClock, TcpLink};

// The words behind the first, which is the program's name.
fn words_behind_name(alloc: Global, mut arguments: Args) -> Result<Vec<Text>, NoMemory>
    ensures { IfOk result (λ words. words.items ≡ map string_bytes (drop 1 (into_iter_items arguments))) }
{
    let mut words = Vec::new(alloc);
    arguments.next();
    for word in arguments {
        words.push(Text::of(alloc, word.as_str())?)?;
    }
    Ok(words)
}

// The program's words, by what the system told of its arguments. Where one of them is no UTF-8 there are none, so that the
// program prints its usage.
fn words(alloc: Global, told: io::Result<Args>) -> Result<Vec<Text>, NoMemory>
    ensures behind { IfOk told (λ arguments. IfOk result (λ words.
        words.items ≡ map string_bytes (drop 1 (into_iter_items arguments)))) }
    ensures none { IfErr told (λ e. IfOk result (λ words. words.items ≡ [])) }
    ensures memory { IfErr told (λ e. error_kind e ≡ OutOfMemory → IsErr result) }
{
    match told {
        Ok(arguments) => words_behind_name(alloc, arguments),
        Err(e) if e.kind() == ErrorKind::OutOfMemory => Err(NoMemory),
        Err(_) => Ok(Vec::new(alloc)),
    }
}

// A file that leads nowhere: it can be read, and writing to it fails.
fn open_nowhere<R: Files<File = File>>(rt: &R) -> Option<File> {
    fs::open(rt, "/dev/null").ok()
}

// Makes the real objects and runs the program over them. What was sent and did not yet go out goes out before it ends.
fn run_over<R: Env + Files<File = File> + Clock + Net + Print + AllocGlobal>(rt: &R) -> Status {
    let Ok(words) = words(rt.alloc(), env::args(rt)) else {
        return Status::NoMemory;
    };
    let mut link = TcpLink::new(rt);
    let mut disk = FsDisk::new(rt);
    let mut clock = SystemClock::new(rt);
    let mut files = FsFiles::new(rt);
    let mut out = StdoutSink::new(io::writer(rt));
    let status = run(
        rt.alloc(),
        &words,
        &mut link,
        &mut disk,
        &mut clock,
        &mut files,
        &mut out,
    );
    link.finish();
    status
}

// The exit status that says how a run ended.
fn exit_code(status: Status) -> ExitCode
    ensures { exit_status result ≡ exit_number status }
{
    ExitCode::from(status as u8)
}

// Where the program is started with its standard input, output or error closed, the files that it opens first have the
// numbers of these, and what it prints would go into a journal. So three that lead nowhere are opened before, and stay open.
fn main(rt: HostRuntime) -> ExitCode {
    let _first = open_nowhere(&rt);
    let _second = open_nowhere(&rt);
    let _third = open_nowhere(&rt);
    exit_code(run_over(&rt))
}
