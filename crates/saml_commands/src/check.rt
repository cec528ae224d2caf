// What `check` answers for a provider that is set up and a posted form.

ghost use Rattle.std.specs.Prelude.{◌≡◌, ◌≤◌, ◌<◌, ◌++◌, true, length, map, IfOk, IfSome, OnOk};
ghost use Rattle.saml_commands.specs.Check.{attribute_line, attribute_lines, session_lines, asked_row_of, opened_row_of, rows_of, OfJudged};
ghost use Rattle.sp_setup.specs.Views.{IsWithinBounds};

use crate::answer::Answer;
use record_lines::put_escaped;
use request_rows::{AskedRow, KeptRows, NewSession, OpenedRow, ROW_LIMIT, Rows};
use saml_outside::{Attribute, Attributes, Blob, NoMemory, Text};
use saml_time::{GREATEST_SKEW, LAST};
use sp_rules::{FIRST, Judged, SpConfig, judge};
use sp_setup::{AskedLine, OpenedLine, SetUp};
use std::alloc::Global;

/// The row of a request that was asked.
fn asked_row_of(line: AskedLine) -> AskedRow
    ensures { result ≡ asked_row_of line }
{
    AskedRow {
        request: line.request,
        relay: line.relay,
        target: line.target,
        until: line.until,
    }
}

/// The row of a session that is over, of which nothing is known but what it answered.
fn opened_row_of(alloc: Global, line: OpenedLine) -> OpenedRow
    ensures { result ≡ opened_row_of line }
{
    OpenedRow {
        request: line.request,
        issuer: line.issuer,
        assertion: line.assertion,
        assertion_until: line.until,
        token: Text::new(alloc),
        name: Text::new(alloc),
        index: None,
        attributes: Attributes::new(alloc),
        until: 0,
        closed: true,
        key: FIRST,
    }
}

/// The rows that a config names, with their indexes, each made by one sort.
fn rows_of(
    alloc: Global,
    asked: Vec<AskedLine>,
    opened: Vec<OpenedLine>,
) -> Result<KeptRows, NoMemory>
    requires asked { length asked.items < ROW_LIMIT }
    requires opened { length opened.items < ROW_LIMIT }
    ensures asked { IfOk result (λ kept. kept.rows.asked ≡ map asked_row_of asked.items) }
    ensures opened { IfOk result (λ kept. kept.rows.opened ≡ map opened_row_of opened.items) }
    ensures indexed { IfOk result (λ kept. kept.is_indexed ≡ true) }
{
    let mut kept = KeptRows::new(alloc);
    for request in asked {
        kept.reserve_asked()?;
        kept.put_asked(asked_row_of(request));
    }
    for answer in opened {
        kept.reserve_opened()?;
        kept.put_opened(opened_row_of(alloc, answer));
    }
    kept.indexed(alloc)
}

/// Puts the line of an attribute's value.
fn put_value(name: &str, value: &str, out: &mut Blob) -> Result<(), NoMemory>
    ensures { OnOk result (out.new ≡ out.old ++ attribute_line name.now value.now) }
{
    out.push(b"attribute ")?;
    put_escaped(name.as_bytes(), out)?;
    out.push(b" ")?;
    put_escaped(value.as_bytes(), out)?;
    out.push(b"\n")
}

/// Puts a line for each value of an attribute.
fn put_attribute(attribute: &Attribute, out: &mut Blob) -> Result<(), NoMemory>
    ensures { OnOk result (out.new ≡ out.old ++ attribute_lines attribute.now) }
{
    for value in attribute.values.as_slice() {
        put_value(attribute.name.as_str(), value.as_str(), out)?;
    }
    Ok(())
}

/// What is printed of a session.
fn session_lines(alloc: Global, session: &NewSession) -> Result<Blob, NoMemory>
    ensures { IfOk result (λ text. text ≡ session_lines session.now) }
{
    let mut out = Blob::of(alloc, b"accepted\nname ")?;
    put_escaped(session.name.as_str().as_bytes(), &mut out)?;
    out.push(b"\n")?;
    for attribute in session.attributes.as_slice() {
        put_attribute(attribute, &mut out)?;
    }
    Ok(out)
}

/// What `check` answers for the bytes of a form, over these rows.
fn verdict_on(
    alloc: Global,
    config: &SpConfig,
    rows: &Rows,
    now: u64,
    body: &[u8],
) -> Result<Answer, NoMemory>
    requires now { now ≤ LAST }
    requires skew { config.now.skew ≤ GREATEST_SKEW }
    requires times { IfSome config.now.next_in (λ next. next.from ≤ next.until) }
    ensures { IfOk result (λ answer. OfJudged rows.now config.now now body.now answer) }
{
    match judge(alloc, config, rows, 0, now, body) {
        Ok(accepted) => Ok(Answer::Printed(session_lines(alloc, &accepted.session)?)),
        Err(Judged::Code(verdict)) => Ok(Answer::Refused(verdict)),
        Err(Judged::NoMemory) => Err(NoMemory),
    }
}

/// What `check` answers for a provider that is set up and the bytes of a form.
pub(crate) fn check(alloc: Global, setup: SetUp, now: u64, body: &[u8]) -> Result<Answer, NoMemory>
    requires now { now ≤ LAST }
    requires bounds { IsWithinBounds setup }
    ensures { IfOk result (λ answer. OfJudged (rows_of setup.asked.items setup.opened.items) setup.config now body.now answer) }
{
    let kept = rows_of(alloc, setup.asked, setup.opened)?;
    verdict_on(alloc, &setup.config, kept.rows(), now, body)
}
