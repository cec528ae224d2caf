//! What no clause says: that there is memory to replay a schedule, over both providers and their disks in memory. The
//! schedules and their lines are those of another implementation.

use replay_runs::replay_deployed;
use saml_outside::MemSink;
use schedules::{MAX_SCHEDULE_LENGTH, read_schedule};
use std::alloc::Global;
use std::test::Fail;

/// A form that is posted twice at once, and a restart.
const PAIR: (&str, &str) = (
    "now 1704067200000
visit a /app
submit a
login a alice password
pair a a 100
submit a
restart sp
submit a
",
    "1 now
2 sp 200 form
3 idp 200 login
4 idp 200 form
5 sp 303 moved
5 sp 403 code 21
6 sp 403 code 21
7 restart
8 sp 403 code 21
opened 1 responses 1 refused 3 restarts 1
",
);

/// A disk that stops in a compaction.
const STOP: (&str, &str) = (
    "now 1704067200000
visit a /app
submit a
login a alice password
submit a
crash sp 9 1
compact sp
follow a
compact sp
submit a
visit b /app
submit b
login b alice password
submit b
",
    "1 now
2 sp 200 form
3 idp 200 login
4 idp 200 form
5 sp 303 moved
6 armed
7 sp stopped
8 sp 200 page
9 compact
10 sp 403 code 21
11 sp 200 form
12 idp 200 login
13 idp 200 form
14 sp 303 moved
opened 2 responses 2 refused 1 restarts 1
",
);

/// A disk that fails.
const FAILURE: (&str, &str) = (
    "now 1704067200000
visit a /app
submit a
login a alice password
fail sp 1
submit a
submit a
follow a
",
    "1 now
2 sp 200 form
3 idp 200 login
4 idp 200 form
5 armed
6 sp 503 code 50
7 sp 303 moved
8 sp 200 page
opened 1 responses 1 refused 1 restarts 0
",
);

/// An answer that is lost.
const LOST: (&str, &str) = (
    "now 1704067200000
visit a /app
submit a
login a alice password
lose a
submit a
follow a
",
    "1 now
2 sp 200 form
3 idp 200 login
4 idp 200 form
5 sp 303 moved
6 sp 403 code 21
7 none
opened 1 responses 1 refused 1 restarts 0
",
);

/// Users who leave without a session, and an agent that forgets all.
const FORGOTTEN: (&str, &str) = (
    "leave a sp
leave a idp
now 1704067200000
visit a /app
submit a
login a alice password
submit a
follow a
fresh a
leave a sp
leave a idp
",
    "1 sp 403 code 33
2 idp 403 code 33
3 now
4 sp 200 form
5 idp 200 login
6 idp 200 form
7 sp 303 moved
8 sp 200 page
9 fresh
10 sp 403 code 33
11 idp 403 code 33
opened 1 responses 1 refused 4 restarts 0
",
);

/// Whether a schedule prints just these lines.
fn prints(alloc: Global, case: (&str, &str)) -> Result<bool, Fail> {
    let text = case.0.as_bytes();
    if text.len() > MAX_SCHEDULE_LENGTH {
        return Ok(false);
    }
    let schedule = read_schedule(alloc, text)?;
    let mut out = MemSink::new(alloc);
    replay_deployed(alloc, &schedule, false, &mut out)?;
    Ok(out.bytes() == case.1.as_bytes())
}

#[test]
fn schedules_are_replayed(rt: HostRuntime) -> Result<(), Fail> {
    let alloc = rt.alloc();
    assert!(rt; prints(alloc, PAIR)?);
    assert!(rt; prints(alloc, STOP)?);
    assert!(rt; prints(alloc, FAILURE)?);
    assert!(rt; prints(alloc, LOST)?);
    assert!(rt; prints(alloc, FORGOTTEN)?);
    Ok(())
}
