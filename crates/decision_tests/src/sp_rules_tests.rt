// Tests of what no clause says: a form that was made by others, and that each call succeeds where there is memory.

ghost use Rattle.std.specs.Prelude.{◌≡◌, ◌≤◌, None, IfOk};

use metadata::Peer;
use owned_values::{Blob, NoMemory, Text};
use request_rows::{AskedRow, Rows};
use saml_time::{GREATEST_SKEW, LAST};
use sp_rules::{Accepted, FIRST, Judged, SpConfig, Spans, judge};
use std::alloc::Global;
use verdict_codes::Verdict;
use xml_chars::Span;

/// A form with a signed Assertion about a user with two attributes and three values.
const FORM: &[u8] =
    b"SAMLResponse=PHNhbWxwOlJlc3BvbnNlIHhtbG5zOnNhbWxwPSJ1cm46b2FzaXM6bmFtZXM6dGM6U0FNTDoyLjA6cHJvdG9jb2wiIERlc3RpbmF0aW9uPSJodHRwOi8vMTI3LjAuMC4xOjgwODEvYWNzIiBJRD0iX20xIiBJblJlc3BvbnNlVG89Il9yMSIgSXNzdWVJbnN0YW50PSIyMDI0LTAxLTAxVDAwOjAwOjAwLjAwMFoiIFZlcnNpb249IjIuMCI%2BPHNhbWw6SXNzdWVyIHhtbG5zOnNhbWw9InVybjpvYXNpczpuYW1lczp0YzpTQU1MOjIuMDphc3NlcnRpb24iPnVybjpleGFtcGxlOmlkcDwvc2FtbDpJc3N1ZXI%2BPHNhbWxwOlN0YXR1cz48c2FtbHA6U3RhdHVzQ29kZSBWYWx1ZT0idXJuOm9hc2lzOm5hbWVzOnRjOlNBTUw6Mi4wOnN0YXR1czpTdWNjZXNzIj48L3NhbWxwOlN0YXR1c0NvZGU%2BPC9zYW1scDpTdGF0dXM%2BPHNhbWw6QXNzZXJ0aW9uIHhtbG5zOnNhbWw9InVybjpvYXNpczpuYW1lczp0YzpTQU1MOjIuMDphc3NlcnRpb24iIElEPSJfYTEiIElzc3VlSW5zdGFudD0iMjAyNC0wMS0wMVQwMDowMDowMC4wMDBaIiBWZXJzaW9uPSIyLjAiPjxzYW1sOklzc3Vlcj51cm46ZXhhbXBsZTppZHA8L3NhbWw6SXNzdWVyPjxkczpTaWduYXR1cmUgeG1sbnM6ZHM9Imh0dHA6Ly93d3cudzMub3JnLzIwMDAvMDkveG1sZHNpZyMiPjxkczpTaWduZWRJbmZvPjxkczpDYW5vbmljYWxpemF0aW9uTWV0aG9kIEFsZ29yaXRobT0iaHR0cDovL3d3dy53My5vcmcvMjAwMS8xMC94bWwtZXhjLWMxNG4jIj48L2RzOkNhbm9uaWNhbGl6YXRpb25NZXRob2Q%2BPGRzOlNpZ25hdHVyZU1ldGhvZCBBbGdvcml0aG09Imh0dHA6Ly93d3cudzMub3JnLzIwMDEvMDQveG1sZHNpZy1tb3JlI2htYWMtc2hhMjU2Ij48L2RzOlNpZ25hdHVyZU1ldGhvZD48ZHM6UmVmZXJlbmNlIFVSST0iI19hMSI%2BPGRzOlRyYW5zZm9ybXM%2BPGRzOlRyYW5zZm9ybSBBbGdvcml0aG09Imh0dHA6Ly93d3cudzMub3JnLzIwMDAvMDkveG1sZHNpZyNlbnZlbG9wZWQtc2lnbmF0dXJlIj48L2RzOlRyYW5zZm9ybT48ZHM6VHJhbnNmb3JtIEFsZ29yaXRobT0iaHR0cDovL3d3dy53My5vcmcvMjAwMS8xMC94bWwtZXhjLWMxNG4jIj48L2RzOlRyYW5zZm9ybT48L2RzOlRyYW5zZm9ybXM%2BPGRzOkRpZ2VzdE1ldGhvZCBBbGdvcml0aG09Imh0dHA6Ly93d3cudzMub3JnLzIwMDEvMDQveG1sZW5jI3NoYTI1NiI%2BPC9kczpEaWdlc3RNZXRob2Q%2BPGRzOkRpZ2VzdFZhbHVlPnRKTWtqRjlsUFdURHloT1RPMllvWk5qbWdFNU8rd1FFU1ErcllCaExEWHM9PC9kczpEaWdlc3RWYWx1ZT48L2RzOlJlZmVyZW5jZT48L2RzOlNpZ25lZEluZm8%2BPGRzOlNpZ25hdHVyZVZhbHVlPjdmOEFrd3hrY1VXRzFYbzFsRnptK0VPYndITlllUnNFbUk4MEgvcVdqYkE9PC9kczpTaWduYXR1cmVWYWx1ZT48L2RzOlNpZ25hdHVyZT48c2FtbDpTdWJqZWN0PjxzYW1sOk5hbWVJRD5hbGljZTwvc2FtbDpOYW1lSUQ%2BPHNhbWw6U3ViamVjdENvbmZpcm1hdGlvbiBNZXRob2Q9InVybjpvYXNpczpuYW1lczp0YzpTQU1MOjIuMDpjbTpiZWFyZXIiPjxzYW1sOlN1YmplY3RDb25maXJtYXRpb25EYXRhIEluUmVzcG9uc2VUbz0iX3IxIiBOb3RPbk9yQWZ0ZXI9IjIwMjQtMDEtMDFUMDA6MDU6MDAuMDAwWiIgUmVjaXBpZW50PSJodHRwOi8vMTI3LjAuMC4xOjgwODEvYWNzIj48L3NhbWw6U3ViamVjdENvbmZpcm1hdGlvbkRhdGE%2BPC9zYW1sOlN1YmplY3RDb25maXJtYXRpb24%2BPC9zYW1sOlN1YmplY3Q%2BPHNhbWw6Q29uZGl0aW9ucyBOb3RCZWZvcmU9IjIwMjQtMDEtMDFUMDA6MDA6MDAuMDAwWiIgTm90T25PckFmdGVyPSIyMDI0LTAxLTAxVDAwOjA1OjAwLjAwMFoiPjxzYW1sOkF1ZGllbmNlUmVzdHJpY3Rpb24%2BPHNhbWw6QXVkaWVuY2U%2BdXJuOmV4YW1wbGU6c3A8L3NhbWw6QXVkaWVuY2U%2BPC9zYW1sOkF1ZGllbmNlUmVzdHJpY3Rpb24%2BPC9zYW1sOkNvbmRpdGlvbnM%2BPHNhbWw6QXV0aG5TdGF0ZW1lbnQgQXV0aG5JbnN0YW50PSIyMDI0LTAxLTAxVDAwOjAwOjAwLjAwMFoiIFNlc3Npb25JbmRleD0iX3MxIj48c2FtbDpBdXRobkNvbnRleHQ%2BPHNhbWw6QXV0aG5Db250ZXh0Q2xhc3NSZWY%2BdXJuOm9hc2lzOm5hbWVzOnRjOlNBTUw6Mi4wOmFjOmNsYXNzZXM6UGFzc3dvcmQ8L3NhbWw6QXV0aG5Db250ZXh0Q2xhc3NSZWY%2BPC9zYW1sOkF1dGhuQ29udGV4dD48L3NhbWw6QXV0aG5TdGF0ZW1lbnQ%2BPHNhbWw6QXR0cmlidXRlU3RhdGVtZW50PjxzYW1sOkF0dHJpYnV0ZSBOYW1lPSJtYWlsIj48c2FtbDpBdHRyaWJ1dGVWYWx1ZT5hbGljZUBleGFtcGxlLm9yZzwvc2FtbDpBdHRyaWJ1dGVWYWx1ZT48L3NhbWw6QXR0cmlidXRlPjxzYW1sOkF0dHJpYnV0ZSBOYW1lPSJncm91cCI%2BPHNhbWw6QXR0cmlidXRlVmFsdWU%2Bc3RhZmY8L3NhbWw6QXR0cmlidXRlVmFsdWU%2BPHNhbWw6QXR0cmlidXRlVmFsdWU%2BcmVhZGVyczwvc2FtbDpBdHRyaWJ1dGVWYWx1ZT48L3NhbWw6QXR0cmlidXRlPjwvc2FtbDpBdHRyaWJ1dGVTdGF0ZW1lbnQ%2BPC9zYW1sOkFzc2VydGlvbj48L3NhbWxwOlJlc3BvbnNlPg%3D%3D&RelayState=rel1";

/// A moment at which the Assertion may be presented, and the first at which it may not be any more.
const IN_TIME: u64 = 1_704_067_200_000;

const LATE: u64 = 1_704_067_560_000;

fn config(alloc: Global) -> Result<SpConfig, NoMemory>
    ensures skew { IfOk result (λ config. config.skew ≤ GREATEST_SKEW) }
    ensures next { IfOk result (λ config. config.next_in ≡ None) }
{
    Ok(SpConfig {
        entity: Text::of(alloc, "urn:example:sp")?,
        base: Text::of(alloc, "http://127.0.0.1:8081")?,
        listen: Text::of(alloc, "127.0.0.1:8081")?,
        idp: Peer {
            entity: Text::of(alloc, "urn:example:idp")?,
            service: Text::of(alloc, "http://127.0.0.1:8080/sso")?,
            logout: None,
        },
        key_in: Blob::of(alloc, &[0x11; 32])?,
        next_in: None,
        key_out: Blob::of(alloc, &[0x22; 32])?,
        id_key: [0x44; 32],
        skew: 60_000,
    })
}

fn rows(alloc: Global) -> Result<Rows, NoMemory> {
    let mut rows = Rows::new(alloc);
    rows.add_asked(AskedRow {
        request: Text::of(alloc, "_r1")?,
        relay: Text::of(alloc, "rel1")?,
        target: Text::of(alloc, "/app")?,
        until: 1_704_068_000_000,
    })?;
    Ok(rows)
}

/// What is said to the form at a moment.
fn judged(alloc: Global, now: u64) -> Result<Accepted, Judged>
    requires { now ≤ LAST }
{
    let config = config(alloc)?;
    let rows = rows(alloc)?;
    judge(alloc, &config, &rows, 0, now, FORM)
}

#[test]
fn a_form_opens_a_session_in_time(rt: HostRuntime) {
    let alloc = rt.alloc();
    let Ok(accepted) = judged(alloc, IN_TIME) else {
        panic!(rt; "refused");
    };
    assert!(rt; accepted.session.name.as_str() == "alice");
    assert!(rt;
        accepted.session.until == 1704096000000 && accepted.session.assertion_until == 1704067560000
    );
    assert!(rt; accepted.session.key == FIRST && accepted.target.as_str() == "/app");
    assert!(rt; (accepted.covered.start, accepted.covered.end) == (399, 2471));
    assert!(rt; (accepted.signature.start, accepted.signature.end) == (571, 1382));
    assert!(rt; (accepted.assertion.start, accepted.assertion.end) == (399, 2471));
    assert!(rt; (accepted.name_span.start, accepted.name_span.end) == (1396, 1428));
    assert!(rt; accepted.value_spans.len() == 3);
    let late = judged(alloc, LATE);
    assert!(rt; matches!(late, Err(Judged::Code(Verdict::NotInTime))));
    let mut spans = Spans::new(alloc);
    assert!(rt; spans.push(Span { start: 1, end: 2 }).is_ok() && spans.len() == 1);
}
