//! What no clause says: what others find of policies, and that there is memory for a policy and a page.

use access_policy::{PolicyFault, denied_page, read_policy};
use owned_values::{Attribute, Attributes, Text, Texts};
use std::alloc::Global;
use std::process::Abort;
use std::test::Fail;

const ROWS: &[u8] = b"staff allow /app/* has role reader\nclosed deny /app\nrest allow /app\n";

/// Whether the bytes are no policy, for the first line of them.
fn is_refused(rt: &impl Abort, alloc: Global, line: &[u8]) {
    if line.len() < 1000 {
        assert_eq!(rt;
            read_policy(alloc, line).err(),
            Some(PolicyFault::Line(1)),
            "{line:?}"
        );
    }
}

#[test]
fn lines_are_bad_where_others_find_them_so(rt: HostRuntime) -> Result<(), Fail> {
    let alloc = rt.alloc();
    for line in [
        b"a permit /app".as_slice(),
        b"a allow /app/*/x".as_slice(),
        b"a allow /app/**".as_slice(),
        b"a allow /app/%41".as_slice(),
        b"a Allow /app".as_slice(),
        b"default allow /app".as_slice(),
        b"A_b allow /app".as_slice(),
        b"aaaaaaaaaaaaaaaaaaaaaaaaaaaaaaaaa allow /app".as_slice(),
        b"a allow /app has role".as_slice(),
        b"a allow /app has role reader writer".as_slice(),
        b"a allow /app user \\4A".as_slice(),
        b"a allow /app user \\ed\\a0\\80".as_slice(),
        b"a  allow /app".as_slice(),
        b"#\x01".as_slice(),
    ] {
        is_refused(&rt, alloc, line);
    }
    let doubled = read_policy(alloc, b"a allow /app\nb allow /app\n# c\na deny /app/x\n");
    assert_eq!(rt; doubled.err(), Some(PolicyFault::Line(4)));
    Ok(())
}

#[test]
fn the_first_rule_that_holds_decides(rt: HostRuntime) -> Result<(), Fail> {
    let alloc = rt.alloc();
    let policy = read_policy(alloc, ROWS)?;
    let mut attributes = Attributes::new(alloc);
    assert_eq!(rt;
        policy.decide("/app/x", "alice", &attributes).rule,
        "default"
    );
    let mut values = Texts::new(alloc);
    values.push(Text::of(alloc, "reader")?)?;
    attributes.push(Attribute {
        name: Text::of(alloc, "role")?,
        values,
    })?;
    assert!(rt; policy.decide("/app/x", "alice", &attributes).allowed);
    assert_eq!(rt; policy.decide("/app", "alice", &attributes).rule, "closed");
    let page = denied_page(alloc, "closed")?;
    assert_eq!(rt;
        page.as_slice(),
        b"<!DOCTYPE html><html><body><p>Denied by closed</p></body></html>".as_slice()
    );
    let user = read_policy(alloc, b"a allow /app user \\61lice\n")?;
    assert!(rt;
        user.decide("/app", "alice", &Attributes::new(alloc))
            .allowed
    );
    Ok(())
}
