//! What no clause says: that there is memory for a name. What is printed is what another implementation prints.

use owned_values::Blob;
use record_lines::put_escaped_name;
use std::test::Fail;

#[test]
fn there_is_memory_for_a_name(rt: HostRuntime) -> Result<(), Fail> {
    let mut out = Blob::new(rt.alloc());
    put_escaped_name(b"a=b", &mut out)?;
    assert!(rt; out.as_slice() == b"a\\3db".as_slice());
    Ok(())
}
