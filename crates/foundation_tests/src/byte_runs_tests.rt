//! What no clause says: a class of a type of its own, in runs that are shorter and longer than a block.

use byte_runs::{ByteClass, run_len};
use std::test::Fail;

struct Letters;

impl ByteClass for Letters {
    ghost use Rattle.std.specs.Prelude.{◌&&◌, nat_le};

    ghost contains = { λ _ b. nat_le 97 b && nat_le b 122 };

    fn has(&self, byte: u8) -> bool {
        b'a' <= byte && byte <= b'z'
    }
}

#[test]
fn runs_of_letters_are_told(rt: HostRuntime) -> Result<(), Fail> {
    assert_eq!(rt; run_len(&Letters, b""), 0);
    assert_eq!(rt; run_len(&Letters, b"-a"), 0);
    assert_eq!(rt; run_len(&Letters, b"abc"), 3);
    assert_eq!(rt;
        run_len(
            &Letters,
            b"abcdefghijklmnopqrstuvwxyzabcdefghijklmnopqrstuvwxyz-abc"
        ),
        52
    );
    assert_eq!(rt;
        run_len(
            &Letters,
            b"abcdefghijklmnopqrstuvwxyzabcdef-bcdefghijklmnopqrstuvwxyzabcdef"
        ),
        32
    );
    Ok(())
}
