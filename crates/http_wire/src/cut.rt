// Bytes that are cut at others.

ghost use Rattle.std.specs.Prelude.{◌≡◌, ◌==◌};
ghost use Rattle.std.specs.List.{before_first};

/// What stands in front of the first such byte; all where there is none.
pub(crate) fn before_first(bytes: &[u8], stop: u8) -> &[u8]
    ensures { result.now ≡ before_first (λ b. b == stop) bytes.now }
{
    for (i, byte) in bytes.iter().enumerate() {
        if *byte == stop {
            return &bytes[..i];
        }
    }
    bytes
}
