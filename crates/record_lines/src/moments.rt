//! Moments and numbers as they are printed.
ghost use Rattle.std.specs.Prelude.{◌≡◌, ◌++◌, decimal, OnOk};
ghost use Rattle.record_lines.specs.Instants.{instant};

use itoa::Buffer;
use owned_values::{Blob, NoMemory};
use saml_time::{LAST, put_instant};

/// Puts a number in base 10.
pub(crate) fn put_number(n: u64, line: &mut Blob) -> Result<(), NoMemory>
    ensures { OnOk result (line.new ≡ line.old ++ decimal n) }
{
    let mut digits = Buffer::new();
    line.push(digits.format(n).as_bytes())
}

/// Puts a moment, in milliseconds since 1970-01-01T00:00:00Z: as an instant, or as the number where it has no written form.
pub(crate) fn put_moment(moment: u64, line: &mut Blob) -> Result<(), NoMemory>
    ensures { OnOk result (line.new ≡ line.old ++ instant moment) }
{
    if moment > LAST {
        return put_number(moment, line);
    }
    let mut text = [0; 24];
    put_instant(moment, &mut text);
    line.push(&text)
}
