//! Texts as they are printed.
ghost use Rattle.std.specs.Prelude.{◌≡◌, ◌<◌, ◌++◌, OnOk};
ghost use Rattle.record_lines.specs.Escapes.{is_plain, hex_digit, coded_byte, escaped_byte, escaped, escaped_name_byte, escaped_name};

use owned_values::{Blob, NoMemory};

/// Whether a byte is printed as it is: a visible character of ASCII but the backslash.
fn is_plain(byte: u8) -> bool
    ensures { result ≡ is_plain byte }
{
    byte.is_ascii_graphic() && byte != b'\\'
}

/// A digit of base 16, in lower case.
fn hex_digit(value: u8) -> u8
    requires { value < 16 }
    ensures { result ≡ hex_digit value }
{
    if value >= 10 {
        b'a' + (value - 10)
    } else {
        b'0' + value
    }
}

/// Puts a byte as two digits behind a backslash.
fn put_coded_byte(byte: u8, out: &mut Blob) -> Result<(), NoMemory>
    ensures { OnOk result (out.new ≡ out.old ++ coded_byte byte) }
{
    out.push(&[b'\\', hex_digit(byte / 16), hex_digit(byte % 16)])
}

/// Puts a byte as it is printed: where it is not plain, as two digits behind a backslash.
fn put_escaped_byte(byte: u8, out: &mut Blob) -> Result<(), NoMemory>
    ensures { OnOk result (out.new ≡ out.old ++ escaped_byte byte) }
{
    if is_plain(byte) {
        out.push(&[byte])
    } else {
        put_coded_byte(byte, out)
    }
}

/// Puts a byte of a name as it is printed.
fn put_name_byte(byte: u8, out: &mut Blob) -> Result<(), NoMemory>
    ensures { OnOk result (out.new ≡ out.old ++ escaped_name_byte byte) }
{
    if byte == b'=' {
        put_coded_byte(byte, out)
    } else {
        put_escaped_byte(byte, out)
    }
}

/// Puts a text as it is printed: visible characters of ASCII as they are, each other byte and `\` as `\` and two digits of
/// base 16. Where there is no memory a part of it may have been put.
pub fn put_escaped(text: &[u8], out: &mut Blob) -> Result<(), NoMemory>
    ensures { OnOk result (out.new ≡ out.old ++ escaped text.now) }
{
    for byte in text {
        put_escaped_byte(*byte, out)?;
    }
    Ok(())
}

/// Puts a text as it is printed in front of a `=`, which it does not hold then. Where there is no memory a part of it may
/// have been put.
pub fn put_escaped_name(name: &[u8], out: &mut Blob) -> Result<(), NoMemory>
    ensures { OnOk result (out.new ≡ out.old ++ escaped_name name.now) }
{
    for byte in name {
        put_name_byte(*byte, out)?;
    }
    Ok(())
}
