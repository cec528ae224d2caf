// Classes of bytes, and runs of them.

ghost use Rattle.std.specs.Prelude.{◌≡◌, ◌≤◌, ◌++◌, length, take, drop, IsFalse};
ghost use Rattle.xml_spec.specs.Bytes.{AllPass, begins_with};
ghost use Rattle.xml_tokens.specs.Lexing.{is_name_byte, is_in, IsCut};

use byte_runs::ByteClass;
use xml_chars::is_white;

/// A class of bytes. A run of them ends where a text may be cut.
#[derive(Clone, Copy, Debug, PartialEq, Eq)]
pub(crate) enum Class {
    /// The bytes that may stand in a name.
    Name,
    /// White space.
    White,
    /// The bytes that may stand in a run of characters.
    Characters,
    /// The bytes that may stand in a value in these quotes.
    Value(u8),
    /// The bytes of a value that mean themselves.
    Kept,
}

impl Class {
    /// Whether the byte is of the class.
    pub(crate) fn has(self, byte: u8) -> bool
        ensures { result ≡ is_in self byte }
    {
        match self {
            Class::Name => byte != b'>'
                && !matches!(
                    byte,
                    b' ' | b'\t'
                        | b'\r'
                        | b'\n'
                        | b'='
                        | b'/'
                        | b'>'
                        | b'?'
                        | b'<'
                        | b'&'
                        | b'"'
                        | b'\''
                        | b'!'
                        | b';'
                        | b'#'
                ),
            Class::White => is_white(byte),
            Class::Characters => CharacterBytes.has(byte),
            Class::Value(quote) => ValueBytes(quote).has(byte),
            Class::Kept => KeptBytes.has(byte),
        }
    }
}

/// The bytes of `Class::Characters`, as a type of their own: runs of them are long, and a class that is known when the code
/// is made is looked for in many bytes at once.
#[derive(Drop)]
struct CharacterBytes;

impl ByteClass for CharacterBytes {
    ghost use Rattle.xml_tokens.specs.Lexing.{is_character_byte};

    ghost contains = { λ _ b. is_character_byte b };

    #[inline(always)]
    fn has(&self, byte: u8) -> bool {
        (byte != b'<') & (byte != b'&')
    }
}

/// The bytes of `Class::Value` in these quotes.
#[derive(Drop)]
struct ValueBytes(u8);

impl ByteClass for ValueBytes {
    ghost use Rattle.xml_tokens.specs.Lexing.{is_value_byte};

    ghost contains = { λ c b. is_value_byte c.0 b };

    #[inline(always)]
    fn has(&self, byte: u8) -> bool {
        (byte != b'<') & (byte != b'&') & (byte != self.0)
    }
}

/// The bytes of `Class::Kept`.
#[derive(Drop)]
struct KeptBytes;

impl ByteClass for KeptBytes {
    ghost use Rattle.xml_tokens.specs.Lexing.{is_kept_byte};

    ghost contains = { λ _ b. is_kept_byte b };

    #[inline(always)]
    fn has(&self, byte: u8) -> bool {
        !matches!(byte, b'\t' | b'\n' | b'\r' | b'&')
    }

    /// Control characters stand in few values.
    #[inline(always)]
    fn surely_has(&self, byte: u8) -> bool {
        (byte >= b' ') & (byte != b'&')
    }
}

/// The same as `run_len`, byte by byte.
fn short_len(bytes: &[u8], class: Class) -> usize
    ensures within { result ≤ length bytes.now }
    ensures passes { AllPass (is_in class) (take result bytes.now) }
    ensures stops { IsFalse (begins_with (is_in class) (drop result bytes.now)) }
{
    for (i, byte) in bytes.iter().enumerate() {
        if !class.has(*byte) {
            return i;
        }
    }
    bytes.len()
}

/// How many of the first bytes are of the class.
#[inline(always)]
fn run_len(bytes: &[u8], class: Class) -> usize
    ensures within { result ≤ length bytes.now }
    ensures passes { AllPass (is_in class) (take result bytes.now) }
    ensures stops { IsFalse (begins_with (is_in class) (drop result bytes.now)) }
{
    match class {
        Class::Name | Class::White => short_len(bytes, class),
        Class::Characters => byte_runs::run_len(&CharacterBytes, bytes),
        Class::Value(quote) => byte_runs::run_len(&ValueBytes(quote), bytes),
        Class::Kept => byte_runs::run_len(&KeptBytes, bytes),
    }
}

/// The longest run of bytes of the class at the front of a text, and what follows it.
#[inline(always)]
pub(crate) fn split_run<'a>(rest: &'a str, class: Class) -> (&'a str, &'a str)
    requires cut { IsCut class }
    ensures split { rest.now ≡ result.0.now ++ result.1.now }
    ensures passes { AllPass (is_in class) result.0.now }
    ensures stops { IsFalse (begins_with (is_in class) result.1.now) }
{
    let len = run_len(rest.as_bytes(), class);
    rest.split_at(len)
}

/// Whether the text begins with a byte that may stand in a name.
pub(crate) fn begins_name(rest: &str) -> bool
    ensures { result ≡ begins_with is_name_byte rest.now }
{
    match rest.as_bytes() {
        [first, ..] => Class::Name.has(*first),
        [] => false,
    }
}
