//! The longest run of bytes of a class at the front of others.
//!
//! ```
//! let len = run_len(&Digits, b"1994-11-05");
//! ```
//!
//! A long run is looked at block by block, so that a class of several bytes costs about one instruction for each byte of it.
//!
//! # What is proved
//!
//! How many of the first bytes are of a class, which the caller's type tells (`run_len`, over `ByteClass`): all of
//! those are of it, and the next is not.
#![tactic(auto)]

ghost use Rattle.std.specs.Prelude.{◌≡◌, ℕ, ◌≤◌, Bool, true, length, take, drop, IsTrue, IsFalse};
ghost use Rattle.xml_spec.specs.Bytes.{AllPass, begins_with};

/// How many bytes are looked at together.
const BLOCK: usize = 32;

/// A class of bytes.
pub trait ByteClass {
    /// Whether a byte is of the class.
    ghost contains: { Self → ℕ → Bool };

    /// Whether the byte is of the class.
    fn has(&self, byte: u8) -> bool
        ensures { result ≡ contains self.now byte };

    /// A test that is quick for many bytes together: where it holds, the byte is of the class. It may miss some that are
    /// rare. Comparisons joined by `&` serve best, and few of them.
    #[inline(always)]
    fn surely_has(&self, byte: u8) -> bool
        ensures { IsTrue result → contains self.now byte ≡ true }
    {
        self.has(byte)
    }
}

/// Whether each byte is surely of the class. All are looked at, so that many are at once.
#[inline(always)]
fn are_in<C: ByteClass>(class: &C, bytes: &[u8]) -> bool
    ensures { IsTrue result → AllPass (C.contains class.now) bytes.now }
{
    let mut all = true;
    for byte in bytes {
        all &= class.surely_has(*byte);
    }
    all
}

/// The same as `run_len`, byte by byte.
#[inline(always)]
fn short_len<C: ByteClass>(class: &C, bytes: &[u8]) -> usize
    ensures within { result ≤ length bytes.now }
    ensures passes { AllPass (C.contains class.now) (take result bytes.now) }
    ensures stops { IsFalse (begins_with (C.contains class.now) (drop result bytes.now)) }
{
    for (i, byte) in bytes.iter().enumerate() {
        if !class.has(*byte) {
            return i;
        }
    }
    bytes.len()
}

/// How many of the first bytes are of the class.
pub fn run_len<C: ByteClass>(class: &C, bytes: &[u8]) -> usize
    ensures within { result ≤ length bytes.now }
    ensures passes { AllPass (C.contains class.now) (take result bytes.now) }
    ensures stops { IsFalse (begins_with (C.contains class.now) (drop result bytes.now)) }
{
    let mut at = 0;
    'blocks: while bytes.len() - at >= BLOCK && are_in(class, &bytes[at..at + BLOCK]) {
        at += BLOCK;
    }
    at + short_len(class, &bytes[at..])
}
