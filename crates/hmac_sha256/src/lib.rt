//! HMAC-SHA256 (RFC 2104 over FIPS 180-4), and PBKDF2 (RFC 8018) over it.
//!
//! ```rust
//! let mut mac = Mac::new(b"key");
//! mac.put(b"hello ");
//! mac.put(b"world");
//! assert!(rt; same_tag(&mac.finish(), &hmac(b"key", b"hello world")));
//! ```
//!
//! No call fails or allocates. Contracts see a [`Mac`] as a key and the text that was put under it.
//!
//! # What is proved
//!
//! HMAC-SHA256 (RFC 2104) and one block of PBKDF2 (RFC 8018) over `sha2`'s own SHA-256: `hmac`, `Mac` in pieces,
//! `pbkdf2`, `same_tag`.
#![tactic(auto)]

ghost use Rattle.std.specs.Prelude.{◌≡◌, ◌≤◌, ◌↔◌, ⊤, ℕ, List, [], ◌++◌, length, map, bit_xor, IsTrue};
ghost use Rattle.hmac_sha256.specs.Hmac.{filled, block_key, hmac};
ghost use Rattle.hmac_sha256.specs.Pbkdf2.{xor_bytes, pbkdf2};
ghost use Rattle.hmac_sha256.specs.Running.{IsMac};

use sha2::{Digest, Sha256};
use std::alloc::AllocError;

// The length of a block of SHA-256, in bytes.
const BLOCK: usize = 64;

// The length of a digest of SHA-256, in bytes.
const DIGEST: usize = 32;

// What each byte of the key's block is combined with for the inner hash.
const INNER_PAD: u8 = 0x36;

// What each byte of the key's block is combined with for the outer hash.
const OUTER_PAD: u8 = 0x5c;

// The index of PBKDF2's first block.
const FIRST_BLOCK_INDEX: [u8; 4] = [0, 0, 0, 1];

// The bytes, with zeros after them up to one block.
fn filled(bytes: &[u8]) -> [u8; BLOCK]
    requires { length bytes.now ≤ BLOCK }
    ensures { result ≡ filled bytes.now }
{
    let mut block = [0; BLOCK];
    block[..bytes.len()].copy_from_slice(bytes);
    block
}

// The key as one block: hashed where it is longer, and filled with zeros.
#[tactic(auto, unfolding(crate::specs::Hmac::block_key))]
fn block_key(key: &[u8]) -> [u8; BLOCK]
    ensures { result ≡ block_key key.now }
{
    if key.len() > BLOCK {
        filled(&Sha256::digest(key))
    } else {
        filled(key)
    }
}

// Each byte of the block combined with the pad.
fn xor_pad(block: &[u8; BLOCK], pad: u8) -> [u8; BLOCK]
    ensures { result ≡ map (λ b. bit_xor b pad) block.now }
{
    let mut out = *block;
    for byte in out.iter_mut() {
        *byte ^= pad;
    }
    out
}

// Combines each byte of `sum` with the byte of `other` at its place.
fn xor_into(sum: &mut [u8; DIGEST], other: &[u8; DIGEST])
    ensures { sum.new ≡ xor_bytes sum.old other.now }
{
    for i in 0..DIGEST {
        sum[i] ^= other[i];
    }
}

/// A running HMAC-SHA256: the text of one key, put piece by piece (RFC 2104, 2).
///
/// A clone goes on from the bytes that were put, so one state of a key serves many texts.
#[derive(Drop)]
pub struct Mac {
    inner: Sha256,
    outer: Sha256,
}

impl Clone for Mac {
    ghost is_clone = { λ x y. y ≡ x };

    ghost is_infallible = { λ _. ⊤ };

    fn clone(&self) -> Result<Mac, AllocError> {
        Ok(Mac {
            inner: self.inner.clone()?,
            outer: self.outer.clone()?,
        })
    }
}

impl Mac {
    /// The state of this key before any text. The key may have any length.
    pub fn new(key: &[u8]) -> Mac
        ensures { IsMac result key.now [] }
    {
        let block = block_key(key);
        Mac {
            inner: Sha256::new_with_prefix(&xor_pad(&block, INNER_PAD)),
            outer: Sha256::new_with_prefix(&xor_pad(&block, OUTER_PAD)),
        }
    }

    /// Adds the bytes to the end of the text.
    #[tactic(auto, unfolding(crate::specs::Running::IsMac))]
    pub fn put(&mut self, bytes: &[u8])
        ensures { (key text : List ℕ) → IsMac self.old key text → IsMac self.new key (text ++ bytes.now) }
    {
        self.inner.update(bytes);
    }

    /// The HMAC of the text that was put.
    #[tactic(auto, unfolding(crate::specs::Running::IsMac, crate::specs::Hmac::hmac))]
    pub fn finish(self) -> [u8; 32]
        ensures { (key text : List ℕ) → IsMac self key text → result ≡ hmac key text }
    {
        let Mac { inner, mut outer } = self;
        outer.update(&inner.finalize());
        outer.finalize()
    }

    // The same state again, since a clone of it takes no memory and so does not fail.
    fn again(&self) -> Mac
        ensures { result ≡ self.now }
    {
        self.clone().unwrap()
    }

    // The HMAC of the text that was put and these bytes, with the state left as it is.
    fn finish_with(&self, bytes: &[u8]) -> [u8; 32]
        ensures { (key text : List ℕ) → IsMac self.now key text → result ≡ hmac key (text ++ bytes.now) }
    {
        let mut mac = self.again();
        mac.put(bytes);
        mac.finish()
    }
}

/// The HMAC-SHA256 of the text under the key, which may have any length (RFC 2104, 2).
pub fn hmac(key: &[u8], text: &[u8]) -> [u8; 32]
    ensures { result ≡ hmac key.now text.now }
{
    let mut mac = Mac::new(key);
    mac.put(text);
    mac.finish()
}

/// Whether two tags are equal. Nothing is claimed of the time that it takes.
pub fn same_tag(a: &[u8; 32], b: &[u8; 32]) -> bool
    ensures { IsTrue result ↔ (a.now ≡ b.now) }
{
    let mut difference = 0u8;
    for i in 0..DIGEST {
        difference |= a[i] ^ b[i];
    }
    difference == 0
}

/// The first block of PBKDF2 with HMAC-SHA256, which has 32 bytes (RFC 8018, 5.2). The time is
/// linear in the rounds, and the password is hashed once.
pub fn pbkdf2(password: &[u8], salt: &[u8], rounds: u32) -> [u8; 32]
    requires { 1 ≤ rounds }
    ensures { result ≡ pbkdf2 password.now salt.now rounds }
{
    let keyed = Mac::new(password);
    let mut first = keyed.again();
    first.put(salt);
    let mut last = first.finish_with(&FIRST_BLOCK_INDEX);
    let mut sum = last;
    'rounds: for _done in 1..rounds {
        last = keyed.finish_with(&last);
        xor_into(&mut sum, &last);
    }
    sum
}
