//! IDs as a function of a key, a kind and a number.
//!
//! An ID begins with its number, so that IDs of different numbers differ, and ends with output of
//! the ChaCha20 generator at a place that the kind and the number choose, so that it can't be
//! foreseen without the key. It can stand as the value of an ID attribute (XML 1.0, 3.3.1).
//!
//! Contracts see an [`Id`] as its bytes.
//!
//! # What is proved
//!
//! An ID is a function of key, kind and number (`id_of`); it is a Name of XML without a colon and a text of XML, and
//! two numbers give two IDs (`laws`).
#![tactic(auto)]

ghost use Rattle.std.specs.Prelude.{◌≡◌};
ghost use Rattle.saml_ids.specs.IdText.{id_text, random_bytes, number_of};
ghost use Rattle.saml_ids.specs.Laws.{IsUsableId};

pub mod laws;

use rand_chacha::ChaCha20Rng;
use rand_core::{Rng, SeedableRng};
use std::marker::Model;

// How many 32-bit words a block of ChaCha20 has (RFC 8439, 2.3).
const BLOCK_WORDS: u128 = 16;

/// What an ID names. Each kind has a stream of the generator of its own.
#[derive(Debug, Clone, Copy, PartialEq, Eq)]
pub enum Kind {
    /// A request to another provider.
    Request,
    /// A RelayState.
    Relay,
    /// A session's cookie.
    Cookie,
    /// A session's index.
    Index,
    /// An assertion.
    Assertion,
    /// A message other than a request.
    Message,
    /// A login that waits for its password.
    Pending,
}

impl Kind {
    // The number of the kind, which is that of its stream.
    fn stream(self) -> u64
        ensures { result ≡ number_of self }
    {
        self as u64
    }
}

/// An ID of 57 bytes: `_`, the 16 lower hex digits of its number, and 40 lower hex digits of
/// generator output.
#[derive(Clone, Copy, PartialEq, Eq)]
pub struct Id {
    text: [u8; 57],
}

impl Model for Id {
    ghost use Rattle.std.specs.Prelude.{List, ℕ};

    ghost Value = { List ℕ };

    ghost use Rattle.saml_ids.specs.Names.{IsIdForm};

    ghost view = { λ id. id.text };

    ghost invariant = { λ id. IsIdForm id.text };

    ghost inverse = { λ bytes. record { text = bytes } };
}

impl Id {
    /// The 57 bytes as text.
    pub fn as_str(&self) -> &str
        ensures value { result.now ≡ self.now }
        ensures usable { IsUsableId result.now }
    {
        str::from_utf8(&self.text).unwrap()
    }
}

/// The ID of a kind and a number under a key. It takes no memory.
///
/// The 40 digits are the bytes of five words of the ChaCha20 generator with this key, at the
/// kind's stream and the first word of the block that has the number.
pub fn id_of(key: &[u8; 32], kind: Kind, number: u64) -> Id
    ensures { result ≡ id_text key.now kind number }
{
    let mut text = [b'_'; 57];
    hex::encode_to_slice(number.to_be_bytes(), &mut text[1..17]).unwrap();
    hex::encode_to_slice(random_of(key, kind, number), &mut text[17..]).unwrap();
    Id { text }
}

// The generator's bytes for a kind and a number.
fn random_of(key: &[u8; 32], kind: Kind, number: u64) -> [u8; 20]
    ensures { result ≡ random_bytes key.now kind number }
{
    let mut generator = ChaCha20Rng::from_seed(*key);
    generator.set_stream(kind.stream());
    generator.set_word_pos(BLOCK_WORDS * u128::from(number));
    let mut random = [0; 20];
    generator.fill_bytes(&mut random);
    random
}
