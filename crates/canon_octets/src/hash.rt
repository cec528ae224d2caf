//! Places that keep a hash of what they take, up to a limit.
ghost use Rattle.std.specs.Prelude.{ℕ, ◌≤◌, ◌↔◌, ◌++◌, List, [], length, true, IsOk};
ghost use Rattle.std.specs.Option.{SomeIff};
ghost use Rattle.sha2.specs.Sha256.{sha256};
ghost use Rattle.hmac_sha256.specs.Hmac.{hmac};

use crate::octets::Octets;
use crate::room::Room;
use hmac_sha256::Mac;
use owned_values::NoMemory;
use sha2::{Digest, Sha256};

/// Takes bytes up to a limit, and keeps no more than their SHA-256 so far (FIPS 180-4).
#[derive(Drop)]
pub struct HashOctets {
    hash: Sha256,
    room: Room,
}

impl HashOctets {
    ghost use Rattle.canon_octets.specs.Hashed.{HasTaken};

    /// No bytes, in a place that takes so many. It takes no memory.
    pub fn within(limit: usize) -> HashOctets
        ensures { HasTaken result limit [] }
    {
        HashOctets {
            hash: Sha256::new(),
            room: Room::of(limit),
        }
    }

    /// The SHA-256 of all bytes that were put; none where they are more than the place takes. It takes no memory.
    pub fn finish(self) -> Option<[u8; 32]>
        ensures { (limit : ℕ) (bytes : List ℕ) → HasTaken self limit bytes →
            SomeIff result (length bytes ≤ limit) (sha256 bytes) }
    {
        let HashOctets { hash, room } = self;
        if room.is_passed() {
            return None;
        }
        Some(hash.finalize())
    }
}

impl Octets for HashOctets {
    ghost use Rattle.canon_octets.specs.Hashed.{HasTaken};
    ghost use Rattle.canon_octets.specs.Composing.{appends_by_taking};

    ghost appends = { λ before after bytes. (limit : ℕ) (taken : List ℕ) →
        HasTaken before limit taken → HasTaken after limit (taken ++ bytes) };

    ghost may_refuse = { true };

    ghost composes = { appends_by_taking HasTaken };

    /// It answers NoMemory just where more bytes came than it takes, this piece among them.
    fn put(&mut self, bytes: &[u8]) -> Result<(), NoMemory>
        ensures taken { (limit : ℕ) (taken : List ℕ) → HasTaken self.old limit taken →
            HasTaken self.new limit (taken ++ bytes.now) }
        ensures room { (limit : ℕ) (taken : List ℕ) → HasTaken self.old limit taken →
            IsOk result ↔ (length (taken ++ bytes.now) ≤ limit) }
    {
        if !self.room.takes(bytes.len()) {
            return Err(NoMemory);
        }
        self.hash.update(bytes);
        Ok(())
    }
}

/// Takes bytes up to a limit, and keeps no more than their HMAC-SHA256 so far (RFC 2104).
#[derive(Drop)]
pub struct MacOctets {
    mac: Mac,
    room: Room,
}

impl MacOctets {
    ghost use Rattle.canon_octets.specs.Hashed.{HasTakenUnder};

    /// No bytes, in a place that takes so many, under this key. It takes no memory.
    pub fn within(limit: usize, key: &[u8]) -> MacOctets
        ensures { HasTakenUnder result limit key.now [] }
    {
        MacOctets {
            mac: Mac::new(key),
            room: Room::of(limit),
        }
    }

    /// The HMAC-SHA256 of all bytes that were put; none where they are more than the place takes. It takes no memory.
    pub fn finish(self) -> Option<[u8; 32]>
        ensures { (limit : ℕ) (key bytes : List ℕ) → HasTakenUnder self limit key bytes →
            SomeIff result (length bytes ≤ limit) (hmac key bytes) }
    {
        let MacOctets { mac, room } = self;
        if room.is_passed() {
            return None;
        }
        Some(mac.finish())
    }
}

impl Octets for MacOctets {
    ghost use Rattle.canon_octets.specs.Hashed.{HasTakenUnder};
    ghost use Rattle.canon_octets.specs.Composing.{appends_by_taking_under};

    ghost appends = { λ before after bytes. (limit : ℕ) (key taken : List ℕ) →
        HasTakenUnder before limit key taken → HasTakenUnder after limit key (taken ++ bytes) };

    ghost may_refuse = { true };

    ghost composes = { appends_by_taking_under HasTakenUnder };

    /// It answers NoMemory just where more bytes came than it takes, this piece among them.
    fn put(&mut self, bytes: &[u8]) -> Result<(), NoMemory>
        ensures taken { (limit : ℕ) (key taken : List ℕ) → HasTakenUnder self.old limit key taken →
            HasTakenUnder self.new limit key (taken ++ bytes.now) }
        ensures room { (limit : ℕ) (key taken : List ℕ) → HasTakenUnder self.old limit key taken →
            IsOk result ↔ (length (taken ++ bytes.now) ≤ limit) }
    {
        if !self.room.takes(bytes.len()) {
            return Err(NoMemory);
        }
        self.mac.put(bytes);
        Ok(())
    }
}
