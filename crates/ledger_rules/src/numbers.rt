//! Numbers, and the IDs that begin with them.
ghost use Rattle.std.specs.Prelude.{◌≡◌, ◌<◌, ◌≤◌, ◌+◌, ◌^◌, ℕ, true, Some, [], ◌∷◌, ◌++◌, length, slice_index, OnOk, OnErr};
ghost use Rattle.ledger_rules.specs.Numbers.{has_number, is_xml_text, Ascend, AreBelow, IsPlaceOf};

use owned_values::NoMemory;
use std::alloc::Global;
use std::marker::Model;

/// How many bytes of an ID its number takes, the one in front included.
const FRONT: usize = 17;

/// Whether an ID begins with this number: `_`, and its 16 lower hex digits.
pub fn has_number(number: u64, id: &str) -> bool
    ensures { result ≡ has_number number id.now }
{
    let mut front = [b'_'; FRONT];
    hex::encode_to_slice(number.to_be_bytes(), &mut front[1..]).unwrap();
    id.as_bytes().get(..FRONT) == Some(front.as_slice())
}

/// Whether a text holds characters alone that a document may hold (XML 1.0, 2.2).
pub fn is_xml_text(text: &str) -> bool
    ensures { result ≡ is_xml_text text.now }
{
    xml_chars::is_text(text)
}

/// The number with which an ID may begin. Where it begins with a number, it is this one.
fn number_in(id: &str) -> Option<u64>
    ensures { (n : ℕ) → n < 2 ^ 64 → has_number n id.now ≡ true → result ≡ Some n }
{
    let digits = id.as_bytes().get(1..FRONT)?;
    let mut bytes = [0; 8];
    hex::decode_to_slice(digits, &mut bytes).ok()?;
    Some(u64::from_be_bytes(bytes))
}

/// The only place in these numbers, which ascend, whose number the ID may have.
fn place_in(numbers: &[u64], id: &str) -> Option<usize>
    requires { Ascend numbers.now }
    ensures { IsPlaceOf numbers.now id.now result }
{
    let number = number_in(id)?;
    numbers.binary_search(&number).ok()
}

/// The numbers of rows, each less than the next.
#[derive(Debug, Drop)]
pub struct Numbers {
    numbers: Vec<u64>,
}

impl Model for Numbers {
    ghost use Rattle.std.specs.Prelude.{◌-◌, vec_len, vec_capacity};
    ghost use Rattle.ledger_rules.specs.Numbers.{NumbersView, Ascend};

    ghost Value = { NumbersView };

    ghost view = { λ n. record { listed = n.numbers.items; spare = vec_capacity n.numbers - vec_len n.numbers } };

    ghost invariant = { λ n. Ascend n.numbers.items };
}

impl Numbers {
    /// No numbers. It takes no memory.
    pub fn new(alloc: Global) -> Numbers
        ensures { result.listed ≡ [] }
    {
        Numbers {
            numbers: Vec::new(alloc),
        }
    }

    /// Makes room for one number at least. It takes away no room; where there is no memory all is as before.
    pub fn reserve(&mut self) -> Result<(), NoMemory>
        ensures same { self.new.listed ≡ self.old.listed }
        ensures ok { OnOk result (0 < self.new.spare) }
        ensures err { OnErr result (self.new ≡ self.old) }
        ensures kept { self.old.spare ≤ self.new.spare }
    {
        self.numbers.reserve(1)?;
        Ok(())
    }

    /// Puts a number behind the others, which are less, where there is room. It takes no memory.
    pub fn put(&mut self, number: u64)
        requires below { AreBelow number self.old.listed }
        requires room { 0 < self.old.spare }
        ensures listed { self.new.listed ≡ self.old.listed ++ number ∷ [] }
        ensures room { self.old.spare ≤ self.new.spare + 1 }
    {
        match self.numbers.push(number) {
            Ok(()) => {}
            Err(_) => unreachable!(),
        }
    }

    /// The only place, counted from 0, whose number the ID may have. It halves what is left at each step.
    pub fn place_of(&self, id: &str) -> Option<usize>
        ensures { IsPlaceOf self.now.listed id.now result }
    {
        place_in(self.numbers.as_slice(), id)
    }

    /// The number at a place.
    pub fn at(&self, place: usize) -> u64
        requires { place < length self.now.listed }
        ensures { result ≡ slice_index self.now.listed place }
    {
        self.numbers[place]
    }
}
