// Numbers as people write them.

ghost use Rattle.std.specs.Prelude.{◌≡◌, ◌≤◌, IfSome};
ghost use Rattle.std.specs.List.{list_all};
ghost use Rattle.std.specs.Char.{is_ascii_digit};
ghost use Rattle.text_lines.specs.Numbers.{has_leading_zero, is_decimal, number_of, positive};

/// Whether a zero stands in front of other digits.
fn has_leading_zero(word: &[u8]) -> bool
    ensures { result ≡ has_leading_zero word.now }
{
    match word {
        [first, _, ..] => *first == b'0',
        _ => false,
    }
}

/// Whether each byte is a digit.
fn are_digits(word: &[u8]) -> bool
    ensures { result ≡ list_all is_ascii_digit word.now }
{
    word.iter().all(|digit| digit.is_ascii_digit())
}

/// Whether the word is decimal, without sign and without leading zeros.
fn is_decimal(word: &[u8]) -> bool
    ensures { result ≡ is_decimal word.now }
{
    !word.is_empty() && are_digits(word) && !has_leading_zero(word)
}

/// The number that the word spells in decimal, without sign and without leading zeros; none where it spells none or one
/// above `most`.
pub fn number_of(word: &str, most: u64) -> Option<u64>
    ensures { result ≡ number_of most word.now }
{
    if !is_decimal(word.as_bytes()) {
        return None;
    }
    match word.parse::<u64>() {
        Ok(number) if number <= most => Some(number),
        _ => None,
    }
}

/// The same, from 1 on: none where the word spells 0.
pub fn positive(word: &str, most: u64) -> Option<u64>
    ensures value { result ≡ positive most word.now }
    ensures first { IfSome result (λ number. 1 ≤ number) }
    ensures last { IfSome result (λ number. number ≤ most) }
{
    let number = number_of(word, most)?;
    if number == 0 {
        return None;
    }
    Some(number)
}
