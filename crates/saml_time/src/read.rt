//! Reading an instant, piece by piece. The reader of a piece in front of a text gives what the piece
//! means and the text behind it.
ghost use Rattle.std.specs.Prelude.{◌≡◌, ℕ, ◌<◌, ◌≤◌, ◌++◌, ◌∷◌, List, codes, Option, Some, IfSome, IsTrue, SomeIff, ◌↔◌, option_copied, ◌-◌, slice_index};
ghost use Rattle.saml_time.specs.Instant.{Instant, IsClock, IsDay, IsFraction, Spells, Tells, days_of, four_digits, milliseconds_of, moment, print_clock, print_day, print_digits, print_fraction, seconds_of, two_digits};
ghost use Rattle.saml_time.specs.Pieces.{AllDigits, FindsEach, Found, ShowsDigits, clock_of, day_of, read_of};

use crate::LAST;
use jiff_core::civil::Date;

/// The text behind this byte, if it comes first.
fn after(text: &[u8], byte: u8) -> Option<&[u8]>
    ensures found { IfSome result (λ rest. text.now ≡ byte ∷ rest.now) }
    ensures each { (rest : List ℕ) → text.now ≡ byte ∷ rest → option_copied result ≡ Some rest }
{
    match text {
        [first, rest @ ..] if *first == byte => Some(rest),
        _ => None,
    }
}

/// A number of two digits.
fn read_two_digits(text: &[u8]) -> Option<(u8, &[u8])>
    ensures found { IfSome result (λ p. (p.0 < 100) × (text.now ≡ two_digits p.0 ++ p.1.now)) }
    ensures each { FindsEach (λ n. n < 100) two_digits (λ n. n) text.now (read_of result) }
{
    match text {
        [tens @ b'0'..=b'9', ones @ b'0'..=b'9', rest @ ..] => {
            Some(((*tens - b'0') * 10 + (*ones - b'0'), rest))
        }
        _ => None,
    }
}

/// A number of four digits.
fn read_four_digits(text: &[u8]) -> Option<(u16, &[u8])>
    ensures found { IfSome result (λ p. (p.0 < 10000) × (text.now ≡ four_digits p.0 ++ p.1.now)) }
    ensures each { FindsEach (λ n. n < 10000) four_digits (λ n. n) text.now (read_of result) }
{
    match text {
        [
            thousands @ b'0'..=b'9',
            hundreds @ b'0'..=b'9',
            tens @ b'0'..=b'9',
            ones @ b'0'..=b'9',
            rest @ ..,
        ] => {
            let high = u16::from((*thousands - b'0') * 10 + (*hundreds - b'0'));
            let low = u16::from((*tens - b'0') * 10 + (*ones - b'0'));
            Some((high * 100 + low, rest))
        }
        _ => None,
    }
}

/// The days between 1970-01-01 and a date, if the calendar has it and it is not before.
fn days_since_1970(year: u16, month: u8, day: u8) -> Option<u64>
    requires year_fits { year < 10000 }
    requires month_fits { month < 100 }
    requires day_fits { day < 100 }
    ensures exact { SomeIff result (IsDay (day_of year month day))
        (days_of (day_of year month day)) }
    ensures bound { IfSome result (λ days. days ≤ 2_932_896) }
{
    if year < 1970 {
        return None;
    }
    let date = Date::new(year as i16, month as i8, day as i8).ok()?;
    // From 1970 on the day number is not negative.
    Some(u64::from(date.to_unix_epoch_day().unsigned_abs()))
}

/// A date from 1970 on, as days since 1970-01-01.
#[tactic(auto, using(crate::proofs::PieceLemmas::fits))]
fn read_day(text: &[u8]) -> Option<(u64, &[u8])>
    ensures found { IfSome result (λ p. Found IsDay print_day days_of text.now p.0 p.1.now) }
    ensures each { FindsEach IsDay print_day days_of text.now (read_of result) }
    ensures bound { IfSome result (λ p. p.0 ≤ 2_932_896) }
{
    let (year, rest) = read_four_digits(text)?;
    let (month, rest) = read_two_digits(after(rest, b'-')?)?;
    let (day, rest) = read_two_digits(after(rest, b'-')?)?;
    let days = days_since_1970(year, month, day)?;
    Some((days, rest))
}

/// The seconds between midnight and a time of day, if a clock shows it.
fn seconds_since_midnight(hour: u8, minute: u8, second: u8) -> Option<u64>
    ensures exact { SomeIff result (IsClock (clock_of hour minute second))
        (seconds_of (clock_of hour minute second)) }
    ensures bound { IfSome result (λ seconds. seconds < 86400) }
{
    if hour > 23 || minute > 59 || second > 59 {
        return None;
    }
    Some(u64::from(hour) * 3600 + u64::from(minute) * 60 + u64::from(second))
}

/// A time of day, as seconds since midnight.
fn read_clock(text: &[u8]) -> Option<(u64, &[u8])>
    ensures found { IfSome result (λ p. Found IsClock print_clock seconds_of text.now p.0 p.1.now) }
    ensures each { FindsEach IsClock print_clock seconds_of text.now (read_of result) }
    ensures bound { IfSome result (λ p. p.0 < 86400) }
{
    let (hour, rest) = read_two_digits(text)?;
    let (minute, rest) = read_two_digits(after(rest, b':')?)?;
    let (second, rest) = read_two_digits(after(rest, b':')?)?;
    let seconds = seconds_since_midnight(hour, minute, second)?;
    Some((seconds, rest))
}

/// The digit at this place, and 0 past the end.
fn digit_or_zero(digits: &[u8], place: usize) -> u16
    requires { AllDigits digits.now }
    ensures value { result ≡ slice_index digits.now place - 48 }
    ensures bound { result ≤ 9 }
{
    match digits.get(place) {
        Some(digit) => u16::from(*digit - b'0'),
        None => 0,
    }
}

/// Whether each byte is a decimal digit.
fn are_digits(bytes: &[u8]) -> bool
    ensures { IsTrue result ↔ AllDigits bytes.now }
{
    bytes.iter().all(u8::is_ascii_digit)
}

/// The milliseconds that the digits behind a point show, if they are one to nine digits.
fn read_milliseconds(digits: &[u8]) -> Option<u16>
    ensures found { IfSome result (λ ms. ShowsDigits digits.now ms) }
    ensures each { (shown : List ℕ) → IsFraction (Some shown) → digits.now ≡ print_digits shown
        → result ≡ Some (milliseconds_of (Some shown)) }
    ensures bound { IfSome result (λ ms. ms < 1000) }
{
    if digits.is_empty() || digits.len() > 9 || !are_digits(digits) {
        return None;
    }
    let [tenths, hundredths, thousandths] = [
        digit_or_zero(digits, 0),
        digit_or_zero(digits, 1),
        digit_or_zero(digits, 2),
    ];
    Some(100 * tenths + 10 * hundredths + thousandths)
}

/// The milliseconds of a fraction with its `Z`, if that is the whole text.
fn read_fraction(text: &[u8]) -> Option<u16>
    ensures found { IfSome result (λ ms.
        Found IsFraction print_fraction milliseconds_of text.now ms (codes "Z")) }
    ensures each { (f : Option (List ℕ)) → IsFraction f → text.now ≡ print_fraction f ++ codes "Z"
        → result ≡ Some (milliseconds_of f) }
    ensures bound { IfSome result (λ ms. ms < 1000) }
{
    match text {
        [b'Z'] => Some(0),
        [b'.', digits @ .., b'Z'] => read_milliseconds(digits),
        _ => None,
    }
}

/// The moment that a text tells, in milliseconds since 1970-01-01T00:00:00Z. The form is
/// `YYYY-MM-DDThh:mm:ss`, then nothing or `.` and one to nine digits, then `Z`: a date of the civil
/// calendar from 1970 to 9999, an hour up to 23, a minute and a second up to 59 (`dateTime` of XML
/// Schema 1.1 Part 2, 3.3.7, in UTC). Digits behind the third are dropped. `None` exactly for a text
/// that is not in this form.
pub fn read_instant(s: &str) -> Option<u64>
    ensures found { IfSome result (λ ms. Tells s.now ms) }

    // So `None` comes exactly where the text spells no instant.
    ensures each { (i : Instant) → Spells s.now i → result ≡ Some (moment i) }
    ensures bound { IfSome result (λ ms. ms ≤ LAST) }
{
    let (days, rest) = read_day(s.as_bytes())?;
    let (seconds, rest) = read_clock(after(rest, b'T')?)?;
    let milliseconds = read_fraction(rest)?;
    Some((days * 86_400 + seconds) * 1000 + u64::from(milliseconds))
}
