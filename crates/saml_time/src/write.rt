//! Writing an instant.
ghost use Rattle.std.specs.Prelude.{◌≡◌, ◌<◌, ◌≤◌, All, pos};
ghost use Rattle.std.specs.Char.{IsAsciiGraphic};
ghost use Rattle.jiff_core.specs.Date.{epoch_day};
ghost use Rattle.saml_time.specs.Instant.{TellsInFull, digit};

use crate::LAST;
use jiff_core::civil::Date;

const MILLISECONDS_OF_A_DAY: u64 = 86_400_000;

/// The digit of a number at the place that counts `place`, as a byte.
fn digit_at(number: u64, place: u64) -> u8
    requires { 0 < place }
    ensures { result ≡ digit number place }
{
    b'0' + (number / place % 10) as u8
}

/// Writes the moment `ms`, in milliseconds since 1970-01-01T00:00:00Z, as `YYYY-MM-DDThh:mm:ss.mmmZ`
/// (`dateTime` of XML Schema 1.1 Part 2, 3.3.7, in UTC, with three digits of a fraction).
pub fn put_instant(ms: u64, out: &mut [u8; 24])
    requires { ms ≤ LAST }
    ensures told { TellsInFull out.new ms }
    ensures printable { All IsAsciiGraphic out.new }
{
    let date = date_of(ms / MILLISECONDS_OF_A_DAY);
    // From 1970 on the year is not negative.
    let year = u64::from(date.year.unsigned_abs());
    let (month, day) = (u64::from(date.month), u64::from(date.day));
    let seconds = ms % MILLISECONDS_OF_A_DAY / 1000;
    let (hour, minute, second) = (seconds / 3600, seconds / 60 % 60, seconds % 60);
    let fraction = ms % 1000;
    *out = [
        digit_at(year, 1000),
        digit_at(year, 100),
        digit_at(year, 10),
        digit_at(year, 1),
        b'-',
        digit_at(month, 10),
        digit_at(month, 1),
        b'-',
        digit_at(day, 10),
        digit_at(day, 1),
        b'T',
        digit_at(hour, 10),
        digit_at(hour, 1),
        b':',
        digit_at(minute, 10),
        digit_at(minute, 1),
        b':',
        digit_at(second, 10),
        digit_at(second, 1),
        b'.',
        digit_at(fraction, 100),
        digit_at(fraction, 10),
        digit_at(fraction, 1),
        b'Z',
    ];
}

/// The date that many days after 1970-01-01.
fn date_of(days: u64) -> Date
    requires { days ≤ 2_932_896 }
    ensures { epoch_day result ≡ pos days }
{
    Date::from_unix_epoch_day(days as i64).unwrap()
}
