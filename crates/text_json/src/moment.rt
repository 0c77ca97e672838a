//! Times in the form of RFC 3339.
ghost use Rattle.std.specs.Prelude.{◌≡◌, ◌||◌, IfSome, IsSome, Some, codes, if◌then◌else◌, int_lt, pos};
ghost use Rattle.std.specs.Fmt.{DisplaysOnOk};
ghost use Rattle.der_base.specs.Time.{at_least_digits};
ghost use Rattle.text_json.specs.Timestamps.{HasTimestamp, fraction_text, full_year, is_leap, last_day, zone_text};

use der_base::time::{ASN1DateTime, ASN1TimeZone};
use std::fmt;

/// A time in the form of RFC 3339 5.6, such as `2026-11-24T22:37:06Z`.
#[derive(Clone, Copy)]
pub(crate) struct Timestamp {
    time: ASN1DateTime,
    /// Whether it is a UTCTime, whose year has two digits.
    is_utc_time: bool,
}

/// A time in the form of RFC 3339. None for a local time, or a day that the month doesn't have.
pub(crate) fn timestamp_of(time: ASN1DateTime, is_utc_time: bool) -> Option<Timestamp>
    ensures some { IfSome result (λ x. (x.time ≡ time) × (x.is_utc_time ≡ is_utc_time)
        × HasTimestamp is_utc_time time) }
    ensures only { HasTimestamp is_utc_time time → IsSome result }
{
    if time.tz == ASN1TimeZone::Undefined {
        return None;
    }
    if time.day > last_day(full_year(time, is_utc_time), time.month) {
        return None;
    }
    Some(Timestamp { time, is_utc_time })
}

/// The year, completed by RFC 5280 if it is of a UTCTime.
fn full_year(time: ASN1DateTime, is_utc_time: bool) -> u32
    ensures { result ≡ full_year is_utc_time time }
{
    if is_utc_time {
        time.rfc5280_year()
    } else {
        time.year
    }
}

/// The last day of a month (RFC 3339 5.7).
fn last_day(year: u32, month: u8) -> u8
    ensures { result ≡ last_day year month }
{
    match month {
        2 if is_leap(year) => 29,
        2 => 28,
        4 | 6 | 9 | 11 => 30,
        _ => 31,
    }
}

/// Returns whether a year has 366 days (RFC 3339 appendix C).
fn is_leap(year: u32) -> bool
    ensures { result ≡ is_leap year }
{
    year % 4 == 0 && (year % 100 != 0 || year % 400 == 0)
}

impl fmt::Display for Timestamp {
    ghost use Rattle.std.specs.Prelude.{Some};
    ghost use Rattle.text_json.specs.Timestamps.{timestamp_text};

    ghost output = { λ x. Some (timestamp_text x.is_utc_time x.time) };

    fn fmt<W: fmt::Write>(&self, f: &mut fmt::Formatter<W>) -> fmt::Result {
        let time = self.time;
        let year = Digits {
            number: full_year(time, self.is_utc_time),
            least: 4,
        };
        let month = two_digits(time.month);
        let day = two_digits(time.day);
        write!(f, "{year}-{month}-{day}")?;
        let hour = two_digits(time.hour);
        let minute = two_digits(time.minute);
        let second = two_digits(time.second);
        write!(f, "T{hour}:{minute}:{second}")?;
        write_fraction(f, time.nanosecond)?;
        write_zone(f, time.tz)
    }
}

/// Writes the fraction of a second in nine digits, if there is one.
fn write_fraction<W: fmt::Write>(f: &mut fmt::Formatter<W>, fraction: Option<u32>) -> fmt::Result
    ensures { DisplaysOnOk W.Write.write_str_gives f.old result (Some (fraction_text fraction)) f.new }
{
    match fraction {
        Some(number) => write!(f, ".{}", Digits { number, least: 9 }),
        None => Ok(()),
    }
}

/// Writes the zone; nothing for a local time.
fn write_zone<W: fmt::Write>(f: &mut fmt::Formatter<W>, zone: ASN1TimeZone) -> fmt::Result
    ensures { DisplaysOnOk W.Write.write_str_gives f.old result (Some (zone_text zone)) f.new }
{
    match zone {
        ASN1TimeZone::Undefined => Ok(()),
        ASN1TimeZone::Z => write!(f, "Z"),
        ASN1TimeZone::Offset(hours, minutes) => {
            let sign = sign(hours, minutes);
            let hours = two_digits(hours.unsigned_abs());
            let minutes = Minutes(minutes.unsigned_abs());
            write!(f, "{sign}{hours}{minutes}")
        }
    }
}

/// The minutes of a UTC offset, after a colon.
#[derive(Clone, Copy)]
struct Minutes(u8);

impl fmt::Display for Minutes {
    ghost use Rattle.std.specs.Prelude.{Some};
    ghost use Rattle.text_json.specs.Timestamps.{minutes_text};

    ghost output = { λ x. Some (minutes_text x.0) };

    fn fmt<W: fmt::Write>(&self, f: &mut fmt::Formatter<W>) -> fmt::Result {
        let minutes = two_digits(self.0);
        write!(f, ":{minutes}")
    }
}

/// The sign of a UTC offset.
fn sign(hours: i8, minutes: i8) -> &'static str
    ensures { result.now ≡ (if int_lt hours (pos 0) || int_lt minutes (pos 0) then codes "-" else codes "+") }
{
    if hours < 0 || minutes < 0 { "-" } else { "+" }
}

/// A number in at least this number of digits.
#[derive(Clone, Copy)]
struct Digits {
    number: u32,
    least: usize,
}

impl fmt::Display for Digits {
    ghost use Rattle.std.specs.Prelude.{Some};
    ghost use Rattle.der_base.specs.Time.{at_least_digits};

    ghost output = { λ x. Some (at_least_digits x.least x.number) };

    fn fmt<W: fmt::Write>(&self, f: &mut fmt::Formatter<W>) -> fmt::Result {
        let number = self.number;
        let least = self.least;
        write!(f, "{number:0least$}")
    }
}

/// A number in at least two digits.
fn two_digits(number: u8) -> Digits
    ensures { at_least_digits result.least result.number ≡ at_least_digits 2 number }
{
    Digits {
        number: u32::from(number),
        least: 2,
    }
}
