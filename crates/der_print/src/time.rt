//! UTCTime and GeneralizedTime in readable form.
ghost use Rattle.std.specs.Prelude.{◌≡◌, ◌||◌, Some, codes, if◌then◌else◌, int_lt, pos};
ghost use Rattle.std.specs.Fmt.{DisplaysOnOk};
ghost use Rattle.der_base.specs.Time.{at_least_digits, fraction_text, or_zero, without_last_zeros};
ghost use Rattle.der_print.specs.Values.{full_year, zone_text};

use der_base::time::{ASN1DateTime, ASN1TimeZone};
use std::fmt;

/// A time such as `2026-11-24 22:37:06 UTC`.
#[derive(Clone, Copy)]
pub struct Moment {
    pub time: ASN1DateTime,
    /// Whether it is a UTCTime, whose year has two digits.
    pub is_utc_time: bool,
}

impl fmt::Display for Moment {
    ghost use Rattle.std.specs.Prelude.{Some};
    ghost use Rattle.der_print.specs.Values.{moment_text};

    ghost output = { λ x. Some (moment_text x.is_utc_time x.time) };

    fn fmt<W: fmt::Write>(&self, f: &mut fmt::Formatter<W>) -> fmt::Result {
        let time = self.time;
        let year = Digits {
            number: full_year(time, self.is_utc_time),
            least: 4,
        };
        let month = two_digits(time.month);
        let day = two_digits(time.day);
        write!(f, "{year}-{month}-{day}")?;
        let hour = two_digits(time.hour);
        let minute = two_digits(time.minute);
        let second = two_digits(time.second);
        write!(f, " {hour}:{minute}:{second}")?;
        write_fraction(f, time.nanosecond)?;
        write_zone(f, time.tz)
    }
}

/// A number in at least this number of digits.
#[derive(Clone, Copy)]
struct Digits {
    number: u32,
    least: usize,
}

impl fmt::Display for Digits {
    ghost use Rattle.std.specs.Prelude.{Some};
    ghost use Rattle.der_base.specs.Time.{at_least_digits};

    ghost output = { λ x. Some (at_least_digits x.least x.number) };

    fn fmt<W: fmt::Write>(&self, f: &mut fmt::Formatter<W>) -> fmt::Result {
        let number = self.number;
        let least = self.least;
        write!(f, "{number:0least$}")
    }
}

/// A number in at least two digits.
fn two_digits(number: u8) -> Digits
    ensures { at_least_digits result.least result.number ≡ at_least_digits 2 number }
{
    Digits {
        number: u32::from(number),
        least: 2,
    }
}

/// The year, completed by RFC 5280 if it is of a UTCTime.
fn full_year(time: ASN1DateTime, is_utc_time: bool) -> u32
    ensures { result ≡ full_year is_utc_time time }
{
    if is_utc_time {
        time.rfc5280_year()
    } else {
        time.year
    }
}

/// Writes the fraction of a second, if there is one.
fn write_fraction<W: fmt::Write>(f: &mut fmt::Formatter<W>, nanosecond: Option<u32>) -> fmt::Result
    ensures { DisplaysOnOk W.Write.write_str_gives f.old result (Some (fraction_text nanosecond)) f.new }
{
    match nanosecond {
        Some(nanosecond) => {
            let digits = shortest_fraction(nanosecond);
            write!(f, ".{digits}")
        }
        None => Ok(()),
    }
}

/// The digits after the point, without trailing zeros.
fn shortest_fraction(nanosecond: u32) -> Digits
    ensures { at_least_digits result.least result.number ≡ or_zero (without_last_zeros (at_least_digits 9 nanosecond)) }
{
    if nanosecond == 0 {
        return Digits {
            number: 0,
            least: 1,
        };
    }
    let mut number = nanosecond;
    let mut least = 9;
    while number % 10 == 0 {
        number /= 10;
        least -= 1;
    }
    Digits { number, least }
}

/// Writes the zone.
fn write_zone<W: fmt::Write>(f: &mut fmt::Formatter<W>, zone: ASN1TimeZone) -> fmt::Result
    ensures { DisplaysOnOk W.Write.write_str_gives f.old result (Some (zone_text zone)) f.new }
{
    match zone {
        ASN1TimeZone::Undefined => write!(f, " local time"),
        ASN1TimeZone::Z => write!(f, " UTC"),
        ASN1TimeZone::Offset(hours, minutes) => {
            let sign = sign(hours, minutes);
            let hours = two_digits(hours.unsigned_abs());
            let minutes = Minutes(minutes.unsigned_abs());
            write!(f, "{sign}{hours}{minutes}")
        }
    }
}

/// The minutes of a UTC offset, after a colon.
#[derive(Clone, Copy)]
struct Minutes(u8);

impl fmt::Display for Minutes {
    ghost use Rattle.std.specs.Prelude.{Some};
    ghost use Rattle.der_print.specs.Values.{minutes_text};

    ghost output = { λ x. Some (minutes_text x.0) };

    fn fmt<W: fmt::Write>(&self, f: &mut fmt::Formatter<W>) -> fmt::Result {
        let minutes = two_digits(self.0);
        write!(f, ":{minutes}")
    }
}

/// A space and the sign of a UTC offset.
fn sign(hours: i8, minutes: i8) -> &'static str
    ensures { result.now ≡ (if int_lt hours (pos 0) || int_lt minutes (pos 0) then codes " -" else codes " +") }
{
    if hours < 0 || minutes < 0 { " -" } else { " +" }
}
