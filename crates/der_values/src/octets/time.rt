//! The texts of UTCTime and GeneralizedTime, written from the last digit to the first (X.690 11.7
//! and 11.8).
ghost use Rattle.std.specs.Prelude.{◌≡◌, ◌+◌, ◌≤◌, ◌||◌, [], ◌∷◌, if◌then◌else◌, codes, int_lt, length, pos};
ghost use Rattle.der_base.specs.Time.{at_least_digits, or_zero, without_last_zeros, fraction_text, zone_text};
ghost use Rattle.der_base.specs.Time.{text_from_year};
ghost use Rattle.der_values.specs.Octets.Room.{PutsBefore};

use crate::octets::decimal::{digits_length, write_digits};
use crate::octets::write_octet;
use der_base::time::{ASN1DateTime, ASN1TimeZone};

/// The least number of digits in the year of a UTCTime.
pub const UTC_YEAR: usize = 2;

/// The least number of digits in the year of a GeneralizedTime.
pub const GENERALIZED_YEAR: usize = 4;

/// How many octets the text of a time has, with a year of at least `year_digits` digits.
#[tactic(auto, using(crate::proofs::OctetsLaws::Digits::text_length))]
pub fn time_length(year_digits: usize, time: ASN1DateTime) -> usize
    requires { year_digits ≤ 4 }
    ensures count { result ≡ length (text_from_year year_digits time) }
    ensures few { result ≤ 119 }
{
    digits_length(year_digits, time.year)
        + digits_length(2, u32::from(time.month))
        + digits_length(2, u32::from(time.day))
        + digits_length(2, u32::from(time.hour))
        + digits_length(2, u32::from(time.minute))
        + digits_length(2, u32::from(time.second))
        + fraction_length(time.nanosecond)
        + zone_length(time.tz)
}

/// How many octets the text of a zone has.
fn zone_length(zone: ASN1TimeZone) -> usize
    ensures count { result ≡ length (zone_text zone) }
    ensures few { result ≤ 25 }
{
    match zone {
        ASN1TimeZone::Undefined => 0,
        ASN1TimeZone::Z => 1,
        ASN1TimeZone::Offset(hours, minutes) => {
            1 + digits_length(2, u32::from(hours.unsigned_abs()))
                + digits_length(2, u32::from(minutes.unsigned_abs()))
        }
    }
}

/// How many octets the text of a fraction has: 0 if there is none.
fn fraction_length(nanosecond: Option<u32>) -> usize
    ensures count { result ≡ length (fraction_text nanosecond) }
    ensures few { result ≤ 20 }
{
    match nanosecond {
        Some(nanosecond) => {
            let (digits, number) = without_last_zeros(nanosecond);
            1 + digits_length(digits, number)
        }
        None => 0,
    }
}

/// Writes the text of a time before an offset, with a year of at least `year_digits` digits.
pub fn write_time(out: &mut [u8], end: usize, year_digits: usize, time: ASN1DateTime) -> usize
    requires room { length (text_from_year year_digits time) ≤ end }
    requires within { end ≤ length out.old }
    ensures { PutsBefore out.old out.new end (text_from_year year_digits time) result }
{
    let begin = write_zone(out, end, time.tz);
    let begin = write_fraction(out, begin, time.nanosecond);
    let begin = write_digits(out, begin, 2, u32::from(time.second));
    let begin = write_digits(out, begin, 2, u32::from(time.minute));
    let begin = write_digits(out, begin, 2, u32::from(time.hour));
    let begin = write_digits(out, begin, 2, u32::from(time.day));
    let begin = write_digits(out, begin, 2, u32::from(time.month));
    write_digits(out, begin, year_digits, time.year)
}

/// Writes a zone before an offset.
fn write_zone(out: &mut [u8], end: usize, zone: ASN1TimeZone) -> usize
    requires room { length (zone_text zone) ≤ end }
    requires within { end ≤ length out.old }
    ensures { PutsBefore out.old out.new end (zone_text zone) result }
{
    match zone {
        ASN1TimeZone::Undefined => end,
        ASN1TimeZone::Z => write_octet(out, end, b'Z'),
        ASN1TimeZone::Offset(hours, minutes) => {
            let begin = write_digits(out, end, 2, u32::from(minutes.unsigned_abs()));
            let begin = write_digits(out, begin, 2, u32::from(hours.unsigned_abs()));
            write_octet(out, begin, sign(hours, minutes))
        }
    }
}

/// The sign of an offset, a minus if either number is negative.
fn sign(hours: i8, minutes: i8) -> u8
    ensures { result ∷ [] ≡ (if int_lt hours (pos 0) || int_lt minutes (pos 0) then codes "-" else codes "+") }
{
    if hours < 0 || minutes < 0 { b'-' } else { b'+' }
}

/// Writes a fraction of a second before an offset, if there is one, without trailing zeros.
fn write_fraction(out: &mut [u8], end: usize, nanosecond: Option<u32>) -> usize
    requires room { length (fraction_text nanosecond) ≤ end }
    requires within { end ≤ length out.old }
    ensures { PutsBefore out.old out.new end (fraction_text nanosecond) result }
{
    let Some(nanosecond) = nanosecond else {
        return end;
    };
    let (digits, number) = without_last_zeros(nanosecond);
    let begin = write_digits(out, end, digits, number);
    write_octet(out, begin, b'.')
}

/// Removes the trailing zeros of a number that is written with at least nine digits. Returns how many digits it has at
/// least after that, and the number. 0 keeps one digit.
fn without_last_zeros(n: u32) -> (usize, u32)
    ensures digits { at_least_digits result.0 result.1 ≡ or_zero (without_last_zeros (at_least_digits 9 n)) }
    ensures few { result.0 ≤ 9 }
{
    if n == 0 {
        return (1, 0);
    }
    let (mut digits, mut rest): (usize, u32) = (9, n);
    while rest % 10 == 0 {
        digits = digits.saturating_sub(1);
        rest /= 10;
    }
    (digits, rest)
}
