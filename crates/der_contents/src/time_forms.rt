//! The texts of UTCTime and GeneralizedTime (X.680 46 and 47, X.690 8.25; by DER 11.7 and 11.8).
ghost use Rattle.std.specs.Prelude.{◌≡◌, ◌↔◌, ◌++◌, ◌⊎◌, IsTrue, codes, drop};
ghost use Rattle.der_base.specs.Time.{IsDigit};
ghost use Rattle.der_contents.specs.ContentRules.{Checks, fraction_rules, generalized_time_rules, strict_time_rules};
ghost use Rattle.der_contents.specs.ContentRules.{utc_time_rules};
ghost use Rattle.der_contents.specs.Grammar.{Ends, NumberThen, SomeThen, Strips};
ghost use Rattle.der_contents.specs.TimeForms.{CenturyToHour, EndsHour, EndsInZ, EndsMinute, EndsOffset, EndsTime};
ghost use Rattle.der_contents.specs.TimeForms.{EndsUtcTime, HasComma, HasLastZero, IsGeneralizedTimeText, IsLastZone};
ghost use Rattle.der_contents.specs.TimeForms.{IsOffset, IsUtcTimeText, IsZone, MonthToHour, UtcToMinute};

use crate::content_error::ContentError;
use crate::grammar::{
    count_digits, is_end, is_number, strip_digits, strip_mark, strip_number, strip_sign,
};
use der_base::rules::Rules;

/// The digits of a UTCTime up to its second.
const UTC_DIGITS: usize = 12;
/// The digits of a GeneralizedTime up to its second.
const GENERALIZED_DIGITS: usize = 14;

/// Checks the octets of a UTCTime.
pub(crate) fn check_utc_time(rules: Rules, octets: &[u8]) -> Result<(), ContentError>
    ensures { Checks (utc_time_rules rules octets.now) result }
{
    if !is_utc_time(octets) {
        return Err(ContentError::TimeText);
    }
    match rules {
        Rules::Ber => Ok(()),
        Rules::Der => check_strict_time(octets, UTC_DIGITS),
    }
}

/// Checks the octets of a GeneralizedTime.
pub(crate) fn check_generalized_time(rules: Rules, octets: &[u8]) -> Result<(), ContentError>
    ensures { Checks (generalized_time_rules rules octets.now) result }
{
    if !is_generalized_time(octets) {
        return Err(ContentError::TimeText);
    }
    match rules {
        Rules::Ber => Ok(()),
        Rules::Der => check_strict_generalized_time(octets),
    }
}

fn check_strict_generalized_time(octets: &[u8]) -> Result<(), ContentError>
    ensures { Checks (strict_time_rules 14 octets.now ++ fraction_rules (drop 14 octets.now)) result }
{
    match check_strict_time(octets, GENERALIZED_DIGITS) {
        Ok(()) => check_fraction(&octets[GENERALIZED_DIGITS..]),
        Err(e) => Err(e),
    }
}

fn check_strict_time(octets: &[u8], digits: usize) -> Result<(), ContentError>
    ensures { Checks (strict_time_rules digits octets.now) result }
{
    if !ends_in_z(octets) {
        return Err(ContentError::TimeNotInZ);
    }
    if count_digits(octets) < digits {
        return Err(ContentError::TimeWithoutSeconds);
    }
    Ok(())
}

fn ends_in_z(octets: &[u8]) -> bool
    ensures { IsTrue result ↔ EndsInZ octets.now }
{
    octets.ends_with(b"Z")
}

/// Checks what follows the second.
fn check_fraction(behind: &[u8]) -> Result<(), ContentError>
    ensures { Checks (fraction_rules behind.now) result }
{
    if has_comma(behind) {
        return Err(ContentError::TimeComma);
    }
    if has_last_zero(behind) {
        return Err(ContentError::TimeLastZero);
    }
    Ok(())
}

fn has_comma(behind: &[u8]) -> bool
    ensures { IsTrue result ↔ HasComma behind.now }
{
    behind.starts_with(b",")
}

fn has_last_zero(behind: &[u8]) -> bool
    ensures { IsTrue result ↔ HasLastZero behind.now }
{
    behind.starts_with(b".") && behind.ends_with(b"0Z")
}

fn is_utc_time(octets: &[u8]) -> bool
    ensures { IsTrue result ↔ IsUtcTimeText octets.now }
{
    match strip_utc_to_minute(octets) {
        Some(rest) => ends_utc_time(rest),
        None => false,
    }
}

fn strip_utc_to_minute(octets: &[u8]) -> Option<&[u8]>
    ensures { Strips UtcToMinute octets.now result }
{
    match strip_number(octets, 0, 99) {
        Some(month) => strip_month_to_minute(month),
        None => None,
    }
}

fn strip_month_to_minute(octets: &[u8]) -> Option<&[u8]>
    ensures { Strips (λ G. MonthToHour (NumberThen 0 59 G)) octets.now result }
{
    match strip_month_to_hour(octets) {
        Some(minute) => strip_number(minute, 0, 59),
        None => None,
    }
}

fn strip_month_to_hour(octets: &[u8]) -> Option<&[u8]>
    ensures { Strips MonthToHour octets.now result }
{
    match strip_number(octets, 1, 12) {
        Some(day) => strip_day_and_hour(day),
        None => None,
    }
}

fn strip_day_and_hour(octets: &[u8]) -> Option<&[u8]>
    ensures { Strips (λ G. NumberThen 1 31 (NumberThen 0 23 G)) octets.now result }
{
    match strip_number(octets, 1, 31) {
        Some(hour) => strip_number(hour, 0, 23),
        None => None,
    }
}

fn ends_utc_time(octets: &[u8]) -> bool
    ensures { IsTrue result ↔ EndsUtcTime octets.now }
{
    match strip_number(octets, 0, 59) {
        Some(zone) => is_zone(zone),
        None => is_zone(octets),
    }
}

fn is_zone(octets: &[u8]) -> bool
    ensures { IsTrue result ↔ IsZone octets.now }
{
    match strip_sign(octets) {
        Some(offset) => is_offset(offset),
        None => is_z(octets),
    }
}

fn is_z(octets: &[u8]) -> bool
    ensures { IsTrue result ↔ (octets.now ≡ codes "Z") }
{
    matches!(octets, [b'Z'])
}

fn is_offset(octets: &[u8]) -> bool
    ensures { IsTrue result ↔ IsOffset octets.now }
{
    match strip_number(octets, 0, 23) {
        Some(minutes) => is_number(minutes, 0, 59),
        None => false,
    }
}

fn is_generalized_time(octets: &[u8]) -> bool
    ensures { IsTrue result ↔ IsGeneralizedTimeText octets.now }
{
    match strip_century_to_hour(octets) {
        Some(rest) => ends_hour(rest),
        None => false,
    }
}

fn strip_century_to_hour(octets: &[u8]) -> Option<&[u8]>
    ensures { Strips CenturyToHour octets.now result }
{
    match strip_number(octets, 0, 99) {
        Some(year) => strip_year_to_hour(year),
        None => None,
    }
}

fn strip_year_to_hour(octets: &[u8]) -> Option<&[u8]>
    ensures { Strips (λ G. NumberThen 0 99 (MonthToHour G)) octets.now result }
{
    match strip_number(octets, 0, 99) {
        Some(month) => strip_month_to_hour(month),
        None => None,
    }
}

fn ends_hour(octets: &[u8]) -> bool
    ensures { IsTrue result ↔ EndsHour octets.now }
{
    match strip_number(octets, 0, 59) {
        Some(rest) => ends_minute(rest),
        None => ends_time(octets),
    }
}

fn ends_minute(octets: &[u8]) -> bool
    ensures { IsTrue result ↔ EndsMinute octets.now }
{
    match strip_number(octets, 0, 60) {
        Some(rest) => ends_time(rest),
        None => ends_time(octets),
    }
}

fn ends_time(octets: &[u8]) -> bool
    ensures { IsTrue result ↔ EndsTime octets.now }
{
    match strip_mark(octets) {
        Some(fraction) => is_fraction_and_zone(fraction),
        None => is_last_zone(octets),
    }
}

fn is_fraction_and_zone(octets: &[u8]) -> bool
    ensures { IsTrue result ↔ SomeThen IsDigit IsLastZone octets.now }
{
    match strip_digits(octets) {
        Some(zone) => is_last_zone(zone),
        None => false,
    }
}

fn is_last_zone(octets: &[u8]) -> bool
    ensures { IsTrue result ↔ IsLastZone octets.now }
{
    match strip_sign(octets) {
        Some(offset) => is_short_offset(offset),
        None => is_z_or_end(octets),
    }
}

fn is_z_or_end(octets: &[u8]) -> bool
    ensures { IsTrue result ↔ ((octets.now ≡ codes "Z") ⊎ Ends octets.now) }
{
    is_z(octets) || is_end(octets)
}

/// Whether the octets are hours, or hours and minutes.
fn is_short_offset(octets: &[u8]) -> bool
    ensures { IsTrue result ↔ NumberThen 0 23 EndsOffset octets.now }
{
    match strip_number(octets, 0, 23) {
        Some(rest) => ends_offset(rest),
        None => false,
    }
}

fn ends_offset(octets: &[u8]) -> bool
    ensures { IsTrue result ↔ EndsOffset octets.now }
{
    match strip_number(octets, 0, 59) {
        Some(rest) => is_end(rest),
        None => is_end(octets),
    }
}
