//! Times for C.
ghost use Rattle.std.specs.Prelude.{◌≡◌};
ghost use Rattle.c_values.specs.Values.{AnswersTime, time_fields, zone_hours, zone_minutes, zone_number};

use der_base::error::BerError;
use der_base::header::Tag;
use der_base::rules::Rules;
use der_base::time::{ASN1DateTime, ASN1TimeZone};
use der_values::read_time;

/// The fields of a UTCTime or a GeneralizedTime.
#[repr(C)]
#[derive(Clone, Copy)]
pub struct DmTime {
    /// The year. For a UTCTime it is 1950 to 2049, by RFC 5280 4.1.2.5.1.
    pub year: u32,
    /// The fraction of the second in nanoseconds, 0 if there is none.
    pub nanosecond: u32,
    /// From 1 to 12.
    pub month: u8,
    /// From 1 to 31, whatever the month.
    pub day: u8,
    /// From 0 to 23.
    pub hour: u8,
    /// From 0 to 59.
    pub minute: u8,
    /// From 0 to 59.
    pub second: u8,
    /// 0 for a local time, 1 for universal time, 2 for an offset from it.
    pub zone: u8,
    /// The hours of the offset, negative west of universal time.
    pub zone_hours: i8,
    /// The minutes of the offset, with the same sign.
    pub zone_minutes: i8,
}

/// Reads the content octets of a UTCTime (23) or a GeneralizedTime (24). InvalidDateTime if they aren't one, and for
/// any other type.
pub fn read_fields(tag: Tag, content: &[u8]) -> Result<DmTime, BerError>
    ensures { AnswersTime tag.0 content.now result }
{
    match tag {
        Tag::UtcTime | Tag::GeneralizedTime => {
            Ok(time_fields(read_time(Rules::Ber, tag, content)?))
        }
        _ => Err(BerError::InvalidDateTime),
    }
}

/// The fields of a time whose year is complete.
pub fn time_fields(time: ASN1DateTime) -> DmTime
    ensures { result ≡ time_fields time }
{
    let (zone, zone_hours, zone_minutes) = zone_fields(time.tz);
    DmTime {
        year: time.year,
        nanosecond: time.nanosecond.unwrap_or(0),
        month: time.month,
        day: time.day,
        hour: time.hour,
        minute: time.minute,
        second: time.second,
        zone,
        zone_hours,
        zone_minutes,
    }
}

/// The number of a zone, and the hours and minutes of its offset.
fn zone_fields(zone: ASN1TimeZone) -> (u8, i8, i8)
    ensures { result ≡ (zone_number zone, zone_hours zone, zone_minutes zone) }
{
    match zone {
        ASN1TimeZone::Undefined => (0, 0, 0),
        ASN1TimeZone::Z => (1, 0, 0),
        ASN1TimeZone::Offset(hours, minutes) => (2, hours, minutes),
    }
}
