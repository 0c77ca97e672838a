//! Times that C writes.
ghost use Rattle.std.specs.Prelude.{◌≡◌, IsTrue};
ghost use Rattle.c_values.specs.Tested.{has_time, has_year, time_of};
ghost use Rattle.der_base.specs.Encoding.{content_octets};
ghost use Rattle.der_base.specs.Leaf.{is_time};
ghost use Rattle.der_base.specs.Tree.{time as time_content};
ghost use Rattle.der_writer.specs.Written.{PutsLeaf};

use crate::time::DmTime;
use der_base::header::Tag;
use der_base::time::{ASN1DateTime, ASN1TimeZone};
use der_writer::Writer;

/// Returns whether DER has a time of this type with these fields, in universal time (X.690 11.7, 11.8).
pub(crate) fn has_time(tag: Tag, time: &DmTime) -> bool
    ensures { result ≡ has_time tag.0 time.now }
{
    has_year(tag, time)
        && time.month >= 1
        && time.month <= 12
        && time.day >= 1
        && time.day <= 31
        && time.hour <= 23
        && time.minute <= 59
        && time.second <= 59
        && time.zone == 1
}

/// Returns whether the type allows this year and fraction.
fn has_year(tag: Tag, time: &DmTime) -> bool
    ensures { result ≡ has_year tag.0 time.now }
{
    if tag == Tag::UtcTime {
        time.year >= 1950 && time.year <= 2049 && time.nanosecond == 0
    } else {
        tag == Tag::GeneralizedTime && time.year <= 9999 && time.nanosecond <= 999_999_999
    }
}

/// The time of this type with these fields.
pub(crate) fn time_of(tag: Tag, time: &DmTime) -> ASN1DateTime
    ensures { result ≡ time_of tag.0 time.now }
{
    let year = if tag == Tag::UtcTime {
        time.year % 100
    } else {
        time.year
    };
    let nanosecond = if time.nanosecond == 0 {
        None
    } else {
        Some(time.nanosecond)
    };
    ASN1DateTime {
        year,
        month: time.month,
        day: time.day,
        hour: time.hour,
        minute: time.minute,
        second: time.second,
        nanosecond,
        tz: ASN1TimeZone::Z,
    }
}

/// Puts a time of this type.
pub(crate) fn put_moment(writer: &mut Writer<'_>, tag: Tag, time: ASN1DateTime)
    requires { IsTrue (is_time tag.0) }
    ensures { PutsLeaf tag.0 (content_octets (time_content tag.0 time)) writer.old writer.new }
{
    if tag == Tag::UtcTime {
        writer.put_utc_time(time);
    } else {
        writer.put_generalized_time(time);
    }
}
