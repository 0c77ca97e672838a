//! Times of certificates (RFC 5280 4.1.2.5).
ghost use Rattle.std.specs.Prelude.{◌↔◌, IsTrue};
ghost use Rattle.der_base.specs.Time.{IsMoment};
ghost use Rattle.der_writer.specs.Times.{IsRfc5280Time, PutsRfc5280Time};

use crate::writer::Writer;
use der_base::error::BerError;
use der_base::time::{ASN1DateTime, ASN1TimeZone};

/// The first year of a certificate's UTCTime.
const FIRST_UTC_YEAR: u32 = 1950;

/// The first year of a certificate's GeneralizedTime.
const FIRST_GENERALIZED_YEAR: u32 = 2050;

/// The last year of four digits.
const LAST_YEAR: u32 = 9999;

impl<'b> Writer<'b> {
    /// A time of a certificate: a UTCTime through 2049, a GeneralizedTime from 2050 on. InvalidDateTime, and nothing is
    /// put, unless the time is possible, in UTC, in whole seconds, and from 1950 to 9999.
    pub fn put_rfc5280_time(&mut self, value: ASN1DateTime) -> Result<(), BerError>
        ensures { PutsRfc5280Time value self.old result self.new }
    {
        if !is_rfc5280_time(value) {
            return Err(BerError::InvalidDateTime);
        }
        if value.year < FIRST_GENERALIZED_YEAR {
            let year = value.year % 100;
            self.put_utc_time(ASN1DateTime { year, ..value });
        } else {
            self.put_generalized_time(value);
        }
        Ok(())
    }
}

/// Whether a time has a form in a certificate.
fn is_rfc5280_time(value: ASN1DateTime) -> bool
    ensures { IsTrue result ↔ IsRfc5280Time value }
{
    value.year >= FIRST_UTC_YEAR
        && value.year <= LAST_YEAR
        && is_moment(value)
        && value.second < 60
        && value.nanosecond.is_none()
        && value.tz == ASN1TimeZone::Z
}

/// Whether the month, day, hour and minute are possible.
fn is_moment(value: ASN1DateTime) -> bool
    ensures { IsTrue result ↔ IsMoment value }
{
    value.month >= 1
        && value.month <= 12
        && value.day >= 1
        && value.day <= 31
        && value.hour < 24
        && value.minute < 60
}
