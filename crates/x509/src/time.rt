//! Times of validity (RFC 5280 4.1.2.5).
ghost use Rattle.std.specs.Prelude.{◌≡◌, ◌↔◌, [], ◌∷◌, IsTrue};
ghost use Rattle.x509.specs.Certificates.{moment_of, time, validity};
ghost use Rattle.x509.specs.Readers.{ReadsBy, fault_of};
ghost use Rattle.x509.specs.Times.{IsBefore, IsWithin, units_of};

use der_base::error::BerError;
use der_base::header::{Class, Tag};
use der_base::time::ASN1DateTime;
use der_cursor::{Cursor, ReadError};

/// A time, with the type of its encoding.
#[derive(Clone, Copy, Debug, PartialEq)]
pub enum Time {
    /// UTCTime: a year from 1950 to 2049.
    Utc(ASN1DateTime),
    /// GeneralizedTime: a year of four digits.
    Generalized(ASN1DateTime),
}

impl Time {
    /// Returns the time without its type.
    pub fn moment(&self) -> ASN1DateTime
        ensures { result ≡ moment_of self.now }
    {
        match self {
            Time::Utc(moment) => *moment,
            Time::Generalized(moment) => *moment,
        }
    }

    /// Returns whether this time is before the other one, whatever their types. A time without a fraction is the start
    /// of its second. Zones aren't compared: in DER every time is in UTC.
    ///
    /// ```
    /// let end = Time::Generalized(ASN1DateTime::new(2050, 1, 1, 0, 0, 0, None, ASN1TimeZone::Z));
    /// let is_short = certificate.tbs_certificate.validity.not_after.is_before(&end);
    /// ```
    pub fn is_before(&self, other: &Time) -> bool
        ensures { IsTrue result ↔ IsBefore self.now other.now }
    {
        self.units() < other.units()
    }

    /// The year, month, day, hour, minute, second and nanosecond.
    fn units(&self) -> (u32, u8, u8, u8, u8, u8, u32)
        ensures { let (year, month, day, hour, minute, second, nanosecond) = result in
            year ∷ month ∷ day ∷ hour ∷ minute ∷ second ∷ nanosecond ∷ [] ≡ units_of self.now }
    {
        let moment = self.moment();
        (
            moment.year,
            moment.month,
            moment.day,
            moment.hour,
            moment.minute,
            moment.second,
            moment.nanosecond.unwrap_or(0),
        )
    }
}

/// The period in which a certificate is valid, both ends included.
#[derive(Clone, Copy, Debug, PartialEq)]
pub struct Validity {
    pub not_before: Time,
    pub not_after: Time,
}

impl Validity {
    /// Returns whether the time is in the period, both ends included.
    pub fn contains(&self, time: &Time) -> bool
        ensures { IsTrue result ↔ IsWithin self.now time.now }
    {
        !time.is_before(&self.not_before) && !self.not_after.is_before(time)
    }
}

/// Reads a Validity.
pub fn read_validity(fields: &mut Cursor<'_>) -> Result<Validity, ReadError<BerError>>
    ensures { ReadsBy fault_of (λ v. v) validity fields.old result fields.new }
{
    let mut parts = fields.open_sequence()?;
    let not_before = read_time(&mut parts)?;
    let not_after = read_time(&mut parts)?;
    parts.end()?;
    Ok(Validity {
        not_before,
        not_after,
    })
}

/// Reads a Time.
pub fn read_time(parts: &mut Cursor<'_>) -> Result<Time, ReadError<BerError>>
    ensures { ReadsBy fault_of (λ v. v) time parts.old result parts.new }
{
    if parts.is_next(Class::Universal, Tag::GeneralizedTime) {
        return Ok(Time::Generalized(parts.generalized_time()?));
    }
    Ok(Time::Utc(parts.utc_time()?))
}
