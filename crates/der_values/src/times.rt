//! UTCTime and GeneralizedTime (X.690 8.25, 11.7, 11.8).
ghost use Rattle.std.specs.Prelude.{◌≡◌, IsTrue};
ghost use Rattle.der_base.specs.declared.rules.Rules.{Rules};
ghost use Rattle.der_base.specs.Leaf.{is_time};
ghost use Rattle.der_values.specs.Kinds.{Decodes, moments, times, times_by, with_whole_year};

use der_base::error::BerError;
use der_base::header::Tag;
use der_base::rules::Rules;
use der_base::time::{self, ASN1DateTime, read_der_time};

/// The time of a UTCTime or a GeneralizedTime (X.690 8.25). The year of a UTCTime is from 1950 to 2049 (RFC 5280
/// 4.1.2.5.1).
///
/// Errors by BER: InvalidDateTime. By DER (11.7, 11.8), the first that applies: the constraint MissingTimeZone if the
/// last octet isn't Z; InvalidDateTime; the constraints MissingSeconds and FractionNotMinimal.
pub fn read_time(rules: Rules, tag: Tag, octets: &[u8]) -> Result<ASN1DateTime, BerError>
    requires { IsTrue (is_time tag.0) }
    ensures { Decodes (λ v. v) (times rules tag.0) octets.now result }
{
    match rules {
        Rules::Ber => read_ber_time(true, tag, octets),
        Rules::Der => read_strict_time(tag, octets),
    }
}

/// `read_time` with the year of a UTCTime as its two digits.
pub fn read_moment(rules: Rules, tag: Tag, octets: &[u8]) -> Result<ASN1DateTime, BerError>
    requires { IsTrue (is_time tag.0) }
    ensures { Decodes (λ v. v) (moments rules tag.0) octets.now result }
{
    match rules {
        Rules::Ber => read_ber_time(false, tag, octets),
        Rules::Der => read_der_time(tag, octets),
    }
}

/// Reads by BER. `whole` asks for the full year of a UTCTime.
#[inline(always)]
fn read_ber_time(whole: bool, tag: Tag, octets: &[u8]) -> Result<ASN1DateTime, BerError>
    requires { IsTrue (is_time tag.0) }
    ensures { Decodes (λ v. v) (times_by whole Rules.Ber tag.0) octets.now result }
{
    match time::read_time(tag, octets) {
        Some(time) if whole => Ok(with_whole_year(tag, time)),
        Some(time) => Ok(time),
        None => Err(BerError::InvalidDateTime),
    }
}

fn read_strict_time(tag: Tag, octets: &[u8]) -> Result<ASN1DateTime, BerError>
    requires { IsTrue (is_time tag.0) }
    ensures { Decodes (λ v. v) (times Rules.Der tag.0) octets.now result }
{
    match read_der_time(tag, octets) {
        Ok(time) => Ok(with_whole_year(tag, time)),
        Err(e) => Err(e),
    }
}

/// The time with the full year, if it is a UTCTime.
fn with_whole_year(tag: Tag, time: ASN1DateTime) -> ASN1DateTime
    ensures { result ≡ with_whole_year tag.0 time }
{
    if tag != Tag::UtcTime {
        return time;
    }
    ASN1DateTime {
        year: time.rfc5280_year(),
        ..time
    }
}
