//! Tests of the fields of a CRL, as those of `x509` for a certificate.
ghost use Rattle.std.specs.Prelude.{◌≡◌, ◌↔◌, IsTrue};
ghost use Rattle.x509.specs.Certificates.{algorithm_of};
ghost use Rattle.x509.specs.Rules.{HasFraction, IsEarly, IsPositive};

use der_base::integer::{is_negative, read_u64};
use x509::{AlgorithmIdentifier, Time, absolute_octets};

/// The first year that a UTCTime can't encode.
const FIRST_GENERALIZED_YEAR: u32 = 2050;

/// Returns whether the algorithms and their parameters are the same.
pub(crate) fn is_same(one: &AlgorithmIdentifier<'_>, other: &AlgorithmIdentifier<'_>) -> bool
    ensures { IsTrue result ↔ (algorithm_of one.now ≡ algorithm_of other.now) }
{
    absolute_octets(&one.algorithm) == absolute_octets(&other.algorithm)
        && one.parameters == other.parameters
}

/// Returns whether content octets of an INTEGER encode a positive number.
pub(crate) fn is_positive(octets: &[u8]) -> bool
    ensures { IsTrue result ↔ IsPositive octets.now }
{
    match read_u64(octets) {
        Ok(number) => number > 0,
        Err(_) => !is_negative(octets),
    }
}

/// Returns whether the time is a GeneralizedTime in a year that a UTCTime has.
pub(crate) fn is_early(time: Time) -> bool
    ensures { IsTrue result ↔ IsEarly time }
{
    match time {
        Time::Utc(_) => false,
        Time::Generalized(moment) => moment.year < FIRST_GENERALIZED_YEAR,
    }
}

/// Returns whether the time has a fraction of a second. A UTCTime has none.
pub(crate) fn has_fraction(time: Time) -> bool
    ensures { IsTrue result ↔ HasFraction time }
{
    match time {
        Time::Utc(_) => false,
        Time::Generalized(moment) => moment.nanosecond.is_some(),
    }
}
