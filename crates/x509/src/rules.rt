//! The rules of RFC 5280 that its ASN.1 doesn't express.
ghost use Rattle.std.specs.Prelude.{◌≡◌, ◌↔◌, IsTrue, MatchOption};
ghost use Rattle.x509.specs.Certificates.{algorithm_of, certificate_of};
ghost use Rattle.x509.specs.Rules.{Breaks, HasFraction, IsEarly, IsFirstBroken, IsPositive, NoneBroken};
ghost use Rattle.x509.specs.Rules.{IsSelfIssued, ReadsStrictly, every_rule};

use crate::algorithm::AlgorithmIdentifier;
use crate::certificate::{Certificate, Version, read_certificate};
use crate::error::CertificateError;
use crate::identifier::absolute_octets;
use crate::list_rules::{has_critical_list, has_descent};
use crate::repetition::are_indistinct;
use crate::time::Time;
use crate::value_rules::{name_breaks_der, parameters_break_der};
use der_base::integer::{is_negative, read_u64};

/// A rule that the ASN.1 doesn't express.
#[derive(Clone, Copy, Debug, PartialEq)]
pub enum Rule {
    /// `signatureAlgorithm` is the signed `signature` (RFC 5280 4.1.1.2).
    SameAlgorithms,
    /// The serial number is positive (4.1.2.2).
    PositiveSerialNumber,
    /// The serial number has at most 20 octets (4.1.2.2).
    ShortSerialNumber,
    /// The issuer has a name (4.1.2.4).
    NamedIssuer,
    /// The attributes of each relative name of the issuer and the subject ascend, as DER requires of a SET OF (4.1,
    /// X.690 11.6).
    OrderedAttributes,
    /// A time to the end of 2049 is a UTCTime (4.1.2.5).
    UtcTimeTo2049,
    /// A time has no fraction of a second (4.1.2.5.2).
    WholeSeconds,
    /// A certificate of version 1 has no unique identifier (4.1.2.8).
    UniqueIdVersion,
    /// A certificate with extensions is of version 3 (4.1.2.9).
    ExtensionsVersion,
    /// No two extensions have the same identifier (4.2). More than `MOST_ITEMS` extensions break the rule too: RFC 5280
    /// B leaves their number to an implementation.
    DistinctExtensions,
    /// A subject without a name has a critical subjectAltName (4.1.2.6, 4.2.1.6) that is a SEQUENCE with items. The
    /// items aren't checked.
    NamedSubject,
    /// The values of any type are DER (X.690 10): algorithm parameters and the attribute values of the issuer and the
    /// subject. Each is one element by `der_elements::check`, nested to `MAX_RECURSION`.
    DerValues,
}

/// The most octets of a serial number.
const LONGEST_SERIAL_NUMBER: usize = 20;

/// subjectAltName: 2.5.29.17.
const SUBJECT_ALT_NAME: &[u8] = b"\x55\x1d\x11";

impl Certificate<'_> {
    /// Returns whether the certificate breaks the rule.
    pub fn breaks(&self, rule: Rule) -> bool
        ensures { IsTrue result ↔ Breaks rule (certificate_of self.now) }
    {
        match rule {
            Rule::SameAlgorithms => self.breaks_same_algorithms(),
            Rule::PositiveSerialNumber => self.breaks_positive_serial_number(),
            Rule::ShortSerialNumber => self.breaks_short_serial_number(),
            Rule::NamedIssuer => self.breaks_named_issuer(),
            Rule::OrderedAttributes => self.breaks_ordered_attributes(),
            Rule::UtcTimeTo2049 => self.breaks_utc_time_to_2049(),
            Rule::WholeSeconds => self.breaks_whole_seconds(),
            Rule::UniqueIdVersion => self.breaks_unique_id_version(),
            Rule::ExtensionsVersion => self.breaks_extensions_version(),
            Rule::DistinctExtensions => self.breaks_distinct_extensions(),
            Rule::NamedSubject => self.breaks_named_subject(),
            Rule::DerValues => self.breaks_der_values(),
        }
    }

    /// Returns whether issuer and subject have the same octets.
    #[inline]
    pub fn is_self_issued(&self) -> bool
        ensures { IsTrue result ↔ IsSelfIssued (certificate_of self.now) }
    {
        self.tbs_certificate.issuer.octets == self.tbs_certificate.subject.octets
    }

    /// Returns the first rule that the certificate breaks, in the order of `Rule`.
    pub fn first_broken_rule(&self) -> Option<Rule>
        ensures { let c = certificate_of self.now in MatchOption result
            (NoneBroken every_rule c)
            (IsFirstBroken every_rule c) }
    {
        if self.breaks(Rule::SameAlgorithms) {
            return Some(Rule::SameAlgorithms);
        }
        if self.breaks(Rule::PositiveSerialNumber) {
            return Some(Rule::PositiveSerialNumber);
        }
        if self.breaks(Rule::ShortSerialNumber) {
            return Some(Rule::ShortSerialNumber);
        }
        if self.breaks(Rule::NamedIssuer) {
            return Some(Rule::NamedIssuer);
        }
        if self.breaks(Rule::OrderedAttributes) {
            return Some(Rule::OrderedAttributes);
        }
        if self.breaks(Rule::UtcTimeTo2049) {
            return Some(Rule::UtcTimeTo2049);
        }
        if self.breaks(Rule::WholeSeconds) {
            return Some(Rule::WholeSeconds);
        }
        if self.breaks(Rule::UniqueIdVersion) {
            return Some(Rule::UniqueIdVersion);
        }
        if self.breaks(Rule::ExtensionsVersion) {
            return Some(Rule::ExtensionsVersion);
        }
        if self.breaks(Rule::DistinctExtensions) {
            return Some(Rule::DistinctExtensions);
        }
        if self.breaks(Rule::NamedSubject) {
            return Some(Rule::NamedSubject);
        }
        if self.breaks(Rule::DerValues) {
            return Some(Rule::DerValues);
        }
        None
    }
}

// A function for each rule: whether the certificate breaks it.
impl Certificate<'_> {
    fn breaks_same_algorithms(&self) -> bool
        ensures { IsTrue result ↔ Breaks Rule.SameAlgorithms (certificate_of self.now) }
    {
        !is_same(&self.signature_algorithm, &self.tbs_certificate.signature)
    }

    fn breaks_positive_serial_number(&self) -> bool
        ensures { IsTrue result ↔ Breaks Rule.PositiveSerialNumber (certificate_of self.now) }
    {
        !is_positive(self.tbs_certificate.serial_number)
    }

    fn breaks_short_serial_number(&self) -> bool
        ensures { IsTrue result ↔ Breaks Rule.ShortSerialNumber (certificate_of self.now) }
    {
        self.tbs_certificate.serial_number.len() > LONGEST_SERIAL_NUMBER
    }

    fn breaks_named_issuer(&self) -> bool
        ensures { IsTrue result ↔ Breaks Rule.NamedIssuer (certificate_of self.now) }
    {
        self.tbs_certificate.issuer.octets.is_empty()
    }

    fn breaks_ordered_attributes(&self) -> bool
        ensures { IsTrue result ↔ Breaks Rule.OrderedAttributes (certificate_of self.now) }
    {
        let fields = &self.tbs_certificate;
        has_descent(fields.issuer) || (!self.is_self_issued() && has_descent(fields.subject))
    }

    fn breaks_utc_time_to_2049(&self) -> bool
        ensures { IsTrue result ↔ Breaks Rule.UtcTimeTo2049 (certificate_of self.now) }
    {
        let validity = self.tbs_certificate.validity;
        is_early(validity.not_before) || is_early(validity.not_after)
    }

    fn breaks_whole_seconds(&self) -> bool
        ensures { IsTrue result ↔ Breaks Rule.WholeSeconds (certificate_of self.now) }
    {
        let validity = self.tbs_certificate.validity;
        has_fraction(validity.not_before) || has_fraction(validity.not_after)
    }

    fn breaks_unique_id_version(&self) -> bool
        ensures { IsTrue result ↔ Breaks Rule.UniqueIdVersion (certificate_of self.now) }
    {
        let fields = &self.tbs_certificate;
        fields.version == Version::V1
            && (fields.issuer_unique_id.is_some() || fields.subject_unique_id.is_some())
    }

    fn breaks_extensions_version(&self) -> bool
        ensures { IsTrue result ↔ Breaks Rule.ExtensionsVersion (certificate_of self.now) }
    {
        let fields = &self.tbs_certificate;
        fields.version != Version::V3 && !fields.extensions.octets.is_empty()
    }

    fn breaks_distinct_extensions(&self) -> bool
        ensures { IsTrue result ↔ Breaks Rule.DistinctExtensions (certificate_of self.now) }
    {
        are_indistinct(self.tbs_certificate.extensions.octets)
    }

    fn breaks_named_subject(&self) -> bool
        ensures { IsTrue result ↔ Breaks Rule.NamedSubject (certificate_of self.now) }
    {
        let fields = &self.tbs_certificate;
        fields.subject.octets.is_empty() && !has_critical_list(fields.extensions, SUBJECT_ALT_NAME)
    }

    fn breaks_der_values(&self) -> bool
        ensures { IsTrue result ↔ Breaks Rule.DerValues (certificate_of self.now) }
    {
        let fields = &self.tbs_certificate;
        parameters_break_der(&self.signature_algorithm)
            || parameters_break_der(&fields.signature)
            || parameters_break_der(&fields.subject_public_key_info.algorithm)
            || name_breaks_der(fields.issuer)
            || (!self.is_self_issued() && name_breaks_der(fields.subject))
    }
}

/// Why octets aren't a certificate that keeps each `Rule`.
#[derive(Debug, Drop)]
pub enum StrictError {
    /// They don't match the ASN.1 of a certificate.
    NotRead(CertificateError),
    /// They do, but the certificate breaks this rule, the first in the order of `Rule`.
    Broken(Rule),
}

/// Reads a certificate that keeps each `Rule`; trailing data is an error.
pub fn read_strict_certificate(octets: &[u8]) -> Result<Certificate<'_>, StrictError>
    ensures { ReadsStrictly octets.now result }
{
    let certificate = match read_certificate(octets) {
        Ok(certificate) => certificate,
        Err(e) => return Err(StrictError::NotRead(e)),
    };
    match certificate.first_broken_rule() {
        Some(rule) => Err(StrictError::Broken(rule)),
        None => Ok(certificate),
    }
}

/// Whether the algorithms and their parameters are the same.
fn is_same(one: &AlgorithmIdentifier<'_>, other: &AlgorithmIdentifier<'_>) -> bool
    ensures { IsTrue result ↔ (algorithm_of one.now ≡ algorithm_of other.now) }
{
    absolute_octets(&one.algorithm) == absolute_octets(&other.algorithm)
        && one.parameters == other.parameters
}

/// Whether content octets of an INTEGER encode a positive number.
fn is_positive(octets: &[u8]) -> bool
    ensures { IsTrue result ↔ IsPositive octets.now }
{
    match read_u64(octets) {
        Ok(number) => number > 0,
        Err(_) => !is_negative(octets),
    }
}

/// Whether the time is a GeneralizedTime in a year that a UTCTime has.
fn is_early(time: Time) -> bool
    ensures { IsTrue result ↔ IsEarly time }
{
    match time {
        Time::Utc(_) => false,
        Time::Generalized(moment) => moment.year < 2050,
    }
}

/// Whether the time has a fraction of a second. A UTCTime has none.
fn has_fraction(time: Time) -> bool
    ensures { IsTrue result ↔ HasFraction time }
{
    match time {
        Time::Utc(_) => false,
        Time::Generalized(moment) => moment.nanosecond.is_some(),
    }
}
