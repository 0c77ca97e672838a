//! Rules of a certificate as a whole: which fields and extensions are there, and which go together.
ghost use Rattle.std.specs.Prelude.{◌↔◌, IsTrue};
ghost use Rattle.x509.specs.Certificates.{Signed, certificate_of};
ghost use Rattle.x509_rules.specs.Examined.{IsExamined, signed_of};
ghost use Rattle.x509_value_rules.specs.Facts.{Has, IsAuthority, MaySignCertificates, Tells};
ghost use Rattle.x509_rules.specs.Whole.{BreaksWhole, HasEmailAddress, HasNoName, HasPointOfIssuer, HasPoints};

use crate::examined::{Examined, has};
use crate::issuers::shows_issuer;
use der_extensions::KnownExtension;
use x509::Certificate;
use x509_rule_facts::attributes::{AttributeKind, has_kind};
use x509_rule_facts::value_facts::ValueFact;
use x509_value_rules::facts::Fact;
use x509_value_rules::points::PointRule;
use x509_value_rules::value_rules::ValueRule;

/// A rule of RFC 5280 about a certificate as a whole. A CA is a certificate whose basicConstraints has cA TRUE
/// (4.2.1.9).
#[derive(Clone, Copy, Debug, PartialEq)]
pub enum WholeRule {
    /// There is no unique identifier (4.1.2.8, MUST NOT).
    NoUniqueIdentifier,
    /// A CA has a subject with a name (4.1.2.6, MUST).
    NamedAuthority,
    /// A CRL issuer, whose keyUsage has cRLSign, has a subject with a name (4.1.2.6, MUST).
    NamedCrlIssuer,
    /// A subject with an emailAddress also has an rfc822Name in a subjectAltName (4.1.2.6, MUST of new certificates).
    MailboxInAltName,
    /// There is an authorityKeyIdentifier with a keyIdentifier, unless issuer and subject have the same octets
    /// (4.2.1.1, MUST).
    KeyIdentifierOfIssuer,
    /// A CA has a subjectKeyIdentifier (4.2.1.2, MUST).
    KeyIdentifierOfAuthority,
    /// An end entity has a subjectKeyIdentifier (4.2.1.2, SHOULD).
    KeyIdentifierOfEndEntity,
    /// A CA has a keyUsage (4.2.1.3, MUST).
    KeyUsageOfAuthority,
    /// Only a CA has a keyUsage with keyCertSign (4.2.1.3, 4.2.1.9, MUST).
    CertSignOfAuthority,
    /// A subjectAltName beside a subject with a name isn't critical (4.2.1.6, SHOULD).
    AltNameNotCritical,
    /// The basicConstraints of a CA is critical, unless a keyUsage without keyCertSign says that its key verifies no
    /// certificates (4.2.1.9, MUST).
    CriticalConstraints,
    /// Only a CA has a pathLenConstraint (4.2.1.9, MUST).
    PathLengthOfAuthority,
    /// A pathLenConstraint is beside a keyUsage with keyCertSign (4.2.1.9, MUST).
    PathLengthOfCertSign,
    /// Only a CA has a nameConstraints (4.2.1.10, MUST).
    NameConstraintsOfAuthority,
    /// An extKeyUsage with anyExtendedKeyUsage isn't critical (4.2.1.12, SHOULD NOT).
    AnyPurposeNotCritical,
    /// No point of cRLDistributionPoints or freshestCRL has the certificate's issuer in its cRLIssuer (4.2.1.13, MUST).
    /// Names are compared by their octets.
    OtherCrlIssuer,
    /// Only an end entity has a noRevAvail (RFC 9608 2, MUST NOT).
    NoRevAvailOfEndEntity,
    /// There is neither cRLDistributionPoints nor freshestCRL beside a noRevAvail (RFC 9608 3, MUST NOT).
    NoRevAvailWithoutPoints,
    /// An authorityInfoAccess beside a noRevAvail has no id-ad-ocsp (RFC 9608 3, MUST NOT).
    NoRevAvailWithoutOcsp,
}

impl WholeRule {
    /// Returns whether only a CA certificate breaks the rule.
    pub fn is_of_authority(self) -> bool
        ensures { IsTrue result → (c : Signed) → BreaksWhole self c → IsAuthority c }
    {
        match self {
            WholeRule::NamedAuthority => true,
            WholeRule::KeyIdentifierOfAuthority => true,
            WholeRule::KeyUsageOfAuthority => true,
            WholeRule::CriticalConstraints => true,
            WholeRule::NoRevAvailOfEndEntity => true,
            _ => false,
        }
    }
}

/// A point has reasons or a cRLIssuer. Only such a point can have the certificate's issuer there.
const MORE_THAN_NAME: Fact = Fact::Breaks(ValueRule::Points(PointRule::NameAlone));

/// Returns whether the certificate breaks the rule.
#[inline(never)]
pub(crate) fn breaks_whole(rule: WholeRule, certificate: &Examined<'_, '_>) -> bool
    requires { IsExamined certificate.now }
    ensures { IsTrue result ↔ BreaksWhole rule (signed_of certificate.now) }
{
    match rule {
        WholeRule::NoUniqueIdentifier => breaks_no_unique_identifier(certificate.signed),
        WholeRule::NamedAuthority => breaks_named_authority(certificate),
        WholeRule::NamedCrlIssuer => breaks_named_crl_issuer(certificate),
        WholeRule::MailboxInAltName => breaks_mailbox_in_alt_name(certificate),
        WholeRule::KeyIdentifierOfIssuer => breaks_key_identifier_of_issuer(certificate),
        WholeRule::KeyIdentifierOfAuthority => breaks_key_identifier_of_authority(certificate),
        WholeRule::KeyIdentifierOfEndEntity => breaks_key_identifier_of_end_entity(certificate),
        WholeRule::KeyUsageOfAuthority => breaks_key_usage_of_authority(certificate),
        WholeRule::CertSignOfAuthority => breaks_cert_sign_of_authority(certificate),
        WholeRule::AltNameNotCritical => breaks_alt_name_not_critical(certificate),
        WholeRule::CriticalConstraints => breaks_critical_constraints(certificate),
        WholeRule::PathLengthOfAuthority => breaks_path_length_of_authority(certificate),
        WholeRule::PathLengthOfCertSign => breaks_path_length_of_cert_sign(certificate),
        WholeRule::NameConstraintsOfAuthority => breaks_name_constraints_of_authority(certificate),
        WholeRule::AnyPurposeNotCritical => breaks_any_purpose_not_critical(certificate),
        WholeRule::OtherCrlIssuer => breaks_other_crl_issuer(certificate),
        WholeRule::NoRevAvailOfEndEntity => breaks_no_rev_avail_of_end_entity(certificate),
        WholeRule::NoRevAvailWithoutPoints => breaks_no_rev_avail_without_points(certificate),
        WholeRule::NoRevAvailWithoutOcsp => breaks_no_rev_avail_without_ocsp(certificate),
    }
}

fn breaks_no_unique_identifier(certificate: &Certificate<'_>) -> bool
    ensures { IsTrue result ↔ BreaksWhole WholeRule.NoUniqueIdentifier (certificate_of certificate.now) }
{
    let fields = &certificate.tbs_certificate;
    fields.issuer_unique_id.is_some() || fields.subject_unique_id.is_some()
}

fn breaks_named_authority(certificate: &Examined<'_, '_>) -> bool
    requires { IsExamined certificate.now }
    ensures { IsTrue result ↔ BreaksWhole WholeRule.NamedAuthority (signed_of certificate.now) }
{
    has_no_name(certificate.signed) && is_authority(certificate)
}

fn breaks_named_crl_issuer(certificate: &Examined<'_, '_>) -> bool
    requires { IsExamined certificate.now }
    ensures { IsTrue result ↔ BreaksWhole WholeRule.NamedCrlIssuer (signed_of certificate.now) }
{
    has_no_name(certificate.signed) && tells(certificate, ValueFact::CrlSign)
}

fn breaks_mailbox_in_alt_name(certificate: &Examined<'_, '_>) -> bool
    requires { IsExamined certificate.now }
    ensures { IsTrue result ↔ BreaksWhole WholeRule.MailboxInAltName (signed_of certificate.now) }
{
    has_email_address(certificate.signed) && !tells(certificate, ValueFact::Mailbox)
}

fn breaks_key_identifier_of_issuer(certificate: &Examined<'_, '_>) -> bool
    requires { IsExamined certificate.now }
    ensures { IsTrue result ↔ BreaksWhole WholeRule.KeyIdentifierOfIssuer (signed_of certificate.now) }
{
    !tells(certificate, ValueFact::KeyIdentifier) && !certificate.signed.is_self_issued()
}

fn breaks_key_identifier_of_authority(certificate: &Examined<'_, '_>) -> bool
    requires { IsExamined certificate.now }
    ensures { IsTrue result ↔ BreaksWhole WholeRule.KeyIdentifierOfAuthority (signed_of certificate.now) }
{
    is_authority(certificate) && !is_there(certificate, KnownExtension::SubjectKeyIdentifier)
}

fn breaks_key_identifier_of_end_entity(certificate: &Examined<'_, '_>) -> bool
    requires { IsExamined certificate.now }
    ensures { IsTrue result ↔ BreaksWhole WholeRule.KeyIdentifierOfEndEntity (signed_of certificate.now) }
{
    !is_there(certificate, KnownExtension::SubjectKeyIdentifier) && !is_authority(certificate)
}

fn breaks_key_usage_of_authority(certificate: &Examined<'_, '_>) -> bool
    requires { IsExamined certificate.now }
    ensures { IsTrue result ↔ BreaksWhole WholeRule.KeyUsageOfAuthority (signed_of certificate.now) }
{
    is_authority(certificate) && !is_there(certificate, KnownExtension::KeyUsage)
}

fn breaks_cert_sign_of_authority(certificate: &Examined<'_, '_>) -> bool
    requires { IsExamined certificate.now }
    ensures { IsTrue result ↔ BreaksWhole WholeRule.CertSignOfAuthority (signed_of certificate.now) }
{
    tells(certificate, ValueFact::KeyCertSign) && !is_authority(certificate)
}

fn breaks_alt_name_not_critical(certificate: &Examined<'_, '_>) -> bool
    requires { IsExamined certificate.now }
    ensures { IsTrue result ↔ BreaksWhole WholeRule.AltNameNotCritical (signed_of certificate.now) }
{
    !has_no_name(certificate.signed) && is_critical(certificate, KnownExtension::SubjectAltName)
}

fn breaks_critical_constraints(certificate: &Examined<'_, '_>) -> bool
    requires { IsExamined certificate.now }
    ensures { IsTrue result ↔ BreaksWhole WholeRule.CriticalConstraints (signed_of certificate.now) }
{
    may_sign_certificates(certificate)
        && has(
            certificate,
            KnownExtension::BasicConstraints,
            Fact::NotCritical,
        )
}

fn breaks_path_length_of_authority(certificate: &Examined<'_, '_>) -> bool
    requires { IsExamined certificate.now }
    ensures { IsTrue result ↔ BreaksWhole WholeRule.PathLengthOfAuthority (signed_of certificate.now) }
{
    tells(certificate, ValueFact::PathLength) && !is_authority(certificate)
}

fn breaks_path_length_of_cert_sign(certificate: &Examined<'_, '_>) -> bool
    requires { IsExamined certificate.now }
    ensures { IsTrue result ↔ BreaksWhole WholeRule.PathLengthOfCertSign (signed_of certificate.now) }
{
    tells(certificate, ValueFact::PathLength) && !tells(certificate, ValueFact::KeyCertSign)
}

fn breaks_name_constraints_of_authority(certificate: &Examined<'_, '_>) -> bool
    requires { IsExamined certificate.now }
    ensures { IsTrue result ↔ BreaksWhole WholeRule.NameConstraintsOfAuthority (signed_of certificate.now) }
{
    is_there(certificate, KnownExtension::NameConstraints) && !is_authority(certificate)
}

fn breaks_any_purpose_not_critical(certificate: &Examined<'_, '_>) -> bool
    requires { IsExamined certificate.now }
    ensures { IsTrue result ↔ BreaksWhole WholeRule.AnyPurposeNotCritical (signed_of certificate.now) }
{
    is_critical(certificate, KnownExtension::ExtendedKeyUsage)
        && tells(certificate, ValueFact::AnyPurpose)
}

fn breaks_other_crl_issuer(certificate: &Examined<'_, '_>) -> bool
    requires { IsExamined certificate.now }
    ensures { IsTrue result ↔ BreaksWhole WholeRule.OtherCrlIssuer (signed_of certificate.now) }
{
    has_point_of_issuer(certificate, KnownExtension::CrlDistributionPoints)
        || has_point_of_issuer(certificate, KnownExtension::FreshestCrl)
}

fn breaks_no_rev_avail_of_end_entity(certificate: &Examined<'_, '_>) -> bool
    requires { IsExamined certificate.now }
    ensures { IsTrue result ↔ BreaksWhole WholeRule.NoRevAvailOfEndEntity (signed_of certificate.now) }
{
    is_authority(certificate) && is_there(certificate, KnownExtension::NoRevAvail)
}

fn breaks_no_rev_avail_without_points(certificate: &Examined<'_, '_>) -> bool
    requires { IsExamined certificate.now }
    ensures { IsTrue result ↔ BreaksWhole WholeRule.NoRevAvailWithoutPoints (signed_of certificate.now) }
{
    is_there(certificate, KnownExtension::NoRevAvail) && has_points(certificate)
}

fn breaks_no_rev_avail_without_ocsp(certificate: &Examined<'_, '_>) -> bool
    requires { IsExamined certificate.now }
    ensures { IsTrue result ↔ BreaksWhole WholeRule.NoRevAvailWithoutOcsp (signed_of certificate.now) }
{
    is_there(certificate, KnownExtension::NoRevAvail)
        && tells(certificate, ValueFact::OcspResponder)
}

/// Returns whether the certificate says where its CRLs are.
fn has_points(certificate: &Examined<'_, '_>) -> bool
    requires { IsExamined certificate.now }
    ensures { IsTrue result ↔ HasPoints (signed_of certificate.now) }
{
    is_there(certificate, KnownExtension::CrlDistributionPoints)
        || is_there(certificate, KnownExtension::FreshestCrl)
}

/// Returns whether a point of the extension has the certificate's issuer in its cRLIssuer.
fn has_point_of_issuer(certificate: &Examined<'_, '_>, known: KnownExtension) -> bool
    requires { IsExamined certificate.now }
    ensures { IsTrue result ↔ HasPointOfIssuer known (signed_of certificate.now) }
{
    has(certificate, known, MORE_THAN_NAME) && shows_issuer(certificate.signed, known)
}

/// Returns whether the subject has an emailAddress.
fn has_email_address(certificate: &Certificate<'_>) -> bool
    ensures { IsTrue result ↔ HasEmailAddress (certificate_of certificate.now) }
{
    has_kind(
        AttributeKind::EmailAddress,
        certificate.tbs_certificate.subject,
    )
}

/// Returns whether the subject has no name.
fn has_no_name(certificate: &Certificate<'_>) -> bool
    ensures { IsTrue result ↔ HasNoName (certificate_of certificate.now) }
{
    certificate.tbs_certificate.subject.octets.is_empty()
}

/// Returns whether the certificate is a CA's.
fn is_authority(certificate: &Examined<'_, '_>) -> bool
    requires { IsExamined certificate.now }
    ensures { IsTrue result ↔ IsAuthority (signed_of certificate.now) }
{
    tells(certificate, ValueFact::Authority)
}

/// Returns whether the extension is there.
fn is_there(certificate: &Examined<'_, '_>, known: KnownExtension) -> bool
    requires { IsExamined certificate.now }
    ensures { IsTrue result ↔ Has known Fact.Present (signed_of certificate.now) }
{
    has(certificate, known, Fact::Present)
}

/// Returns whether the extension is there and critical.
fn is_critical(certificate: &Examined<'_, '_>, known: KnownExtension) -> bool
    requires { IsExamined certificate.now }
    ensures { IsTrue result ↔ Has known Fact.Critical (signed_of certificate.now) }
{
    has(certificate, known, Fact::Critical)
}

/// Returns whether the value of the fact's extension says it.
fn tells(certificate: &Examined<'_, '_>, fact: ValueFact) -> bool
    requires { IsExamined certificate.now }
    ensures { IsTrue result ↔ Tells fact (signed_of certificate.now) }
{
    has(certificate, fact.extension(), Fact::Says(fact))
}

/// Returns whether it is a CA without a keyUsage, or with one that has keyCertSign.
fn may_sign_certificates(certificate: &Examined<'_, '_>) -> bool
    requires { IsExamined certificate.now }
    ensures { IsTrue result ↔ MaySignCertificates (signed_of certificate.now) }
{
    is_authority(certificate)
        && (!is_there(certificate, KnownExtension::KeyUsage)
            || tells(certificate, ValueFact::KeyCertSign))
}
