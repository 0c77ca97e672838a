//! The rules of certificates, and whether one breaks them.
ghost use Rattle.std.specs.Prelude.{◌↔◌, IsTrue};
ghost use Rattle.x509.specs.Certificates.{Signed, certificate_of};
ghost use Rattle.x509_rules.specs.Examined.{IsExamined, signed_of};
ghost use Rattle.x509_value_rules.specs.Facts.{IsAuthority};
ghost use Rattle.x509_rules.specs.Rules.{Breaks};

use crate::examined::{Examined, breaks_attribute, breaks_value, has, unexamined};
use crate::whole::{WholeRule, breaks_whole};
use der_extensions::KnownExtension;
use x509::{Certificate, Rule as FieldRule};
use x509_rule_facts::algorithms::{AlgorithmRule, breaks_algorithm};
use x509_rule_facts::attributes::AttributeKind;
use x509_rule_facts::types::ValueType;
use x509_value_rules::facts::Fact;
use x509_value_rules::names::NameRule;
use x509_value_rules::notices::{NoticeRule, QualifierRule};
use x509_value_rules::points::PointRule;
use x509_value_rules::subtrees::SubtreeRule;
use x509_value_rules::value_rules::ValueRule;

/// A rule of RFC 5280 that the ASN.1 of a certificate doesn't express.
#[derive(Clone, Copy, Debug, PartialEq)]
pub enum Rule {
    /// A rule of the fields, from `x509`.
    Fields(FieldRule),
    /// The algorithms of the signature and of the key have the right parameters.
    Algorithm(AlgorithmRule),
    /// The issuer's and the subject's attributes of this kind have values of its type (A.1).
    Attribute(AttributeKind),
    /// The extension is critical, if it is there.
    Critical(KnownExtension),
    /// The extension isn't critical.
    NotCritical(KnownExtension),
    /// The extension's value keeps the rule, if it has its type.
    Value(KnownExtension, ValueRule),
    /// A rule of the certificate as a whole.
    Whole(WholeRule),
}

/// The rules with MUST or MUST NOT in RFC 5280, in the order of its sections.
pub const MUST_RULES: &[Rule] = &[
    Rule::Fields(FieldRule::SameAlgorithms),
    Rule::Algorithm(AlgorithmRule::NullOfRsa),
    Rule::Algorithm(AlgorithmRule::NoneOfSignature),
    Rule::Algorithm(AlgorithmRule::NoneOfEdwards),
    Rule::Algorithm(AlgorithmRule::NamedCurve),
    Rule::Algorithm(AlgorithmRule::SomeOfPss),
    Rule::Fields(FieldRule::PositiveSerialNumber),
    Rule::Fields(FieldRule::ShortSerialNumber),
    Rule::Fields(FieldRule::NamedIssuer),
    Rule::Fields(FieldRule::OrderedAttributes),
    Rule::Attribute(AttributeKind::CountryName),
    Rule::Attribute(AttributeKind::SerialNumber),
    Rule::Attribute(AttributeKind::DnQualifier),
    Rule::Attribute(AttributeKind::DomainComponent),
    Rule::Attribute(AttributeKind::EmailAddress),
    Rule::Attribute(AttributeKind::CommonName),
    Rule::Attribute(AttributeKind::OrganizationName),
    Rule::Attribute(AttributeKind::OrganizationalUnitName),
    Rule::Attribute(AttributeKind::Title),
    Rule::Attribute(AttributeKind::LocalityName),
    Rule::Attribute(AttributeKind::StateOrProvinceName),
    Rule::Attribute(AttributeKind::Pseudonym),
    Rule::Attribute(AttributeKind::Name),
    Rule::Attribute(AttributeKind::Surname),
    Rule::Attribute(AttributeKind::GivenName),
    Rule::Attribute(AttributeKind::Initials),
    Rule::Attribute(AttributeKind::GenerationQualifier),
    Rule::Fields(FieldRule::UtcTimeTo2049),
    Rule::Fields(FieldRule::WholeSeconds),
    Rule::Fields(FieldRule::NamedSubject),
    Rule::Fields(FieldRule::DerValues),
    Rule::Whole(WholeRule::NamedAuthority),
    Rule::Whole(WholeRule::NamedCrlIssuer),
    Rule::Whole(WholeRule::MailboxInAltName),
    Rule::Fields(FieldRule::UniqueIdVersion),
    Rule::Whole(WholeRule::NoUniqueIdentifier),
    Rule::Fields(FieldRule::ExtensionsVersion),
    Rule::Fields(FieldRule::DistinctExtensions),
    Rule::Value(
        KnownExtension::AuthorityKeyIdentifier,
        ValueRule::OfType(ValueType::KeyIdentifiers),
    ),
    Rule::Value(
        KnownExtension::SubjectKeyIdentifier,
        ValueRule::OfType(ValueType::Octets),
    ),
    Rule::Value(
        KnownExtension::KeyUsage,
        ValueRule::OfType(ValueType::KeyUsage),
    ),
    Rule::Value(
        KnownExtension::CertificatePolicies,
        ValueRule::OfType(ValueType::Policies),
    ),
    Rule::Value(
        KnownExtension::SubjectAltName,
        ValueRule::OfType(ValueType::Names),
    ),
    Rule::Value(
        KnownExtension::IssuerAltName,
        ValueRule::OfType(ValueType::Names),
    ),
    Rule::Value(
        KnownExtension::BasicConstraints,
        ValueRule::OfType(ValueType::Constraints),
    ),
    Rule::Value(
        KnownExtension::NameConstraints,
        ValueRule::OfType(ValueType::NameConstraints),
    ),
    Rule::Value(
        KnownExtension::ExtendedKeyUsage,
        ValueRule::OfType(ValueType::Purposes),
    ),
    Rule::Value(
        KnownExtension::CrlDistributionPoints,
        ValueRule::OfType(ValueType::Points),
    ),
    Rule::Value(
        KnownExtension::InhibitAnyPolicy,
        ValueRule::OfType(ValueType::Number),
    ),
    Rule::Value(
        KnownExtension::FreshestCrl,
        ValueRule::OfType(ValueType::Points),
    ),
    Rule::Value(
        KnownExtension::AuthorityInfoAccess,
        ValueRule::OfType(ValueType::Descriptions),
    ),
    Rule::Value(
        KnownExtension::SubjectInfoAccess,
        ValueRule::OfType(ValueType::Descriptions),
    ),
    Rule::Value(
        KnownExtension::PolicyMappings,
        ValueRule::OfType(ValueType::Mappings),
    ),
    Rule::Value(
        KnownExtension::SubjectDirectoryAttributes,
        ValueRule::OfType(ValueType::DirectoryAttributes),
    ),
    Rule::Value(
        KnownExtension::PolicyConstraints,
        ValueRule::OfType(ValueType::PolicyConstraints),
    ),
    Rule::Whole(WholeRule::KeyIdentifierOfIssuer),
    Rule::NotCritical(KnownExtension::AuthorityKeyIdentifier),
    Rule::Value(
        KnownExtension::AuthorityKeyIdentifier,
        ValueRule::IssuerAndSerial,
    ),
    Rule::Value(
        KnownExtension::AuthorityKeyIdentifier,
        ValueRule::Issuer(NameRule::OrderedAttributes),
    ),
    Rule::Value(
        KnownExtension::AuthorityKeyIdentifier,
        ValueRule::Issuer(NameRule::TypedAttributes),
    ),
    Rule::Value(
        KnownExtension::AuthorityKeyIdentifier,
        ValueRule::Issuer(NameRule::PartyName),
    ),
    Rule::Value(KnownExtension::AuthorityKeyIdentifier, ValueRule::DerValues),
    Rule::Whole(WholeRule::KeyIdentifierOfAuthority),
    Rule::NotCritical(KnownExtension::SubjectKeyIdentifier),
    Rule::Whole(WholeRule::KeyUsageOfAuthority),
    Rule::Whole(WholeRule::CertSignOfAuthority),
    Rule::Value(
        KnownExtension::CertificatePolicies,
        ValueRule::DistinctPolicies,
    ),
    Rule::Value(
        KnownExtension::CertificatePolicies,
        ValueRule::AnyPolicyQualifiers,
    ),
    Rule::Value(
        KnownExtension::CertificatePolicies,
        ValueRule::Qualifiers(QualifierRule::PointerOfType),
    ),
    Rule::Value(
        KnownExtension::CertificatePolicies,
        ValueRule::Qualifiers(QualifierRule::NoticeOfType),
    ),
    Rule::Value(
        KnownExtension::CertificatePolicies,
        ValueRule::Qualifiers(QualifierRule::Notice(NoticeRule::TextSize)),
    ),
    Rule::Value(
        KnownExtension::CertificatePolicies,
        ValueRule::Qualifiers(QualifierRule::Notice(NoticeRule::NoIa5Text)),
    ),
    Rule::Value(KnownExtension::CertificatePolicies, ValueRule::DerValues),
    Rule::Value(KnownExtension::PolicyMappings, ValueRule::UnmappedAnyPolicy),
    Rule::Value(
        KnownExtension::SubjectAltName,
        ValueRule::Names(NameRule::NotEmpty),
    ),
    Rule::Value(
        KnownExtension::SubjectAltName,
        ValueRule::Names(NameRule::AddressOctets),
    ),
    Rule::Value(
        KnownExtension::SubjectAltName,
        ValueRule::Names(NameRule::NotBlank),
    ),
    Rule::Value(
        KnownExtension::SubjectAltName,
        ValueRule::Names(NameRule::Scheme),
    ),
    Rule::Value(
        KnownExtension::SubjectAltName,
        ValueRule::Names(NameRule::Host),
    ),
    Rule::Value(
        KnownExtension::SubjectAltName,
        ValueRule::Names(NameRule::Mailbox),
    ),
    Rule::Value(
        KnownExtension::SubjectAltName,
        ValueRule::Names(NameRule::PreferredName),
    ),
    Rule::Value(
        KnownExtension::SubjectAltName,
        ValueRule::Names(NameRule::InternationalMailbox),
    ),
    Rule::Value(
        KnownExtension::SubjectAltName,
        ValueRule::Names(NameRule::OrderedAttributes),
    ),
    Rule::Value(
        KnownExtension::SubjectAltName,
        ValueRule::Names(NameRule::TypedAttributes),
    ),
    Rule::Value(
        KnownExtension::SubjectAltName,
        ValueRule::Names(NameRule::PartyName),
    ),
    Rule::Value(KnownExtension::SubjectAltName, ValueRule::DerValues),
    Rule::Value(
        KnownExtension::IssuerAltName,
        ValueRule::Names(NameRule::NotEmpty),
    ),
    Rule::Value(
        KnownExtension::IssuerAltName,
        ValueRule::Names(NameRule::AddressOctets),
    ),
    Rule::Value(
        KnownExtension::IssuerAltName,
        ValueRule::Names(NameRule::NotBlank),
    ),
    Rule::Value(
        KnownExtension::IssuerAltName,
        ValueRule::Names(NameRule::Scheme),
    ),
    Rule::Value(
        KnownExtension::IssuerAltName,
        ValueRule::Names(NameRule::Host),
    ),
    Rule::Value(
        KnownExtension::IssuerAltName,
        ValueRule::Names(NameRule::Mailbox),
    ),
    Rule::Value(
        KnownExtension::IssuerAltName,
        ValueRule::Names(NameRule::PreferredName),
    ),
    Rule::Value(
        KnownExtension::IssuerAltName,
        ValueRule::Names(NameRule::InternationalMailbox),
    ),
    Rule::Value(
        KnownExtension::IssuerAltName,
        ValueRule::Names(NameRule::OrderedAttributes),
    ),
    Rule::Value(
        KnownExtension::IssuerAltName,
        ValueRule::Names(NameRule::TypedAttributes),
    ),
    Rule::Value(
        KnownExtension::IssuerAltName,
        ValueRule::Names(NameRule::PartyName),
    ),
    Rule::Value(KnownExtension::IssuerAltName, ValueRule::DerValues),
    Rule::NotCritical(KnownExtension::SubjectDirectoryAttributes),
    Rule::Value(
        KnownExtension::SubjectDirectoryAttributes,
        ValueRule::DerValues,
    ),
    Rule::Whole(WholeRule::CriticalConstraints),
    Rule::Whole(WholeRule::PathLengthOfAuthority),
    Rule::Whole(WholeRule::PathLengthOfCertSign),
    Rule::Whole(WholeRule::NameConstraintsOfAuthority),
    Rule::Critical(KnownExtension::NameConstraints),
    Rule::Value(KnownExtension::NameConstraints, ValueRule::NotEmpty),
    Rule::Value(
        KnownExtension::NameConstraints,
        ValueRule::Subtrees(SubtreeRule::NoDistance),
    ),
    Rule::Value(
        KnownExtension::NameConstraints,
        ValueRule::Subtrees(SubtreeRule::NetworkOctets),
    ),
    Rule::Value(
        KnownExtension::NameConstraints,
        ValueRule::Subtrees(SubtreeRule::NetworkMask),
    ),
    Rule::Value(
        KnownExtension::NameConstraints,
        ValueRule::Subtrees(SubtreeRule::HostOrDomain),
    ),
    Rule::Value(
        KnownExtension::NameConstraints,
        ValueRule::Subtrees(SubtreeRule::MailboxOrHost),
    ),
    Rule::Value(
        KnownExtension::NameConstraints,
        ValueRule::Subtrees(SubtreeRule::DomainName),
    ),
    Rule::Value(
        KnownExtension::NameConstraints,
        ValueRule::Subtrees(SubtreeRule::Base(NameRule::OrderedAttributes)),
    ),
    Rule::Value(
        KnownExtension::NameConstraints,
        ValueRule::Subtrees(SubtreeRule::Base(NameRule::TypedAttributes)),
    ),
    Rule::Value(
        KnownExtension::NameConstraints,
        ValueRule::Subtrees(SubtreeRule::Base(NameRule::PartyName)),
    ),
    Rule::Value(KnownExtension::NameConstraints, ValueRule::DerValues),
    Rule::Critical(KnownExtension::PolicyConstraints),
    Rule::Value(KnownExtension::PolicyConstraints, ValueRule::NotEmpty),
    Rule::Value(
        KnownExtension::CrlDistributionPoints,
        ValueRule::Points(PointRule::Named),
    ),
    Rule::Value(
        KnownExtension::CrlDistributionPoints,
        ValueRule::Points(PointRule::NamedIssuers),
    ),
    Rule::Value(
        KnownExtension::CrlDistributionPoints,
        ValueRule::Points(PointRule::RelativeToOneIssuer),
    ),
    Rule::Value(
        KnownExtension::CrlDistributionPoints,
        ValueRule::Points(PointRule::Issuers(NameRule::OrderedAttributes)),
    ),
    Rule::Value(
        KnownExtension::CrlDistributionPoints,
        ValueRule::Points(PointRule::Issuers(NameRule::TypedAttributes)),
    ),
    Rule::Value(
        KnownExtension::CrlDistributionPoints,
        ValueRule::Points(PointRule::FullNames(NameRule::OrderedAttributes)),
    ),
    Rule::Value(
        KnownExtension::CrlDistributionPoints,
        ValueRule::Points(PointRule::FullNames(NameRule::TypedAttributes)),
    ),
    Rule::Value(
        KnownExtension::CrlDistributionPoints,
        ValueRule::Points(PointRule::FullNames(NameRule::PartyName)),
    ),
    Rule::Value(
        KnownExtension::CrlDistributionPoints,
        ValueRule::Points(PointRule::FullNames(NameRule::LdapEntry)),
    ),
    Rule::Value(
        KnownExtension::CrlDistributionPoints,
        ValueRule::Points(PointRule::FullNames(NameRule::LdapAttribute)),
    ),
    Rule::Value(KnownExtension::CrlDistributionPoints, ValueRule::DerValues),
    Rule::Value(
        KnownExtension::CrlDistributionPoints,
        ValueRule::PointForAllReasons,
    ),
    Rule::Whole(WholeRule::OtherCrlIssuer),
    Rule::Critical(KnownExtension::InhibitAnyPolicy),
    Rule::Value(KnownExtension::InhibitAnyPolicy, ValueRule::NaturalNumber),
    Rule::NotCritical(KnownExtension::FreshestCrl),
    Rule::Value(
        KnownExtension::FreshestCrl,
        ValueRule::Points(PointRule::Named),
    ),
    Rule::Value(
        KnownExtension::FreshestCrl,
        ValueRule::Points(PointRule::NamedIssuers),
    ),
    Rule::Value(
        KnownExtension::FreshestCrl,
        ValueRule::Points(PointRule::RelativeToOneIssuer),
    ),
    Rule::Value(
        KnownExtension::FreshestCrl,
        ValueRule::Points(PointRule::Issuers(NameRule::OrderedAttributes)),
    ),
    Rule::Value(
        KnownExtension::FreshestCrl,
        ValueRule::Points(PointRule::Issuers(NameRule::TypedAttributes)),
    ),
    Rule::Value(
        KnownExtension::FreshestCrl,
        ValueRule::Points(PointRule::FullNames(NameRule::OrderedAttributes)),
    ),
    Rule::Value(
        KnownExtension::FreshestCrl,
        ValueRule::Points(PointRule::FullNames(NameRule::TypedAttributes)),
    ),
    Rule::Value(
        KnownExtension::FreshestCrl,
        ValueRule::Points(PointRule::FullNames(NameRule::PartyName)),
    ),
    Rule::Value(
        KnownExtension::FreshestCrl,
        ValueRule::Points(PointRule::FullNames(NameRule::LdapEntry)),
    ),
    Rule::Value(
        KnownExtension::FreshestCrl,
        ValueRule::Points(PointRule::FullNames(NameRule::LdapAttribute)),
    ),
    Rule::Value(KnownExtension::FreshestCrl, ValueRule::DerValues),
    Rule::NotCritical(KnownExtension::AuthorityInfoAccess),
    Rule::Value(
        KnownExtension::AuthorityInfoAccess,
        ValueRule::Locations(NameRule::OrderedAttributes),
    ),
    Rule::Value(
        KnownExtension::AuthorityInfoAccess,
        ValueRule::Locations(NameRule::TypedAttributes),
    ),
    Rule::Value(
        KnownExtension::AuthorityInfoAccess,
        ValueRule::Locations(NameRule::PartyName),
    ),
    Rule::Value(KnownExtension::AuthorityInfoAccess, ValueRule::DerValues),
    Rule::Value(
        KnownExtension::AuthorityInfoAccess,
        ValueRule::Locations(NameRule::LdapEntry),
    ),
    Rule::NotCritical(KnownExtension::SubjectInfoAccess),
    Rule::Value(
        KnownExtension::SubjectInfoAccess,
        ValueRule::Locations(NameRule::OrderedAttributes),
    ),
    Rule::Value(
        KnownExtension::SubjectInfoAccess,
        ValueRule::Locations(NameRule::TypedAttributes),
    ),
    Rule::Value(
        KnownExtension::SubjectInfoAccess,
        ValueRule::Locations(NameRule::PartyName),
    ),
    Rule::Value(KnownExtension::SubjectInfoAccess, ValueRule::DerValues),
    Rule::Value(
        KnownExtension::SubjectInfoAccess,
        ValueRule::Locations(NameRule::LdapEntry),
    ),
    Rule::Value(
        KnownExtension::QcStatements,
        ValueRule::OfType(ValueType::Statements),
    ),
    Rule::Value(KnownExtension::QcStatements, ValueRule::DerValues),
    Rule::Value(
        KnownExtension::OcspNoCheck,
        ValueRule::OfType(ValueType::Null),
    ),
    Rule::Value(
        KnownExtension::PrecertificatePoison,
        ValueRule::OfType(ValueType::Null),
    ),
    Rule::Value(
        KnownExtension::SignedCertificateTimestamps,
        ValueRule::OfType(ValueType::Timestamps),
    ),
    Rule::Value(
        KnownExtension::TlsFeature,
        ValueRule::OfType(ValueType::Features),
    ),
    Rule::Critical(KnownExtension::PrecertificatePoison),
    Rule::Value(
        KnownExtension::NoRevAvail,
        ValueRule::OfType(ValueType::Null),
    ),
    Rule::NotCritical(KnownExtension::NoRevAvail),
    Rule::Whole(WholeRule::NoRevAvailOfEndEntity),
    Rule::Whole(WholeRule::NoRevAvailWithoutPoints),
    Rule::Whole(WholeRule::NoRevAvailWithoutOcsp),
];

/// The rules with SHOULD or SHOULD NOT.
pub const SHOULD_RULES: &[Rule] = &[
    Rule::Whole(WholeRule::KeyIdentifierOfEndEntity),
    Rule::Critical(KnownExtension::KeyUsage),
    Rule::Value(
        KnownExtension::CertificatePolicies,
        ValueRule::Qualifiers(QualifierRule::Notice(NoticeRule::Utf8Text)),
    ),
    Rule::Value(
        KnownExtension::CertificatePolicies,
        ValueRule::Qualifiers(QualifierRule::Notice(NoticeRule::NoReference)),
    ),
    Rule::Critical(KnownExtension::PolicyMappings),
    Rule::Whole(WholeRule::AltNameNotCritical),
    Rule::NotCritical(KnownExtension::IssuerAltName),
    Rule::Value(
        KnownExtension::NameConstraints,
        ValueRule::Subtrees(SubtreeRule::UsualName),
    ),
    Rule::Whole(WholeRule::AnyPurposeNotCritical),
    Rule::NotCritical(KnownExtension::CrlDistributionPoints),
    Rule::Value(
        KnownExtension::CrlDistributionPoints,
        ValueRule::Points(PointRule::FullName),
    ),
    Rule::Value(
        KnownExtension::FreshestCrl,
        ValueRule::Points(PointRule::FullName),
    ),
    Rule::NotCritical(KnownExtension::OcspNoCheck),
];

impl Rule {
    /// Returns whether only a CA certificate breaks the rule: its basicConstraints has cA TRUE (4.2.1.9).
    pub fn is_of_authority(self) -> bool
        ensures { IsTrue result → (c : Signed) → Breaks self c → IsAuthority c }
    {
        match self {
            Rule::Whole(rule) => rule.is_of_authority(),
            _ => false,
        }
    }
}

/// Returns whether the certificate breaks the rule.
pub fn breaks(rule: Rule, certificate: &Certificate<'_>) -> bool
    ensures { IsTrue result ↔ Breaks rule (certificate_of certificate.now) }
{
    breaks_examined(rule, &unexamined(certificate))
}

/// Returns whether an examined certificate breaks the rule.
#[inline(always)]
pub fn breaks_examined(rule: Rule, certificate: &Examined<'_, '_>) -> bool
    requires { IsExamined certificate.now }
    ensures { IsTrue result ↔ Breaks rule (signed_of certificate.now) }
{
    match rule {
        Rule::Fields(rule) => certificate.signed.breaks(rule),
        Rule::Algorithm(rule) => breaks_algorithm(rule, certificate.signed),
        Rule::Attribute(kind) => breaks_attribute(kind, certificate),
        Rule::Critical(known) => has(certificate, known, Fact::NotCritical),
        Rule::NotCritical(known) => has(certificate, known, Fact::Critical),
        Rule::Value(known, rule) => breaks_value(certificate, known, rule),
        Rule::Whole(rule) => breaks_whole(rule, certificate),
    }
}
