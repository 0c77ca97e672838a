//! The extensions that are known, of RFC 5280 (4.2, 5.2, 5.3) and of other documents, by their identifiers.
ghost use Rattle.std.specs.Prelude.{◌≡◌, ◌<◌, Some};
ghost use Rattle.der_extensions.specs.Known.{IdentifiesExtension, id_ce, id_pe, known_count, known_number};
ghost use Rattle.der_extensions.specs.Known.{octets_of, transparency};

use std::fmt;

/// An extension of a certificate, a CRL or a CRL entry, with its section, of RFC 5280 unless another document is named.
#[derive(Clone, Copy, Debug, PartialEq)]
pub enum KnownExtension {
    /// 4.2.1.1.
    AuthorityKeyIdentifier,
    /// 4.2.1.2.
    SubjectKeyIdentifier,
    /// 4.2.1.3.
    KeyUsage,
    /// 4.2.1.4.
    CertificatePolicies,
    /// 4.2.1.5.
    PolicyMappings,
    /// 4.2.1.6.
    SubjectAltName,
    /// 4.2.1.7.
    IssuerAltName,
    /// 4.2.1.8.
    SubjectDirectoryAttributes,
    /// 4.2.1.9.
    BasicConstraints,
    /// 4.2.1.10.
    NameConstraints,
    /// 4.2.1.11.
    PolicyConstraints,
    /// 4.2.1.12.
    ExtendedKeyUsage,
    /// 4.2.1.13.
    CrlDistributionPoints,
    /// 4.2.1.14.
    InhibitAnyPolicy,
    /// 4.2.1.15, 5.2.6.
    FreshestCrl,
    /// 4.2.2.1, 5.2.7.
    AuthorityInfoAccess,
    /// 4.2.2.2.
    SubjectInfoAccess,
    /// 5.2.3.
    CrlNumber,
    /// 5.2.4.
    DeltaCrlIndicator,
    /// 5.2.5.
    IssuingDistributionPoint,
    /// 5.3.1.
    ReasonCode,
    /// 5.3.2.
    InvalidityDate,
    /// 5.3.3.
    CertificateIssuer,
    /// RFC 3739 3.2.6.
    QcStatements,
    /// RFC 6960 4.2.2.2.1.
    OcspNoCheck,
    /// RFC 6962 3.1.
    PrecertificatePoison,
    /// RFC 6962 3.3.
    SignedCertificateTimestamps,
    /// RFC 7633 4.
    TlsFeature,
    /// RFC 9608 2.
    NoRevAvail,
    /// CA/B Forum, EV Guidelines 9.8.2.
    OrganizationIdentifier,
}

/// The number of known extensions.
pub const KNOWN_EXTENSIONS: usize = 30;

impl KnownExtension {
    /// The content octets of the identifier: 2.5.29.n or 1.3.6.1.5.5.7.1.n in RFC 5280 (A.2).
    #[inline]
    pub fn identifier(self) -> &'static [u8]
        ensures { result.now ≡ octets_of self }
    {
        match self {
            KnownExtension::AuthorityKeyIdentifier => AUTHORITY_KEY_IDENTIFIER,
            KnownExtension::SubjectKeyIdentifier => SUBJECT_KEY_IDENTIFIER,
            KnownExtension::KeyUsage => KEY_USAGE,
            KnownExtension::CertificatePolicies => CERTIFICATE_POLICIES,
            KnownExtension::PolicyMappings => POLICY_MAPPINGS,
            KnownExtension::SubjectAltName => SUBJECT_ALT_NAME,
            KnownExtension::IssuerAltName => ISSUER_ALT_NAME,
            KnownExtension::SubjectDirectoryAttributes => SUBJECT_DIRECTORY_ATTRIBUTES,
            KnownExtension::BasicConstraints => BASIC_CONSTRAINTS,
            KnownExtension::NameConstraints => NAME_CONSTRAINTS,
            KnownExtension::PolicyConstraints => POLICY_CONSTRAINTS,
            KnownExtension::ExtendedKeyUsage => EXTENDED_KEY_USAGE,
            KnownExtension::CrlDistributionPoints => CRL_DISTRIBUTION_POINTS,
            KnownExtension::InhibitAnyPolicy => INHIBIT_ANY_POLICY,
            KnownExtension::FreshestCrl => FRESHEST_CRL,
            KnownExtension::AuthorityInfoAccess => AUTHORITY_INFO_ACCESS,
            KnownExtension::SubjectInfoAccess => SUBJECT_INFO_ACCESS,
            KnownExtension::CrlNumber => CRL_NUMBER,
            KnownExtension::DeltaCrlIndicator => DELTA_CRL_INDICATOR,
            KnownExtension::IssuingDistributionPoint => ISSUING_DISTRIBUTION_POINT,
            KnownExtension::ReasonCode => REASON_CODE,
            KnownExtension::InvalidityDate => INVALIDITY_DATE,
            KnownExtension::CertificateIssuer => CERTIFICATE_ISSUER,
            KnownExtension::QcStatements => QC_STATEMENTS,
            KnownExtension::OcspNoCheck => OCSP_NO_CHECK,
            KnownExtension::PrecertificatePoison => PRECERTIFICATE_POISON,
            KnownExtension::SignedCertificateTimestamps => SIGNED_CERTIFICATE_TIMESTAMPS,
            KnownExtension::TlsFeature => TLS_FEATURE,
            KnownExtension::NoRevAvail => NO_REV_AVAIL,
            KnownExtension::OrganizationIdentifier => ORGANIZATION_IDENTIFIER,
        }
    }

    /// The position in the order above, from 0.
    #[inline(always)]
    pub fn number(self) -> usize
        ensures number { result ≡ known_number self }
        ensures few { result < known_count }
    {
        match self {
            KnownExtension::AuthorityKeyIdentifier => 0,
            KnownExtension::SubjectKeyIdentifier => 1,
            KnownExtension::KeyUsage => 2,
            KnownExtension::CertificatePolicies => 3,
            KnownExtension::PolicyMappings => 4,
            KnownExtension::SubjectAltName => 5,
            KnownExtension::IssuerAltName => 6,
            KnownExtension::SubjectDirectoryAttributes => 7,
            KnownExtension::BasicConstraints => 8,
            KnownExtension::NameConstraints => 9,
            KnownExtension::PolicyConstraints => 10,
            KnownExtension::ExtendedKeyUsage => 11,
            KnownExtension::CrlDistributionPoints => 12,
            KnownExtension::InhibitAnyPolicy => 13,
            KnownExtension::FreshestCrl => 14,
            KnownExtension::AuthorityInfoAccess => 15,
            KnownExtension::SubjectInfoAccess => 16,
            KnownExtension::CrlNumber => 17,
            KnownExtension::DeltaCrlIndicator => 18,
            KnownExtension::IssuingDistributionPoint => 19,
            KnownExtension::ReasonCode => 20,
            KnownExtension::InvalidityDate => 21,
            KnownExtension::CertificateIssuer => 22,
            KnownExtension::QcStatements => 23,
            KnownExtension::OcspNoCheck => 24,
            KnownExtension::PrecertificatePoison => 25,
            KnownExtension::SignedCertificateTimestamps => 26,
            KnownExtension::TlsFeature => 27,
            KnownExtension::NoRevAvail => 28,
            KnownExtension::OrganizationIdentifier => 29,
        }
    }

    /// The document and the section of the extension.
    pub fn section(self) -> &'static str {
        match self {
            KnownExtension::AuthorityKeyIdentifier => "RFC 5280 4.2.1.1",
            KnownExtension::SubjectKeyIdentifier => "RFC 5280 4.2.1.2",
            KnownExtension::KeyUsage => "RFC 5280 4.2.1.3",
            KnownExtension::CertificatePolicies => "RFC 5280 4.2.1.4",
            KnownExtension::PolicyMappings => "RFC 5280 4.2.1.5",
            KnownExtension::SubjectAltName => "RFC 5280 4.2.1.6",
            KnownExtension::IssuerAltName => "RFC 5280 4.2.1.7",
            KnownExtension::SubjectDirectoryAttributes => "RFC 5280 4.2.1.8",
            KnownExtension::BasicConstraints => "RFC 5280 4.2.1.9",
            KnownExtension::NameConstraints => "RFC 5280 4.2.1.10",
            KnownExtension::PolicyConstraints => "RFC 5280 4.2.1.11",
            KnownExtension::ExtendedKeyUsage => "RFC 5280 4.2.1.12",
            KnownExtension::CrlDistributionPoints => "RFC 5280 4.2.1.13",
            KnownExtension::InhibitAnyPolicy => "RFC 5280 4.2.1.14",
            KnownExtension::FreshestCrl => "RFC 5280 4.2.1.15",
            KnownExtension::AuthorityInfoAccess => "RFC 5280 4.2.2.1",
            KnownExtension::SubjectInfoAccess => "RFC 5280 4.2.2.2",
            KnownExtension::CrlNumber => "RFC 5280 5.2.3",
            KnownExtension::DeltaCrlIndicator => "RFC 5280 5.2.4",
            KnownExtension::IssuingDistributionPoint => "RFC 5280 5.2.5",
            KnownExtension::ReasonCode => "RFC 5280 5.3.1",
            KnownExtension::InvalidityDate => "RFC 5280 5.3.2",
            KnownExtension::CertificateIssuer => "RFC 5280 5.3.3",
            KnownExtension::QcStatements => "RFC 3739 3.2.6",
            KnownExtension::OcspNoCheck => "RFC 6960 4.2.2.2.1",
            KnownExtension::PrecertificatePoison => "RFC 6962 3.1",
            KnownExtension::SignedCertificateTimestamps => "RFC 6962 3.3",
            KnownExtension::TlsFeature => "RFC 7633 4",
            KnownExtension::NoRevAvail => "RFC 9608 2",
            KnownExtension::OrganizationIdentifier => "EV Guidelines 9.8.2",
        }
    }
}

/// The name of the extension in the ASN.1 of RFC 5280 or of its own document.
impl fmt::Display for KnownExtension {
    fn fmt<W: fmt::Write>(&self, f: &mut fmt::Formatter<W>) -> fmt::Result {
        f.write_str(match self {
            KnownExtension::AuthorityKeyIdentifier => "authorityKeyIdentifier",
            KnownExtension::SubjectKeyIdentifier => "subjectKeyIdentifier",
            KnownExtension::KeyUsage => "keyUsage",
            KnownExtension::CertificatePolicies => "certificatePolicies",
            KnownExtension::PolicyMappings => "policyMappings",
            KnownExtension::SubjectAltName => "subjectAltName",
            KnownExtension::IssuerAltName => "issuerAltName",
            KnownExtension::SubjectDirectoryAttributes => "subjectDirectoryAttributes",
            KnownExtension::BasicConstraints => "basicConstraints",
            KnownExtension::NameConstraints => "nameConstraints",
            KnownExtension::PolicyConstraints => "policyConstraints",
            KnownExtension::ExtendedKeyUsage => "extKeyUsage",
            KnownExtension::CrlDistributionPoints => "cRLDistributionPoints",
            KnownExtension::InhibitAnyPolicy => "inhibitAnyPolicy",
            KnownExtension::FreshestCrl => "freshestCRL",
            KnownExtension::AuthorityInfoAccess => "authorityInfoAccess",
            KnownExtension::SubjectInfoAccess => "subjectInfoAccess",
            KnownExtension::CrlNumber => "cRLNumber",
            KnownExtension::DeltaCrlIndicator => "deltaCRLIndicator",
            KnownExtension::IssuingDistributionPoint => "issuingDistributionPoint",
            KnownExtension::ReasonCode => "reasonCode",
            KnownExtension::InvalidityDate => "invalidityDate",
            KnownExtension::CertificateIssuer => "certificateIssuer",
            KnownExtension::QcStatements => "qcStatements",
            KnownExtension::OcspNoCheck => "OCSP no-check",
            KnownExtension::PrecertificatePoison => "the poison of a precertificate",
            KnownExtension::SignedCertificateTimestamps =>
                "the list of signed certificate timestamps",
            KnownExtension::TlsFeature => "TLS feature",
            KnownExtension::NoRevAvail => "noRevAvail",
            KnownExtension::OrganizationIdentifier => "cabfOrganizationIdentifier",
        })
    }
}

/// Returns the extension with this identifier, given its content octets.
#[inline]
pub fn known_extension(octets: &[u8]) -> Option<KnownExtension>
    ensures { IdentifiesExtension octets.now result }
{
    let Some(known) = likely_extension(octets) else {
        return None;
    };
    if known.identifier() == octets {
        Some(known)
    } else {
        None
    }
}

/// Returns the only candidate, by the number of octets and the last one.
fn likely_extension(octets: &[u8]) -> Option<KnownExtension>
    ensures { (k : KnownExtension) → octets.now ≡ octets_of k → result ≡ Some k }
{
    let Some(last) = octets.last() else {
        return None;
    };
    match octets.len() {
        3 => id_ce_extension(*last),
        5 => Some(KnownExtension::OrganizationIdentifier),
        8 => id_pe_extension(*last),
        9 => Some(KnownExtension::OcspNoCheck),
        10 => transparency_extension(*last),
        _ => None,
    }
}

/// Returns the extension of id-ce whose identifier ends in this octet.
fn id_ce_extension(last: u8) -> Option<KnownExtension>
    ensures { IdentifiesExtension (id_ce last) result }
{
    match last {
        0x23 => Some(KnownExtension::AuthorityKeyIdentifier),
        0x0e => Some(KnownExtension::SubjectKeyIdentifier),
        0x0f => Some(KnownExtension::KeyUsage),
        0x20 => Some(KnownExtension::CertificatePolicies),
        0x21 => Some(KnownExtension::PolicyMappings),
        0x11 => Some(KnownExtension::SubjectAltName),
        0x12 => Some(KnownExtension::IssuerAltName),
        0x09 => Some(KnownExtension::SubjectDirectoryAttributes),
        0x13 => Some(KnownExtension::BasicConstraints),
        0x1e => Some(KnownExtension::NameConstraints),
        0x24 => Some(KnownExtension::PolicyConstraints),
        0x25 => Some(KnownExtension::ExtendedKeyUsage),
        0x1f => Some(KnownExtension::CrlDistributionPoints),
        0x36 => Some(KnownExtension::InhibitAnyPolicy),
        0x2e => Some(KnownExtension::FreshestCrl),
        0x14 => Some(KnownExtension::CrlNumber),
        0x1b => Some(KnownExtension::DeltaCrlIndicator),
        0x1c => Some(KnownExtension::IssuingDistributionPoint),
        0x15 => Some(KnownExtension::ReasonCode),
        0x18 => Some(KnownExtension::InvalidityDate),
        0x1d => Some(KnownExtension::CertificateIssuer),
        0x38 => Some(KnownExtension::NoRevAvail),
        _ => None,
    }
}

/// Returns the extension of id-pe whose identifier ends in this octet.
fn id_pe_extension(last: u8) -> Option<KnownExtension>
    ensures { IdentifiesExtension (id_pe last) result }
{
    match last {
        0x01 => Some(KnownExtension::AuthorityInfoAccess),
        0x0b => Some(KnownExtension::SubjectInfoAccess),
        0x03 => Some(KnownExtension::QcStatements),
        0x18 => Some(KnownExtension::TlsFeature),
        _ => None,
    }
}

/// Returns the extension of RFC 6962 whose identifier ends in this octet.
fn transparency_extension(last: u8) -> Option<KnownExtension>
    ensures { IdentifiesExtension (transparency last) result }
{
    match last {
        0x03 => Some(KnownExtension::PrecertificatePoison),
        0x02 => Some(KnownExtension::SignedCertificateTimestamps),
        _ => None,
    }
}

const AUTHORITY_KEY_IDENTIFIER: &[u8] = b"\x55\x1d\x23";

const SUBJECT_KEY_IDENTIFIER: &[u8] = b"\x55\x1d\x0e";

const KEY_USAGE: &[u8] = b"\x55\x1d\x0f";

const CERTIFICATE_POLICIES: &[u8] = b"\x55\x1d\x20";

const POLICY_MAPPINGS: &[u8] = b"\x55\x1d\x21";

const SUBJECT_ALT_NAME: &[u8] = b"\x55\x1d\x11";

const ISSUER_ALT_NAME: &[u8] = b"\x55\x1d\x12";

const SUBJECT_DIRECTORY_ATTRIBUTES: &[u8] = b"\x55\x1d\x09";

const BASIC_CONSTRAINTS: &[u8] = b"\x55\x1d\x13";

const NAME_CONSTRAINTS: &[u8] = b"\x55\x1d\x1e";

const POLICY_CONSTRAINTS: &[u8] = b"\x55\x1d\x24";

const EXTENDED_KEY_USAGE: &[u8] = b"\x55\x1d\x25";

const CRL_DISTRIBUTION_POINTS: &[u8] = b"\x55\x1d\x1f";

const INHIBIT_ANY_POLICY: &[u8] = b"\x55\x1d\x36";

const FRESHEST_CRL: &[u8] = b"\x55\x1d\x2e";

const AUTHORITY_INFO_ACCESS: &[u8] = b"\x2b\x06\x01\x05\x05\x07\x01\x01";

const SUBJECT_INFO_ACCESS: &[u8] = b"\x2b\x06\x01\x05\x05\x07\x01\x0b";

const CRL_NUMBER: &[u8] = b"\x55\x1d\x14";

const DELTA_CRL_INDICATOR: &[u8] = b"\x55\x1d\x1b";

const ISSUING_DISTRIBUTION_POINT: &[u8] = b"\x55\x1d\x1c";

const REASON_CODE: &[u8] = b"\x55\x1d\x15";

const INVALIDITY_DATE: &[u8] = b"\x55\x1d\x18";

const CERTIFICATE_ISSUER: &[u8] = b"\x55\x1d\x1d";

const QC_STATEMENTS: &[u8] = b"\x2b\x06\x01\x05\x05\x07\x01\x03";

const OCSP_NO_CHECK: &[u8] = b"\x2b\x06\x01\x05\x05\x07\x30\x01\x05";

const PRECERTIFICATE_POISON: &[u8] = b"\x2b\x06\x01\x04\x01\xd6\x79\x02\x04\x03";

const SIGNED_CERTIFICATE_TIMESTAMPS: &[u8] = b"\x2b\x06\x01\x04\x01\xd6\x79\x02\x04\x02";

const TLS_FEATURE: &[u8] = b"\x2b\x06\x01\x05\x05\x07\x01\x18";

const NO_REV_AVAIL: &[u8] = b"\x55\x1d\x38";

const ORGANIZATION_IDENTIFIER: &[u8] = b"\x67\x81\x0c\x03\x01";
