//! What an extension says, by its identifier (RFC 5280 4.2, 5.2, 5.3, and those of the web).
ghost use Rattle.der_extensions.specs.Values.{ReadsAs, ReadsExtension};

use crate::basic_constraints::{BasicConstraints, read_basic_constraints};
use crate::certificate_policies::{CertificatePolicies, read_certificate_policies};
use crate::crl_number::read_crl_number;
use crate::directory_attributes::{
    SubjectDirectoryAttributes, read_subject_directory_attributes as read_attributes,
};
use crate::distribution_points::{CrlDistributionPoints, read_crl_distribution_points};
use crate::extended_key_usage::{ExtendedKeyUsage, read_extended_key_usage};
use crate::general_name::{GeneralNames, read_general_names};
use crate::information_access::{InformationAccess, read_information_access};
use crate::invalidity_date::read_invalidity_date;
use crate::issuing_distribution_point::{
    IssuingDistributionPoint, read_issuing_distribution_point,
};
use crate::key_identifiers::{
    AuthorityKeyIdentifier, read_authority_key_identifier, read_subject_key_identifier,
};
use crate::key_usage::{KeyUsage, read_key_usage};
use crate::known::{KnownExtension as Known, known_extension};
use crate::name_constraints::{NameConstraints, read_name_constraints};
use crate::null::read_null;
use crate::organization_identifier::{OrganizationIdentifier, read_organization_identifier};
use crate::policy_constraints::{
    PolicyConstraints, read_inhibit_any_policy, read_policy_constraints,
};
use crate::policy_mappings::{PolicyMappings, read_policy_mappings};
use crate::qc_statements::{QcStatements, read_qc_statements};
use crate::timestamps::{
    SignedCertificateTimestamps, read_signed_certificate_timestamps as read_timestamps,
};
use crate::tls_feature::{TlsFeatures, read_tls_features};
use crate::value::ExtensionValue as Value;
use der_base::error::BerError;
use der_base::time::ASN1DateTime;
use der_cursor::ReadError;
use x509::{Extension, absolute_octets};

/// What an extension says.
#[derive(Drop)]
pub enum ExtensionValue<'a> {
    /// Which key signed the certificate or the list of revoked ones (4.2.1.1, 5.2.1).
    AuthorityKeyIdentifier(AuthorityKeyIdentifier<'a>),
    /// Which key the certificate has (4.2.1.2).
    SubjectKeyIdentifier(&'a [u8]),
    /// What the key is for (4.2.1.3).
    KeyUsage(KeyUsage<'a>),
    /// By which policies it was issued (4.2.1.4).
    CertificatePolicies(CertificatePolicies<'a>),
    /// Other names of the subject (4.2.1.6).
    SubjectAltName(GeneralNames<'a>),
    /// Other names of the issuer (4.2.1.7, 5.2.2).
    IssuerAltName(GeneralNames<'a>),
    /// Whether the subject is an authority (4.2.1.9).
    BasicConstraints(BasicConstraints),
    /// Which names an authority may certify (4.2.1.10).
    NameConstraints(NameConstraints<'a>),
    /// What the key is for, by identifiers (4.2.1.12).
    ExtendedKeyUsage(ExtendedKeyUsage<'a>),
    /// Where lists of revoked certificates are (4.2.1.13).
    CrlDistributionPoints(CrlDistributionPoints<'a>),
    /// Where the changes of these lists are (4.2.1.15, 5.2.6).
    FreshestCrl(CrlDistributionPoints<'a>),
    /// Where there is more about the issuer (4.2.2.1, 5.2.7).
    AuthorityInfoAccess(InformationAccess<'a>),
    /// Where there is more about the subject (4.2.2.2).
    SubjectInfoAccess(InformationAccess<'a>),
    /// Which policies of the issuer stand for those of the subject (4.2.1.5).
    PolicyMappings(PolicyMappings<'a>),
    /// What else is said of the subject (4.2.1.8).
    SubjectDirectoryAttributes(SubjectDirectoryAttributes<'a>),
    /// From where on in a path policies are asked for, or no longer mapped (4.2.1.11).
    PolicyConstraints(PolicyConstraints),
    /// How many certificates may follow before anyPolicy no longer counts (4.2.1.14).
    InhibitAnyPolicy(u32),
    /// The content octets of the number of a list of revoked certificates (5.2.3).
    CrlNumber(&'a [u8]),
    /// Those of the number of the list that this one changes (5.2.4).
    DeltaCrlIndicator(&'a [u8]),
    /// Which certificates the list is about (5.2.5).
    IssuingDistributionPoint(IssuingDistributionPoint<'a>),
    /// Why a certificate is revoked (5.3.1). `read_reason` of `x509::crl` reads the value.
    ReasonCode,
    /// Since when the key is known to be invalid (5.3.2).
    InvalidityDate(ASN1DateTime),
    /// Who issued the certificates from this entry on (5.3.3).
    CertificateIssuer(GeneralNames<'a>),
    /// Promises of logs to show the certificate (RFC 6962 3.3).
    SignedCertificateTimestamps(SignedCertificateTimestamps<'a>),
    /// It isn't to be accepted as a certificate (RFC 6962 3.1).
    PrecertificatePoison,
    /// What the server speaks (RFC 7633).
    TlsFeatures(TlsFeatures<'a>),
    /// Its status isn't asked for (RFC 6960 4.2.2.2.1).
    OcspNoCheck,
    /// What is stated of a qualified certificate (RFC 3739 3.2.6).
    QcStatements(QcStatements<'a>),
    /// In which register the organization is (CA/B Forum, EV Guidelines 9.8.2).
    OrganizationIdentifier(OrganizationIdentifier<'a>),
    /// No information about revocation is given (RFC 9608 2).
    NoRevAvail,
    /// Another extension, whose value isn't read.
    Other,
}

/// Reads the value of an extension by DER, as the type that its identifier names. The value is an input of
/// its own.
///
/// ```
/// for extension in certificate.tbs_certificate.extensions.iter() {
///     if let ExtensionValue::BasicConstraints(constraints) = read_extension_value(&extension)? {
///         println!(rt; "{}", constraints.ca)?;
///     }
/// }
/// ```
pub fn read_extension_value<'a>(
    extension: &Extension<'a>,
) -> Result<ExtensionValue<'a>, ReadError<BerError>>
    ensures { ReadsExtension extension.now result }
{
    match known_extension(absolute_octets(&extension.identifier)) {
        Some(known) => read_as(known, extension.value),
        None => Ok(Value::Other),
    }
}

/// Reads the value of this extension.
#[rattlefmt::skip]
fn read_as(known: Known, value: &[u8]) -> Result<ExtensionValue<'_>, ReadError<BerError>>
    ensures { ReadsAs value.now result known }
{
    match known {
        Known::AuthorityKeyIdentifier => Ok(Value::AuthorityKeyIdentifier(read_authority_key_identifier(value)?)),
        Known::SubjectKeyIdentifier => Ok(Value::SubjectKeyIdentifier(read_subject_key_identifier(value)?)),
        Known::KeyUsage => Ok(Value::KeyUsage(read_key_usage(value)?)),
        Known::CertificatePolicies => Ok(Value::CertificatePolicies(read_certificate_policies(value)?)),
        Known::SubjectAltName => Ok(Value::SubjectAltName(read_general_names(value)?)),
        Known::IssuerAltName => Ok(Value::IssuerAltName(read_general_names(value)?)),
        Known::BasicConstraints => Ok(Value::BasicConstraints(read_basic_constraints(value)?)),
        Known::NameConstraints => Ok(Value::NameConstraints(read_name_constraints(value)?)),
        Known::ExtendedKeyUsage => Ok(Value::ExtendedKeyUsage(read_extended_key_usage(value)?)),
        Known::CrlDistributionPoints => Ok(Value::CrlDistributionPoints(read_crl_distribution_points(value)?)),
        Known::FreshestCrl => Ok(Value::FreshestCrl(read_crl_distribution_points(value)?)),
        Known::AuthorityInfoAccess => Ok(Value::AuthorityInfoAccess(read_information_access(value)?)),
        Known::SubjectInfoAccess => Ok(Value::SubjectInfoAccess(read_information_access(value)?)),
        Known::PolicyMappings => Ok(Value::PolicyMappings(read_policy_mappings(value)?)),
        Known::SubjectDirectoryAttributes => Ok(Value::SubjectDirectoryAttributes(read_attributes(value)?)),
        Known::PolicyConstraints => Ok(Value::PolicyConstraints(read_policy_constraints(value)?)),
        Known::InhibitAnyPolicy => Ok(Value::InhibitAnyPolicy(read_inhibit_any_policy(value)?)),
        Known::CrlNumber => Ok(Value::CrlNumber(read_crl_number(value)?)),
        Known::DeltaCrlIndicator => Ok(Value::DeltaCrlIndicator(read_crl_number(value)?)),
        Known::IssuingDistributionPoint => Ok(Value::IssuingDistributionPoint(read_issuing_distribution_point(value)?)),
        Known::ReasonCode => Ok(Value::ReasonCode),
        Known::InvalidityDate => Ok(Value::InvalidityDate(read_invalidity_date(value)?)),
        Known::CertificateIssuer => Ok(Value::CertificateIssuer(read_general_names(value)?)),
        Known::SignedCertificateTimestamps => Ok(Value::SignedCertificateTimestamps(read_timestamps(value)?)),
        Known::PrecertificatePoison => {
            read_null(value)?;
            Ok(Value::PrecertificatePoison)
        }
        Known::TlsFeature => Ok(Value::TlsFeatures(read_tls_features(value)?)),
        Known::OcspNoCheck => {
            read_null(value)?;
            Ok(Value::OcspNoCheck)
        }
        Known::QcStatements => Ok(Value::QcStatements(read_qc_statements(value)?)),
        Known::OrganizationIdentifier => Ok(Value::OrganizationIdentifier(read_organization_identifier(value)?)),
        Known::NoRevAvail => {
            read_null(value)?;
            Ok(Value::NoRevAvail)
        }
    }
}
