//! The ASN.1 types of extension values.
ghost use Rattle.std.specs.Prelude.{◌↔◌, IsTrue};
ghost use Rattle.x509_rule_facts.specs.Types.{IsOfType};

use crate::readers::read_number;
use der_extensions::{
    read_authority_key_identifier, read_basic_constraints, read_certificate_policies,
    read_crl_distribution_points, read_extended_key_usage, read_general_names,
    read_information_access, read_invalidity_date, read_issuing_distribution_point, read_key_usage,
    read_name_constraints, read_null, read_policy_constraints, read_policy_mappings,
    read_qc_statements, read_signed_certificate_timestamps, read_subject_directory_attributes,
    read_subject_key_identifier, read_tls_features,
};
use x509::crl::read_reason;

/// The ASN.1 type of an extension's value, read by DER without trailing data.
#[derive(Clone, Copy, Debug, PartialEq)]
pub enum ValueType {
    /// AuthorityKeyIdentifier (4.2.1.1).
    KeyIdentifiers,
    /// OCTET STRING, of a subjectKeyIdentifier (4.2.1.2).
    Octets,
    /// KeyUsage: at least one bit is 1, and the last bit is (4.2.1.3).
    KeyUsage,
    /// CertificatePolicies: at least one policy (4.2.1.4).
    Policies,
    /// GeneralNames: at least one name (4.2.1.6, 4.2.1.7, 5.3.3).
    Names,
    /// BasicConstraints (4.2.1.9).
    Constraints,
    /// NameConstraints (4.2.1.10).
    NameConstraints,
    /// ExtKeyUsageSyntax: at least one purpose (4.2.1.12).
    Purposes,
    /// CRLDistributionPoints: at least one point (4.2.1.13, 4.2.1.15).
    Points,
    /// AuthorityInfoAccessSyntax: at least one description (4.2.2.1, 4.2.2.2).
    Descriptions,
    /// INTEGER, of an inhibitAnyPolicy, a cRLNumber or a deltaCRLIndicator (4.2.1.14, 5.2.3, 5.2.4).
    Number,
    /// CRLReason (5.3.1).
    Reason,
    /// GeneralizedTime, of an invalidityDate (5.3.2).
    Date,
    /// PolicyMappings: at least one mapping (4.2.1.5).
    Mappings,
    /// SubjectDirectoryAttributes: at least one attribute, each with a value (4.2.1.8).
    DirectoryAttributes,
    /// PolicyConstraints, of numbers to 2^32-1 (4.2.1.11).
    PolicyConstraints,
    /// IssuingDistributionPoint (5.2.5).
    IssuingPoint,
    /// QCStatements (RFC 3739 3.2.6).
    Statements,
    /// SignedCertificateTimestampList: at least one timestamp (RFC 6962 3.3).
    Timestamps,
    /// Features, of numbers from 0 to 2^32-1 (RFC 7633 4.1).
    Features,
    /// NULL (RFC 6960 4.2.2.2.1, RFC 6962 3.1, RFC 9608 2).
    Null,
}

/// Returns whether the octets are a value of the type.
pub fn is_of_type(kind: ValueType, value: &[u8]) -> bool
    ensures { IsTrue result ↔ IsOfType kind value.now }
{
    match kind {
        ValueType::KeyIdentifiers => read_authority_key_identifier(value).is_ok(),
        ValueType::Octets => read_subject_key_identifier(value).is_ok(),
        ValueType::KeyUsage => read_key_usage(value).is_ok(),
        ValueType::Policies => read_certificate_policies(value).is_ok(),
        ValueType::Names => read_general_names(value).is_ok(),
        ValueType::Constraints => read_basic_constraints(value).is_ok(),
        ValueType::NameConstraints => read_name_constraints(value).is_ok(),
        ValueType::Purposes => read_extended_key_usage(value).is_ok(),
        ValueType::Points => read_crl_distribution_points(value).is_ok(),
        ValueType::Descriptions => read_information_access(value).is_ok(),
        ValueType::Number => read_number(value).is_ok(),
        ValueType::Reason => read_reason(value).is_ok(),
        ValueType::Date => read_invalidity_date(value).is_ok(),
        ValueType::Mappings => read_policy_mappings(value).is_ok(),
        ValueType::DirectoryAttributes => read_subject_directory_attributes(value).is_ok(),
        ValueType::PolicyConstraints => read_policy_constraints(value).is_ok(),
        ValueType::IssuingPoint => read_issuing_distribution_point(value).is_ok(),
        ValueType::Statements => read_qc_statements(value).is_ok(),
        ValueType::Timestamps => read_signed_certificate_timestamps(value).is_ok(),
        ValueType::Features => read_tls_features(value).is_ok(),
        ValueType::Null => read_null(value).is_ok(),
    }
}
