//! Readers of the values of extensions, by DER: those of certificates, CRLs and CRL entries (RFC 5280 4.2, 5.2, 5.3),
//! and those of the web PKI.
//!
//! A reader is Incomplete iff the octets end within their first element.
#![tactic(auto)]

mod basic_constraints;
mod certificate_policies;
mod crl_number;
mod directory_attributes;
mod directory_name;
mod distribution_points;
mod extended_key_usage;
mod general_name;
mod information_access;
mod invalidity_date;
mod issuing_distribution_point;
mod key_identifiers;
mod key_usage;
mod known;
pub mod laws;
mod list;
mod name_constraints;
mod null;
mod organization_identifier;
mod policy_constraints;
mod policy_mappings;
mod qc_statements;
mod timestamps;
mod tls_feature;
mod unknown;
mod user_notice;
mod value;

pub use basic_constraints::{BasicConstraints, read_basic_constraints};
pub use certificate_policies::{
    CertificatePolicies, PolicyInformation, PolicyQualifierInfo, read_certificate_policies,
};
pub use crl_number::read_crl_number;
pub use directory_attributes::{
    DirectoryAttribute, SubjectDirectoryAttributes, read_subject_directory_attributes,
};
pub use distribution_points::{
    CrlDistributionPoints, DistributionPoint, DistributionPointName, read_crl_distribution_points,
};
pub use extended_key_usage::{ExtendedKeyUsage, read_extended_key_usage};
pub use general_name::{GeneralName, GeneralNames, OtherName, read_general_names};
pub use information_access::{AccessDescription, InformationAccess, read_information_access};
pub use invalidity_date::read_invalidity_date;
pub use issuing_distribution_point::{IssuingDistributionPoint, read_issuing_distribution_point};
pub use key_identifiers::{
    AuthorityKeyIdentifier, read_authority_key_identifier, read_subject_key_identifier,
};
pub use key_usage::{KeyUsage, read_key_usage};
pub use known::{KNOWN_EXTENSIONS, KnownExtension, known_extension};
pub use list::{FromRefusal, Item, Items, SequenceOf};
pub use name_constraints::{GeneralSubtree, NameConstraints, read_name_constraints};
pub use null::read_null;
pub use organization_identifier::{OrganizationIdentifier, read_organization_identifier};
pub use policy_constraints::{PolicyConstraints, read_inhibit_any_policy, read_policy_constraints};
pub use policy_mappings::{PolicyMapping, PolicyMappings, read_policy_mappings};
pub use qc_statements::{QcStatement, QcStatements, read_qc_statements};
pub use timestamps::{
    SignedCertificateTimestamps, TimestampIter, read_signed_certificate_timestamps,
};
pub use tls_feature::{TlsFeature, TlsFeatures, read_tls_features};
pub use unknown::has_unknown_critical;
pub use user_notice::{NoticeReference, USER_NOTICE, UserNotice, read_user_notice};
pub use value::{ExtensionValue, read_extension_value};
