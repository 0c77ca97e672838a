//! The names of attributes, and the texts of rules of algorithms.

use crate::algorithms::AlgorithmRule;
use crate::attributes::AttributeKind;

/// The text of a broken rule.
pub fn algorithm_text(rule: AlgorithmRule) -> &'static str {
    match rule {
        AlgorithmRule::NullOfRsa =>
            "the parameters of RSA aren't NULL (RFC 3279 2.2.1, RFC 4055 5)",
        AlgorithmRule::NoneOfSignature => {
            "a signature of DSA or ECDSA has parameters (RFC 3279 2.2, RFC 5758 3)"
        }
        AlgorithmRule::NoneOfEdwards => {
            "X25519, X448, Ed25519 or Ed448 has parameters (RFC 8410 3)"
        }
        AlgorithmRule::NamedCurve => "the key's curve has no name (RFC 5480 2.1.1)",
        AlgorithmRule::SomeOfPss => "a signature of RSASSA-PSS has no parameters (RFC 4055 3.1)",
    }
}

/// The name of the attribute in the ASN.1.
pub fn attribute_name(kind: AttributeKind) -> &'static str {
    match kind {
        AttributeKind::CountryName => "countryName",
        AttributeKind::SerialNumber => "serialNumber",
        AttributeKind::DnQualifier => "dnQualifier",
        AttributeKind::DomainComponent => "domainComponent",
        AttributeKind::EmailAddress => "emailAddress",
        AttributeKind::CommonName => "commonName",
        AttributeKind::OrganizationName => "organizationName",
        AttributeKind::OrganizationalUnitName => "organizationalUnitName",
        AttributeKind::Title => "title",
        AttributeKind::LocalityName => "localityName",
        AttributeKind::StateOrProvinceName => "stateOrProvinceName",
        AttributeKind::Pseudonym => "pseudonym",
        AttributeKind::Name => "name",
        AttributeKind::Surname => "surname",
        AttributeKind::GivenName => "givenName",
        AttributeKind::Initials => "initials",
        AttributeKind::GenerationQualifier => "generationQualifier",
    }
}
