//! The texts of broken rules of certificates, with the section of RFC 5280.

use crate::certificate::Rule;
use crate::whole::WholeRule;
use std::fmt;
use x509::Rule as FieldRule;
use x509_rule_facts::display::{algorithm_text, attribute_name};
use x509_value_rules::display::value_text;

/// The text of a broken rule, with its section: "nameConstraints isn't critical (RFC 5280 4.2.1.10)".
impl fmt::Display for Rule {
    fn fmt<W: fmt::Write>(&self, f: &mut fmt::Formatter<W>) -> fmt::Result {
        match self {
            Rule::Fields(rule) => f.write_str(field_text(*rule)),
            Rule::Algorithm(rule) => f.write_str(algorithm_text(*rule)),
            Rule::Attribute(kind) => {
                write!(
                    f,
                    "{} isn't of its type (RFC 5280 A.1)",
                    attribute_name(*kind)
                )
            }
            Rule::Critical(known) => { write!(f, "{known} isn't critical ({})", known.section()) }
            Rule::NotCritical(known) => { write!(f, "{known} is critical ({})", known.section()) }
            Rule::Value(known, rule) => write!(f, "{known}: {}", value_text(*rule)),
            Rule::Whole(rule) => f.write_str(whole_text(*rule)),
        }
    }
}

fn field_text(rule: FieldRule) -> &'static str {
    match rule {
        FieldRule::SameAlgorithms => "the signature algorithms differ (RFC 5280 4.1.1.2)",
        FieldRule::PositiveSerialNumber => "the serial number isn't positive (RFC 5280 4.1.2.2)",
        FieldRule::ShortSerialNumber =>
            "the serial number has more than 20 octets (RFC 5280 4.1.2.2)",
        FieldRule::NamedIssuer => "the issuer has no name (RFC 5280 4.1.2.4)",
        FieldRule::OrderedAttributes =>
            "attributes of a relative name are out of order (X.690 11.6)",
        FieldRule::UtcTimeTo2049 => "a time before 2050 is a GeneralizedTime (RFC 5280 4.1.2.5)",
        FieldRule::WholeSeconds => "a time has a fraction of a second (RFC 5280 4.1.2.5.2)",
        FieldRule::UniqueIdVersion => "a unique identifier in version 1 (RFC 5280 4.1.2.8)",
        FieldRule::ExtensionsVersion => "extensions before version 3 (RFC 5280 4.1.2.9)",
        FieldRule::DistinctExtensions =>
            "an extension comes twice, or there are more than 512 (RFC 5280 4.2)",
        FieldRule::NamedSubject =>
            "the subject has no name, and no critical subjectAltName has one (RFC 5280 4.1.2.6)",
        FieldRule::DerValues => "a value of any type isn't in DER (X.690 10)",
    }
}

fn whole_text(rule: WholeRule) -> &'static str {
    match rule {
        WholeRule::NoUniqueIdentifier => "there is a unique identifier (RFC 5280 4.1.2.8)",
        WholeRule::NamedAuthority =>
            "the subject is an authority, and has no name (RFC 5280 4.1.2.6)",
        WholeRule::NamedCrlIssuer =>
            "the subject signs lists of revoked certificates, and has no name (RFC 5280 4.1.2.6)",
        WholeRule::MailboxInAltName =>
            "the subject has an emailAddress, and no rfc822Name (RFC 5280 4.1.2.6)",
        WholeRule::KeyIdentifierOfIssuer =>
            "no authorityKeyIdentifier has a keyIdentifier (RFC 5280 4.2.1.1)",
        WholeRule::KeyIdentifierOfAuthority =>
            "an authority without a subjectKeyIdentifier (RFC 5280 4.2.1.2)",
        WholeRule::KeyIdentifierOfEndEntity =>
            "there is no subjectKeyIdentifier (RFC 5280 4.2.1.2)",
        WholeRule::KeyUsageOfAuthority => "an authority without a keyUsage (RFC 5280 4.2.1.3)",
        WholeRule::CertSignOfAuthority =>
            "a keyUsage has keyCertSign, and the subject is no authority (RFC 5280 4.2.1.3)",
        WholeRule::AltNameNotCritical =>
            "the subject has a name, and subjectAltName is critical (RFC 5280 4.2.1.6)",
        WholeRule::CriticalConstraints =>
            "the basicConstraints of an authority isn't critical (RFC 5280 4.2.1.9)",
        WholeRule::PathLengthOfAuthority =>
            "a pathLenConstraint, and the subject is no authority (RFC 5280 4.2.1.9)",
        WholeRule::PathLengthOfCertSign =>
            "a pathLenConstraint, and no keyUsage has keyCertSign (RFC 5280 4.2.1.9)",
        WholeRule::NameConstraintsOfAuthority =>
            "nameConstraints, and the subject is no authority (RFC 5280 4.2.1.10)",
        WholeRule::AnyPurposeNotCritical =>
            "extKeyUsage has anyExtendedKeyUsage, and is critical (RFC 5280 4.2.1.12)",
        WholeRule::OtherCrlIssuer => "a cRLIssuer is the issuer (RFC 5280 4.2.1.13)",
        WholeRule::NoRevAvailOfEndEntity => "an authority with a noRevAvail (RFC 9608 2)",
        WholeRule::NoRevAvailWithoutPoints =>
            "noRevAvail beside a place of lists of revoked certificates (RFC 9608 3)",
        WholeRule::NoRevAvailWithoutOcsp => "noRevAvail beside a responder of OCSP (RFC 9608 3)",
    }
}
