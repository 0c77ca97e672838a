//! The text of an error.
use crate::error::{CertificateError, Field};
use std::error::Error;
use std::fmt;

/// The field, the offset and the reason: "tbsCertificate.version at 9: wrong value".
impl fmt::Display for CertificateError {
    fn fmt<W: fmt::Write>(&self, f: &mut fmt::Formatter<W>) -> fmt::Result {
        write!(f, "{} {}", self.field, self.refusal)
    }
}

impl Error for CertificateError {}

/// The path of the field, in the names of the ASN.1 of RFC 5280 4.1.
impl fmt::Display for Field {
    fn fmt<W: fmt::Write>(&self, f: &mut fmt::Formatter<W>) -> fmt::Result {
        f.write_str(match self {
            Field::Certificate => "Certificate",
            Field::TbsCertificate => "tbsCertificate",
            Field::Version => "tbsCertificate.version",
            Field::SerialNumber => "tbsCertificate.serialNumber",
            Field::Signature => "tbsCertificate.signature",
            Field::Issuer => "tbsCertificate.issuer",
            Field::Validity => "tbsCertificate.validity",
            Field::Subject => "tbsCertificate.subject",
            Field::SubjectPublicKeyInfo => "tbsCertificate.subjectPublicKeyInfo",
            Field::IssuerUniqueId => "tbsCertificate.issuerUniqueID",
            Field::SubjectUniqueId => "tbsCertificate.subjectUniqueID",
            Field::Extensions => "tbsCertificate.extensions",
            Field::SignatureAlgorithm => "signatureAlgorithm",
            Field::SignatureValue => "signatureValue",
        })
    }
}
