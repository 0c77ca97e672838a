//! The text of an error.
use crate::crl::error::{CertificateListError, Field};
use std::error::Error;
use std::fmt;

/// The field, the offset and the reason: "tbsCertList.version at 4: wrong value".
impl fmt::Display for CertificateListError {
    fn fmt<W: fmt::Write>(&self, f: &mut fmt::Formatter<W>) -> fmt::Result {
        write!(f, "{} {}", self.field, self.refusal)
    }
}

impl fmt::Debug for CertificateListError {
    fn fmt<W: fmt::Write>(&self, f: &mut fmt::Formatter<W>) -> fmt::Result {
        write!(f, "{self}")
    }
}

impl Error for CertificateListError {}

/// The path of the field, in the names of the ASN.1 of RFC 5280 5.1.
impl fmt::Display for Field {
    fn fmt<W: fmt::Write>(&self, f: &mut fmt::Formatter<W>) -> fmt::Result {
        f.write_str(match self {
            Field::CertificateList => "CertificateList",
            Field::TbsCertList => "tbsCertList",
            Field::Version => "tbsCertList.version",
            Field::Signature => "tbsCertList.signature",
            Field::Issuer => "tbsCertList.issuer",
            Field::ThisUpdate => "tbsCertList.thisUpdate",
            Field::NextUpdate => "tbsCertList.nextUpdate",
            Field::RevokedCertificates => "tbsCertList.revokedCertificates",
            Field::CrlExtensions => "tbsCertList.crlExtensions",
            Field::SignatureAlgorithm => "signatureAlgorithm",
            Field::SignatureValue => "signatureValue",
        })
    }
}
