//! Errors: the field, the offset and the reason.
ghost use Rattle.x509.specs.Readers.{NamesField};

use der_base::error::BerError;
use der_cursor::ReadError;
use std::fmt;

/// A field of a certificate (RFC 5280 4.1).
#[derive(Clone, Copy, Debug, PartialEq)]
pub enum Field {
    /// The certificate itself: its outermost SEQUENCE, or trailing data.
    Certificate,
    /// The signed part.
    TbsCertificate,
    Version,
    SerialNumber,
    Signature,
    Issuer,
    Validity,
    Subject,
    SubjectPublicKeyInfo,
    IssuerUniqueId,
    SubjectUniqueId,
    Extensions,
    SignatureAlgorithm,
    SignatureValue,
}

/// Why octets aren't a certificate.
#[derive(Drop)]
pub struct CertificateError {
    /// The first invalid field.
    pub field: Field,
    /// The offset in the input and the reason.
    pub refusal: ReadError<BerError>,
}

impl Field {
    /// Adds this field to an error.
    pub(crate) fn of<T>(self, found: Result<T, ReadError<BerError>>) -> Result<T, CertificateError>
        ensures { NamesField self found result }
    {
        match found {
            Ok(value) => Ok(value),
            Err(refusal) => Err(CertificateError {
                field: self,
                refusal,
            }),
        }
    }
}

impl fmt::Debug for CertificateError {
    fn fmt<W: fmt::Write>(&self, f: &mut fmt::Formatter<W>) -> fmt::Result {
        write!(f, "{:?} {}", self.field, self.refusal)
    }
}
