//! Errors: the field, the offset and the reason.
ghost use Rattle.x509_keys.specs.Request.Requests.{request_refusal};
ghost use Rattle.x509.specs.Readers.{NamesBy};

use der_base::error::BerError;
use der_cursor::ReadError;

/// A field of a CSR (RFC 2986 4).
#[derive(Clone, Copy, Debug, PartialEq)]
pub enum Field {
    /// The CSR itself: its outermost SEQUENCE, or trailing data.
    CertificationRequest,
    /// The signed part.
    CertificationRequestInfo,
    Version,
    Subject,
    SubjectPublicKeyInfo,
    Attributes,
    SignatureAlgorithm,
    Signature,
}

/// Why octets aren't a CSR.
#[derive(Drop)]
pub struct CertificationRequestError {
    /// The first invalid field.
    pub field: Field,
    /// The offset in the input and the reason.
    pub refusal: ReadError<BerError>,
}

impl Field {
    /// Adds this field to an error.
    pub(crate) fn of<T>(
        self,
        found: Result<T, ReadError<BerError>>,
    ) -> Result<T, CertificationRequestError>
        ensures { NamesBy request_refusal self found result }
    {
        match found {
            Ok(value) => Ok(value),
            Err(refusal) => Err(CertificationRequestError {
                field: self,
                refusal,
            }),
        }
    }
}
