//! Errors: the field, the offset and the reason.
ghost use Rattle.x509.specs.Crl.Lists.{list_refusal};
ghost use Rattle.x509.specs.Readers.{NamesBy};

use der_base::error::BerError;
use der_cursor::ReadError;

/// A field of a CRL (RFC 5280 5.1).
#[derive(Clone, Copy, Debug, PartialEq)]
pub enum Field {
    /// The CRL itself: its outermost SEQUENCE, or trailing data.
    CertificateList,
    /// The signed part.
    TbsCertList,
    Version,
    Signature,
    Issuer,
    ThisUpdate,
    NextUpdate,
    RevokedCertificates,
    CrlExtensions,
    SignatureAlgorithm,
    SignatureValue,
}

/// Why octets aren't a CRL.
#[derive(Drop)]
pub struct CertificateListError {
    /// The first invalid field.
    pub field: Field,
    /// The offset in the input and the reason.
    pub refusal: ReadError<BerError>,
}

impl Field {
    /// Adds this field to an error.
    pub(crate) fn of<T>(
        self,
        found: Result<T, ReadError<BerError>>,
    ) -> Result<T, CertificateListError>
        ensures { NamesBy list_refusal self found result }
    {
        match found {
            Ok(value) => Ok(value),
            Err(refusal) => Err(CertificateListError {
                field: self,
                refusal,
            }),
        }
    }
}
