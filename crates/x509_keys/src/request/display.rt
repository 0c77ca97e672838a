//! The text of an error.
ghost use Rattle.x509_keys.specs.Request.Texts.{text_with_field};

use crate::request::error::{CertificationRequestError, Field};
use der_base::error::BerError;
use der_cursor::ReadError;
use std::error::Error;
use std::fmt;

/// The field, the offset and the reason: "certificationRequestInfo.subject at 7: wrong value".
impl fmt::Display for CertificationRequestError {
    ghost output = { λ x. text_with_field x.field (⟦<ReadError<BerError> as fmt::Display>⟧.output x.refusal) };

    fn fmt<W: fmt::Write>(&self, f: &mut fmt::Formatter<W>) -> fmt::Result {
        write!(f, "{} {}", self.field, self.refusal)
    }
}

impl fmt::Debug for CertificationRequestError {
    ghost debug_output = { ⟦<CertificationRequestError as fmt::Display>⟧.output };

    fn fmt<W: fmt::Write>(&self, f: &mut fmt::Formatter<W>) -> fmt::Result {
        write!(f, "{self}")
    }
}

impl Error for CertificationRequestError {}

/// The path of the field, in the names of the ASN.1 of RFC 2986 4.
impl fmt::Display for Field {
    ghost use Rattle.std.specs.Prelude.{Some};
    ghost use Rattle.x509_keys.specs.Request.Texts.{field_text};

    ghost output = { λ x. Some (field_text x) };

    fn fmt<W: fmt::Write>(&self, f: &mut fmt::Formatter<W>) -> fmt::Result {
        f.write_str(match self {
            Field::CertificationRequest => "CertificationRequest",
            Field::CertificationRequestInfo => "certificationRequestInfo",
            Field::Version => "certificationRequestInfo.version",
            Field::Subject => "certificationRequestInfo.subject",
            Field::SubjectPublicKeyInfo => "certificationRequestInfo.subjectPKInfo",
            Field::Attributes => "certificationRequestInfo.attributes",
            Field::SignatureAlgorithm => "signatureAlgorithm",
            Field::Signature => "signature",
        })
    }
}
