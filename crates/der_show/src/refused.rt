//! The errors of the readers of certificates, CRLs and certification requests.
ghost use Rattle.std.specs.Prelude.{◌≡◌, ◌↔◌, IsTrue};
ghost use Rattle.der_cursor.specs.Cursors.{is_at_end};
ghost use Rattle.der_show.specs.Refused.{IsOfCertificate, IsVersion, further, offset_of, refusal_of, type_name};

use certificate_text::is_at_end;
use der_base::error::BerError;
use der_cursor::ReadError;
use std::fmt;
use x509::crl::CertificateListError;
use x509::{CertificateError, Field};
use x509_keys::request::CertificationRequestError;

/// The error of one of these readers.
#[derive(Drop)]
pub enum Refused {
    /// The error as a certificate.
    Certificate(CertificateError),
    /// The error as a CRL.
    CertificateList(CertificateListError),
    /// The error as a certification request.
    CertificationRequest(CertificationRequestError),
}

impl Refused {
    /// The offset and the reason.
    pub fn refusal(&self) -> &ReadError<BerError>
        ensures { result.now ≡ refusal_of self.now }
    {
        match self {
            Refused::Certificate(e) => &e.refusal,
            Refused::CertificateList(e) => &e.refusal,
            Refused::CertificationRequest(e) => &e.refusal,
        }
    }

    /// The offset of the element with the error.
    pub fn offset(&self) -> usize
        ensures { result ≡ offset_of self.now }
    {
        match self {
            Refused::Certificate(e) => e.refusal.offset,
            Refused::CertificateList(e) => e.refusal.offset,
            Refused::CertificationRequest(e) => e.refusal.offset,
        }
    }

    /// The name of the type that the reader reads, in the document that defines it.
    pub(crate) fn type_name(&self) -> &'static str
        ensures { result.now ≡ type_name self.now }
    {
        match self {
            Refused::Certificate(_) => "Certificate",
            Refused::CertificateList(_) => "CertificateList",
            Refused::CertificationRequest(_) => "CertificationRequest",
        }
    }

    /// What the reader reads, such as "certificate".
    pub(crate) fn kind(&self) -> &'static str {
        match self {
            Refused::Certificate(_) => "certificate",
            Refused::CertificateList(_) => "list of revoked certificates",
            Refused::CertificationRequest(_) => "certification request",
        }
    }

    /// Whether the error is at the end of a list, where there is no element.
    pub(crate) fn is_at_end(&self) -> bool
        ensures { result ≡ is_at_end (refusal_of self.now).list_end (refusal_of self.now).offset }
    {
        is_at_end(self.refusal())
    }

    /// Whether this is the error as a certificate.
    pub(crate) fn is_of_certificate(&self) -> bool
        ensures { IsTrue result ↔ IsOfCertificate self.now }
    {
        match self {
            Refused::Certificate(_) => true,
            Refused::CertificateList(_) => false,
            Refused::CertificationRequest(_) => false,
        }
    }

    /// Whether the error is in the version of a certificate.
    pub(crate) fn is_version(&self) -> bool
        ensures { IsTrue result ↔ IsVersion self.now }
    {
        match self {
            Refused::Certificate(e) => e.field == Field::Version,
            _ => false,
        }
    }

    /// The error with the greater offset, or this one if both have the same offset.
    pub(crate) fn or_further(self, other: Refused) -> Refused
        ensures { result ≡ further self other }
    {
        if other.offset() <= self.offset() {
            self
        } else {
            other
        }
    }

    /// Writes the field with the error.
    pub(crate) fn write_field<W: fmt::Write>(&self, f: &mut fmt::Formatter<W>) -> fmt::Result {
        match self {
            Refused::Certificate(e) => write!(f, "{}", e.field),
            Refused::CertificateList(e) => write!(f, "{}", e.field),
            Refused::CertificationRequest(e) => write!(f, "{}", e.field),
        }
    }
}
