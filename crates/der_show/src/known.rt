//! Certificates, CRLs and certification requests.
ghost use Rattle.der_show.specs.Known.{IsKnown, IsKnownList, IsKnownRequest};

use x509::crl::{CertificateList, read_certificate_list};
use x509::{Certificate, read_certificate};
use x509_keys::request::{CertificationRequest, read_request};

/// A certificate, CRL or certification request. Its texts borrow from the octets.
#[derive(Drop)]
pub enum Known<'a> {
    /// A certificate (RFC 5280 4.1).
    Certificate(Certificate<'a>),
    /// A CRL (RFC 5280 5.1).
    CertificateList(CertificateList<'a>),
    /// A certification request (RFC 2986 4).
    CertificationRequest(CertificationRequest<'a>),
}

/// Reads the octets as a certificate, else as a CRL, else as a certification request. None if they are none of these.
/// Trailing data counts as an error.
pub fn what_is(octets: &[u8]) -> Option<Known<'_>>
    ensures { IsKnown octets.now result }
{
    match read_certificate(octets) {
        Ok(certificate) => Some(Known::Certificate(certificate)),
        Err(_) => known_list(octets),
    }
}

/// The CRL or the certification request that the octets are.
fn known_list(octets: &[u8]) -> Option<Known<'_>>
    ensures { IsKnownList octets.now result }
{
    match read_certificate_list(octets) {
        Ok(list) => Some(Known::CertificateList(list)),
        Err(_) => known_request(octets),
    }
}

/// The certification request that the octets are.
fn known_request(octets: &[u8]) -> Option<Known<'_>>
    ensures { IsKnownRequest octets.now result }
{
    match read_request(octets) {
        Ok(request) => Some(Known::CertificationRequest(request)),
        Err(_) => None,
    }
}
