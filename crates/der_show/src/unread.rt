//! Why octets aren't a certificate, CRL or certification request.
ghost use Rattle.der_show.specs.Unread.{IsPlaceOf, IsWhyNoCertificate, IsWhyNoList, IsWhyNoRequest, IsWhyRefused};
ghost use Rattle.der_show.specs.Unread.{IsWhyUnread};

use crate::place::{Place, place_of};
use crate::place_text::{tells_more, write_path};
use crate::refused::Refused;
use crate::why::why_at;
use certificate_text::{ErrorText, Why};
use der_known::KnownTypes;
use std::error::Error;
use std::fmt;
use x509::crl::read_certificate_list;
use x509::read_certificate;
use x509_keys::request::read_request;

/// Why octets aren't a certificate, CRL or certification request, and where the error is.
#[derive(Drop)]
pub struct Unread<'a> {
    /// The error of the reader that got furthest.
    pub refused: Refused,
    /// The position of the element with the error, in the type that the reader reads. None if no element begins at the
    /// offset of the error, or if a list ends there.
    pub place: Option<Place<'a>>,
    /// A more exact reason than that of the error.
    pub why: Why,
}

/// Why octets aren't a certificate, CRL or certification request. The error is that of the reader that got furthest: it
/// has the greatest offset. If two errors have the same offset, the first in this order counts. None if the octets are
/// one of these.
pub fn why_unread(octets: &[u8]) -> Option<Unread<'_>>
    ensures { IsWhyUnread octets.now result }
{
    let refused = why_refused(octets)?;
    let place = place_in(octets, &refused);
    let why = why_at(&refused, place.as_ref());
    Some(Unread {
        refused,
        place,
        why,
    })
}

/// The error with the greatest offset.
fn why_refused(octets: &[u8]) -> Option<Refused>
    ensures { IsWhyRefused octets.now result }
{
    let certificate = why_no_certificate(octets)?;
    let list = why_no_list(octets)?;
    let request = why_no_request(octets)?;
    Some(certificate.or_further(list).or_further(request))
}

/// Why octets aren't a certificate.
fn why_no_certificate(octets: &[u8]) -> Option<Refused>
    ensures { IsWhyNoCertificate octets.now result }
{
    match read_certificate(octets) {
        Ok(_) => None,
        Err(e) => Some(Refused::Certificate(e)),
    }
}

/// Why octets aren't a CRL.
fn why_no_list(octets: &[u8]) -> Option<Refused>
    ensures { IsWhyNoList octets.now result }
{
    match read_certificate_list(octets) {
        Ok(_) => None,
        Err(e) => Some(Refused::CertificateList(e)),
    }
}

/// Why octets aren't a certification request.
fn why_no_request(octets: &[u8]) -> Option<Refused>
    ensures { IsWhyNoRequest octets.now result }
{
    match read_request(octets) {
        Ok(_) => None,
        Err(e) => Some(Refused::CertificationRequest(e)),
    }
}

/// The position of the element with the error, in the type that the reader reads.
fn place_in<'a>(octets: &'a [u8], refused: &Refused) -> Option<Place<'a>>
    ensures { IsPlaceOf octets.now refused.now result }
{
    if refused.is_at_end() {
        return None;
    }
    let types = KnownTypes::new();
    match types.type_named(refused.type_name()) {
        Some(schema) => place_of(octets, refused.offset(), schema),
        None => None,
    }
}

/// Writes what the octets aren't, the path to the element with the error, and the reason: "not a certificate:
/// tbsCertificate.extensions[2].critical of basicConstraints (2.5.29.19) at 276: a default value is written (X.690
/// 11.5)".
impl fmt::Display for Unread<'_> {
    fn fmt<W: fmt::Write>(&self, f: &mut fmt::Formatter<W>) -> fmt::Result {
        let kind = self.refused.kind();
        write!(f, "not a {kind}: ")?;
        match &self.place {
            Some(place) if tells_more(place) => write_path(f, place)?,
            _ => self.refused.write_field(f)?,
        }
        let refusal = self.refused.refusal();
        let why = self.why;
        write!(f, " {}", ErrorText { refusal, why })
    }
}
