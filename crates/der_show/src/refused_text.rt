//! A summary of what was read of a certificate before an error.
ghost use Rattle.std.specs.Prelude.{◌↔◌, IfOk, IsTrue};
ghost use Rattle.x509.specs.Partial.Partials.{partial_of};
ghost use Rattle.der_show.specs.Messages.{text_in};
ghost use Rattle.der_show.specs.Refused.{IsOfCertificate};
ghost use Rattle.der_show.specs.RefusedTexts.{IsLater, IsPartialFound, IsRefusedText, ShowsCertificate};

use crate::refused::Refused;
use crate::text::text_of_partial;
use std::alloc::{AllocError, Global};
use x509::Version;
use x509::partial::{PartialCertificate, read_partial_certificate};

/// A summary of the fields that were read of a certificate before the error that rejects it. None if the error is that
/// of another type, or if the fields may be those of another type. `now` is as in `words_of`.
pub fn text_of_refused(
    alloc: Global,
    octets: &[u8],
    refused: &Refused,
    now: Option<u64>,
) -> Result<Option<Vec<u8>>, AllocError>
    ensures { IfOk result (λ found. IsRefusedText now octets.now refused.now (text_in found)) }
{
    if !refused.is_of_certificate() {
        return Ok(None);
    }
    let partial = read_partial_certificate(octets);
    text_of_certificate(alloc, &partial, now)
}

/// The summary of the fields that were read.
fn text_of_certificate(
    alloc: Global,
    partial: &PartialCertificate<'_>,
    now: Option<u64>,
) -> Result<Option<Vec<u8>>, AllocError>
    ensures { IfOk result (λ found. IsPartialFound now (partial_of partial.now) (text_in found)) }
{
    if !shows_certificate(partial) {
        return Ok(None);
    }
    match text_of_partial(alloc, partial, now) {
        Ok(text) => Ok(Some(text)),
        Err(e) => Err(e),
    }
}

/// Whether the fields are those of a certificate. A CRL has an issuer at the same position, but no version under a tag
/// and no validity.
fn shows_certificate(partial: &PartialCertificate<'_>) -> bool
    ensures { IsTrue result ↔ ShowsCertificate (partial_of partial.now) }
{
    partial.issuer.is_some() && (is_later(partial.version) || partial.validity.is_some())
}

/// Whether this is a version that is encoded, 2 or 3.
fn is_later(version: Option<Version>) -> bool
    ensures { IsTrue result ↔ IsLater version }
{
    match version {
        Some(Version::V1) => false,
        Some(_) => true,
        None => false,
    }
}
