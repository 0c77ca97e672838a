//! The entries of a CRL: revoked certificates (RFC 5280 5.1.2.6).
ghost use Rattle.std.specs.Prelude.{OnOk};
ghost use Rattle.der_cursor.specs.Formats.{Never, ReadsWhole};
ghost use Rattle.x509.specs.Crl.Reasons.{IsFirstReason};
ghost use Rattle.x509.specs.Crl.Lists.{entry_extensions, revoked_certificate, revoked_certificates, revoked_of};
ghost use Rattle.x509.specs.Formats.{list_of};
ghost use Rattle.x509.specs.Readers.{IsShorter, ReadsBy, ReadsToEnd, fault_of};

use crate::crl::reason::{Reason, reason_of};
use crate::parts::{read_extension_list, read_time};
use crate::{Extensions, Time};
use der_base::error::BerError;
use der_base::header::{Class, Tag};
use der_cursor::{Cursor, ReadError};

/// The entries of a CRL, as their checked octets.
#[derive(Clone, Copy)]
pub struct RevokedCertificates<'a> {
    /// The encodings of the entries, one after another.
    pub octets: &'a [u8],
}

/// A revoked certificate.
#[derive(Clone, Copy)]
pub struct RevokedCertificate<'a> {
    /// Its serial number: the content octets of the INTEGER, in two's complement.
    pub user_certificate: &'a [u8],
    pub revocation_date: Time,
    pub crl_entry_extensions: Extensions<'a>,
}

impl RevokedCertificate<'_> {
    /// The reason, by the first reasonCode extension (RFC 5280 5.3.1); None if there is none.
    pub fn reason(&self) -> Result<Option<Reason>, ReadError<BerError>>
        ensures { ReadsWhole (IsFirstReason self.now.crl_entry_extensions.octets.now) (λ v. v) Never result }
    {
        for extension in self.crl_entry_extensions.iter() {
            if let Some(reason) = reason_of(&extension)? {
                return Ok(Some(reason));
            }
        }
        Ok(None)
    }
}

/// Reads a SEQUENCE OF entries.
pub(crate) fn read_revoked_certificates<'a>(
    fields: &mut Cursor<'a>,
) -> Result<RevokedCertificates<'a>, ReadError<BerError>>
    ensures { ReadsBy fault_of (λ r. r.octets.now) revoked_certificates fields.old result fields.new }
{
    let list = fields.open_sequence()?;
    check_entries(list)?;
    Ok(RevokedCertificates {
        octets: list.remaining(),
    })
}

/// Reads entries to the end of a list.
fn check_entries(mut list: Cursor<'_>) -> Result<(), ReadError<BerError>>
    ensures { ReadsToEnd fault_of (λ u. u) (list_of revoked_certificate) list.entry result }
{
    while !list.is_empty() {
        read_revoked_certificate(&mut list)?;
    }
    Ok(())
}

/// Reads an entry.
pub(crate) fn read_revoked_certificate<'a>(
    list: &mut Cursor<'a>,
) -> Result<RevokedCertificate<'a>, ReadError<BerError>>
    ensures reads { ReadsBy fault_of revoked_of revoked_certificate list.old result list.new }
    ensures shorter { OnOk result (IsShorter list.old list.new) }
{
    let mut parts = list.open_sequence()?;
    let user_certificate = parts.integer()?;
    let revocation_date = read_time(&mut parts)?;
    let crl_entry_extensions = read_entry_extensions(&mut parts)?;
    parts.end()?;
    Ok(RevokedCertificate {
        user_certificate,
        revocation_date,
        crl_entry_extensions,
    })
}

/// Reads the extensions of an entry, if a SEQUENCE is next.
fn read_entry_extensions<'a>(parts: &mut Cursor<'a>) -> Result<Extensions<'a>, ReadError<BerError>>
    ensures { ReadsBy fault_of (λ e. e.octets.now) entry_extensions parts.old result parts.new }
{
    if !parts.is_next(Class::Universal, Tag::Sequence) {
        return Ok(Extensions { octets: &[] });
    }
    read_extension_list(parts)
}
