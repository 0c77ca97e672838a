//! CRLs (RFC 5280 5.1).
ghost use Rattle.std.specs.Prelude.{◌≡◌, []};
ghost use Rattle.std.specs.Option.{option_map, unwrap_or};
ghost use Rattle.c_formats.specs.FieldNumbers.{list_field_number};
ghost use Rattle.c_formats.specs.Items.{Taken, left};
ghost use Rattle.c_formats.specs.RevokedLists.{HasList, IsList, IsReason, IsRevoked, list_fault};
ghost use Rattle.c_values.specs.Faults.{Written, value_fault};
ghost use Rattle.x509.specs.Crl.Lists.{certificate_list_of, revoked_certificate, revoked_of};
ghost use Rattle.x509.specs.Lists.{YieldsNext};

use crate::sequences::after_sequence;
use c_values::element::bit;
use c_values::fault::{DmFault, FIRST_LIST_FIELD, field_fault, no_fault};
use c_values::octets::DmOctets;
use c_values::parts::{
    DmAlgorithm, DmBits, DmMoment, algorithm, bits, moment, optional_moment, version_number,
};
use der_base::error::BerError;
use der_cursor::ReadError;
use x509::crl::{
    CertificateList, CertificateListError, Field, Reason, RevokedCertificate, RevokedCertificates,
};

/// A CRL. Octets are slices of the input.
#[repr(C)]
#[derive(Clone, Copy)]
pub struct DmCertificateList<'a> {
    /// The signed octets: the encoding of a TBSCertList.
    pub tbs: &'a [u8],
    /// The signed algorithm identifier.
    pub signature: DmAlgorithm<'a>,
    /// The encodings of the issuer's relative names, one after another.
    pub issuer: &'a [u8],
    /// The encodings of the entries, one after another.
    pub revoked: &'a [u8],
    /// The encodings of the extensions, one after another.
    pub extensions: &'a [u8],
    /// The algorithm of the signature.
    pub signature_algorithm: DmAlgorithm<'a>,
    /// The signature, which isn't verified.
    pub signature_value: DmBits<'a>,
    /// When the CRL was issued.
    pub this_update: DmMoment,
    /// When the next CRL will be issued, if it is given.
    pub next_update: DmMoment,
    /// 1 or 2.
    pub version: u32,
    /// 1 if the list of entries is there, else 0.
    pub has_revoked: u32,
}

/// A revoked certificate (RFC 5280 5.1.2.6).
#[repr(C)]
#[derive(Clone, Copy)]
pub struct DmRevoked<'a> {
    /// The content octets of the serial number, in two's complement.
    pub serial_number: &'a [u8],
    /// The encodings of the entry's extensions, one after another.
    pub extensions: &'a [u8],
    /// The date of revocation.
    pub date: DmMoment,
    /// 0.
    pub reserved: u32,
}

/// Writes a CRL, or returns the fault.
pub fn write<'a>(
    found: Result<CertificateList<'a>, CertificateListError>,
    list: &mut DmCertificateList<'a>,
) -> DmFault
    ensures { Written IsList list_fault found.entry list.old list.new result }
{
    match found {
        Ok(found) => {
            *list = fields(&found);
            no_fault()
        }
        Err(e) => list_fault(e),
    }
}

/// The fault of a CRL.
pub fn list_fault(e: CertificateListError) -> DmFault
    ensures { result ≡ list_fault e }
{
    field_fault(field_number(e.field), e.refusal)
}

/// The C struct of a CRL.
fn fields<'a>(found: &CertificateList<'a>) -> DmCertificateList<'a>
    ensures { HasList (certificate_list_of found.now) result }
{
    let tbs = &found.tbs_cert_list;
    DmCertificateList {
        tbs: found.tbs,
        signature: algorithm(&tbs.signature),
        issuer: tbs.issuer.octets,
        revoked: revoked_octets(tbs.revoked_certificates),
        extensions: tbs.crl_extensions.octets,
        signature_algorithm: algorithm(&found.signature_algorithm),
        signature_value: bits(found.signature_value),
        this_update: moment(tbs.this_update),
        next_update: optional_moment(tbs.next_update),
        version: version_number(tbs.version),
        has_revoked: bit(tbs.revoked_certificates.is_some()).into(),
    }
}

/// The octets of the entries; empty if there are none.
fn revoked_octets<'a>(revoked: Option<RevokedCertificates<'a>>) -> &'a [u8]
    ensures { result.now ≡ unwrap_or (option_map (λ r. r.octets.now) revoked.entry) [] }
{
    match revoked {
        Some(revoked) => revoked.octets,
        None => &[],
    }
}

/// The number of a field.
fn field_number(field: Field) -> u32
    ensures { result ≡ list_field_number field }
{
    FIRST_LIST_FIELD + field as u32
}

/// Writes the number of a CRLReason, or returns the fault.
pub fn write_reason(found: Result<Reason, ReadError<BerError>>, reason: &mut u32) -> DmFault
    ensures { Written IsReason value_fault found reason.old reason.new result }
{
    match found {
        Ok(found) => {
            *reason = found.number().into();
            no_fault()
        }
        Err(e) => field_fault(0, e),
    }
}

/// Writes an entry. Returns 1, or 0 if there is none.
pub fn write_entry<'a>(found: Option<RevokedCertificate<'a>>, entry: &mut DmRevoked<'a>) -> u32
    ensures { Taken IsRevoked found.entry entry.old entry.new result }
{
    match found {
        Some(found) => {
            *entry = DmRevoked {
                serial_number: found.user_certificate,
                extensions: found.crl_entry_extensions.octets,
                date: moment(found.revocation_date),
                reserved: 0,
            };
            1
        }
        None => 0,
    }
}

/// Takes the next entry from the list.
pub fn next_entry<'a>(revoked: &mut DmOctets<'a>) -> Option<RevokedCertificate<'a>>
    ensures { YieldsNext left revoked_of revoked_certificate revoked.old result revoked.new }
{
    let mut entries = RevokedCertificates {
        octets: revoked.octets,
    }
    .iter();
    let Some(entry) = entries.next() else {
        return None;
    };
    revoked.octets = after_sequence(revoked.octets);
    Some(entry)
}
