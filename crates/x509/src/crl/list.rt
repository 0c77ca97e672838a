//! CRLs (RFC 5280 5.1).
ghost use Rattle.std.specs.Option.{option_map};
ghost use Rattle.std.specs.Prelude.{◌↔◌, IsTrue, OnOk};
ghost use Rattle.der_cursor.specs.Cursors.{octets_left};
ghost use Rattle.x509.specs.Crl.Lists.{IsTimeNext, certificate_list, certificate_list_of, field_fault, next_update};
ghost use Rattle.x509.specs.Crl.Lists.{optional_revoked, second_version, tbs_cert_list, tbs_of, version};
ghost use Rattle.x509.specs.Crl.Lists.{whole_list};
ghost use Rattle.x509.specs.Readers.{IsShorter, ReadsBy, ReadsExactly, fault_of};

use crate::crl::entry::{RevokedCertificates, read_revoked_certificates};
use crate::crl::error::{CertificateListError, Field};
use crate::parts::{read_algorithm, read_extensions, read_name, read_time};
use crate::{AlgorithmIdentifier, Extensions, Name, Time, Version};
use der_base::error::BerError;
use der_base::header::{Class, Tag};
use der_cursor::{Cursor, ReadError};
use der_values::BitString;

/// A CRL. Octets are slices of the input.
#[derive(Drop)]
pub struct CertificateList<'a> {
    /// The signed octets: the encoding of `tbs_cert_list`.
    pub tbs: &'a [u8],
    /// The signed fields.
    pub tbs_cert_list: TbsCertList<'a>,
    /// The algorithm of the signature.
    pub signature_algorithm: AlgorithmIdentifier<'a>,
    /// The signature, which isn't verified.
    pub signature_value: BitString<'a>,
}

/// The signed part of a CRL (RFC 5280 5.1.2).
#[derive(Drop)]
pub struct TbsCertList<'a> {
    /// Version 2 if it is encoded, else version 1.
    pub version: Version,
    pub signature: AlgorithmIdentifier<'a>,
    pub issuer: Name<'a>,
    pub this_update: Time,
    pub next_update: Option<Time>,
    pub revoked_certificates: Option<RevokedCertificates<'a>>,
    pub crl_extensions: Extensions<'a>,
}

/// Reads a CRL; trailing data is an error. The signature isn't verified.
pub fn read_certificate_list(octets: &[u8]) -> Result<CertificateList<'_>, CertificateListError>
    ensures { ReadsExactly field_fault certificate_list_of whole_list octets.now result }
{
    let mut input = Cursor::new(octets);
    let list = read_parts(&mut input)?;
    Field::CertificateList.of(input.end())?;
    Ok(list)
}

/// Reads a CertificateList.
fn read_parts<'a>(input: &mut Cursor<'a>) -> Result<CertificateList<'a>, CertificateListError>
    ensures { ReadsBy field_fault certificate_list_of certificate_list input.old result input.new }
{
    let mut parts = Field::CertificateList.of(input.open_sequence())?;
    let before = parts.remaining();
    let tbs_cert_list = read_tbs(&mut parts)?;
    let tbs = &before[..before.len() - parts.remaining().len()];
    let signature_algorithm = Field::SignatureAlgorithm.of(read_algorithm(&mut parts))?;
    let signature_value = Field::SignatureValue.of(parts.bits())?;
    Field::CertificateList.of(parts.end())?;
    Ok(CertificateList {
        tbs,
        tbs_cert_list,
        signature_algorithm,
        signature_value,
    })
}

/// Reads a TBSCertList.
fn read_tbs<'a>(parts: &mut Cursor<'a>) -> Result<TbsCertList<'a>, CertificateListError>
    ensures reads { ReadsBy field_fault tbs_of tbs_cert_list parts.old result parts.new }
    ensures shorter { OnOk result (IsShorter parts.old parts.new) }
{
    let mut fields = Field::TbsCertList.of(parts.open_sequence())?;
    let version = Field::Version.of(read_version(&mut fields))?;
    let signature = Field::Signature.of(read_algorithm(&mut fields))?;
    let issuer = Field::Issuer.of(read_name(&mut fields))?;
    let this_update = Field::ThisUpdate.of(read_time(&mut fields))?;
    let next_update = Field::NextUpdate.of(read_next_update(&mut fields))?;
    let revoked_certificates = Field::RevokedCertificates.of(read_revoked(&mut fields))?;
    let crl_extensions = Field::CrlExtensions.of(read_extensions(&mut fields, 0))?;
    Field::TbsCertList.of(fields.end())?;
    Ok(TbsCertList {
        version,
        signature,
        issuer,
        this_update,
        next_update,
        revoked_certificates,
        crl_extensions,
    })
}

/// Reads a Version, which is absent or 2.
fn read_version(fields: &mut Cursor<'_>) -> Result<Version, ReadError<BerError>>
    ensures { ReadsBy fault_of (λ v. v) version fields.old result fields.new }
{
    if !fields.is_next(Class::Universal, Tag::Integer) {
        return Ok(Version::V1);
    }
    read_second_version(fields)
}

/// Reads the number of version 2.
fn read_second_version(fields: &mut Cursor<'_>) -> Result<Version, ReadError<BerError>>
    ensures { ReadsBy fault_of (λ v. v) second_version fields.old result fields.new }
{
    let before = *fields;
    let number = fields.u32()?;
    if number != 1 {
        return Err(before.refuse(BerError::BerValueError));
    }
    Ok(Version::V2)
}

/// Reads a time, if one is next.
fn read_next_update(fields: &mut Cursor<'_>) -> Result<Option<Time>, ReadError<BerError>>
    ensures { ReadsBy fault_of (λ t. t) next_update fields.old result fields.new }
{
    if !is_time_next(fields) {
        return Ok(None);
    }
    Ok(Some(read_time(fields)?))
}

/// Whether a time of either type is next.
fn is_time_next(fields: &Cursor<'_>) -> bool
    ensures { IsTrue result ↔ IsTimeNext (octets_left fields.now) }
{
    fields.is_next(Class::Universal, Tag::UtcTime)
        || fields.is_next(Class::Universal, Tag::GeneralizedTime)
}

/// Reads the entries, if a SEQUENCE is next.
fn read_revoked<'a>(
    fields: &mut Cursor<'a>,
) -> Result<Option<RevokedCertificates<'a>>, ReadError<BerError>>
    ensures { ReadsBy fault_of (option_map (λ r. r.octets.now)) optional_revoked fields.old result fields.new }
{
    if !fields.is_next(Class::Universal, Tag::Sequence) {
        return Ok(None);
    }
    Ok(Some(read_revoked_certificates(fields)?))
}
