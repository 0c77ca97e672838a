//! Certificates (RFC 5280 4.1).
ghost use Rattle.std.specs.Option.{option_map};
ghost use Rattle.std.specs.Prelude.{◌<◌, OnOk};
ghost use Rattle.der_base.specs.declared.rules.Rules.{Rules};
ghost use Rattle.der_values.specs.Kinds.{bit_strings};
ghost use Rattle.x509.specs.Certificates.{ReadsCertificate, bits_of, certificate, certificate_of};
ghost use Rattle.x509.specs.Certificates.{issuer_part, issuer_part_of, subject_part, subject_part_of};
ghost use Rattle.x509.specs.Certificates.{tbs_certificate, tbs_of, version};
ghost use Rattle.x509.specs.Formats.{done, explicit_or, optional_implicit};
ghost use Rattle.x509.specs.Readers.{IsShorter, ReadsBy, fault_of, field_fault};

use crate::algorithm::{AlgorithmIdentifier, SubjectPublicKeyInfo, read_algorithm, read_key_info};
use crate::error::{CertificateError, Field};
use crate::extension::{Extensions, read_extensions};
use crate::name::{Name, read_name};
use crate::time::{Validity, read_validity};
use der_base::error::BerError;
use der_cursor::{Cursor, ReadError};
use der_values::BitString;

/// A certificate. Its octets and texts are slices of the input.
#[derive(Drop)]
pub struct Certificate<'a> {
    /// The signed octets: the encoding of `tbs_certificate`.
    pub tbs: &'a [u8],
    /// The signed fields.
    pub tbs_certificate: TbsCertificate<'a>,
    /// The algorithm of the signature.
    pub signature_algorithm: AlgorithmIdentifier<'a>,
    /// The signature, which isn't verified.
    pub signature_value: BitString<'a>,
}

/// The signed part of a certificate.
#[derive(Drop)]
pub struct TbsCertificate<'a> {
    pub version: Version,
    /// The content octets of the INTEGER, in two's complement.
    pub serial_number: &'a [u8],
    pub signature: AlgorithmIdentifier<'a>,
    pub issuer: Name<'a>,
    pub validity: Validity,
    pub subject: Name<'a>,
    pub subject_public_key_info: SubjectPublicKeyInfo<'a>,
    pub issuer_unique_id: Option<BitString<'a>>,
    pub subject_unique_id: Option<BitString<'a>>,
    pub extensions: Extensions<'a>,
}

/// The fields of a TBSCertificate up to the validity.
#[derive(Drop)]
pub(crate) struct IssuerPart<'a> {
    pub version: Version,
    pub serial_number: &'a [u8],
    pub signature: AlgorithmIdentifier<'a>,
    pub issuer: Name<'a>,
    pub validity: Validity,
}

/// The fields of a TBSCertificate from the subject on.
#[derive(Drop)]
pub(crate) struct SubjectPart<'a> {
    pub subject: Name<'a>,
    pub subject_public_key_info: SubjectPublicKeyInfo<'a>,
    pub issuer_unique_id: Option<BitString<'a>>,
    pub subject_unique_id: Option<BitString<'a>>,
    pub extensions: Extensions<'a>,
}

/// The version of a certificate.
#[derive(Clone, Copy, Debug, PartialEq)]
pub enum Version {
    V1,
    V2,
    V3,
}

/// Reads a certificate; trailing data is an error. The signature, the order of sets and the content of a value of any
/// type aren't checked.
pub fn read_certificate(octets: &[u8]) -> Result<Certificate<'_>, CertificateError>
    ensures { ReadsCertificate octets.now result }
{
    let mut input = Cursor::new(octets);
    let certificate = read_parts(&mut input)?;
    Field::Certificate.of(input.end())?;
    Ok(certificate)
}

/// Reads a Certificate.
fn read_parts<'a>(input: &mut Cursor<'a>) -> Result<Certificate<'a>, CertificateError>
    ensures { ReadsBy field_fault certificate_of certificate input.old result input.new }
{
    let mut parts = Field::Certificate.of(input.open_sequence())?;
    let before = parts.remaining();
    let tbs_certificate = read_tbs(&mut parts)?;
    let tbs = &before[..before.len() - parts.remaining().len()];
    let signature_algorithm = Field::SignatureAlgorithm.of(read_algorithm(&mut parts))?;
    let signature_value = Field::SignatureValue.of(parts.bits())?;
    Field::Certificate.of(parts.end())?;
    Ok(Certificate {
        tbs,
        tbs_certificate,
        signature_algorithm,
        signature_value,
    })
}

/// Reads a TBSCertificate.
fn read_tbs<'a>(parts: &mut Cursor<'a>) -> Result<TbsCertificate<'a>, CertificateError>
    ensures reads { ReadsBy field_fault tbs_of tbs_certificate parts.old result parts.new }
    ensures shorter { OnOk result (IsShorter parts.old parts.new) }
{
    let mut fields = Field::TbsCertificate.of(parts.open_sequence())?;
    let issuer_part = read_issuer_part(&mut fields)?;
    let subject_part = read_subject_part(&mut fields)?;
    Field::TbsCertificate.of(fields.end())?;
    Ok(TbsCertificate {
        version: issuer_part.version,
        serial_number: issuer_part.serial_number,
        signature: issuer_part.signature,
        issuer: issuer_part.issuer,
        validity: issuer_part.validity,
        subject: subject_part.subject,
        subject_public_key_info: subject_part.subject_public_key_info,
        issuer_unique_id: subject_part.issuer_unique_id,
        subject_unique_id: subject_part.subject_unique_id,
        extensions: subject_part.extensions,
    })
}

/// Reads the fields of a TBSCertificate up to the validity.
fn read_issuer_part<'a>(fields: &mut Cursor<'a>) -> Result<IssuerPart<'a>, CertificateError>
    ensures { ReadsBy field_fault issuer_part_of (issuer_part (λ p. done p)) fields.old result fields.new }
{
    let version = Field::Version.of(read_version(fields))?;
    let serial_number = Field::SerialNumber.of(fields.integer())?;
    let signature = Field::Signature.of(read_algorithm(fields))?;
    let issuer = Field::Issuer.of(read_name(fields))?;
    let validity = Field::Validity.of(read_validity(fields))?;
    Ok(IssuerPart {
        version,
        serial_number,
        signature,
        issuer,
        validity,
    })
}

/// Reads the fields of a TBSCertificate from the subject on.
fn read_subject_part<'a>(fields: &mut Cursor<'a>) -> Result<SubjectPart<'a>, CertificateError>
    ensures { ReadsBy field_fault subject_part_of (subject_part (λ p. done p)) fields.old result fields.new }
{
    let subject = Field::Subject.of(read_name(fields))?;
    let subject_public_key_info = Field::SubjectPublicKeyInfo.of(read_key_info(fields))?;
    let issuer_unique_id = Field::IssuerUniqueId.of(read_unique_id(fields, 1))?;
    let subject_unique_id = Field::SubjectUniqueId.of(read_unique_id(fields, 2))?;
    let extensions = Field::Extensions.of(read_extensions(fields, 3))?;
    Ok(SubjectPart {
        subject,
        subject_public_key_info,
        issuer_unique_id,
        subject_unique_id,
        extensions,
    })
}

/// Reads a UniqueIdentifier under this implicit tag, if it is next.
pub fn read_unique_id<'a>(
    fields: &mut Cursor<'a>,
    number: u32,
) -> Result<Option<BitString<'a>>, ReadError<BerError>>
    ensures { ReadsBy fault_of (option_map bits_of) (optional_implicit number (bit_strings Rules.Der))
        fields.old result fields.new }
{
    fields.implicit(number).optional_bits()
}

/// Reads a Version, which is absent iff it is 1.
pub fn read_version(fields: &mut Cursor<'_>) -> Result<Version, ReadError<BerError>>
    ensures { ReadsBy fault_of (λ v. v) (explicit_or Version.V1 0 version) fields.old result fields.new }
{
    let Some(mut inside) = fields.open_tagged(0)? else {
        return Ok(Version::V1);
    };
    let version = read_number(&mut inside)?;
    inside.end()?;
    Ok(version)
}

/// Reads the number of an encoded Version: 2 or 3.
fn read_number(inside: &mut Cursor<'_>) -> Result<Version, ReadError<BerError>>
    ensures { ReadsBy fault_of (λ v. v) version inside.old result inside.new }
{
    let before = *inside;
    let number = inside.u32()?;
    match number {
        1 => Ok(Version::V2),
        2 => Ok(Version::V3),
        _ => Err(before.refuse(BerError::BerValueError)),
    }
}
