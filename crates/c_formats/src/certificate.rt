//! Certificates (RFC 5280 4.1).
ghost use Rattle.std.specs.Prelude.{◌≡◌};
ghost use Rattle.c_formats.specs.Certificates.{HasCertificate, IsCertificate, certificate_fault, strict_fault};
ghost use Rattle.c_formats.specs.FieldNumbers.{certificate_field_number};
ghost use Rattle.c_values.specs.Faults.{Written};
ghost use Rattle.x509.specs.Certificates.{certificate_of};

use c_values::fault::{DmFault, field_fault, no_fault, rule_fault};
use c_values::parts::{
    DmAlgorithm, DmBits, DmMoment, algorithm, bits, moment, optional_bits, version_number,
};
use x509::{Certificate, CertificateError, Field, StrictError};

/// A certificate. Octets are slices of the input.
#[repr(C)]
#[derive(Clone, Copy)]
pub struct DmCertificate<'a> {
    /// The signed octets: the encoding of a TBSCertificate.
    pub tbs: &'a [u8],
    /// The content octets of the INTEGER, in two's complement.
    pub serial_number: &'a [u8],
    /// The signed algorithm identifier.
    pub signature: DmAlgorithm<'a>,
    /// The encodings of the issuer's relative names, one after another.
    pub issuer: &'a [u8],
    /// The encodings of the subject's relative names, one after another.
    pub subject: &'a [u8],
    /// The algorithm of the subject's public key.
    pub key_algorithm: DmAlgorithm<'a>,
    /// The subject's public key.
    pub key: DmBits<'a>,
    /// The issuer's unique identifier, if it has one.
    pub issuer_unique_id: DmBits<'a>,
    /// The subject's unique identifier, if it has one.
    pub subject_unique_id: DmBits<'a>,
    /// The encodings of the extensions, one after another.
    pub extensions: &'a [u8],
    /// The algorithm of the signature.
    pub signature_algorithm: DmAlgorithm<'a>,
    /// The signature, which isn't verified.
    pub signature_value: DmBits<'a>,
    /// The start of the validity.
    pub not_before: DmMoment,
    /// The end of the validity.
    pub not_after: DmMoment,
    /// 1, 2 or 3.
    pub version: u32,
    /// 0.
    pub reserved: u32,
}

/// Writes a certificate or its fault. Returns the fault.
pub fn write<'a>(
    found: Result<Certificate<'a>, CertificateError>,
    certificate: &mut DmCertificate<'a>,
) -> DmFault
    ensures { Written IsCertificate certificate_fault found.entry certificate.old certificate.new result }
{
    match found {
        Ok(found) => {
            *certificate = fields(&found);
            no_fault()
        }
        Err(e) => certificate_fault(e),
    }
}

/// The same for a certificate that keeps all rules.
pub fn write_strict<'a>(
    found: Result<Certificate<'a>, StrictError>,
    certificate: &mut DmCertificate<'a>,
) -> DmFault
    ensures { Written IsCertificate strict_fault found.entry certificate.old certificate.new result }
{
    match found {
        Ok(found) => {
            *certificate = fields(&found);
            no_fault()
        }
        Err(StrictError::NotRead(e)) => certificate_fault(e),
        Err(StrictError::Broken(rule)) => rule_fault(rule),
    }
}

/// The C struct of a certificate.
fn fields<'a>(found: &Certificate<'a>) -> DmCertificate<'a>
    ensures { HasCertificate (certificate_of found.now) result }
{
    let tbs = &found.tbs_certificate;
    DmCertificate {
        tbs: found.tbs,
        serial_number: tbs.serial_number,
        signature: algorithm(&tbs.signature),
        issuer: tbs.issuer.octets,
        subject: tbs.subject.octets,
        key_algorithm: algorithm(&tbs.subject_public_key_info.algorithm),
        key: bits(tbs.subject_public_key_info.subject_public_key),
        issuer_unique_id: optional_bits(tbs.issuer_unique_id),
        subject_unique_id: optional_bits(tbs.subject_unique_id),
        extensions: tbs.extensions.octets,
        signature_algorithm: algorithm(&found.signature_algorithm),
        signature_value: bits(found.signature_value),
        not_before: moment(tbs.validity.not_before),
        not_after: moment(tbs.validity.not_after),
        version: version_number(tbs.version),
        reserved: 0,
    }
}

/// The fault of a field of a certificate.
pub fn certificate_fault(e: CertificateError) -> DmFault
    ensures { result ≡ certificate_fault e }
{
    field_fault(field_number(e.field), e.refusal)
}

/// The number of a field.
fn field_number(field: Field) -> u32
    ensures { result ≡ certificate_field_number field }
{
    1 + field as u32
}
