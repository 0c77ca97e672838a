//! Reads certification requests (CSRs, PKCS #10) in DER, by the ASN.1 of RFC 2986. Signatures aren't verified. `writer`
//! writes CSRs.
//!
//! A value of any type (algorithm parameters, attribute values) is a DER header and as many octets; `is_element` of
//! `der_elements::check` tells whether it is a DER element (X.690 10). The order of sets and the rules of RFC 5280
//! aren't checked.
ghost use Rattle.std.specs.Prelude.{OnOk};
ghost use Rattle.x509_keys.specs.Request.Requests.{field_fault, info_of, request, request_info, request_of, version};
ghost use Rattle.x509_keys.specs.Request.Requests.{whole_request};
ghost use Rattle.x509.specs.Readers.{IsShorter, ReadsBy, ReadsExactly, fault_of};

mod attribute;
pub mod attribute_identifiers;
mod challenge_password;
mod display;
mod error;
mod extension_request;
pub mod laws;
mod lists;
pub mod writer;

use crate::request::attribute::read_attributes;
pub use attribute::{Attribute, Attributes, Values};
pub use challenge_password::read_challenge_password;
use der_base::error::BerError;
use der_cursor::{Cursor, ReadError};
use der_values::BitString;
pub use error::{CertificationRequestError, Field};
pub use extension_request::read_extension_request;
pub use lists::{AttributeIter, ValueIter};
use x509::parts::{read_algorithm, read_key_info, read_name};
use x509::{AlgorithmIdentifier, Name, SubjectPublicKeyInfo};

/// A certification request (CSR). Octets and texts are slices of the input.
#[derive(Drop)]
pub struct CertificationRequest<'a> {
    /// The signed octets: the encoding of `info`.
    pub info_octets: &'a [u8],
    /// The signed fields.
    pub info: CertificationRequestInfo<'a>,
    /// The algorithm of the signature.
    pub signature_algorithm: AlgorithmIdentifier<'a>,
    /// The signature, which isn't verified.
    pub signature: BitString<'a>,
}

/// The signed part of a CSR. Its version is 0, the only one (RFC 2986 4.1).
#[derive(Drop)]
pub struct CertificationRequestInfo<'a> {
    pub subject: Name<'a>,
    pub subject_public_key_info: SubjectPublicKeyInfo<'a>,
    pub attributes: Attributes<'a>,
}

/// Reads a CSR; trailing data is an error. The signature isn't verified.
pub fn read_request(octets: &[u8]) -> Result<CertificationRequest<'_>, CertificationRequestError>
    ensures { ReadsExactly field_fault request_of whole_request octets.now result }
{
    let mut input = Cursor::new(octets);
    let request = read_parts(&mut input)?;
    Field::CertificationRequest.of(input.end())?;
    Ok(request)
}

/// Reads a CertificationRequest.
fn read_parts<'a>(
    input: &mut Cursor<'a>,
) -> Result<CertificationRequest<'a>, CertificationRequestError>
    ensures { ReadsBy field_fault request_of request input.old result input.new }
{
    let mut parts = Field::CertificationRequest.of(input.open_sequence())?;
    let before = parts.remaining();
    let info = read_info(&mut parts)?;
    let info_octets = &before[..before.len() - parts.remaining().len()];
    let signature_algorithm = Field::SignatureAlgorithm.of(read_algorithm(&mut parts))?;
    let signature = Field::Signature.of(parts.bits())?;
    Field::CertificationRequest.of(parts.end())?;
    Ok(CertificationRequest {
        info_octets,
        info,
        signature_algorithm,
        signature,
    })
}

/// Reads a CertificationRequestInfo.
fn read_info<'a>(
    parts: &mut Cursor<'a>,
) -> Result<CertificationRequestInfo<'a>, CertificationRequestError>
    ensures reads { ReadsBy field_fault info_of request_info parts.old result parts.new }
    ensures shorter { OnOk result (IsShorter parts.old parts.new) }
{
    let mut fields = Field::CertificationRequestInfo.of(parts.open_sequence())?;
    Field::Version.of(read_version(&mut fields))?;
    let subject = Field::Subject.of(read_name(&mut fields))?;
    let subject_public_key_info = Field::SubjectPublicKeyInfo.of(read_key_info(&mut fields))?;
    let attributes = Field::Attributes.of(read_attributes(&mut fields))?;
    Field::CertificationRequestInfo.of(fields.end())?;
    Ok(CertificationRequestInfo {
        subject,
        subject_public_key_info,
        attributes,
    })
}

/// Reads a version, which is 0.
fn read_version(fields: &mut Cursor<'_>) -> Result<(), ReadError<BerError>>
    ensures { ReadsBy fault_of (λ u. u) version fields.old result fields.new }
{
    let before = *fields;
    let number = fields.u32()?;
    if number != 0 {
        return Err(before.refuse(BerError::BerValueError));
    }
    Ok(())
}
