//! Certification requests (RFC 2986 4).
ghost use Rattle.std.specs.Prelude.{◌≡◌};
ghost use Rattle.c_formats.specs.FieldNumbers.{request_field_number};
ghost use Rattle.c_formats.specs.Items.{Taken, left};
ghost use Rattle.c_formats.specs.Requests.{HasRequest, IsAttribute, IsExtensions, IsRequest, request_fault};
ghost use Rattle.c_values.specs.Faults.{Written, value_fault};
ghost use Rattle.x509_keys.specs.Request.Requests.{attribute as attribute_format, attribute_of, request_of};
ghost use Rattle.x509.specs.Lists.{YieldsNext};

use crate::sequences::after_sequence;
use c_values::fault::{DmFault, FIRST_REQUEST_FIELD, field_fault, no_fault};
use c_values::octets::DmOctets;
use c_values::parts::{DmAlgorithm, DmBits, algorithm, bits, identifier_octets};
use der_base::error::BerError;
use der_cursor::ReadError;
use x509::Extensions;
use x509_keys::request::{
    Attribute, Attributes, CertificationRequest, CertificationRequestError, Field,
};

/// A certification request (CSR). Octets are slices of the input.
#[repr(C)]
#[derive(Clone, Copy)]
pub struct DmRequest<'a> {
    /// The signed octets: the encoding of a CertificationRequestInfo.
    pub info: &'a [u8],
    /// The encodings of the subject's relative names, one after another.
    pub subject: &'a [u8],
    /// The algorithm of the subject's public key.
    pub key_algorithm: DmAlgorithm<'a>,
    /// The subject's public key.
    pub key: DmBits<'a>,
    /// The encodings of the attributes, one after another.
    pub attributes: &'a [u8],
    /// The algorithm of the signature.
    pub signature_algorithm: DmAlgorithm<'a>,
    /// The signature, which isn't verified.
    pub signature: DmBits<'a>,
}

/// An attribute of a CSR.
#[repr(C)]
#[derive(Clone, Copy)]
pub struct DmRequestAttribute<'a> {
    /// The content octets of the type's OID.
    pub identifier: &'a [u8],
    /// The encodings of the values, one after another.
    pub values: &'a [u8],
}

/// Writes a CSR, or returns the fault.
pub fn write<'a>(
    found: Result<CertificationRequest<'a>, CertificationRequestError>,
    request: &mut DmRequest<'a>,
) -> DmFault
    ensures { Written IsRequest request_fault found.entry request.old request.new result }
{
    match found {
        Ok(found) => {
            *request = fields(&found);
            no_fault()
        }
        Err(e) => field_fault(field_number(e.field), e.refusal),
    }
}

/// The C struct of a CSR.
fn fields<'a>(found: &CertificationRequest<'a>) -> DmRequest<'a>
    ensures { HasRequest (request_of found.now) result }
{
    let info = &found.info;
    DmRequest {
        info: found.info_octets,
        subject: info.subject.octets,
        key_algorithm: algorithm(&info.subject_public_key_info.algorithm),
        key: bits(info.subject_public_key_info.subject_public_key),
        attributes: info.attributes.octets,
        signature_algorithm: algorithm(&found.signature_algorithm),
        signature: bits(found.signature),
    }
}

/// The number of a field.
fn field_number(field: Field) -> u32
    ensures { result ≡ request_field_number field }
{
    FIRST_REQUEST_FIELD + field as u32
}

/// Writes an attribute. Returns 1, or 0 if there is none.
pub fn write_attribute<'a>(
    found: Option<Attribute<'a>>,
    attribute: &mut DmRequestAttribute<'a>,
) -> u32
    ensures { Taken IsAttribute found.entry attribute.old attribute.new result }
{
    match found {
        Some(found) => {
            *attribute = DmRequestAttribute {
                identifier: identifier_octets(found.identifier),
                values: found.values.octets,
            };
            1
        }
        None => 0,
    }
}

/// Takes the next attribute from the list.
pub fn next_attribute<'a>(attributes: &mut DmOctets<'a>) -> Option<Attribute<'a>>
    ensures { YieldsNext left attribute_of attribute_format attributes.old result attributes.new }
{
    let list = Attributes {
        octets: attributes.octets,
    };
    let Some(attribute) = list.iter().next() else {
        return None;
    };
    attributes.octets = after_sequence(attributes.octets);
    Some(attribute)
}

/// Writes requested extensions, or returns the fault.
pub fn write_extensions<'a>(
    found: Result<Extensions<'a>, ReadError<BerError>>,
    extensions: &mut DmOctets<'a>,
) -> DmFault
    ensures { Written IsExtensions value_fault found.entry extensions.old extensions.new result }
{
    match found {
        Ok(found) => {
            extensions.octets = found.octets;
            no_fault()
        }
        Err(e) => field_fault(0, e),
    }
}
