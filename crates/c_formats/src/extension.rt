//! Values of extensions (RFC 5280 4.2.1). Offsets of faults count from the start of a value.
ghost use Rattle.std.specs.Prelude.{◌≡◌, ◌≤◌, []};
ghost use Rattle.std.specs.Option.{option_map, unwrap_or};
ghost use Rattle.c_formats.specs.ExtensionValues.{HasAuthority, IsAuthority, IsConstraints, IsUsage};
ghost use Rattle.c_formats.specs.ExtensionValues.{constraints_fields, flag, usage_number};
ghost use Rattle.c_values.specs.Faults.{Written, value_fault};
ghost use Rattle.der_extensions.specs.Extensions.{authority_of};
ghost use Rattle.der_extensions.specs.Lists.{list_octets};

use c_values::element::bit;
use c_values::fault::{DmFault, field_fault, no_fault};
use der_base::error::BerError;
use der_cursor::ReadError;
use der_extensions::{AuthorityKeyIdentifier, BasicConstraints, GeneralNames, KeyUsage};

/// The value of a BasicConstraints (4.2.1.9).
#[repr(C)]
#[derive(Clone, Copy)]
pub struct DmBasicConstraints {
    /// 1 for a CA, whose key may verify signatures of certificates, else 0.
    pub ca: u32,
    /// 1 if there is a path length, else 0.
    pub has_path_length: u32,
    /// How many CA certificates may follow in a path; 0 if there is no path length.
    pub path_length: u32,
}

/// The value of an AuthorityKeyIdentifier (RFC 5280 4.2.1.1). An absent field is empty.
#[repr(C)]
#[derive(Clone, Copy)]
pub struct DmAuthorityKeyIdentifier<'a> {
    /// The identifier of the issuer's key.
    pub key_identifier: &'a [u8],
    /// The encodings of the general names of the issuer's issuer, one after another.
    pub issuer: &'a [u8],
    /// The content octets of the serial number of the issuer's certificate, in two's complement.
    pub serial_number: &'a [u8],
    /// 1 if `key_identifier` is there, else 0. The next two flags are alike.
    pub has_key_identifier: u32,
    pub has_issuer: u32,
    pub has_serial_number: u32,
    /// 0.
    pub reserved: u32,
}

/// The fault of a value.
pub fn value_fault(e: ReadError<BerError>) -> DmFault
    ensures { result ≡ value_fault e }
{
    field_fault(0, e)
}

/// Writes a BasicConstraints, or returns the fault.
pub fn write_constraints(
    found: Result<BasicConstraints, ReadError<BerError>>,
    constraints: &mut DmBasicConstraints,
) -> DmFault
    ensures { Written IsConstraints value_fault found constraints.old constraints.new result }
{
    match found {
        Ok(found) => {
            *constraints = constraints_fields(found);
            no_fault()
        }
        Err(e) => value_fault(e),
    }
}

fn constraints_fields(found: BasicConstraints) -> DmBasicConstraints
    ensures { result ≡ constraints_fields found }
{
    DmBasicConstraints {
        ca: bit(found.ca).into(),
        has_path_length: bit(found.path_length.is_some()).into(),
        path_length: found.path_length.unwrap_or(0),
    }
}

/// Writes a KeyUsage, or returns the fault.
pub fn write_usage(found: Result<KeyUsage<'_>, ReadError<BerError>>, usage: &mut u32) -> DmFault
    ensures { Written IsUsage value_fault found.entry usage.old usage.new result }
{
    match found {
        Ok(found) => {
            *usage = usage_number(found);
            no_fault()
        }
        Err(e) => value_fault(e),
    }
}

fn usage_number(usage: KeyUsage<'_>) -> u32
    ensures { result ≡ usage_number usage.entry.bits.octets.now }
{
    flag(usage.digital_signature(), 1)
        + flag(usage.content_commitment(), 2)
        + flag(usage.key_encipherment(), 4)
        + flag(usage.data_encipherment(), 8)
        + flag(usage.key_agreement(), 16)
        + flag(usage.key_cert_sign(), 32)
        + flag(usage.crl_sign(), 64)
        + flag(usage.encipher_only(), 128)
        + flag(usage.decipher_only(), 256)
}

/// `value` if the bit is set, else 0.
fn flag(is_set: bool, value: u32) -> u32
    ensures exactly { result ≡ flag is_set value }
    ensures most { result ≤ value }
{
    if is_set { value } else { 0 }
}

/// Writes an AuthorityKeyIdentifier, or returns the fault.
pub fn write_authority<'a>(
    found: Result<AuthorityKeyIdentifier<'a>, ReadError<BerError>>,
    identifier: &mut DmAuthorityKeyIdentifier<'a>,
) -> DmFault
    ensures { Written IsAuthority value_fault found.entry identifier.old identifier.new result }
{
    match found {
        Ok(found) => {
            *identifier = authority_fields(found);
            no_fault()
        }
        Err(e) => value_fault(e),
    }
}

fn authority_fields<'a>(found: AuthorityKeyIdentifier<'a>) -> DmAuthorityKeyIdentifier<'a>
    ensures { HasAuthority (authority_of found.entry) result }
{
    let issuer = issuer_octets(found.authority_cert_issuer);
    DmAuthorityKeyIdentifier {
        key_identifier: octets_or_none(found.key_identifier),
        issuer: octets_or_none(issuer),
        serial_number: octets_or_none(found.authority_cert_serial_number),
        has_key_identifier: bit(found.key_identifier.is_some()).into(),
        has_issuer: bit(issuer.is_some()).into(),
        has_serial_number: bit(found.authority_cert_serial_number.is_some()).into(),
        reserved: 0,
    }
}

/// The octets of names, if there are any.
fn issuer_octets<'a>(names: Option<GeneralNames<'a>>) -> Option<&'a [u8]>
    ensures { option_map (λ x. x.now) result ≡ option_map list_octets names.entry }
{
    match names {
        Some(names) => Some(names.octets),
        None => None,
    }
}

/// Octets, or none.
fn octets_or_none<'a>(octets: Option<&'a [u8]>) -> &'a [u8]
    ensures { result.now ≡ unwrap_or (option_map (λ x. x.now) octets.entry) [] }
{
    octets.unwrap_or(&[])
}
