//! What a public key is: its type, its curve and its size.
ghost use Rattle.std.specs.Option.{option_map};
ghost use Rattle.std.specs.Prelude.{◌≡◌, ◌-◌, ◌^◌, find, min, option_copied};
ghost use Rattle.certificate_text.specs.Keys.{bit_length};
ghost use Rattle.c_formats.specs.KeyKinds.{FindsInteger, FindsOnly, FirstInteger, HasKind, HasModulus};
ghost use Rattle.c_formats.specs.KeyKinds.{HasPrime, HasSize, IsKeyKind, content_if, curve_in, row_of};
ghost use Rattle.der_base.specs.TreeEquality.{same_octets};
ghost use Rattle.der_base.specs.declared.rules.Rules.{Rules};
ghost use Rattle.der_cursor.specs.Elements.{element_of};
ghost use Rattle.der_cursor.specs.Formats.{AnyElement, Never, Only, ReadsWhole};

use crate::other_keys::DmPublicKey;
use c_values::any::{DmAny, optional_any};
use c_values::parts::{DmAlgorithm, DmBits};
use der_base::any::Any;
use der_base::error::BerError;
use der_cursor::{Cursor, ReadError};
use extension_text::names::serial::without_leading_zero;
use x509_keys::read_rsa_public_key;

/// What a public key is.
#[repr(C)]
#[derive(Clone, Copy)]
pub struct DmKeyKind {
    /// The number of its type; 0 if it is another.
    pub key_type: u32,
    /// The number of its curve; 0 if it is another, or the type has none.
    pub curve: u32,
    /// The size in bits: of the modulus, of the prime, or of the curve's field. 0 if it is unknown.
    pub bits: u32,
}

/// What the size of a key is of.
#[derive(Clone, Copy)]
enum Size {
    /// The modulus in the key (RFC 8017 A.1.1).
    Modulus,
    /// The first INTEGER of the parameters.
    Prime,
    /// The field of the curve that the parameters name (RFC 5480 2.1.1).
    Curve,
    /// A field of so many bits.
    Field(u32),
}

/// The content octets of the identifiers of algorithms, with the number of the key's type, and what its size is of (RFC
/// 8017 A.1, A.2.3; RFC 5480 2.1.1; RFC 8410 3; RFC 3279 2.3.2, 2.3.3; PKCS #3 9).
const KEY_TYPES: &[(&[u8], (u32, Size))] = &[
    (b"\x2a\x86\x48\x86\xf7\x0d\x01\x01\x01", (1, Size::Modulus)),
    (b"\x2a\x86\x48\x86\xf7\x0d\x01\x01\x0a", (2, Size::Modulus)),
    (b"\x2a\x86\x48\xce\x3d\x02\x01", (3, Size::Curve)),
    (b"\x2b\x65\x70", (4, Size::Field(255))),
    (b"\x2b\x65\x71", (5, Size::Field(448))),
    (b"\x2b\x65\x6e", (6, Size::Field(255))),
    (b"\x2b\x65\x6f", (7, Size::Field(448))),
    (b"\x2a\x86\x48\xce\x38\x04\x01", (8, Size::Prime)),
    (b"\x2a\x86\x48\xce\x3e\x02\x01", (9, Size::Prime)),
    (b"\x2a\x86\x48\x86\xf7\x0d\x01\x03\x01", (9, Size::Prime)),
];

/// The content octets of the identifiers of curves, with the curve's number and the size of its field (RFC 5480
/// 2.1.1.1; SEC 2 A.2; RFC 5639 4.1).
const CURVES: &[(&[u8], (u32, u32))] = &[
    (b"\x2a\x86\x48\xce\x3d\x03\x01\x01", (1, 192)),
    (b"\x2b\x81\x04\x00\x21", (2, 224)),
    (b"\x2a\x86\x48\xce\x3d\x03\x01\x07", (3, 256)),
    (b"\x2b\x81\x04\x00\x22", (4, 384)),
    (b"\x2b\x81\x04\x00\x23", (5, 521)),
    (b"\x2b\x81\x04\x00\x0a", (6, 256)),
    (b"\x2b\x81\x04\x00\x01", (7, 163)),
    (b"\x2b\x81\x04\x00\x0f", (8, 163)),
    (b"\x2b\x81\x04\x00\x1a", (9, 233)),
    (b"\x2b\x81\x04\x00\x1b", (10, 233)),
    (b"\x2b\x81\x04\x00\x10", (11, 283)),
    (b"\x2b\x81\x04\x00\x11", (12, 283)),
    (b"\x2b\x81\x04\x00\x24", (13, 409)),
    (b"\x2b\x81\x04\x00\x25", (14, 409)),
    (b"\x2b\x81\x04\x00\x26", (15, 571)),
    (b"\x2b\x81\x04\x00\x27", (16, 571)),
    (b"\x2b\x24\x03\x03\x02\x08\x01\x01\x07", (17, 256)),
    (b"\x2b\x24\x03\x03\x02\x08\x01\x01\x0b", (18, 384)),
    (b"\x2b\x24\x03\x03\x02\x08\x01\x01\x0d", (19, 512)),
];

/// What the key of a certificate or a request is.
pub fn key_kind(algorithm: &DmAlgorithm<'_>, key: &DmBits<'_>) -> DmKeyKind
    ensures { IsKeyKind algorithm.now key.now.octets.now result }
{
    let parameters = optional_any(only_element(algorithm.parameters));
    kind_of(algorithm.identifier, &parameters, key.octets)
}

/// What a public key by itself is.
pub fn public_key_kind(key: &DmPublicKey<'_>) -> DmKeyKind
    ensures { HasKind key.now.algorithm.now key.now.parameters key.now.public_key.octets.now result }
{
    kind_of(key.algorithm, &key.parameters, key.public_key.octets)
}

/// What a key of this algorithm, with these parameters, is.
fn kind_of(algorithm: &[u8], parameters: &DmAny<'_>, key: &[u8]) -> DmKeyKind
    ensures { HasKind algorithm.now parameters.now key.now result }
{
    match type_of(algorithm) {
        Some((number, size)) => sized(number, size, parameters, key),
        None => kind(0, 0, 0),
    }
}

/// The number of the type of keys of this algorithm, and what its size is of.
fn type_of(algorithm: &[u8]) -> Option<(u32, Size)>
    ensures { result ≡ row_of KEY_TYPES.now algorithm.now }
{
    let (_, found) = row_of(KEY_TYPES, algorithm)?;
    Some(*found)
}

/// What a key of this type is.
fn sized(number: u32, size: Size, parameters: &DmAny<'_>, key: &[u8]) -> DmKeyKind
    ensures sized { HasSize size parameters.now key.now (result.curve, result.bits) }
    ensures number { result.key_type ≡ number }
{
    match size {
        Size::Modulus => kind(number, 0, modulus_bits(key)),
        Size::Prime => kind(number, 0, prime_bits(parameters)),
        Size::Curve => {
            let (curve, bits) = curve_in(parameters);
            kind(number, curve, bits)
        }
        Size::Field(bits) => kind(number, 0, bits),
    }
}

fn kind(key_type: u32, curve: u32, bits: u32) -> DmKeyKind
    ensures number { result.key_type ≡ key_type }
    ensures curve { result.curve ≡ curve }
    ensures bits { result.bits ≡ bits }
{
    DmKeyKind {
        key_type,
        curve,
        bits,
    }
}

/// The first row of a table with these octets.
fn row_of<'r, T>(rows: &'r [(&'static [u8], T)], octets: &[u8]) -> Option<&'r (&'static [u8], T)>
    ensures { option_copied result ≡ find (λ row. same_octets row.0.now octets.now) rows.now }
{
    rows.iter()
        .find(|(identifier, _)| is_same(identifier, octets))
}

fn is_same(one: &[u8], other: &[u8]) -> bool
    ensures { result ≡ same_octets one.now other.now }
{
    one == other
}

/// The number of a curve that parameters name, and the size of its field.
fn curve_in(parameters: &DmAny<'_>) -> (u32, u32)
    ensures { result ≡ curve_in parameters.now }
{
    match row_of(CURVES, content_if(parameters, 6, 0)) {
        Some((_, curve)) => *curve,
        None => (0, 0),
    }
}

/// The size of the modulus of an RSA key; 0 if the octets aren't a key.
fn modulus_bits(key: &[u8]) -> u32
    ensures { HasModulus key.now result }
{
    match read_rsa_public_key(key) {
        Ok(found) => bits_of(found.modulus),
        Err(_) => 0,
    }
}

/// The size of the first INTEGER of a SEQUENCE; 0 if there is none.
fn prime_bits(parameters: &DmAny<'_>) -> u32
    ensures { HasPrime (content_if 16 1 parameters.now) result }
{
    match first_integer(content_if(parameters, 16, 1)) {
        Some(prime) => bits_of(prime),
        None => 0,
    }
}

/// The content octets of an element of this universal type and constructed bit. Empty if it is another.
fn content_if<'a>(element: &DmAny<'a>, number: u32, constructed: u8) -> &'a [u8]
    ensures { result.now ≡ content_if number constructed element.now }
{
    if element.tag_class == 0 && element.number == number && element.constructed == constructed {
        element.content
    } else {
        &[]
    }
}

/// The number of bits of a natural number, given the content octets of its INTEGER; at most 2^32-1.
fn bits_of(octets: &[u8]) -> u32
    ensures { result ≡ min (bit_length octets.now) (2 ^ 32 - 1) }
{
    let bits = bit_length(octets);
    if bits < u128::from(u32::MAX) {
        bits as u32
    } else {
        u32::MAX
    }
}

/// The same in a larger type.
fn bit_length(octets: &[u8]) -> u128
    ensures { result ≡ bit_length octets.now }
{
    let digits = without_leading_zero(octets);
    match digits {
        [first, ..] => (digits.len() as u128 * 8).saturating_sub(u128::from(first.leading_zeros())),
        [] => 0,
    }
}

/// The INTEGER that octets begin with.
fn first_integer(octets: &[u8]) -> Option<&[u8]>
    ensures { FindsInteger octets.now (option_copied result) }
{
    match read_first(octets) {
        Ok(number) => Some(number),
        Err(_) => None,
    }
}

fn read_first(octets: &[u8]) -> Result<&[u8], ReadError<BerError>>
    ensures { ReadsWhole (FirstInteger Rules.Der octets.now) (λ number. (number.now, tt)) Never result }
{
    let mut fields = Cursor::new(octets);
    fields.integer()
}

/// The one element that octets are.
fn only_element(octets: &[u8]) -> Option<Any<'_>>
    ensures { FindsOnly octets.now (option_map element_of result) }
{
    match read_element(octets) {
        Ok(element) => Some(element),
        Err(_) => None,
    }
}

fn read_element(octets: &[u8]) -> Result<Any<'_>, ReadError<BerError>>
    ensures { ReadsWhole (Only AnyElement Rules.Der octets.now) element_of Never result }
{
    let mut input = Cursor::new(octets);
    let element = input.any()?;
    input.end()?;
    Ok(element)
}
