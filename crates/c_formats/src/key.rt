//! Private keys (RFC 5208 5, RFC 5958 2) and RSA private keys (RFC 8017 A.1.2).
ghost use Rattle.std.specs.Prelude.{◌≡◌, []};
ghost use Rattle.std.specs.Option.{option_map, unwrap_or};
ghost use Rattle.c_formats.specs.FieldNumbers.{key_field_number, only_name, prime_number, rsa_field_number};
ghost use Rattle.c_formats.specs.Keys.{HasKey, HasRsaKey, IsKey, IsRsaKey, key_fault, rsa_fault};
ghost use Rattle.c_values.specs.Faults.{Written};
ghost use Rattle.der_cursor.specs.Cursors.{octets_left};

use c_values::any::{DmAny, optional_any};
use c_values::element::bit;
use c_values::fault::{DmFault, FIRST_KEY_FIELD, FIRST_RSA_FIELD, field_fault, no_fault};
use c_values::parts::{DmBits, identifier_octets, optional_bits};
use der_cursor::{Cursor, FieldError};
use x509_keys::{PrivateKeyInfo, RsaPrivateKey};

/// A private key. Octets are slices of the input.
#[repr(C)]
#[derive(Clone, Copy)]
pub struct DmPrivateKey<'a> {
    /// The content octets of the algorithm's OID.
    pub algorithm: &'a [u8],
    /// The parameters of the algorithm. Their content isn't read.
    pub parameters: DmAny<'a>,
    /// The key, as its algorithm encodes it.
    pub private_key: &'a [u8],
    /// The content octets of the attributes, which aren't read.
    pub attributes: &'a [u8],
    /// The public key, if it is there.
    pub public_key: DmBits<'a>,
    /// 1 if there is a public key, else 0.
    pub version: u32,
    /// 1 if there are parameters, else 0.
    pub has_parameters: u32,
    /// 1 if there are attributes, else 0.
    pub has_attributes: u32,
    /// 0.
    pub reserved: u32,
}

/// An RSA private key. Each number is the content octets of its INTEGER, in two's complement.
#[repr(C)]
#[derive(Clone, Copy)]
pub struct DmRsaPrivateKey<'a> {
    pub modulus: &'a [u8],
    pub public_exponent: &'a [u8],
    pub private_exponent: &'a [u8],
    pub prime1: &'a [u8],
    pub prime2: &'a [u8],
    pub exponent1: &'a [u8],
    pub exponent2: &'a [u8],
    pub coefficient: &'a [u8],
    /// The content octets of further primes, which aren't read.
    pub other_primes: &'a [u8],
    /// 1 if there are further primes, else 0.
    pub version: u32,
    /// 1 if there are further primes, else 0.
    pub has_other_primes: u32,
}

/// Writes a private key, or returns the fault.
pub fn write<'a>(
    found: Result<PrivateKeyInfo<'a>, FieldError>,
    key: &mut DmPrivateKey<'a>,
) -> DmFault
    ensures { Written IsKey key_fault found.entry key.old key.new result }
{
    match found {
        Ok(found) => {
            *key = fields(&found);
            no_fault()
        }
        Err(e) => key_fault(e),
    }
}

/// The C struct of a key.
fn fields<'a>(found: &PrivateKeyInfo<'a>) -> DmPrivateKey<'a>
    ensures { HasKey found.now result }
{
    DmPrivateKey {
        algorithm: identifier_octets(found.algorithm.identifier),
        parameters: optional_any(found.algorithm.parameters),
        private_key: found.private_key,
        attributes: octets_left(found.attributes),
        public_key: optional_bits(found.public_key),
        version: found.version,
        has_parameters: bit(found.algorithm.parameters.is_some()).into(),
        has_attributes: bit(found.attributes.is_some()).into(),
        reserved: 0,
    }
}

/// The octets left in a cursor; empty if there is none.
fn octets_left<'a>(cursor: Option<Cursor<'a>>) -> &'a [u8]
    ensures { result.now ≡ unwrap_or (option_map octets_left cursor.entry) [] }
{
    match cursor {
        Some(cursor) => cursor.remaining(),
        None => &[],
    }
}

/// The fault of a field of a key.
pub fn key_fault(e: FieldError) -> DmFault
    ensures { result ≡ key_fault e }
{
    let field = key_field_number(only_name(e.names()));
    field_fault(field, e.refusal)
}

/// The only name of a field: the key readers put no other before it.
pub(crate) fn only_name(names: &[&'static str]) -> &'static str
    ensures { result.now ≡ only_name names.now }
{
    match names {
        [name] => name,
        _ => "",
    }
}

/// The number of the field with this name.
fn key_field_number(name: &str) -> u32
    ensures { result ≡ key_field_number name.now }
{
    if name == "version" {
        FIRST_KEY_FIELD + 1
    } else if name == "privateKeyAlgorithm" {
        FIRST_KEY_FIELD + 2
    } else if name == "privateKey" {
        FIRST_KEY_FIELD + 3
    } else if name == "attributes" {
        FIRST_KEY_FIELD + 4
    } else if name == "publicKey" {
        FIRST_KEY_FIELD + 5
    } else {
        FIRST_KEY_FIELD
    }
}

/// Writes an RSA private key, or returns the fault.
pub fn write_rsa<'a>(
    found: Result<RsaPrivateKey<'a>, FieldError>,
    key: &mut DmRsaPrivateKey<'a>,
) -> DmFault
    ensures { Written IsRsaKey rsa_fault found.entry key.old key.new result }
{
    match found {
        Ok(found) => {
            *key = rsa_fields(&found);
            no_fault()
        }
        Err(e) => rsa_fault(e),
    }
}

/// The C struct of an RSA private key.
fn rsa_fields<'a>(found: &RsaPrivateKey<'a>) -> DmRsaPrivateKey<'a>
    ensures { HasRsaKey found.now result }
{
    DmRsaPrivateKey {
        modulus: found.modulus,
        public_exponent: found.public_exponent,
        private_exponent: found.private_exponent,
        prime1: found.prime1,
        prime2: found.prime2,
        exponent1: found.exponent1,
        exponent2: found.exponent2,
        coefficient: found.coefficient,
        other_primes: octets_left(found.other_primes),
        version: found.version,
        has_other_primes: bit(found.other_primes.is_some()).into(),
    }
}

/// The fault of a field of an RSA private key.
pub fn rsa_fault(e: FieldError) -> DmFault
    ensures { result ≡ rsa_fault e }
{
    let field = rsa_field_number(only_name(e.names()));
    field_fault(field, e.refusal)
}

/// The number of the field with this name.
fn rsa_field_number(name: &str) -> u32
    ensures { result ≡ rsa_field_number name.now }
{
    if name == "version" {
        FIRST_RSA_FIELD + 1
    } else if name == "modulus" {
        FIRST_RSA_FIELD + 2
    } else if name == "publicExponent" {
        FIRST_RSA_FIELD + 3
    } else if name == "privateExponent" {
        FIRST_RSA_FIELD + 4
    } else if name == "otherPrimeInfos" {
        FIRST_RSA_FIELD + 10
    } else {
        prime_number(name)
    }
}

/// The number of a prime, an exponent or the coefficient, by its name.
fn prime_number(name: &str) -> u32
    ensures { result ≡ prime_number name.now }
{
    if name == "prime1" {
        FIRST_RSA_FIELD + 5
    } else if name == "prime2" {
        FIRST_RSA_FIELD + 6
    } else if name == "exponent1" {
        FIRST_RSA_FIELD + 7
    } else if name == "exponent2" {
        FIRST_RSA_FIELD + 8
    } else if name == "coefficient" {
        FIRST_RSA_FIELD + 9
    } else {
        FIRST_RSA_FIELD
    }
}
