//! Keys other than PKCS #8: elliptic private keys (RFC 5915 3), encrypted private keys (RFC 5958 3) and public keys
//! (RFC 5280 4.1.2.7, RFC 8017 A.1.1).
ghost use Rattle.std.specs.Prelude.{◌≡◌};
ghost use Rattle.c_formats.specs.FieldNumbers.{ec_field_number, encrypted_field_number, public_field_number};
ghost use Rattle.c_formats.specs.FieldNumbers.{rsa_public_field_number};
ghost use Rattle.c_formats.specs.OtherKeys.{HasEcKey, HasEncryptedKey, HasPublicKey, HasRsaPublicKey, IsEcKey};
ghost use Rattle.c_formats.specs.OtherKeys.{IsEncryptedKey, IsPublicKey, IsRsaPublicKey, ec_fault, encrypted_fault};
ghost use Rattle.c_formats.specs.OtherKeys.{public_fault, rsa_public_fault};
ghost use Rattle.c_values.specs.Faults.{Written};

use crate::key::only_name;
use c_values::any::{DmAny, optional_any};
use c_values::element::bit;
use c_values::fault::{
    DmFault, FIRST_EC_FIELD, FIRST_ENCRYPTED_FIELD, FIRST_PUBLIC_FIELD, FIRST_RSA_PUBLIC_FIELD,
    field_fault, no_fault,
};
use c_values::parts::{DmBits, bits, identifier_octets, optional_bits};
use der_cursor::FieldError;
use x509_keys::{EcPrivateKey, EncryptedPrivateKeyInfo, RsaPublicKey, SubjectPublicKeyInfo};

/// An elliptic private key. Octets are slices of the input.
#[repr(C)]
#[derive(Clone, Copy)]
pub struct DmEcPrivateKey<'a> {
    /// The private number, in as many octets as the order of the curve has.
    pub private_key: &'a [u8],
    /// The curve: its OID or any other element, whose content isn't read.
    pub parameters: DmAny<'a>,
    /// The public key, if it is there.
    pub public_key: DmBits<'a>,
    /// Always 1.
    pub version: u32,
    /// 1 if there are parameters, else 0.
    pub has_parameters: u32,
}

/// An encrypted private key. Octets are slices of the input.
#[repr(C)]
#[derive(Clone, Copy)]
pub struct DmEncryptedPrivateKey<'a> {
    /// The content octets of the encryption algorithm's OID.
    pub algorithm: &'a [u8],
    /// The parameters of the encryption algorithm. Their content isn't read.
    pub parameters: DmAny<'a>,
    /// The encrypted octets.
    pub encrypted_data: &'a [u8],
    /// 1 if there are parameters, else 0.
    pub has_parameters: u32,
    /// 0.
    pub reserved: u32,
}

/// A public key. Octets are slices of the input.
#[repr(C)]
#[derive(Clone, Copy)]
pub struct DmPublicKey<'a> {
    /// The content octets of the algorithm's OID.
    pub algorithm: &'a [u8],
    /// The parameters of the algorithm. Their content isn't read.
    pub parameters: DmAny<'a>,
    /// The key, as its algorithm encodes it.
    pub public_key: DmBits<'a>,
    /// 1 if there are parameters, else 0.
    pub has_parameters: u32,
    /// 0.
    pub reserved: u32,
}

/// An RSA public key. Each number is the content octets of its INTEGER, in two's complement.
#[repr(C)]
#[derive(Clone, Copy)]
pub struct DmRsaPublicKey<'a> {
    pub modulus: &'a [u8],
    pub public_exponent: &'a [u8],
}

/// Writes an elliptic private key, or returns the fault.
pub fn write_ec<'a>(
    found: Result<EcPrivateKey<'a>, FieldError>,
    key: &mut DmEcPrivateKey<'a>,
) -> DmFault
    ensures { Written IsEcKey ec_fault found.entry key.old key.new result }
{
    match found {
        Ok(found) => {
            *key = ec_fields(&found);
            no_fault()
        }
        Err(e) => ec_fault(e),
    }
}

/// The C struct of an elliptic private key.
fn ec_fields<'a>(found: &EcPrivateKey<'a>) -> DmEcPrivateKey<'a>
    ensures { HasEcKey found.now result }
{
    DmEcPrivateKey {
        private_key: found.private_key,
        parameters: optional_any(found.parameters),
        public_key: optional_bits(found.public_key),
        version: found.version,
        has_parameters: bit(found.parameters.is_some()).into(),
    }
}

/// The fault of a field of an elliptic private key.
pub fn ec_fault(e: FieldError) -> DmFault
    ensures { result ≡ ec_fault e }
{
    let field = ec_field_number(only_name(e.names()));
    field_fault(field, e.refusal)
}

/// The number of the field with this name.
fn ec_field_number(name: &str) -> u32
    ensures { result ≡ ec_field_number name.now }
{
    if name == "version" {
        FIRST_EC_FIELD + 1
    } else if name == "privateKey" {
        FIRST_EC_FIELD + 2
    } else if name == "parameters" {
        FIRST_EC_FIELD + 3
    } else if name == "publicKey" {
        FIRST_EC_FIELD + 4
    } else {
        FIRST_EC_FIELD
    }
}

/// Writes an encrypted private key, or returns the fault.
pub fn write_encrypted<'a>(
    found: Result<EncryptedPrivateKeyInfo<'a>, FieldError>,
    key: &mut DmEncryptedPrivateKey<'a>,
) -> DmFault
    ensures { Written IsEncryptedKey encrypted_fault found.entry key.old key.new result }
{
    match found {
        Ok(found) => {
            *key = encrypted_fields(&found);
            no_fault()
        }
        Err(e) => encrypted_fault(e),
    }
}

/// The C struct of an encrypted private key.
fn encrypted_fields<'a>(found: &EncryptedPrivateKeyInfo<'a>) -> DmEncryptedPrivateKey<'a>
    ensures { HasEncryptedKey found.now result }
{
    DmEncryptedPrivateKey {
        algorithm: identifier_octets(found.algorithm.identifier),
        parameters: optional_any(found.algorithm.parameters),
        encrypted_data: found.encrypted_data,
        has_parameters: bit(found.algorithm.parameters.is_some()).into(),
        reserved: 0,
    }
}

/// The fault of a field of an encrypted private key.
pub fn encrypted_fault(e: FieldError) -> DmFault
    ensures { result ≡ encrypted_fault e }
{
    let field = encrypted_field_number(only_name(e.names()));
    field_fault(field, e.refusal)
}

/// The number of the field with this name.
fn encrypted_field_number(name: &str) -> u32
    ensures { result ≡ encrypted_field_number name.now }
{
    if name == "encryptionAlgorithm" {
        FIRST_ENCRYPTED_FIELD + 1
    } else if name == "encryptedData" {
        FIRST_ENCRYPTED_FIELD + 2
    } else {
        FIRST_ENCRYPTED_FIELD
    }
}

/// Writes a public key, or returns the fault.
pub fn write_public<'a>(
    found: Result<SubjectPublicKeyInfo<'a>, FieldError>,
    key: &mut DmPublicKey<'a>,
) -> DmFault
    ensures { Written IsPublicKey public_fault found.entry key.old key.new result }
{
    match found {
        Ok(found) => {
            *key = public_fields(&found);
            no_fault()
        }
        Err(e) => public_fault(e),
    }
}

/// The C struct of a public key.
fn public_fields<'a>(found: &SubjectPublicKeyInfo<'a>) -> DmPublicKey<'a>
    ensures { HasPublicKey found.now result }
{
    DmPublicKey {
        algorithm: identifier_octets(found.algorithm.identifier),
        parameters: optional_any(found.algorithm.parameters),
        public_key: bits(found.public_key),
        has_parameters: bit(found.algorithm.parameters.is_some()).into(),
        reserved: 0,
    }
}

/// The fault of a field of a public key.
pub fn public_fault(e: FieldError) -> DmFault
    ensures { result ≡ public_fault e }
{
    let field = public_field_number(only_name(e.names()));
    field_fault(field, e.refusal)
}

/// The number of the field with this name.
fn public_field_number(name: &str) -> u32
    ensures { result ≡ public_field_number name.now }
{
    if name == "algorithm" {
        FIRST_PUBLIC_FIELD + 1
    } else if name == "subjectPublicKey" {
        FIRST_PUBLIC_FIELD + 2
    } else {
        FIRST_PUBLIC_FIELD
    }
}

/// Writes an RSA public key, or returns the fault.
pub fn write_rsa_public<'a>(
    found: Result<RsaPublicKey<'a>, FieldError>,
    key: &mut DmRsaPublicKey<'a>,
) -> DmFault
    ensures { Written IsRsaPublicKey rsa_public_fault found.entry key.old key.new result }
{
    match found {
        Ok(found) => {
            *key = rsa_public_fields(&found);
            no_fault()
        }
        Err(e) => rsa_public_fault(e),
    }
}

/// The C struct of an RSA public key.
fn rsa_public_fields<'a>(found: &RsaPublicKey<'a>) -> DmRsaPublicKey<'a>
    ensures { HasRsaPublicKey found.now result }
{
    DmRsaPublicKey {
        modulus: found.modulus,
        public_exponent: found.public_exponent,
    }
}

/// The fault of a field of an RSA public key.
pub fn rsa_public_fault(e: FieldError) -> DmFault
    ensures { result ≡ rsa_public_fault e }
{
    let field = rsa_public_field_number(only_name(e.names()));
    field_fault(field, e.refusal)
}

/// The number of the field with this name.
fn rsa_public_field_number(name: &str) -> u32
    ensures { result ≡ rsa_public_field_number name.now }
{
    if name == "modulus" {
        FIRST_RSA_PUBLIC_FIELD + 1
    } else if name == "publicExponent" {
        FIRST_RSA_PUBLIC_FIELD + 2
    } else {
        FIRST_RSA_PUBLIC_FIELD
    }
}
