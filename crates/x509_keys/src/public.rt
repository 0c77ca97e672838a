//! Public keys (RFC 5280 4.1.2.7) and RSA public keys (RFC 8017 A.1.1).
ghost use Rattle.x509.specs.Readers.{ReadsBy, ReadsExactly};
ghost use Rattle.x509_keys.specs.Fields.{key_fault};
ghost use Rattle.x509_keys.specs.OtherKeys.{key_info_of, rsa_public_key, rsa_public_of, subject_public_key_info};
ghost use Rattle.x509_keys.specs.OtherKeys.{whole_public_key, whole_rsa_public_key};

use crate::key::{Algorithm, read_algorithm};
use der_cursor::{Cursor, FieldError, Named};
use der_values::BitString;

/// A public key. Octets are slices of the input.
#[derive(Drop)]
pub struct SubjectPublicKeyInfo<'a> {
    pub algorithm: Algorithm<'a>,
    /// The key, as its algorithm encodes it.
    pub public_key: BitString<'a>,
}

/// An RSA public key. Each number is the content octets of its INTEGER, in two's complement (X.690 8.3.3).
#[derive(Drop)]
pub struct RsaPublicKey<'a> {
    pub modulus: &'a [u8],
    pub public_exponent: &'a [u8],
}

/// Reads a public key by DER. Trailing data is an error. Returns the first error, with its field. Incomplete iff the
/// input ends within the key.
pub fn read_public_key(octets: &[u8]) -> Result<SubjectPublicKeyInfo<'_>, FieldError>
    ensures { ReadsExactly key_fault key_info_of whole_public_key octets.now result }
{
    let mut input = Cursor::new(octets);
    let key = read_fields(&mut input)?;
    input.end().named("SubjectPublicKeyInfo")?;
    Ok(key)
}

fn read_fields<'a>(input: &mut Cursor<'a>) -> Result<SubjectPublicKeyInfo<'a>, FieldError>
    ensures { ReadsBy key_fault key_info_of subject_public_key_info input.old result input.new }
{
    let mut fields = input.open_sequence().named("SubjectPublicKeyInfo")?;
    let algorithm = read_algorithm(&mut fields).named("algorithm")?;
    let public_key = fields.bits().named("subjectPublicKey")?;
    fields.end().named("SubjectPublicKeyInfo")?;
    Ok(SubjectPublicKeyInfo {
        algorithm,
        public_key,
    })
}

/// Reads an RSA public key by DER, as `read_public_key`.
pub fn read_rsa_public_key(octets: &[u8]) -> Result<RsaPublicKey<'_>, FieldError>
    ensures { ReadsExactly key_fault rsa_public_of whole_rsa_public_key octets.now result }
{
    let mut input = Cursor::new(octets);
    let key = read_numbers(&mut input)?;
    input.end().named("RSAPublicKey")?;
    Ok(key)
}

fn read_numbers<'a>(input: &mut Cursor<'a>) -> Result<RsaPublicKey<'a>, FieldError>
    ensures { ReadsBy key_fault rsa_public_of rsa_public_key input.old result input.new }
{
    let mut numbers = input.open_sequence().named("RSAPublicKey")?;
    let modulus = numbers.integer().named("modulus")?;
    let public_exponent = numbers.integer().named("publicExponent")?;
    numbers.end().named("RSAPublicKey")?;
    Ok(RsaPublicKey {
        modulus,
        public_exponent,
    })
}
