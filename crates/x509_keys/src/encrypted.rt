//! Encrypted private keys (RFC 5208 6, RFC 5958 3).
ghost use Rattle.x509.specs.Readers.{ReadsBy, ReadsExactly};
ghost use Rattle.x509_keys.specs.Fields.{key_fault};
ghost use Rattle.x509_keys.specs.OtherKeys.{encrypted_of, encrypted_private_key_info, whole_encrypted_key};

use crate::key::{Algorithm, read_algorithm};
use der_cursor::{Cursor, FieldError, Named};

/// An encrypted private key. Octets are slices of the input.
#[derive(Drop)]
pub struct EncryptedPrivateKeyInfo<'a> {
    /// The encryption algorithm.
    pub algorithm: Algorithm<'a>,
    pub encrypted_data: &'a [u8],
}

/// Reads an encrypted private key by DER. Trailing data is an error. Returns the first error, with its field.
/// Incomplete iff the input ends within the key.
pub fn read_encrypted_key(octets: &[u8]) -> Result<EncryptedPrivateKeyInfo<'_>, FieldError>
    ensures { ReadsExactly key_fault encrypted_of whole_encrypted_key octets.now result }
{
    let mut input = Cursor::new(octets);
    let key = read_fields(&mut input)?;
    input.end().named("EncryptedPrivateKeyInfo")?;
    Ok(key)
}

fn read_fields<'a>(input: &mut Cursor<'a>) -> Result<EncryptedPrivateKeyInfo<'a>, FieldError>
    ensures { ReadsBy key_fault encrypted_of encrypted_private_key_info input.old result input.new }
{
    let mut fields = input.open_sequence().named("EncryptedPrivateKeyInfo")?;
    let algorithm = read_algorithm(&mut fields).named("encryptionAlgorithm")?;
    let encrypted_data = fields.octets().named("encryptedData")?;
    fields.end().named("EncryptedPrivateKeyInfo")?;
    Ok(EncryptedPrivateKeyInfo {
        algorithm,
        encrypted_data,
    })
}
