//! Private keys (RFC 5208 5, RFC 5958 2).
ghost use Rattle.std.specs.Prelude.{◌≡◌, ◌≢◌, [], pos};
ghost use Rattle.std.specs.Option.{option_map};
ghost use Rattle.der_base.specs.declared.rules.Rules.{Rules};
ghost use Rattle.der_cursor.specs.Elements.{element_of};
ghost use Rattle.der_values.specs.Kinds.{bit_strings};
ghost use Rattle.x509.specs.Formats.{any, optional_implicit};
ghost use Rattle.x509.specs.Readers.{ReadsBy, ReadsExactly, fault_of};
ghost use Rattle.x509_keys.specs.Fields.{key_fault, optional};
ghost use Rattle.x509_keys.specs.Keys.{algorithm_identifier, algorithm_of, bits_of, key_of, private_key_info};
ghost use Rattle.x509_keys.specs.Keys.{version, version_with, whole_key};

use der_base::any::Any;
use der_base::error::BerError;
use der_cursor::{Cursor, FieldError, Named, ReadError};
use der_values::{BitString, ObjectIdentifier};

/// A private key. Octets are slices of the input.
#[derive(Drop)]
pub struct PrivateKeyInfo<'a> {
    /// 0 for version 1, and 1 for version 2, which has a public key.
    pub version: u32,
    pub algorithm: Algorithm<'a>,
    /// The key, as its algorithm encodes it.
    pub private_key: &'a [u8],
    /// The attributes, which aren't read.
    pub attributes: Option<Cursor<'a>>,
    pub public_key: Option<BitString<'a>>,
}

/// The algorithm of a key (RFC 5280 4.1.1.2).
#[derive(Drop)]
pub struct Algorithm<'a> {
    pub identifier: ObjectIdentifier<'a>,
    /// The parameters, of any type.
    pub parameters: Option<Any<'a>>,
}

/// Reads a private key by DER. Trailing data is an error. The version is 1 if there is a public key, else 0 (RFC 5958
/// 2). Returns the first error, with its field; the version is checked last. Incomplete iff the input ends within the
/// key.
pub fn read_private_key(octets: &[u8]) -> Result<PrivateKeyInfo<'_>, FieldError>
    ensures { ReadsExactly key_fault key_of whole_key octets.now result }
{
    let mut input = Cursor::new(octets);
    let key = read_fields(&mut input)?;
    input.end().named("PrivateKeyInfo")?;
    Ok(key)
}

fn read_fields<'a>(input: &mut Cursor<'a>) -> Result<PrivateKeyInfo<'a>, FieldError>
    ensures { ReadsBy key_fault key_of private_key_info input.old result input.new }
{
    let mut fields = input.open_sequence().named("PrivateKeyInfo")?;
    let first = fields;
    let version = read_version(&mut fields).named("version")?;
    let algorithm = read_algorithm(&mut fields).named("privateKeyAlgorithm")?;
    let private_key = fields.octets().named("privateKey")?;
    let attributes = fields.open_tagged(0).named("attributes")?;
    let public_key = read_public_key(&mut fields).named("publicKey")?;
    fields.end().named("PrivateKeyInfo")?;
    if version != version_of(public_key.is_some()) {
        return Err(first.refuse(BerError::BerValueError)).named("version");
    }
    Ok(PrivateKeyInfo {
        version,
        algorithm,
        private_key,
        attributes,
        public_key,
    })
}

/// The version: 1 if the key has the part that version 1 adds, a public key or further primes.
pub(crate) fn version_of(further: bool) -> u32
    ensures { result ≡ version_with further }
{
    u32::from(further)
}

/// Reads a version, which is 0 or 1.
pub(crate) fn read_version(fields: &mut Cursor<'_>) -> Result<u32, ReadError<BerError>>
    ensures { ReadsBy fault_of pos version fields.old result fields.new }
{
    let before = *fields;
    let version = fields.u32()?;
    if version > 1 {
        return Err(before.refuse(BerError::BerValueError));
    }
    Ok(version)
}

/// Reads an algorithm and its parameters.
pub(crate) fn read_algorithm<'a>(
    fields: &mut Cursor<'a>,
) -> Result<Algorithm<'a>, ReadError<BerError>>
    ensures { ReadsBy fault_of algorithm_of algorithm_identifier fields.old result fields.new }
{
    let mut inside = fields.open_sequence()?;
    let identifier = inside.oid()?;
    let parameters = read_parameters(&mut inside)?;
    inside.end()?;
    Ok(Algorithm {
        identifier,
        parameters,
    })
}

fn read_public_key<'a>(
    fields: &mut Cursor<'a>,
) -> Result<Option<BitString<'a>>, ReadError<BerError>>
    ensures { ReadsBy fault_of (option_map bits_of) (optional_implicit 1 (bit_strings Rules.Der))
        fields.old result fields.new }
{
    fields.implicit(1).optional_bits()
}

fn read_parameters<'a>(inside: &mut Cursor<'a>) -> Result<Option<Any<'a>>, ReadError<BerError>>
    ensures { ReadsBy fault_of (option_map element_of) (optional (λ i. i ≢ []) any) inside.old result inside.new }
{
    if inside.is_empty() {
        return Ok(None);
    }
    Ok(Some(inside.any()?))
}
