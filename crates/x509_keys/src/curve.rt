//! Private keys of elliptic curves (SEC 1 C.4, RFC 5915 3).
ghost use Rattle.std.specs.Option.{option_map};
ghost use Rattle.std.specs.Prelude.{pos};
ghost use Rattle.der_cursor.specs.Elements.{element_of};
ghost use Rattle.x509.specs.Formats.{any};
ghost use Rattle.x509.specs.Readers.{ReadsBy, ReadsExactly, ReadsToEnd, fault_of};
ghost use Rattle.x509_keys.specs.Fields.{alone, key_fault, optional_explicit};
ghost use Rattle.x509_keys.specs.Keys.{bits_of};
ghost use Rattle.x509_keys.specs.OtherKeys.{bit_string, ec_of, ec_private_key, ec_version, whole_ec_key};

use der_base::any::Any;
use der_base::error::BerError;
use der_cursor::{Cursor, FieldError, Named, ReadError};
use der_values::BitString;

/// The only version.
const VERSION: u32 = 1;

/// A private key of an elliptic curve. Octets are slices of the input.
#[derive(Drop)]
pub struct EcPrivateKey<'a> {
    /// Always 1.
    pub version: u32,
    /// The private number, in as many octets as the order of the curve has.
    pub private_key: &'a [u8],
    /// The curve: its identifier (RFC 5480 2.1.1) or any other element.
    pub parameters: Option<Any<'a>>,
    pub public_key: Option<BitString<'a>>,
}

/// Reads a private key of an elliptic curve by DER. Trailing data is an error. Returns the first error, with its field.
/// Incomplete iff the input ends within the key.
pub fn read_ec_private_key(octets: &[u8]) -> Result<EcPrivateKey<'_>, FieldError>
    ensures { ReadsExactly key_fault ec_of whole_ec_key octets.now result }
{
    let mut input = Cursor::new(octets);
    let key = read_fields(&mut input)?;
    input.end().named("ECPrivateKey")?;
    Ok(key)
}

fn read_fields<'a>(input: &mut Cursor<'a>) -> Result<EcPrivateKey<'a>, FieldError>
    ensures { ReadsBy key_fault ec_of ec_private_key input.old result input.new }
{
    let mut fields = input.open_sequence().named("ECPrivateKey")?;
    let version = read_version(&mut fields).named("version")?;
    let private_key = fields.octets().named("privateKey")?;
    let parameters = read_parameters(&mut fields).named("parameters")?;
    let public_key = read_public_key(&mut fields).named("publicKey")?;
    fields.end().named("ECPrivateKey")?;
    Ok(EcPrivateKey {
        version,
        private_key,
        parameters,
        public_key,
    })
}

/// Reads the version, which is 1.
fn read_version(fields: &mut Cursor<'_>) -> Result<u32, ReadError<BerError>>
    ensures { ReadsBy fault_of pos ec_version fields.old result fields.new }
{
    let before = *fields;
    let version = fields.u32()?;
    if version != VERSION {
        return Err(before.refuse(BerError::BerValueError));
    }
    Ok(version)
}

fn read_parameters<'a>(fields: &mut Cursor<'a>) -> Result<Option<Any<'a>>, ReadError<BerError>>
    ensures { ReadsBy fault_of (option_map element_of) (optional_explicit 0 any) fields.old result fields.new }
{
    match fields.open_tagged(0)? {
        Some(field) => Ok(Some(read_last_element(field)?)),
        None => Ok(None),
    }
}

fn read_last_element<'a>(mut field: Cursor<'a>) -> Result<Any<'a>, ReadError<BerError>>
    ensures { ReadsToEnd fault_of element_of (alone any) field.entry result }
{
    let element = field.any()?;
    field.end()?;
    Ok(element)
}

fn read_public_key<'a>(
    fields: &mut Cursor<'a>,
) -> Result<Option<BitString<'a>>, ReadError<BerError>>
    ensures { ReadsBy fault_of (option_map bits_of) (optional_explicit 1 bit_string) fields.old result fields.new }
{
    match fields.open_tagged(1)? {
        Some(field) => Ok(Some(read_last_bits(field)?)),
        None => Ok(None),
    }
}

fn read_last_bits<'a>(mut field: Cursor<'a>) -> Result<BitString<'a>, ReadError<BerError>>
    ensures { ReadsToEnd fault_of bits_of (alone bit_string) field.entry result }
{
    let bits = field.bits()?;
    field.end()?;
    Ok(bits)
}
