//! RSA private keys (RFC 8017 A.1.2).
ghost use Rattle.std.specs.Option.{option_map};
ghost use Rattle.der_base.specs.declared.header.Class.{Class};
ghost use Rattle.der_cursor.specs.Cursors.{octets_left};
ghost use Rattle.der_cursor.specs.Elements.{IsNext};
ghost use Rattle.x509.specs.Formats.{done, sequence};
ghost use Rattle.x509.specs.Readers.{ReadsBy, ReadsExactly, fault_of};
ghost use Rattle.x509_keys.specs.Fields.{key_fault, optional};
ghost use Rattle.x509_keys.specs.Keys.{rsa_exponents, rsa_exponents_of, rsa_of, rsa_primes, rsa_primes_of};
ghost use Rattle.x509_keys.specs.Keys.{rsa_private_key, whole_rsa_key};

use crate::key::{read_version, version_of};
use der_base::error::BerError;
use der_base::header::{Class, Tag};
use der_cursor::{Cursor, FieldError, Named, ReadError};

/// An RSA private key. Each number is the content octets of its INTEGER, in two's complement (X.690 8.3.3).
#[derive(Drop)]
pub struct RsaPrivateKey<'a> {
    /// 0 for two primes, 1 for more.
    pub version: u32,
    pub modulus: &'a [u8],
    pub public_exponent: &'a [u8],
    pub private_exponent: &'a [u8],
    pub prime1: &'a [u8],
    pub prime2: &'a [u8],
    pub exponent1: &'a [u8],
    pub exponent2: &'a [u8],
    pub coefficient: &'a [u8],
    /// The further primes, which aren't read.
    pub other_primes: Option<Cursor<'a>>,
}

/// The modulus and the exponents of a key.
#[derive(Clone, Copy)]
pub(crate) struct RsaExponents<'a> {
    pub modulus: &'a [u8],
    pub public_exponent: &'a [u8],
    pub private_exponent: &'a [u8],
}

/// The first two primes, and the numbers computed from them.
#[derive(Clone, Copy)]
pub(crate) struct RsaPrimes<'a> {
    pub prime1: &'a [u8],
    pub prime2: &'a [u8],
    pub exponent1: &'a [u8],
    pub exponent2: &'a [u8],
    pub coefficient: &'a [u8],
}

/// Reads an RSA private key by DER. Trailing data is an error. The version is 1 if there are further primes, else 0.
/// Returns the first error, with its field; the version is checked last. Incomplete iff the input ends within the key.
pub fn read_rsa_private_key(octets: &[u8]) -> Result<RsaPrivateKey<'_>, FieldError>
    ensures { ReadsExactly key_fault rsa_of whole_rsa_key octets.now result }
{
    let mut input = Cursor::new(octets);
    let key = read_numbers(&mut input)?;
    input.end().named("RSAPrivateKey")?;
    Ok(key)
}

fn read_numbers<'a>(input: &mut Cursor<'a>) -> Result<RsaPrivateKey<'a>, FieldError>
    ensures { ReadsBy key_fault rsa_of rsa_private_key input.old result input.new }
{
    let mut numbers = input.open_sequence().named("RSAPrivateKey")?;
    let first = numbers;
    let version = read_version(&mut numbers).named("version")?;
    let exponents = read_exponents(&mut numbers)?;
    let primes = read_primes(&mut numbers)?;
    let other_primes = open_other_primes(&mut numbers).named("otherPrimeInfos")?;
    numbers.end().named("RSAPrivateKey")?;
    if version != version_of(other_primes.is_some()) {
        return Err(first.refuse(BerError::BerValueError)).named("version");
    }
    Ok(RsaPrivateKey {
        version,
        modulus: exponents.modulus,
        public_exponent: exponents.public_exponent,
        private_exponent: exponents.private_exponent,
        prime1: primes.prime1,
        prime2: primes.prime2,
        exponent1: primes.exponent1,
        exponent2: primes.exponent2,
        coefficient: primes.coefficient,
        other_primes,
    })
}

/// Reads the modulus and the exponents of the key.
fn read_exponents<'a>(numbers: &mut Cursor<'a>) -> Result<RsaExponents<'a>, FieldError>
    ensures { ReadsBy key_fault rsa_exponents_of (rsa_exponents (λ x. done x)) numbers.old result numbers.new }
{
    let modulus = numbers.integer().named("modulus")?;
    let public_exponent = numbers.integer().named("publicExponent")?;
    let private_exponent = numbers.integer().named("privateExponent")?;
    Ok(RsaExponents {
        modulus,
        public_exponent,
        private_exponent,
    })
}

/// Reads the first two primes, and the numbers computed from them.
fn read_primes<'a>(numbers: &mut Cursor<'a>) -> Result<RsaPrimes<'a>, FieldError>
    ensures { ReadsBy key_fault rsa_primes_of (rsa_primes (λ x. done x)) numbers.old result numbers.new }
{
    let prime1 = numbers.integer().named("prime1")?;
    let prime2 = numbers.integer().named("prime2")?;
    let exponent1 = numbers.integer().named("exponent1")?;
    let exponent2 = numbers.integer().named("exponent2")?;
    let coefficient = numbers.integer().named("coefficient")?;
    Ok(RsaPrimes {
        prime1,
        prime2,
        exponent1,
        exponent2,
        coefficient,
    })
}

fn open_other_primes<'a>(
    numbers: &mut Cursor<'a>,
) -> Result<Option<Cursor<'a>>, ReadError<BerError>>
    ensures { ReadsBy fault_of (option_map octets_left) (optional (IsNext Class.Universal 16) sequence)
        numbers.old result numbers.new }
{
    if numbers.is_next(Class::Universal, Tag::Sequence) {
        return Ok(Some(numbers.open_sequence()?));
    }
    Ok(None)
}
