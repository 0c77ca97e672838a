//! KeyUsage: what a key may be used for (RFC 5280 4.2.1.3).
ghost use Rattle.std.specs.Prelude.{◌≡◌, ◌↔◌, IsTrue};
ghost use Rattle.der_base.specs.declared.rules.Rules.{Rules};
ghost use Rattle.der_cursor.specs.Formats.{Never, Only, ReadsField, ReadsInput, ReadsWhole, Required};
ghost use Rattle.der_values.specs.Kinds.{is_bit_set};
ghost use Rattle.x509.specs.Certificates.{bits_of};
ghost use Rattle.der_extensions.specs.Extensions.{KeyUsage as UsageFormat, EndsInOne, usage_of};

use der_base::error::BerError;
use der_base::header::{Class, Tag};
use der_cursor::{Cursor, ReadError};
use der_values::BitString;

/// The value of the extension KeyUsage.
#[derive(Clone, Copy, PartialEq)]
pub struct KeyUsage<'a> {
    /// The named bits. A bit past the end isn't set.
    pub bits: BitString<'a>,
}

impl KeyUsage<'_> {
    /// Whether the key may verify signatures other than those of certificates and CRLs.
    pub fn digital_signature(&self) -> bool
        ensures { result ≡ is_bit_set 0 self.now.bits.octets.now }
    {
        self.bits.is_set(0)
    }

    /// Whether the key may verify signatures that bind the signer to what is signed. This bit is also named
    /// nonRepudiation.
    pub fn content_commitment(&self) -> bool
        ensures { result ≡ is_bit_set 1 self.now.bits.octets.now }
    {
        self.bits.is_set(1)
    }

    /// Whether the key may encipher keys.
    pub fn key_encipherment(&self) -> bool
        ensures { result ≡ is_bit_set 2 self.now.bits.octets.now }
    {
        self.bits.is_set(2)
    }

    /// Whether the key may encipher data other than keys.
    pub fn data_encipherment(&self) -> bool
        ensures { result ≡ is_bit_set 3 self.now.bits.octets.now }
    {
        self.bits.is_set(3)
    }

    /// Whether the key may be used for key agreement.
    pub fn key_agreement(&self) -> bool
        ensures { result ≡ is_bit_set 4 self.now.bits.octets.now }
    {
        self.bits.is_set(4)
    }

    /// Whether the key may verify signatures of certificates.
    pub fn key_cert_sign(&self) -> bool
        ensures { result ≡ is_bit_set 5 self.now.bits.octets.now }
    {
        self.bits.is_set(5)
    }

    /// Whether the key may verify signatures of CRLs.
    pub fn crl_sign(&self) -> bool
        ensures { result ≡ is_bit_set 6 self.now.bits.octets.now }
    {
        self.bits.is_set(6)
    }

    /// Whether a key from key agreement may only encipher data.
    pub fn encipher_only(&self) -> bool
        ensures { result ≡ is_bit_set 7 self.now.bits.octets.now }
    {
        self.bits.is_set(7)
    }

    /// Whether a key from key agreement may only decipher data.
    pub fn decipher_only(&self) -> bool
        ensures { result ≡ is_bit_set 8 self.now.bits.octets.now }
    {
        self.bits.is_set(8)
    }
}

/// Reads the value of a KeyUsage by DER. Trailing data is an error. So is a value without bits, or with a last bit of 0
/// (X.690 11.2.2).
pub fn read_key_usage(octets: &[u8]) -> Result<KeyUsage<'_>, ReadError<BerError>>
    ensures { ReadsInput Rules.Der UsageFormat usage_of Never octets.now result }
{
    match read_whole_usage(octets) {
        Ok(usage) => Ok(usage),
        Err(e) => Err(e.of_element(Cursor::new(octets), Class::Universal, false, Tag::BitString)),
    }
}

fn read_whole_usage(octets: &[u8]) -> Result<KeyUsage<'_>, ReadError<BerError>>
    ensures { ReadsWhole (Only (Required UsageFormat) Rules.Der octets.now) usage_of Never result }
{
    let mut input = Cursor::new(octets);
    let bits = read_named_bits(&mut input)?;
    input.end()?;
    Ok(KeyUsage { bits })
}

/// Reads a BIT STRING whose last bit is 1.
fn read_named_bits<'a>(input: &mut Cursor<'a>) -> Result<BitString<'a>, ReadError<BerError>>
    ensures { ReadsField (Required UsageFormat) bits_of Never input.old result input.new }
{
    let before = *input;
    let bits = input.bits()?;
    if !ends_in_one(bits) {
        return Err(before.refuse(BerError::BerValueError));
    }
    Ok(bits)
}

/// Whether there is a last bit and it is 1.
#[tactic(auto, using(std::proofs::lemmas::Nat::Bits::shr_and_one))]
pub(crate) fn ends_in_one(bits: BitString<'_>) -> bool
    ensures { IsTrue result ↔ EndsInOne (bits_of bits.entry) }
{
    match bits.octets.last() {
        Some(octet) if bits.unused < 8 => (*octet >> bits.unused) & 1 == 1,
        _ => false,
    }
}
