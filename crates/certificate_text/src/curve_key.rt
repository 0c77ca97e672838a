//! Keys of elliptic curves (SEC 1 C.4, RFC 5915).
ghost use Rattle.std.specs.Prelude.{◌≡◌, Some};
ghost use Rattle.std.specs.Fmt.{DisplaysOnOk};
ghost use Rattle.std.specs.Option.{option_copied, option_map};
ghost use Rattle.certificate_text.specs.CurveKeys.{IsCurveKey, key_octets, public_text};
ghost use Rattle.x509_keys.specs.Keys.{bits_of};

use crate::algorithm::ParametersText;
use der_values::BitString;
use std::fmt;
use type_words::{Count, digits};
use x509_keys::EcPrivateKey;

/// The lines of an elliptic private key, without its private number.
#[derive(Clone, Copy)]
pub(crate) struct CurveFields<'a> {
    parameters: ParametersText<'a>,
    /// The number of octets of the key.
    size: usize,
    public_key: Option<&'a [u8]>,
}

impl<'a> CurveFields<'a> {
    pub(crate) fn of(key: &EcPrivateKey<'a>) -> CurveFields<'a>
        ensures { IsCurveKey key.now result }
    {
        CurveFields {
            parameters: ParametersText::of(key.parameters),
            size: key.private_key.len(),
            public_key: octets_of(key.public_key),
        }
    }
}

/// The octets of a BIT STRING, if there is one.
pub(crate) fn octets_of(bits: Option<BitString<'_>>) -> Option<&[u8]>
    ensures { option_copied result ≡ key_octets (option_map bits_of bits.entry) }
{
    match bits {
        Some(bits) => Some(bits.octets),
        None => None,
    }
}

impl fmt::Display for CurveFields<'_> {
    ghost use Rattle.std.specs.Prelude.{Some};
    ghost use Rattle.certificate_text.specs.CurveKeys.{curve_fields_text};

    ghost output = { λ x. Some (curve_fields_text x) };

    fn fmt<W: fmt::Write>(&self, f: &mut fmt::Formatter<W>) -> fmt::Result {
        let parameters = self.parameters;
        let count = Count(self.size);
        write!(f, "{parameters}  Private key: {count}\n")?;
        write_public(f, self.public_key)
    }
}

/// Writes the line of a public key, if there is one.
pub(crate) fn write_public<W: fmt::Write>(
    f: &mut fmt::Formatter<W>,
    public_key: Option<&[u8]>,
) -> fmt::Result
    ensures { DisplaysOnOk W.Write.write_str_gives f.old result
        (Some (public_text (option_copied public_key.entry))) f.new }
{
    match public_key {
        Some(octets) => {
            let hex = digits(octets);
            write!(f, "  Public key: {hex}\n")
        }
        None => Ok(()),
    }
}

/// The lines of an elliptic private key on its own (SEC 1), without its private number.
#[derive(Clone, Copy)]
pub struct EcKeyText<'a> {
    fields: CurveFields<'a>,
}

impl<'a> EcKeyText<'a> {
    /// The text of a key.
    pub fn of(key: &EcPrivateKey<'a>) -> EcKeyText<'a>
        ensures { IsCurveKey key.now result.fields }
    {
        EcKeyText {
            fields: CurveFields::of(key),
        }
    }
}

impl fmt::Display for EcKeyText<'_> {
    ghost use Rattle.std.specs.Prelude.{Some};
    ghost use Rattle.certificate_text.specs.CurveKeys.{ec_key_text};

    ghost output = { λ x. Some (ec_key_text x) };

    fn fmt<W: fmt::Write>(&self, f: &mut fmt::Formatter<W>) -> fmt::Result {
        let fields = self.fields;
        write!(f, "EC private key (SEC 1):\n{fields}")
    }
}
