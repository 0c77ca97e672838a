//! Private keys (PKCS #8: RFC 5208 5, RFC 5958 2).
ghost use Rattle.std.specs.Prelude.{◌≡◌, Some};
ghost use Rattle.std.specs.Fmt.{DisplaysOnOk};
ghost use Rattle.std.specs.Option.{option_map};
ghost use Rattle.certificate_text.specs.PrivateKeys.{Finds, IsInside, IsPrivateKey, attributes_size, attributes_text};
ghost use Rattle.x509_keys.specs.Keys.{rsa_of, whole_rsa_key};
ghost use Rattle.x509_keys.specs.OtherKeys.{ec_of, whole_ec_key};

use crate::algorithm::AlgorithmText;
use crate::curve_key::{CurveFields, octets_of, write_public};
use crate::rsa::PrivateNumbers;
use std::fmt;
use type_words::Count;
use x509_keys::{
    EcPrivateKey, PrivateKeyInfo, RsaPrivateKey, read_ec_private_key, read_rsa_private_key,
};

/// rsaEncryption: 1.2.840.113549.1.1.1 (RFC 8017 A.1).
pub(crate) const RSA: &[u8] = b"\x2a\x86\x48\x86\xf7\x0d\x01\x01\x01";

/// id-ecPublicKey: 1.2.840.10045.2.1 (RFC 5480 2.1.1).
const CURVE: &[u8] = b"\x2a\x86\x48\xce\x3d\x02\x01";

/// The key in the octets of a private key, by its algorithm.
#[derive(Drop)]
pub(crate) enum Inside<'a> {
    Rsa(RsaPrivateKey<'a>),
    Curve(CurveFields<'a>),
    /// Octets of another form, by their number.
    Other(usize),
}

impl<'a> Inside<'a> {
    /// Reads the octets of a private key, by the identifier of its algorithm.
    fn of(identifier: &[u8], octets: &'a [u8]) -> Inside<'a>
        ensures { IsInside identifier.now octets.now result }
    {
        if identifier == RSA {
            return Inside::of_rsa(octets);
        }
        if identifier == CURVE {
            return Inside::of_curve(octets);
        }
        Inside::Other(octets.len())
    }
}

impl<'a> Inside<'a> {
    ghost use Rattle.certificate_text.specs.PrivateKeys.{IsCurveInside, IsRsaInside};

    /// Reads an RSA key, if the octets are one.
    fn of_rsa(octets: &'a [u8]) -> Inside<'a>
        ensures { IsRsaInside octets.now result }
    {
        match find_rsa_key(octets) {
            Some(key) => Inside::Rsa(key),
            None => Inside::Other(octets.len()),
        }
    }

    /// Reads an elliptic key, if the octets are one.
    fn of_curve(octets: &'a [u8]) -> Inside<'a>
        ensures { IsCurveInside octets.now result }
    {
        match find_curve_key(octets) {
            Some(key) => Inside::Curve(CurveFields::of(&key)),
            None => Inside::Other(octets.len()),
        }
    }
}

/// Reads an RSA key, if the octets are one.
fn find_rsa_key(octets: &[u8]) -> Option<RsaPrivateKey<'_>>
    ensures { Finds whole_rsa_key octets.now (option_map rsa_of result) }
{
    match read_rsa_private_key(octets) {
        Ok(key) => Some(key),
        Err(_) => None,
    }
}

/// Reads an elliptic key, if the octets are one.
fn find_curve_key(octets: &[u8]) -> Option<EcPrivateKey<'_>>
    ensures { Finds whole_ec_key octets.now (option_map ec_of result) }
{
    match read_ec_private_key(octets) {
        Ok(key) => Some(key),
        Err(_) => None,
    }
}

impl fmt::Display for Inside<'_> {
    ghost use Rattle.std.specs.Prelude.{Some};
    ghost use Rattle.certificate_text.specs.PrivateKeys.{inside_text};

    ghost output = { λ x. Some (inside_text x) };

    fn fmt<W: fmt::Write>(&self, f: &mut fmt::Formatter<W>) -> fmt::Result {
        match self {
            Inside::Rsa(key) => {
                let numbers = PrivateNumbers(key);
                write!(f, "{numbers}")
            }
            Inside::Curve(fields) => write!(f, "{fields}"),
            Inside::Other(number) => {
                let count = Count(*number);
                write!(f, "  Private key: {count}\n")
            }
        }
    }
}

/// The lines of a private key, without its secret numbers.
#[derive(Drop)]
pub struct PrivateKeyText<'a> {
    version: u32,
    algorithm: AlgorithmText<'a>,
    inside: Inside<'a>,
    /// The number of octets of the attributes.
    attributes: Option<usize>,
    public_key: Option<&'a [u8]>,
}

impl<'a> PrivateKeyText<'a> {
    /// The text of a key.
    pub fn of(key: &PrivateKeyInfo<'a>) -> PrivateKeyText<'a>
        ensures { IsPrivateKey key.now result }
    {
        PrivateKeyText {
            version: key.version,
            algorithm: AlgorithmText::of(&key.algorithm),
            inside: Inside::of(key.algorithm.identifier.as_bytes(), key.private_key),
            attributes: size_of(key),
            public_key: octets_of(key.public_key),
        }
    }
}

/// The number of octets of a key's attributes.
fn size_of(key: &PrivateKeyInfo<'_>) -> Option<usize>
    ensures { result ≡ attributes_size key.now.attributes }
{
    match key.attributes {
        Some(attributes) => Some(attributes.remaining().len()),
        None => None,
    }
}

impl fmt::Display for PrivateKeyText<'_> {
    ghost use Rattle.std.specs.Prelude.{Some};
    ghost use Rattle.certificate_text.specs.PrivateKeys.{private_key_text};

    ghost output = { λ x. Some (private_key_text x) };

    fn fmt<W: fmt::Write>(&self, f: &mut fmt::Formatter<W>) -> fmt::Result {
        let version = self.version;
        let algorithm = self.algorithm;
        let inside = &self.inside;
        write!(
            f,
            "Private key (PKCS #8):\n  Version: {version}\n{algorithm}{inside}"
        )?;
        write_attributes(f, self.attributes)?;
        write_public(f, self.public_key)
    }
}

/// Writes the line of attributes, if there are any.
fn write_attributes<W: fmt::Write>(
    f: &mut fmt::Formatter<W>,
    attributes: Option<usize>,
) -> fmt::Result
    ensures { DisplaysOnOk W.Write.write_str_gives f.old result (Some (attributes_text attributes)) f.new }
{
    match attributes {
        Some(number) => {
            let count = Count(number);
            write!(f, "  Attributes: {count}\n")
        }
        None => Ok(()),
    }
}
