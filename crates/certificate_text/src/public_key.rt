//! Public keys (RFC 5280 4.1.2.7).
ghost use Rattle.std.specs.Option.{option_map};
ghost use Rattle.certificate_text.specs.PrivateKeys.{Finds};
ghost use Rattle.certificate_text.specs.PublicKeys.{IsPublicInside, IsPublicKey};
ghost use Rattle.x509_keys.specs.OtherKeys.{rsa_public_of, whole_rsa_public_key};

use crate::algorithm::AlgorithmText;
use crate::private_key::RSA;
use crate::rsa::PublicNumbers;
use std::fmt;
use type_words::digits;
use x509_keys::{RsaPublicKey, SubjectPublicKeyInfo, read_rsa_public_key};

/// The key in the bits of a public key, by its algorithm.
#[derive(Clone, Copy)]
pub(crate) enum PublicInside<'a> {
    Rsa(PublicNumbers<'a>),
    /// Octets of another form.
    Other(&'a [u8]),
}

impl<'a> PublicInside<'a> {
    /// Reads the octets of a public key, by the identifier of its algorithm.
    fn of(identifier: &[u8], octets: &'a [u8]) -> PublicInside<'a>
        ensures { IsPublicInside identifier.now octets.now result }
    {
        if identifier != RSA {
            return PublicInside::Other(octets);
        }
        match find_rsa_key(octets) {
            Some(key) => PublicInside::Rsa(PublicNumbers {
                modulus: key.modulus,
                exponent: key.public_exponent,
            }),
            None => PublicInside::Other(octets),
        }
    }
}

/// Reads an RSA key, if the octets are one.
fn find_rsa_key(octets: &[u8]) -> Option<RsaPublicKey<'_>>
    ensures { Finds whole_rsa_public_key octets.now (option_map rsa_public_of result) }
{
    match read_rsa_public_key(octets) {
        Ok(key) => Some(key),
        Err(_) => None,
    }
}

impl fmt::Display for PublicInside<'_> {
    ghost use Rattle.std.specs.Prelude.{Some};
    ghost use Rattle.certificate_text.specs.PublicKeys.{public_inside_text};

    ghost output = { λ x. Some (public_inside_text x) };

    fn fmt<W: fmt::Write>(&self, f: &mut fmt::Formatter<W>) -> fmt::Result {
        match self {
            PublicInside::Rsa(numbers) => write!(f, "{numbers}"),
            PublicInside::Other(octets) => {
                let hex = digits(octets);
                write!(f, "  Public key: {hex}\n")
            }
        }
    }
}

/// The lines of a public key.
#[derive(Clone, Copy)]
pub struct PublicKeyText<'a> {
    algorithm: AlgorithmText<'a>,
    inside: PublicInside<'a>,
}

impl<'a> PublicKeyText<'a> {
    /// The text of a key.
    pub fn of(key: &SubjectPublicKeyInfo<'a>) -> PublicKeyText<'a>
        ensures { IsPublicKey key.now result }
    {
        PublicKeyText {
            algorithm: AlgorithmText::of(&key.algorithm),
            inside: PublicInside::of(key.algorithm.identifier.as_bytes(), key.public_key.octets),
        }
    }
}

impl fmt::Display for PublicKeyText<'_> {
    ghost use Rattle.std.specs.Prelude.{Some};
    ghost use Rattle.certificate_text.specs.PublicKeys.{public_key_text};

    ghost output = { λ x. Some (public_key_text x) };

    fn fmt<W: fmt::Write>(&self, f: &mut fmt::Formatter<W>) -> fmt::Result {
        let algorithm = self.algorithm;
        let inside = self.inside;
        write!(f, "Public key:\n{algorithm}{inside}")
    }
}
