//! RSA keys (RFC 8017 A.1).
ghost use Rattle.std.specs.Prelude.{◌≡◌};
ghost use Rattle.der_print.specs.Values.{without_leading_zero};
ghost use Rattle.certificate_text.specs.RsaKeys.{bits_of, size_of};

use der_print::{Limit, Number};
use std::fmt;
use x509_keys::RsaPrivateKey;

/// The lines of the public numbers of a key.
#[derive(Clone, Copy)]
pub(crate) struct PublicNumbers<'a> {
    /// The content octets of the modulus.
    pub modulus: &'a [u8],
    /// The content octets of the public exponent.
    pub exponent: &'a [u8],
}

impl fmt::Display for PublicNumbers<'_> {
    ghost use Rattle.std.specs.Prelude.{Some};
    ghost use Rattle.certificate_text.specs.RsaKeys.{public_numbers_text};

    ghost output = { λ x. Some (public_numbers_text x.modulus.now x.exponent.now) };

    fn fmt<W: fmt::Write>(&self, f: &mut fmt::Formatter<W>) -> fmt::Result {
        let limit = Limit::Whole;
        let size = Size(self.modulus);
        let modulus = Number {
            octets: self.modulus,
            limit,
        };
        let exponent = Number {
            octets: self.exponent,
            limit,
        };
        write!(
            f,
            "{size}  Modulus: {modulus}\n  Public exponent: {exponent}\n"
        )
    }
}

/// The line of the size of a number.
#[derive(Clone, Copy)]
struct Size<'a>(&'a [u8]);

impl fmt::Display for Size<'_> {
    ghost use Rattle.std.specs.Prelude.{Some};
    ghost use Rattle.certificate_text.specs.RsaKeys.{size_text};

    ghost output = { λ x. Some (size_text x.0.now) };

    fn fmt<W: fmt::Write>(&self, f: &mut fmt::Formatter<W>) -> fmt::Result {
        let bits = size_of(self.0);
        write!(f, "  Size: {bits} bits\n")
    }
}

/// The number of bits of a number above 0, given its content octets.
fn size_of(octets: &[u8]) -> u128
    ensures { result ≡ size_of octets.now }
{
    bits_of(without_leading_zero(octets))
}

/// The number of bits from the highest 1 of the first octet on.
fn bits_of(octets: &[u8]) -> u128
    ensures { result ≡ bits_of octets.now }
{
    let [first, others @ ..] = octets else {
        return 0;
    };
    let highest = u8::BITS.saturating_sub(first.leading_zeros());
    u128::from(highest) + 8 * others.len() as u128
}

/// The octets without a leading zero before others.
fn without_leading_zero(octets: &[u8]) -> &[u8]
    ensures { result.now ≡ without_leading_zero octets.now }
{
    match octets {
        [0, others @ ..] if !others.is_empty() => others,
        _ => octets,
    }
}

/// The lines of a private key, without its secret numbers.
#[derive(Clone, Copy)]
pub(crate) struct PrivateNumbers<'r, 'a>(pub &'r RsaPrivateKey<'a>);

impl fmt::Display for PrivateNumbers<'_, '_> {
    ghost use Rattle.std.specs.Prelude.{Some};
    ghost use Rattle.certificate_text.specs.RsaKeys.{private_numbers_text};

    ghost output = { λ x. Some (private_numbers_text x.0.now) };

    fn fmt<W: fmt::Write>(&self, f: &mut fmt::Formatter<W>) -> fmt::Result {
        let key = self.0;
        let numbers = PublicNumbers {
            modulus: key.modulus,
            exponent: key.public_exponent,
        };
        if key.other_primes.is_some() {
            return write!(f, "{numbers}  Primes: more than 2\n");
        }
        write!(f, "{numbers}  Primes: 2\n")
    }
}

/// The lines of an RSA private key on its own (PKCS #1), without its secret numbers.
#[derive(Clone, Copy)]
pub struct RsaKeyText<'r, 'a> {
    pub key: &'r RsaPrivateKey<'a>,
}

impl fmt::Display for RsaKeyText<'_, '_> {
    ghost use Rattle.std.specs.Prelude.{Some};
    ghost use Rattle.certificate_text.specs.RsaKeys.{rsa_key_text};

    ghost output = { λ x. Some (rsa_key_text x.key.now) };

    fn fmt<W: fmt::Write>(&self, f: &mut fmt::Formatter<W>) -> fmt::Result {
        let numbers = PrivateNumbers(self.key);
        write!(f, "RSA private key (PKCS #1):\n{numbers}")
    }
}
