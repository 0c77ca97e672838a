//! Public keys (RFC 5280 4.1.2.7).
ghost use Rattle.std.specs.Prelude.{◌≡◌, ◌↔◌, IsTrue, Some};
ghost use Rattle.std.specs.Fmt.{DisplaysOnOk};
ghost use Rattle.der_base.specs.declared.rules.Rules.{Rules};
ghost use Rattle.der_cursor.specs.Formats.{Never, ObjectIdentifier as IdentifierFormat, Only, ReadsWhole, Required};
ghost use Rattle.der_print.specs.Writes.{WritesOne};
ghost use Rattle.der_values.specs.Kinds.{borrowed_octets};
ghost use Rattle.x509.specs.Certificates.{key_info_of};
ghost use Rattle.certificate_text.specs.Keys.{IsCurve, IsDetail, IsKey, IsSize, bit_length, ec_public_key};
ghost use Rattle.certificate_text.specs.Keys.{label_by, parameters_label, rsa_encryption, size_text};

use der_base::error::BerError;
use der_cursor::{Cursor, ReadError};
use der_values::ObjectIdentifier;
use extension_text::names::identifier::write_identifier_line;
use extension_text::names::lines::write_octets;
use extension_text::names::serial::without_leading_zero;
use std::fmt;
use type_words::Count;
use x509::{SubjectPublicKeyInfo, absolute_octets};
use x509_keys::read_rsa_public_key;

/// rsaEncryption: 1.2.840.113549.1.1.1.
const RSA: &[u8] = b"\x2a\x86\x48\x86\xf7\x0d\x01\x01\x01";

/// id-ecPublicKey: 1.2.840.10045.2.1.
const ELLIPTIC: &[u8] = b"\x2a\x86\x48\xce\x3d\x02\x01";

/// Writes the algorithm of a key, and the size or the curve.
pub(crate) fn write_key<W: fmt::Write>(
    f: &mut fmt::Formatter<W>,
    key: &SubjectPublicKeyInfo<'_>,
) -> fmt::Result
    ensures { WritesOne W.Write.write_str_gives f.old result (IsKey (key_info_of key.now)) f.new }
{
    write_identifier_line(f, "  Public key: ", &key.algorithm.algorithm)?;
    write_detail(f, key)
}

/// Writes the size of an RSA key, the curve of an elliptic key, or the number of octets of any other.
fn write_detail<W: fmt::Write>(
    f: &mut fmt::Formatter<W>,
    key: &SubjectPublicKeyInfo<'_>,
) -> fmt::Result
    ensures { WritesOne W.Write.write_str_gives f.old result (IsDetail (key_info_of key.now)) f.new }
{
    if is_rsa(&key.algorithm.algorithm) {
        return write_size(f, key.subject_public_key.octets);
    }
    if is_elliptic(&key.algorithm.algorithm) {
        return write_curve(f, key.algorithm.parameters);
    }
    let count = Count(key.subject_public_key.octets.len());
    write!(f, "    Size: {count}\n")
}

fn is_rsa(algorithm: &ObjectIdentifier<'_>) -> bool
    ensures { IsTrue result ↔ (borrowed_octets algorithm.now ≡ rsa_encryption) }
{
    absolute_octets(algorithm) == RSA
}

fn is_elliptic(algorithm: &ObjectIdentifier<'_>) -> bool
    ensures { IsTrue result ↔ (borrowed_octets algorithm.now ≡ ec_public_key) }
{
    absolute_octets(algorithm) == ELLIPTIC
}

/// Writes the number of bits of an RSA modulus, or octets that aren't a key.
fn write_size<W: fmt::Write>(f: &mut fmt::Formatter<W>, octets: &[u8]) -> fmt::Result
    ensures { WritesOne W.Write.write_str_gives f.old result (IsSize octets.now) f.new }
{
    match read_rsa_public_key(octets) {
        Ok(key) => write_bits(f, key.modulus),
        Err(_) => write_octets(f, "    Octets: ", octets),
    }
}

fn write_bits<W: fmt::Write>(f: &mut fmt::Formatter<W>, modulus: &[u8]) -> fmt::Result
    ensures { DisplaysOnOk W.Write.write_str_gives f.old result (Some (size_text modulus.now)) f.new }
{
    write!(f, "    Size: {} bits\n", bit_length(modulus))
}

/// The number of bits of a natural number, given the content octets of its INTEGER.
fn bit_length(octets: &[u8]) -> u128
    ensures { result ≡ bit_length octets.now }
{
    let digits = without_leading_zero(octets);
    match digits {
        [first, ..] => (digits.len() as u128 * 8).saturating_sub(u128::from(first.leading_zeros())),
        [] => 0,
    }
}

/// The identifier octet of a SEQUENCE (X.690 8.1.2, 8.9).
const SEQUENCE: u8 = 0x30;

/// Writes the name of a curve, or parameters that don't name one.
fn write_curve<W: fmt::Write>(f: &mut fmt::Formatter<W>, parameters: &[u8]) -> fmt::Result
    ensures { WritesOne W.Write.write_str_gives f.old result (IsCurve parameters.now) f.new }
{
    match read_curve(parameters) {
        Ok(curve) => write_identifier_line(f, "    Curve: ", &curve),
        Err(_) => write_octets(f, parameters_label(parameters), parameters),
    }
}

/// The label of parameters that don't name a curve.
fn parameters_label(parameters: &[u8]) -> &'static str
    ensures { result.now ≡ parameters_label parameters.now }
{
    match parameters {
        [first, ..] => label_by(*first),
        [] => "    Parameters: ",
    }
}

/// The label of parameters that begin with this octet. A SEQUENCE has those of a curve (RFC 3279 2.3.5).
fn label_by(first: u8) -> &'static str
    ensures { result.now ≡ label_by first }
{
    if first == SEQUENCE {
        "    Explicit curve: "
    } else {
        "    Parameters: "
    }
}

/// Reads the parameters of an elliptic key: the identifier of a curve (RFC 5480 2.1.1).
fn read_curve(parameters: &[u8]) -> Result<ObjectIdentifier<'_>, ReadError<BerError>>
    ensures { ReadsWhole (Only (Required IdentifierFormat) Rules.Der parameters.now) borrowed_octets Never result }
{
    let mut input = Cursor::new(parameters);
    let curve = input.oid()?;
    input.end()?;
    Ok(curve)
}
