//! The signature, and digests of the whole.
ghost use Rattle.std.specs.Prelude.{Some};
ghost use Rattle.std.specs.Fmt.{DisplaysOnOk};
ghost use Rattle.certificate_text.specs.Values.{digests_text, signature_text};

use der_print::{Hex, Limit};
use sha1::Sha1;
use sha2::{Digest, Sha256};
use std::fmt;

/// Writes the number of octets of a signature.
pub(crate) fn write_signature<W: fmt::Write>(
    f: &mut fmt::Formatter<W>,
    octets: &[u8],
) -> fmt::Result
    ensures { DisplaysOnOk W.Write.write_str_gives f.old result (Some (signature_text octets.now)) f.new }
{
    write!(f, "  Signature: {} octets\n", octets.len())
}

/// Writes the digests of a whole certificate or CRL: its fingerprints.
pub(crate) fn write_digests<W: fmt::Write>(f: &mut fmt::Formatter<W>, octets: &[u8]) -> fmt::Result
    ensures { DisplaysOnOk W.Write.write_str_gives f.old result (Some (digests_text octets.now)) f.new }
{
    let limit = Limit::Whole;
    let sha256 = Sha256::digest(octets);
    let octets_of_sha256: &[u8] = &sha256;
    write!(
        f,
        "  SHA-256: {}\n",
        Hex {
            octets: octets_of_sha256,
            limit
        }
    )?;
    let sha1 = Sha1::digest(octets);
    let octets_of_sha1: &[u8] = &sha1;
    write!(
        f,
        "  SHA-1: {}\n",
        Hex {
            octets: octets_of_sha1,
            limit
        }
    )
}
