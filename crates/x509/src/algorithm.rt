//! Algorithm identifiers (RFC 5280 4.1.1.2) and keys (4.1.2.7).
ghost use Rattle.der_cursor.specs.Cursors.{octets_left};
ghost use Rattle.x509.specs.Certificates.{algorithm_identifier, algorithm_of, key_info_of, last_any};
ghost use Rattle.x509.specs.Certificates.{subject_public_key_info};
ghost use Rattle.x509.specs.Readers.{ReadsBy, ReadsToEnd, fault_of};

use der_base::error::BerError;
use der_cursor::{Cursor, ReadError};
use der_values::{BitString, ObjectIdentifier};

/// An algorithm with its parameters.
#[derive(Drop)]
pub struct AlgorithmIdentifier<'a> {
    /// The identifier.
    pub algorithm: ObjectIdentifier<'a>,
    /// The encoding of the parameters, empty if there are none. Only `Rule::DerValues` checks its content.
    pub parameters: &'a [u8],
}

/// The subject's public key.
#[derive(Drop)]
pub struct SubjectPublicKeyInfo<'a> {
    /// The algorithm that the key is for.
    pub algorithm: AlgorithmIdentifier<'a>,
    /// The key, in the encoding of its algorithm.
    pub subject_public_key: BitString<'a>,
}

/// Reads an AlgorithmIdentifier.
pub fn read_algorithm<'a>(
    fields: &mut Cursor<'a>,
) -> Result<AlgorithmIdentifier<'a>, ReadError<BerError>>
    ensures { ReadsBy fault_of algorithm_of algorithm_identifier fields.old result fields.new }
{
    let mut parts = fields.open_sequence()?;
    let algorithm = parts.oid()?;
    let parameters = parts.remaining();
    read_parameters(parts)?;
    Ok(AlgorithmIdentifier {
        algorithm,
        parameters,
    })
}

/// Reads the parameters of an algorithm: one element, or none.
fn read_parameters(mut parts: Cursor<'_>) -> Result<(), ReadError<BerError>>
    ensures { ReadsToEnd fault_of (λ u. octets_left parts.entry) last_any parts.entry result }
{
    if parts.is_empty() {
        return Ok(());
    }
    parts.any()?;
    parts.end()
}

/// Reads a SubjectPublicKeyInfo.
pub fn read_key_info<'a>(
    fields: &mut Cursor<'a>,
) -> Result<SubjectPublicKeyInfo<'a>, ReadError<BerError>>
    ensures { ReadsBy fault_of key_info_of subject_public_key_info fields.old result fields.new }
{
    let mut parts = fields.open_sequence()?;
    let algorithm = read_algorithm(&mut parts)?;
    let subject_public_key = parts.bits()?;
    parts.end()?;
    Ok(SubjectPublicKeyInfo {
        algorithm,
        subject_public_key,
    })
}
