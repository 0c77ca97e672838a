//! Reads what it can of an invalid certificate (RFC 5280 4.1): its fields up to the first invalid one.
ghost use Rattle.x509.specs.Partial.Partials.{AreFields, ReadsPartial, octets_left, partial_of};

mod extensions;
mod fields;
pub mod laws;
mod opening;

use crate::partial::fields::Fields;
use crate::partial::opening::open_sequence_in;
use crate::{AlgorithmIdentifier, Extensions, Name, SubjectPublicKeyInfo, Validity, Version};
use der_base::header::{Class, Tag};
use der_values::BitString;

/// The fields of a certificate up to the first invalid one. A field that is None wasn't read. Octets and texts are
/// slices of the input.
#[derive(Drop)]
pub struct PartialCertificate<'a> {
    pub version: Option<Version>,
    /// The content octets of the INTEGER, in two's complement.
    pub serial_number: Option<&'a [u8]>,
    pub signature: Option<AlgorithmIdentifier<'a>>,
    pub issuer: Option<Name<'a>>,
    pub validity: Option<Validity>,
    pub subject: Option<Name<'a>>,
    pub subject_public_key_info: Option<SubjectPublicKeyInfo<'a>>,
    /// Also None if the certificate has none.
    pub issuer_unique_id: Option<BitString<'a>>,
    /// Also None if the certificate has none.
    pub subject_unique_id: Option<BitString<'a>>,
    /// The extensions up to the first invalid one.
    pub extensions: Extensions<'a>,
}

/// Reads the fields of a certificate up to the first invalid one. Certificate, tbsCertificate and the list of
/// extensions need only a DER header, so a cut input has the fields that are there. Other octets have no fields. What
/// follows the extensions isn't checked.
///
/// ```
/// match read_certificate(octets) {
///     Ok(certificate) => ..
///     Err(refusal) => {
///         let partial = read_partial_certificate(octets);
///         println!(rt; "{refusal}, {:?}", partial.serial_number)?;
///     }
/// }
/// ```
pub fn read_partial_certificate(octets: &[u8]) -> PartialCertificate<'_>
    ensures { ReadsPartial octets.now result }
{
    let content = open_sequence_in(octets, Class::Universal, Tag::Sequence);
    read_fields(Fields::new(content))
}

/// Reads the fields up to the first invalid one.
fn read_fields(mut fields: Fields<'_>) -> PartialCertificate<'_>
    ensures { AreFields (octets_left fields.entry) (partial_of result) }
{
    PartialCertificate {
        version: fields.version(),
        serial_number: fields.integer(),
        signature: fields.algorithm(),
        issuer: fields.name(),
        validity: fields.validity(),
        subject: fields.name(),
        subject_public_key_info: fields.key_info(),
        issuer_unique_id: fields.unique_id(1),
        subject_unique_id: fields.unique_id(2),
        extensions: fields.extensions(),
    }
}
