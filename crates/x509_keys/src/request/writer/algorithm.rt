//! Algorithms and public keys (RFC 5280 4.1.1.2, 4.1.2.7).
ghost use Rattle.der_writer.specs.Written.{Puts};
ghost use Rattle.x509_keys.specs.Request.Writer.Octets.{algorithm_octets, key_octets, parameter_octets};
ghost use Rattle.x509_keys.specs.Request.Writer.Octets.{public_key_octets};

use der_writer::Writer;

/// An AlgorithmIdentifier (RFC 5280 4.1.1.2).
///
/// ```
/// let ed25519 = AlgorithmIdentifier {
///     algorithm: b"\x2b\x65\x70",
///     parameters: Parameters::Absent,
/// };
/// ```
#[derive(Clone, Copy, Debug, Drop)]
pub struct AlgorithmIdentifier<'a> {
    /// The content octets of the identifier.
    pub algorithm: &'a [u8],
    pub parameters: Parameters<'a>,
}

/// The parameters of an algorithm.
#[derive(Clone, Copy, Debug, Drop)]
pub enum Parameters<'a> {
    Absent,
    /// NULL, for RSA (RFC 3279 2.3.1).
    Null,
    /// The encoding of one element, such as the OID of a curve (RFC 5480 2.1.1).
    Element(&'a [u8]),
}

/// A SubjectPublicKeyInfo (RFC 5280 4.1).
#[derive(Clone, Copy, Debug, Drop)]
pub enum PublicKeyInfo<'a> {
    /// The encoding of the whole, as `openssl pkey -pubout -outform DER` writes it.
    Element(&'a [u8]),
    /// An algorithm, and the octets of the key's BIT STRING, without unused bits.
    Key {
        algorithm: AlgorithmIdentifier<'a>,
        key: &'a [u8],
    },
}

/// The encoding of NULL.
const NULL: &[u8] = &[5, 0];

/// Puts an AlgorithmIdentifier into a writer.
pub fn put_algorithm(fields: &mut Writer<'_>, algorithm: &AlgorithmIdentifier<'_>)
    ensures { Puts (algorithm_octets algorithm.now) fields.old fields.new }
{
    let sequence = fields.open_sequence();
    fields.put_oid(algorithm.algorithm);
    put_parameters(fields, &algorithm.parameters);
    fields.close(sequence);
}

/// Puts the parameters, unless they are absent.
fn put_parameters(fields: &mut Writer<'_>, parameters: &Parameters<'_>)
    ensures { Puts (parameter_octets parameters.now) fields.old fields.new }
{
    match parameters {
        Parameters::Absent => fields.put_elements(&[]),
        Parameters::Null => fields.put_elements(NULL),
        Parameters::Element(element) => fields.put_elements(element),
    }
}

/// Puts a SubjectPublicKeyInfo into a writer.
pub fn put_public_key_info(fields: &mut Writer<'_>, key_info: &PublicKeyInfo<'_>)
    ensures { Puts (public_key_octets key_info.now) fields.old fields.new }
{
    match key_info {
        PublicKeyInfo::Element(element) => fields.put_elements(element),
        PublicKeyInfo::Key { algorithm, key } => put_key(fields, algorithm, key),
    }
}

fn put_key(fields: &mut Writer<'_>, algorithm: &AlgorithmIdentifier<'_>, key: &[u8])
    ensures { Puts (key_octets algorithm.now key.now) fields.old fields.new }
{
    let sequence = fields.open_sequence();
    put_algorithm(fields, algorithm);
    fields.put_bits(0, key);
    fields.close(sequence);
}
