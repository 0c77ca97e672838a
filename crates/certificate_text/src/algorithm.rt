//! Algorithms (RFC 5280 4.1.1.2), and keys that show only their algorithm.
ghost use Rattle.std.specs.Prelude.{◌≡◌};
ghost use Rattle.std.specs.Option.{option_map};
ghost use Rattle.der_cursor.specs.Formats.{element_of};
ghost use Rattle.certificate_text.specs.Algorithms.{IsAlgorithm, IsEncrypted, IsParameters, is_identifier};

use crate::identifier::NamedIdentifier;
use der_base::any::Any;
use der_base::header::{Class, Tag};
use std::fmt;
use type_words::Count;
use x509_keys::{Algorithm, EncryptedPrivateKeyInfo};

/// The parameters of an algorithm.
#[derive(Clone, Copy)]
pub enum ParametersText<'a> {
    /// The parameters are absent.
    Absent,
    /// The identifier of a curve (RFC 5480 2.1.1).
    Curve(NamedIdentifier<'a>),
    /// Another element, by the number of its content octets.
    Other(usize),
}

impl<'a> ParametersText<'a> {
    /// The text of parameters.
    pub fn of(parameters: Option<Any<'a>>) -> ParametersText<'a>
        ensures { IsParameters (option_map element_of parameters.entry) result }
    {
        match parameters {
            None => ParametersText::Absent,
            Some(element) if is_identifier(element) => {
                ParametersText::Curve(NamedIdentifier::of(element.bytes))
            }
            Some(element) => ParametersText::Other(element.bytes.len()),
        }
    }
}

/// Returns whether an element is an OBJECT IDENTIFIER.
fn is_identifier(element: Any<'_>) -> bool
    ensures { result ≡ is_identifier (element_of element.entry) }
{
    let is_primitive = !element.header.is_constructed();
    element.class() == Class::Universal && is_primitive && element.tag() == Tag::Oid
}

/// A line for a curve, and for other parameters if they have content octets. NULL has none.
impl fmt::Display for ParametersText<'_> {
    ghost use Rattle.std.specs.Prelude.{Some};
    ghost use Rattle.certificate_text.specs.Algorithms.{parameters_text};

    ghost output = { λ x. Some (parameters_text x) };

    fn fmt<W: fmt::Write>(&self, f: &mut fmt::Formatter<W>) -> fmt::Result {
        match self {
            ParametersText::Absent => Ok(()),
            ParametersText::Curve(curve) => write!(f, "  Curve: {curve}\n"),
            ParametersText::Other(0) => Ok(()),
            ParametersText::Other(number) => {
                let count = Count(*number);
                write!(f, "  Parameters: {count}\n")
            }
        }
    }
}

/// The lines of an algorithm.
#[derive(Clone, Copy)]
pub struct AlgorithmText<'a> {
    identifier: NamedIdentifier<'a>,
    parameters: ParametersText<'a>,
}

impl<'a> AlgorithmText<'a> {
    /// The text of an algorithm.
    pub fn of(algorithm: &Algorithm<'a>) -> AlgorithmText<'a>
        ensures { IsAlgorithm algorithm.now result }
    {
        AlgorithmText {
            identifier: NamedIdentifier::of(algorithm.identifier.as_bytes()),
            parameters: ParametersText::of(algorithm.parameters),
        }
    }
}

impl fmt::Display for AlgorithmText<'_> {
    ghost use Rattle.std.specs.Prelude.{Some};
    ghost use Rattle.certificate_text.specs.Algorithms.{algorithm_text};

    ghost output = { λ x. Some (algorithm_text x) };

    fn fmt<W: fmt::Write>(&self, f: &mut fmt::Formatter<W>) -> fmt::Result {
        let identifier = self.identifier;
        let parameters = self.parameters;
        write!(f, "  Algorithm: {identifier}\n{parameters}")
    }
}

/// The lines of an encrypted private key (RFC 5958 3): the algorithm, and the number of encrypted octets.
#[derive(Clone, Copy)]
pub struct EncryptedKeyText<'a> {
    algorithm: AlgorithmText<'a>,
    size: usize,
}

impl<'a> EncryptedKeyText<'a> {
    /// The text of an encrypted key.
    pub fn of(key: &EncryptedPrivateKeyInfo<'a>) -> EncryptedKeyText<'a>
        ensures { IsEncrypted key.now result }
    {
        EncryptedKeyText {
            algorithm: AlgorithmText::of(&key.algorithm),
            size: key.encrypted_data.len(),
        }
    }
}

impl fmt::Display for EncryptedKeyText<'_> {
    ghost use Rattle.std.specs.Prelude.{Some};
    ghost use Rattle.certificate_text.specs.Algorithms.{encrypted_text};

    ghost output = { λ x. Some (encrypted_text x) };

    fn fmt<W: fmt::Write>(&self, f: &mut fmt::Formatter<W>) -> fmt::Result {
        let algorithm = self.algorithm;
        let count = Count(self.size);
        write!(
            f,
            "Encrypted private key (PKCS #8):\n{algorithm}  Encrypted data: {count}\n"
        )
    }
}
