//! Identifiers and their names.
ghost use Rattle.certificate_text.specs.Words.{IsNamed};

use der_print::Arcs;
use oid_names::name_of;
use std::fmt;

/// An OBJECT IDENTIFIER with its name, if it has one, and its arcs: `ecPublicKey (1.2.840.10045.2.1)`.
#[derive(Clone, Copy)]
pub struct NamedIdentifier<'a> {
    /// The content octets.
    octets: &'a [u8],
    name: Option<&'static str>,
}

impl<'a> NamedIdentifier<'a> {
    /// The identifier with these content octets.
    pub fn of(octets: &'a [u8]) -> NamedIdentifier<'a>
        ensures { IsNamed octets.now result }
    {
        NamedIdentifier {
            octets,
            name: name_of(octets),
        }
    }
}

impl fmt::Display for NamedIdentifier<'_> {
    ghost use Rattle.std.specs.Prelude.{Some};
    ghost use Rattle.certificate_text.specs.Words.{named_text};

    ghost output = { λ x. Some (named_text x) };

    fn fmt<W: fmt::Write>(&self, f: &mut fmt::Formatter<W>) -> fmt::Result {
        let arcs = Arcs {
            octets: self.octets,
            relative: false,
        };
        match self.name {
            Some(name) => write!(f, "{name} ({arcs})"),
            None => write!(f, "{arcs}"),
        }
    }
}
