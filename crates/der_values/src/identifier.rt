//! Identifiers by their content octets (X.690 8.19, 8.20).
ghost use Rattle.std.specs.Prelude.{◌≡◌, false, true};
ghost use Rattle.der_base.specs.Oids.{IsBorrowed, is_relative_of, octets_of};

use der_base::oid::Oid;
use std::borrow::CowSlice;

/// An OBJECT IDENTIFIER or a RELATIVE-OID by its content octets (X.690 8.19, 8.20). It borrows them and needs no
/// allocator.
#[derive(Clone, Copy, Debug, PartialEq)]
pub struct ObjectIdentifier<'a> {
    octets: &'a [u8],
    relative: bool,
}

impl<'a> ObjectIdentifier<'a> {
    /// The OBJECT IDENTIFIER with these content octets. They aren't checked.
    pub fn new(octets: &'a [u8]) -> ObjectIdentifier<'a>
        ensures octets { result.octets.now ≡ octets.now }
        ensures absolute { result.relative ≡ false }
    {
        ObjectIdentifier {
            octets,
            relative: false,
        }
    }

    /// The RELATIVE-OID with these content octets. They aren't checked.
    pub fn new_relative(octets: &'a [u8]) -> ObjectIdentifier<'a>
        ensures octets { result.octets.now ≡ octets.now }
        ensures relative { result.relative ≡ true }
    {
        ObjectIdentifier {
            octets,
            relative: true,
        }
    }

    /// The identifier of an `Oid`.
    pub fn of_oid(oid: &'a Oid<'_>) -> ObjectIdentifier<'a>
        ensures octets { result.octets.now ≡ octets_of oid.now }
        ensures relative { result.relative ≡ is_relative_of oid.now }
    {
        ObjectIdentifier {
            octets: oid.as_bytes(),
            relative: oid.is_relative(),
        }
    }

    /// The identifier as an `Oid` that borrows the octets.
    pub fn to_oid(self) -> Oid<'a>
        ensures octets { octets_of result ≡ self.entry.octets.now }
        ensures relative { is_relative_of result ≡ self.entry.relative }
        ensures borrowed { IsBorrowed result }
    {
        let octets = CowSlice::Borrowed(self.octets);
        if self.relative {
            Oid::new_relative(octets)
        } else {
            Oid::new(octets)
        }
    }

    /// The content octets.
    pub fn as_bytes(self) -> &'a [u8]
        ensures { result.now ≡ self.entry.octets.now }
    {
        self.octets
    }

    /// Whether it is a RELATIVE-OID.
    pub fn is_relative(self) -> bool
        ensures { result ≡ self.entry.relative }
    {
        self.relative
    }
}
