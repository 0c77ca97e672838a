//! OBJECT IDENTIFIERs by their arcs (X.690 8.19).
ghost use Rattle.std.specs.Prelude.{◌+◌, ◌*◌, ◌∷◌, IsTrue, false};
ghost use Rattle.std.specs.List.{flat_map};
ghost use Rattle.std.specs.Option.{SomeIff};
ghost use Rattle.der_base.specs.OidArcs.{have_subidentifier, octets_of_arcs};
ghost use Rattle.der_base.specs.Octets.{groups};
ghost use Rattle.der_writer.specs.Octets.{identifier_octets, identifier_type};
ghost use Rattle.der_writer.specs.Written.{Puts, PutsArcs, PutsLeaf};

use crate::writer::{Writer, tag_put};
use der_base::error::OidParseError;
use der_base::header::Tag;
use der_values::ObjectIdentifier;
use der_values::octets::header::write_groups;

/// The most groups of seven bits of a number of 64 bits.
const GROUPS: usize = 10;

impl<'b> Writer<'b> {
    /// An OBJECT IDENTIFIER (8.19) or a RELATIVE-OID (8.20) with the content octets of the value, which aren't checked.
    pub fn put_identifier(&mut self, value: ObjectIdentifier<'_>)
        ensures { PutsLeaf (identifier_type value.entry) (identifier_octets value.entry) self.old self.new }
    {
        let tag = if value.is_relative() {
            Tag::RelativeOid
        } else {
            Tag::Oid
        };
        self.put_primitive(tag, value.as_bytes());
    }

    /// An OBJECT IDENTIFIER with these arcs (8.19). On an error nothing is put: TooShort for fewer than two arcs;
    /// FirstComponentsTooLarge if the first is above 2, the second is above 39 after 0 or 1, or their subidentifier is
    /// above 2^64-1.
    pub fn put_arcs(&mut self, arcs: &[u64]) -> Result<(), OidParseError>
        ensures { PutsArcs (octets_of_arcs false arcs.now) self.old result self.new }
    {
        let [first, second, others @ ..] = arcs else {
            return Err(OidParseError::TooShort);
        };
        self.put_absolute(*first, *second, others)
    }

    /// `put_arcs` of two arcs and others.
    fn put_absolute(&mut self, first: u64, second: u64, others: &[u64]) -> Result<(), OidParseError>
        ensures { PutsArcs (octets_of_arcs false (first ∷ second ∷ others.now)) self.old result self.new }
    {
        let Some(value) = first_value(first, second) else {
            return Err(OidParseError::FirstComponentsTooLarge);
        };
        let (class, tag) = tag_put(self.implicit, Tag::Oid);
        let identifier = self.open(class, false, tag);
        self.put_subidentifier(value);
        self.put_subidentifiers(others);
        self.close(identifier);
        Ok(())
    }

    /// Puts numbers, each as a subidentifier.
    fn put_subidentifiers(&mut self, values: &[u64])
        ensures { Puts (flat_map groups values.now) self.old self.new }
    {
        self.put_elements(&[]);
        for value in values {
            self.put_subidentifier(*value);
        }
    }

    /// Puts a number as a subidentifier, in the fewest groups of seven bits (8.19.2).
    #[tactic(auto, using(der_values::proofs::OctetsLaws::Groups::groups_few, der_values::proofs::OctetsLaws::Room::puts_tail))]
    fn put_subidentifier(&mut self, value: u64)
        ensures { Puts (groups value) self.old self.new }
    {
        let mut octets = [0; GROUPS];
        let begin = write_groups(&mut octets, GROUPS, value);
        self.put_elements(&octets[begin..]);
    }
}

/// The first subidentifier for the first two arcs (8.19.4), if there is one.
fn first_value(first: u64, second: u64) -> Option<u64>
    ensures { SomeIff result (IsTrue (have_subidentifier first second)) (40 * first + second) }
{
    match first {
        0 | 1 if second < 40 => Some(first * 40 + second),
        2 => second.checked_add(80),
        _ => None,
    }
}
