//! Why an input is rejected, and the rule that it breaks.
ghost use Rattle.std.specs.Prelude.{◌≡◌, ◌↔◌, IsTrue};
ghost use Rattle.der_elements.specs.Reasons.{IsPaddedTag, begins_none, has_reserved_length, is_reserved_behind};

use der_base::error::{BerError, DerConstraint};
use der_contents::ContentError;
use std::fmt;

/// The reserved value of the first length octet (X.690 8.1.3.5).
const RESERVED: u8 = 0xff;

/// Why a walk stops before the end of its input.
#[derive(Clone, Copy, Debug, PartialEq)]
pub enum Cause {
    /// The input ends inside an element, which lacks at least this many octets.
    Cut(usize),
    /// An element is longer than the element around it, by at least this many octets.
    PastEnd(usize),
    /// An indefinite length has no end-of-contents octets.
    NoEndMarker,
    /// End-of-contents octets stand where no indefinite length ends.
    EndMarker,
    /// A header can't be read, with this error.
    Header(BerError),
    /// The content octets of a primitive element break this rule of their type.
    Value(ContentError),
    /// A constructed element has a type that is always primitive.
    Constructed,
    /// A string is constructed, which DER forbids (X.690 10.2).
    ConstructedString,
    /// A part of a constructed string has another type.
    OtherPart,
    /// A part of a constructed BIT STRING has unused bits, and another part follows.
    UnusedBitsInside,
    /// The octets aren't elements of DER, and the offset of the fault isn't known.
    NotDer,
    /// Elements are nested deeper than the limit.
    TooDeep,
}

/// A rule that an input breaks.
#[derive(Clone, Copy, Debug, PartialEq)]
pub struct Rule {
    /// What was found.
    pub found: &'static str,
    /// The clause of X.690. Empty if the rule is a limit of this library.
    pub clause: &'static str,
}

impl Rule {
    fn new(found: &'static str, clause: &'static str) -> Rule {
        Rule { found, clause }
    }
}

impl fmt::Display for Rule {
    fn fmt<W: fmt::Write>(&self, f: &mut fmt::Formatter<W>) -> fmt::Result {
        f.write_str(self.found)?;
        if self.clause.is_empty() {
            return Ok(());
        }
        write!(f, " (X.690 {})", self.clause)
    }
}

impl fmt::Display for Cause {
    fn fmt<W: fmt::Write>(&self, f: &mut fmt::Formatter<W>) -> fmt::Result {
        match self {
            Cause::Cut(missing) => {
                let noun = octets_are(*missing);
                write!(
                    f,
                    "the input is cut, at least {missing} {noun} missing (X.690 8.1.1)"
                )
            }
            Cause::PastEnd(missing) => {
                let noun = octets_noun(*missing);
                write!(
                    f,
                    "it ends {missing} {noun} after the element around it (X.690 8.1.3)"
                )
            }
            other => write!(f, "{}", other.rule()),
        }
    }
}

/// The noun after a number: `octet` or `octets`.
pub(crate) fn octets_noun(number: usize) -> &'static str {
    if number == 1 { "octet" } else { "octets" }
}

/// The noun and the verb after a number.
fn octets_are(number: usize) -> &'static str {
    if number == 1 {
        "octet is"
    } else {
        "octets are"
    }
}

impl Cause {
    /// Whether no element begins at a fault with this cause, not even an invalid header.
    pub(crate) fn begins_none(self) -> bool
        ensures { result ≡ begins_none self }
    {
        matches!(self, Cause::Cut(_) | Cause::EndMarker)
    }

    /// The broken rule.
    fn rule(self) -> Rule {
        match self {
            Cause::Cut(_) => Rule::new("the input is cut", "8.1.1"),
            Cause::PastEnd(_) => Rule::new("the element around it ends too early", "8.1.3"),
            Cause::NoEndMarker => Rule::new(
                "an indefinite length has no end-of-contents octets",
                "8.1.3.6",
            ),
            Cause::EndMarker => Rule::new(
                "end-of-contents octets, and no indefinite length ends here",
                "8.1.5",
            ),
            Cause::Header(e) => header_rule(e),
            Cause::Value(e) => Rule::new(e.found(), e.clause()),
            Cause::Constructed => Rule::new("the encoding of this type must be primitive", "8.1.4"),
            Cause::ConstructedString => Rule::new(
                "a string is constructed, which DER forbids",
                "10.2",
            ),
            Cause::OtherPart => Rule::new(
                "a part of a constructed string isn't an OCTET STRING, or of a BIT STRING no BIT STRING",
                "8.6.4 and 8.7.3",
            ),
            Cause::UnusedBitsInside => Rule::new(
                "a part of a BIT STRING has unused bits, and another part follows",
                "8.6.4",
            ),
            Cause::NotDer => Rule::new("these are no elements of DER", "10"),
            Cause::TooDeep => Rule::new(
                "elements are nested more than 100 deep, the limit here",
                "",
            ),
        }
    }
}

/// The rule that the header at the start of these octets breaks.
pub(crate) fn header_rule_of(e: BerError, octets: &[u8]) -> Rule {
    match e {
        BerError::InvalidTag if is_padded_tag(octets) => {
            Rule::new("the tag number isn't in the fewest octets", "8.1.2.4")
        }
        BerError::InvalidTag => Rule::new("the tag number is above 4294967295, the limit here", ""),
        BerError::InvalidLength if has_reserved_length(octets) => Rule::new(
            "the first length octet is ff, which is reserved",
            "8.1.3.5",
        ),
        BerError::InvalidLength => Rule::new(
            "the length is above 18446744073709551615, the limit here",
            "",
        ),
        other => header_rule(other),
    }
}

/// Whether the tag number in these identifier octets of the long form is below 31 or begins with zeros.
fn is_padded_tag(octets: &[u8]) -> bool
    ensures { IsTrue result ↔ IsPaddedTag octets.now }
{
    match octets {
        [_, second, ..] => *second < 31 || *second == 128,
        _ => false,
    }
}

/// Whether the first length octet after these identifier octets is the reserved one.
fn has_reserved_length(octets: &[u8]) -> bool
    ensures { result ≡ has_reserved_length octets.now }
{
    match octets {
        [first, second, ..] if *first % 32 != 31 => *second == RESERVED,
        [_, others @ ..] => is_reserved_behind(others),
        [] => false,
    }
}

/// Whether the octet after the last octet of a tag number is the reserved length octet.
fn is_reserved_behind(octets: &[u8]) -> bool
    ensures { result ≡ is_reserved_behind octets.now }
{
    let mut rest = octets;
    while let [octet, others @ ..] = rest {
        if *octet < 128 {
            return matches!(others, [RESERVED, ..]);
        }
        rest = others;
    }
    false
}

/// The rule that a header breaks, if its octets aren't known.
fn header_rule(e: BerError) -> Rule {
    match e {
        BerError::InvalidTag => Rule::new(
            "the tag number isn't in the fewest octets, or is above 4294967295",
            "8.1.2.4",
        ),
        BerError::InvalidLength => Rule::new(
            "the first length octet is ff, which is reserved, or the length is above 18446744073709551615",
            "8.1.3.5",
        ),
        BerError::ConstructExpected => Rule::new(
            "a primitive element has an indefinite length",
            "8.1.3.2",
        ),
        BerError::DerConstraintFailed(DerConstraint::IndefiniteLength) => Rule::new(
            "a length is indefinite, which DER forbids",
            "10.1",
        ),
        BerError::DerConstraintFailed(DerConstraint::LengthNotMinimal) => {
            Rule::new("a length isn't in the fewest octets", "10.1")
        }
        _ => Rule::new("the header is invalid", "8.1.2"),
    }
}
