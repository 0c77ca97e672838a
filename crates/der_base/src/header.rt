//! Tags, lengths and headers: the octets before the content (X.690 8.1.2 and 8.1.3).
ghost use Rattle.std.specs.Prelude.{◌≡◌, ◌≢◌, ◌&&◌, ◌==◌, ◌↔◌, ℕ, false, true, if◌then◌else◌};
ghost use Rattle.std.specs.Prelude.{IsTrue, IfSome, None, Some, MatchResult};
ghost use Rattle.std.specs.Option.{option_copied};
ghost use Rattle.der_base.specs.declared.error.Error.{Error};
ghost use Rattle.der_base.specs.declared.error.DerConstraint.{DerConstraint};
ghost use Rattle.der_base.specs.Answer.{MatchAnswer};
ghost use Rattle.der_base.specs.Fault.{BerHeaderRefuses, DerHeaderRefuses};
ghost use Rattle.der_base.specs.Count.{one_more};
ghost use Rattle.der_base.specs.Header.{IsHeader};
ghost use Rattle.der_base.specs.Headers.{AnswersBerHeader, ReadsHeader, BerHeaderLacks};
ghost use Rattle.der_base.specs.Headers.{AnswersDerHeader, ReadsDerHeader, DerHeaderLacks};
ghost use Rattle.der_base.specs.Leaf.{is_mapped};
ghost use Rattle.der_base.specs.Names.{name_at, class_name, type_names};
ghost use Rattle.der_base.specs.Refusal.{refusal, construct_expected, construct_unexpected};
ghost use Rattle.der_base.specs.Refusal.{unexpected_class, unexpected_tag};

use crate::error::{BerError, DerConstraint, IResult};
use crate::identifier::{Identifier, first_octet, read_identifier};
use crate::length::{read_ber_length, read_der_length};
use std::fmt;
use std::marker::Model;

/// The class of a tag (X.690 8.1.2.2).
#[derive(Clone, Copy, Debug, PartialEq)]
pub enum Class {
    /// The types of X.680, as `Tag` names them.
    Universal,
    /// Tags that mean one thing throughout an application.
    Application,
    /// Tags that mean one thing within a type around them, as [0] in a certificate.
    ContextSpecific,
    /// Tags of an enterprise.
    Private,
}

impl Class {
    /// The keyword of the class in ASN.1. Context-specific has none, so it is `CONTEXT-SPECIFIC`.
    pub fn name(self) -> &'static str
        ensures { result.now ≡ class_name self }
    {
        match self {
            Class::Universal => "UNIVERSAL",
            Class::Application => "APPLICATION",
            Class::ContextSpecific => "CONTEXT-SPECIFIC",
            Class::Private => "PRIVATE",
        }
    }
}

impl fmt::Display for Class {
    ghost use Rattle.der_base.specs.Names.{class_name};

    ghost output = { λ c. Some (class_name c) };

    fn fmt<W: fmt::Write>(&self, f: &mut fmt::Formatter<W>) -> fmt::Result {
        write!(f, "{}", self.name())
    }
}

/// A tag number, from 0 to 2^32-1 (X.690 8.1.2).
#[derive(Clone, Copy, Debug, PartialEq)]
pub struct Tag(pub u32);

/// The universal types (X.680 8.4, table 1).
#[allow(non_upper_case_globals)]
impl Tag {
    /// The type of the end-of-contents octets of an indefinite length (X.690 8.1.5).
    pub const EndOfContent: Tag = Tag(0);

    /// BOOLEAN.
    pub const Boolean: Tag = Tag(1);

    /// INTEGER.
    pub const Integer: Tag = Tag(2);

    /// BIT STRING.
    pub const BitString: Tag = Tag(3);

    /// OCTET STRING.
    pub const OctetString: Tag = Tag(4);

    /// NULL.
    pub const Null: Tag = Tag(5);

    /// OBJECT IDENTIFIER.
    pub const Oid: Tag = Tag(6);

    /// ObjectDescriptor.
    pub const ObjectDescriptor: Tag = Tag(7);

    /// EXTERNAL. Its content is kept as octets.
    pub const External: Tag = Tag(8);

    /// REAL. Its content is kept as octets.
    pub const RealType: Tag = Tag(9);

    /// ENUMERATED.
    pub const Enumerated: Tag = Tag(10);

    /// EMBEDDED PDV. Its content is kept as octets.
    pub const EmbeddedPdv: Tag = Tag(11);

    /// UTF8String.
    pub const Utf8String: Tag = Tag(12);

    /// RELATIVE-OID.
    pub const RelativeOid: Tag = Tag(13);

    /// SEQUENCE and SEQUENCE OF.
    pub const Sequence: Tag = Tag(16);

    /// SET and SET OF.
    pub const Set: Tag = Tag(17);

    /// NumericString.
    pub const NumericString: Tag = Tag(18);

    /// PrintableString.
    pub const PrintableString: Tag = Tag(19);

    /// T61String.
    pub const T61String: Tag = Tag(20);

    /// TeletexString, another name of T61String.
    pub const TeletexString: Tag = Tag(20);

    /// VideotexString.
    pub const VideotexString: Tag = Tag(21);

    /// IA5String.
    pub const Ia5String: Tag = Tag(22);

    /// UTCTime.
    pub const UtcTime: Tag = Tag(23);

    /// GeneralizedTime.
    pub const GeneralizedTime: Tag = Tag(24);

    /// GraphicString.
    pub const GraphicString: Tag = Tag(25);

    /// VisibleString.
    pub const VisibleString: Tag = Tag(26);

    /// GeneralString.
    pub const GeneralString: Tag = Tag(27);

    /// UniversalString.
    pub const UniversalString: Tag = Tag(28);

    /// BMPString.
    pub const BmpString: Tag = Tag(30);

    /// Whether this is a universal type whose content is read. The content of any other type is kept as octets.
    #[inline]
    pub fn is_mapped(self) -> bool
        ensures { result ≡ is_mapped self.0 }
    {
        matches!(self.0, 0..=7 | 10 | 12 | 13 | 16..=28 | 30)
    }

    /// The name of the universal type with this number, if there is one.
    pub fn name(self) -> Option<&'static str>
        ensures { option_copied result ≡ name_at type_names self.0 }
    {
        let name = match self.0 {
            0 => "EndOfContent",
            1 => "Boolean",
            2 => "Integer",
            3 => "BitString",
            4 => "OctetString",
            5 => "Null",
            6 => "Oid",
            7 => "ObjectDescriptor",
            8 => "External",
            9 => "RealType",
            10 => "Enumerated",
            11 => "EmbeddedPdv",
            12 => "Utf8String",
            13 => "RelativeOid",
            16 => "Sequence",
            17 => "Set",
            18 => "NumericString",
            19 => "PrintableString",
            20 => "TeletexString",
            21 => "VideotexString",
            22 => "Ia5String",
            23 => "UtcTime",
            24 => "GeneralizedTime",
            25 => "GraphicString",
            26 => "VisibleString",
            27 => "GeneralString",
            28 => "UniversalString",
            30 => "BmpString",
            _ => return None,
        };
        Some(name)
    }
}

impl From<u32> for Tag {
    ghost from_gives = { λ n t. t.0 ≡ n };

    fn from(n: u32) -> Tag {
        Tag(n)
    }
}

/// The name of the universal type, or `Tag(n)`.
impl fmt::Display for Tag {
    ghost use Rattle.der_base.specs.Names.{type_name};

    ghost output = { λ t. Some (type_name t.0) };

    fn fmt<W: fmt::Write>(&self, f: &mut fmt::Formatter<W>) -> fmt::Result {
        match self.name() {
            Some(name) => write!(f, "{name}"),
            None => write!(f, "Tag({})", self.0),
        }
    }
}

/// The length in a header (X.690 8.1.3).
#[derive(Clone, Copy, Debug, PartialEq)]
pub enum Length {
    /// This many content octets.
    Definite(usize),
    /// The content ends at end-of-contents octets.
    Indefinite,
}

impl Length {
    /// The number of content octets. For an indefinite length the error is the DER constraint
    /// IndefiniteLength (X.690 10.1).
    pub fn definite(&self) -> Result<usize, BerError>
        ensures { MatchResult result
            (λ n. self.now ≡ Length.Definite n)
            (λ e. (self.now ≡ Length.Indefinite) × (e ≡ Error.DerConstraintFailed DerConstraint.IndefiniteLength)) }
    {
        match self {
            Length::Definite(n) => Ok(*n),
            Length::Indefinite => Err(BerError::DerConstraintFailed(
                DerConstraint::IndefiniteLength,
            )),
        }
    }
}

impl From<usize> for Length {
    ghost use Rattle.der_base.specs.declared.header.Length.TheVariants.{Definite};

    ghost from_gives = { λ n l. l ≡ Definite n };

    fn from(n: usize) -> Length {
        Length::Definite(n)
    }
}

/// The header of an element: its class, whether it is constructed, its tag number and its length (X.690 8.1.1). If it
/// was read, it also has its identifier octets.
#[derive(Clone, Copy, Debug)]
pub struct Header<'a> {
    class: Class,
    constructed: bool,
    definite: bool,
    has_raw_tag: bool,
    tag: Tag,
    // The number of content octets, or 0 if the length is indefinite.
    size: usize,
    // The identifier octets, or none if there is no raw tag.
    raw_tag: &'a [u8],
}

impl<'a> Header<'a> {
    ghost use Rattle.der_base.specs.Header.{IsHeader, class_of, is_constructed, number_of, length_of, raw_tag_of};

    /// A header with no raw tag.
    pub fn new(class: Class, constructed: bool, tag: Tag, length: Length) -> Header<'a>
        ensures { IsHeader result class constructed tag.0 length None }
    {
        let (definite, size) = parts_of(length);
        Header {
            class,
            constructed,
            definite,
            has_raw_tag: false,
            tag,
            size,
            raw_tag: &[],
        }
    }

    /// This header with another length.
    pub fn with_length(self, length: Length) -> Header<'a>
        ensures { let h = self.entry in
            IsHeader result (class_of h) (is_constructed h) (number_of h) length (raw_tag_of h) }
    {
        let (definite, size) = parts_of(length);
        Header {
            definite,
            size,
            ..self
        }
    }

    /// This header with other identifier octets, or none.
    pub fn with_raw_tag(self, raw_tag: Option<&'a [u8]>) -> Header<'a>
        ensures { let h = self.entry in
            IsHeader result (class_of h) (is_constructed h) (number_of h) (length_of h) (option_copied raw_tag.entry) }
    {
        match raw_tag {
            Some(octets) => Header {
                has_raw_tag: true,
                raw_tag: octets,
                ..self
            },
            None => Header {
                has_raw_tag: false,
                raw_tag: &[],
                ..self
            },
        }
    }

    /// This header with another class.
    pub fn with_class(self, class: Class) -> Header<'a>
        ensures { let h = self.entry in
            IsHeader result class (is_constructed h) (number_of h) (length_of h) (raw_tag_of h) }
    {
        Header { class, ..self }
    }

    /// The class.
    pub fn class(&self) -> Class
        ensures { result ≡ class_of self.now }
    {
        self.class
    }

    /// The tag number.
    pub fn tag(&self) -> Tag
        ensures { result.0 ≡ number_of self.now }
    {
        self.tag
    }

    /// The length (X.690 8.1.3). It may differ from that of the content.
    pub fn length(&self) -> Length
        ensures { result ≡ length_of self.now }
    {
        if self.definite {
            Length::Definite(self.size)
        } else {
            Length::Indefinite
        }
    }

    /// Whether the content is elements (8.1.2.5).
    pub fn constructed(&self) -> bool
        ensures { result ≡ is_constructed self.now }
    {
        self.constructed
    }

    /// The identifier octets, if the header has them (X.690 8.1.2).
    pub fn raw_tag(&self) -> Option<&'a [u8]>
        ensures { option_copied result ≡ raw_tag_of self.now }
    {
        if self.has_raw_tag {
            Some(self.raw_tag)
        } else {
            None
        }
    }

    /// Whether the class is Universal.
    pub fn is_universal(&self) -> bool
        ensures { IsTrue result ↔ (class_of self.now ≡ Class.Universal) }
    {
        self.class == Class::Universal
    }

    /// Whether the class is Application.
    pub fn is_application(&self) -> bool
        ensures { IsTrue result ↔ (class_of self.now ≡ Class.Application) }
    {
        self.class == Class::Application
    }

    /// Whether the class is Context-specific.
    pub fn is_contextspecific(&self) -> bool
        ensures { IsTrue result ↔ (class_of self.now ≡ Class.ContextSpecific) }
    {
        self.class == Class::ContextSpecific
    }

    /// Whether the class is Private.
    pub fn is_private(&self) -> bool
        ensures { IsTrue result ↔ (class_of self.now ≡ Class.Private) }
    {
        self.class == Class::Private
    }

    /// Whether the content is a value rather than elements (8.1.2.5).
    pub fn is_primitive(&self) -> bool
        ensures { IsTrue result ↔ (is_constructed self.now ≡ false) }
    {
        !self.constructed
    }

    /// Whether the content is elements (8.1.2.5).
    pub fn is_constructed(&self) -> bool
        ensures { IsTrue result ↔ (is_constructed self.now ≡ true) }
    {
        self.constructed
    }

    /// Ok if the class is this one, else UnexpectedClass.
    pub fn assert_class(&self, class: Class) -> Result<(), BerError>
        ensures { MatchResult result
            (λ _. class_of self.now ≡ class)
            (λ e. (class_of self.now ≢ class) × (refusal e ≡ unexpected_class (Some class) (class_of self.now))) }
    {
        if self.class == class {
            Ok(())
        } else {
            Err(BerError::unexpected_class(Some(class), self.class))
        }
    }

    /// Ok if the tag number is this one, else UnexpectedTag.
    pub fn assert_tag(&self, tag: Tag) -> Result<(), BerError>
        ensures { MatchResult result
            (λ _. number_of self.now ≡ tag.0)
            (λ e. (number_of self.now ≢ tag.0) × (refusal e ≡ unexpected_tag (Some tag.0) (number_of self.now))) }
    {
        if self.tag == tag {
            Ok(())
        } else {
            Err(BerError::unexpected_tag(Some(tag), self.tag))
        }
    }

    /// Ok if the element is constructed, else ConstructExpected.
    pub fn assert_constructed(&self) -> Result<(), BerError>
        ensures { MatchResult result
            (λ _. is_constructed self.now ≡ true)
            (λ e. (is_constructed self.now ≡ false) × (refusal e ≡ construct_expected)) }
    {
        if self.constructed {
            Ok(())
        } else {
            Err(BerError::ConstructExpected)
        }
    }

    /// Ok if the element is primitive, else ConstructUnexpected.
    pub fn assert_primitive(&self) -> Result<(), BerError>
        ensures { MatchResult result
            (λ _. is_constructed self.now ≡ false)
            (λ e. (is_constructed self.now ≡ true) × (refusal e ≡ construct_unexpected)) }
    {
        if self.constructed {
            Err(BerError::ConstructUnexpected)
        } else {
            Ok(())
        }
    }
}

/// Two headers are equal iff their class, constructed bit and tag number are. Their lengths and raw
/// tags aren't compared.
impl PartialEq for Header<'_> {
    ghost use Rattle.std.specs.Ordering.{eq_of_both, on};
    ghost use Rattle.std.specs.Cmp.Rules.{comparing};
    ghost use Rattle.std.proofs.Common.{rules};
    ghost use denote.Enum.Bare.{sameb};
    ghost use mathlib.Core.Bool.{beq};
    ghost use Rattle.der_base.specs.contracts.header.Class as Class_type;
    ghost use Rattle.der_base.specs.Header.{class_of, is_constructed, number_of};

    ghost eq = { eq_of_both (on class_of (sameb Class_type.the_type))
        (eq_of_both (on is_constructed beq) (on number_of ◌==◌)) };

    ghost laws = { Prim.search (comparing, rules) };

    fn eq(&self, other: &Self) -> bool {
        self.class == other.class && self.constructed == other.constructed && self.tag == other.tag
    }
}

/// Whether a length is definite, and its number of octets.
fn parts_of(length: Length) -> (bool, usize)
    ensures { length ≡ (if result.0 then Length.Definite result.1 else Length.Indefinite) }
{
    match length {
        Length::Definite(n) => (true, n),
        Length::Indefinite => (false, 0),
    }
}

/// Reads the header at the start of an element by BER: identifier octets (X.690 8.1.2) and a length in any number of
/// octets. The length may be indefinite if the element is constructed (8.1.3). The raw tag is the identifier octets.
///
/// Errors: InvalidTag, InvalidLength, and ConstructExpected for an indefinite length of a primitive element, each as
/// soon as an octet shows it. Incomplete with the number of octets that the header lacks. It doesn't allocate.
#[inline(always)]
pub fn ber_read_element_header(i: &[u8]) -> IResult<&[u8], Header<'_>, BerError>
    ensures { AnswersBerHeader i.now result }
{
    read_ber_header(i)
}

#[inline(always)]
fn read_ber_header(i: &[u8]) -> IResult<&[u8], Header<'_>, BerError>
    ensures { MatchAnswer result
        (λ x. ReadsHeader i.now x.1 x.0.now)
        (BerHeaderRefuses i.now)
        (BerHeaderLacks i.now)
        ⊥ }
{
    match read_short_header(i) {
        Some(found) => Ok(found),
        None => read_any_ber_header(i),
    }
}

#[inline(always)]
fn read_any_ber_header(i: &[u8]) -> IResult<&[u8], Header<'_>, BerError>
    ensures { MatchAnswer result
        (λ x. ReadsHeader i.now x.1 x.0.now)
        (BerHeaderRefuses i.now)
        (BerHeaderLacks i.now)
        ⊥ }
{
    let (rest, identifier) = read_identifier(i)?;
    let (rest, length) = read_ber_length(identifier.constructed, rest)?;
    Ok((rest, header_of(identifier, length)))
}

/// Reads the header at the start of an element by DER: identifier octets (X.690 8.1.2) and a definite length in the
/// fewest octets (10.1). The raw tag is the identifier octets.
///
/// Errors: InvalidTag, InvalidLength, and the DER constraints IndefiniteLength and LengthNotMinimal, each as soon as an
/// octet shows it. Incomplete with the number of octets that the header lacks. It doesn't allocate.
#[inline(always)]
pub fn der_read_element_header(i: &[u8]) -> IResult<&[u8], Header<'_>, BerError>
    ensures { AnswersDerHeader i.now result }
{
    read_der_header(i)
}

#[inline(always)]
fn read_der_header(i: &[u8]) -> IResult<&[u8], Header<'_>, BerError>
    ensures { MatchAnswer result
        (λ x. ReadsDerHeader i.now x.1 x.0.now)
        (DerHeaderRefuses i.now)
        (DerHeaderLacks i.now)
        ⊥ }
{
    match read_short_header(i) {
        Some(found) => Ok(found),
        None => read_any_der_header(i),
    }
}

#[inline(always)]
fn read_any_der_header(i: &[u8]) -> IResult<&[u8], Header<'_>, BerError>
    ensures { MatchAnswer result
        (λ x. ReadsDerHeader i.now x.1 x.0.now)
        (DerHeaderRefuses i.now)
        (DerHeaderLacks i.now)
        ⊥ }
{
    let (rest, identifier) = read_identifier(i)?;
    let (rest, length) = read_der_length(rest)?;
    Ok((rest, header_of(identifier, Length::Definite(length))))
}

/// Reads a header of two octets, as most are: the tag number is below 31 and the length below 128 (X.690 8.1.2.2,
/// 8.1.3.4).
#[inline(always)]
fn read_short_header(i: &[u8]) -> Option<(&[u8], Header<'_>)>
    ensures ber { IfSome result (λ x. ReadsHeader i.now x.1 x.0.now) }
    ensures der { IfSome result (λ x. ReadsDerHeader i.now x.1 x.0.now) }
{
    let (first, following) = i.split_first()?;
    let (length, rest) = following.split_first()?;
    let (class, constructed, low_bits) = first_octet(*first);
    if low_bits == 31 || *length >= 128 {
        return None;
    }
    let identifier = Identifier {
        class,
        constructed,
        tag: Tag(u32::from(low_bits)),
        octets: &i[..1],
    };
    let length = Length::Definite(usize::from(*length));
    Some((rest, header_of(identifier, length)))
}

/// The header that begins with these identifier octets.
#[inline]
fn header_of(identifier: Identifier<'_>, length: Length) -> Header<'_>
    ensures { let x = identifier.entry in IsHeader result x.class x.constructed x.tag.0 length (Some x.octets.now) }
{
    let (definite, size) = parts_of(length);
    Header {
        class: identifier.class,
        constructed: identifier.constructed,
        definite,
        has_raw_tag: true,
        tag: identifier.tag,
        size,
        raw_tag: identifier.octets,
    }
}

/// A count of the headers that counted readers read with it, also with an error. It stops at its greatest value.
#[derive(Debug, Drop)]
pub struct HeaderCount(u128);

impl Model for HeaderCount {
    ghost Value = { ℕ };

    ghost view = { λ c. c.0 };
}

impl HeaderCount {
    /// A count of 0.
    pub fn new() -> HeaderCount
        ensures { result ≡ 0 }
    {
        HeaderCount(0)
    }

    /// The number of headers.
    pub fn count(&self) -> u128
        ensures { result ≡ self.now }
    {
        self.0
    }

    #[inline]
    fn raise(&mut self)
        ensures { self.new ≡ one_more self.old }
    {
        self.0 = self.0.saturating_add(1);
    }
}

/// Reads a header as `ber_read_element_header`, and raises the count by one, also on an error.
#[inline(always)]
pub fn ber_header_counted<'a>(
    i: &'a [u8],
    count: &mut HeaderCount,
) -> IResult<&'a [u8], Header<'a>, BerError>
    ensures exactly { AnswersBerHeader i.now result }
    ensures counted { count.new ≡ one_more count.old }
{
    count.raise();
    ber_read_element_header(i)
}

/// Reads a header as `der_read_element_header`, and raises the count by one, also on an error.
#[inline(always)]
pub fn der_header_counted<'a>(
    i: &'a [u8],
    count: &mut HeaderCount,
) -> IResult<&'a [u8], Header<'a>, BerError>
    ensures exactly { AnswersDerHeader i.now result }
    ensures counted { count.new ≡ one_more count.old }
{
    count.raise();
    der_read_element_header(i)
}
