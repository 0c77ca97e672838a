//! The types of all modules, one after another: a type stands before those inside it.
ghost use Rattle.std.specs.Prelude.{◌≡◌};
ghost use Rattle.asn1_types.specs.UniversalTags.{class_of, plain, shape_of, universal_form, universal_number};

use asn1_modules::{Kind, SimpleType, TagClass};
use asn1_names::{Fault, Place, Problem, START};
use der_schema::Secrecy;
use der_schema::schema::{Class, Form, Selection};
use der_schema::words::Words;

/// A type, or what stands in the braces of one.
#[derive(Clone, Copy)]
pub(crate) struct Item {
    /// The identifier of a component or an alternative, or empty.
    pub name: &'static str,
    /// The name of an assigned type, or empty.
    pub title: &'static str,
    pub place: Place,
    pub shape: Shape,
    /// The index of the type that is inside it, or that it refers to.
    pub inner: usize,
    /// How many items it stands in.
    pub depth: usize,
    /// The index of the first item behind it and all that is inside it.
    pub after: usize,
    /// Whether it is OPTIONAL or has a DEFAULT (X.680 25.1).
    pub optional: bool,
    /// Whether its module has automatic tagging (13.2).
    pub automatic: bool,
    /// How it is shown, as a comment says.
    pub words: Option<&'static Words>,
    pub secrecy: Secrecy,
    /// What its identifier selects, if it has one.
    pub selects: Option<Selections>,
}

/// What an identifier selects.
#[derive(Clone, Copy)]
pub(crate) struct Selections {
    /// The number of the object set.
    pub set: usize,
    pub of: &'static [Selection],
}

/// What an item is.
#[derive(Clone, Copy)]
pub(crate) enum Shape {
    /// Any element.
    Any,
    /// A type with a universal tag and nothing inside.
    Plain(UniversalTag),
    /// A SEQUENCE or a SET, with this tag number.
    Components(u32),
    /// A SEQUENCE OF or a SET OF, with this tag number.
    Items(u32),
    /// A string that contains a type, with this tag number (X.682 11).
    Holder(u32),
    /// What the last identifier selects (X.681 14.1).
    Open,
    /// A string that contains what the last identifier selects, with this tag number (X.682 11).
    OpenHolder(u32),
    Choice,
    /// A tag, and whether it is explicit whatever it is the tag of (31.2.7 a, b).
    Tagged(Class, u32, bool),
    Reference,
    /// The name of an object class, or of a type with parameters that aren't given.
    Unknown,
    /// The type of the alternative with this name (30.1).
    Selection(&'static str),
    ComponentsOf,
    /// `...`
    Extension,
    /// `[[ ]]`
    Additions,
}

/// A universal tag, and how elements with it are encoded.
#[derive(Clone, Copy)]
pub(crate) struct UniversalTag {
    pub number: u32,
    pub form: Form,
}

pub(crate) const INTEGER: u32 = 2;

pub(crate) const BIT_STRING: u32 = 3;

pub(crate) const OCTET_STRING: u32 = 4;

pub(crate) const OBJECT_IDENTIFIER: u32 = 6;

pub(crate) const SEQUENCE: u32 = 16;

pub(crate) const SET: u32 = 17;

/// What a type is that has nothing inside, and no name to look up.
pub(crate) fn plain_shape(kind: Kind<'static>) -> Shape
    ensures { result ≡ shape_of kind.entry }
{
    match kind {
        Kind::Simple(simple) => Shape::Plain(simple_tag(simple)),
        Kind::Integer => primitive(INTEGER),
        Kind::Enumerated => primitive(10),
        Kind::BitString => string(BIT_STRING),
        Kind::OctetString => string(OCTET_STRING),
        Kind::ObjectIdentifier => primitive(OBJECT_IDENTIFIER),
        Kind::EmbeddedPdv => constructed(11),
        Kind::CharacterString => constructed(29),
        Kind::Sequence => Shape::Components(SEQUENCE),
        Kind::Set => Shape::Components(SET),
        Kind::Choice => Shape::Choice,
        Kind::SequenceOf => Shape::Items(SEQUENCE),
        Kind::SetOf => Shape::Items(SET),
        Kind::ComponentsOf => Shape::ComponentsOf,
        Kind::Extension(_) => Shape::Extension,
        Kind::Additions => Shape::Additions,
        _ => Shape::Any,
    }
}

pub(crate) fn primitive(number: u32) -> Shape
    ensures { result ≡ plain number Form.Primitive }
{
    Shape::Plain(UniversalTag {
        number,
        form: Form::Primitive,
    })
}

fn string(number: u32) -> Shape
    ensures { result ≡ plain number Form.Either }
{
    Shape::Plain(UniversalTag {
        number,
        form: Form::Either,
    })
}

fn constructed(number: u32) -> Shape
    ensures { result ≡ plain number Form.Constructed }
{
    Shape::Plain(UniversalTag {
        number,
        form: Form::Constructed,
    })
}

/// The tag of a type of one word (X.680 8.4, table 1), and its form (X.690 8). A string may be constructed by BER.
fn simple_tag(simple: SimpleType) -> UniversalTag
    ensures { result ≡ record { number = universal_number simple; form = universal_form simple } }
{
    UniversalTag {
        number: simple_number(simple),
        form: simple_form(simple),
    }
}

/// The number of the tag of a type of one word (X.680 8.4, table 1).
fn simple_number(simple: SimpleType) -> u32
    ensures { result ≡ universal_number simple }
{
    match simple {
        SimpleType::Boolean => 1,
        SimpleType::Null => 5,
        SimpleType::ObjectDescriptor => 7,
        SimpleType::External => 8,
        SimpleType::Real => 9,
        SimpleType::Utf8String => 12,
        SimpleType::RelativeOid => 13,
        SimpleType::Time => 14,
        SimpleType::NumericString => 18,
        SimpleType::PrintableString => 19,
        SimpleType::TeletexString | SimpleType::T61String => 20,
        SimpleType::VideotexString => 21,
        SimpleType::Ia5String => 22,
        SimpleType::UtcTime => 23,
        SimpleType::GeneralizedTime => 24,
        SimpleType::GraphicString => 25,
        SimpleType::VisibleString | SimpleType::Iso646String => 26,
        SimpleType::GeneralString => 27,
        SimpleType::UniversalString => 28,
        SimpleType::BmpString => 30,
        SimpleType::Date => 31,
        SimpleType::TimeOfDay => 32,
        SimpleType::DateTime => 33,
        SimpleType::Duration => 34,
        SimpleType::OidIri => 35,
        SimpleType::RelativeOidIri => 36,
    }
}

/// The form of a type of one word (X.690 8.2 to 8.26). UTCTime, GeneralizedTime and ObjectDescriptor are strings (X.680
/// 46.3, 47.3, 48.3).
fn simple_form(simple: SimpleType) -> Form
    ensures { result ≡ universal_form simple }
{
    match simple {
        SimpleType::External => Form::Constructed,
        SimpleType::Boolean
        | SimpleType::Null
        | SimpleType::Real
        | SimpleType::RelativeOid
        | SimpleType::OidIri
        | SimpleType::RelativeOidIri
        | SimpleType::Time
        | SimpleType::Date
        | SimpleType::TimeOfDay
        | SimpleType::DateTime
        | SimpleType::Duration => Form::Primitive,
        _ => Form::Either,
    }
}

/// The class of a tag (31.1).
pub(crate) fn class_of(class: TagClass) -> Class
    ensures { result ≡ class_of class }
{
    match class {
        TagClass::Universal => Class::Universal,
        TagClass::Application => Class::Application,
        TagClass::ContextSpecific => Class::ContextSpecific,
        TagClass::Private => Class::Private,
    }
}

/// A fault at the item with an index.
pub(crate) fn fault_at(items: &[Item], index: usize, problem: Problem) -> Fault {
    match items.get(index) {
        Some(item) => item.place.fault(problem),
        None => START.fault(problem),
    }
}
