//! The syntax tree of modules.
ghost use Rattle.std.specs.Prelude.{◌-◌, ◌≡◌, ◌≤◌, ◌↔◌, IsTrue, drop, length, take};

use crate::token::SimpleType;

/// What a text of modules says.
#[derive(Drop)]
pub struct Syntax<'a> {
    /// The text.
    pub text: &'a [u8],
    /// The modules in the order of the text (X.680 13).
    pub modules: Vec<Module<'a>>,
    /// The names that modules import (13.1).
    pub imports: Vec<Import<'a>>,
    /// The modules that names are imported from (13.1).
    pub sources: Vec<Source<'a>>,
    /// The assignments of all modules, in the order of the text (13.1).
    pub assignments: Vec<Assignment<'a>>,
    /// The types of all assignments. A type stands before the types inside it.
    pub nodes: Vec<Node<'a>>,
    /// The components of object identifier values (32.3).
    pub arcs: Vec<Arc<'a>>,
    /// The comments, in the order of the text (12.6).
    pub comments: Vec<Span>,
}

/// A part of a text: the offset of its first octet, and the offset after its last one.
#[derive(Clone, Copy, Debug, PartialEq)]
pub struct Span {
    pub start: usize,
    pub end: usize,
}

/// A module (13.1).
#[derive(Clone, Copy, Debug, PartialEq)]
pub struct Module<'a> {
    /// Its name.
    pub name: &'a [u8],
    /// Where the name stands.
    pub offset: usize,
    /// What stands between the name and `DEFINITIONS`, such as an object identifier in braces.
    pub identifier: Span,
    /// How tags are applied if their type doesn't say so (13.2, 31.2).
    pub tags: TagDefault,
    /// Whether the module says `EXTENSIBILITY IMPLIED` (13.4).
    pub extensible: bool,
    /// What it exports (13.8).
    pub exports: Exports,
}

/// What a module exports (13.8).
#[derive(Clone, Copy, Debug, PartialEq)]
pub enum Exports {
    /// All names, as `EXPORTS ALL;` or nothing says.
    All,
    /// The names between `EXPORTS` and the semicolon.
    Names(Span),
}

/// How tags are applied in a module (13.2, 31.2).
#[derive(Clone, Copy, Debug, PartialEq)]
pub enum TagDefault {
    /// Also if the module doesn't say.
    Explicit,
    Implicit,
    Automatic,
}

/// A name that a module imports (13.1).
#[derive(Clone, Copy, Debug, PartialEq)]
pub struct Import<'a> {
    pub name: &'a [u8],
    pub offset: usize,
    /// The index of the module that imports it.
    pub module: usize,
    /// The index of the module that it is from, in `sources`.
    pub source: usize,
}

/// A module that names are imported from (13.1).
#[derive(Clone, Copy, Debug, PartialEq)]
pub struct Source<'a> {
    pub name: &'a [u8],
    pub offset: usize,
    /// What stands behind the name, such as an object identifier in braces.
    pub identifier: Span,
}

/// An assignment (13.1).
#[derive(Clone, Copy, Debug, PartialEq)]
pub struct Assignment<'a> {
    pub name: &'a [u8],
    pub offset: usize,
    /// The index of its module.
    pub module: usize,
    /// The parameters in braces, or empty (X.683 8.2).
    pub parameters: Span,
    pub kind: AssignmentKind,
}

/// What is assigned to a name.
#[derive(Clone, Copy, Debug, PartialEq)]
pub enum AssignmentKind {
    /// A type, by its index in `nodes` (16.1). It may be the name of an object class.
    Type(usize),
    /// A value or an object (16.2; X.681 11.1). The index in `nodes` is that of its type or object class.
    Value(usize, ValueKind, Span),
    /// A set of values or objects (16.6; X.681 12.1). The index in `nodes` is that of their type or object class.
    Set(usize, Span),
    /// An object class (X.681 9.1).
    Class(Span),
    /// A macro of 1988 (X.208 annex A).
    Macro(Span),
}

/// What a value is, as far as it shows without its type.
#[derive(Clone, Copy, Debug, PartialEq)]
pub enum ValueKind {
    /// So many components of an object identifier from an index in `arcs` on (32.3). The value of a type with
    /// components may look the same.
    Arcs(usize, usize),
    /// A number is all of the value (19.9).
    Number,
    /// A name is all of the value.
    Reference,
    /// Another value, which is in the text.
    Text,
}

/// A component of an object identifier value (32.3).
#[derive(Clone, Copy, Debug, PartialEq)]
pub struct Arc<'a> {
    /// The name, or empty.
    pub name: &'a [u8],
    pub offset: usize,
    /// The number, if it stands there.
    pub number: Option<Number<'a>>,
}

/// A number in decimal digits (12.8, 19.1).
#[derive(Clone, Copy, Debug, PartialEq)]
pub struct Number<'a> {
    pub negative: bool,
    pub digits: &'a [u8],
}

/// A type, or what stands in the braces of one.
#[derive(Clone, Copy, Debug, PartialEq)]
pub struct Node<'a> {
    /// The identifier of a component, an alternative or an item, or empty.
    pub name: &'a [u8],
    /// Where it begins: at its identifier, if it has one.
    pub offset: usize,
    /// How many nodes it stands in. What is inside a node follows it, and is deeper.
    pub depth: usize,
    pub kind: Kind<'a>,
    /// The constraints in parentheses behind it, or empty (49.6). Those of a SEQUENCE OF or SET OF stand before `OF`.
    pub constraint: Span,
    pub presence: Presence,
}

/// Whether a component must be there (25.1).
#[derive(Clone, Copy, Debug, PartialEq)]
pub enum Presence {
    Required,
    Optional,
    /// The default value, in the text.
    Default(Span),
}

/// What a node is.
#[derive(Clone, Copy, Debug, PartialEq)]
pub enum Kind<'a> {
    /// A type of one word.
    Simple(SimpleType),
    /// With named numbers inside, or none (19.1).
    Integer,
    /// With its items inside (20.1).
    Enumerated,
    /// With named bits inside, or none (22.1).
    BitString,
    OctetString,
    ObjectIdentifier,
    /// EMBEDDED PDV (36).
    EmbeddedPdv,
    /// CHARACTER STRING (44).
    CharacterString,
    /// With its components inside (25.1).
    Sequence,
    /// With its components inside (27.1).
    Set,
    /// With its alternatives inside (29.1).
    Choice,
    /// With the type of its items inside (26.1).
    SequenceOf,
    /// With the type of its items inside (28.1).
    SetOf,
    /// With its type inside (31.1).
    Tagged(Tag<'a>, Tagging),
    /// `name < Type`: the type of this alternative of the CHOICE inside (30.1).
    Selection(&'a [u8]),
    /// ANY, which is defined by the component with this name if it isn't empty (X.208 27).
    Any(&'a [u8]),
    /// The name of a type, and before it that of a module or empty (14.1). The parameters in braces, or empty
    /// (X.683 9.1).
    Reference {
        module: &'a [u8],
        name: &'a [u8],
        parameters: Span,
    },
    /// A field of an object class, as in `CLASS.&field` (X.681 14.1).
    ClassField(Span),
    /// INSTANCE OF this object class (X.681 C.2).
    InstanceOf(&'a [u8]),
    /// COMPONENTS OF the type inside (25.1).
    ComponentsOf,
    /// `...`, with an exception or an empty part of the text (51.1, 53.1).
    Extension(Span),
    /// Additions in `[[ ]]`, which are inside (25.1).
    Additions,
    /// An item of an ENUMERATED, a number of an INTEGER or a bit of a BIT STRING, with what stands in parentheses.
    Named(NamedValue<'a>),
}

/// What an identifier stands for (19.1, 20.1, 22.1).
#[derive(Clone, Copy, Debug, PartialEq)]
pub enum NamedValue<'a> {
    /// An item of an ENUMERATED without a number.
    Unnumbered,
    Number(Number<'a>),
    /// The name of a value.
    Reference(&'a [u8]),
}

/// A tag (31.1).
#[derive(Clone, Copy, Debug, PartialEq)]
pub struct Tag<'a> {
    pub class: TagClass,
    pub number: TagNumber<'a>,
}

/// The number of a tag (31.1).
#[derive(Clone, Copy, Debug, PartialEq)]
pub enum TagNumber<'a> {
    Number(u32),
    /// The name of a value.
    Reference(&'a [u8]),
}

/// The class of a tag (31.1).
#[derive(Clone, Copy, Debug, PartialEq)]
pub enum TagClass {
    Universal,
    Application,
    ContextSpecific,
    Private,
}

/// How a tag is applied (31.1).
#[derive(Clone, Copy, Debug, PartialEq)]
pub enum Tagging {
    /// As the module says.
    Default,
    Explicit,
    Implicit,
}

impl Span {
    /// No part of a text.
    pub const EMPTY: Span = Span { start: 0, end: 0 };

    /// Returns whether nothing stands there.
    pub fn is_empty(self) -> bool
        ensures { IsTrue result ↔ self.end ≤ self.start }
    {
        self.end <= self.start
    }

    /// The part of the text, or nothing if it has no such part.
    pub fn of(self, text: &[u8]) -> &[u8]
        ensures part { self.start ≤ self.end → self.end ≤ length text.now
            → result.now ≡ take (self.end - self.start) (drop self.start text.now) }
    {
        match text.get(self.start..self.end) {
            Some(part) => part,
            None => &[],
        }
    }
}
