//! Lexical items of ASN.1 (X.680 12).
use crate::words::{keyword_text, simple_type_text, symbol_text};
use std::fmt;

/// A lexical item, and where it stands.
#[derive(Clone, Copy, Debug, PartialEq)]
pub struct Token<'a> {
    /// What it is.
    pub kind: TokenKind,
    /// Its octets in the text.
    pub text: &'a [u8],
    /// The offset of the first octet.
    pub offset: usize,
}

/// What a lexical item is.
#[derive(Clone, Copy, Debug, PartialEq)]
pub enum TokenKind {
    /// A name that begins with a capital letter: of a type, a module, an object class or a set (12.2, 12.5).
    TypeReference,
    /// A name that begins with a small letter: of a component, an item or a value (12.3, 12.4).
    Identifier,
    /// The name of a field of an object class, such as `&Type` (X.681 7).
    FieldReference,
    /// Decimal digits (12.8).
    Number,
    /// Decimal digits with a fraction (12.9).
    RealNumber,
    /// Characters in quotes (12.14).
    CharacterString,
    /// Binary or hexadecimal digits in apostrophes (12.10, 12.12).
    DigitString,
    /// A reserved word that has a meaning in the syntax tree (12.38).
    Keyword(Keyword),
    /// A reserved word that is a type by itself (12.38).
    Simple(SimpleType),
    /// A reserved word that stands only in a constraint, an object class or a value (12.38).
    Reserved,
    /// A sign (12.20 to 12.37).
    Symbol(Symbol),
}

/// A reserved word (12.38). `ANY`, `DEFINED` and `MACRO` are reserved in X.208 of 1988.
#[derive(Clone, Copy, Debug, PartialEq)]
pub enum Keyword {
    All,
    Application,
    Automatic,
    Begin,
    Definitions,
    End,
    Explicit,
    Exports,
    Extensibility,
    From,
    Implicit,
    Implied,
    Imports,
    Macro,
    Private,
    Tags,
    Universal,
    With,
    Any,
    Bit,
    By,
    Character,
    Choice,
    Class,
    Components,
    Containing,
    Default,
    Defined,
    Embedded,
    Enumerated,
    Identifier,
    Instance,
    Integer,
    Object,
    Octet,
    Of,
    Optional,
    Pdv,
    Sequence,
    Set,
    Size,
    String,
    Syntax,
}

/// A type whose name is one reserved word, and that has no list of names (12.38).
#[derive(Clone, Copy, Debug, PartialEq)]
pub enum SimpleType {
    Boolean,
    Null,
    Real,
    External,
    RelativeOid,
    OidIri,
    RelativeOidIri,
    Time,
    Date,
    TimeOfDay,
    DateTime,
    Duration,
    UtcTime,
    GeneralizedTime,
    ObjectDescriptor,
    Utf8String,
    NumericString,
    PrintableString,
    TeletexString,
    T61String,
    VideotexString,
    Ia5String,
    GraphicString,
    VisibleString,
    Iso646String,
    GeneralString,
    UniversalString,
    BmpString,
}

/// A sign (12.20 to 12.37).
#[derive(Clone, Copy, Debug, PartialEq)]
pub enum Symbol {
    /// `::=`
    Assignment,
    /// `...`
    Ellipsis,
    /// `..`
    Range,
    /// `[[`
    OpenVersion,
    /// `]]`
    CloseVersion,
    /// `{`
    OpenBrace,
    /// `}`
    CloseBrace,
    /// `(`
    OpenParenthesis,
    /// `)`
    CloseParenthesis,
    /// `[`
    OpenBracket,
    /// `]`
    CloseBracket,
    /// `,`
    Comma,
    /// `;`
    Semicolon,
    /// `.`
    FullStop,
    /// `:`
    Colon,
    /// `<`
    LessThan,
    /// `>`
    GreaterThan,
    /// `-`
    Hyphen,
    /// `!`
    Exclamation,
    /// `|`
    VerticalLine,
    /// `@`
    At,
    /// `^`
    Circumflex,
    /// `*`
    Asterisk,
    /// `/`
    Solidus,
    /// `=`
    Equals,
}

impl fmt::Display for TokenKind {
    fn fmt<W: fmt::Write>(&self, f: &mut fmt::Formatter<W>) -> fmt::Result {
        match self {
            TokenKind::TypeReference => f.write_str("a name with a capital letter"),
            TokenKind::Identifier => f.write_str("an identifier"),
            TokenKind::FieldReference => f.write_str("the name of a field"),
            TokenKind::Number => f.write_str("a number"),
            TokenKind::RealNumber => f.write_str("a number with a fraction"),
            TokenKind::CharacterString => f.write_str("a string"),
            TokenKind::DigitString => f.write_str("a string of digits"),
            TokenKind::Keyword(keyword) => f.write_str(keyword_text(*keyword)),
            TokenKind::Simple(simple) => f.write_str(simple_type_text(*simple)),
            TokenKind::Reserved => f.write_str("a reserved word"),
            TokenKind::Symbol(symbol) => write!(f, "'{}'", symbol_text(*symbol)),
        }
    }
}
