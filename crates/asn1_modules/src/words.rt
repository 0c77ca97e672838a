//! The reserved words and the signs of ASN.1.
ghost use Rattle.std.specs.Prelude.{◌<◌, ◌≤◌, IfSome, IsTrue, length};

use crate::token::{Keyword, SimpleType, Symbol, TokenKind};

/// The reserved words around types.
const MODULE_KEYWORDS: [(&str, Keyword); 18] = [
    ("ALL", Keyword::All),
    ("APPLICATION", Keyword::Application),
    ("AUTOMATIC", Keyword::Automatic),
    ("BEGIN", Keyword::Begin),
    ("DEFINITIONS", Keyword::Definitions),
    ("END", Keyword::End),
    ("EXPLICIT", Keyword::Explicit),
    ("EXPORTS", Keyword::Exports),
    ("EXTENSIBILITY", Keyword::Extensibility),
    ("FROM", Keyword::From),
    ("IMPLICIT", Keyword::Implicit),
    ("IMPLIED", Keyword::Implied),
    ("IMPORTS", Keyword::Imports),
    ("MACRO", Keyword::Macro),
    ("PRIVATE", Keyword::Private),
    ("TAGS", Keyword::Tags),
    ("UNIVERSAL", Keyword::Universal),
    ("WITH", Keyword::With),
];

/// The reserved words in types.
const TYPE_KEYWORDS: [(&str, Keyword); 25] = [
    ("ANY", Keyword::Any),
    ("BIT", Keyword::Bit),
    ("BY", Keyword::By),
    ("CHARACTER", Keyword::Character),
    ("CHOICE", Keyword::Choice),
    ("CLASS", Keyword::Class),
    ("COMPONENTS", Keyword::Components),
    ("CONTAINING", Keyword::Containing),
    ("DEFAULT", Keyword::Default),
    ("DEFINED", Keyword::Defined),
    ("EMBEDDED", Keyword::Embedded),
    ("ENUMERATED", Keyword::Enumerated),
    ("IDENTIFIER", Keyword::Identifier),
    ("INSTANCE", Keyword::Instance),
    ("INTEGER", Keyword::Integer),
    ("OBJECT", Keyword::Object),
    ("OCTET", Keyword::Octet),
    ("OF", Keyword::Of),
    ("OPTIONAL", Keyword::Optional),
    ("PDV", Keyword::Pdv),
    ("SEQUENCE", Keyword::Sequence),
    ("SET", Keyword::Set),
    ("SIZE", Keyword::Size),
    ("STRING", Keyword::String),
    ("SYNTAX", Keyword::Syntax),
];

/// Types of one word that aren't strings of characters.
const SIMPLE_TYPES: [(&str, SimpleType); 15] = [
    ("BOOLEAN", SimpleType::Boolean),
    ("NULL", SimpleType::Null),
    ("REAL", SimpleType::Real),
    ("EXTERNAL", SimpleType::External),
    ("RELATIVE-OID", SimpleType::RelativeOid),
    ("OID-IRI", SimpleType::OidIri),
    ("RELATIVE-OID-IRI", SimpleType::RelativeOidIri),
    ("TIME", SimpleType::Time),
    ("DATE", SimpleType::Date),
    ("TIME-OF-DAY", SimpleType::TimeOfDay),
    ("DATE-TIME", SimpleType::DateTime),
    ("DURATION", SimpleType::Duration),
    ("UTCTime", SimpleType::UtcTime),
    ("GeneralizedTime", SimpleType::GeneralizedTime),
    ("ObjectDescriptor", SimpleType::ObjectDescriptor),
];

/// Strings of characters (X.680 41.1).
const STRING_TYPES: [(&str, SimpleType); 13] = [
    ("UTF8String", SimpleType::Utf8String),
    ("NumericString", SimpleType::NumericString),
    ("PrintableString", SimpleType::PrintableString),
    ("TeletexString", SimpleType::TeletexString),
    ("T61String", SimpleType::T61String),
    ("VideotexString", SimpleType::VideotexString),
    ("IA5String", SimpleType::Ia5String),
    ("GraphicString", SimpleType::GraphicString),
    ("VisibleString", SimpleType::VisibleString),
    ("ISO646String", SimpleType::Iso646String),
    ("GeneralString", SimpleType::GeneralString),
    ("UniversalString", SimpleType::UniversalString),
    ("BMPString", SimpleType::BmpString),
];

/// Reserved words that stand only in constraints, object classes and values.
const RESERVED_WORDS: [&str; 23] = [
    "ABSENT",
    "COMPONENT",
    "CONSTRAINED",
    "ENCODED",
    "ENCODING-CONTROL",
    "EXCEPT",
    "FALSE",
    "INCLUDES",
    "INSTRUCTIONS",
    "INTERSECTION",
    "MAX",
    "MIN",
    "MINUS-INFINITY",
    "NOT-A-NUMBER",
    "PATTERN",
    "PLUS-INFINITY",
    "PRESENT",
    "SETTINGS",
    "TRUE",
    "UNION",
    "UNIQUE",
    "SUCCESSORS",
    "DESCENDANTS",
];

/// The signs. One that begins with another stands before it.
const SYMBOLS: [(&str, Symbol); 25] = [
    ("::=", Symbol::Assignment),
    ("...", Symbol::Ellipsis),
    ("..", Symbol::Range),
    ("[[", Symbol::OpenVersion),
    ("]]", Symbol::CloseVersion),
    ("{", Symbol::OpenBrace),
    ("}", Symbol::CloseBrace),
    ("(", Symbol::OpenParenthesis),
    (")", Symbol::CloseParenthesis),
    ("[", Symbol::OpenBracket),
    ("]", Symbol::CloseBracket),
    (",", Symbol::Comma),
    (";", Symbol::Semicolon),
    (".", Symbol::FullStop),
    (":", Symbol::Colon),
    ("<", Symbol::LessThan),
    (">", Symbol::GreaterThan),
    ("-", Symbol::Hyphen),
    ("!", Symbol::Exclamation),
    ("|", Symbol::VerticalLine),
    ("@", Symbol::At),
    ("^", Symbol::Circumflex),
    ("*", Symbol::Asterisk),
    ("/", Symbol::Solidus),
    ("=", Symbol::Equals),
];

/// What a word is that begins with a capital letter.
pub(crate) fn word_kind(word: &[u8]) -> TokenKind {
    if let Some(keyword) = keyword_in(&MODULE_KEYWORDS, word) {
        return TokenKind::Keyword(keyword);
    }
    if let Some(keyword) = keyword_in(&TYPE_KEYWORDS, word) {
        return TokenKind::Keyword(keyword);
    }
    if let Some(simple) = simple_type_in(&SIMPLE_TYPES, word) {
        return TokenKind::Simple(simple);
    }
    if let Some(simple) = simple_type_in(&STRING_TYPES, word) {
        return TokenKind::Simple(simple);
    }
    if is_reserved(word) {
        return TokenKind::Reserved;
    }
    TokenKind::TypeReference
}

fn keyword_in(rows: &[(&'static str, Keyword)], word: &[u8]) -> Option<Keyword> {
    let (_, keyword) = rows.iter().find(|(text, _)| text.as_bytes() == word)?;
    Some(*keyword)
}

fn simple_type_in(rows: &[(&'static str, SimpleType)], word: &[u8]) -> Option<SimpleType> {
    let (_, simple) = rows.iter().find(|(text, _)| text.as_bytes() == word)?;
    Some(*simple)
}

fn is_reserved(word: &[u8]) -> bool {
    RESERVED_WORDS.iter().any(|text| text.as_bytes() == word)
}

/// The longest sign that a text begins with, and its number of octets.
pub(crate) fn first_symbol(text: &[u8]) -> Option<(Symbol, usize)>
    ensures { IfSome result (λ x. (0 < x.1) × (x.1 ≤ length text.now)) }
{
    for (sign, symbol) in &SYMBOLS {
        if begins_with(text, sign) {
            return Some((*symbol, sign.len()));
        }
    }
    None
}

/// Returns whether a text begins with a sign that isn't empty.
fn begins_with(text: &[u8], sign: &str) -> bool
    ensures { IsTrue result → (0 < length sign.now) × (length sign.now ≤ length text.now) }
{
    !sign.is_empty() && text.starts_with(sign.as_bytes())
}

/// A reserved word in letters.
pub(crate) fn keyword_text(keyword: Keyword) -> &'static str {
    match keyword_text_in(&MODULE_KEYWORDS, keyword) {
        Some(text) => text,
        None => keyword_text_in(&TYPE_KEYWORDS, keyword).unwrap_or(""),
    }
}

fn keyword_text_in(rows: &[(&'static str, Keyword)], wanted: Keyword) -> Option<&'static str> {
    let (text, _) = rows.iter().find(|(_, keyword)| *keyword == wanted)?;
    Some(text)
}

/// The name of a type of one word.
pub(crate) fn simple_type_text(simple: SimpleType) -> &'static str {
    match simple_type_text_in(&SIMPLE_TYPES, simple) {
        Some(text) => text,
        None => simple_type_text_in(&STRING_TYPES, simple).unwrap_or(""),
    }
}

fn simple_type_text_in(
    rows: &[(&'static str, SimpleType)],
    wanted: SimpleType,
) -> Option<&'static str> {
    let (text, _) = rows.iter().find(|(_, simple)| *simple == wanted)?;
    Some(text)
}

/// A sign as it stands in a text.
pub(crate) fn symbol_text(symbol: Symbol) -> &'static str {
    symbol_text_in(&SYMBOLS, symbol).unwrap_or("")
}

fn symbol_text_in(rows: &[(&'static str, Symbol)], wanted: Symbol) -> Option<&'static str> {
    let (text, _) = rows.iter().find(|(_, symbol)| *symbol == wanted)?;
    Some(text)
}
