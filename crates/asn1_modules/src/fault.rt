//! Errors of modules.
ghost use Rattle.std.specs.Prelude.{◌≡◌, ◌+◌, ◌==◌, count_by, not};
ghost use Rattle.std.specs.List.{suffix_len};
ghost use Rattle.asn1_modules.specs.Places.{IsIn};

use crate::token::TokenKind;
use std::alloc::{AllocError, AllocFailed};
use std::fmt;

/// The most types that may stand inside each other.
pub const MOST_DEPTH: usize = 64;

/// What is wrong with a text.
#[derive(Clone, Copy, Debug, PartialEq, thiserror::Error)]
pub enum Problem {
    /// Another lexical item was expected.
    #[error("expected {expected}, found {found}")]
    Unexpected { expected: Expected, found: Found },
    /// A comment between `/*` and `*/` doesn't end (X.680 12.6).
    #[error("the comment doesn't end")]
    Comment,
    /// A string in quotes doesn't end (12.14).
    #[error("the string doesn't end")]
    Quote,
    /// A string in apostrophes doesn't end, or neither `B` nor `H` follows it (12.10, 12.12).
    #[error("the string of digits doesn't end in 'B or 'H")]
    Apostrophe,
    /// An octet that begins no lexical item (11.1).
    #[error("octet {0:02x} begins no lexical item")]
    Octet(u8),
    /// More than 64 types stand inside each other.
    #[error("more than {MOST_DEPTH} types inside each other")]
    TooDeep,
    /// A tag number is above 2^32-1.
    #[error("the tag number is too large")]
    TagNumber,
    /// There was no memory.
    #[error("out of memory")]
    OutOfMemory,
}

/// What a lexical item is that was expected.
#[derive(Clone, Copy, Debug, PartialEq)]
pub enum Expected {
    /// The name of a module, which begins with a capital letter.
    ModuleName,
    /// The name of a type, which begins with a capital letter.
    TypeName,
    /// An assignment, or `END`.
    Assignment,
    /// A name that is exported or imported.
    ImportedName,
    /// A type.
    Type,
    /// A value.
    Value,
    /// The name of a component, an item of an enumeration, a number or a bit.
    Identifier,
    /// `{`, or `OF`, maybe behind a constraint.
    BraceOrOf,
    /// A comma or the end of the list.
    CommaOrEnd,
    /// A number.
    Number,
    /// `CLASS` and what its braces hold, a type, or the governor of a set.
    End,
    /// This lexical item.
    Item(TokenKind),
}

/// What stands where something else was expected.
#[derive(Clone, Copy, Debug, PartialEq)]
pub enum Found {
    /// The end of the text.
    End,
    /// This lexical item.
    Item(TokenKind),
}

impl fmt::Display for Expected {
    fn fmt<W: fmt::Write>(&self, f: &mut fmt::Formatter<W>) -> fmt::Result {
        match self {
            Expected::ModuleName => f.write_str("the name of a module"),
            Expected::TypeName => f.write_str("the name of a type"),
            Expected::Assignment => f.write_str("an assignment or END"),
            Expected::ImportedName => f.write_str("a name"),
            Expected::Type => f.write_str("a type"),
            Expected::Value => f.write_str("a value"),
            Expected::Identifier => f.write_str("an identifier"),
            Expected::BraceOrOf => f.write_str("'{' or OF"),
            Expected::CommaOrEnd => f.write_str("',' or the end of the list"),
            Expected::Number => f.write_str("a number"),
            Expected::End => f.write_str("the end"),
            Expected::Item(kind) => write!(f, "{kind}"),
        }
    }
}

impl fmt::Display for Found {
    fn fmt<W: fmt::Write>(&self, f: &mut fmt::Formatter<W>) -> fmt::Result {
        match self {
            Found::End => f.write_str("the end of the text"),
            Found::Item(kind) => write!(f, "{kind}"),
        }
    }
}

/// What is wrong with a text, and where.
#[derive(Clone, Copy, Debug, PartialEq, thiserror::Error)]
#[error("line {line}, column {column}: {problem}")]
pub struct ModuleError {
    /// What is wrong.
    pub problem: Problem,
    /// The offset in the text.
    pub offset: usize,
    /// The line, from 1.
    pub line: usize,
    /// The column, from 1, in octets.
    pub column: usize,
}

/// The problem of a text, and its offset.
#[derive(Clone, Copy)]
pub struct Fault {
    pub problem: Problem,
    pub offset: usize,
}

const OUT_OF_MEMORY: Fault = Fault {
    problem: Problem::OutOfMemory,
    offset: 0,
};

impl From<AllocError> for Fault {
    fn from(_e: AllocError) -> Fault {
        OUT_OF_MEMORY
    }
}

impl<T: Drop> From<AllocFailed<T>> for Fault {
    fn from(_e: AllocFailed<T>) -> Fault {
        OUT_OF_MEMORY
    }
}

impl<T: Drop> From<AllocFailed<T>> for Problem {
    fn from(_e: AllocFailed<T>) -> Problem {
        Problem::OutOfMemory
    }
}

/// The error with the line and column of a fault.
pub(crate) fn located(text: &[u8], fault: Fault) -> ModuleError
    ensures place { IsIn text.now result }
    ensures problem { result.problem ≡ fault.problem }
{
    let offset = fault.offset.min(text.len());
    let before = &text[..offset];
    ModuleError {
        problem: fault.problem,
        offset,
        line: line_after(before),
        column: column_after(before),
    }
}

/// The number of the line after a text, from 1.
pub fn line_after(text: &[u8]) -> usize
    ensures { result ≡ 1 + count_by (λ c. c == 10) text.now }
{
    1 + text.iter().filter(|octet| **octet == b'\n').count()
}

/// The number of the column after a text, from 1, in octets.
pub fn column_after(text: &[u8]) -> usize
    ensures { result ≡ 1 + suffix_len (λ c. not (c == 10)) text.now }
{
    let mut column = 1;
    let mut rest = text;
    while let Some((last, before)) = rest.split_last() {
        if *last == b'\n' {
            return column;
        }
        column += 1;
        rest = before;
    }
    column
}
