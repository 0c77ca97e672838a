//! Constraints that say what a string contains, and those by an object set.
use crate::items::Items;
use asn1_modules::{Keyword, Problem, Symbol, Token, TokenKind, tokens_in};
use std::alloc::Global;

/// What a string contains (X.682 11).
#[derive(Clone, Copy, Debug, PartialEq)]
pub enum Contained<'a> {
    /// The type with this name, in this module or imported.
    Name(&'a [u8]),
    /// A field of this object class, and the set of its objects.
    Field(Field<'a>, Table<'a>),
    /// Nothing, or another type.
    Other,
}

/// A field of an object class (X.681 14.1).
#[derive(Clone, Copy, Debug, PartialEq)]
pub struct Field<'a> {
    pub class: &'a [u8],
    pub name: &'a [u8],
}

/// A constraint by an object set (X.682 10).
#[derive(Clone, Copy, Debug, PartialEq)]
pub struct Table<'a> {
    /// The name of the set.
    pub set: &'a [u8],
    /// The component that selects an object, or None.
    pub path: Option<Path<'a>>,
}

/// A component of the SEQUENCE or SET around a type, and a component of that one, or empty (X.682 10.3).
#[derive(Clone, Copy, Debug, PartialEq)]
pub struct Path<'a> {
    pub first: &'a [u8],
    pub second: &'a [u8],
}

/// What the constraints of a string say that it contains.
pub fn contained_in<'a>(alloc: Global, constraint: &'a [u8]) -> Result<Contained<'a>, Problem> {
    let tokens = tokens_in(alloc, constraint)?;
    Ok(behind_containing(&tokens).unwrap_or(Contained::Other))
}

fn behind_containing<'a>(tokens: &[Token<'a>]) -> Option<Contained<'a>> {
    let containing = tokens.iter().position(|token| token.kind
        == TokenKind::Keyword(Keyword::Containing))?;
    let mut items = Items {
        tokens,
        read: containing.saturating_add(1),
    };
    let class = items.take(TokenKind::TypeReference)?;
    match items.next()?.kind {
        TokenKind::Symbol(Symbol::OpenBrace) => None,
        TokenKind::Symbol(Symbol::FullStop) => {
            items.symbol(Symbol::FullStop)?;
            let name = items.take(TokenKind::FieldReference)?;
            let table = items.table()?;
            Some(Contained::Field(Field { class, name }, table))
        }
        _ => Some(Contained::Name(class)),
    }
}

/// The field in a text such as `CLASS.&field`. None if it is a field of a field.
pub fn class_field<'a>(alloc: Global, text: &'a [u8]) -> Result<Option<Field<'a>>, Problem> {
    let tokens = tokens_in(alloc, text)?;
    let mut items = Items {
        tokens: &tokens,
        read: 0,
    };
    Ok(items.field())
}

/// The constraint by an object set, if the constraints of a type are one.
pub fn table_in<'a>(alloc: Global, constraint: &'a [u8]) -> Result<Option<Table<'a>>, Problem> {
    let tokens = tokens_in(alloc, constraint)?;
    let mut items = Items {
        tokens: &tokens,
        read: 0,
    };
    Ok(items.table())
}

impl<'t, 'a> Items<'t, 'a> {
    fn field(&mut self) -> Option<Field<'a>> {
        let class = self.take(TokenKind::TypeReference)?;
        self.symbol(Symbol::FullStop)?;
        let name = self.take(TokenKind::FieldReference)?;
        match self.next() {
            None => Some(Field { class, name }),
            Some(_) => None,
        }
    }

    /// Reads `({Set})` or `({Set}{@first.second})`.
    fn table(&mut self) -> Option<Table<'a>> {
        self.symbol(Symbol::OpenParenthesis)?;
        self.symbol(Symbol::OpenBrace)?;
        let set = self.take(TokenKind::TypeReference)?;
        self.symbol(Symbol::CloseBrace)?;
        if self.symbol(Symbol::CloseParenthesis).is_some() {
            return Some(Table { set, path: None });
        }
        let path = Some(self.path()?);
        self.symbol(Symbol::CloseParenthesis)?;
        Some(Table { set, path })
    }

    /// Reads `{@first.second}`. A dot behind `@` begins the innermost list (X.682 10.7).
    fn path(&mut self) -> Option<Path<'a>> {
        self.symbol(Symbol::OpenBrace)?;
        self.symbol(Symbol::At)?;
        self.symbol(Symbol::FullStop);
        let first = self.take(TokenKind::Identifier)?;
        let mut second: &'a [u8] = b"";
        if self.symbol(Symbol::FullStop).is_some() {
            second = self.take(TokenKind::Identifier)?;
        }
        self.symbol(Symbol::CloseBrace)?;
        Some(Path { first, second })
    }
}
