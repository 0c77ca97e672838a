//! Object classes and object sets (X.681 9, 11, 12).
ghost use Rattle.std.specs.Prelude.{◌≤◌, length};

use asn1_modules::{Keyword, Problem, Symbol, Token, TokenKind, tokens_in};
use std::alloc::Global;
use std::collections::BTreeMap;

/// What a field of an object class is (X.681 9.3).
#[derive(Clone, Copy, Debug, PartialEq)]
pub enum ClassField {
    /// Any type.
    Open,
    /// An OBJECT IDENTIFIER.
    Identifier,
    /// An INTEGER.
    Number,
    /// Another field, or none.
    Other,
}

/// An element of an object set (X.681 12.3).
#[derive(Clone, Copy, Debug, PartialEq)]
pub(crate) enum Element<'a> {
    /// An object, in braces.
    Object(&'a [u8]),
    /// The name of an object or of a set.
    Name(&'a [u8]),
}

/// What an object says of a field (X.681 11.7).
#[derive(Clone, Copy, Debug, PartialEq)]
pub(crate) enum Setting<'a> {
    /// The name of a type or of a value.
    Name(&'a [u8]),
    /// A number in decimal digits.
    Number(&'a [u8]),
    /// Something else, or nothing.
    Other,
}

/// The names of the object classes that have no assignment (X.681 annexes A, B).
pub(crate) const TYPE_IDENTIFIER: &str = "TYPE-IDENTIFIER";

pub(crate) const ABSTRACT_SYNTAX: &str = "ABSTRACT-SYNTAX";

/// The object class TYPE-IDENTIFIER (X.681 A.2).
pub(crate) const TYPE_IDENTIFIER_CLASS: &[u8] =
    b"CLASS {&id OBJECT IDENTIFIER UNIQUE, &Type} WITH SYNTAX {&Type IDENTIFIED BY &id}";

/// An object class (X.681 9.3).
#[derive(Drop)]
pub(crate) struct Class {
    /// The fields by their names.
    fields: BTreeMap<&'static [u8], ClassField>,
    tokens: Vec<Token<'static>>,
    /// The index of the first item of the syntax for objects.
    syntax: usize,
    /// The number of octets.
    pub size: usize,
}

impl Class {
    /// The object class in a text, from `CLASS` on.
    pub fn read(alloc: Global, text: &'static [u8]) -> Result<Class, Problem> {
        let tokens = tokens_in(alloc, text)?;
        let end = syntax_start(&tokens);
        let fields = fields_of(alloc, first_group(&tokens[..end]))?;
        let syntax = end.saturating_add(group_start(&tokens[end..]));
        Ok(Class {
            fields,
            tokens,
            syntax,
            size: text.len(),
        })
    }

    /// What the field with this name is.
    pub fn field(&self, name: &'static [u8]) -> ClassField {
        match self.fields.get(&name) {
            Some(field) => *field,
            None => ClassField::Other,
        }
    }

    /// What an object says of a field. The object is the text in its braces.
    pub fn setting(
        &self,
        alloc: Global,
        object: &'static [u8],
        field: &[u8],
    ) -> Result<Setting<'static>, Problem> {
        let object = tokens_in(alloc, object)?;
        let syntax = self.tokens.get(self.syntax..).unwrap_or(&[]);
        Ok(setting_in(syntax, &object, field))
    }
}

/// The index of SYNTAX, or of the end.
fn syntax_start(tokens: &[Token<'_>]) -> usize
    ensures { result ≤ length tokens.now }
{
    let start = tokens
        .iter()
        .position(|token| token.kind == TokenKind::Keyword(Keyword::Syntax));
    match start {
        Some(start) => start,
        None => tokens.len(),
    }
}

/// The items behind the first opening brace.
fn first_group<'t, 'a>(tokens: &'t [Token<'a>]) -> &'t [Token<'a>] {
    &tokens[group_start(tokens)..]
}

/// The index behind the first opening brace, or that of the end.
fn group_start(tokens: &[Token<'_>]) -> usize
    ensures { result ≤ length tokens.now }
{
    let open = tokens
        .iter()
        .position(|token| token.kind == TokenKind::Symbol(Symbol::OpenBrace));
    match open {
        Some(open) => open + 1,
        None => tokens.len(),
    }
}

/// The fields of a class. A name begins the list or is behind a comma.
fn fields_of(
    alloc: Global,
    tokens: &[Token<'static>],
) -> Result<BTreeMap<&'static [u8], ClassField>, Problem> {
    let mut fields = BTreeMap::new(alloc);
    let mut begins = true;
    let mut last = None;
    for token in tokens {
        if let Some(name) = last {
            fields.insert(name, kind_of(name, token.kind))?;
        }
        last = field_name(*token, begins);
        begins = token.kind == TokenKind::Symbol(Symbol::Comma);
    }
    Ok(fields)
}

/// The name of a field, if an item begins one.
fn field_name(token: Token<'static>, begins: bool) -> Option<&'static [u8]> {
    match token.kind {
        TokenKind::FieldReference if begins => Some(token.text),
        _ => None,
    }
}

/// What a field is, by its name and the item behind it. The name of an open type begins with a capital letter.
fn kind_of(name: &[u8], behind: TokenKind) -> ClassField {
    match (behind, name) {
        (_, [_, b'A'..=b'Z', ..]) if ends_field(behind) => ClassField::Open,
        (TokenKind::Keyword(Keyword::Object), [_, b'a'..=b'z', ..]) => ClassField::Identifier,
        (TokenKind::Keyword(Keyword::Integer), [_, b'a'..=b'z', ..]) => ClassField::Number,
        _ => ClassField::Other,
    }
}

/// Whether an item behind the name of an open type says that it is one.
fn ends_field(kind: TokenKind) -> bool {
    matches!(
        kind,
        TokenKind::Symbol(Symbol::Comma | Symbol::CloseBrace)
            | TokenKind::Keyword(Keyword::Optional | Keyword::Default)
    )
}

/// What an object says of a field, by the syntax of its class (X.681 10, 11.6). A setting is one item.
fn setting_in<'a>(syntax: &[Token<'_>], object: &[Token<'a>], field: &[u8]) -> Setting<'a> {
    let mut syntax = syntax;
    let mut object = object;
    while let Some((word, after)) = syntax.split_first() {
        let Some((item, rest)) = object.split_first() else {
            return Setting::Other;
        };
        if word.kind == TokenKind::FieldReference && word.text == field {
            return setting_of(item);
        }
        if is_literal(word.kind) && word.text != item.text {
            return Setting::Other;
        }
        object = object_behind(word, object, rest);
        syntax = syntax_behind(word, item, after);
    }
    Setting::Other
}

/// Whether an item of a syntax stands in an object as it is.
fn is_literal(kind: TokenKind) -> bool {
    kind != TokenKind::FieldReference && !is_bracket(kind)
}

fn is_bracket(kind: TokenKind) -> bool {
    matches!(
        kind,
        TokenKind::Symbol(
            Symbol::OpenBracket | Symbol::OpenVersion | Symbol::CloseBracket | Symbol::CloseVersion
        )
    )
}

/// What is left of an object behind an item of the syntax. A bracket takes nothing of it.
fn object_behind<'t, 'a>(
    word: &Token<'_>,
    object: &'t [Token<'a>],
    rest: &'t [Token<'a>],
) -> &'t [Token<'a>] {
    if is_bracket(word.kind) {
        return object;
    }
    rest
}

/// What is left of a syntax behind an item. An optional group that doesn't begin with the item of the object is passed.
fn syntax_behind<'t, 'a>(
    word: &Token<'_>,
    item: &Token<'_>,
    after: &'t [Token<'a>],
) -> &'t [Token<'a>]
    ensures { length result.now ≤ length after.now }
{
    if brackets(word.kind, Symbol::OpenBracket, Symbol::OpenVersion) > 0
        && !may_begin(after, item)
    {
        return behind_group(after);
    }
    after
}

/// Whether an item may be the first one of an optional group.
fn may_begin(group: &[Token<'_>], item: &Token<'_>) -> bool {
    match group.first() {
        Some(first) => first.kind == TokenKind::FieldReference || first.text == item.text,
        None => false,
    }
}

/// What is behind the end of an optional group, or nothing.
fn behind_group<'t, 'a>(group: &'t [Token<'a>]) -> &'t [Token<'a>]
    ensures { length result.now ≤ length group.now }
{
    &group[end_of_group(group)..]
}

/// The index behind the end of an optional group, inside which others may be. `[[` and `]]` are two brackets.
fn end_of_group(group: &[Token<'_>]) -> usize
    ensures { result ≤ length group.now }
{
    let mut inner: usize = 0;
    let mut end: usize = 0;
    while let Some(token) = group.get(end) {
        end += 1;
        let closed = brackets(token.kind, Symbol::CloseBracket, Symbol::CloseVersion);
        if inner < closed {
            return end;
        }
        let opened = brackets(token.kind, Symbol::OpenBracket, Symbol::OpenVersion);
        inner = inner.saturating_sub(closed).saturating_add(opened);
    }
    end
}

/// How many brackets an item is, of which these are one and two.
fn brackets(kind: TokenKind, one: Symbol, two: Symbol) -> usize {
    match kind {
        TokenKind::Symbol(symbol) if symbol == one => 1,
        TokenKind::Symbol(symbol) if symbol == two => 2,
        _ => 0,
    }
}

fn setting_of<'a>(item: &Token<'a>) -> Setting<'a> {
    match item.kind {
        TokenKind::TypeReference | TokenKind::Identifier => Setting::Name(item.text),
        TokenKind::Number => Setting::Number(item.text),
        _ => Setting::Other,
    }
}

/// The elements of an object set, which is in braces.
pub(crate) fn elements_of<'a>(alloc: Global, set: &'a [u8]) -> Result<Vec<Element<'a>>, Problem> {
    let tokens = tokens_in(alloc, set)?;
    let mut elements = Vec::new(alloc);
    let mut depth: usize = 0;
    let mut start: usize = 0;
    for token in &tokens {
        match token.kind {
            TokenKind::Symbol(Symbol::OpenBrace) => {
                depth = depth.saturating_add(1);
                if depth == OBJECT_DEPTH {
                    start = token.offset.saturating_add(1);
                }
            }
            TokenKind::Symbol(Symbol::CloseBrace) => {
                if depth == OBJECT_DEPTH {
                    let object = set.get(start..token.offset).unwrap_or(&[]);
                    elements.push(Element::Object(object))?;
                }
                depth = depth.saturating_sub(1);
            }
            TokenKind::TypeReference | TokenKind::Identifier if depth < OBJECT_DEPTH => {
                elements.push(Element::Name(token.text))?;
            }
            _ => {}
        }
    }
    Ok(elements)
}

/// How many braces are open in an object of a set.
const OBJECT_DEPTH: usize = 2;
