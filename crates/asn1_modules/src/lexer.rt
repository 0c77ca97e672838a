//! Splits a text into lexical items (X.680 12).
ghost use Rattle.std.specs.Prelude.{◌≡◌, ℕ, ◌+◌, ◌<◌, ◌≤◌, List, IfOk, IfSome, OnOk, drop, length, take};
ghost use Rattle.asn1_modules.specs.Items.{Lie};

use crate::fault::{Fault, Problem};
use crate::syntax::Span;
use crate::token::{Token, TokenKind};
use crate::words::{first_symbol, word_kind};
use std::alloc::{AllocError, Global};

/// A lexical item, or white space or a comment, which have no kind, and the number of its octets.
#[derive(Clone, Copy)]
pub(crate) struct Piece {
    pub kind: Option<TokenKind>,
    pub length: usize,
    pub is_comment: bool,
}

/// The lexical items of a text, and its comments.
#[derive(Drop)]
pub(crate) struct Lexed<'a> {
    pub tokens: Vec<Token<'a>>,
    pub comments: Vec<Span>,
}

/// The lexical items of a text, such as a part of a module that the syntax tree keeps.
pub fn tokens_in<'a>(alloc: Global, text: &'a [u8]) -> Result<Vec<Token<'a>>, Problem>
    ensures { IfOk result (λ v. Lie text.now 0 v.items (length text.now)) }
{
    match tokens_of(alloc, text) {
        Ok(lexed) => Ok(lexed.tokens),
        Err(Fault { problem, offset: _ }) => Err(problem),
    }
}

/// The lexical items of a text, and its comments.
pub(crate) fn tokens_of<'a>(alloc: Global, text: &'a [u8]) -> Result<Lexed<'a>, Fault>
    ensures { IfOk result (λ v. Lie text.now 0 v.tokens.items (length text.now)) }
{
    let mut tokens = Vec::new(alloc);
    let mut comments = Vec::new(alloc);
    let mut rest = text;
    while let Some(first) = rest.first() {
        let offset = text.len() - rest.len();
        let piece = match first_piece(*first, rest) {
            Ok(piece) => piece,
            Err(problem) => return Err(Fault { problem, offset }),
        };
        let (item, after) = rest.split_at(piece.length);
        push_item(&mut tokens, piece.kind, item, offset)?;
        if piece.is_comment {
            let end = offset.saturating_add(item.len());
            comments.push(Span { start: offset, end })?;
        }
        rest = after;
    }
    Ok(Lexed { tokens, comments })
}

/// Adds a lexical item, if it has a kind.
fn push_item<'a>(
    tokens: &mut Vec<Token<'a>>,
    kind: Option<TokenKind>,
    text: &'a [u8],
    offset: usize,
) -> Result<(), AllocError>
    ensures { (whole : List ℕ) → Lie whole 0 tokens.old.items offset
        → text.now ≡ take (length text.now) (drop offset whole)
        → OnOk result (Lie whole 0 tokens.new.items (offset + length text.now)) }
{
    if let Some(kind) = kind {
        tokens.push(Token { kind, text, offset })?;
    }
    Ok(())
}

/// What a text begins with.
fn first_piece(first: u8, text: &[u8]) -> Result<Piece, Problem>
    requires { 0 < length text.now }
    ensures { IfOk result (λ p. (0 < p.length) × (p.length ≤ length text.now)) }
{
    match first {
        b'\t' | b'\n' | 0x0b | 0x0c | b'\r' | b' ' => Ok(space(1)),
        b'a'..=b'z' => Ok(token(TokenKind::Identifier, word_length(text))),
        b'A'..=b'Z' => Ok(capital_word(text)),
        b'0'..=b'9' => Ok(number(text)),
        b'"' => quoted(text),
        b'\'' => digit_string(text),
        b'&' => field_reference(text),
        b'-' | b'/' => comment_or_symbol(first, text),
        0xc2 => no_break_space(text),
        _ => symbol(first, text),
    }
}

/// NO-BREAK SPACE, which is white space (12.1.6), in UTF-8.
fn no_break_space(text: &[u8]) -> Result<Piece, Problem>
    ensures { IfOk result (λ p. (0 < p.length) × (p.length ≤ length text.now)) }
{
    match text {
        [0xc2, 0xa0, ..] => Ok(space(2)),
        _ => Err(Problem::Octet(0xc2)),
    }
}

fn space(length: usize) -> Piece
    ensures { result.length ≡ length }
{
    Piece {
        kind: None,
        length,
        is_comment: false,
    }
}

fn comment(length: usize) -> Piece
    ensures { result.length ≡ length }
{
    Piece {
        kind: None,
        length,
        is_comment: true,
    }
}

fn token(kind: TokenKind, length: usize) -> Piece
    ensures { result.length ≡ length }
{
    Piece {
        kind: Some(kind),
        length,
        is_comment: false,
    }
}

/// A word that begins with a capital letter.
fn capital_word(text: &[u8]) -> Piece
    requires { 0 < length text.now }
    ensures { (0 < result.length) × (result.length ≤ length text.now) }
{
    let length = word_length(text);
    token(word_kind(&text[..length]), length)
}

/// The number of octets of a word: a letter, and then letters, digits, and hyphens before one of these (12.2, 12.3).
fn word_length(text: &[u8]) -> usize
    requires { 0 < length text.now }
    ensures { (0 < result) × (result ≤ length text.now) }
{
    let mut length = 1;
    while let Some(octet) = text.get(length) {
        if !octet.is_ascii_alphanumeric() && !is_inner_hyphen(text, length) {
            return length;
        }
        length += 1;
    }
    length
}

/// Returns whether a hyphen stands at an index, and a letter or digit after it.
fn is_inner_hyphen(text: &[u8], index: usize) -> bool
    requires { index < length text.now }
{
    match &text[index..] {
        [b'-', next, ..] => next.is_ascii_alphanumeric(),
        _ => false,
    }
}

/// A number, or a number with a fraction and an exponent (12.8, 12.9).
fn number(text: &[u8]) -> Piece
    requires { 0 < length text.now }
    ensures { (0 < result.length) × (result.length ≤ length text.now) }
{
    let whole = digits_from(text, 1);
    match &text[whole..] {
        [b'.', b'0'..=b'9', ..] => {
            let fraction = digits_from(text, whole + 2);
            token(TokenKind::RealNumber, exponent_from(text, fraction))
        }
        _ => token(TokenKind::Number, whole),
    }
}

/// The index of the first octet from an index on that is no digit.
fn digits_from(text: &[u8], begin: usize) -> usize
    requires { begin ≤ length text.now }
    ensures { (begin ≤ result) × (result ≤ length text.now) }
{
    begin
        + text[begin..]
            .iter()
            .take_while(|octet| octet.is_ascii_digit())
            .count()
}

/// The index after an exponent that begins at an index, if there is one.
fn exponent_from(text: &[u8], begin: usize) -> usize
    requires { begin ≤ length text.now }
    ensures { (begin ≤ result) × (result ≤ length text.now) }
{
    match &text[begin..] {
        [b'e' | b'E', b'0'..=b'9', ..] => digits_from(text, begin + 2),
        [b'e' | b'E', b'-', b'0'..=b'9', ..] => digits_from(text, begin + 3),
        _ => begin,
    }
}

/// A string in quotes, in which two quotes are one (12.14).
fn quoted(text: &[u8]) -> Result<Piece, Problem>
    requires { 0 < length text.now }
    ensures { IfOk result (λ p. (0 < p.length) × (p.length ≤ length text.now)) }
{
    let mut rest = &text[1..];
    loop {
        match rest {
            [b'"', b'"', after @ ..] => rest = after,
            [b'"', after @ ..] => {
                return Ok(token(TokenKind::CharacterString, text.len() - after.len()));
            }
            [_, after @ ..] => rest = after,
            [] => return Err(Problem::Quote),
        }
    }
}

/// Digits in apostrophes, with `B` or `H` behind them (12.10, 12.12).
fn digit_string(text: &[u8]) -> Result<Piece, Problem>
    requires { 0 < length text.now }
    ensures { IfOk result (λ p. (0 < p.length) × (p.length ≤ length text.now)) }
{
    let Some(count) = digit_count(&text[1..]) else {
        return Err(Problem::Apostrophe);
    };
    match &text[1 + count..] {
        [b'\'', b'B' | b'H', ..] => Ok(token(TokenKind::DigitString, count + 3)),
        _ => Err(Problem::Apostrophe),
    }
}

/// The number of octets before the first apostrophe.
fn digit_count(text: &[u8]) -> Option<usize>
    ensures { IfSome result (λ n. n < length text.now) }
{
    text.iter().position(|octet| *octet == b'\'')
}

/// The name of a field of an object class (X.681 7).
fn field_reference(text: &[u8]) -> Result<Piece, Problem>
    requires { 0 < length text.now }
    ensures { IfOk result (λ p. (0 < p.length) × (p.length ≤ length text.now)) }
{
    match &text[1..] {
        [b'a'..=b'z' | b'A'..=b'Z', ..] => Ok(token(
            TokenKind::FieldReference,
            1 + word_length(&text[1..]),
        )),
        _ => Err(Problem::Octet(b'&')),
    }
}

/// A comment (12.6), or a sign that begins with its first octet.
fn comment_or_symbol(first: u8, text: &[u8]) -> Result<Piece, Problem>
    requires { 0 < length text.now }
    ensures { IfOk result (λ p. (0 < p.length) × (p.length ≤ length text.now)) }
{
    match text {
        [b'-', b'-', after @ ..] => Ok(comment(2 + line_comment_length(after))),
        [b'/', b'*', after @ ..] => match block_comment_length(after) {
            Some(length) => Ok(comment(2 + length)),
            None => Err(Problem::Comment),
        },
        _ => symbol(first, text),
    }
}

/// The number of octets of a comment after its first hyphens. It ends with the line, or with two hyphens (12.6.3).
fn line_comment_length(text: &[u8]) -> usize
    ensures { result ≤ length text.now }
{
    let mut rest = text;
    loop {
        match rest {
            [b'-', b'-', after @ ..] => return text.len() - after.len(),
            [b'\n' | 0x0b | 0x0c | b'\r', ..] | [] => return text.len() - rest.len(),
            [_, after @ ..] => rest = after,
        }
    }
}

/// The number of octets of a comment after its first `/*`, if it ends. Such comments nest (12.6.4).
fn block_comment_length(text: &[u8]) -> Option<usize>
    ensures { IfSome result (λ n. n ≤ length text.now) }
{
    let mut rest = text;
    let mut inner: usize = 0;
    loop {
        match rest {
            [b'*', b'/', after @ ..] => {
                if inner == 0 {
                    return Some(text.len() - after.len());
                }
                inner -= 1;
                rest = after;
            }
            [b'/', b'*', after @ ..] => {
                inner += 1;
                rest = after;
            }
            [_, after @ ..] => rest = after,
            [] => return None,
        }
    }
}

/// A sign.
fn symbol(first: u8, text: &[u8]) -> Result<Piece, Problem>
    ensures { IfOk result (λ p. (0 < p.length) × (p.length ≤ length text.now)) }
{
    match first_symbol(text) {
        Some((symbol, length)) => Ok(token(TokenKind::Symbol(symbol), length)),
        None => Err(Problem::Octet(first)),
    }
}
