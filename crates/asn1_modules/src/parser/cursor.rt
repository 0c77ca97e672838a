//! A cursor over lexical items.
ghost use Rattle.std.specs.Prelude.{◌≡◌, MatchBool, MatchOption, OnOk, length};
ghost use Rattle.asn1_modules.specs.Progress.{Advances, NeverBack};

use crate::fault::{Expected, Fault, Found, Problem};
use crate::token::{Keyword, Symbol, Token, TokenKind};

/// The lexical items of a text, and how many of them aren't read yet.
#[derive(Clone, Copy)]
pub(crate) struct Cursor<'t, 'a> {
    pub tokens: &'t [Token<'a>],
    /// The number of items that aren't read yet.
    pub left: usize,
    /// The offset after the last item that was read.
    pub read: usize,
    /// The length of the text.
    pub end: usize,
}

impl<'t, 'a> Cursor<'t, 'a> {
    /// A cursor at the first lexical item of a text of this length.
    pub fn new(tokens: &'t [Token<'a>], end: usize) -> Cursor<'t, 'a>
        ensures tokens { result.tokens.now ≡ tokens.now }
        ensures left { result.left ≡ length tokens.now }
        ensures read { result.read ≡ 0 }
        ensures end { result.end ≡ end }
    {
        Cursor {
            tokens,
            left: tokens.len(),
            read: 0,
            end,
        }
    }

    /// The item that has so many before it that aren't read yet.
    fn ahead(&self, count: usize) -> Option<Token<'a>> {
        let read = self.tokens.len().saturating_sub(self.left);
        let token = self.tokens.get(read.saturating_add(count))?;
        Some(*token)
    }

    /// Reads the next item, if there is one.
    pub fn next(&mut self) -> Option<Token<'a>>
        ensures { MatchOption result (NeverBack self.old self.new) (λ _. Advances self.old self.new) }
    {
        if self.left == 0 {
            return None;
        }
        let token = self.ahead(0)?;
        self.left -= 1;
        self.read = token.offset.saturating_add(token.text.len());
        Some(token)
    }

    /// Reads the next item, and returns its octets.
    pub fn next_text(&mut self) -> &'a [u8]
        ensures { NeverBack self.old self.new }
    {
        match self.next() {
            Some(token) => token.text,
            None => b"",
        }
    }

    /// What the next item is.
    pub fn peek(&self) -> Option<TokenKind> {
        let token = self.ahead(0)?;
        Some(token.kind)
    }

    /// What the item after the next one is.
    pub fn peek_second(&self) -> Option<TokenKind> {
        let token = self.ahead(1)?;
        Some(token.kind)
    }

    /// Returns whether the next item is this sign.
    pub fn is_at(&self, symbol: Symbol) -> bool {
        self.peek() == Some(TokenKind::Symbol(symbol))
    }

    /// The offset of the next item, or the length of the text.
    pub fn offset(&self) -> usize {
        match self.ahead(0) {
            Some(token) => token.offset,
            None => self.end,
        }
    }

    /// The fault that something else was expected in place of the next item.
    pub fn fault(&self, expected: Expected) -> Fault {
        let found = match self.peek() {
            Some(kind) => Found::Item(kind),
            None => Found::End,
        };
        Fault {
            problem: Problem::Unexpected { expected, found },
            offset: self.offset(),
        }
    }

    /// Reads the next item if it is of this kind.
    pub fn take(&mut self, kind: TokenKind) -> Option<Token<'a>>
        ensures { MatchOption result (NeverBack self.old self.new) (λ _. Advances self.old self.new) }
    {
        if self.peek() == Some(kind) {
            return self.next();
        }
        None
    }

    /// Reads the next item if it is this sign.
    pub fn take_symbol(&mut self, symbol: Symbol) -> bool
        ensures { MatchBool result (Advances self.old self.new) (NeverBack self.old self.new) }
    {
        self.take(TokenKind::Symbol(symbol)).is_some()
    }

    /// Reads the next item if it is this word.
    pub fn take_keyword(&mut self, keyword: Keyword) -> bool
        ensures { MatchBool result (Advances self.old self.new) (NeverBack self.old self.new) }
    {
        self.take(TokenKind::Keyword(keyword)).is_some()
    }

    /// Reads the next item, which has to be of this kind.
    pub fn expect(&mut self, kind: TokenKind, expected: Expected) -> Result<Token<'a>, Fault>
        ensures { OnOk result (Advances self.old self.new) }
    {
        match self.take(kind) {
            Some(token) => Ok(token),
            None => Err(self.fault(expected)),
        }
    }

    /// Reads the next item, which has to be this sign.
    pub fn expect_symbol(&mut self, symbol: Symbol) -> Result<(), Fault>
        ensures { OnOk result (Advances self.old self.new) }
    {
        let kind = TokenKind::Symbol(symbol);
        self.expect(kind, Expected::Item(kind))?;
        Ok(())
    }

    /// Reads the next item, which has to be this word.
    pub fn expect_keyword(&mut self, keyword: Keyword) -> Result<(), Fault>
        ensures { OnOk result (Advances self.old self.new) }
    {
        let kind = TokenKind::Keyword(keyword);
        self.expect(kind, Expected::Item(kind))?;
        Ok(())
    }
}
