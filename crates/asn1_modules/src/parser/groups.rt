//! Parts of the text that are kept as they are.
ghost use Rattle.std.specs.Prelude.{◌≡◌, OnOk};
ghost use Rattle.asn1_modules.specs.Progress.{Advances, NeverBack};

use crate::fault::{Expected, Fault};
use crate::parser::cursor::Cursor;
use crate::syntax::Span;
use crate::token::{Keyword, Symbol, TokenKind};

impl<'t, 'a> Cursor<'t, 'a> {
    /// The part of the text from an offset to the last item that was read.
    pub fn span_from(&self, start: usize) -> Span
        ensures start { result.start ≡ start }
        ensures end { result.end ≡ self.now.read }
    {
        Span {
            start,
            end: self.read,
        }
    }

    /// Reads from an opening sign to the closing one that belongs to it. Other brackets aren't matched.
    pub fn group(&mut self, open: Symbol, close: Symbol) -> Result<Span, Fault>
        ensures { OnOk result (Advances self.old self.new) }
    {
        let start = self.offset();
        self.expect_symbol(open)?;
        let mut inner: usize = 0;
        while let Some(token) = self.next() {
            if token.kind == TokenKind::Symbol(open) {
                inner = inner.saturating_add(1);
            } else if token.kind == TokenKind::Symbol(close) {
                if inner == 0 {
                    return Ok(self.span_from(start));
                }
                inner -= 1;
            }
        }
        Err(self.fault(Expected::Item(TokenKind::Symbol(close))))
    }

    /// Reads a group in braces.
    pub fn braces(&mut self) -> Result<Span, Fault>
        ensures { OnOk result (Advances self.old self.new) }
    {
        self.group(Symbol::OpenBrace, Symbol::CloseBrace)
    }

    /// Reads a group in braces, if one begins here.
    pub fn optional_braces(&mut self) -> Result<Span, Fault>
        ensures { OnOk result (NeverBack self.old self.new) }
    {
        if self.is_at(Symbol::OpenBrace) {
            return self.braces();
        }
        Ok(Span::EMPTY)
    }

    /// Reads the constraints that begin here (X.680 49.6).
    pub fn constraints(&mut self) -> Result<Span, Fault>
        ensures { OnOk result (NeverBack self.old self.new) }
    {
        if !self.is_at(Symbol::OpenParenthesis) {
            return Ok(Span::EMPTY);
        }
        let start = self.offset();
        while self.is_at(Symbol::OpenParenthesis) {
            self.group(Symbol::OpenParenthesis, Symbol::CloseParenthesis)?;
        }
        Ok(self.span_from(start))
    }

    /// Reads an exception, if one begins here: up to a comma or the end of the list (53.1).
    pub fn exception(&mut self) -> Result<Span, Fault>
        ensures { OnOk result (NeverBack self.old self.new) }
    {
        if !self.is_at(Symbol::Exclamation) {
            return Ok(Span::EMPTY);
        }
        let start = self.offset();
        while !self.is_at_member_end() {
            self.skip_item()?;
        }
        Ok(self.span_from(start))
    }

    /// Returns whether a member of a list ends here, or the text.
    fn is_at_member_end(&self) -> bool {
        matches!(
            self.peek(),
            None | Some(TokenKind::Symbol(
                Symbol::Comma | Symbol::CloseBrace | Symbol::CloseVersion
            ))
        )
    }

    /// Reads an item, or a group that begins here.
    fn skip_item(&mut self) -> Result<(), Fault>
        ensures { OnOk result (Advances self.old self.new) }
    {
        match self.peek() {
            Some(TokenKind::Symbol(Symbol::OpenBrace)) => {
                self.braces()?;
            }
            Some(TokenKind::Symbol(Symbol::OpenParenthesis)) => {
                self.group(Symbol::OpenParenthesis, Symbol::CloseParenthesis)?;
            }
            _ => {
                let Some(_) = self.next() else {
                    return Err(self.fault(Expected::CommaOrEnd));
                };
            }
        }
        Ok(())
    }

    /// Reads an object class (X.681 9.3).
    pub fn class(&mut self) -> Result<Span, Fault>
        ensures { OnOk result (Advances self.old self.new) }
    {
        let start = self.offset();
        self.expect_keyword(Keyword::Class)?;
        self.braces()?;
        if self.take_keyword(Keyword::With) {
            self.expect_keyword(Keyword::Syntax)?;
            self.braces()?;
        }
        Ok(self.span_from(start))
    }

    /// Reads a macro of 1988 (X.208 annex A), up to the first `END`.
    pub fn macro_definition(&mut self) -> Result<Span, Fault>
        ensures { OnOk result (Advances self.old self.new) }
    {
        let start = self.offset();
        self.expect_keyword(Keyword::Macro)?;
        self.expect_symbol(Symbol::Assignment)?;
        while let Some(token) = self.next() {
            if token.kind == TokenKind::Keyword(Keyword::End) {
                return Ok(self.span_from(start));
            }
        }
        Err(self.fault(Expected::Item(TokenKind::Keyword(Keyword::End))))
    }
}
