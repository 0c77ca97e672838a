//! Values.
ghost use Rattle.std.specs.Prelude.{OnOk, IfSome, MatchOption};
ghost use Rattle.asn1_modules.specs.Progress.{Advances, NeverBack};

use crate::fault::{Expected, Fault};
use crate::parser::Parser;
use crate::parser::cursor::Cursor;
use crate::syntax::{Arc, Number, Span, ValueKind};
use crate::token::{Keyword, Symbol, TokenKind};

impl<'t, 'a> Cursor<'t, 'a> {
    /// Reads a number, maybe a negative one (X.680 19.1), if one begins here.
    pub fn number(&mut self) -> Option<Number<'a>>
        ensures { MatchOption result (NeverBack self.old self.new) (λ _. Advances self.old self.new) }
    {
        let negative = self.is_at(Symbol::Hyphen) && self.peek_second() == Some(TokenKind::Number);
        if negative {
            self.next();
        }
        let token = self.take(TokenKind::Number)?;
        Some(Number {
            negative,
            digits: token.text,
        })
    }

    /// Reads a number without a sign (12.8), if one begins here.
    pub fn digits(&mut self) -> Option<Number<'a>>
        ensures { MatchOption result (NeverBack self.old self.new) (λ _. Advances self.old self.new) }
    {
        let token = self.take(TokenKind::Number)?;
        Some(Number {
            negative: false,
            digits: token.text,
        })
    }

    /// Reads a value (17.7), an object or the name of one (X.681 11.3), and says what it is.
    pub fn value(&mut self) -> Result<(ValueKind, Span), Fault>
        ensures { OnOk result (NeverBack self.old self.new) }
    {
        let start = self.offset();
        let contained = self.take_keyword(Keyword::Containing);
        let mut kind = self.plain_value()?;
        while self.take_symbol(Symbol::Colon) {
            self.plain_value()?;
            kind = ValueKind::Text;
        }
        if contained {
            kind = ValueKind::Text;
        }
        Ok((kind, self.span_from(start)))
    }

    /// Reads a value that isn't of a CHOICE.
    fn plain_value(&mut self) -> Result<ValueKind, Fault>
        ensures { OnOk result (NeverBack self.old self.new) }
    {
        match self.peek() {
            Some(TokenKind::Symbol(Symbol::OpenBrace)) => {
                self.braces()?;
                Ok(ValueKind::Text)
            }
            Some(TokenKind::Symbol(Symbol::Hyphen)) => self.negative_value(),
            Some(TokenKind::Number) => {
                self.next();
                Ok(ValueKind::Number)
            }
            Some(TokenKind::Identifier | TokenKind::TypeReference) => self.named_value(),
            Some(
                TokenKind::RealNumber
                | TokenKind::CharacterString
                | TokenKind::DigitString
                | TokenKind::Reserved
                | TokenKind::Simple(_)
                | TokenKind::Keyword(Keyword::Integer | Keyword::Enumerated),
            ) => {
                self.next();
                Ok(ValueKind::Text)
            }
            _ => Err(self.fault(Expected::Value)),
        }
    }

    /// Reads a negative number, maybe with a fraction.
    fn negative_value(&mut self) -> Result<ValueKind, Fault>
        ensures { OnOk result (NeverBack self.old self.new) }
    {
        self.expect_symbol(Symbol::Hyphen)?;
        match self.peek() {
            Some(TokenKind::Number) => {
                self.next();
                Ok(ValueKind::Number)
            }
            Some(TokenKind::RealNumber) => {
                self.next();
                Ok(ValueKind::Text)
            }
            _ => Err(self.fault(Expected::Number)),
        }
    }

    /// Reads the name of a value, maybe with a module, a field or parameters.
    fn named_value(&mut self) -> Result<ValueKind, Fault>
        ensures { OnOk result (NeverBack self.old self.new) }
    {
        let mut kind = self.first_name()?;
        while self.take_symbol(Symbol::FullStop) {
            self.dotted_name()?;
            kind = ValueKind::Text;
        }
        if self.is_at(Symbol::OpenBrace) {
            self.braces()?;
            return Ok(ValueKind::Text);
        }
        Ok(kind)
    }

    /// Reads the name of a value or a module.
    fn first_name(&mut self) -> Result<ValueKind, Fault>
        ensures { OnOk result (NeverBack self.old self.new) }
    {
        if self.take(TokenKind::Identifier).is_some() {
            return Ok(ValueKind::Reference);
        }
        self.expect(TokenKind::TypeReference, Expected::Value)?;
        Ok(ValueKind::Text)
    }

    /// Reads a name behind a full stop.
    fn dotted_name(&mut self) -> Result<(), Fault>
        ensures { OnOk result (NeverBack self.old self.new) }
    {
        match self.peek() {
            Some(TokenKind::Identifier | TokenKind::TypeReference | TokenKind::FieldReference) => {
                self.next();
                Ok(())
            }
            _ => Err(self.fault(Expected::Identifier)),
        }
    }
}

impl<'t, 'a> Parser<'t, 'a> {
    /// Reads the value of an assignment. Braces that hold only components of an object identifier become these.
    pub fn value(&mut self) -> Result<(ValueKind, Span), Fault>
        ensures { OnOk result (NeverBack self.old.cursor self.new.cursor) }
    {
        let mut arcs = self.cursor;
        let (kind, span) = self.cursor.value()?;
        let first = self.syntax.arcs.len();
        if !arcs.take_symbol(Symbol::OpenBrace) {
            return Ok((kind, span));
        }
        while let Some(arc) = arcs.arc() {
            self.syntax.arcs.push(arc)?;
        }
        let count = self.syntax.arcs.len().saturating_sub(first);
        if count > 0 && arcs.take_symbol(Symbol::CloseBrace) && arcs.read == span.end {
            return Ok((ValueKind::Arcs(first, count), span));
        }
        self.syntax.arcs.truncate(first);
        Ok((kind, span))
    }
}

impl<'t, 'a> Cursor<'t, 'a> {
    /// Reads a component of an object identifier value (32.3), if one begins here.
    fn arc(&mut self) -> Option<Arc<'a>>
        ensures { IfSome result (λ _. Advances self.old self.new) }
    {
        let offset = self.offset();
        if let Some(number) = self.digits() {
            return Some(Arc {
                name: b"",
                offset,
                number: Some(number),
            });
        }
        let token = self.take(TokenKind::Identifier)?;
        let number = self.number_in_parentheses()?;
        Some(Arc {
            name: token.text,
            offset,
            number,
        })
    }

    /// Reads a number in parentheses. None if something else is in them; no number if there are no parentheses.
    fn number_in_parentheses(&mut self) -> Option<Option<Number<'a>>>
        ensures { IfSome result (λ _. NeverBack self.old self.new) }
    {
        if !self.take_symbol(Symbol::OpenParenthesis) {
            return Some(None);
        }
        let number = self.digits()?;
        self.take(TokenKind::Symbol(Symbol::CloseParenthesis))?;
        Some(Some(number))
    }
}
