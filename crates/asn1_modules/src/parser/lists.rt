//! What stands in braces: components, alternatives, items and named numbers.
ghost use Rattle.std.specs.Prelude.{OnOk};
ghost use Rattle.asn1_modules.specs.Progress.{Advances, NeverBack};

use crate::fault::{Expected, Fault};
use crate::parser::types::{Start, Step};
use crate::parser::{OpenList, Parser};
use crate::syntax::{Kind, NamedValue};
use crate::token::{Keyword, Symbol, Token, TokenKind};

impl<'t, 'a> Parser<'t, 'a> {
    /// Reads the start of a component or an alternative (X.680 25.1, 29.1).
    pub fn member(&mut self) -> Result<Step, Fault>
        ensures { OnOk result (Advances self.old.cursor self.new.cursor) }
    {
        let Some(list) = self.open.pop() else {
            return Err(self.cursor.fault(Expected::CommaOrEnd));
        };
        let depth = list.depth;
        self.open.push(OpenList {
            member: self.syntax.nodes.len(),
            ..list
        })?;
        match self.cursor.peek() {
            Some(TokenKind::Symbol(Symbol::Ellipsis)) => {
                self.extension(depth)?;
                Ok(Step::Separator)
            }
            Some(TokenKind::Symbol(Symbol::OpenVersion)) => self.additions(depth),
            Some(TokenKind::Keyword(Keyword::Components)) => self.components_of(depth),
            _ => self.item(depth),
        }
    }

    /// Reads an extension marker, maybe with an exception (25.1, 53.1).
    fn extension(&mut self, depth: usize) -> Result<(), Fault>
        ensures { OnOk result (Advances self.old.cursor self.new.cursor) }
    {
        let start = self.start(depth);
        self.cursor.expect_symbol(Symbol::Ellipsis)?;
        let exception = self.cursor.exception()?;
        self.push_node(start, Kind::Extension(exception))?;
        Ok(())
    }

    /// Where something without an identifier begins.
    fn start(&self, depth: usize) -> Start<'a> {
        Start {
            name: b"",
            offset: self.cursor.offset(),
            depth,
        }
    }

    /// Reads the start of additions in `[[ ]]`, maybe with their version (25.1).
    fn additions(&mut self, depth: usize) -> Result<Step, Fault>
        ensures { OnOk result (Advances self.old.cursor self.new.cursor) }
    {
        let start = self.start(depth);
        self.cursor.expect_symbol(Symbol::OpenVersion)?;
        if self.cursor.take(TokenKind::Number).is_some() {
            self.cursor.expect_symbol(Symbol::Colon)?;
        }
        let node = self.push_node(start, Kind::Additions)?;
        self.open.push(OpenList {
            node,
            member: node,
            depth: depth.saturating_add(1),
            additions: true,
        })?;
        Ok(Step::Member)
    }

    /// Reads COMPONENTS OF (25.1).
    fn components_of(&mut self, depth: usize) -> Result<Step, Fault>
        ensures { OnOk result (Advances self.old.cursor self.new.cursor) }
    {
        let start = self.start(depth);
        self.cursor.expect_keyword(Keyword::Components)?;
        self.cursor.expect_keyword(Keyword::Of)?;
        self.push_node(start, Kind::ComponentsOf)?;
        Ok(Step::Type(depth.saturating_add(1)))
    }

    /// Reads what follows a member: a comma, or the end of its list.
    pub fn separator(&mut self) -> Result<Step, Fault>
        ensures { OnOk result (Advances self.old.cursor self.new.cursor) }
    {
        if self.cursor.take_symbol(Symbol::Comma) {
            return Ok(Step::Member);
        }
        let fault = self.cursor.fault(Expected::CommaOrEnd);
        match self.open.pop() {
            Some(list) if list.additions && self.cursor.take_symbol(Symbol::CloseVersion) => Ok(
                Step::Separator,
            ),
            Some(list) if !list.additions && self.cursor.take_symbol(Symbol::CloseBrace) => Ok(
                Step::Behind(list.node),
            ),
            _ => Err(fault),
        }
    }

    /// Adds the node of a type, and reads its named numbers or bits if it has any (19.1, 22.1).
    pub fn with_names(&mut self, start: Start<'a>, kind: Kind<'a>) -> Result<Step, Fault>
        ensures { OnOk result (NeverBack self.old.cursor self.new.cursor) }
    {
        let node = self.push_node(start, kind)?;
        if self.cursor.take_symbol(Symbol::OpenBrace) {
            self.named_values(start.depth.saturating_add(1))?;
        }
        Ok(Step::Behind(node))
    }

    /// Adds the node of an ENUMERATED, and reads its items (20.1).
    pub fn enumerated(&mut self, start: Start<'a>) -> Result<Step, Fault>
        ensures { OnOk result (NeverBack self.old.cursor self.new.cursor) }
    {
        let node = self.push_node(start, Kind::Enumerated)?;
        self.cursor.expect_symbol(Symbol::OpenBrace)?;
        self.named_values(start.depth.saturating_add(1))?;
        Ok(Step::Behind(node))
    }

    /// Reads named numbers up to a closing brace.
    fn named_values(&mut self, depth: usize) -> Result<(), Fault>
        ensures { OnOk result (NeverBack self.old.cursor self.new.cursor) }
    {
        if self.cursor.take_symbol(Symbol::CloseBrace) {
            return Ok(());
        }
        self.named_value(depth)?;
        while self.cursor.take_symbol(Symbol::Comma) {
            self.named_value(depth)?;
        }
        self.cursor.expect(TokenKind::Symbol(Symbol::CloseBrace), Expected::CommaOrEnd)?;
        Ok(())
    }

    /// Reads a named number, bit or item, or an extension marker.
    fn named_value(&mut self, depth: usize) -> Result<(), Fault>
        ensures { OnOk result (Advances self.old.cursor self.new.cursor) }
    {
        if self.cursor.is_at(Symbol::Ellipsis) {
            return self.extension(depth);
        }
        let name = self
            .cursor
            .expect(TokenKind::Identifier, Expected::Identifier)?;
        let value = self.number_of_name()?;
        self.push_node(start_at(name, depth), Kind::Named(value))?;
        Ok(())
    }

    /// Reads the number in parentheses behind a name, if it is there.
    fn number_of_name(&mut self) -> Result<NamedValue<'a>, Fault>
        ensures { OnOk result (NeverBack self.old.cursor self.new.cursor) }
    {
        if !self.cursor.take_symbol(Symbol::OpenParenthesis) {
            return Ok(NamedValue::Unnumbered);
        }
        let value = match self.cursor.number() {
            Some(number) => NamedValue::Number(number),
            None => self.reference_of_name()?,
        };
        self.cursor.expect_symbol(Symbol::CloseParenthesis)?;
        Ok(value)
    }

    /// Reads the name of a value, maybe behind that of its module.
    fn reference_of_name(&mut self) -> Result<NamedValue<'a>, Fault>
        ensures { OnOk result (NeverBack self.old.cursor self.new.cursor) }
    {
        if self.cursor.take(TokenKind::TypeReference).is_some() {
            self.cursor.expect_symbol(Symbol::FullStop)?;
        }
        let name = self.cursor.expect(TokenKind::Identifier, Expected::Number)?;
        Ok(NamedValue::Reference(name.text))
    }
}

/// Where something begins with this identifier.
fn start_at<'a>(name: Token<'a>, depth: usize) -> Start<'a> {
    Start {
        name: name.text,
        offset: name.offset,
        depth,
    }
}
