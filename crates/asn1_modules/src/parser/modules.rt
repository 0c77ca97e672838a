//! Modules and assignments.
ghost use Rattle.std.specs.Prelude.{OnOk};
ghost use Rattle.asn1_modules.specs.Progress.{Advances, NeverBack};

use crate::fault::{Expected, Fault};
use crate::parser::Parser;
use crate::parser::cursor::Cursor;
use crate::syntax::{Assignment, AssignmentKind, Exports, Import, Module, Source, Span};
use crate::token::{Keyword, Symbol, Token, TokenKind};

impl<'t, 'a> Parser<'t, 'a> {
    /// Reads modules up to the end of the text.
    pub fn read_file(&mut self) -> Result<(), Fault> {
        self.module()?;
        while self.cursor.peek().is_some() {
            self.module()?;
        }
        Ok(())
    }

    /// Reads a module (X.680 13.1).
    fn module(&mut self) -> Result<(), Fault>
        ensures { OnOk result (Advances self.old.cursor self.new.cursor) }
    {
        let name = self
            .cursor
            .expect(TokenKind::TypeReference, Expected::ModuleName)?;
        let identifier = self.cursor.module_identifier()?;
        self.cursor.expect_keyword(Keyword::Definitions)?;
        let tags = self.cursor.tag_default()?;
        let extensible = self.cursor.extensible()?;
        self.cursor.expect_symbol(Symbol::Assignment)?;
        self.cursor.expect_keyword(Keyword::Begin)?;
        let exports = self.cursor.exports()?;
        let module = self.syntax.modules.len();
        self.syntax.modules.push(Module {
            name: name.text,
            offset: name.offset,
            identifier,
            tags,
            extensible,
            exports,
        })?;
        self.imports(module)?;
        self.assignments(module)
    }

    /// Reads the names that are imported, if any are (13.1).
    fn imports(&mut self, module: usize) -> Result<(), Fault>
        ensures { OnOk result (NeverBack self.old.cursor self.new.cursor) }
    {
        if !self.cursor.take_keyword(Keyword::Imports) {
            return Ok(());
        }
        while !self.cursor.take_symbol(Symbol::Semicolon) {
            self.imported_name(module)?;
            if self.cursor.take_keyword(Keyword::From) {
                self.source()?;
            } else {
                self.cursor.expect_symbol(Symbol::Comma)?;
            }
        }
        Ok(())
    }

    /// Reads a name that is imported, and its empty braces if it has parameters.
    fn imported_name(&mut self, module: usize) -> Result<(), Fault>
        ensures { OnOk result (Advances self.old.cursor self.new.cursor) }
    {
        let fault = self.cursor.fault(Expected::ImportedName);
        let Some(name) = self.cursor.next() else {
            return Err(fault);
        };
        if !is_name(name) {
            return Err(fault);
        }
        self.cursor.optional_braces()?;
        let source = self.syntax.sources.len();
        self.syntax.imports.push(Import {
            name: name.text,
            offset: name.offset,
            module,
            source,
        })?;
        Ok(())
    }

    /// Reads the module that names are imported from.
    fn source(&mut self) -> Result<(), Fault>
        ensures { OnOk result (NeverBack self.old.cursor self.new.cursor) }
    {
        let name = self
            .cursor
            .expect(TokenKind::TypeReference, Expected::ModuleName)?;
        let identifier = self.cursor.assigned_identifier()?;
        if self.cursor.take_keyword(Keyword::With) {
            self.cursor
                .expect(TokenKind::Reserved, Expected::Item(TokenKind::Reserved))?;
        }
        self.syntax.sources.push(Source {
            name: name.text,
            offset: name.offset,
            identifier,
        })?;
        Ok(())
    }

    /// Reads assignments up to `END`.
    fn assignments(&mut self, module: usize) -> Result<(), Fault>
        ensures { OnOk result (NeverBack self.old.cursor self.new.cursor) }
    {
        while !self.cursor.take_keyword(Keyword::End) {
            self.assignment(module)?;
        }
        Ok(())
    }

    /// Reads an assignment (16).
    fn assignment(&mut self, module: usize) -> Result<(), Fault>
        ensures { OnOk result (Advances self.old.cursor self.new.cursor) }
    {
        let fault = self.cursor.fault(Expected::Assignment);
        let Some(name) = self.cursor.next() else {
            return Err(fault);
        };
        if !is_name(name) {
            return Err(fault);
        }
        let parameters = self.cursor.optional_braces()?;
        let kind = match name.kind {
            TokenKind::TypeReference => self.type_or_set()?,
            _ => self.value_of_type()?,
        };
        self.syntax.assignments.push(Assignment {
            name: name.text,
            offset: name.offset,
            module,
            parameters,
            kind,
        })?;
        Ok(())
    }

    /// Reads what is assigned to a name with a capital letter.
    fn type_or_set(&mut self) -> Result<AssignmentKind, Fault>
        ensures { OnOk result (NeverBack self.old.cursor self.new.cursor) }
    {
        if self.cursor.peek() == Some(TokenKind::Keyword(Keyword::Macro)) {
            return Ok(AssignmentKind::Macro(self.cursor.macro_definition()?));
        }
        if self.cursor.take_symbol(Symbol::Assignment) {
            return self.type_or_class();
        }
        let governor = self.read_type()?;
        self.cursor.expect_symbol(Symbol::Assignment)?;
        Ok(AssignmentKind::Set(governor, self.cursor.braces()?))
    }

    /// Reads a type or an object class.
    fn type_or_class(&mut self) -> Result<AssignmentKind, Fault>
        ensures { OnOk result (NeverBack self.old.cursor self.new.cursor) }
    {
        if self.cursor.peek() == Some(TokenKind::Keyword(Keyword::Class)) {
            return Ok(AssignmentKind::Class(self.cursor.class()?));
        }
        Ok(AssignmentKind::Type(self.read_type()?))
    }

    /// Reads what is assigned to a name with a small letter.
    fn value_of_type(&mut self) -> Result<AssignmentKind, Fault>
        ensures { OnOk result (NeverBack self.old.cursor self.new.cursor) }
    {
        let governor = self.read_type()?;
        self.cursor.expect_symbol(Symbol::Assignment)?;
        let (kind, span) = self.value()?;
        Ok(AssignmentKind::Value(governor, kind, span))
    }
}

/// Returns whether an item is a name that something may be assigned to.
fn is_name(token: Token<'_>) -> bool {
    matches!(token.kind, TokenKind::TypeReference | TokenKind::Identifier)
}

impl<'t, 'a> Cursor<'t, 'a> {
    /// Reads what stands between the name of a module and `DEFINITIONS`: an object identifier in braces, and an
    /// internationalized one in quotes (13.1).
    fn module_identifier(&mut self) -> Result<Span, Fault>
        ensures { OnOk result (NeverBack self.old self.new) }
    {
        let start = self.offset();
        self.optional_braces()?;
        self.take(TokenKind::CharacterString);
        Ok(self.span_from(start))
    }

    /// Reads `EXTENSIBILITY IMPLIED`, if it stands here (13.4).
    fn extensible(&mut self) -> Result<bool, Fault>
        ensures { OnOk result (NeverBack self.old self.new) }
    {
        let extensible = self.take_keyword(Keyword::Extensibility);
        if extensible {
            self.expect_keyword(Keyword::Implied)?;
        }
        Ok(extensible)
    }

    /// Reads the names that are exported, if they stand here (13.1).
    fn exports(&mut self) -> Result<Exports, Fault>
        ensures { OnOk result (NeverBack self.old self.new) }
    {
        if !self.take_keyword(Keyword::Exports) {
            return Ok(Exports::All);
        }
        if self.take_keyword(Keyword::All) {
            self.expect_symbol(Symbol::Semicolon)?;
            return Ok(Exports::All);
        }
        let start = self.offset();
        while !self.is_at(Symbol::Semicolon) {
            self.exported_name()?;
        }
        let names = self.span_from(start);
        self.expect_symbol(Symbol::Semicolon)?;
        Ok(Exports::Names(names))
    }

    /// Reads a name that is exported, its empty braces if it has parameters, and a comma if more follow.
    fn exported_name(&mut self) -> Result<(), Fault>
        ensures { OnOk result (Advances self.old self.new) }
    {
        let fault = self.fault(Expected::ImportedName);
        let Some(name) = self.next() else {
            return Err(fault);
        };
        if !is_name(name) {
            return Err(fault);
        }
        self.optional_braces()?;
        if !self.is_at(Symbol::Semicolon) {
            self.expect_symbol(Symbol::Comma)?;
        }
        Ok(())
    }

    /// Reads what identifies a module behind its name: an object identifier in braces, or the name of one (13.1). A
    /// name with a comma or `FROM` behind it is imported from the next module.
    fn assigned_identifier(&mut self) -> Result<Span, Fault>
        ensures { OnOk result (NeverBack self.old self.new) }
    {
        let start = self.offset();
        if self.is_at(Symbol::OpenBrace) {
            return self.braces();
        }
        if self.peek() == Some(TokenKind::Identifier) && !self.is_imported_next() {
            self.next();
            return Ok(self.span_from(start));
        }
        Ok(Span::EMPTY)
    }

    /// Returns whether the item after the next one shows that the next one is a name that is imported.
    fn is_imported_next(&self) -> bool {
        matches!(
            self.peek_second(),
            Some(
                TokenKind::Symbol(Symbol::Comma | Symbol::OpenBrace)
                    | TokenKind::Keyword(Keyword::From)
            )
        )
    }
}
