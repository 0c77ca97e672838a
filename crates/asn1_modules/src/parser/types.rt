//! Types.
ghost use Rattle.std.specs.Prelude.{OnOk, IfOk, MatchOption, ◌≡◌};
ghost use Rattle.asn1_modules.specs.Progress.{Advances, NeverBack};

use crate::fault::{Expected, Fault, MOST_DEPTH, Problem};
use crate::parser::{OpenList, Parser};
use crate::syntax::{Kind, Node, Presence, Span, Tag, TagClass, TagNumber, Tagging};
use crate::token::{Keyword, SimpleType, Symbol, Token, TokenKind};

/// What is read next of a type.
#[derive(Clone, Copy)]
pub(crate) enum Step {
    /// A type at this depth.
    Type(usize),
    /// A type at this depth, maybe behind an identifier.
    Item(usize),
    /// A member of the innermost list.
    Member,
    /// What follows the type of this node.
    Behind(usize),
    /// What follows a member of the innermost list.
    Separator,
}

/// Where a type begins, with its identifier or none, and how many types it stands in.
#[derive(Clone, Copy)]
pub(crate) struct Start<'a> {
    pub name: &'a [u8],
    pub offset: usize,
    pub depth: usize,
}

impl<'t, 'a> Parser<'t, 'a> {
    /// Reads a type with all that is inside it (X.680 17.1), and returns the index of its node.
    pub fn read_type(&mut self) -> Result<usize, Fault>
        ensures { OnOk result (NeverBack self.old.cursor self.new.cursor) }
    {
        let root = self.syntax.nodes.len();
        let mut step = Step::Type(0);
        while let Some(next) = self.read_step(step)? {
            step = next;
        }
        Ok(root)
    }

    /// Reads the next part of a type. None: the type has ended.
    fn read_step(&mut self, step: Step) -> Result<Option<Step>, Fault>
        ensures { IfOk result (λ next. MatchOption next (NeverBack self.old.cursor self.new.cursor)
            (λ _. Advances self.old.cursor self.new.cursor)) }
    {
        match step {
            Step::Type(depth) => {
                let offset = self.cursor.offset();
                let next = self.type_start(Start {
                    name: b"",
                    offset,
                    depth,
                })?;
                Ok(Some(next))
            }
            Step::Item(depth) => Ok(Some(self.item(depth)?)),
            Step::Member => Ok(Some(self.member()?)),
            Step::Behind(node) => self.behind(node),
            Step::Separator => Ok(Some(self.separator()?)),
        }
    }

    /// Reads a type, maybe behind an identifier.
    pub fn item(&mut self, depth: usize) -> Result<Step, Fault>
        ensures { OnOk result (Advances self.old.cursor self.new.cursor) }
    {
        let offset = self.cursor.offset();
        let selected = self.cursor.peek_second() == Some(TokenKind::Symbol(Symbol::LessThan));
        let name = match self.cursor.peek() {
            Some(TokenKind::Identifier) if !selected => self.cursor.next_text(),
            _ => b"",
        };
        self.type_start(Start {
            name,
            offset,
            depth,
        })
    }

    /// Reads a type up to its first list or the type inside it.
    fn type_start(&mut self, start: Start<'a>) -> Result<Step, Fault>
        ensures { OnOk result (Advances self.old.cursor self.new.cursor) }
    {
        let fault = self.cursor.fault(Expected::Type);
        let Some(token) = self.cursor.next() else {
            return Err(fault);
        };
        match token.kind {
            TokenKind::Simple(simple) => self.leaf(start, Kind::Simple(simple)),
            TokenKind::Keyword(keyword) => self.keyword_type(start, keyword, fault),
            TokenKind::TypeReference => self.reference(start, token),
            TokenKind::Identifier => self.selection(start, token),
            TokenKind::Symbol(Symbol::OpenBracket) => self.tagged(start),
            _ => Err(fault),
        }
    }

    /// Adds a node.
    pub fn push_node(&mut self, start: Start<'a>, kind: Kind<'a>) -> Result<usize, Fault>
        ensures { self.new.cursor ≡ self.old.cursor }
    {
        if start.depth > MOST_DEPTH {
            return Err(Fault {
                problem: Problem::TooDeep,
                offset: start.offset,
            });
        }
        let index = self.syntax.nodes.len();
        self.syntax.nodes.push(Node {
            name: start.name,
            offset: start.offset,
            depth: start.depth,
            kind,
            constraint: Span::EMPTY,
            presence: Presence::Required,
        })?;
        Ok(index)
    }

    /// Adds the node of a type with nothing inside.
    fn leaf(&mut self, start: Start<'a>, kind: Kind<'a>) -> Result<Step, Fault>
        ensures { self.new.cursor ≡ self.old.cursor }
    {
        let node = self.push_node(start, kind)?;
        Ok(Step::Behind(node))
    }

    /// Reads a type after its first reserved word.
    fn keyword_type(
        &mut self,
        start: Start<'a>,
        keyword: Keyword,
        fault: Fault,
    ) -> Result<Step, Fault>
        ensures { OnOk result (NeverBack self.old.cursor self.new.cursor) }
    {
        match keyword {
            Keyword::Integer => self.with_names(start, Kind::Integer),
            Keyword::Enumerated => self.enumerated(start),
            Keyword::Sequence => self.list_type(start, Kind::Sequence, Kind::SequenceOf),
            Keyword::Set => self.list_type(start, Kind::Set, Kind::SetOf),
            Keyword::Choice => self.open_list(start, Kind::Choice),
            Keyword::Any => self.any(start),
            Keyword::Instance => self.instance_of(start),
            _ => self.two_words(start, keyword, fault),
        }
    }

    /// Reads the second word of a type.
    fn two_words(&mut self, start: Start<'a>, first: Keyword, fault: Fault) -> Result<Step, Fault>
        ensures { OnOk result (NeverBack self.old.cursor self.new.cursor) }
    {
        match first {
            Keyword::Bit => {
                self.cursor.expect_keyword(Keyword::String)?;
                self.with_names(start, Kind::BitString)
            }
            Keyword::Octet => self.second_word(start, Keyword::String, Kind::OctetString),
            Keyword::Object => self.second_word(start, Keyword::Identifier, Kind::ObjectIdentifier),
            Keyword::Embedded => self.second_word(start, Keyword::Pdv, Kind::EmbeddedPdv),
            Keyword::Character => self.second_word(start, Keyword::String, Kind::CharacterString),
            _ => Err(fault),
        }
    }

    /// Reads this word, the second one of a type.
    fn second_word(
        &mut self,
        start: Start<'a>,
        second: Keyword,
        kind: Kind<'a>,
    ) -> Result<Step, Fault>
        ensures { OnOk result (NeverBack self.old.cursor self.new.cursor) }
    {
        self.cursor.expect_keyword(second)?;
        self.leaf(start, kind)
    }

    /// Reads ANY, maybe with `DEFINED BY` and an identifier (X.208 27).
    fn any(&mut self, start: Start<'a>) -> Result<Step, Fault>
        ensures { OnOk result (NeverBack self.old.cursor self.new.cursor) }
    {
        if !self.cursor.take_keyword(Keyword::Defined) {
            return self.leaf(start, Kind::Any(b""));
        }
        self.cursor.expect_keyword(Keyword::By)?;
        let name = self
            .cursor
            .expect(TokenKind::Identifier, Expected::Identifier)?;
        self.leaf(start, Kind::Any(name.text))
    }

    /// Reads INSTANCE OF (X.681 C.2).
    fn instance_of(&mut self, start: Start<'a>) -> Result<Step, Fault>
        ensures { OnOk result (NeverBack self.old.cursor self.new.cursor) }
    {
        self.cursor.expect_keyword(Keyword::Of)?;
        let class = self
            .cursor
            .expect(TokenKind::TypeReference, Expected::TypeName)?;
        self.leaf(start, Kind::InstanceOf(class.text))
    }

    /// Reads a selection type after its identifier (30.1).
    fn selection(&mut self, start: Start<'a>, token: Token<'a>) -> Result<Step, Fault>
        ensures { OnOk result (NeverBack self.old.cursor self.new.cursor) }
    {
        self.cursor.expect_symbol(Symbol::LessThan)?;
        self.push_node(start, Kind::Selection(token.text))?;
        Ok(Step::Type(start.depth.saturating_add(1)))
    }

    /// Reads a SEQUENCE or SET after its first word (25.1, 26.1).
    fn list_type(
        &mut self,
        start: Start<'a>,
        list: Kind<'a>,
        list_of: Kind<'a>,
    ) -> Result<Step, Fault>
        ensures { OnOk result (NeverBack self.old.cursor self.new.cursor) }
    {
        if self.cursor.is_at(Symbol::OpenBrace) {
            return self.open_list(start, list);
        }
        let begin = self.cursor.offset();
        if !self.cursor.take_keyword(Keyword::Size) && !self.cursor.is_at(Symbol::OpenParenthesis) {
            return self.list_of(start, list_of, Span::EMPTY);
        }
        self.cursor.constraints()?;
        let constraint = self.cursor.span_from(begin);
        self.list_of(start, list_of, constraint)
    }

    /// Reads `OF`, and adds the node of a SEQUENCE OF or SET OF.
    fn list_of(&mut self, start: Start<'a>, kind: Kind<'a>, constraint: Span) -> Result<Step, Fault>
        ensures { OnOk result (NeverBack self.old.cursor self.new.cursor) }
    {
        self.cursor
            .expect(TokenKind::Keyword(Keyword::Of), Expected::BraceOrOf)?;
        let node = self.push_node(start, kind)?;
        self.constrain(node, constraint);
        Ok(Step::Item(start.depth.saturating_add(1)))
    }

    /// Reads the opening brace of a list, and its closing one if it is empty.
    fn open_list(&mut self, start: Start<'a>, kind: Kind<'a>) -> Result<Step, Fault>
        ensures { OnOk result (NeverBack self.old.cursor self.new.cursor) }
    {
        self.cursor.expect_symbol(Symbol::OpenBrace)?;
        let node = self.push_node(start, kind)?;
        if self.cursor.take_symbol(Symbol::CloseBrace) {
            return Ok(Step::Behind(node));
        }
        self.open.push(OpenList {
            node,
            member: node,
            depth: start.depth.saturating_add(1),
            additions: false,
        })?;
        Ok(Step::Member)
    }

    /// Reads a reference after its first name (14.1, 17.3; X.681 14.1; X.683 9.1).
    fn reference(&mut self, start: Start<'a>, first: Token<'a>) -> Result<Step, Fault>
        ensures { OnOk result (NeverBack self.old.cursor self.new.cursor) }
    {
        let mut module: &'a [u8] = b"";
        let mut name = first;
        while self.cursor.take_symbol(Symbol::FullStop) {
            if self.cursor.peek() == Some(TokenKind::FieldReference) {
                return self.class_field(start, first);
            }
            module = name.text;
            name = self
                .cursor
                .expect(TokenKind::TypeReference, Expected::TypeName)?;
        }
        let parameters = self.cursor.optional_braces()?;
        let name = name.text;
        self.leaf(
            start,
            Kind::Reference {
                module,
                name,
                parameters,
            },
        )
    }

    /// Reads the fields behind an object class and a full stop (X.681 14.1).
    fn class_field(&mut self, start: Start<'a>, first: Token<'a>) -> Result<Step, Fault>
        ensures { OnOk result (NeverBack self.old.cursor self.new.cursor) }
    {
        self.cursor
            .expect(TokenKind::FieldReference, Expected::Identifier)?;
        while self.cursor.take_symbol(Symbol::FullStop) {
            self.cursor
                .expect(TokenKind::FieldReference, Expected::Identifier)?;
        }
        let field = self.cursor.span_from(first.offset);
        self.leaf(start, Kind::ClassField(field))
    }

    /// Reads a tag after its opening bracket (31.1).
    fn tagged(&mut self, start: Start<'a>) -> Result<Step, Fault>
        ensures { OnOk result (NeverBack self.old.cursor self.new.cursor) }
    {
        let class = self.cursor.tag_class();
        let number = self.cursor.tag_number()?;
        self.cursor.expect_symbol(Symbol::CloseBracket)?;
        let tagging = self.cursor.tagging();
        self.push_node(start, Kind::Tagged(Tag { class, number }, tagging))?;
        Ok(Step::Type(start.depth.saturating_add(1)))
    }

    /// Sets the constraint of a node.
    fn constrain(&mut self, node: usize, constraint: Span)
        ensures { self.new.cursor ≡ self.old.cursor }
    {
        if let Some(node) = self.syntax.nodes.get_mut(node) {
            node.constraint = constraint;
        }
    }

    /// Reads what follows the type of a node: constraints, and in a list `OPTIONAL` or a default value, and what
    /// follows the member. None: the type isn't in a list.
    fn behind(&mut self, node: usize) -> Result<Option<Step>, Fault>
        ensures { IfOk result (λ next. MatchOption next (NeverBack self.old.cursor self.new.cursor)
            (λ _. Advances self.old.cursor self.new.cursor)) }
    {
        let constraint = self.cursor.constraints()?;
        if !constraint.is_empty() {
            self.constrain(node, constraint);
        }
        let Some(list) = self.open.last() else {
            return Ok(None);
        };
        let member = list.member;
        let presence = self.presence()?;
        if let Some(node) = self.syntax.nodes.get_mut(member) {
            node.presence = presence;
        }
        Ok(Some(self.separator()?))
    }

    /// Reads `OPTIONAL` or a default value, if one stands here (25.1).
    fn presence(&mut self) -> Result<Presence, Fault>
        ensures { OnOk result (NeverBack self.old.cursor self.new.cursor) }
    {
        if self.cursor.take_keyword(Keyword::Optional) {
            return Ok(Presence::Optional);
        }
        if self.cursor.take_keyword(Keyword::Default) {
            let (_, span) = self.cursor.value()?;
            return Ok(Presence::Default(span));
        }
        Ok(Presence::Required)
    }
}
