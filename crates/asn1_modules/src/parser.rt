//! Reads lexical items into a syntax tree.
ghost use Rattle.std.specs.Prelude.{IfErr};
ghost use Rattle.asn1_modules.specs.Places.{IsIn};

mod cursor;
mod groups;
mod lists;
mod modules;
mod tags;
mod types;
mod values;

use crate::fault::{Fault, ModuleError, located};
use crate::lexer::{Lexed, tokens_of};
use crate::parser::cursor::Cursor;
use crate::syntax::{Span, Syntax};
use crate::token::Token;
use std::alloc::Global;

/// Reads a text of modules (X.680 13).
///
/// ```
/// let syntax = read_modules(alloc, b"Example DEFINITIONS ::= BEGIN Age ::= INTEGER END")?;
/// assert_eq!(syntax.assignments[0].name, b"Age");
/// ```
pub fn read_modules<'a>(alloc: Global, text: &'a [u8]) -> Result<Syntax<'a>, ModuleError>
    ensures { IfErr result (IsIn text.now) }
{
    match syntax_of(alloc, text) {
        Ok(syntax) => Ok(syntax),
        Err(fault) => Err(located(text, fault)),
    }
}

/// The syntax tree of a text, or its fault.
fn syntax_of<'a>(alloc: Global, text: &'a [u8]) -> Result<Syntax<'a>, Fault> {
    let Lexed { tokens, comments } = tokens_of(alloc, text)?;
    let mut parser = Parser::new(alloc, text, &tokens, comments);
    parser.read_file()?;
    Ok(parser.finish())
}

/// A list in braces or in `[[ ]]` that isn't closed yet.
#[derive(Clone, Copy)]
pub(crate) struct OpenList {
    /// The index of the node that it belongs to.
    pub node: usize,
    /// The index of the last member's node.
    pub member: usize,
    /// The depth of its members.
    pub depth: usize,
    /// Whether it is closed by `]]`.
    pub additions: bool,
}

/// The lexical items that aren't read yet, and what was read.
#[derive(Drop)]
pub(crate) struct Parser<'t, 'a> {
    pub cursor: Cursor<'t, 'a>,
    pub syntax: Syntax<'a>,
    /// The lists that the current type stands in.
    pub open: Vec<OpenList>,
}

impl<'t, 'a> Parser<'t, 'a> {
    fn new(
        alloc: Global,
        text: &'a [u8],
        tokens: &'t [Token<'a>],
        comments: Vec<Span>,
    ) -> Parser<'t, 'a> {
        let syntax = Syntax {
            text,
            modules: Vec::new(alloc),
            imports: Vec::new(alloc),
            sources: Vec::new(alloc),
            assignments: Vec::new(alloc),
            nodes: Vec::new(alloc),
            arcs: Vec::new(alloc),
            comments,
        };
        let cursor = Cursor::new(tokens, text.len());
        Parser {
            cursor,
            syntax,
            open: Vec::new(alloc),
        }
    }

    /// What was read.
    fn finish(self) -> Syntax<'a> {
        let Parser {
            cursor: _,
            syntax,
            open: _,
        } = self;
        syntax
    }
}
