//! Reads modules of ASN.1 (X.680) into a syntax tree.
//!
//! The tree says what stands in the text. Names aren't looked up, and tags aren't applied. What a parameter list, a
//! constraint, an object class, an object or an object set says is kept as a part of the text.
#![tactic(auto)]

mod constraint;
mod fault;
mod lexer;
mod parser;
mod syntax;
mod token;
mod words;

pub use constraint::contained_name;
pub use fault::{Expected, Found, ModuleError, Problem, column_after, line_after};
pub use lexer::tokens_in;
pub use parser::read_modules;
pub use syntax::{
    Arc, Assignment, AssignmentKind, Exports, Import, Kind, Module, NamedValue, Node, Number,
    Presence, Source, Span, Syntax, Tag, TagClass, TagDefault, TagNumber, Tagging, ValueKind,
};
pub use token::{Keyword, SimpleType, Symbol, Token, TokenKind};
