//! Words in comments: how the values of a name are shown.
ghost use Rattle.std.specs.Prelude.{◌≡◌, ◌<◌, IfSome, length};
ghost use Rattle.asn1_names.specs.Words.{IsSaid, has_words, said_notation, said_text};

use crate::words_error::{WordsError, WordsProblem};
use asn1_modules::{Assignment, Node, Span, Syntax};
use der_schema::Secrecy;
use der_schema::words::{Notation, NumberName, Words};
use std::alloc::Global;
use std::str;

/// What a comment says of a name.
#[derive(Clone, Copy)]
pub struct Said {
    pub label: Option<&'static str>,
    /// What is in front of the value.
    pub kind: Option<&'static str>,
    /// A notation that names numbers has no names.
    pub notation: Option<Notation>,
    pub heads: bool,
    pub secrecy: Option<Secrecy>,
}

/// What comments say of names.
#[derive(Drop)]
pub(crate) struct Sayings {
    /// Of each node: a component, an alternative, an item, a number or a bit.
    pub nodes: Vec<Option<Said>>,
    /// Of each assignment.
    pub assignments: Vec<Option<Said>>,
}

/// What the comments of a text say of its names. A comment says something if it begins with two hyphens, one of the
/// words `label`, `kind`, `notation`, `heads` and `secret`, and a colon. It is said of the last name before it.
pub(crate) fn said_in(alloc: Global, syntax: &Syntax<'static>) -> Result<Sayings, WordsError> {
    let mut sayings = Sayings {
        nodes: none_of(alloc, syntax.nodes.len())?,
        assignments: none_of(alloc, syntax.assignments.len())?,
    };
    let mut names = Names {
        nodes: 0,
        assignments: 0,
        last_node: None,
        last_assignment: None,
    };
    for comment in &syntax.comments {
        if let Some(said) = words_of(syntax.text, *comment)? {
            names = names.past(syntax, comment.start);
            sayings.add(names.last(), said, comment.start)?;
        }
    }
    Ok(sayings)
}

/// Nothing that is said of so many names.
fn none_of(alloc: Global, count: usize) -> Result<Vec<Option<Said>>, WordsError> {
    let mut nothing = Vec::new(alloc);
    for _ in 0..count {
        nothing.push(None)?;
    }
    Ok(nothing)
}

impl Sayings {
    /// Adds what a comment at an offset says of a name.
    fn add(&mut self, name: Option<Name>, said: Said, offset: usize) -> Result<(), WordsError> {
        match name {
            Some(Name::Node(index)) => add_to(&mut self.nodes, index, said, offset),
            Some(Name::Assignment(index)) => add_to(&mut self.assignments, index, said, offset),
            None => Err(error_at(WordsProblem::Name, offset)),
        }
    }
}

/// Sets what is said of the name with an index, if nothing was said before.
fn add_to(
    sayings: &mut Vec<Option<Said>>,
    index: usize,
    said: Said,
    offset: usize,
) -> Result<(), WordsError> {
    if let Some(Some(_)) = sayings.get(index) {
        return Err(error_at(WordsProblem::Twice, offset));
    }
    if let Some(place) = sayings.get_mut(index) {
        *place = Some(said);
    }
    Ok(())
}

/// A name, by its index in the syntax tree.
#[derive(Clone, Copy)]
enum Name {
    Node(usize),
    Assignment(usize),
}

fn error_at(problem: WordsProblem, offset: usize) -> WordsError {
    WordsError { problem, offset }
}

/// A name, and its offset.
#[derive(Clone, Copy)]
struct Passed {
    index: usize,
    offset: usize,
}

/// How many nodes and assignments were passed, and the last names that were.
#[derive(Clone, Copy)]
struct Names {
    nodes: usize,
    assignments: usize,
    last_node: Option<Passed>,
    last_assignment: Option<Passed>,
}

impl Names {
    /// The names with those before an offset passed.
    fn past(self, syntax: &Syntax<'static>, offset: usize) -> Names {
        self.past_nodes(&syntax.nodes, offset)
            .past_assignments(&syntax.assignments, offset)
    }

    fn past_nodes(self, nodes: &[Node<'static>], offset: usize) -> Names {
        let mut names = self;
        for node in nodes.get(self.nodes..).unwrap_or(&[]) {
            if offset <= node.offset {
                return names;
            }
            if !node.name.is_empty() {
                names.last_node = Some(Passed {
                    index: names.nodes,
                    offset: node.offset,
                });
            }
            names.nodes = names.nodes.saturating_add(1);
        }
        names
    }

    fn past_assignments(self, assignments: &[Assignment<'static>], offset: usize) -> Names {
        let mut names = self;
        for assignment in assignments.get(self.assignments..).unwrap_or(&[]) {
            if offset <= assignment.offset {
                return names;
            }
            names.last_assignment = Some(Passed {
                index: names.assignments,
                offset: assignment.offset,
            });
            names.assignments = names.assignments.saturating_add(1);
        }
        names
    }

    /// The last name that was passed.
    fn last(self) -> Option<Name> {
        match (self.last_node, self.last_assignment) {
            (Some(node), Some(assignment)) if node.offset < assignment.offset => {
                Some(Name::Assignment(assignment.index))
            }
            (Some(node), _) => Some(Name::Node(node.index)),
            (None, Some(assignment)) => Some(Name::Assignment(assignment.index)),
            (None, None) => None,
        }
    }
}

/// Nothing that a comment says.
const NOTHING: Said = Said {
    label: None,
    kind: None,
    notation: None,
    heads: false,
    secrecy: None,
};

/// What a comment says, if it says something.
fn words_of(text: &'static [u8], comment: Span) -> Result<Option<Said>, WordsError> {
    let Some(content) = comment.of(text).strip_prefix(b"--") else {
        return Ok(None);
    };
    if !begins_with_key(content) {
        return Ok(None);
    }
    let part = Part {
        octets: content.strip_suffix(b"--").unwrap_or(content),
        offset: comment.start.saturating_add(2),
    };
    Ok(Some(read_words(part)?))
}

/// Whether a comment begins with a key and a colon.
fn begins_with_key(content: &[u8]) -> bool {
    let content = content.trim_ascii_start();
    KEYS.iter().any(|key| match content.strip_prefix(key.as_bytes()) {
        Some([b':', ..]) => true,
        _ => false,
    })
}

const KEYS: [&str; 5] = ["label", "kind", "notation", "heads", "secret"];

/// A part of a comment, and its offset in the text.
#[derive(Clone, Copy)]
struct Part {
    octets: &'static [u8],
    offset: usize,
}

impl Part {
    /// The part without white space around it.
    fn trimmed(self) -> Part {
        let begun = self.octets.trim_ascii_start();
        let skipped = self.octets.len().saturating_sub(begun.len());
        Part {
            octets: begun.trim_ascii_end(),
            offset: self.offset.saturating_add(skipped),
        }
    }

    /// The parts before and after the first such octet, if there is one.
    fn split(self, at: u8) -> Option<(Part, Part)>
        ensures { IfSome result (λ parts. length parts.1.octets.now < length self.octets.now) }
    {
        let index = index_of(self.octets, at)?;
        let before = Part {
            octets: &self.octets[..index],
            offset: self.offset,
        };
        let after = Part {
            octets: &self.octets[index + 1..],
            offset: self.offset.saturating_add(index).saturating_add(1),
        };
        Some((before, after))
    }

    /// The text, which has printable characters of ASCII.
    fn text(self) -> Result<&'static str, WordsError> {
        let octets = self.octets;
        match str::from_utf8(octets) {
            Ok(text) if octets.iter().all(|octet| matches!(*octet, b' '..=b'~')) => Ok(text),
            _ => Err(self.error(WordsProblem::Text)),
        }
    }

    fn error(self, problem: WordsProblem) -> WordsError {
        error_at(problem, self.offset)
    }
}

/// The index of the first such octet.
fn index_of(octets: &[u8], wanted: u8) -> Option<usize>
    ensures { IfSome result (λ n. n < length octets.now) }
{
    octets.iter().position(|octet| *octet == wanted)
}

/// Reads words with commas between them.
fn read_words(content: Part) -> Result<Said, WordsError> {
    let mut said = NOTHING;
    let mut rest = content;
    while let Some((part, after)) = rest.split(b',') {
        said = said.with(part)?;
        rest = after;
    }
    said.with(rest)
}

impl Said {
    /// What is said with a further word.
    fn with(self, word: Part) -> Result<Said, WordsError> {
        let word = word.trimmed();
        let Some((key, value)) = word.split(b':') else {
            return Err(word.error(WordsProblem::Key));
        };
        let (key, value) = (key.trimmed(), value.trimmed());
        match key.text()? {
            "label" => Ok(Said {
                label: once(self.label, text_in(value)?, word)?,
                ..self
            }),
            "kind" => Ok(Said {
                kind: once(self.kind, text_in(value)?, word)?,
                ..self
            }),
            "notation" => Ok(Said {
                notation: once(self.notation, notation_in(value)?, word)?,
                ..self
            }),
            "heads" => self.heading(value, word),
            "secret" => Ok(Said {
                secrecy: once(self.secrecy, secrecy_in(value)?, word)?,
                ..self
            }),
            _ => Err(word.error(WordsProblem::Key)),
        }
    }

    /// What is said if the line heads what follows.
    fn heading(self, value: Part, word: Part) -> Result<Said, WordsError> {
        if self.heads {
            return Err(word.error(WordsProblem::Twice));
        }
        match value.text()? {
            "yes" => Ok(Said {
                heads: true,
                ..self
            }),
            _ => Err(value.error(WordsProblem::Yes)),
        }
    }

    /// The words, if something is said besides secrecy. `names` are those of the numbers.
    pub fn words(self, names: &'static [NumberName]) -> Option<Words>
        ensures { IsSaid self names.entry result }
    {
        if !self.has_words() {
            return None;
        }
        Some(Words {
            label: said_text(self.label),
            kind: said_text(self.kind),
            notation: said_notation(self.notation, names),
            heads: self.heads,
        })
    }

    /// Whether something is said besides secrecy.
    fn has_words(self) -> bool
        ensures { result ≡ has_words self }
    {
        self.label.is_some() || self.kind.is_some() || self.notation.is_some() || self.heads
    }
}

/// A text that is said, or none.
fn said_text(text: Option<&'static str>) -> &'static str
    ensures { result.now ≡ said_text text.entry }
{
    match text {
        Some(text) => text,
        None => "",
    }
}

/// A notation that is said, with these names of numbers. One that isn't said has no line.
fn said_notation(notation: Option<Notation>, names: &'static [NumberName]) -> Notation
    ensures { result ≡ said_notation notation names.entry }
{
    match notation {
        Some(Notation::NumberOf(_)) => Notation::NumberOf(names),
        Some(Notation::NameOf(_)) => Notation::NameOf(names),
        Some(notation) => notation,
        None => Notation::Silent,
    }
}

/// A value that wasn't there before.
fn once<T: Drop>(before: Option<T>, value: T, word: Part) -> Result<Option<T>, WordsError> {
    match before {
        Some(_) => Err(word.error(WordsProblem::Twice)),
        None => Ok(Some(value)),
    }
}

fn text_in(value: Part) -> Result<&'static str, WordsError> {
    match value.text()? {
        "" => Err(value.error(WordsProblem::Text)),
        text => Ok(text),
    }
}

fn secrecy_in(value: Part) -> Result<Secrecy, WordsError> {
    match value.text()? {
        "yes" => Ok(Secrecy::Secret),
        "unread" => Ok(Secrecy::SecretUnread),
        _ => Err(value.error(WordsProblem::Secrecy)),
    }
}

fn notation_in(value: Part) -> Result<Notation, WordsError> {
    let name = value.text()?;
    if let Some(word) = name.strip_prefix("word ") {
        return Ok(Notation::Word(word));
    }
    match notation_named(name) {
        Some(notation) => Ok(notation),
        None => Err(value.error(WordsProblem::Notation)),
    }
}

/// The notation with this name.
fn notation_named(name: &str) -> Option<Notation> {
    match name {
        "silent" => Some(Notation::Silent),
        "skipped" => Some(Notation::Skipped),
        "title" => Some(Notation::Title),
        "count" => Some(Notation::Count),
        "label" => Some(Notation::Label),
        "number" => Some(Notation::Number),
        "named number" => Some(Notation::NumberOf(&[])),
        "name" => Some(Notation::NameOf(&[])),
        "arcs" => Some(Notation::Arcs),
        "octets" => Some(Notation::Octets),
        "hex" => Some(Notation::Hex),
        "length" => Some(Notation::Length),
        "address" => Some(Notation::Address),
        "text" => Some(Notation::Text),
        "joined" => Some(Notation::Joined),
        "time" => Some(Notation::GeneralizedTime),
        "boolean" => Some(Notation::Boolean),
        "text or hex" => Some(Notation::TextOrHex),
        "filter" => Some(Notation::Filter),
        _ => None,
    }
}
