//! Items as lines of text.
ghost use Rattle.std.specs.Prelude.{◌≡◌, ◌^◌, ◌<◌, [], IfOk, Some, length};
ghost use Rattle.std.specs.Fmt.{DisplaysOnOk, IsPlainFormatter};
ghost use Rattle.der_print.specs.Writes.{WritesOne};
ghost use Rattle.type_words.specs.Counts.{IsCount};
ghost use Rattle.type_words.specs.Lines.{IsBehind, IsEnding, IsLine, IsTime, IsValue, columns, front_text};
ghost use Rattle.type_words.specs.Places.{said};
ghost use Rattle.type_words.specs.TextLines.{text_in};

use crate::filter::write_filter;
use crate::item::{Item, Label, Sink};
use crate::joined::write_joined;
use crate::value::Value;
use der_base::header::Tag;
use der_base::rules::Rules;
use der_base::time::read_time;
use der_elements::Walk;
use der_print::{Arcs, Moment};
use der_schema::words::Notation;
use std::alloc::{AllocError, Global};
use std::fmt;

/// A buffer for a text.
#[derive(Drop)]
struct Text {
    octets: Vec<u8>,
}

impl fmt::Write for Text {
    ghost use Rattle.std.specs.Prelude.{◌++◌};

    ghost write_str_gives = { λ t text u. u.octets.items ≡ t.octets.items ++ text };

    fn write_str(&mut self, text: &str) -> fmt::Result {
        match self.octets.extend_from_slice(text.as_bytes()) {
            Ok(()) => Ok(()),
            Err(_) => Err(fmt::Error),
        }
    }
}

/// Items as lines of text: `Label: value`, after two spaces for each level.
#[derive(Drop)]
pub struct TextLines {
    f: fmt::Formatter<Text>,
    alloc: Global,
}

impl TextLines {
    /// No lines.
    pub fn new(alloc: Global) -> TextLines
        ensures text { text_in result ≡ [] }
        ensures plain { IsPlainFormatter result.f }
    {
        let octets = Vec::new(alloc);
        TextLines {
            f: fmt::Formatter::new(Text { octets }),
            alloc,
        }
    }

    /// The lines.
    pub fn into_bytes(self) -> Vec<u8>
        ensures { result.items ≡ text_in self }
    {
        self.f.into_inner().octets
    }
}

impl Sink for TextLines {
    ghost use Rattle.type_words.specs.TextLines.{AddsLine};

    ghost put_gives = { AddsLine };

    fn put(&mut self, item: &Item<'_>) -> Result<(), AllocError> {
        match write_line(&mut self.f, self.alloc, item) {
            Ok(()) => Ok(()),
            Err(_) => Err(AllocError),
        }
    }
}

/// Writes the line of an item.
fn write_line<W: fmt::Write>(
    f: &mut fmt::Formatter<W>,
    alloc: Global,
    item: &Item<'_>,
) -> fmt::Result
    ensures { WritesOne W.Write.write_str_gives f.old result (IsLine (said item.now)) f.new }
{
    write_columns(f, item.indent)?;
    let label = LabelText(item.label);
    write!(f, "{label}:")?;
    write_ending(f, alloc, item)?;
    f.write_str("\n")
}

/// Writes two spaces for each level.
fn write_columns<W: fmt::Write>(f: &mut fmt::Formatter<W>, levels: usize) -> fmt::Result
    ensures { DisplaysOnOk W.Write.write_str_gives f.old result (Some (columns levels)) f.new }
{
    'levels: for _ in 0..levels {
        write!(f, "  ")?;
    }
    Ok(())
}

/// The text of a label.
#[derive(Clone, Copy)]
struct LabelText<'a>(Label<'a>);

impl fmt::Display for LabelText<'_> {
    ghost use Rattle.std.specs.Prelude.{Some};
    ghost use Rattle.type_words.specs.Places.{label_text};

    ghost output = { λ x. Some (label_text x.0) };

    fn fmt<W: fmt::Write>(&self, f: &mut fmt::Formatter<W>) -> fmt::Result {
        match self.0 {
            Label::Nothing => Ok(()),
            Label::Words(words) => f.write_str(words),
            Label::Identifier(octets) => {
                let relative = false;
                let arcs = Arcs { octets, relative };
                write!(f, "{arcs}")
            }
        }
    }
}

/// Writes what is behind the colon of a line: nothing after a title, or else the value after a space.
fn write_ending<W: fmt::Write>(
    f: &mut fmt::Formatter<W>,
    alloc: Global,
    item: &Item<'_>,
) -> fmt::Result
    ensures { WritesOne W.Write.write_str_gives f.old result (IsEnding (said item.now)) f.new }
{
    match item.notation {
        Notation::Title => Ok(()),
        notation => write_behind(f, alloc, item.kind, notation, item.octets),
    }
}

/// Writes a value behind a space and what is in front of it.
fn write_behind<W: fmt::Write>(
    f: &mut fmt::Formatter<W>,
    alloc: Global,
    kind: &str,
    notation: Notation,
    octets: &[u8],
) -> fmt::Result
    ensures { WritesOne W.Write.write_str_gives f.old result (IsBehind kind.now notation octets.now) f.new }
{
    write_front(f, kind)?;
    write_value(f, alloc, notation, octets)
}

/// Writes a space, and what is in front of a value, if there is something, with a space after it.
fn write_front<W: fmt::Write>(f: &mut fmt::Formatter<W>, kind: &str) -> fmt::Result
    ensures { DisplaysOnOk W.Write.write_str_gives f.old result (Some (front_text kind.now)) f.new }
{
    if kind.is_empty() {
        f.write_str(" ")
    } else {
        write!(f, " {kind} ")
    }
}

/// The text of a value, as a line has it. AllocError if there is no memory.
pub fn value_text(alloc: Global, notation: Notation, octets: &[u8]) -> Result<Vec<u8>, AllocError>
    ensures { IfOk result (λ text. IsValue notation octets.now text.items) }
{
    let mut lines = TextLines::new(alloc);
    match write_value(&mut lines.f, alloc, notation, octets) {
        Ok(()) => Ok(lines.into_bytes()),
        Err(_) => Err(AllocError),
    }
}

/// Writes a value.
fn write_value<W: fmt::Write>(
    f: &mut fmt::Formatter<W>,
    alloc: Global,
    notation: Notation,
    octets: &[u8],
) -> fmt::Result
    ensures { WritesOne W.Write.write_str_gives f.old result (IsValue notation octets.now) f.new }
{
    match notation {
        Notation::Count => {
            let count = count_in(octets);
            write!(f, "{count}")
        }
        Notation::Filter => write_filter(f, alloc, octets),
        Notation::Joined => write_joined(f, octets),
        Notation::GeneralizedTime => write_time(f, octets),
        notation => {
            let value = Value { notation, octets };
            write!(f, "{value}")
        }
    }
}

/// Writes the time of a GeneralizedTime, or its text in quotes if it is none.
fn write_time<W: fmt::Write>(f: &mut fmt::Formatter<W>, octets: &[u8]) -> fmt::Result
    ensures { WritesOne W.Write.write_str_gives f.old result (IsTime octets.now) f.new }
{
    match read_time(Tag::GeneralizedTime, octets) {
        Some(time) => {
            let is_utc_time = false;
            let moment = Moment { time, is_utc_time };
            write!(f, "{moment}")
        }
        None => {
            let notation = Notation::Text;
            let text = Value { notation, octets };
            write!(f, "{text}")
        }
    }
}

/// How many elements these octets begin with by BER. The content octets of an indefinite length have an end marker,
/// which is no element.
pub fn count_in(octets: &[u8]) -> usize
    ensures { IsCount octets.now result }
{
    if size_of(octets) == 0 {
        return 0;
    }
    let mut walk = Walk::new(octets, Rules::Ber, false).keeping_values();
    let mut count = 0;
    'elements: loop {
        match walk.next_element() {
            Ok(Some(element)) if element.depth == 0 => count += 1,
            Ok(Some(_)) => {}
            Ok(None) => return count,
            Err(_) => return count,
        }
    }
}

/// How many octets there are.
fn size_of(octets: &[u8]) -> usize
    ensures size { result ≡ length octets.now }
    ensures fits { length octets.now < 2 ^ 64 }
{
    octets.len()
}
