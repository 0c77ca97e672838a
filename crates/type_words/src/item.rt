//! Items: what the lines of an input say.
ghost use Rattle.std.specs.Prelude.{OnOk};
ghost use Rattle.type_words.specs.Items.{Said};
ghost use Rattle.type_words.specs.Places.{said};

use der_schema::words::Notation;
use std::alloc::AllocError;

/// What a line says of an element.
#[derive(Clone, Copy)]
pub struct Item<'a> {
    /// How many levels deep the line is.
    pub indent: usize,
    /// The offset of the element, in octets from the start of the input.
    pub offset: usize,
    pub label: Label<'a>,
    /// What is in front of the value, such as the name of its type, or empty.
    pub kind: &'static str,
    /// How the octets are read.
    pub notation: Notation,
    /// The content octets. With an indefinite length, all octets after the header. For a `Filter`, all octets from the
    /// header on.
    pub octets: &'a [u8],
}

/// The label of a line.
#[derive(Clone, Copy)]
pub enum Label<'a> {
    Nothing,
    Words(&'static str),
    /// The arcs of an identifier with these content octets.
    Identifier(&'a [u8]),
}

/// What takes items, one after another.
pub trait Sink {
    ghost put_gives: { Self → Said → Self → Type 0 };

    /// Takes the next item. An error if there is no memory.
    fn put(&mut self, item: &Item<'_>) -> Result<(), AllocError>
        ensures { OnOk result (put_gives self.old (said item.now) self.new) };
}
