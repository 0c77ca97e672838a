//! Elements as rows of numbers.
ghost use Rattle.std.specs.Prelude.{◌≡◌};
ghost use Rattle.der_base.specs.Octets.{class_number};
ghost use Rattle.dumarewhi_page.specs.Content.Rows.{class_numbered, holds_number, holds_numbered};

use der_base::header::Class;
use der_elements::{Element, Rules, Step, TypeName};

/// An element of an input.
#[repr(C)]
#[derive(Clone, Copy)]
pub struct PageRow {
    /// The offset of the identifier octets.
    pub offset: usize,
    /// The number of octets of the header.
    pub header: usize,
    /// The number of content octets in the header; 0 if indefinite.
    pub length: usize,
    /// The number of elements around it.
    pub depth: usize,
    /// Its index among the elements of the same content, from 0.
    pub index: usize,
    /// The number of the row of the element around it, from 1. 0 if there is none.
    pub around: usize,
    /// The tag number.
    pub number: u32,
    /// The class, from 0 to 3.
    pub tag_class: u8,
    /// Whether it is constructed, 0 or 1.
    pub constructed: u8,
    /// Whether its length is definite, 0 or 1.
    pub definite: u8,
    /// 1 or 2 if it is a string whose content is an element of DER or of BER, else 0.
    pub holds: u8,
    /// Whether its octets break its type, 0 or 1.
    pub breaks_its_type: u8,
}

impl PageRow {
    ghost use Rattle.der_elements.specs.Walked.{visited_of};
    ghost use Rattle.dumarewhi_page.specs.Content.Rows.{row_of, step_in, visited_in};

    /// The row of an element inside the element with the row `around`.
    pub(crate) fn new(element: &Element<'_>, around: usize) -> PageRow
        ensures { result ≡ row_of (visited_of element.now) element.now.index around }
    {
        PageRow {
            offset: element.offset,
            header: element.header,
            length: element.length.unwrap_or(0),
            depth: element.depth,
            index: element.index,
            around,
            number: element.number,
            tag_class: class_number(element.class),
            constructed: u8::from(element.constructed),
            definite: u8::from(element.length.is_some()),
            holds: holds_number(element.holds),
            breaks_its_type: u8::from(element.breaks_its_type),
        }
    }

    /// The element with this row.
    pub fn element<'a>(&self, input: &'a [u8]) -> Element<'a>
        ensures { visited_of result ≡ visited_in self.now }
    {
        let begin = self.offset.saturating_add(self.header);
        let length = if self.definite == 1 {
            Some(self.length)
        } else {
            None
        };
        Element {
            class: class_numbered(self.tag_class),
            constructed: self.constructed == 1,
            number: self.number,
            identifier: &[],
            offset: self.offset,
            header: self.header,
            length,
            content: content_at(input, begin, length),
            depth: self.depth,
            index: self.index,
            holds: holds_numbered(self.holds),
            breaks_its_type: self.breaks_its_type == 1,
        }
    }

    /// The name of the type or tag.
    pub fn name(&self) -> TypeName
        ensures class { result.class ≡ class_numbered self.now.tag_class }
        ensures number { result.number ≡ self.now.number }
    {
        TypeName {
            class: class_numbered(self.tag_class),
            number: self.number,
        }
    }

    /// The last step of the path.
    pub(crate) fn step(&self) -> Step
        ensures { result ≡ step_in self.now }
    {
        Step {
            name: self.name(),
            index: self.index,
        }
    }
}

/// The content octets from `begin` on, if all are there.
fn content_at(input: &[u8], begin: usize, length: Option<usize>) -> Option<&[u8]> {
    input.get(begin..begin.saturating_add(length?))
}

/// The number of a class, as in the first two bits of an identifier octet (X.690 8.1.2.2).
fn class_number(class: Class) -> u8
    ensures { result ≡ class_number class }
{
    match class {
        Class::Universal => 0,
        Class::Application => 1,
        Class::ContextSpecific => 2,
        Class::Private => 3,
    }
}

/// The class with this number.
fn class_numbered(number: u8) -> Class
    ensures { result ≡ class_numbered number }
{
    match number {
        0 => Class::Universal,
        1 => Class::Application,
        2 => Class::ContextSpecific,
        _ => Class::Private,
    }
}

/// The number of the rules of a string's inner element.
fn holds_number(holds: Option<Rules>) -> u8
    ensures { result ≡ holds_number holds }
{
    match holds {
        None => 0,
        Some(Rules::Der) => 1,
        Some(Rules::Ber) => 2,
    }
}

/// The rules with this number.
fn holds_numbered(number: u8) -> Option<Rules>
    ensures { result ≡ holds_numbered number }
{
    match number {
        0 => None,
        1 => Some(Rules::Der),
        _ => Some(Rules::Ber),
    }
}
