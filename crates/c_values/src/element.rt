//! Elements for C.
ghost use Rattle.std.specs.Prelude.{◌≡◌, ◌-◌};
ghost use Rattle.c_values.specs.Elements.{bit, class_number, first_slot, is_definite, marker_size};
ghost use Rattle.der_base.specs.Header.{length_of};

use der_base::header::{Class, Header, Length};
use der_elements::check::{Element, Slot};

/// An element of an input: the fields of `der_elements::check::Element` as numbers.
#[repr(C)]
#[derive(Clone, Copy)]
pub struct DmElement {
    /// The offset of the identifier octets.
    pub header: usize,
    /// The offset of the content octets.
    pub content: usize,
    /// The offset after the content octets.
    pub end: usize,
    /// The number of following elements that are inside it, at any depth.
    pub inside: usize,
    /// The tag number.
    pub number: u32,
    /// The class, from 0 to 3.
    pub tag_class: u8,
    /// 1 if constructed, else 0.
    pub constructed: u8,
    /// 1 if the length is definite, else 0.
    pub definite: u8,
    /// 0.
    pub reserved: u8,
}

impl Slot for DmElement {
    ghost use Rattle.c_values.specs.Elements.{slot_of};

    ghost slot = { slot_of };

    #[inline(always)]
    fn keep(element: Element) -> DmElement {
        DmElement {
            header: element.header,
            content: element.content,
            end: element.end,
            inside: element.inside,
            number: element.number,
            tag_class: class_number(element.class),
            constructed: bit(element.constructed),
            definite: bit(element.definite),
            reserved: 0,
        }
    }
}

/// The first element of an input, with none inside. It has `length` octets, `size` of them content octets.
pub(crate) fn first_element(length: usize, header: &Header<'_>, size: usize) -> DmElement
    ensures { result ≡ first_slot header.now (length - marker_size header.now - size) size }
{
    let begin = length
        .saturating_sub(marker_size(header))
        .saturating_sub(size);
    DmElement {
        header: 0,
        content: begin,
        end: begin + size,
        inside: 0,
        number: header.tag().0,
        tag_class: class_number(header.class()),
        constructed: bit(header.constructed()),
        definite: bit(is_definite(header)),
        reserved: 0,
    }
}

/// The number of end-of-contents octets after a content: 2 if the length is indefinite, else 0.
fn marker_size(header: &Header<'_>) -> usize
    ensures { result ≡ marker_size header.now }
{
    if is_definite(header) { 0 } else { 2 }
}

/// Returns whether a header has a definite length.
fn is_definite(header: &Header<'_>) -> bool
    ensures { result ≡ is_definite (length_of header.now) }
{
    match header.length() {
        Length::Definite(_) => true,
        Length::Indefinite => false,
    }
}

/// The number of a class, as in the first two bits of an identifier octet (X.690 8.1.2.2).
#[inline(always)]
pub fn class_number(class: Class) -> u8
    ensures { result ≡ class_number class }
{
    match class {
        Class::Universal => 0,
        Class::Application => 1,
        Class::ContextSpecific => 2,
        Class::Private => 3,
    }
}

/// 1 for true, and 0 for false.
#[inline(always)]
pub fn bit(b: bool) -> u8
    ensures { result ≡ bit b }
{
    if b { 1 } else { 0 }
}
