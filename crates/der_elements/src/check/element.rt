//! Elements by their offsets.
ghost use Rattle.std.specs.Prelude.{◌≡◌, ◌+◌, ◌-◌, ◌≤◌};
ghost use Rattle.der_base.specs.Header.{length_of};
ghost use Rattle.der_elements.specs.Check.Tapes.{element_of, marker_size, universal_element};

use der_base::header::{Class, Header, Length};

/// An element of an input: its identifier octets (X.690 8.1.2), its offsets, and how many elements are inside it.
/// Offsets are in octets from the start of the input.
#[derive(Clone, Copy, Debug, PartialEq)]
pub struct Element {
    pub class: Class,
    pub constructed: bool,
    /// Whether the length is definite (8.1.3). By DER it always is.
    pub definite: bool,
    /// The tag number.
    pub number: u32,
    /// Where the header begins.
    pub header: usize,
    /// Where the content octets begin.
    pub content: usize,
    /// Where the content octets end. With an indefinite length, end-of-contents octets follow.
    pub end: usize,
    /// How many elements are inside, at any depth. In preorder they come next.
    pub inside: usize,
}

/// What a list of elements is written to: `Element`, or a struct of your own.
pub trait Slot: Copy {
    ghost use Rattle.std.specs.Prelude.{◌≡◌};
    ghost use Rattle.der_elements.specs.declared.check.element.Element.{Element};

    /// The slot that keeps an element.
    ghost slot: { Element → Self };

    /// Makes the slot that keeps an element.
    fn keep(element: Element) -> Self
        ensures { result ≡ slot element };
}

impl Slot for Element {
    ghost slot = { λ e. e };

    #[inline(always)]
    fn keep(element: Element) -> Element {
        element
    }
}

/// How many end-of-contents octets there are (8.1.5).
const END_MARKER: usize = 2;

/// The element of a universal type with a header of two octets and a content of `size` octets that ends at `end`. No
/// elements inside it are counted yet.
#[inline(always)]
pub(crate) fn universal_element(constructed: bool, number: u8, size: usize, end: usize) -> Element
    requires { size + 2 ≤ end }
    ensures { result ≡ universal_element constructed number size end 0 }
{
    Element {
        class: Class::Universal,
        constructed,
        definite: true,
        number: u32::from(number),
        header: end - size - 2,
        content: end - size,
        end,
        inside: 0,
    }
}

/// The element with this header at offset `start`. Its content begins at `content`, and the element ends at `after`. No
/// elements inside it are counted yet.
#[inline(always)]
pub(crate) fn element_of(header: &Header<'_>, start: usize, content: usize, after: usize) -> Element
    requires { 2 ≤ after }
    ensures { let h = header.now in
        result ≡ element_of h start content (after - marker_size (length_of h)) 0 }
{
    Element {
        class: header.class(),
        constructed: header.constructed(),
        definite: matches!(header.length(), Length::Definite(_)),
        number: header.tag().0,
        header: start,
        content,
        end: after - marker_size(header.length()),
        inside: 0,
    }
}

/// How many octets follow a content with this length in its element.
#[inline(always)]
fn marker_size(length: Length) -> usize
    ensures { result ≡ marker_size length }
{
    match length {
        Length::Definite(_) => 0,
        Length::Indefinite => END_MARKER,
    }
}
