//! One element of an input: its octets, and the nodes inside it.
ghost use Rattle.std.specs.Prelude.{◌≡◌, ◌↔◌, true, IsTrue, MatchResult, length, ◌<◌, ◌^◌};
ghost use Rattle.der_base.specs.declared.header.Class.{Class};
ghost use Rattle.der_parser.specs.Viewing.Views.{input_of, elements_of, view, preorder, trees, preorder_left, trees_left};
ghost use Rattle.der_parser.specs.Viewing.Views.{octets_between, content_of, header_of, octets_of};

use crate::view::nodes::{Nodes, Preorder, Trees};
use der_base::header::{Class, Tag};
use der_elements::check::Element;

/// An element in an input, and the elements inside it.
#[derive(Clone, Copy, Debug)]
pub struct Node<'b, 'a> {
    input: &'a [u8],
    element: &'b Element,
    inside: &'b [Element],
}

impl<'b, 'a> Node<'b, 'a> {
    /// A node with these parts.
    pub(crate) fn new(input: &'a [u8], element: &'b Element, inside: &'b [Element]) -> Node<'b, 'a>
        ensures { view result ≡
            record { input = input.entry.now; element = element.entry.now; inside = inside.entry.now } }
    {
        Node {
            input,
            element,
            inside,
        }
    }

    /// The element.
    pub fn element(&self) -> Element
        ensures { result ≡ (view self.now).element }
    {
        *self.element
    }

    /// The class of the tag (X.690 8.1.2.2).
    pub fn class(&self) -> Class
        ensures { result ≡ (view self.now).element.class }
    {
        self.element.class
    }

    /// The tag number.
    pub fn tag(&self) -> Tag
        ensures { result.0 ≡ (view self.now).element.number }
    {
        Tag(self.element.number)
    }

    /// Whether the content is elements (8.1.2.5).
    pub fn is_constructed(&self) -> bool
        ensures { result ≡ (view self.now).element.constructed }
    {
        self.element.constructed
    }

    /// The identifier and length octets.
    pub fn header_octets(&self) -> &'a [u8]
        ensures { result.now ≡ header_of (view self.now) }
    {
        between(self.input, self.element.header, self.element.content)
    }

    /// The content octets, without the end-of-contents octets of an indefinite length.
    pub fn content(&self) -> &'a [u8]
        ensures { result.now ≡ content_of (view self.now) }
    {
        between(self.input, self.element.content, self.element.end)
    }

    /// The octets of the whole element: header, content, and the end-of-contents octets of an indefinite length.
    pub fn octets(&self) -> &'a [u8]
        ensures { result.now ≡ octets_of (view self.now) }
    {
        let marker = if self.element.definite { 0 } else { 2 };
        match self.element.end.checked_add(marker) {
            Some(end) => between(self.input, self.element.header, end),
            None => &[],
        }
    }

    /// The view of the elements inside it, at any depth.
    pub fn inside(&self) -> Nodes<'b, 'a>
        ensures input { input_of result ≡ (view self.now).input }
        ensures elements { elements_of result ≡ (view self.now).inside }
    {
        Nodes::new(self.input, self.inside)
    }

    /// The items in their order: the first element inside, and then each one after the elements inside the item before.
    pub fn items(&self) -> Trees<'b, 'a>
        ensures nodes { trees_left result ≡ trees (view self.now).input (view self.now).inside }
        ensures few { length (trees_left result) < 2 ^ 64 }
    {
        self.inside().trees()
    }

    /// The nodes inside it at any depth, in preorder.
    pub fn descendants(&self) -> Preorder<'b, 'a>
        ensures nodes { preorder_left result ≡ preorder (view self.now).input (view self.now).inside }
        ensures few { length (preorder_left result) < 2 ^ 64 }
    {
        self.inside().iter()
    }
}

/// The octets between two offsets of the input. There are none if an offset is outside it.
fn between(input: &[u8], from: usize, to: usize) -> &[u8]
    ensures { result.now ≡ octets_between input.now from to }
{
    input.get(from..to).unwrap_or(&[])
}
