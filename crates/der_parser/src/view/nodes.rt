//! The elements of an input in preorder, and iterators over them.
ghost use Rattle.std.specs.Prelude.{◌≡◌, ◌↔◌, ◌<◌, ◌^◌, IsTrue, [], drop, length, slice_get};
ghost use Rattle.std.specs.Iterator.{YieldsFirstBy, item_count};
ghost use Rattle.std.specs.Option.{option_map};
ghost use Rattle.der_parser.specs.Viewing.Views.{input_of, elements_of, view, preorder, trees};
ghost use Rattle.der_parser.specs.Viewing.Views.{preorder_left, trees_left};

use crate::view::node::Node;
use der_elements::check::Element;

/// An input and its elements in preorder, as `list_elements` or `list_element` lists them.
#[derive(Clone, Copy, Debug)]
pub struct Nodes<'b, 'a> {
    input: &'a [u8],
    elements: &'b [Element],
}

impl<'b, 'a> Nodes<'b, 'a> {
    /// The view of these elements over an input. The elements may be any: those outside the input have no octets.
    ///
    /// ```
    /// let count = list_elements(input, Rules::Der, 50, &mut elements).ok_or(NoElements)?;
    /// let nodes = Nodes::new(input, elements.get(..count).ok_or(TooMany)?);
    /// for item in nodes.root().ok_or(Nothing)?.items() {
    ///     let number = item.as_u64()?;
    /// }
    /// ```
    pub fn new(input: &'a [u8], elements: &'b [Element]) -> Nodes<'b, 'a>
        ensures input { input_of result ≡ input.entry.now }
        ensures elements { elements_of result ≡ elements.entry.now }
    {
        Nodes { input, elements }
    }

    /// The octets of the input.
    pub fn input(&self) -> &'a [u8]
        ensures { result.now ≡ input_of self.now }
    {
        self.input
    }

    /// How many elements there are.
    pub fn len(&self) -> usize
        ensures { result ≡ length (elements_of self.now) }
    {
        self.elements.len()
    }

    /// Whether there are none.
    pub fn is_empty(&self) -> bool
        ensures { IsTrue result ↔ (elements_of self.now ≡ []) }
    {
        self.elements.is_empty()
    }

    /// The node of the first element.
    pub fn root(&self) -> Option<Node<'b, 'a>>
        ensures { option_map view result ≡ slice_get (preorder (input_of self.now) (elements_of self.now)) 0 }
    {
        let (element, after) = self.elements.split_first()?;
        let inside = after.get(..element.inside).unwrap_or(after);
        Some(Node::new(self.input, element, inside))
    }

    /// The node of an element, by its number in preorder.
    pub fn get(&self, index: usize) -> Option<Node<'b, 'a>>
        ensures { option_map view result ≡ slice_get (preorder (input_of self.now) (elements_of self.now)) index }
    {
        self.skip(index).root()
    }

    /// The elements after the first `count`.
    fn skip(&self, count: usize) -> Nodes<'b, 'a>
        ensures input { input_of result ≡ input_of self.now }
        ensures elements { elements_of result ≡ drop count (elements_of self.now) }
    {
        Nodes {
            input: self.input,
            elements: self.elements.get(count..).unwrap_or(&[]),
        }
    }

    /// The nodes of all elements in preorder.
    pub fn iter(&self) -> Preorder<'b, 'a>
        ensures nodes { preorder_left result ≡ preorder (input_of self.now) (elements_of self.now) }
        ensures few { length (preorder_left result) < 2 ^ 64 }
    {
        // Callers that count need to know that there are fewer than 2^64.
        let _count = self.len();
        Preorder { left: *self }
    }

    /// The nodes that are inside no other, in their order: the first element, and then each one after the elements
    /// inside the one before.
    pub fn trees(&self) -> Trees<'b, 'a>
        ensures nodes { trees_left result ≡ trees (input_of self.now) (elements_of self.now) }
        ensures few { length (trees_left result) < 2 ^ 64 }
    {
        // Callers that count need to know that there are fewer than 2^64.
        let _count = self.len();
        Trees { left: *self }
    }
}

/// The nodes of elements in preorder.
#[derive(Clone, Copy, Debug)]
pub struct Preorder<'b, 'a> {
    left: Nodes<'b, 'a>,
}

impl<'b, 'a> Iterator for Preorder<'b, 'a> {
    type Item = Node<'b, 'a>;

    ghost next_gives = { YieldsFirstBy view preorder_left };

    ghost remaining = { item_count preorder_left };

    fn next(&mut self) -> Option<Node<'b, 'a>> {
        let Some(node) = self.left.root() else {
            return None;
        };
        self.left = self.left.skip(1);
        Some(node)
    }
}

/// Nodes one after another, without those inside them.
#[derive(Clone, Copy, Debug)]
pub struct Trees<'b, 'a> {
    left: Nodes<'b, 'a>,
}

impl<'b, 'a> Iterator for Trees<'b, 'a> {
    type Item = Node<'b, 'a>;

    ghost next_gives = { YieldsFirstBy view trees_left };

    ghost remaining = { item_count trees_left };

    fn next(&mut self) -> Option<Node<'b, 'a>> {
        let Some(node) = self.left.root() else {
            return None;
        };
        self.left = self.left.skip(1).skip(node.element().inside);
        Some(node)
    }
}
