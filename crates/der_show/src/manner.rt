//! The manner in which an element is shown among the lines of an input.
ghost use Rattle.std.specs.Prelude.{◌≡◌};
ghost use Rattle.der_show.specs.FieldLines.{IsManner, leaf_past};

use crate::known::{Known, what_is};
use crate::part::octets_of;
use der_elements::Element;
use text_json::fields::is_inside;

/// The manner in which an element is shown. The elements inside a leaf have no lines.
#[derive(Drop)]
pub(crate) enum Manner<'a> {
    /// The element is inside a leaf and isn't shown.
    InLeaf,
    /// The element is a leaf. Its line has no value, since it is secret.
    Secret,
    /// The element is a leaf. Its octets are this structure, whose summary follows all lines.
    InWords(&'a [u8], Known<'a>),
    /// The line of the element has its value.
    Plain,
}

impl<'a> Manner<'a> {
    /// The manner for an element, which may be secret. `leaf` is the depth of the leaf that the walk is in, if it is in
    /// one.
    pub(crate) fn of(
        leaf: Option<usize>,
        octets: &'a [u8],
        element: &Element<'_>,
        is_secret: bool,
    ) -> Manner<'a>
        ensures { IsManner leaf octets.now element.now is_secret result }
    {
        if is_inside(leaf, element.depth) {
            return Manner::InLeaf;
        }
        if is_secret {
            return Manner::Secret;
        }
        let own = octets_of(octets, element);
        match what_is(own) {
            Some(known) => Manner::InWords(own, known),
            None => Manner::Plain,
        }
    }

    /// The depth of the leaf that the walk is in after an element at this depth that is shown in this manner.
    pub(crate) fn leaf_past(&self, leaf: Option<usize>, depth: usize) -> Option<usize>
        ensures { result ≡ leaf_past self.now leaf depth }
    {
        match self {
            Manner::InLeaf => leaf,
            Manner::Secret => Some(depth),
            Manner::InWords(..) => Some(depth),
            Manner::Plain => None,
        }
    }
}
