//! The content that a walk is in, and where it ends.
ghost use Rattle.std.specs.Prelude.{◌≡◌, ◌+◌, ◌≤◌, ◌↔◌, IsSomeAnd, IsTrue, Some, false};
ghost use Rattle.der_elements.specs.Ends.{IsEndOf, end_in, limit_of, overrun};

use crate::path::Step;
use der_base::rules::Rules;

/// Where a content ends.
#[derive(Clone, Copy, PartialEq)]
pub(crate) enum End {
    /// At this offset of the input, at the latest.
    At(usize),
    /// At most this many octets after the end of the input, which is truncated.
    After(usize),
    /// No length gives the end. This holds for the input itself, and for an indefinite length outside of all definite
    /// ones.
    Unlimited,
}

impl End {
    /// The end of a content with this length. It begins at the offset `begin` of an input of `size` octets.
    pub(crate) fn of(begin: usize, length: usize, size: usize) -> End
        requires { begin ≤ size }
        ensures inside { IsEndOf size result }
        ensures place { end_in size result ≡ Some (begin + length) }
    {
        let room = size - begin;
        if length <= room {
            End::At(begin + length)
        } else {
            End::After(length - room)
        }
    }

    /// Whether the end is at the offset `at` of an input of `size` octets, or before.
    pub(crate) fn is_reached(self, at: usize, size: usize) -> bool
        ensures { IsTrue result ↔ IsSomeAnd (end_in size self) (λ n. n ≤ at) }
    {
        match self {
            End::At(end) => end <= at,
            End::After(missing) => size <= at && missing <= at - size,
            End::Unlimited => false,
        }
    }

    /// The offset up to which the input has octets of the content.
    pub(crate) fn limit(self, size: usize) -> usize
        ensures { result ≡ limit_of size (end_in size self) }
    {
        match self {
            End::At(end) => end.min(size),
            End::After(_) | End::Unlimited => size,
        }
    }

    /// How many octets after this end a content of this length ends that begins at the offset `begin`.
    pub(crate) fn overrun(self, begin: usize, length: usize, size: usize) -> usize
        requires { begin ≤ limit_of size (end_in size self) }
        ensures { result ≡ overrun (begin + length) (end_in size self) }
    {
        match self {
            End::At(end) => length.saturating_sub(end - begin),
            End::After(missing) => length.saturating_sub(size - begin).saturating_sub(missing),
            End::Unlimited => 0,
        }
    }
}

/// Octets that are elements: the whole input, or the content of an element.
#[derive(Clone, Copy)]
pub(crate) struct Content {
    /// The rules of its elements.
    pub rules: Rules,
    pub end: End,
    /// Whether end-of-contents octets end it.
    pub has_marker: bool,
    /// How many of its elements were visited.
    pub visited: usize,
}

impl Content {
    /// The whole input as a content.
    pub(crate) fn of_input(rules: Rules) -> Content
        ensures { result ≡ record { rules = rules; end = End.Unlimited; has_marker = false; visited = 0 } }
    {
        Content {
            rules,
            end: End::Unlimited,
            has_marker: false,
            visited: 0,
        }
    }
}

/// An element whose content is being visited.
#[derive(Clone, Copy)]
pub(crate) struct Open {
    pub step: Step,
    /// The offset where it begins.
    pub offset: usize,
    /// The content around it, in which it is already counted.
    pub around: Content,
}

/// The value of unused entries.
impl Default for Open {
    fn default() -> Open {
        Open {
            step: Step::default(),
            offset: 0,
            around: Content::of_input(Rules::Ber),
        }
    }
}
