//! What a schema expects in one content.
ghost use Rattle.std.specs.Prelude.{◌≡◌, []};
ghost use Rattle.std.specs.List.{list_all};
ghost use Rattle.der_schema.specs.Ends.{is_optional, level_ends};
ghost use Rattle.der_schema.specs.Meaning.{components_of};

use crate::schema::{Component, Selection};

/// What a schema expects of the elements of a content, from an offset on.
#[derive(Clone, Copy)]
pub(crate) enum Content {
    /// None of them is in the schema.
    NoElement,
    /// Any elements.
    Anything,
    /// These components, in this order.
    Ordered(&'static [Component]),
    /// These components, in any order.
    Unordered(&'static [Component]),
    /// Any number of items like this one.
    Repeated(&'static Component),
}

/// What a schema expects in a content, from an offset on.
#[derive(Clone, Copy)]
pub(crate) struct Level {
    /// The elements that are expected next.
    pub expected: Content,
    /// What the last identifier selects.
    pub selected: &'static Selection,
}

/// What an identifier selects that isn't in the schema.
const NOTHING_SELECTED: &Selection = &Selection {
    identifier: &[],
    components: &[],
};

/// What is selected before there is an identifier.
pub(crate) fn nothing_selected() -> &'static Selection
    ensures { components_of result.now ≡ [] }
{
    NOTHING_SELECTED
}

impl Level {
    /// A content without elements, as the value of unused entries.
    pub(crate) const NOTHING: Level = Level {
        expected: Content::NoElement,
        selected: NOTHING_SELECTED,
    };

    /// Whether the content may end here: all components that are still expected are optional.
    pub(crate) fn may_end(&self) -> bool
        ensures { result ≡ level_ends self.now }
    {
        match self.expected {
            Content::Ordered(components) => are_optional(components),
            _ => true,
        }
    }
}

/// Whether all of these components are optional.
fn are_optional(components: &'static [Component]) -> bool
    ensures { result ≡ list_all is_optional components.now }
{
    let mut ahead = components;
    while let Some((component, rest)) = ahead.split_first() {
        if !component.optional {
            return false;
        }
        ahead = rest;
    }
    true
}

/// Whether all of these contents may end here.
pub(crate) fn may_all_end(levels: &[Level]) -> bool
    ensures { result ≡ list_all level_ends levels.now }
{
    let mut ahead = levels;
    while let Some((level, rest)) = ahead.split_first() {
        if !level.may_end() {
            return false;
        }
        ahead = rest;
    }
    true
}
