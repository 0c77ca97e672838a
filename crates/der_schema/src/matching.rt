//! Matching of elements with the components of a schema.
ghost use Rattle.std.specs.Prelude.{◌≡◌, ◌+◌, Option, Some, None, slice_get};
ghost use Rattle.der_base.specs.TreeEquality.{same_octets};
ghost use Rattle.der_schema.specs.Encodings.{octets_at};
ghost use Rattle.der_schema.specs.Meaning.{all_types, alternative_in, as_alternative, as_plain, as_numbered};
ghost use Rattle.der_schema.specs.Meaning.{as_referred, as_selected, chosen_in, components_of};
ghost use Rattle.der_schema.specs.Meaning.{expected_of, field_of, first_content, fits, found_in, has_items, member_in};
ghost use Rattle.der_schema.specs.Meaning.{mark_of, marked_of, marked_or, next_in, opened, secret_or, selected_by};
ghost use Rattle.der_schema.specs.Meaning.{selected_past, tagged_field};
ghost use Rattle.der_schema.specs.Steps.{around, component_in, encoding_of, label_by, label_of, next_found};
ghost use Rattle.der_schema.specs.Steps.{selection_in};

use crate::level::{Content, Level, nothing_selected};
use crate::schema::{Class, Component, Form, Inside, Secrecy, Selection, Type};
use crate::words::Words;
use der_elements::Element;

/// The name of an element.
#[derive(Clone, Copy, Debug, PartialEq)]
pub struct Name {
    /// The identifier in the definition of the type. It is empty if there is none, such as inside an explicit tag.
    pub text: &'static str,
    /// Whether the index tells the element apart. This is so for an item of a SEQUENCE OF or SET OF, and for an element
    /// in a content that no type describes.
    pub is_item: bool,
    /// Whether the type marks the element as secret. Everything inside it is then secret as well, whatever its name.
    pub secrecy: Secrecy,
    /// How the type shows the element in words.
    pub words: Option<&'static Words>,
}

/// What the matching of elements needs besides their components and the last identifier.
#[derive(Clone, Copy)]
pub(crate) struct Known<'a> {
    /// The input, from which identifiers are read.
    pub input: &'a [u8],
    /// The types that components refer to by index.
    pub types: &'a [&'static Component],
}

/// What an element is called, how secret it is, and how it is shown. An element may match several components, each of
/// which refers to the next.
#[derive(Clone, Copy)]
pub(crate) struct Called {
    /// The component that gives the name.
    pub named: &'static Component,
    /// The most secret component. (Its mark alone would be slower: beside a reference, the compiler copies an octet
    /// together with the unused ones after it.)
    pub marked: &'static Component,
    /// The words of the first component that has some.
    pub words: Option<&'static Words>,
}

/// An element that is in the schema.
#[derive(Clone, Copy)]
pub(crate) struct Found {
    pub called: Called,
    pub inside: &'static Inside,
}

/// What a schema tells about an element: what it is called, what is expected inside it, and what is expected after it.
#[derive(Clone, Copy)]
pub(crate) struct Step {
    pub called: Option<Called>,
    pub inside: Level,
    pub after: Level,
}

impl Level {
    ghost use Rattle.std.specs.Prelude.{◌≡◌};
    ghost use Rattle.der_schema.specs.Meaning.{all_types, expected_of, has_items, past, place_in, state_of};
    ghost use Rattle.der_schema.specs.Steps.{around, encoding_of, passed_of, place_found};

    /// Moves past the next element of the content, to what is expected after it.
    #[inline(always)]
    pub(crate) fn go_past(&mut self, element: &Element<'_>, known: &Known<'_>) -> Step
        ensures step { passed_of (all_types known.now.types.now) (has_items (expected_of self.old.expected)) result
            ≡ past (state_of (all_types known.now.types.now) self.old) (encoding_of known.now element.now) }
        ensures after { self.new ≡ result.after }
    {
        let selected = self.selected;
        match self.find(element, known) {
            Some(found) => {
                let (expected, later) = entered(found.inside, element, known, selected);
                self.selected = later;
                Step {
                    called: Some(found.called),
                    inside: Level { expected, selected },
                    after: *self,
                }
            }
            None => {
                self.expected = Content::NoElement;
                Step {
                    called: None,
                    inside: *self,
                    after: *self,
                }
            }
        }
    }

    /// Matches the next element. If it is in the schema, what is expected becomes what follows it.
    #[inline(always)]
    fn find(&mut self, element: &Element<'_>, known: &Known<'_>) -> Option<Found>
        ensures place { place_found result self.new.expected
            ≡ place_in (expected_of self.old.expected) (encoding_of known.now element.now)
            (around self.old.selected.now known.now) }
        ensures selected { self.new.selected ≡ self.old.selected }
    {
        match self.expected {
            Content::NoElement => None,
            Content::Anything => Some(Found::any(Called::of(&NAMELESS))),
            Content::Ordered(components) => {
                let (found, rest) = next_of(components, element, self.selected, known)?;
                self.expected = Content::Ordered(rest);
                Some(found)
            }
            Content::Unordered(components) => {
                member_of(components, element, self.selected, known)
            }
            Content::Repeated(component) => found_as(component, element, self.selected, known),
        }
    }
}

/// The inside of an element that no type describes.
static ANY_ELEMENTS: Inside = Inside::Free;

/// A component with no name.
static NAMELESS: Component = Component {
    name: "",
    optional: false,
    secrecy: Secrecy::Public,
    kind: Type::Any,
    words: None,
};

/// The more secret of two components.
fn more_secret(one: &'static Component, other: &'static Component) -> &'static Component
    ensures { result.now.secrecy ≡ secret_or one.now.secrecy other.now.secrecy }
{
    match (one.secrecy, other.secrecy) {
        (Secrecy::Public, _) | (_, Secrecy::Secret) => other,
        _ => one,
    }
}

impl Called {
    /// The name, the secrecy and the words of this component.
    #[inline(always)]
    fn of(component: &'static Component) -> Called
        ensures { marked_of result ≡ mark_of component.now }
    {
        Called {
            named: component,
            marked: component,
            words: component.words,
        }
    }

    /// The name and the words of this one, or of the other if this has none. It is as secret as the more secret of the
    /// two.
    #[inline(always)]
    fn or(self, other: Called) -> Called
        ensures { marked_of result ≡ marked_or (marked_of self) (marked_of other) }
    {
        let marked = more_secret(self.marked, other.marked);
        let named = if self.named.name.is_empty() {
            other.named
        } else {
            self.named
        };
        let words = self.words.or(other.words);
        Called {
            named,
            marked,
            words,
        }
    }
}

impl Found {
    ghost use Rattle.std.specs.Prelude.{[]};
    ghost use Rattle.der_schema.specs.Meaning.{any_elements, field};

    /// An element with this name that no type describes.
    fn any(called: Called) -> Found
        ensures { field_of (Some result) ≡ Some (field (marked_of called) any_elements) }
    {
        Found {
            called,
            inside: &ANY_ELEMENTS,
        }
    }
}

/// The name of an element that is called this. None if it isn't in the schema.
pub(crate) fn name_by(called: Option<Called>, is_item: bool) -> Option<Name>
    ensures { label_of result ≡ label_by is_item called }
{
    match called {
        Some(called) => Some(Name {
            text: called.named.name,
            is_item,
            secrecy: called.marked.secrecy,
            words: called.words,
        }),
        None => None,
    }
}

/// Whether the index tells the elements apart.
pub(crate) fn has_items(expected: Content) -> bool
    ensures { result ≡ has_items (expected_of expected) }
{
    match expected {
        Content::Anything | Content::Repeated(_) => true,
        Content::NoElement | Content::Ordered(_) | Content::Unordered(_) => false,
    }
}

/// What is expected inside an element if `selected` is selected, and what is selected after the element.
#[inline(always)]
fn entered(
    inside: &'static Inside,
    element: &Element<'_>,
    known: &Known<'_>,
    selected: &'static Selection,
) -> (Content, &'static Selection)
    ensures inside { expected_of result.0
        ≡ opened inside.now element.now.constructed (components_of selected.now) }
    ensures after { components_of result.1.now
        ≡ selected_past inside.now (encoding_of known.now element.now) (components_of selected.now) }
{
    match *inside {
        Inside::Free => (Content::Anything, selected),
        Inside::Nothing => (Content::NoElement, selected),
        Inside::Components(components) => (Content::Ordered(components), selected),
        Inside::Members(components) => (Content::Unordered(components), selected),
        Inside::Each(component) => (Content::Repeated(component), selected),
        Inside::Holds(_) | Inside::Chosen if element.constructed => (Content::Anything, selected),
        Inside::Holds(components) => (Content::Ordered(components), selected),
        Inside::Chosen => (chosen(selected.components), selected),
        Inside::Selects(selections) => {
            let identifier = content_of(known.input, element);
            (
                Content::NoElement,
                selected_or_none(selected_by(selections, identifier)),
            )
        }
        Inside::Begins(components, selections) => {
            let identifier = first_content(content_of(known.input, element));
            (
                Content::Ordered(components),
                selected_or_none(selected_by(selections, identifier)),
            )
        }
    }
}

/// What is expected in a primitive string that contains what is selected.
fn chosen(selected: &'static [Component]) -> Content
    ensures { expected_of result ≡ chosen_in selected.now }
{
    match selected {
        [] => Content::Anything,
        [_, ..] => Content::Ordered(selected),
    }
}

/// The content octets of an element of an input. With an indefinite length these are all octets after the header.
pub fn content_of<'a>(input: &'a [u8], element: &Element<'_>) -> &'a [u8]
    ensures { result.now ≡ octets_at input.now (element.now.offset + element.now.header) element.now.length }
{
    octets_of(
        input,
        element.offset.saturating_add(element.header),
        element.length,
    )
}

/// The octets from an offset on: `length` of them, or all that follow.
fn octets_of(input: &[u8], begin: usize, length: Option<usize>) -> &[u8]
    ensures { result.now ≡ octets_at input.now begin length }
{
    let here = &input[begin.min(input.len())..];
    match length {
        Some(length) => &here[..length.min(here.len())],
        None => here,
    }
}

/// This selection, or the empty one.
fn selected_or_none(selection: Option<&'static Selection>) -> &'static Selection
    ensures { components_of result.now ≡ selection_in selection.entry }
{
    match selection {
        Some(selection) => selection,
        None => nothing_selected(),
    }
}

/// What an identifier selects, if it selects anything.
#[inline(never)]
pub(crate) fn selected_by(
    selections: &'static [Selection],
    identifier: &[u8],
) -> Option<&'static Selection>
    ensures { selection_in result ≡ selected_by selections.now identifier.now }
{
    let mut ahead = selections;
    while let Some((selection, rest)) = ahead.split_first() {
        if is_same(selection.identifier, identifier) {
            return Some(selection);
        }
        ahead = rest;
    }
    None
}

/// Whether two identifiers are the same. The last octet is compared first, since those of a table mostly differ there.
pub(crate) fn is_same(one: &[u8], other: &[u8]) -> bool
    ensures { result ≡ same_octets one.now other.now }
{
    match (one, other) {
        ([.., a], [.., b]) if *a != *b => false,
        _ => one == other,
    }
}

/// The content octets of the first element in these octets. Empty if its header doesn't have two octets.
fn first_content(octets: &[u8]) -> &[u8]
    ensures { result.now ≡ first_content octets.now }
{
    match octets {
        [_, length, rest @ ..] if *length < 128 => {
            let length = usize::from(*length);
            &rest[..length.min(rest.len())]
        }
        _ => &[],
    }
}

/// The first component that an element matches, and the components after it. The components before it must be optional.
fn next_of(
    components: &'static [Component],
    element: &Element<'_>,
    selected: &'static Selection,
    known: &Known<'_>,
) -> Option<(Found, &'static [Component])>
    ensures { next_found result
        ≡ next_in components.now (encoding_of known.now element.now) (around selected.now known.now) }
{
    let mut ahead = components;
    while let Some((component, rest)) = ahead.split_first() {
        if let Some(found) = found_as(component, element, selected, known) {
            return Some((found, rest));
        }
        if !component.optional {
            return None;
        }
        ahead = rest;
    }
    None
}

/// The first component that an element matches.
#[inline(never)]
fn member_of(
    components: &'static [Component],
    element: &Element<'_>,
    selected: &'static Selection,
    known: &Known<'_>,
) -> Option<Found>
    ensures { field_of result
        ≡ member_in components.now (encoding_of known.now element.now) (around selected.now known.now) }
{
    let mut ahead = components;
    while let Some((component, rest)) = ahead.split_first() {
        if let Some(found) = found_as(component, element, selected, known) {
            return Some(found);
        }
        ahead = rest;
    }
    None
}

/// An element as this component, if it matches.
#[inline(always)]
fn found_as(
    component: &'static Component,
    element: &Element<'_>,
    selected: &'static Selection,
    known: &Known<'_>,
) -> Option<Found>
    ensures { field_of result
        ≡ found_in component.now (encoding_of known.now element.now) (around selected.now known.now) }
{
    match &component.kind {
        Type::Tagged(class, number, form, inside) => {
            let called = Called::of(component);
            let found = Found { called, inside };
            tagged_as(*class, *number, *form, element, known, found)
        }
        Type::Selected => selected_as(selected, element, known, Called::of(component)),
        _ => referred_as(component, element, known, Called::of(component)),
    }
}

/// An element as what the last identifier selects, or as any element if it selects nothing.
#[inline(always)]
fn selected_as(
    selected: &'static Selection,
    element: &Element<'_>,
    known: &Known<'_>,
    called: Called,
) -> Option<Found>
    ensures { field_of result
        ≡ as_selected (around selected.now known.now) (encoding_of known.now element.now) (marked_of called) }
{
    match selected.components {
        [selected, ..] => {
            let called = Called::of(selected).or(called);
            referred_as(selected, element, known, called)
        }
        [] => Some(Found::any(called)),
    }
}

/// An element as this component, which may refer to a type by index. It is called `called`.
#[inline(always)]
fn referred_as(
    component: &'static Component,
    element: &Element<'_>,
    known: &Known<'_>,
    called: Called,
) -> Option<Found>
    ensures { field_of result ≡ as_referred component.now (all_types known.now.types.now)
        (encoding_of known.now element.now) (marked_of called) }
{
    match component.kind {
        Type::Numbered(index) => numbered_as(index, element, known, called),
        _ => plain_as(component, element, known, called),
    }
}

/// An element as the type with this index. It is called `called`, or else by the name of the type.
#[inline(always)]
fn numbered_as(
    index: usize,
    element: &Element<'_>,
    known: &Known<'_>,
    called: Called,
) -> Option<Found>
    ensures { field_of result ≡ as_numbered (slice_get (all_types known.now.types.now) index)
        (encoding_of known.now element.now) (marked_of called) }
{
    match type_at(known.types, index) {
        Some(numbered) => {
            let called = called.or(Called::of(numbered));
            plain_as(numbered, element, known, called)
        }
        None => None,
    }
}

/// The type with this index.
pub(crate) fn type_at(types: &[&'static Component], index: usize) -> Option<&'static Component>
    ensures { component_in result ≡ slice_get (all_types types.now) index }
{
    types.get(index).copied()
}

/// An element as this component, which refers to nothing else. It is called `called`.
#[inline(always)]
fn plain_as(
    component: &'static Component,
    element: &Element<'_>,
    known: &Known<'_>,
    called: Called,
) -> Option<Found>
    ensures { field_of result ≡ as_plain component.now (encoding_of known.now element.now) (marked_of called) }
{
    match &component.kind {
        Type::Any => Some(Found::any(called)),
        Type::Tagged(class, number, form, inside) => {
            tagged_as(
                *class,
                *number,
                *form,
                element,
                known,
                Found { called, inside },
            )
        }
        Type::Choice(alternatives) => alternative_of(alternatives, element, known, called),
        Type::Selected | Type::Numbered(_) => None,
    }
}

/// An element as the first alternative with its tag. It has the name of the alternative, or of the choice if that has
/// none.
#[inline(never)]
fn alternative_of(
    alternatives: &'static [Component],
    element: &Element<'_>,
    known: &Known<'_>,
    choice: Called,
) -> Option<Found>
    ensures { field_of result
        ≡ alternative_in alternatives.now (encoding_of known.now element.now) (marked_of choice) }
{
    let mut ahead = alternatives;
    while let Some((alternative, rest)) = ahead.split_first() {
        if let Some(found) = as_alternative(alternative, element, known, choice) {
            return Some(found);
        }
        ahead = rest;
    }
    None
}

/// An element as this alternative, if it has the tag of it.
#[inline(always)]
fn as_alternative(
    alternative: &'static Component,
    element: &Element<'_>,
    known: &Known<'_>,
    choice: Called,
) -> Option<Found>
    ensures { field_of result
        ≡ as_alternative alternative.now (encoding_of known.now element.now) (marked_of choice) }
{
    match &alternative.kind {
        Type::Tagged(class, number, form, inside) => {
            let called = Called::of(alternative).or(choice);
            tagged_as(
                *class,
                *number,
                *form,
                element,
                known,
                Found { called, inside },
            )
        }
        _ => None,
    }
}

/// What is found if an element has this tag and form.
fn tagged_as(
    class: Class,
    number: u32,
    form: Form,
    element: &Element<'_>,
    known: &Known<'_>,
    found: Found,
) -> Option<Found>
    ensures { field_of result ≡ tagged_field class number form (encoding_of known.now element.now)
        (marked_of found.called) found.inside.now }
{
    if class == element.class && number == element.number && fits(form, element.constructed) {
        Some(found)
    } else {
        None
    }
}

/// Whether an element that is primitive or constructed has this form.
fn fits(form: Form, constructed: bool) -> bool
    ensures { result ≡ fits form constructed }
{
    match form {
        Form::Primitive => !constructed,
        Form::Constructed => constructed,
        Form::Either => true,
    }
}
