//! The type of an input, from a list of types.
ghost use Rattle.std.specs.Prelude.{◌≡◌, ◌↔◌, IsTrue};
ghost use Rattle.der_schema.specs.Known.{IsKnownType, IsOfType, IsFirstSchema, IsSchemaOf, SameLetters, components_at};
ghost use Rattle.der_schema.specs.Meaning.{all_types, root_of};

use crate::beginning::Beginning;
use crate::matching::type_at;
use crate::namer::Namer;
use crate::schema::{Component, Schema, Type};
use crate::sign::{Sign, has_signs};
use der_base::rules::Rules;
use der_elements::Walk;
use std::slice;

/// A type that an input may have.
#[derive(Clone, Copy)]
pub struct KnownType {
    /// The name in the document that defines the type, such as `Certificate`.
    pub name: &'static str,
    /// The type, by its index.
    pub kind: Type,
    /// Signs that tell the type from others, if an input of another type may have the same elements.
    pub signs: &'static [Sign],
}

/// The first of these types that an input has. The input is then valid by these rules, each element has a name, no
/// mandatory component is missing, and all signs of the type are there. A component refers to a type in `types` by
/// index.
pub fn first_of<'a>(
    known: &'static [KnownType],
    types: &'a [&'static Component],
    input: &[u8],
    rules: Rules,
) -> Option<Schema<'a>>
    ensures { IsFirstSchema (IsKnownType (all_types types.now) rules input.now) known.now (all_types types.now) result }
{
    let Some((likely, others)) = known.split_first() else {
        return None;
    };
    if is_known_type(likely, types, input, rules) {
        return Some(schema_of(likely, types));
    }
    first_of_others(others, types, input, rules)
}

/// The first of these types that an input has, like `first_of`. The first elements of the input rule out most of them.
#[inline(never)]
fn first_of_others<'a>(
    known: &'static [KnownType],
    types: &'a [&'static Component],
    input: &[u8],
    rules: Rules,
) -> Option<Schema<'a>>
    ensures { IsFirstSchema (IsKnownType (all_types types.now) rules input.now) known.now (all_types types.now) result }
{
    let beginning = Beginning::of(input, rules);
    let mut ahead = known;
    while let Some((one, rest)) = ahead.split_first() {
        let schema = schema_of(one, types);
        if beginning.may_be(input, schema) && is_known_type(one, types, input, rules) {
            return Some(schema);
        }
        ahead = rest;
    }
    None
}

/// Whether an input has this type and its signs.
fn is_known_type(
    known: &'static KnownType,
    types: &[&'static Component],
    input: &[u8],
    rules: Rules,
) -> bool
    ensures { IsTrue result ↔ IsKnownType (all_types types.now) rules input.now known.now }
{
    if is_of_type(input, rules, schema_of(known, types)) {
        return has_signs(input, rules, known.signs);
    }
    false
}

/// The first of these types with this name. A component refers to a type in `types` by index.
pub fn first_named<'a>(
    known: &'static [KnownType],
    types: &'a [&'static Component],
    name: &str,
) -> Option<Schema<'a>>
    ensures { IsFirstSchema (λ k. k.name.now ≡ name.now) known.now (all_types types.now) result }
{
    let mut ahead = known;
    while let Some((one, rest)) = ahead.split_first() {
        if one.name == name {
            return Some(schema_of(one, types));
        }
        ahead = rest;
    }
    None
}

/// The first of these types with this name, in any case of its letters. A component refers to a type in `types` by
/// index.
pub fn first_with_letters<'a>(
    known: &'static [KnownType],
    types: &'a [&'static Component],
    name: &str,
) -> Option<Schema<'a>>
    ensures { IsFirstSchema (λ k. SameLetters k.name.now name.now) known.now (all_types types.now) result }
{
    let mut ahead = known;
    while let Some((one, rest)) = ahead.split_first() {
        if one.name.eq_ignore_ascii_case(name) {
            return Some(schema_of(one, types));
        }
        ahead = rest;
    }
    None
}

/// The schema of a known type, with the types that its components refer to.
fn schema_of<'a>(known: &'static KnownType, types: &'a [&'static Component]) -> Schema<'a>
    ensures { IsSchemaOf (all_types types.now) known.now result }
{
    Schema {
        name: known.name,
        components: components_of(known.kind, types),
        types,
    }
}

/// The element of an input of the type with an index. None if no type has the index.
fn components_of(kind: Type, types: &[&'static Component]) -> &'static [Component]
    ensures { result.now ≡ components_at (all_types types.now) kind }
{
    let Type::Numbered(index) = kind else {
        return &[];
    };
    match type_at(types, index) {
        Some(component) => slice::from_ref(component),
        None => &[],
    }
}

/// Whether an input has this type: it is valid by these rules, each element has a name, and no mandatory component is
/// missing. Strings that contain an element are entered.
pub fn is_of_type(input: &[u8], rules: Rules, schema: Schema<'_>) -> bool
    ensures { IsTrue result ↔ IsOfType (root_of schema.entry) rules input.now }
{
    let mut walk = Walk::new(input, rules, true).keeping_values();
    let mut namer = Namer::new(input, schema);
    'elements: loop {
        match walk.next_element() {
            Ok(Some(element)) => match namer.name_of(&element) {
                Some(_) => {}
                None => return false,
            },
            Ok(None) => return namer.is_whole(),
            Err(_) => return false,
        }
    }
}
