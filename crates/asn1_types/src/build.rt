//! Makes components of items.
ghost use Rattle.std.specs.Prelude.{◌≡◌, IfOk, slice_get};
ghost use Rattle.asn1_types.specs.Looks.{IsShownAs};
ghost use Rattle.asn1_types.specs.Opening.{reference_to, selecting};
ghost use Rattle.asn1_types.specs.Tagging.{IsOwnType, IsTypeAt};

use crate::item::{Item, SET, Selections, Shape, UniversalTag, fault_at};
use crate::lists::{List, Lists};
use crate::look::look_of;
use crate::tags::{base_of, tagged_type};
use asn1_names::{Fault, Problem};
use der_schema::schema::{Class, Component, Form, Inside, Type};
use der_schema::words::{Notation, Words};
use std::alloc::{AllocError, Global};
use std::collections::BTreeSet;
use std::slice;

/// A component with this name, which is shown as the item with an index.
fn component(
    items: &[Item],
    index: usize,
    name: &'static str,
    optional: bool,
    kind: Type,
) -> Result<Component, Fault>
    ensures { IfOk result (IsShownAs items.now index) }
{
    let look = look_of(items, index)?;
    Ok(Component {
        name,
        optional,
        secrecy: look.secrecy,
        kind,
        words: look.words,
    })
}

/// A reference to the type of the item with an index, or what the last identifier selects.
fn reference_to(items: &[Item], index: usize) -> Type
    ensures { result ≡ reference_to (slice_get items.now index) index }
{
    match items.get(index) {
        Some(item) if matches!(item.shape, Shape::Open) => Type::Selected,
        _ => Type::Numbered(index),
    }
}

/// A type with an identifier, which selects the type of a later element if it may.
fn selecting(kind: Type, selections: Option<Selections>) -> Type
    ensures { result ≡ selecting kind selections }
{
    match (kind, selections) {
        (Type::Tagged(class, number, form, Inside::Free), Some(selections)) => {
            Type::Tagged(class, number, form, Inside::Selects(selections.of))
        }
        (Type::Tagged(class, number, form, Inside::Components(components)), Some(selections)) => {
            Type::Tagged(
                class,
                number,
                form,
                Inside::Begins(components, selections.of),
            )
        }
        _ => kind,
    }
}

/// A component of the type of each item, with the components of all lists. They live as long as the program.
pub(crate) fn types_of(
    alloc: Global,
    items: &[Item],
    lists: &Lists,
) -> Result<TypeReferences, Fault> {
    let inner = inner_components(alloc, items)?;
    let mut own = Vec::new(alloc);
    for (index, item) in items.iter().enumerate() {
        let kind = match inner.get(index) {
            Some(inner) => own_type(item.shape, inner),
            None => Type::Any,
        };
        own.push(kind)?;
    }
    add_components(alloc, items, lists, &mut own)?;
    add_choices(alloc, items, lists, &mut own)?;
    let mut components = Vec::new(alloc);
    for (index, item) in items.iter().enumerate() {
        let kind = selecting(type_of(items, &own, index)?, item.selects);
        components.push(component(items, index, item.title, false, kind)?)?;
    }
    Ok(references(alloc, components.leak())?)
}

/// References to components.
#[derive(Clone, Copy)]
pub(crate) struct TypeReferences {
    pub types: &'static [&'static Component],
}

/// References to these components.
fn references(
    alloc: Global,
    components: &'static [Component],
) -> Result<TypeReferences, AllocError> {
    let mut types: Vec<&'static Component> = Vec::new(alloc);
    for component in components {
        types.push(component)?;
    }
    let types: &'static [&'static Component] = types.leak();
    Ok(TypeReferences { types })
}

/// The components from an index up to another one, or none.
fn part(components: &'static [Component], first: usize, end: usize) -> &'static [Component] {
    match components.get(first..end) {
        Some(part) => part,
        None => &[],
    }
}

/// The words of an element inside an explicit tag that has words: as is said around it.
static AS_AROUND: Words = Words {
    label: "",
    kind: "",
    notation: Notation::Silent,
    heads: false,
};

/// For each item a component of the type that is inside it. The words of an explicit tag replace those of that type.
fn inner_components(alloc: Global, items: &[Item]) -> Result<&'static [Component], Fault> {
    let mut components = Vec::new(alloc);
    for (index, item) in items.iter().enumerate() {
        let around = look_of(items, index)?;
        let (name, inner) = match (item.shape, items.get(item.inner)) {
            (
                Shape::Items(_),
                Some(
                    Item {
                        shape: Shape::Reference,
                        name: "",
                        inner,
                        ..
                    },
                ),
            ) => ("", *inner),
            (Shape::Items(_), Some(one)) => (one.name, item.inner),
            _ => ("", item.inner),
        };
        let kind = reference_to(items, inner);
        let mut component = component(items, inner, name, false, kind)?;
        if matches!(item.shape, Shape::Tagged(..)) && around.words.is_some() {
            component.words = Some(&AS_AROUND);
        }
        components.push(component)?;
    }
    Ok(components.leak())
}

/// The type of an item by itself, unless it is a list. `inner` is the component of the type inside it. A tag is
/// explicit (X.690 8.14.2).
fn own_type(shape: Shape, inner: &'static Component) -> Type
    ensures { IsOwnType shape inner.now result }
{
    match shape {
        Shape::Plain(UniversalTag { number, form }) => {
            Type::Tagged(Class::Universal, number, form, Inside::Free)
        }
        Shape::Items(number) => Type::Tagged(
            Class::Universal,
            number,
            Form::Constructed,
            Inside::Each(inner),
        ),
        Shape::Holder(number) => Type::Tagged(
            Class::Universal,
            number,
            Form::Either,
            Inside::Holds(slice::from_ref(inner)),
        ),
        Shape::OpenHolder(number) => {
            Type::Tagged(Class::Universal, number, Form::Either, Inside::Chosen)
        }
        Shape::Tagged(class, number, _) => Type::Tagged(
            class,
            number,
            Form::Constructed,
            Inside::Components(slice::from_ref(inner)),
        ),
        _ => Type::Any,
    }
}

fn constructed(number: u32, inside: Inside) -> Type {
    Type::Tagged(Class::Universal, number, Form::Constructed, inside)
}

/// Sets the types of SEQUENCEs and SETs.
fn add_components(
    alloc: Global,
    items: &[Item],
    lists: &Lists,
    own: &mut Vec<Type>,
) -> Result<(), Fault> {
    let mut components = Vec::new(alloc);
    for member in &lists.members {
        let kind = reference_to(items, member.item);
        components.push(component(items, member.item, member.name, member.optional, kind)?)?;
    }
    let components: &'static [Component] = components.leak();
    for list in &lists.lists {
        if let (
            Some(
                Item {
                    shape: Shape::Components(number),
                    ..
                },
            ),
            Some(kind),
        ) = (items.get(list.item), own.get_mut(list.item))
        {
            *kind = list_type(*number, part(components, list.first, list.end));
        }
    }
    Ok(())
}

/// A SEQUENCE or SET of these components. Those of a SET have any order (27.3).
fn list_type(number: u32, components: &'static [Component]) -> Type {
    if number == SET {
        return constructed(number, Inside::Members(components));
    }
    constructed(number, Inside::Components(components))
}

/// Sets the types of CHOICEs.
fn add_choices(
    alloc: Global,
    items: &[Item],
    lists: &Lists,
    own: &mut Vec<Type>,
) -> Result<(), Fault> {
    let mut alternatives = Vec::new(alloc);
    for member in &lists.members {
        let kind = match items.get(member.item) {
            Some(_) => type_of(items, own, member.item)?,
            None => Type::Any,
        };
        alternatives.push(component(items, member.item, member.name, false, kind)?)?;
    }
    let alternatives: &'static [Component] = alternatives.leak();
    for list in &lists.lists {
        if let (
            Some(
                Item {
                    shape: Shape::Choice,
                    ..
                },
            ),
            Some(kind),
        ) = (items.get(list.item), own.get_mut(list.item))
        {
            let those = part(alternatives, list.first, list.end);
            check_tags(alloc, items, lists, *list, those)?;
            *kind = choice_of(those);
        }
    }
    Ok(())
}

/// A CHOICE of these alternatives, or any element if one of them has no tag.
fn choice_of(alternatives: &'static [Component]) -> Type {
    if alternatives
        .iter()
        .all(|one| matches!(one.kind, Type::Tagged(..)))
    {
        return Type::Choice(alternatives);
    }
    Type::Any
}

/// A class and number, in order.
#[derive(Clone, Copy, PartialEq, Eq, PartialOrd, Ord, Drop)]
struct TagKey(u8, u32);

fn tag_key(kind: Type) -> Option<TagKey> {
    let Type::Tagged(class, number, _, _) = kind else {
        return None;
    };
    Some(TagKey(class as u8, number))
}

/// Refuses alternatives with one tag (29.3).
fn check_tags(
    alloc: Global,
    items: &[Item],
    lists: &Lists,
    list: List,
    alternatives: &[Component],
) -> Result<(), Fault> {
    let mut tags = BTreeSet::new(alloc);
    for (index, alternative) in alternatives.iter().enumerate() {
        if let Some(tag) = tag_key(alternative.kind) {
            if !tags.insert(tag)? {
                let item = match lists.members.get(list.first.saturating_add(index)) {
                    Some(member) => member.item,
                    None => list.item,
                };
                return Err(fault_at(items, item, Problem::SameTag(alternative.name)));
            }
        }
    }
    Ok(())
}

/// The type of the item with an index, from those that the items have by themselves.
fn type_of(items: &[Item], own: &[Type], index: usize) -> Result<Type, Fault>
    ensures { IfOk result (λ t. IsTypeAt items.now own.now index t) }
{
    let base = base_of(items, index)?;
    Ok(tagged_type(own, base))
}
