//! Makes items of the nodes of syntax trees.
use crate::item::{BIT_STRING, Item, OCTET_STRING, Shape, class_of, plain_shape};
use crate::tags::is_said_explicit;
use asn1_modules::{Kind, Node, Presence, Tag, TagDefault, TagNumber};
use asn1_names::{
    Contained, Fault, Loaded, Place, Placed, Problem, Root, Source, contained_in, text_of,
};
use der_schema::Secrecy;
use std::alloc::{AllocError, Global};

/// The items of all types.
pub(crate) fn items_of(alloc: Global, loaded: &Loaded) -> Result<Vec<Item>, Fault> {
    let mut items = Vec::new(alloc);
    for (index, placed) in loaded.nodes.iter().enumerate() {
        items.push(item_of(alloc, loaded, placed, index)?)?;
    }
    for index in (0..items.len()).rev() {
        let after = after(&items, index);
        if let Some(item) = items.get_mut(index) {
            item.after = after;
        }
    }
    for root in &loaded.roots {
        if let Some(item) = items.get_mut(root.item) {
            item.title = root.name;
        }
    }
    Ok(items)
}

/// The assigned types that have no parameters. A name of an object class isn't one.
pub(crate) fn types_among(
    alloc: Global,
    loaded: &Loaded,
    items: &[Item],
) -> Result<Vec<Root>, AllocError> {
    let mut roots = Vec::new(alloc);
    for root in &loaded.roots {
        let class = matches!(
            items.get(root.item),
            Some(Item {
                shape: Shape::Unknown,
                ..
            })
        );
        if !class {
            roots.push(*root)?;
        }
    }
    Ok(roots)
}

/// The item of the node with an index.
fn item_of(alloc: Global, loaded: &Loaded, placed: &Placed, index: usize) -> Result<Item, Fault> {
    let Placed { node, source, .. } = *placed;
    let place = Place {
        text: source.text,
        offset: node.offset,
    };
    let (shape, inner) = shape_of(alloc, loaded, node, source, place)?;
    Ok(Item {
        name: text_of(node.name),
        title: "",
        place,
        shape,
        inner: inner.unwrap_or(index.saturating_add(1)),
        depth: node.depth,
        after: index.saturating_add(1),
        optional: node.presence != Presence::Required,
        automatic: source.tags == TagDefault::Automatic,
        words: None,
        secrecy: Secrecy::Public,
        selects: None,
    })
}

/// What a node is, and the item that it refers to. None: it refers to none, or to the next one.
fn shape_of(
    alloc: Global,
    loaded: &Loaded,
    node: Node<'static>,
    source: Source,
    place: Place,
) -> Result<(Shape, Option<usize>), Fault> {
    match node.kind {
        Kind::Tagged(tag, tagging) => {
            let number = tag_number(loaded, tag, source, place)?;
            let explicit = is_said_explicit(tagging, source.tags);
            Ok((Shape::Tagged(class_of(tag.class), number, explicit), None))
        }
        Kind::Selection(name) => Ok((Shape::Selection(text_of(name)), None)),
        Kind::Reference {
            module,
            name,
            parameters,
        } if parameters.is_empty() => {
            let root = loaded.root_named(text_of(module), text_of(name), source, place)?;
            match root {
                Some(root) => Ok((Shape::Reference, Some(root))),
                None => Ok((Shape::Unknown, None)),
            }
        }
        Kind::BitString => string(alloc, loaded, BIT_STRING, node, source, place),
        Kind::OctetString => string(alloc, loaded, OCTET_STRING, node, source, place),
        kind => Ok((plain_shape(kind), None)),
    }
}

fn tag_number(
    loaded: &Loaded,
    tag: Tag<'static>,
    source: Source,
    place: Place,
) -> Result<u32, Fault> {
    match tag.number {
        TagNumber::Number(number) => Ok(number),
        TagNumber::Reference(name) => loaded.names.number(source.module, text_of(name), place),
    }
}

/// A string with this tag number, and the item of the type that it contains.
fn string(
    alloc: Global,
    loaded: &Loaded,
    number: u32,
    node: Node<'static>,
    source: Source,
    place: Place,
) -> Result<(Shape, Option<usize>), Fault> {
    let name = match contained_in(alloc, node.constraint.of(source.octets)) {
        Ok(Contained::Name(name)) => text_of(name),
        Ok(_) => return Ok((plain_shape(node.kind), None)),
        Err(problem) => return Err(place.fault(Problem::Syntax(problem))),
    };
    match loaded.root_named("", name, source, place)? {
        Some(root) => Ok((Shape::Holder(number), Some(root))),
        None => Ok((plain_shape(node.kind), None)),
    }
}

/// The index of the first item behind one, if those after it have theirs.
fn after(items: &[Item], index: usize) -> usize {
    let depth = match items.get(index) {
        Some(item) => item.depth,
        None => return index,
    };
    let mut next = index.saturating_add(1);
    for _ in index..items.len() {
        match items.get(next) {
            Some(item) if item.depth > depth => next = item.after,
            _ => return next,
        }
    }
    next
}
