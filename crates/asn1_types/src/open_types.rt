//! Open types: those that an identifier selects (X.681 14.1, X.682 10).
use crate::item::{
    BIT_STRING, INTEGER, Item, OBJECT_IDENTIFIER, OCTET_STRING, SEQUENCE, Selections, Shape,
    primitive,
};
use crate::lists::ListMember;
use crate::tags::base_of;
use asn1_modules::{Kind, Problem};
use asn1_names::{
    ClassField, Contained, Fault, Field, Key, Loaded, Object, ObjectSet, Objects, Path, Placed,
    Table, class_field, contained_in, table_in, text_of,
};
use der_schema::Secrecy;
use der_schema::schema::{Component, Form, Selection, Type};
use std::alloc::{AllocError, Global};
use std::collections::BTreeMap;
use std::slice;

/// A field of an object class, and the objects that may fill it.
#[derive(Clone, Copy)]
struct Opened {
    field: Field<'static>,
    table: Option<Table<'static>>,
    /// The string that contains it, if one does.
    string: Option<u32>,
}

/// Sets the shapes of fields of object classes, and what identifiers select.
pub(crate) fn bind_open_types(
    alloc: Global,
    loaded: &Loaded,
    items: &mut Vec<Item>,
) -> Result<(), Fault> {
    let mut lists = OpenLists::new(alloc);
    let mut objects = Objects::new(alloc);
    let mut made = Made {
        alloc,
        selections: Vec::new(alloc),
    };
    for (index, placed) in loaded.nodes.iter().enumerate() {
        let Some(item) = items.get(index).copied() else {
            return Ok(());
        };
        lists.pass(&item, index)?;
        match opened_at(alloc, placed) {
            Ok(Some(opened)) => bind(
                loaded,
                items,
                &lists,
                &mut objects,
                &mut made,
                opened,
                index,
            )?,
            Ok(None) => {}
            Err(problem) => return Err(item.place.fault(asn1_names::Problem::Syntax(problem))),
        }
    }
    Ok(())
}

/// The field of an object class that a node is or contains.
fn opened_at(alloc: Global, placed: &Placed) -> Result<Option<Opened>, Problem> {
    let Placed {
        node,
        source,
        said: _,
    } = *placed;
    let constraint = node.constraint.of(source.octets);
    let string = match node.kind {
        Kind::ClassField(span) => {
            let field = class_field(alloc, span.of(source.octets))?;
            let table = table_in(alloc, constraint)?;
            return Ok(field.map(|field| Opened {
                field,
                table,
                string: None,
            }));
        }
        Kind::BitString => BIT_STRING,
        Kind::OctetString => OCTET_STRING,
        _ => return Ok(None),
    };
    match contained_in(alloc, constraint)? {
        Contained::Field(field, table) => Ok(Some(Opened {
            field,
            table: Some(table),
            string: Some(string),
        })),
        _ => Ok(None),
    }
}

/// Sets the shape of the item with an index, which is or contains a field of an object class.
fn bind(
    loaded: &Loaded,
    items: &mut Vec<Item>,
    lists: &OpenLists,
    objects: &mut Objects,
    made: &mut Made,
    opened: Opened,
    index: usize,
) -> Result<(), Fault> {
    let (Some(item), Some(placed)) = (items.get(index).copied(), loaded.nodes.get(index)) else {
        return Ok(());
    };
    let module = placed.source.module;
    let name = text_of(opened.field.class);
    let Some(class) = objects.class(loaded, module, name, item.place)? else {
        return Ok(());
    };
    let shape = match (objects.field(class, opened.field.name), opened.string) {
        (ClassField::Identifier, None) => Some(primitive(OBJECT_IDENTIFIER)),
        (ClassField::Number, None) => Some(primitive(INTEGER)),
        (ClassField::Open, string) => match selector_of(items, lists, opened)? {
            Some((selector, table)) => {
                let set = Key {
                    module,
                    name: text_of(table.set),
                };
                let field = opened.field.name;
                match objects.set(loaded, set, class, field, item.place)? {
                    Some(set) => {
                        let selections = made.selections(set)?;
                        shape_selected(items, selector, selections, string)
                    }
                    None => None,
                }
            }
            None => None,
        },
        _ => None,
    };
    if let (Some(shape), Some(item)) = (shape, items.get_mut(index)) {
        item.shape = shape;
    }
    Ok(())
}

/// The item of the identifier that selects an open type, and the objects.
fn selector_of(
    items: &[Item],
    lists: &OpenLists,
    opened: Opened,
) -> Result<Option<(usize, Table<'static>)>, Fault> {
    let Some(table) = opened.table else {
        return Ok(None);
    };
    let Some(path) = table.path else {
        return Ok(None);
    };
    match lists.member(text_of(path.first)) {
        Some(member) if has_identifier(items, member, path)? => Ok(Some((member, table))),
        _ => Ok(None),
    }
}

/// Whether the component with an index has the identifier of a path: it is one, behind an explicit tag or not, or it is
/// a SEQUENCE that begins with it.
fn has_identifier(items: &[Item], member: usize, path: Path<'static>) -> Result<bool, Fault> {
    let base = base_of(items, member)?;
    let Some(item) = items.get(base.end) else {
        return Ok(false);
    };
    Ok(match item.shape {
        Shape::Plain(tag) => path.second.is_empty() && tag.form == Form::Primitive,
        Shape::Tagged(..) => path.second.is_empty(),
        Shape::Components(SEQUENCE) => match items.get(base.end.saturating_add(1)) {
            Some(first) => !path.second.is_empty() && first.name == text_of(path.second),
            None => false,
        },
        _ => false,
    })
}

/// The shape of an open type, for which the item of an identifier selects. None if it selects for another object set.
fn shape_selected(
    items: &mut Vec<Item>,
    selector: usize,
    selections: Selections,
    string: Option<u32>,
) -> Option<Shape> {
    let item = items.get_mut(selector)?;
    match item.selects {
        Some(others) if others.set != selections.set => return None,
        _ => item.selects = Some(selections),
    }
    match string {
        Some(number) => Some(Shape::OpenHolder(number)),
        None => Some(Shape::Open),
    }
}

/// What the identifiers of object sets select, in the order of the sets.
#[derive(Drop)]
struct Made {
    alloc: Global,
    selections: Vec<Selections>,
}

impl Made {
    /// What the identifiers of an object set select.
    fn selections(&mut self, set: ObjectSet) -> Result<Selections, AllocError> {
        if let Some(selections) = self.selections.get(set.number) {
            return Ok(*selections);
        }
        let selections = Selections {
            set: set.number,
            of: selections_of(self.alloc, set.objects)?,
        };
        self.selections.push(selections)?;
        Ok(selections)
    }
}

/// The selections of objects. They live as long as the program.
fn selections_of(alloc: Global, objects: &[Object]) -> Result<&'static [Selection], AllocError> {
    let mut components = Vec::new(alloc);
    for object in objects {
        components.push(Component {
            name: "",
            optional: false,
            secrecy: Secrecy::Public,
            kind: Type::Numbered(object.item),
            words: None,
        })?;
    }
    let components: &'static [Component] = components.leak();
    let mut selections = Vec::new(alloc);
    for (object, component) in objects.iter().zip(components) {
        selections.push(Selection {
            identifier: object.identifier,
            components: slice::from_ref(component),
        })?;
    }
    Ok(selections.leak())
}

/// A SEQUENCE or SET that an item stands in.
#[derive(Clone, Copy)]
struct OpenList {
    index: usize,
    depth: usize,
    after: usize,
}

/// The SEQUENCEs and SETs that an item stands in, and their components before it.
#[derive(Drop)]
struct OpenLists {
    open: Vec<OpenList>,
    members: BTreeMap<ListMember, usize>,
}

impl OpenLists {
    fn new(alloc: Global) -> OpenLists {
        OpenLists {
            open: Vec::new(alloc),
            members: BTreeMap::new(alloc),
        }
    }

    /// Passes the item with an index.
    fn pass(&mut self, item: &Item, index: usize) -> Result<(), AllocError> {
        let around = self.open.iter().filter(|list| index < list.after).count();
        self.open.truncate(around);
        if let Some(list) = self.open.last().copied() {
            self.add(list, item, index)?;
        }
        if let Shape::Components(_) = item.shape {
            self.open.push(OpenList {
                index,
                depth: item.depth,
                after: item.after,
            })?;
        }
        Ok(())
    }

    /// Adds an item that stands in the innermost list, if it is a component of it.
    fn add(&mut self, list: OpenList, item: &Item, index: usize) -> Result<(), AllocError> {
        if item.depth == list.depth.saturating_add(1) && !item.name.is_empty() {
            let member = ListMember {
                list: list.index,
                name: item.name,
            };
            self.members.insert(member, index)?;
        }
        Ok(())
    }

    /// The item of the component with this name in the innermost list.
    fn member(&self, name: &'static str) -> Option<usize> {
        let list = self.open.last()?;
        self.members
            .get(&ListMember {
                list: list.index,
                name,
            })
            .copied()
    }
}
