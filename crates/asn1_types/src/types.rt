//! The types of modules.
use crate::build::types_of;
use crate::item::{SEQUENCE, SET};
use crate::items::{items_of, types_among};
use crate::lists::{make_lists, select};
use crate::look::add_words;
use crate::open_types::bind_open_types;
use asn1_names::{Fault, OUT_OF_MEMORY, Root, TypesError, load, located};
use der_elements::TypeName;
use der_schema::schema::{Class, Component, Inside, Schema, Type};
use der_schema::{KnownType, first_named, first_with_letters};
use std::alloc::{AllocError, Global};
use std::fmt;

/// The types that modules define. They are found by `type_named`, or by functions of der_schema that take known types.
///
/// # Examples
///
/// ```
/// let types = Types::from_texts(alloc, &[b"M DEFINITIONS ::= BEGIN Age ::= [APPLICATION 1] INTEGER END"])?;
/// let Some(schema) = types.type_named("Age") else {
///     return None;
/// };
/// ```
#[derive(Clone, Copy)]
pub struct Types {
    /// The modules in the order of the texts.
    pub modules: &'static [ModuleTypes],
    /// The types of all modules that have no parameters, in the order of the texts.
    pub known: &'static [KnownType],
    /// The types that components and known types refer to by index.
    pub types: &'static [&'static Component],
}

/// The types of a module.
#[derive(Clone, Copy)]
pub struct ModuleTypes {
    pub name: &'static str,
    pub types: &'static [KnownType],
}

impl Types {
    /// Reads texts of modules, which may import from each other. The texts and types are never freed: a program reads
    /// its modules once.
    pub fn from_texts(alloc: Global, texts: &[&[u8]]) -> Result<Types, TypesError> {
        let kept: &'static [&'static [u8]] = match keep_texts(alloc, texts) {
            Ok(kept) => kept,
            Err(_) => return Err(located(&[], OUT_OF_MEMORY)),
        };
        match make_types(alloc, kept) {
            Ok(types) => Ok(types),
            Err(fault) => Err(located(kept, fault)),
        }
    }

    /// The type with this name: the first with the same letters, or else the first with these letters in any case.
    pub fn type_named(&self, name: &str) -> Option<Schema<'static>> {
        match first_named(self.known, self.types, name) {
            Some(schema) => Some(schema),
            None => first_with_letters(self.known, self.types, name),
        }
    }
}

/// Copies of texts that live as long as the program.
fn keep_texts(alloc: Global, texts: &[&[u8]]) -> Result<&'static [&'static [u8]], AllocError> {
    let mut kept: Vec<&'static [u8]> = Vec::new(alloc);
    for text in texts {
        let copy: &'static [u8] = Vec::from_slice(alloc, text)?.leak();
        kept.push(copy)?;
    }
    Ok(kept.leak())
}

fn make_types(alloc: Global, texts: &'static [&'static [u8]]) -> Result<Types, Fault> {
    let loaded = load(alloc, texts)?;
    let mut items = items_of(alloc, &loaded)?;
    select(alloc, &mut items)?;
    add_words(alloc, &loaded, &mut items)?;
    bind_open_types(alloc, &loaded, &mut items)?;
    let lists = make_lists(alloc, &mut items)?;
    let references = types_of(alloc, &items, &lists)?;
    let roots = types_among(alloc, &loaded, &items)?;
    let known = known_types(alloc, &roots)?;
    Ok(Types {
        modules: module_types(alloc, &loaded.modules, &roots, known)?,
        known,
        types: references.types,
    })
}

fn known_types(alloc: Global, roots: &[Root]) -> Result<&'static [KnownType], AllocError> {
    let mut known = Vec::new(alloc);
    for root in roots {
        known.push(KnownType {
            name: root.name,
            kind: Type::Numbered(root.item),
            signs: &[],
        })?;
    }
    Ok(known.leak())
}

/// The known types of each module. `roots` and `known` are in the order of the modules.
fn module_types(
    alloc: Global,
    names: &[&'static str],
    roots: &[Root],
    known: &'static [KnownType],
) -> Result<&'static [ModuleTypes], AllocError> {
    let mut modules = Vec::new(alloc);
    let mut left = known;
    let mut first = 0;
    for (index, name) in names.iter().enumerate() {
        let count = count_of(roots, first, index);
        let (types, others) = left.split_at(count.min(left.len()));
        modules.push(ModuleTypes { name, types })?;
        left = others;
        first = first.saturating_add(count);
    }
    Ok(modules.leak())
}

/// How many types a module has, which begin at an index.
fn count_of(roots: &[Root], first: usize, module: usize) -> usize {
    match roots.get(first..) {
        Some(roots) => roots
            .iter()
            .take_while(|root| root.module == module)
            .count(),
        None => 0,
    }
}

/// For each module a line with its name, and one for each of its types, with its tag. No name is escaped: the lexer of
/// modules takes only letters, digits and hyphens for one.
impl fmt::Display for Types {
    fn fmt<W: fmt::Write>(&self, f: &mut fmt::Formatter<W>) -> fmt::Result {
        for module in self.modules {
            let name = module.name;
            writeln!(f, "{name}")?;
            for one in module.types {
                let name = one.name;
                write!(f, "  {name} ")?;
                write_tag(f, self.types, one.kind)?;
                f.write_str("\n")?;
            }
        }
        Ok(())
    }
}

/// Writes the tag of a type.
fn write_tag<W: fmt::Write>(
    f: &mut fmt::Formatter<W>,
    types: &[&'static Component],
    kind: Type,
) -> fmt::Result {
    let kind = match kind {
        Type::Numbered(index) => match types.get(index) {
            Some(component) => component.kind,
            None => Type::Any,
        },
        _ => kind,
    };
    match kind {
        Type::Tagged(Class::Universal, SEQUENCE, _, Inside::Each(_)) => f.write_str("SEQUENCE OF"),
        Type::Tagged(Class::Universal, SET, _, Inside::Each(_)) => f.write_str("SET OF"),
        Type::Tagged(class, number, _, _) => {
            let name = TypeName { class, number };
            write!(f, "{name}")
        }
        Type::Choice(_) => f.write_str("CHOICE"),
        _ => f.write_str("ANY"),
    }
}
