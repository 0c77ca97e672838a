//! What modules say, with the names of all of them.
use crate::classes::{ABSTRACT_SYNTAX, TYPE_IDENTIFIER};
use crate::comments::{Said, Sayings, said_in};
use crate::error::{Fault, Place, Problem};
use crate::names::{Assigned, Names};
use asn1_modules::{
    Arc, Assignment, AssignmentKind, Node, Syntax, TagDefault, ValueKind, read_modules,
};
use std::alloc::{AllocError, Global};
use std::str;

/// A node, where it is from, and what a comment says of its name.
#[derive(Clone, Copy)]
pub struct Placed {
    pub node: Node<'static>,
    pub source: Source,
    pub said: Option<Said>,
}

/// A module, by its index, and its text.
#[derive(Clone, Copy)]
pub struct Source {
    pub text: usize,
    pub octets: &'static [u8],
    pub module: usize,
    pub tags: TagDefault,
}

/// An assigned type.
#[derive(Clone, Copy)]
pub struct Root {
    pub name: &'static str,
    /// The index of its module.
    pub module: usize,
    /// The index of its item.
    pub item: usize,
}

/// What all modules say.
#[derive(Drop)]
pub struct Loaded {
    pub modules: Vec<&'static str>,
    /// The assigned types that have no parameters, and names of object classes.
    pub roots: Vec<Root>,
    pub nodes: Vec<Placed>,
    pub names: Names,
    /// The components of object identifier values.
    pub arcs: Vec<Arc<'static>>,
}

/// Reads texts of modules.
pub fn load(alloc: Global, texts: &[&'static [u8]]) -> Result<Loaded, Fault> {
    let mut loaded = Loaded {
        modules: Vec::new(alloc),
        roots: Vec::new(alloc),
        nodes: Vec::new(alloc),
        names: Names::new(alloc),
        arcs: Vec::new(alloc),
    };
    for (text, octets) in texts.iter().enumerate() {
        let syntax = match read_modules(alloc, octets) {
            Ok(syntax) => syntax,
            Err(error) => {
                let place = Place {
                    text,
                    offset: error.offset,
                };
                return Err(place.fault(Problem::Syntax(error.problem)));
            }
        };
        let sayings = match said_in(alloc, &syntax) {
            Ok(sayings) => sayings,
            Err(error) => {
                let place = Place {
                    text,
                    offset: error.offset,
                };
                return Err(place.fault(Problem::Words(error.problem)));
            }
        };
        loaded.add(&syntax, &sayings, text)?;
    }
    Ok(loaded)
}

/// The text of a name, which has only letters, digits and hyphens.
pub fn text_of(octets: &'static [u8]) -> &'static str {
    match str::from_utf8(octets) {
        Ok(text) => text,
        Err(_) => "",
    }
}

impl Loaded {
    /// Adds the modules of a text, and what its comments say.
    fn add(
        &mut self,
        syntax: &Syntax<'static>,
        sayings: &Sayings,
        text: usize,
    ) -> Result<(), Fault> {
        let first = self.modules.len();
        self.add_modules(syntax, text)?;
        self.add_imports(syntax, text, first)?;
        for (index, assignment) in syntax.assignments.iter().enumerate() {
            let tags = match syntax.modules.get(assignment.module) {
                Some(module) => module.tags,
                None => TagDefault::Explicit,
            };
            let source = Source {
                text,
                octets: syntax.text,
                module: first.saturating_add(assignment.module),
                tags,
            };
            let root = self.nodes.len();
            self.add_assignment(syntax, sayings, assignment, source)?;
            let said = sayings.assignments.get(index).copied().flatten();
            if let (Some(said), Some(root)) = (said, self.nodes.get_mut(root)) {
                root.said = Some(said);
            }
        }
        Ok(self.arcs.extend_from_slice(&syntax.arcs)?)
    }

    fn add_modules(&mut self, syntax: &Syntax<'static>, text: usize) -> Result<(), Fault> {
        for module in &syntax.modules {
            let place = Place {
                text,
                offset: module.offset,
            };
            let name = text_of(module.name);
            self.names.add_module(name, self.modules.len(), place)?;
            self.modules.push(name)?;
        }
        Ok(())
    }

    fn add_imports(
        &mut self,
        syntax: &Syntax<'static>,
        text: usize,
        first: usize,
    ) -> Result<(), Fault> {
        for import in &syntax.imports {
            if let Some(source) = syntax.sources.get(import.source) {
                let place = Place {
                    text,
                    offset: source.offset,
                };
                let module = first.saturating_add(import.module);
                self.names
                    .import(module, text_of(import.name), text_of(source.name), place)?;
            }
        }
        Ok(())
    }

    fn add_assignment(
        &mut self,
        syntax: &Syntax<'static>,
        sayings: &Sayings,
        assignment: &Assignment<'static>,
        source: Source,
    ) -> Result<(), Fault> {
        let name = text_of(assignment.name);
        let assigned = match assignment.kind {
            AssignmentKind::Type(root) if assignment.parameters.is_empty() => {
                let item = self.nodes.len();
                self.add_nodes(syntax, sayings, root, source)?;
                self.roots.push(Root {
                    name,
                    module: source.module,
                    item,
                })?;
                Assigned::Type(item)
            }
            AssignmentKind::Value(_, ValueKind::Number, span) => {
                Assigned::Number(text_of(span.of(source.octets)))
            }
            AssignmentKind::Value(_, ValueKind::Reference, span) => {
                Assigned::Value(text_of(span.of(source.octets)))
            }
            AssignmentKind::Value(_, ValueKind::Arcs(first, count), _) => {
                Assigned::Arcs(self.arcs.len().saturating_add(first), count)
            }
            AssignmentKind::Value(_, ValueKind::Text, span) => {
                Assigned::Object(span.of(source.octets))
            }
            AssignmentKind::Set(_, span) => Assigned::Set(span.of(source.octets)),
            AssignmentKind::Class(span) => Assigned::Class(span.of(source.octets)),
            _ => Assigned::Other,
        };
        let place = Place {
            text: source.text,
            offset: assignment.offset,
        };
        self.names.assign(source.module, name, assigned, place)
    }

    /// Adds a type with all that is inside it.
    fn add_nodes(
        &mut self,
        syntax: &Syntax<'static>,
        sayings: &Sayings,
        root: usize,
        source: Source,
    ) -> Result<(), AllocError> {
        let Some(nodes) = syntax.nodes.get(root..) else {
            return Ok(());
        };
        for (index, node) in nodes.iter().enumerate() {
            if index > 0 && node.depth == 0 {
                return Ok(());
            }
            let said = sayings.nodes.get(root.saturating_add(index)).copied();
            self.nodes.push(Placed {
                node: *node,
                source,
                said: said.flatten(),
            })?;
        }
        Ok(())
    }

    /// The item of the type with this name. None if the name is that of an object class, or of a type with parameters.
    pub fn root_named(
        &self,
        module: &'static str,
        name: &'static str,
        source: Source,
        place: Place,
    ) -> Result<Option<usize>, Fault> {
        if name == TYPE_IDENTIFIER || name == ABSTRACT_SYNTAX {
            return Ok(None);
        }
        let index = if module.is_empty() {
            source.module
        } else {
            self.names.module(module, place)?
        };
        match self.names.find(index, name, place)? {
            (_, Assigned::Type(item)) => Ok(Some(item)),
            _ => Ok(None),
        }
    }
}
