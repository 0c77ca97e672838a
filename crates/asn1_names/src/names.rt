//! What names of modules stand for.
use crate::error::{Fault, MOST_STEPS, Place, Problem, START};
use std::alloc::Global;
use std::collections::BTreeMap;

/// A name in a module, which has this index.
#[derive(Clone, Copy, Debug, PartialEq, Eq, PartialOrd, Ord)]
pub struct Key {
    pub module: usize,
    pub name: &'static str,
}

/// What is assigned to a name.
#[derive(Clone, Copy)]
pub enum Assigned {
    /// A type, by the index of its item.
    Type(usize),
    /// A number, in digits.
    Number(&'static str),
    /// The value with this name.
    Value(&'static str),
    /// So many components of an object identifier from an index on.
    Arcs(usize, usize),
    /// An object, or a value of another type, in the text.
    Object(&'static [u8]),
    /// A set of objects or values, in the text.
    Set(&'static [u8]),
    /// An object class, in the text.
    Class(&'static [u8]),
    /// A type with parameters or a macro.
    Other,
}

/// The module that a name is imported from.
#[derive(Clone, Copy)]
struct Import {
    source: &'static str,
    place: Place,
}

/// The names of all modules.
#[derive(Drop)]
pub struct Names {
    modules: BTreeMap<&'static str, usize>,
    assigned: BTreeMap<Key, Assigned>,
    imported: BTreeMap<Key, Import>,
}

impl Names {
    pub fn new(alloc: Global) -> Names {
        Names {
            modules: BTreeMap::new(alloc),
            assigned: BTreeMap::new(alloc),
            imported: BTreeMap::new(alloc),
        }
    }

    /// Adds a module, which has this index.
    pub fn add_module(
        &mut self,
        name: &'static str,
        index: usize,
        place: Place,
    ) -> Result<(), Fault> {
        match self.modules.insert(name, index)? {
            Some(_) => Err(place.fault(Problem::DefinedTwice(name))),
            None => Ok(()),
        }
    }

    /// Adds a name that a module imports.
    pub fn import(
        &mut self,
        module: usize,
        name: &'static str,
        source: &'static str,
        place: Place,
    ) -> Result<(), Fault> {
        self.imported
            .insert(Key { module, name }, Import { source, place })?;
        Ok(())
    }

    /// Adds an assignment of a module.
    pub fn assign(
        &mut self,
        module: usize,
        name: &'static str,
        assigned: Assigned,
        place: Place,
    ) -> Result<(), Fault> {
        match self.assigned.insert(Key { module, name }, assigned)? {
            Some(_) => Err(place.fault(Problem::DefinedTwice(name))),
            None => Ok(()),
        }
    }

    /// The index of the module with a name.
    pub fn module(&self, name: &'static str, place: Place) -> Result<usize, Fault> {
        match self.modules.get(&name) {
            Some(index) => Ok(*index),
            None => Err(place.fault(Problem::UnknownModule(name))),
        }
    }

    /// What a name stands for in a module, and the module that assigns it (X.680 14.1).
    pub fn find(
        &self,
        module: usize,
        name: &'static str,
        place: Place,
    ) -> Result<(usize, Assigned), Fault> {
        let mut module = module;
        for _ in 0..MOST_STEPS {
            let key = Key { module, name };
            if let Some(assigned) = self.assigned.get(&key) {
                return Ok((module, *assigned));
            }
            let Some(import) = self.imported.get(&key) else {
                return Err(place.fault(Problem::UnknownName(name)));
            };
            module = self.module(import.source, import.place)?;
        }
        Err(place.fault(Problem::Endless))
    }

    /// The number that a name of a module stands for.
    pub fn number(&self, module: usize, name: &'static str, place: Place) -> Result<u32, Fault> {
        let mut module = module;
        let mut wanted = name;
        for _ in 0..MOST_STEPS {
            match self.find(module, wanted, place)? {
                (source, Assigned::Value(other)) => {
                    module = source;
                    wanted = other;
                }
                (_, Assigned::Number(digits)) => return tag_number(digits, name, place),
                _ => return Err(place.fault(Problem::TagNumber(name))),
            }
        }
        Err(place.fault(Problem::Endless))
    }

    /// What a name stands for in a module, and the module that assigns it, if they are known.
    pub fn known(&self, module: usize, name: &'static str) -> Option<(usize, Assigned)> {
        self.find(module, name, START).ok()
    }

    /// The number that a name of a module stands for, if it is one from 0 to 2^32-1.
    pub fn number_of(&self, module: usize, name: &'static str) -> Option<u32> {
        self.number(module, name, START).ok()
    }
}

/// The number in digits.
fn tag_number(digits: &'static str, name: &'static str, place: Place) -> Result<u32, Fault> {
    match digits.parse() {
        Ok(number) => Ok(number),
        Err(_) => Err(place.fault(Problem::TagNumber(name))),
    }
}
