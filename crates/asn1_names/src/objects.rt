//! The objects of object sets (X.681 11, 12).
use crate::classes::{
    ABSTRACT_SYNTAX, Class, ClassField, Element, Setting, TYPE_IDENTIFIER, TYPE_IDENTIFIER_CLASS,
    elements_of,
};
use crate::error::{Fault, MOST_OCTETS, MOST_STEPS, Place, Problem};
use crate::identifier::number_octets;
use crate::loaded::{Loaded, text_of};
use crate::names::{Assigned, Key};
use asn1_modules::Kind;
use std::alloc::{AllocError, Global};
use std::collections::{BTreeMap, BTreeSet};

/// The field of an object class whose value is an identifier.
const IDENTIFIER: &[u8] = b"&id";

/// A field of the objects of a set.
#[derive(Clone, Copy, Debug, PartialEq, Eq, PartialOrd, Ord)]
struct SetField {
    set: Key,
    field: &'static [u8],
}

/// A part of a module.
#[derive(Clone, Copy)]
struct Part {
    module: usize,
    text: &'static [u8],
}

/// An identifier, and the type that it selects.
#[derive(Clone, Copy)]
pub struct Object {
    /// The content octets.
    pub identifier: &'static [u8],
    /// The index of the type's node.
    pub item: usize,
}

/// The objects of a set. They live as long as the program.
#[derive(Clone, Copy)]
pub struct ObjectSet {
    /// How many sets were read before it.
    pub number: usize,
    pub objects: &'static [Object],
}

/// Object classes and object sets that were read.
#[derive(Drop)]
pub struct Objects {
    alloc: Global,
    classes: Vec<Class>,
    numbers: BTreeMap<Key, usize>,
    sets: BTreeMap<SetField, ObjectSet>,
    /// How many octets may still be read.
    left: usize,
}

impl Objects {
    pub fn new(alloc: Global) -> Objects {
        Objects {
            alloc,
            classes: Vec::new(alloc),
            numbers: BTreeMap::new(alloc),
            sets: BTreeMap::new(alloc),
            left: MOST_OCTETS,
        }
    }

    /// Counts octets that are read.
    fn count(&mut self, octets: usize, place: Place) -> Result<(), Fault> {
        match self.left.checked_sub(octets) {
            Some(left) => {
                self.left = left;
                Ok(())
            }
            None => Err(place.fault(Problem::TooManyObjects)),
        }
    }

    /// The number of the object class with this name, if it is one.
    pub fn class(
        &mut self,
        loaded: &Loaded,
        module: usize,
        name: &'static str,
        place: Place,
    ) -> Result<Option<usize>, Fault> {
        let Some((key, text)) = class_text(loaded, Key { module, name }) else {
            return Ok(None);
        };
        if let Some(number) = self.numbers.get(&key) {
            return Ok(Some(*number));
        }
        self.count(text.len(), place)?;
        let class = match Class::read(self.alloc, text) {
            Ok(class) => class,
            Err(problem) => return Err(place.fault(Problem::Syntax(problem))),
        };
        let number = self.classes.len();
        self.classes.push(class)?;
        self.numbers.insert(key, number)?;
        Ok(Some(number))
    }

    /// What a field of the class with a number is.
    pub fn field(&self, class: usize, name: &'static [u8]) -> ClassField {
        match self.classes.get(class) {
            Some(class) => class.field(name),
            None => ClassField::Other,
        }
    }

    /// The number of octets of a class.
    fn size(&self, class: usize) -> usize {
        match self.classes.get(class) {
            Some(class) => class.size,
            None => 0,
        }
    }

    /// The objects of the set with this name: their identifiers, and the types in a field. None if the name is of
    /// something else. What has a name that isn't known is left out.
    pub fn set(
        &mut self,
        loaded: &Loaded,
        set: Key,
        class: usize,
        field: &'static [u8],
        place: Place,
    ) -> Result<Option<ObjectSet>, Fault> {
        let Some((module, Assigned::Set(text))) = loaded.names.known(set.module, set.name) else {
            return Ok(None);
        };
        let set = Key {
            module,
            name: set.name,
        };
        let key = SetField { set, field };
        if let Some(read) = self.sets.get(&key) {
            return Ok(Some(*read));
        }
        let mut reading = Reading::new(self.alloc, class, field, place);
        reading.add_set(set, text)?;
        let found = reading.read(self, loaded)?;
        let read = ObjectSet {
            number: self.sets.len(),
            objects: found.leak(),
        };
        self.sets.insert(key, read)?;
        Ok(Some(read))
    }

    /// What an object says of a field. The syntax of the class is read too.
    fn setting(
        &mut self,
        class: usize,
        object: &'static [u8],
        field: &[u8],
        place: Place,
    ) -> Result<Setting<'static>, Fault> {
        let read = object.len().saturating_add(self.size(class));
        self.count(read, place)?;
        let Some(class) = self.classes.get(class) else {
            return Ok(Setting::Other);
        };
        match class.setting(self.alloc, object, field) {
            Ok(setting) => Ok(setting),
            Err(problem) => Err(place.fault(Problem::Syntax(problem))),
        }
    }
}

/// The object class with a name, and its text (X.681 9.2). None if the name is of something else or isn't known.
fn class_text(loaded: &Loaded, named: Key) -> Option<(Key, &'static [u8])> {
    let mut key = named;
    for _ in 0..MOST_STEPS {
        if key.name == TYPE_IDENTIFIER {
            return Some((key, TYPE_IDENTIFIER_CLASS));
        }
        if key.name == ABSTRACT_SYNTAX {
            return None;
        }
        let (module, assigned) = loaded.names.known(key.module, key.name)?;
        if let Assigned::Class(text) = assigned {
            return Some((Key { module, ..key }, text));
        }
        let name = class_behind(loaded, assigned)?;
        key = Key { module, name };
    }
    None
}

/// The name that is assigned to another name.
fn class_behind(loaded: &Loaded, assigned: Assigned) -> Option<&'static str> {
    let Assigned::Type(item) = assigned else {
        return None;
    };
    match loaded.nodes.get(item)?.node.kind {
        Kind::Reference { name, .. } => Some(text_of(name)),
        _ => None,
    }
}

/// An object set that is read, and the sets in it.
#[derive(Drop)]
struct Reading {
    class: usize,
    field: &'static [u8],
    place: Place,
    found: Vec<Object>,
    /// The sets that aren't read yet.
    pending: Vec<Part>,
    /// The names of all sets.
    seen: BTreeSet<Key>,
}

impl Reading {
    fn new(alloc: Global, class: usize, field: &'static [u8], place: Place) -> Reading {
        Reading {
            class,
            field,
            place,
            found: Vec::new(alloc),
            pending: Vec::new(alloc),
            seen: BTreeSet::new(alloc),
        }
    }

    /// Adds a set that is to be read, unless it was added before.
    fn add_set(&mut self, set: Key, text: &'static [u8]) -> Result<(), AllocError> {
        if self.seen.insert(set)? {
            let module = set.module;
            self.pending.push(Part { module, text })?;
        }
        Ok(())
    }

    /// Reads the sets that aren't read yet, and those in them, and returns their objects.
    fn read(mut self, objects: &mut Objects, loaded: &Loaded) -> Result<Vec<Object>, Fault> {
        self.read_pending(objects, loaded)?;
        let Reading {
            found,
            pending: _,
            seen: _,
            ..
        } = self;
        Ok(found)
    }

    fn read_pending(&mut self, objects: &mut Objects, loaded: &Loaded) -> Result<(), Fault> {
        // A set has an octet or more.
        for _ in 0..MOST_OCTETS {
            let Some(set) = self.pending.pop() else {
                return Ok(());
            };
            self.read_set(objects, loaded, set)?;
        }
        Err(self.place.fault(Problem::TooManyObjects))
    }

    fn read_set(&mut self, objects: &mut Objects, loaded: &Loaded, set: Part) -> Result<(), Fault> {
        objects.count(set.text.len(), self.place)?;
        let elements = match elements_of(objects.alloc, set.text) {
            Ok(elements) => elements,
            Err(problem) => return Err(self.place.fault(Problem::Syntax(problem))),
        };
        for element in &elements {
            match *element {
                Element::Object(text) => {
                    let object = Part { text, ..set };
                    self.read_object(objects, loaded, object)?;
                }
                Element::Name(name) => self.read_name(objects, loaded, set.module, text_of(name))?,
            }
        }
        Ok(())
    }

    /// Reads the object with a name, or adds the set.
    fn read_name(
        &mut self,
        objects: &mut Objects,
        loaded: &Loaded,
        module: usize,
        name: &'static str,
    ) -> Result<(), Fault> {
        match loaded.names.known(module, name) {
            Some((module, Assigned::Object([b'{', text @ .., b'}']))) => {
                self.read_object(objects, loaded, Part { module, text })
            }
            Some((module, Assigned::Set(text))) => Ok(self.add_set(Key { module, name }, text)?),
            _ => Ok(()),
        }
    }

    /// Reads an object. One whose type or identifier isn't a known name or a number selects nothing.
    fn read_object(
        &mut self,
        objects: &mut Objects,
        loaded: &Loaded,
        object: Part,
    ) -> Result<(), Fault> {
        let Part { module, text } = object;
        let Setting::Name(name) = objects.setting(self.class, text, self.field, self.place)? else {
            return Ok(());
        };
        let Some((_, Assigned::Type(item))) = loaded.names.known(module, text_of(name)) else {
            return Ok(());
        };
        let identifier = match objects.setting(self.class, text, IDENTIFIER, self.place)? {
            Setting::Name(name) => loaded.identifier(objects.alloc, module, text_of(name))?,
            Setting::Number(digits) => number_octets(objects.alloc, text_of(digits))?,
            Setting::Other => None,
        };
        if let Some(identifier) = identifier {
            self.found.push(Object { identifier, item })?;
        }
        Ok(())
    }
}
