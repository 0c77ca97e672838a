//! The names of numbers.
use crate::item::{Item, Shape};
use asn1_modules::{Kind, NamedValue};
use asn1_names::{Fault, Loaded, MOST_STEPS, Placed, Source, text_of};
use der_schema::words::NumberName;
use std::alloc::Global;
use std::collections::{BTreeMap, BTreeSet};

/// The names of numbers that were made, by the item of their type.
#[derive(Drop)]
pub(crate) struct Numbers {
    alloc: Global,
    made: BTreeMap<usize, &'static [NumberName]>,
}

impl Numbers {
    pub fn new(alloc: Global) -> Numbers {
        Numbers {
            alloc,
            made: BTreeMap::new(alloc),
        }
    }

    /// The names of the numbers of an item, whose type may be behind references and tags.
    pub fn names_of(
        &mut self,
        loaded: &Loaded,
        items: &[Item],
        start: usize,
    ) -> Result<&'static [NumberName], Fault> {
        let index = innermost(items, start);
        if let Some(names) = self.made.get(&index) {
            return Ok(names);
        }
        let names = names_in(self.alloc, loaded, index)?;
        self.made.insert(index, names)?;
        Ok(names)
    }
}

/// The item that references and tags lead to.
fn innermost(items: &[Item], start: usize) -> usize {
    let mut index = start;
    for _ in 0..MOST_STEPS {
        match items.get(index) {
            Some(item) if matches!(item.shape, Shape::Reference | Shape::Tagged(..)) => {
                index = item.inner;
            }
            _ => return index,
        }
    }
    index
}

/// The nodes inside an INTEGER or ENUMERATED, or none.
fn inside_of(loaded: &Loaded, index: usize) -> &[Placed] {
    let rest = loaded.nodes.get(index..).unwrap_or(&[]);
    let Some((first, rest)) = rest.split_first() else {
        return &[];
    };
    if !matches!(first.node.kind, Kind::Integer | Kind::Enumerated) {
        return &[];
    }
    let depth = first.node.depth;
    let count = rest
        .iter()
        .take_while(|placed| placed.node.depth > depth)
        .count();
    rest.get(..count).unwrap_or(&[])
}

/// The names of the numbers of a node. An item of an ENUMERATED without a number has the next that no other has
/// (X.680 20.3).
fn names_in(alloc: Global, loaded: &Loaded, index: usize) -> Result<&'static [NumberName], Fault> {
    let inside = inside_of(loaded, index);
    let mut next = Unused {
        used: used_in(alloc, loaded, inside)?,
        next: 0,
    };
    let mut names = Vec::new(alloc);
    for placed in inside {
        if let Some(number) = next.number_of(loaded, placed) {
            let said = placed.said.and_then(|said| said.label);
            names.push(NumberName {
                number,
                name: said.unwrap_or(text_of(placed.node.name)),
            })?;
        }
    }
    Ok(names.leak())
}

/// The numbers that stand in the text.
fn used_in(alloc: Global, loaded: &Loaded, inside: &[Placed]) -> Result<BTreeSet<u32>, Fault> {
    let mut used = BTreeSet::new(alloc);
    for placed in inside {
        if let Kind::Named(value) = placed.node.kind {
            if let Some(number) = number_in(loaded, value, placed.source) {
                used.insert(number)?;
            }
        }
    }
    Ok(used)
}

/// The number that a name has in the text, from 0 to 2^32-1.
fn number_in(loaded: &Loaded, value: NamedValue<'static>, source: Source) -> Option<u32> {
    match value {
        NamedValue::Unnumbered => None,
        NamedValue::Number(number) if number.negative => None,
        NamedValue::Number(number) => text_of(number.digits).parse().ok(),
        NamedValue::Reference(name) => loaded.names.number_of(source.module, text_of(name)),
    }
}

/// The numbers that stand in the text, and where to look for one that doesn't.
#[derive(Drop)]
struct Unused {
    used: BTreeSet<u32>,
    next: u32,
}

impl Unused {
    /// The number of a name. None if it has none, or a node isn't a name.
    fn number_of(&mut self, loaded: &Loaded, placed: &Placed) -> Option<u32> {
        match placed.node.kind {
            Kind::Named(NamedValue::Unnumbered) => Some(self.unused()),
            Kind::Named(value) => number_in(loaded, value, placed.source),
            _ => None,
        }
    }

    /// The next number that isn't used.
    fn unused(&mut self) -> u32 {
        for _ in 0..self.used.len() {
            if !self.used.contains(&self.next) {
                break;
            }
            self.next = self.next.saturating_add(1);
        }
        let number = self.next;
        self.next = self.next.saturating_add(1);
        number
    }
}
