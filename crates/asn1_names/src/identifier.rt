//! Content octets of identifiers (X.690 8.3, 8.19).
use crate::error::MOST_STEPS;
use crate::loaded::{Loaded, text_of};
use crate::names::Assigned;
use asn1_modules::Arc;
use der_base::error::OidParseError;
use der_base::oid::Oid;
use std::alloc::{AllocError, Global};

/// The most arcs of an identifier.
const MOST_ARCS: usize = 128;

/// The arcs that have a name of their own at the root (X.660 A.2).
const ROOTS: [(&str, u64); 5] = [
    ("itu-t", 0),
    ("ccitt", 0),
    ("iso", 1),
    ("joint-iso-itu-t", 2),
    ("joint-iso-ccitt", 2),
];

/// Components of an object identifier value, in a module.
#[derive(Clone, Copy)]
struct Part {
    module: usize,
    first: usize,
    count: usize,
}

impl Loaded {
    /// The content octets of the value with this name. None if it is neither an object identifier nor a number, or has
    /// too many or too large arcs.
    pub(crate) fn identifier(
        &self,
        alloc: Global,
        module: usize,
        name: &'static str,
    ) -> Result<Option<&'static [u8]>, AllocError> {
        let mut parts = Vec::new(alloc);
        let mut module = module;
        let mut name = name;
        for _ in 0..MOST_STEPS {
            match self.names.known(module, name) {
                Some((_, Assigned::Number(digits))) if parts.is_empty() => {
                    return number_octets(alloc, digits);
                }
                Some((source, Assigned::Value(other))) => {
                    module = source;
                    name = other;
                }
                Some((source, Assigned::Arcs(first, count))) => {
                    let part = Part {
                        module: source,
                        first,
                        count,
                    };
                    parts.push(part)?;
                    match self.prefix(part) {
                        Some(prefix) => {
                            module = source;
                            name = prefix;
                        }
                        None => return self.octets_of(alloc, &parts),
                    }
                }
                _ => return Ok(None),
            }
        }
        Ok(None)
    }

    /// The name of the object identifier that a value begins with, if it does.
    fn prefix(&self, part: Part) -> Option<&'static str> {
        let arc = self.arcs.get(part.first)?;
        let name = text_of(arc.name);
        if arc.number.is_some() || root_named(name).is_some() {
            return None;
        }
        Some(name)
    }

    /// The content octets of an object identifier. The last part begins it.
    fn octets_of(
        &self,
        alloc: Global,
        parts: &[Part],
    ) -> Result<Option<&'static [u8]>, AllocError> {
        let mut arcs: Vec<u64> = Vec::new(alloc);
        for (index, part) in parts.iter().rev().enumerate() {
            // A part behind the first begins with the name of the one before it.
            let skipped = usize::from(index > 0);
            let first = part.first.saturating_add(skipped);
            let end = part.first.saturating_add(part.count);
            let own = self.arcs.get(first..end).unwrap_or(&[]);
            if arcs.len().saturating_add(own.len()) > MOST_ARCS {
                return Ok(None);
            }
            for arc in own {
                match self.arc_number(part.module, *arc) {
                    Some(number) => arcs.push(number)?,
                    None => return Ok(None),
                }
            }
        }
        arcs_octets(alloc, &arcs)
    }

    fn arc_number(&self, module: usize, arc: Arc<'static>) -> Option<u64> {
        match arc.number {
            Some(number) => text_of(number.digits).parse().ok(),
            None => match root_named(text_of(arc.name)) {
                Some(root) => Some(root),
                None => Some(u64::from(self.names.number_of(module, text_of(arc.name))?)),
            },
        }
    }
}

/// The number of a root that has a name of its own.
fn root_named(name: &str) -> Option<u64> {
    let (_, number) = ROOTS.iter().find(|(text, _)| *text == name)?;
    Some(*number)
}

/// The content octets of the object identifier with these arcs, if there is one (8.19).
fn arcs_octets(alloc: Global, arcs: &[u64]) -> Result<Option<&'static [u8]>, AllocError> {
    match Oid::from(alloc, arcs) {
        Ok(oid) => Ok(Some(kept(alloc, oid.as_bytes())?)),
        Err(OidParseError::OutOfMemory) => Err(AllocError),
        Err(_) => Ok(None),
    }
}

/// The content octets of an INTEGER from 0 to 2^32-1 (8.3), if the digits are one.
pub(crate) fn number_octets(
    alloc: Global,
    digits: &str,
) -> Result<Option<&'static [u8]>, AllocError> {
    match digits.parse::<u32>() {
        Ok(number) => {
            let octets = u64::from(number).to_be_bytes();
            Ok(Some(kept(alloc, shortest(&octets))?))
        }
        Err(_) => Ok(None),
    }
}

/// The fewest octets of a number that isn't negative (8.3.2).
fn shortest(octets: &[u8]) -> &[u8] {
    let zeros = octets.iter().take_while(|octet| **octet == 0).count();
    let start = match octets.get(zeros) {
        Some(0..=0x7f) => zeros,
        _ => zeros.saturating_sub(1),
    };
    octets.get(start..).unwrap_or(octets)
}

/// A copy that lives as long as the program.
fn kept(alloc: Global, octets: &[u8]) -> Result<&'static [u8], AllocError> {
    Ok(Vec::from_slice(alloc, octets)?.leak())
}
