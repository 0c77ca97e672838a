//! The pairs of elements of two inputs.

use crate::diff::{NamedElement, own_content};
use crate::sequence::{Pair, Way, complete};
use der_elements::Element;
use std::alloc::{AllocError, Global};
use std::hash::{FoldHasher, Hasher};

/// An element, and the elements in its content. Equal octets have equal sums. Other octets may have them too, so what
/// is paired is compared again.
#[derive(Clone, Copy)]
struct Subtree {
    /// The number of elements, this one included.
    size: usize,
    /// The sum of all.
    whole: u64,
    /// The sum of the tag and of the first element, as the serial number of a revoked certificate.
    front: u64,
    /// The sum of the tag.
    tag: u64,
}

/// The elements of a content, from one of them to the end.
#[derive(Clone, Copy)]
struct Content {
    size: usize,
    whole: u64,
    /// The front of the first one.
    front: u64,
}

impl Content {
    const EMPTY: Content = Content {
        size: 0,
        whole: 0,
        front: 0,
    };

    /// The same behind one more.
    fn behind(self, first: Subtree) -> Content {
        Content {
            size: first.size.saturating_add(self.size),
            whole: joined(first.whole, self.whole),
            front: first.front,
        }
    }
}

/// The sum of some octets.
fn sum_of(octets: &[u8]) -> u64 {
    let mut hasher = FoldHasher::default();
    hasher.write(octets);
    hasher.finish()
}

/// The sum of two sums.
fn joined(first: u64, second: u64) -> u64 {
    let mut hasher = FoldHasher::default();
    hasher.write_u64(first);
    hasher.write_u64(second);
    hasher.finish()
}

/// The subtree of an element with this content.
fn subtree_of(element: &Element<'_>, inside: Content) -> Subtree {
    let tag = sum_of(element.identifier);
    let own = joined(tag, sum_of(own_content(element)));
    Subtree {
        size: inside.size.saturating_add(1),
        whole: joined(own, inside.whole),
        front: joined(own, inside.front),
        tag,
    }
}

/// The subtree of each element.
fn subtrees_of(alloc: Global, elements: &[NamedElement<'_>]) -> Result<Vec<Subtree>, AllocError> {
    let mut subtrees = Vec::with_capacity(alloc, elements.len())?;
    // The contents behind the element, by depth.
    let mut contents: Vec<Content> = Vec::new(alloc);
    for named in elements.iter().rev() {
        let element = &named.element;
        let inside = contents
            .get(element.depth.saturating_add(1))
            .copied()
            .unwrap_or(Content::EMPTY);
        let subtree = subtree_of(element, inside);
        subtrees.push(subtree)?;
        contents.resize_with(element.depth.saturating_add(1), || Content::EMPTY)?;
        if let Some(content) = contents.last_mut() {
            *content = content.behind(subtree);
        }
    }
    subtrees.reverse();
    Ok(subtrees)
}

/// Elements next to one another: their indexes and sums.
#[derive(Drop)]
struct Siblings {
    indexes: Vec<usize>,
    wholes: Vec<u64>,
    fronts: Vec<u64>,
    tags: Vec<u64>,
}

impl Siblings {
    /// The outermost ones from one index to another.
    fn between(
        alloc: Global,
        subtrees: &[Subtree],
        from: usize,
        to: usize,
    ) -> Result<Siblings, AllocError> {
        let mut siblings = Siblings {
            indexes: Vec::new(alloc),
            wholes: Vec::new(alloc),
            fronts: Vec::new(alloc),
            tags: Vec::new(alloc),
        };
        let mut next = from;
        for _ in from..to {
            match subtrees.get(next) {
                Some(subtree) if next < to => {
                    siblings.push(next, subtree)?;
                    next = next.saturating_add(subtree.size);
                }
                _ => return Ok(siblings),
            }
        }
        Ok(siblings)
    }

    fn push(&mut self, index: usize, subtree: &Subtree) -> Result<(), AllocError> {
        self.indexes.push(index)?;
        self.wholes.push(subtree.whole)?;
        self.fronts.push(subtree.front)?;
        self.tags.push(subtree.tag)?;
        Ok(())
    }

    /// Pairs those of two inputs: equal ones, then those with the same front, then those between them in turn.
    fn pair(&self, alloc: Global, new: &Siblings) -> Result<Vec<Pair>, AllocError> {
        let equal = complete(alloc, Way::Equal, &self.wholes, &new.wholes, &[])?;
        let alike = complete(alloc, Way::Equal, &self.fronts, &new.fronts, &equal)?;
        complete(alloc, Way::InTurn, &self.tags, &new.tags, &alike)
    }
}

/// The elements of two inputs, and those that are paired.
#[derive(Drop)]
struct Pairing<'t> {
    old: &'t [Subtree],
    new: &'t [Subtree],
    /// For each element of the old input the index of the one of the new.
    partners: Vec<Option<usize>>,
}

impl Pairing<'_> {
    /// Pairs the contents of two elements with these indexes, if they are paired and differ.
    fn pair_contents(&mut self, alloc: Global, index: usize) -> Result<(), AllocError> {
        let Some(partner) = self.partners.get(index).copied().flatten() else {
            return Ok(());
        };
        let (Some(old), Some(new)) = (self.old.get(index), self.new.get(partner)) else {
            return Ok(());
        };
        if old.whole == new.whole {
            return Ok(());
        }
        let old = Siblings::between(
            alloc,
            self.old,
            index.saturating_add(1),
            index.saturating_add(old.size),
        )?;
        let new = Siblings::between(
            alloc,
            self.new,
            partner.saturating_add(1),
            partner.saturating_add(new.size),
        )?;
        self.pair_siblings(alloc, &old, &new)
    }

    /// Pairs the elements of two contents.
    fn pair_siblings(
        &mut self,
        alloc: Global,
        old: &Siblings,
        new: &Siblings,
    ) -> Result<(), AllocError> {
        let pairs = old.pair(alloc, new)?;
        for pair in pairs.iter() {
            if let (Some(old), Some(new)) = (old.indexes.get(pair.old), new.indexes.get(pair.new)) {
                self.set(*old, *new);
            }
        }
        Ok(())
    }

    /// Pairs two elements, and also their contents if they are equal.
    fn set(&mut self, old: usize, new: usize) {
        let count = match (self.old.get(old), self.new.get(new)) {
            (Some(first), Some(second)) if first.whole == second.whole => first.size,
            _ => 1,
        };
        for further in 0..count {
            if let Some(partner) = self.partners.get_mut(old.saturating_add(further)) {
                *partner = Some(new.saturating_add(further));
            }
        }
    }
}

/// For each element of the old input the index of the one of the new that it is paired with. Those in the contents of
/// paired elements are paired in order: as many equal ones as there can be, then those that begin in the same way.
pub(crate) fn partners_of(
    alloc: Global,
    old: &[NamedElement<'_>],
    new: &[NamedElement<'_>],
) -> Result<Vec<Option<usize>>, AllocError> {
    let old = subtrees_of(alloc, old)?;
    let new = subtrees_of(alloc, new)?;
    let mut pairing = Pairing {
        old: &old,
        new: &new,
        partners: vec![in alloc; None; old.len()]?,
    };
    let first = Siblings::between(alloc, &old, 0, old.len())?;
    let second = Siblings::between(alloc, &new, 0, new.len())?;
    pairing.pair_siblings(alloc, &first, &second)?;
    for index in 0..old.len() {
        pairing.pair_contents(alloc, index)?;
    }
    Ok(pairing.partners)
}
