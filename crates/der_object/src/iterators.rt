//! The items of an object: by reference, by value, or by index. None of these calls allocates.
ghost use Rattle.std.specs.Prelude.{◌≡◌};
ghost use Rattle.std.specs.Iterator.{YieldsFirst, YieldsFirstRef, item_count};
ghost use Rattle.der_object.specs.Items.{items_of, moved_items, items_left, items_to_move};

use crate::object::{BerObject, BerObjectContent};
use std::ops::Index;
use std::{mem, slice, vec};

/// An iterator over references to the items of an object, in order.
#[derive(Debug, Drop)]
pub struct BerObjectRefIterator<'r, 'a> {
    items: slice::Iter<'r, BerObject<'a>>,
}

impl<'a> BerObject<'a> {
    /// References to the items of a SEQUENCE or SET, in order. An object of another type has none.
    pub fn ref_iter<'r>(&'r self) -> BerObjectRefIterator<'r, 'a>
        ensures { items_left result ≡ items_of self.now.content }
    {
        BerObjectRefIterator {
            items: self.content.items().iter(),
        }
    }
}

impl<'a> BerObjectContent<'a> {
    /// The items of a SEQUENCE or SET. Another content has none.
    #[tactic(auto, using(crate::proofs::ItemLists::of_sequence, crate::proofs::ItemLists::of_set))]
    fn items(&self) -> &[BerObject<'a>]
        ensures { result.now ≡ items_of self.now }
    {
        match self {
            BerObjectContent::Sequence(items) | BerObjectContent::Set(items) => items.as_slice(),
            _ => &[],
        }
    }
}

impl<'r, 'a> Iterator for BerObjectRefIterator<'r, 'a> {
    type Item = &'r BerObject<'a>;

    ghost next_gives = { YieldsFirstRef items_left };

    ghost remaining = { item_count items_left };

    fn next(&mut self) -> Option<&'r BerObject<'a>> {
        self.items.next()
    }
}

/// An iterator over the objects into which an object is moved.
#[derive(Debug, Drop)]
pub struct BerObjectIntoIterator<'a> {
    left: Left<'a>,
}

#[derive(Debug, Drop)]
enum Left<'a> {
    Items(vec::IntoIter<BerObject<'a>>),
    Itself(BerObject<'a>),
    Nothing,
}

/// The items of a SEQUENCE or SET by value, in order. An object of another type gives itself, once.
impl<'a> IntoIterator for BerObject<'a> {
    type Item = BerObject<'a>;

    type IntoIter = BerObjectIntoIterator<'a>;

    ghost into_iter_gives = { λ o it. items_to_move it ≡ moved_items o };

    fn into_iter(self) -> BerObjectIntoIterator<'a> {
        let BerObject { header, content } = self;
        let left = match content {
            BerObjectContent::Sequence(items) | BerObjectContent::Set(items) => {
                Left::Items(items.into_iter())
            }
            content => Left::Itself(BerObject { header, content }),
        };
        BerObjectIntoIterator { left }
    }
}

impl<'a> Iterator for BerObjectIntoIterator<'a> {
    type Item = BerObject<'a>;

    ghost next_gives = { YieldsFirst items_to_move };

    ghost remaining = { item_count items_to_move };

    fn next(&mut self) -> Option<BerObject<'a>> {
        if let Left::Items(items) = &mut self.left {
            return items.next();
        }
        match mem::replace(&mut self.left, Left::Nothing) {
            Left::Itself(object) => Some(object),
            _ => None,
        }
    }
}

/// The item of a SEQUENCE or SET at an index. The caller has to know that there is one.
impl<'a> Index<usize> for BerObject<'a> {
    ghost use Rattle.der_object.specs.Items.{HasItem, IsItem};

    type Output = BerObject<'a>;

    ghost can_index = { HasItem };

    ghost index_gives = { IsItem };

    fn index(&self, index: usize) -> &BerObject<'a> {
        &self.content.items()[index]
    }
}
