//! Encodes items backwards, so that each length is known when its octets are written.
ghost use Rattle.std.specs.Prelude.{◌≡◌, ◌++◌, [], OnOk, reverse};
ghost use Rattle.der_text.specs.Encoded.{GivesOrFaults, Leads, before, encoded, following, state_of, whole};

use crate::error::{Fault, Problem};
use crate::item::{End, Form, Item};
use crate::length::{MOST, length_octets};
use std::alloc::{AllocError, Global};

/// The octets of items.
pub(crate) fn encode(alloc: Global, items: &[Item]) -> Result<Vec<u8>, Fault>
    ensures { GivesOrFaults (encoded items.now) result }
{
    let mut encoder = Encoder::new(alloc);
    let mut rest = items;
    while let Some((item, others)) = rest.split_last() {
        encoder.put(*item)?;
        rest = others;
    }
    encoder.finish()
}

/// The octets so far, from the last to the first, and the ends of the open contents.
#[derive(Drop)]
pub(crate) struct Encoder {
    pub reversed: Vec<u8>,
    pub ends: Vec<End>,
}

impl Encoder {
    fn new(alloc: Global) -> Encoder
        ensures { state_of result ≡ following [] [] }
    {
        Encoder {
            reversed: Vec::new(alloc),
            ends: Vec::new(alloc),
        }
    }

    /// Puts an item before those that were put.
    fn put(&mut self, item: Item) -> Result<(), Fault>
        ensures { Leads (before item (state_of self.old)) (state_of self.new) result }
    {
        match item {
            Item::Octet(octet) => self.reversed.push(octet)?,
            Item::Open(form, left) => self.open(form, left)?,
            Item::Close(left) => {
                let after = self.reversed.len();
                self.ends.push(End { after, left })?;
            }
        }
        Ok(())
    }

    /// Puts the length octets of the innermost open content.
    fn open(&mut self, form: Form, left: usize) -> Result<(), Fault>
        ensures { Leads (before (Item.Open form left) (state_of self.old)) (state_of self.new) result }
    {
        let Some(end) = self.ends.pop() else {
            return Err(Fault {
                problem: Problem::NotClosed,
                left,
            });
        };
        let content = self.reversed.len().saturating_sub(end.after);
        let mut room = [0; MOST];
        let Some(octets) = length_octets(&mut room, form, content) else {
            return Err(Fault {
                problem: Problem::Length,
                left,
            });
        };
        push_reversed(&mut self.reversed, octets)?;
        Ok(())
    }

    /// The octets, if no content is open.
    fn finish(self) -> Result<Vec<u8>, Fault>
        ensures { GivesOrFaults (whole (state_of self)) result }
    {
        let Encoder {
            mut reversed,
            mut ends,
        } = self;
        if let Some(end) = ends.pop() {
            return Err(Fault {
                problem: Problem::NotOpened,
                left: end.left,
            });
        }
        reversed.reverse();
        Ok(reversed)
    }
}

/// Pushes octets from the last to the first.
fn push_reversed(reversed: &mut Vec<u8>, octets: &[u8]) -> Result<(), AllocError>
    ensures { OnOk result (reverse reversed.new.items ≡ octets.now ++ reverse reversed.old.items) }
{
    let mut rest = octets;
    while let Some((last, others)) = rest.split_last() {
        reversed.push(*last)?;
        rest = others;
    }
    Ok(())
}
