//! PEM blocks (RFC 7468), decoded into the caller's buffers.
ghost use Rattle.std.specs.Prelude.{Option, Result, length};
ghost use Rattle.c_values.specs.Pem.{TakesBlock, WritesBlock};
ghost use Rattle.der_input.specs.declared.error.FormError.{FormError};
ghost use Rattle.der_input.specs.declared.pem.Block.{Block};

use crate::errors::form_number;
use crate::octets::DmOctets;
use der_input::{Block, FormError};

/// A block of a text.
#[repr(C)]
#[derive(Clone, Copy)]
pub struct DmPem<'a> {
    /// Its label.
    pub label: &'a [u8],
    /// The number of its octets, at the start of the caller's buffer.
    pub length: usize,
}

/// Takes a block that was found.
pub fn take_block<'a>(
    found: Result<Option<(Block<'a>, &'a [u8])>, FormError>,
    text: &mut DmOctets<'a>,
    characters: &mut [u8],
    octets: &mut [u8],
    block: &mut DmPem<'a>,
) -> u32
    ensures { TakesBlock found.entry text.old text.new block.old block.new (length characters.old) octets.new result }
{
    match found {
        Ok(Some((found, rest))) => {
            text.octets = rest;
            write_block(found, characters, octets, block)
        }
        Ok(None) => form_number(FormError::NoBlock),
        Err(e) => form_number(e),
    }
}

/// Writes the label and the octets of a block.
fn write_block<'a>(
    found: Block<'a>,
    characters: &mut [u8],
    octets: &mut [u8],
    block: &mut DmPem<'a>,
) -> u32
    ensures { WritesBlock found.entry (length characters.old) octets.new block.new result }
{
    block.label = found.label;
    match found.decode_into(characters, octets) {
        Ok(length) => {
            block.length = length;
            0
        }
        Err(e) => {
            block.length = 0;
            form_number(e)
        }
    }
}
