//! Calls that find PEM blocks (RFC 7468) and decode them into the caller's buffers.
ghost use Rattle.std.specs.Borrow.{Bor};
ghost use Rattle.std.specs.Prelude.{List, Option, Result, length, ℕ};
ghost use Rattle.c_formats.specs.Decode.{DecodesInput};
ghost use Rattle.c_formats.specs.Items.{Taken};
ghost use Rattle.c_values.specs.Cursors.{IsSame};
ghost use Rattle.c_values.specs.Pem.{AnswersBlock, TakesBlock};
ghost use Rattle.der_input.specs.declared.error.FormError.{FormError};
ghost use Rattle.der_input.specs.declared.pem.Block.{Block};
ghost use Rattle.der_input.specs.Blocks.{first_begin};

use c_formats::decode::decode_input;
use c_values::octets::DmOctets;
use c_values::pem::{DmPem, take_block};
use der_input::{Block, FormError, first_begin, next_block};

/// Takes the next block of a text and decodes it: `characters` gets its base64 characters, and `octets` its octets.
/// Returns 0, or the number of the error.
#[unsafe(no_mangle)]
pub extern "C" fn dm_next_pem<'a>(
    text: &mut DmOctets<'a>,
    characters: &mut [u8],
    octets: &mut [u8],
    block: &mut DmPem<'a>,
) -> u32
    ensures { (found : Result (Option (Block × Bor (List ℕ))) FormError) × AnswersBlock text.old.octets.now found
        × TakesBlock found text.old text.new block.old block.new (length characters.old) octets.new result }
{
    take_block(next_block(text.octets), text, characters, octets, block)
}

/// Finds the offset of the first block of a text. Returns 1, or 0 if there is none.
#[unsafe(no_mangle)]
pub extern "C" fn dm_find_pem(text: &[u8], offset: &mut usize) -> u32
    ensures { Taken IsSame (first_begin text.now) offset.old offset.new result }
{
    match first_begin(text) {
        Some(begin) => {
            *offset = begin;
            1
        }
        None => 0,
    }
}

/// Writes the octets of an input to the start of a buffer, and their number: those of the first block of PEM, or the
/// input as it is if it isn't PEM. Returns 0, or the number of the error; then there are no octets.
#[unsafe(no_mangle)]
pub extern "C" fn dm_decode_input(input: &[u8], room: &mut [u8], size: &mut usize) -> u32
    ensures { DecodesInput input.now room.old room.new size.new result }
{
    decode_input(input, room, size)
}
