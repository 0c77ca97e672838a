//! Calls that detect the form of an input and decode it.
ghost use Rattle.std.specs.Prelude.{length};
ghost use Rattle.dumarewhi_page.specs.Content.Inputs.{AnswersBase64, AnswersBlock, AnswersDigits, AnswersForm};
ghost use Rattle.dumarewhi_page.specs.Content.Inputs.{FindsBlock, Found};

use crate::content::input::{PageBlock, answer, number_of, put_block};
use crate::content::room::put;
use der_input::{FormError, decode_base64_into, decode_hex_into, form_of, next_block};

/// Returns the form of an input: 0 for octets, 1 for PEM, 2 for digits in any notation, 3 for base64; or the number of
/// the error, from 10 on.
#[unsafe(no_mangle)]
pub extern "C" fn page_form(input: &[u8]) -> u32
    ensures { AnswersForm input.now result }
{
    number_of(form_of(input))
}

/// Writes the kind of an input that isn't ASN.1, such as `a zip file`, and returns the length of the text, or 0.
#[unsafe(no_mangle)]
pub extern "C" fn page_kind(input: &[u8], text: &mut [u8]) -> usize {
    match form_of(input) {
        Err(FormError::LooksLike(kind)) => put(text, kind),
        _ => 0,
    }
}

/// Decodes digits into `octets` and sets `size` to the number of octets. Returns 0, or the number of the error. `room`
/// takes the digits first. OutOfMemory if a buffer is too short.
#[unsafe(no_mangle)]
pub extern "C" fn page_digits(
    input: &[u8],
    room: &mut [u8],
    octets: &mut [u8],
    size: &mut usize,
) -> u32
    ensures { AnswersDigits input.now (length room.old) octets.new size.new result }
{
    answer(decode_hex_into(input, room, octets), size)
}

/// Decodes base64, as `page_digits` does.
#[unsafe(no_mangle)]
pub extern "C" fn page_base64(
    input: &[u8],
    room: &mut [u8],
    octets: &mut [u8],
    size: &mut usize,
) -> u32
    ensures { AnswersBase64 input.now (length room.old) octets.new size.new result }
{
    answer(decode_base64_into(input, room, octets), size)
}

/// Finds the first PEM block in a text and decodes it, as `page_digits` does. Returns 0, or the number of the error. If
/// the block is broken, `rest` is the text after its start, where the next one can be found.
#[unsafe(no_mangle)]
pub extern "C" fn page_block<'a>(
    text: &'a [u8],
    room: &mut [u8],
    octets: &mut [u8],
    block: &mut PageBlock<'a>,
) -> u32
    ensures { (found : Found) × FindsBlock text.now found
        × AnswersBlock text.now found (length room.old) octets.new block.new result }
{
    put_block(next_block(text), text, room, octets, block)
}
