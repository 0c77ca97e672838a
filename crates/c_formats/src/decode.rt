//! Decodes an input of DER or PEM into the caller's buffer.
ghost use Rattle.std.specs.Prelude.{Ok};
ghost use Rattle.c_formats.specs.Decode.{Copies, DecodesFirst, DecodesForm, DecodesInput};

use c_values::octets::DmOctets;
use c_values::pem::{DmPem, take_block};
use der_input::{Form, form_of, next_block};

/// The number of the error if a buffer is too small (`DM_ERROR_PEM_NO_ROOM`).
const NO_ROOM: u32 = 197;

/// Writes the octets of an input to the start of a buffer, and their number: those of the first block of PEM
/// (RFC 7468), or the input as it is if it isn't PEM. Returns 0, or the number of the error; then the number of octets
/// is 0.
pub fn decode_input(input: &[u8], room: &mut [u8], size: &mut usize) -> u32
    ensures { DecodesInput input.now room.old room.new size.new result }
{
    match form_of(input) {
        Ok(form) => decode_form(form, input, room, size),
        Err(_) => copy(input, room, size),
    }
}

/// The same for an input of this form.
fn decode_form(form: Form, input: &[u8], room: &mut [u8], size: &mut usize) -> u32
    ensures { DecodesForm (Ok form) input.now room.old room.new size.new result }
{
    match form {
        Form::Pem => decode_first(input, room, size),
        Form::Der => copy(input, room, size),
        Form::Hex => copy(input, room, size),
        Form::Base64 => copy(input, room, size),
    }
}

/// Decodes the first block of a text into the first half of a buffer. The other half gets its characters of base64.
fn decode_first(text: &[u8], room: &mut [u8], size: &mut usize) -> u32
    ensures { DecodesFirst text.now room.old room.new size.new result }
{
    let half = room.len() / 2;
    let (octets, characters) = room.split_at_mut(half);
    let mut rest = DmOctets { octets: text };
    let mut block = DmPem {
        label: &[],
        length: 0,
    };
    let error = take_block(next_block(text), &mut rest, characters, octets, &mut block);
    *size = block.length;
    error
}

/// Copies octets to the start of a buffer.
fn copy(octets: &[u8], room: &mut [u8], size: &mut usize) -> u32
    ensures { Copies octets.now room.old room.new size.new result }
{
    if room.len() < octets.len() {
        *size = 0;
        return NO_ROOM;
    }
    room[..octets.len()].copy_from_slice(octets);
    *size = octets.len();
    0
}
