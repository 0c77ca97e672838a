//! Decoding into slices, without allocation.
ghost use Rattle.std.specs.Prelude.{◌≢◌, ◌≤◌, ◌+◌, ◌*◌, length};
ghost use Rattle.der_input.specs.Slices.{DecodesBase64, DecodesDigits};

use crate::characters::put_characters;
use crate::error::FormError;
use crate::fault::Base64Fault;
use crate::plain::put_digits;
use base64::decoded_len_estimate;
use base64::engine::general_purpose::STANDARD_PAD_INDIFFERENT;

/// Decodes hexadecimal digits as `decode_hex` does and returns the number of octets. `room` takes the digits first.
/// OutOfMemory if `room` is shorter than the digits, or `octets` than half of them. Enough are a `room` of twice the
/// text, and `octets` as long as the text.
pub fn decode_hex_into(text: &[u8], room: &mut [u8], octets: &mut [u8]) -> Result<usize, FormError>
    ensures decoded { DecodesDigits text.now (length room.old) octets.new result }
    ensures enough { 2 * length text.now ≤ length room.old → length text.now ≤ length octets.old
        → result ≢ Err FormError.OutOfMemory }
{
    let Some(end) = put_digits(text, room) else {
        return Err(FormError::OutOfMemory);
    };
    let size = end / 2;
    if octets.len() < size {
        return Err(FormError::OutOfMemory);
    }
    match hex::decode_to_slice(&room[..end], &mut octets[..size]) {
        Ok(()) => Ok(size),
        Err(_) => Err(FormError::Hex),
    }
}

/// Decodes base64 as `decode_base64` does and returns the number of octets. `room` takes the characters first.
/// OutOfMemory if `room` is shorter than the characters, or `octets` than three for each four of them, rounded up.
/// Enough are a `room` as long as the text, and `octets` of two more.
pub fn decode_base64_into(
    text: &[u8],
    room: &mut [u8],
    octets: &mut [u8],
) -> Result<usize, FormError>
    ensures decoded { DecodesBase64 text.now (length room.old) octets.new result }
    ensures enough { length text.now ≤ length room.old → length text.now + 2 ≤ length octets.old
        → result ≢ Err FormError.OutOfMemory }
{
    let Some(end) = put_characters(text, room) else {
        return Err(FormError::OutOfMemory);
    };
    if octets.len() < decoded_len_estimate(end) {
        return Err(FormError::OutOfMemory);
    }
    match STANDARD_PAD_INDIFFERENT.decode_slice_unchecked(&room[..end], octets) {
        Ok(size) => Ok(size),
        Err(e) => Err(FormError::Base64(Base64Fault::of(text, e))),
    }
}
