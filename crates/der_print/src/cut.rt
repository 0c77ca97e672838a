//! The characters of a text, cut to a number of columns.
ghost use Rattle.std.specs.Prelude.{◌≡◌, ◌≤◌, length, take};
ghost use Rattle.std.specs.Fmt.{char_count, is_char_start, take_chars};

/// The number of characters of a text.
pub(crate) fn characters(text: &[u8]) -> usize
    ensures { result ≡ char_count text.now }
{
    let mut number: usize = 0;
    for octet in text {
        if begins_character(*octet) {
            number += 1;
        }
    }
    number
}

/// The offset after the first `characters` characters of a text.
pub(crate) fn end_of(text: &[u8], characters: usize) -> usize
    ensures first { take result text.now ≡ take_chars characters text.now }
    ensures within { result ≤ length text.now }
{
    let mut left = characters;
    for index in 0..text.len() {
        if begins_character(text[index]) {
            if left == 0 {
                return index;
            }
            left -= 1;
        }
    }
    text.len()
}

/// Returns whether an octet begins a character of UTF-8 (RFC 3629 3).
fn begins_character(octet: u8) -> bool
    ensures { result ≡ is_char_start octet }
{
    octet < 0x80 || octet >= 0xc0
}
