//! Octets among others, and writing octets one after another.
ghost use Rattle.std.specs.Prelude.{◌≡◌, ◌≤◌, ◌<◌, ◌==◌, ◌∷◌, ◌+◌, [], length, drop};
ghost use Rattle.std.specs.List.{position_or_len};
ghost use Rattle.der_input.specs.Marks.{Puts, digit_of, is_mark, is_separator, pair_of};

/// Returns whether an octet is one of these marks.
pub(crate) fn is_mark(marks: &[u8], octet: u8) -> bool
    ensures { result ≡ is_mark marks.now octet }
{
    marks.iter().any(|mark| *mark == octet)
}

/// Returns whether an octet may be between hexadecimal digits: white space, marks, brackets and quotes.
pub(crate) fn is_separator(octet: u8) -> bool
    ensures { result ≡ is_separator octet }
{
    octet.is_ascii_whitespace() || is_mark(b":,;.-_()[]<>\"'|", octet)
}

/// The offset of the first such octet, or the length.
pub(crate) fn offset_of(text: &[u8], octet: u8) -> usize
    ensures first { result ≡ position_or_len (λ c. c == octet) text.now }
    ensures within { result ≤ length text.now }
{
    text.iter()
        .position(|it| *it == octet)
        .unwrap_or(text.len())
}

/// The text after the octet at this offset.
pub(crate) fn after(text: &[u8], offset: usize) -> &[u8]
    requires { offset ≤ length text.now }
    ensures { result.now ≡ drop (offset + 1) text.now }
{
    if offset == text.len() {
        return &[];
    }
    &text[offset + 1..]
}

/// The text from this offset on; empty if the offset is after the end.
pub(crate) fn behind(text: &[u8], offset: usize) -> &[u8]
    ensures { result.now ≡ drop offset text.now }
{
    text.get(offset..).unwrap_or(&[])
}

/// Writes octets at an offset and returns the offset after them.
pub(crate) fn put_all(room: &mut [u8], at: usize, octets: &[u8]) -> Option<usize>
    requires { at ≤ length room.old }
    ensures { Puts room.old at octets.now room.new result }
{
    if octets.len() > room.len() - at {
        return None;
    }
    let end = at + octets.len();
    room[at..end].copy_from_slice(octets);
    Some(end)
}

/// Writes an octet as two hexadecimal digits at an offset and returns the offset after them.
pub(crate) fn put_pair(room: &mut [u8], at: usize, octet: u8) -> Option<usize>
    requires { at ≤ length room.old }
    ensures { Puts room.old at (pair_of octet) room.new result }
{
    put_all(room, at, &[digit_of(octet / 16), digit_of(octet % 16)])
}

/// The hexadecimal digit of a number.
fn digit_of(number: u8) -> u8
    requires { number < 16 }
    ensures { result ≡ digit_of number }
{
    if number < 10 {
        b'0' + number
    } else {
        b'a' - 10 + number
    }
}

/// Writes an octet at an offset and returns the next offset.
pub(crate) fn put(room: &mut [u8], at: usize, octet: u8) -> Option<usize>
    ensures { Puts room.old at (octet ∷ []) room.new result }
{
    if at >= room.len() {
        return None;
    }
    room[at] = octet;
    Some(at + 1)
}
