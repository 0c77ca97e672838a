//! Decimal numbers, as Java, Go and Python print octets, and numbers with `0x` in source code.
ghost use Rattle.std.specs.Prelude.{◌≡◌, ◌==◌, ◌-◌, ◌<◌, ◌≤◌, true, not, length, count_by};
ghost use Rattle.std.specs.Char.{is_ascii_digit, is_ascii_hexdigit};
ghost use Rattle.std.specs.List.{flat_map, list_all, list_any, position_or_len, slice_split};
ghost use Rattle.der_input.specs.Marks.{Puts};
ghost use Rattle.der_input.specs.Numbers.{are_numbers, digits_of_number, ends_word, has_numbers, has_prefix};
ghost use Rattle.der_input.specs.Numbers.{is_between, is_decimal_alone, is_number, is_prefixed, is_short, magnitude_of};
ghost use Rattle.der_input.specs.Numbers.{may_be_number, negative_octet, octet_of, positive_octet, prefixed_digits};
ghost use Rattle.der_input.specs.Numbers.{value_of};

use crate::marks::{behind, is_mark, put_all, put_pair};

/// A number that isn't an octet.
const NO_OCTET: usize = 1000;

/// Returns whether a text is decimal numbers, and one can't be an octet in hexadecimal: it has a sign or three digits.
pub(crate) fn are_numbers(text: &[u8]) -> bool
    ensures { result ≡ are_numbers text.now }
{
    may_be_numbers(text) && has_decimal_alone(text)
}

fn may_be_numbers(text: &[u8]) -> bool
    ensures { result ≡ list_all may_be_number (slice_split is_between text.now) }
{
    text.split(|octet| is_between(*octet))
        .all(|word| may_be_number(word))
}

fn has_decimal_alone(text: &[u8]) -> bool
    ensures { result ≡ list_any is_decimal_alone (slice_split is_between text.now) }
{
    text.split(|octet| is_between(*octet))
        .any(|word| is_decimal_alone(word))
}

/// Returns whether a word is a number, or empty between separators.
fn may_be_number(word: &[u8]) -> bool
    ensures { result ≡ may_be_number word.now }
{
    word.is_empty() || octet_of(word).is_some()
}

fn is_decimal_alone(word: &[u8]) -> bool
    ensures { result ≡ is_decimal_alone word.now }
{
    word.starts_with(b"-") || word.len() >= 3
}

/// Returns whether an octet may be between decimal numbers.
fn is_between(octet: u8) -> bool
    ensures { result ≡ is_between octet }
{
    octet.is_ascii_whitespace() || is_mark(b",;()[]<>|", octet)
}

/// Writes each number as hexadecimal digits.
pub(crate) fn put_numbers(text: &[u8], room: &mut [u8]) -> Option<usize>
    ensures { Puts room.old 0 (flat_map digits_of_number (slice_split is_between text.now)) room.new result }
{
    let mut at = 0;
    'words: for word in text.split(|octet| is_between(*octet)) {
        at = put_number(word, room, at)?;
    }
    Some(at)
}

/// Writes a number as hexadecimal digits at an offset and returns the offset after them.
fn put_number(word: &[u8], room: &mut [u8], at: usize) -> Option<usize>
    requires { at ≤ length room.old }
    ensures { Puts room.old at (digits_of_number word.now) room.new result }
{
    match octet_of(word) {
        Some(octet) => put_pair(room, at, octet),
        None => put_all(room, at, word),
    }
}

/// The octet of a number from 0 to 255, or from -128 to -1 in two's complement.
fn octet_of(word: &[u8]) -> Option<u8>
    ensures { result ≡ octet_of word.now }
{
    if word.starts_with(b"-") {
        return negative_octet(magnitude_of(behind(word, 1)));
    }
    u8::try_from(magnitude_of(word)).ok()
}

fn negative_octet(number: usize) -> Option<u8>
    ensures { result ≡ negative_octet number }
{
    if number > 0 && number <= 128 {
        return u8::try_from(256 - number).ok();
    }
    None
}

/// The number in a word of digits without a leading 0, or else `NO_OCTET`.
fn magnitude_of(word: &[u8]) -> usize
    ensures { result ≡ magnitude_of word.now }
{
    if is_number(word) {
        return value_of(word);
    }
    NO_OCTET
}

fn is_number(word: &[u8]) -> bool
    ensures { result ≡ is_number word.now }
{
    are_decimal(word) && (word.len() == 1 || !word.starts_with(b"0"))
}

fn are_decimal(word: &[u8]) -> bool
    ensures { result ≡ list_all is_ascii_digit word.now }
{
    word.iter().all(|octet| octet.is_ascii_digit())
}

/// The number in one to three digits, or else `NO_OCTET`.
fn value_of(word: &[u8]) -> usize
    requires { list_all is_ascii_digit word.now ≡ true }
    ensures { result ≡ value_of word.now }
{
    match word {
        [a] => digit(*a),
        [a, b] => 10 * digit(*a) + digit(*b),
        [a, b, c] => 100 * digit(*a) + 10 * digit(*b) + digit(*c),
        _ => NO_OCTET,
    }
}

/// The value of a digit; 0 for octets below `0`.
fn digit(octet: u8) -> usize
    ensures value { result ≡ octet - 0x30 }
    ensures small { result < 256 }
{
    usize::from(octet.saturating_sub(b'0'))
}

/// Returns whether a text has a single number with `0x`, or several of one octet each.
pub(crate) fn has_numbers(text: &[u8]) -> bool
    ensures { result ≡ has_numbers text.now }
{
    let count = prefixed_in(text);
    count == 1 || (count > 0 && are_short(text))
}

/// The number of words that are numbers with `0x`.
fn prefixed_in(text: &[u8]) -> usize
    ensures { result ≡ count_by is_prefixed (slice_split ends_word text.now) }
{
    text.split(|octet| ends_word(*octet))
        .filter(|word| is_prefixed(word))
        .count()
}

fn are_short(text: &[u8]) -> bool
    ensures { result ≡ list_all is_short (slice_split ends_word text.now) }
{
    text.split(|octet| ends_word(*octet))
        .all(|word| is_short(word))
}

/// Returns whether a word is one octet at most, or no number with `0x`.
fn is_short(word: &[u8]) -> bool
    ensures { result ≡ is_short word.now }
{
    !is_prefixed(word) || prefixed_digits(word).len() <= 2
}

/// Returns whether an octet ends a word in source code.
pub(crate) fn ends_word(octet: u8) -> bool
    ensures { result ≡ ends_word octet }
{
    !(octet.is_ascii_alphanumeric() || octet == b'_')
}

/// Returns whether a word is a number with `0x`, perhaps with a type after it.
pub(crate) fn is_prefixed(word: &[u8]) -> bool
    ensures { result ≡ is_prefixed word.now }
{
    has_prefix(word) && !prefixed_digits(word).is_empty()
}

pub(crate) fn has_prefix(word: &[u8]) -> bool
    ensures { result ≡ has_prefix word.now }
{
    word.starts_with(b"0x") || word.starts_with(b"0X")
}

/// The digits of a number with `0x`.
pub(crate) fn prefixed_digits(word: &[u8]) -> &[u8]
    ensures { result.now ≡ prefixed_digits word.now }
{
    let digits = behind(word, 2);
    &digits[..digits_end(digits)]
}

/// The number of hexadecimal digits that a word begins with.
fn digits_end(word: &[u8]) -> usize
    ensures first { result ≡ position_or_len (λ c. not (is_ascii_hexdigit c)) word.now }
    ensures within { result ≤ length word.now }
{
    word.iter()
        .position(|octet| !octet.is_ascii_hexdigit())
        .unwrap_or(word.len())
}
