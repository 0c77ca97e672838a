//! Prefixes of texts, one part after another.
ghost use Rattle.std.specs.Prelude.{◌≡◌, ◌≤◌, ◌↔◌, IsTrue, All, MatchOption, length, take, drop};
ghost use Rattle.der_base.specs.Time.{IsDigit};
ghost use Rattle.der_contents.specs.Grammar.{BeginsWithNo, Ends, IsMark, IsSign, IsSpace, NumberThen, OneThen};
ghost use Rattle.der_contents.specs.Grammar.{Skips, SkipsOne, SomeThen, Strips};

/// Whether nothing is left.
pub(crate) fn is_end(octets: &[u8]) -> bool
    ensures { IsTrue result ↔ Ends octets.now }
{
    octets.is_empty()
}

/// What follows a sign. None if the octets begin with none.
pub(crate) fn strip_sign(octets: &[u8]) -> Option<&[u8]>
    ensures { Strips (OneThen IsSign) octets.now result }
{
    match octets {
        [b'+' | b'-', rest @ ..] => Some(rest),
        _ => None,
    }
}

/// What follows a point or a comma. None if the octets begin with none.
pub(crate) fn strip_mark(octets: &[u8]) -> Option<&[u8]>
    ensures { Strips (OneThen IsMark) octets.now result }
{
    match octets {
        [b'.' | b',', rest @ ..] => Some(rest),
        _ => None,
    }
}

/// What follows this octet. None if the octets don't begin with it.
pub(crate) fn strip_octet(octets: &[u8], wanted: u8) -> Option<&[u8]>
    ensures { Strips (OneThen (λ b. b ≡ wanted)) octets.now result }
{
    match octets {
        [first, rest @ ..] if *first == wanted => Some(rest),
        _ => None,
    }
}

/// What follows a number of two digits, from `low` to `high`. None if the octets begin with none.
pub(crate) fn strip_number(octets: &[u8], low: u8, high: u8) -> Option<&[u8]>
    ensures { Strips (NumberThen low high) octets.now result }
{
    let [tens, ones, rest @ ..] = octets else {
        return None;
    };
    if !tens.is_ascii_digit() || !ones.is_ascii_digit() {
        return None;
    }
    let number = (*tens - b'0') * 10 + (*ones - b'0');
    if number < low || number > high {
        return None;
    }
    Some(rest)
}

/// Whether the octets are a number of two digits, from `low` to `high`.
pub(crate) fn is_number(octets: &[u8], low: u8, high: u8) -> bool
    ensures { IsTrue result ↔ NumberThen low high Ends octets.now }
{
    match strip_number(octets, low, high) {
        Some(rest) => is_end(rest),
        None => false,
    }
}

/// The number of digits at the start.
pub(crate) fn count_digits(octets: &[u8]) -> usize
    ensures within { result ≤ length octets.now }
    ensures digits { All IsDigit (take result octets.now) }
    ensures behind { BeginsWithNo IsDigit (drop result octets.now) }
{
    for (index, octet) in octets.iter().enumerate() {
        if !octet.is_ascii_digit() {
            return index;
        }
    }
    octets.len()
}

/// What follows the digits at the start, if there are any.
pub(crate) fn skip_digits(octets: &[u8]) -> &[u8]
    ensures { Skips 0 IsDigit octets.now result.now }
{
    &octets[count_digits(octets)..]
}

/// What follows the digits at the start. None if there are none.
pub(crate) fn strip_digits(octets: &[u8]) -> Option<&[u8]>
    ensures { MatchOption result
        (BeginsWithNo IsDigit octets.now)
        (λ rest. Skips 1 IsDigit octets.now rest.now) }
{
    let count = count_digits(octets);
    if count == 0 {
        return None;
    }
    Some(&octets[count..])
}

/// Whether the octets are one or more digits.
pub(crate) fn is_whole(octets: &[u8]) -> bool
    ensures { IsTrue result ↔ SomeThen IsDigit Ends octets.now }
{
    match strip_digits(octets) {
        Some(rest) => is_end(rest),
        None => false,
    }
}

/// What follows the spaces at the start, if there are any.
pub(crate) fn skip_spaces(octets: &[u8]) -> &[u8]
    ensures { Skips 0 IsSpace octets.now result.now }
{
    &octets[count_spaces(octets)..]
}

/// The number of spaces at the start.
fn count_spaces(octets: &[u8]) -> usize
    ensures within { result ≤ length octets.now }
    ensures spaces { All IsSpace (take result octets.now) }
    ensures behind { BeginsWithNo IsSpace (drop result octets.now) }
{
    for (index, octet) in octets.iter().enumerate() {
        if *octet != b' ' {
            return index;
        }
    }
    octets.len()
}

/// What follows a sign at the start, if there is one.
pub(crate) fn skip_sign(octets: &[u8]) -> &[u8]
    ensures { SkipsOne IsSign octets.now result.now }
{
    match octets {
        [b'+' | b'-', rest @ ..] => rest,
        _ => octets,
    }
}
