//! The call that encodes the dotted text of an OBJECT IDENTIFIER (X.690 8.19).
ghost use Rattle.std.specs.Prelude.{◌≡◌, ◌+◌, ◌*◌, ◌∷◌, ◌++◌, IsTrue, MatchOption, Some, None};
ghost use Rattle.std.specs.Char.{is_ascii_digit};
ghost use Rattle.std.specs.List.{flat_map, list_all};
ghost use Rattle.std.specs.Option.{SomeIff};
ghost use Rattle.std.specs.Str.Parse.{digits_value};
ghost use Rattle.c_values.specs.Texts.{PutsText, ReturnsText};
ghost use Rattle.der_base.specs.Octets.{groups};
ghost use Rattle.der_base.specs.OidArcs.{components};
ghost use Rattle.dumarewhi_c.specs.DottedTexts.{components_left, groups_if_arc, have_subidentifier, is_arc};
ghost use Rattle.dumarewhi_c.specs.DottedTexts.{TextsComeBack, octets_of_text};

use c_values::errors::refusal_number;
use c_values::text::put_text;
use der_base::error::BerError;

/// What separates arcs.
const POINT: u8 = b'.';

/// The second arc is below this number if the first is 0 or 1 (8.19.4).
const SECOND_ARCS: u128 = 40;

/// An octet of a subidentifier has seven bits of its number (8.19.2), so many values.
const GROUP_VALUES: u128 = 128;

/// The bit of an octet that says that another one follows.
const HIGH_BIT: u8 = 128;

/// The most octets of a subidentifier below 2^128.
const MOST_OCTETS: usize = 19;

/// Writes the content octets of the OBJECT IDENTIFIER with this dotted text, and their number. Each subidentifier is
/// below 2^128.
#[unsafe(no_mangle)]
pub extern "C" fn dm_oid_from_text(text: &[u8], octets: &mut [u8], needed: &mut usize) -> u32
    ensures { ReturnsText (octets_of_text text.now) octets.old octets.new needed.old needed.new result }
{
    let Some((number, others)) = split_first(text) else {
        return refusal_number(BerError::BerValueError);
    };
    let end = put_subidentifier(octets, 0, number);
    *needed = put_others(octets, end, others);
    0
}

/// The number of the first subidentifier, and the text after its two arcs. None if the text isn't an identifier.
fn split_first(text: &[u8]) -> Option<(u128, Option<&[u8]>)>
    ensures { MatchOption result (octets_of_text text.now ≡ None)
        (λ x. octets_of_text text.now ≡ Some (groups x.0 ++ flat_map groups_if_arc (components_left x.1))) }
{
    let (first, rest) = cut(text);
    let (second, others) = cut(rest?);
    if !are_arcs(others) {
        return None;
    }
    let number = first_number(parse_arc(first)?, parse_arc(second)?)?;
    Some((number, others))
}

/// The octets before the first point, and those after it if there is one.
fn cut(text: &[u8]) -> (&[u8], Option<&[u8]>)
    ensures { components text.now ≡ result.0.now ∷ components_left result.1 }
{
    for (at, octet) in text.iter().enumerate() {
        if *octet == POINT {
            return (&text[..at], Some(&text[at + 1..]));
        }
    }
    (text, None)
}

/// Whether each component is an arc.
fn are_arcs(others: Option<&[u8]>) -> bool
    ensures { result ≡ list_all is_arc (components_left others.entry) }
{
    let Some(text) = others else {
        return true;
    };
    text.split(|octet| *octet == POINT)
        .all(|component| is_arc(component))
}

/// Whether a component is an arc.
fn is_arc(component: &[u8]) -> bool
    ensures { result ≡ is_arc component.now }
{
    parse_arc(component).is_some()
}

/// The number in decimal digits, if it is below 2^128.
fn parse_arc(component: &[u8]) -> Option<u128>
    ensures { SomeIff result (IsTrue (is_arc component.now)) (digits_value 10 component.now) }
{
    // `parse` accepts a sign.
    if !are_digits(component) {
        return None;
    }
    let Ok(digits) = str::from_utf8(component) else {
        return None;
    };
    digits.parse().ok()
}

fn are_digits(text: &[u8]) -> bool
    ensures { result ≡ list_all is_ascii_digit text.now }
{
    text.iter().all(|octet| octet.is_ascii_digit())
}

/// The first subidentifier for the first two arcs (8.19.4), if there is one.
fn first_number(first: u128, second: u128) -> Option<u128>
    ensures { SomeIff result (IsTrue (have_subidentifier first second)) (40 * first + second) }
{
    match first {
        0 | 1 if second < SECOND_ARCS => Some(first * SECOND_ARCS + second),
        2 => second.checked_add(2 * SECOND_ARCS),
        _ => None,
    }
}

/// Writes the subidentifiers of the further arcs. Returns the offset after them.
fn put_others(octets: &mut [u8], at: usize, others: Option<&[u8]>) -> usize
    ensures { PutsText octets.old at (flat_map groups_if_arc (components_left others.entry)) octets.new result }
{
    let Some(text) = others else {
        return at;
    };
    let mut end = at;
    for component in text.split(|octet| *octet == POINT) {
        if let Some(arc) = parse_arc(component) {
            end = put_subidentifier(octets, end, arc);
        }
    }
    end
}

/// Writes a number as a subidentifier, in the fewest groups of seven bits (8.19.2). Returns the offset after it.
fn put_subidentifier(octets: &mut [u8], at: usize, number: u128) -> usize
    ensures { PutsText octets.old at (groups number) octets.new result }
{
    let mut last_groups = [0; MOST_OCTETS];
    let mut begin = MOST_OCTETS - 1;
    last_groups[begin] = (number % GROUP_VALUES) as u8;
    let mut rest = number / GROUP_VALUES;
    while rest != 0 {
        begin -= 1;
        last_groups[begin] = HIGH_BIT + (rest % GROUP_VALUES) as u8;
        rest /= GROUP_VALUES;
    }
    put_text(octets, at, &last_groups[begin..])
}

/// The octets that `dm_oid_from_text` writes have the arcs of the text, by `dm_read_oid`.
pub fn texts_come_back()
    ensures { TextsComeBack }
{}
