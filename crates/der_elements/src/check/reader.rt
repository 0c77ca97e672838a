//! Elements and what is inside them. The functions call each other, at one depth less for each constructed element.
//! With `LISTS` they list on a tape what they read. Without, the tape stays as it is and isn't in the compiled code.
ghost use Rattle.std.specs.Prelude.{◌≡◌, ◌↔◌, ◌+◌, ◌-◌, ◌≤◌, ◌<◌, length};
ghost use Rattle.std.specs.Prelude.{IfSome, IsTrue};
ghost use Rattle.der_base.specs.Header.{class_of, is_constructed, number_of, length_of};
ghost use Rattle.der_elements.specs.Check.Elements.{AreElements};
ghost use Rattle.der_elements.specs.Check.Readers.{BeginsWithContent, BeginsWithElement, BeginsWithElements};
ghost use Rattle.der_elements.specs.Check.Readers.{BeginsWithOpenContent, Finds, Follows, IsPlain};
ghost use Rattle.der_elements.specs.Check.Tapes.{KeepsContent, KeepsElement, KeepsElements, KeepsInside};

use crate::check::element::{Slot, element_of, universal_element};
use crate::check::rules::{is_content, is_list_octet, may_be_constructed, may_have_content};
use crate::check::tape::{Tape, begin, list};
use der_base::content::after_end_marker;
use der_base::header::{Header, Length};
use der_base::rules::Rules;
use der_base::short::read_short;

/// Whether octets that end at this offset of the input are elements, one after another.
#[cycle(reader)]
pub(crate) fn read_elements<N: Slot, const LISTS: bool>(
    octets: &[u8],
    end: usize,
    rules: Rules,
    max_depth: usize,
    tape: &mut Tape<'_, N>,
) -> bool
    requires { tape.old.count + length octets.now ≤ end }
    ensures same { tape.new.slots.ghost_name ≡ tape.old.slots.ghost_name }
    ensures exactly { IsTrue result ↔ AreElements rules max_depth octets.now }
    ensures listed { IsTrue LISTS → IsTrue result →
        KeepsElements rules N.slot max_depth octets.now end tape.old tape.new }
    ensures within { IsTrue result →
        (tape.old.count ≤ tape.new.count) × (tape.new.count ≤ tape.old.count + length octets.now) }
{
    let mut rest = octets;
    while !rest.is_empty() {
        match read_element::<N, LISTS>(rest, end, rules, max_depth, tape) {
            Some(after) => rest = after,
            None => return false,
        }
    }
    true
}

/// Reads the element at the start of the input, if there is one. Returns what follows it.
#[cycle(reader)]
#[inline(always)]
pub(crate) fn read_element<'a, N: Slot, const LISTS: bool>(
    i: &'a [u8],
    end: usize,
    rules: Rules,
    max_depth: usize,
    tape: &mut Tape<'_, N>,
) -> Option<&'a [u8]>
    requires { tape.old.count + length i.now ≤ end }
    ensures same { tape.new.slots.ghost_name ≡ tape.old.slots.ghost_name }
    ensures exactly { Finds (BeginsWithElement rules max_depth i.now) result }
    ensures listed { IsTrue LISTS → IfSome result (λ rest.
        KeepsElement rules N.slot max_depth i.now end tape.old rest.now tape.new) }
    ensures shorter { IfSome result (λ rest. length rest.now < length i.now) }
    ensures within { IfSome result (λ rest.
        (tape.old.count ≤ tape.new.count) × (tape.new.count + length rest.now ≤ tape.old.count + length i.now)) }
{
    if max_depth == 0 {
        return None;
    }
    if let Some(short) = read_short(i) {
        let after = end_before::<LISTS>(short.rest, end);
        let size = short.content.len();
        if is_list_octet(short.first) {
            let number = begin::<N, LISTS>(tape);
            if !read_elements::<N, LISTS>(short.content, after, rules, max_depth - 1, tape) {
                return None;
            }
            let element = universal_element(true, short.first - 32, size, after);
            list::<N, LISTS>(tape, number, element);
            return Some(short.rest);
        }
        if is_plain(rules, short.first, short.content) {
            let number = begin::<N, LISTS>(tape);
            let element = universal_element(false, short.first, size, after);
            list::<N, LISTS>(tape, number, element);
            return Some(short.rest);
        }
    }
    read_any::<N, LISTS>(i, end, rules, max_depth, tape)
}

/// The offset before octets that end at `end`. It is computed only if elements are listed. Otherwise the compiled code
/// passes no offset.
#[inline(always)]
fn end_before<const LISTS: bool>(rest: &[u8], end: usize) -> usize
    requires { length rest.now ≤ end }
    ensures exactly { IsTrue LISTS → result ≡ end - length rest.now }
    ensures within { (end - length rest.now ≤ result) × (result ≤ end) }
{
    if LISTS { end - rest.len() } else { end }
}

/// Whether an identifier octet and a content are those of a primitive element of a universal type. Each common type has
/// a call of its own, which is compiled without the table of types.
#[inline(always)]
fn is_plain(rules: Rules, first: u8, content: &[u8]) -> bool
    ensures { IsTrue result → IsPlain rules first content.now }
{
    match first {
        1 => is_content(rules, 1, content),
        2 => is_content(rules, 2, content),
        3 => is_content(rules, 3, content),
        4 => is_content(rules, 4, content),
        5 => is_content(rules, 5, content),
        6 => is_content(rules, 6, content),
        10 => is_content(rules, 10, content),
        7..=30 => is_content(rules, u32::from(first), content),
        _ => false,
    }
}

/// `read_element` for any element, at a depth of at least 1.
#[cycle(reader)]
#[inline(never)]
fn read_any<'a, N: Slot, const LISTS: bool>(
    i: &'a [u8],
    end: usize,
    rules: Rules,
    max_depth: usize,
    tape: &mut Tape<'_, N>,
) -> Option<&'a [u8]>
    requires deep { 1 ≤ max_depth }
    requires room { tape.old.count + length i.now ≤ end }
    ensures same { tape.new.slots.ghost_name ≡ tape.old.slots.ghost_name }
    ensures exactly { Finds (BeginsWithElement rules max_depth i.now) result }
    ensures listed { IsTrue LISTS → IfSome result (λ rest.
        KeepsElement rules N.slot max_depth i.now end tape.old rest.now tape.new) }
    ensures shorter { IfSome result (λ rest. length rest.now < length i.now) }
    ensures within { IfSome result (λ rest.
        (tape.old.count ≤ tape.new.count) × (tape.new.count + length rest.now ≤ tape.old.count + length i.now)) }
{
    let Ok((behind, header)) = rules.read_header(i) else {
        return None;
    };
    let number = begin::<N, LISTS>(tape);
    let rest = read_content::<N, LISTS>(behind, &header, end, rules, max_depth, tape)?;
    let element = element_of(&header, end - i.len(), end - behind.len(), end - rest.len());
    list::<N, LISTS>(tape, number, element);
    Some(rest)
}

/// Reads the content of an element with this header, if it may have it. Returns what follows the element.
#[cycle(reader)]
#[inline(always)]
fn read_content<'a, N: Slot, const LISTS: bool>(
    i: &'a [u8],
    header: &Header<'_>,
    end: usize,
    rules: Rules,
    max_depth: usize,
    tape: &mut Tape<'_, N>,
) -> Option<&'a [u8]>
    requires deep { 1 ≤ max_depth }
    requires room { tape.old.count + length i.now ≤ end }
    ensures same { tape.new.slots.ghost_name ≡ tape.old.slots.ghost_name }
    ensures exactly { let h = header.now in
        Finds (Follows rules max_depth (class_of h) (is_constructed h) (number_of h) (length_of h) i.now) result }
    ensures listed { let h = header.now in IsTrue LISTS → IfSome result (λ rest. KeepsInside (is_constructed h)
        rules N.slot (max_depth - 1) (length_of h) i.now end tape.old rest.now tape.new) }
    ensures shorter { IfSome result (λ rest. length rest.now ≤ length i.now) }
    ensures within { IfSome result (λ rest.
        (tape.old.count ≤ tape.new.count) × (tape.new.count + length rest.now ≤ tape.old.count + length i.now)) }
{
    if !header.constructed() {
        return after_content(i, header, rules);
    }
    if !may_be_constructed(rules, header.class(), header.tag()) {
        return None;
    }
    read_constructed_content::<N, LISTS>(i, header.length(), end, rules, max_depth - 1, tape)
}

/// What follows the content octets of a primitive element with this header, if it may have them.
#[inline(always)]
fn after_content<'a>(i: &'a [u8], header: &Header<'_>, rules: Rules) -> Option<&'a [u8]>
    ensures exactly { let h = header.now in
        Finds (BeginsWithContent rules (class_of h) (number_of h) (length_of h) i.now) result }
    ensures shorter { IfSome result (λ x. length x.now ≤ length i.now) }
{
    let Length::Definite(size) = header.length() else {
        return None;
    };
    let (content, rest) = i.split_at_checked(size)?;
    if may_have_content(rules, header.class(), header.tag(), content) {
        Some(rest)
    } else {
        None
    }
}

/// Reads a content with this length, if it is elements. Returns what follows the element.
#[cycle(reader)]
fn read_constructed_content<'a, N: Slot, const LISTS: bool>(
    i: &'a [u8],
    size: Length,
    end: usize,
    rules: Rules,
    max_depth: usize,
    tape: &mut Tape<'_, N>,
) -> Option<&'a [u8]>
    requires { tape.old.count + length i.now ≤ end }
    ensures same { tape.new.slots.ghost_name ≡ tape.old.slots.ghost_name }
    ensures exactly { Finds (BeginsWithElements rules max_depth size i.now) result }
    ensures listed { IsTrue LISTS → IfSome result (λ rest.
        KeepsContent rules N.slot max_depth size i.now end tape.old rest.now tape.new) }
    ensures shorter { IfSome result (λ rest. length rest.now ≤ length i.now) }
    ensures within { IfSome result (λ rest.
        (tape.old.count ≤ tape.new.count) × (tape.new.count + length rest.now ≤ tape.old.count + length i.now)) }
{
    let Length::Definite(count) = size else {
        return read_open_content::<N, LISTS>(i, end, rules, max_depth, tape);
    };
    let (content, rest) = i.split_at_checked(count)?;
    if read_elements::<N, LISTS>(
        content,
        end_before::<LISTS>(rest, end),
        rules,
        max_depth,
        tape,
    ) {
        Some(rest)
    } else {
        None
    }
}

/// Reads elements and the end-of-contents octets after them (8.1.3.6). Returns what follows.
#[cycle(reader)]
fn read_open_content<'a, N: Slot, const LISTS: bool>(
    i: &'a [u8],
    end: usize,
    rules: Rules,
    max_depth: usize,
    tape: &mut Tape<'_, N>,
) -> Option<&'a [u8]>
    requires { tape.old.count + length i.now ≤ end }
    ensures same { tape.new.slots.ghost_name ≡ tape.old.slots.ghost_name }
    ensures exactly { Finds (BeginsWithOpenContent rules max_depth i.now) result }
    ensures listed { IsTrue LISTS → IfSome result (λ rest.
        KeepsContent rules N.slot max_depth Length.Indefinite i.now end tape.old rest.now tape.new) }
    ensures shorter { IfSome result (λ rest. length rest.now ≤ length i.now) }
    ensures within { IfSome result (λ rest.
        (tape.old.count ≤ tape.new.count) × (tape.new.count + length rest.now ≤ tape.old.count + length i.now)) }
{
    let mut rest = i;
    loop {
        if let Some(after) = after_end_marker(rest) {
            return Some(after);
        }
        match read_element::<N, LISTS>(rest, end, rules, max_depth, tape) {
            Some(after) => rest = after,
            None => return None,
        }
    }
}
