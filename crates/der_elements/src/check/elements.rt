//! The public calls: whether octets are elements, and which ones.
ghost use Rattle.std.specs.Prelude.{◌≡◌, ◌↔◌, ◌+◌, ◌≤◌, ◌<◌, IfSome, IsSome, IsTrue, length, option_map};
ghost use Rattle.der_elements.specs.Check.Elements.{AreElements, IsElement};
ghost use Rattle.der_elements.specs.Check.Listing.{ListsElement, ListsElements};
ghost use Rattle.der_elements.specs.Check.Readers.{BeginsWithElement, Finds};

use crate::check::element::{Element, Slot};
use crate::check::reader::{read_element, read_elements};
use crate::check::tape::Tape;
use der_base::rules::Rules;

/// The element at the start of an input, when it is listed.
#[derive(Clone, Copy)]
pub struct Listed<'a> {
    /// How many elements there are, counting itself and those inside it, whatever the capacity of the slots.
    pub elements: usize,
    /// What follows the element.
    pub rest: &'a [u8],
}

/// Whether octets are elements of BER or DER, one after another, and nothing else. The content of a constructed element
/// of any class must be such elements too (X.690 8.1.4), nested no deeper than `max_depth`.
///
/// ```
/// are_elements(&[0xa0, 0x03, 0x02, 0x01, 0x05], Rules::Der, 2)   // true
/// are_elements(&[0xa0, 0x03, 0x02, 0x02, 0x05], Rules::Der, 2)   // false: [0] holds a part of an INTEGER
/// ```
pub fn are_elements(octets: &[u8], rules: Rules, max_depth: usize) -> bool
    ensures { IsTrue result ↔ AreElements rules max_depth octets.now }
{
    let mut tape = Tape::<Element>::new(&mut []);
    read_elements::<Element, false>(octets, octets.len(), rules, max_depth, &mut tape)
}

/// Whether octets are one element, and nothing else.
pub fn is_element(octets: &[u8], rules: Rules, max_depth: usize) -> bool
    ensures { IsTrue result ↔ IsElement rules max_depth octets.now }
{
    match check_element(octets, rules, max_depth) {
        Some(after) => after.is_empty(),
        None => false,
    }
}

/// What follows the element at the start of the input, if there is one.
///
/// ```
/// check_element(&[0x05, 0x00, 0x05], Rules::Der, 1)   // Some(&[0x05])
/// ```
pub fn check_element(octets: &[u8], rules: Rules, max_depth: usize) -> Option<&[u8]>
    ensures exactly { Finds (BeginsWithElement rules max_depth octets.now) result }
    ensures shorter { IfSome result (λ rest. length rest.now < length octets.now) }
{
    let mut tape = Tape::<Element>::new(&mut []);
    read_element::<Element, false>(octets, octets.len(), rules, max_depth, &mut tape)
}

/// Lists the element at the start of the input, if there is one, and those inside it, in preorder. The slots keep the
/// first of them, as many as fit. If there is none, what the slots hold is unspecified.
///
/// ```
/// let Listed { elements, rest } = list_element(input, Rules::Der, 50, &mut slots)?;
/// let whole = slots.get(..elements); // None: there are too few slots
/// ```
pub fn list_element<'a, N: Slot>(
    octets: &'a [u8],
    rules: Rules,
    max_depth: usize,
    slots: &mut [N],
) -> Option<Listed<'a>>
    ensures exactly { Finds (BeginsWithElement rules max_depth octets.now) (option_map (λ x. x.rest) result) }
    ensures listed { IfSome result (λ x.
        ListsElement rules N.slot max_depth octets.now x.rest.now x.elements slots.old slots.new) }
    ensures shorter { IfSome result (λ x. length x.rest.now < length octets.now) }
    ensures within { IfSome result (λ x. x.elements + length x.rest.now ≤ length octets.now) }
{
    let mut tape = Tape::new(slots);
    list_element_onto(octets, rules, max_depth, &mut tape)
}

/// `list_element` on an empty tape.
fn list_element_onto<'a, N: Slot>(
    octets: &'a [u8],
    rules: Rules,
    max_depth: usize,
    tape: &mut Tape<'_, N>,
) -> Option<Listed<'a>>
    requires { tape.old.count ≡ 0 }
    ensures same { tape.new.slots.ghost_name ≡ tape.old.slots.ghost_name }
    ensures exactly { Finds (BeginsWithElement rules max_depth octets.now) (option_map (λ x. x.rest) result) }
    ensures listed { IfSome result (λ x. ListsElement rules N.slot max_depth octets.now x.rest.now x.elements
        tape.old.slots.now tape.new.slots.now) }
    ensures shorter { IfSome result (λ x. length x.rest.now < length octets.now) }
    ensures within { IfSome result (λ x. x.elements + length x.rest.now ≤ length octets.now) }
{
    match read_element::<N, true>(octets, octets.len(), rules, max_depth, tape) {
        Some(rest) => Some(Listed {
            elements: tape.count,
            rest,
        }),
        None => None,
    }
}

/// Lists elements that stand one after another in the octets, and those inside them, in preorder. Returns how many
/// there are, whatever the capacity. The slots keep the first of them, as many as fit. None if the octets aren't
/// elements: what the slots hold is unspecified then.
pub fn list_elements<N: Slot>(
    octets: &[u8],
    rules: Rules,
    max_depth: usize,
    slots: &mut [N],
) -> Option<usize>
    ensures exactly { IsSome result ↔ AreElements rules max_depth octets.now }
    ensures listed { IfSome result (λ n.
        ListsElements rules N.slot max_depth octets.now n slots.old slots.new) }
    ensures within { IfSome result (λ n. n ≤ length octets.now) }
{
    let mut tape = Tape::new(slots);
    list_elements_onto(octets, rules, max_depth, &mut tape)
}

/// `list_elements` on an empty tape.
fn list_elements_onto<N: Slot>(
    octets: &[u8],
    rules: Rules,
    max_depth: usize,
    tape: &mut Tape<'_, N>,
) -> Option<usize>
    requires { tape.old.count ≡ 0 }
    ensures same { tape.new.slots.ghost_name ≡ tape.old.slots.ghost_name }
    ensures exactly { IsSome result ↔ AreElements rules max_depth octets.now }
    ensures listed { IfSome result (λ n.
        ListsElements rules N.slot max_depth octets.now n tape.old.slots.now tape.new.slots.now) }
    ensures within { IfSome result (λ n. n ≤ length octets.now) }
{
    if read_elements::<N, true>(octets, octets.len(), rules, max_depth, tape) {
        Some(tape.count)
    } else {
        None
    }
}
