//! The elements that were read. If nothing is listed, these calls are empty.
ghost use Rattle.std.specs.Prelude.{◌≡◌, ◌+◌, ◌-◌, ◌^◌, ◌<◌, ◌≤◌, [], ◌∷◌, IsTrue};
ghost use Rattle.der_elements.specs.Check.Overlay.{overlay};

use crate::check::element::{Element, Slot};

/// The elements that are read, in preorder.
#[derive(Drop)]
pub(crate) struct Tape<'n, N> {
    /// How many elements there are, whatever the capacity.
    pub count: usize,
    /// What keeps the first of them, as many as fit.
    pub slots: &'n mut [N],
}

impl<'n, N> Tape<'n, N> {
    /// An empty tape.
    pub(crate) fn new(slots: &'n mut [N]) -> Tape<'n, N>
        ensures same { result.slots.ghost_name ≡ slots.entry.ghost_name }
        ensures slots { result.slots.now ≡ slots.old }
        ensures count { result.count ≡ 0 }
    {
        Tape { count: 0, slots }
    }
}

/// Counts an element, before those inside it. Returns its number.
#[inline(always)]
pub(crate) fn begin<N, const LISTS: bool>(tape: &mut Tape<'_, N>) -> usize
    requires { tape.old.count < 2 ^ 64 - 1 }
    ensures same { tape.new.slots.ghost_name ≡ tape.old.slots.ghost_name }
    ensures slots { tape.new.slots.now ≡ tape.old.slots.now }
    ensures number { result ≡ tape.old.count }
    ensures counted { IsTrue LISTS → tape.new.count ≡ tape.old.count + 1 }
    ensures within { (tape.old.count ≤ tape.new.count) × (tape.new.count ≤ tape.old.count + 1) }
{
    if LISTS {
        tape.count += 1;
        return tape.count - 1;
    }
    tape.count
}

/// Lists the element of this number, after those inside it.
#[inline(always)]
pub(crate) fn list<N: Slot, const LISTS: bool>(
    tape: &mut Tape<'_, N>,
    number: usize,
    element: Element,
)
    requires { IsTrue LISTS → number < tape.old.count }
    ensures same { tape.new.slots.ghost_name ≡ tape.old.slots.ghost_name }
    ensures count { tape.new.count ≡ tape.old.count }
    ensures slots { IsTrue LISTS → tape.new.slots.now ≡ overlay tape.old.slots.now number
        (N.slot (record element { inside = tape.old.count - number - 1 }) ∷ []) }
{
    if LISTS {
        let inside = tape.count - number - 1;
        put(tape.slots, number, Element { inside, ..element });
    }
}

/// Keeps an element in the slot of this number, if there is one.
#[inline(always)]
fn put<N: Slot>(slots: &mut [N], number: usize, element: Element)
    ensures { slots.new ≡ overlay slots.old number (N.slot element ∷ []) }
{
    if number < slots.len() {
        slots[number] = N::keep(element);
    }
}
