//! The first elements of an input, which rule out most types.
ghost use Rattle.std.specs.Prelude.{◌≡◌, ◌≤◌, length, take};
ghost use Rattle.std.specs.List.{All};

use crate::namer::Namer;
use crate::schema::{Class, Schema};
use der_base::rules::Rules;
use der_elements::{Element, Walk};

/// The most elements that are read.
const MAX_FIRST: usize = 4;

/// The value of unused entries.
const NO_ELEMENT: Element<'static> = Element {
    class: Class::Universal,
    constructed: false,
    number: 0,
    identifier: &[],
    offset: 0,
    header: 0,
    length: None,
    content: None,
    depth: 0,
    index: 0,
    holds: None,
    breaks_its_type: false,
};

/// The first elements of an input.
#[derive(Drop)]
pub(crate) struct Beginning<'a> {
    elements: [Element<'a>; MAX_FIRST],
    len: usize,
    ghost bounded: { len ≤ 4 },
    ghost sized: { length elements ≡ 4 },
    ghost shallow: { All (λ e. e.depth ≤ 100) (take len elements) },
}

impl<'a> Beginning<'a> {
    ghost use Rattle.std.specs.Prelude.{IsTrue};
    ghost use Rattle.der_base.specs.declared.rules.Rules.{Rules};
    ghost use Rattle.der_schema.specs.Beginnings.{BeginsWith, first_elements};
    ghost use Rattle.der_schema.specs.Known.{IsOfType};
    ghost use Rattle.der_schema.specs.Meaning.{root_of};

    /// The first elements of an input by these rules, also those inside strings.
    pub(crate) fn of(input: &'a [u8], rules: Rules) -> Beginning<'a>
        ensures { BeginsWith rules input.now (first_elements result) }
    {
        let mut walk = Walk::new(input, rules, true).keeping_values();
        let mut elements = [NO_ELEMENT; MAX_FIRST];
        let mut len = 0;
        'elements: while len < MAX_FIRST {
            match walk.next_element() {
                Ok(Some(element)) => {
                    elements[len] = element;
                    len += 1;
                }
                Ok(None) | Err(_) => return Beginning { elements, len },
            }
        }
        Beginning { elements, len }
    }

    /// Whether the input that begins with these elements may be of this type: each of them has a name. If not, it isn't
    /// of this type.
    pub(crate) fn may_be<'x>(&self, input: &'x [u8], schema: Schema<'x>) -> bool
        ensures { (r : Rules) → BeginsWith r input.now (first_elements self.now)
            → IsOfType (root_of schema.entry) r input.now → IsTrue result }
    {
        let mut namer = Namer::new(input, schema);
        let mut index = 0;
        'elements: while index < self.len {
            let element = self.elements[index];
            if namer.name_of(&element).is_none() {
                return false;
            }
            index += 1;
        }
        true
    }
}
