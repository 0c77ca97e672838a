//! The first fault of an input that doesn't begin with a valid element.
ghost use Rattle.std.specs.Prelude.{◌≤◌, ℕ, List};
ghost use Rattle.der_elements.specs.Check.Readers.{BeginsWithElement};
ghost use Rattle.der_elements.specs.FirstFault.{IsFirstFaultOf};

use crate::cause::Cause;
use crate::error::ElementError;
use crate::walk::Walk;
use der_base::rules::Rules;

/// The least number of octets in an element (X.690 8.1.1).
const SHORTEST: usize = 2;

/// The first fault of the element at the start of the input. The input must not begin with a valid element whose depth
/// is within `max_depth`. What follows the element doesn't matter.
///
/// Elements inside may have fewer than `max_depth` elements around them. One that is deeper has the cause `TooDeep`,
/// unless its header or its length is at fault. A truncated input has the cause `Cut`. An empty one lacks two octets.
pub fn first_fault(octets: &[u8], rules: Rules, max_depth: usize) -> ElementError
    requires none { (rest : List ℕ) → ¬ BeginsWithElement rules max_depth octets.now rest }
    requires depth { max_depth ≤ 101 }
    ensures { IsFirstFaultOf rules max_depth octets.now result }
{
    let mut walk = Walk::new(octets, rules, false);
    'elements: loop {
        match walk.next_within(max_depth) {
            Ok(Some(_)) => {}
            Ok(None) => return ElementError::at(0, Cause::Cut(SHORTEST)),
            Err(refusal) => return refusal,
        }
    }
}
