//! Lists the elements of an input for C, by DER or BER.
ghost use Rattle.std.specs.Prelude.{min};
ghost use Rattle.c_values.specs.Outcomes.{Lists, greatest_depth};

use crate::element::DmElement;
use crate::outcome::{DmOutcome, fault_outcome, read_outcome};
use der_base::rules::Rules;
use der_elements::check::list_element;
use der_elements::{MAX_DEPTH, first_fault};

/// The greatest depth of an element, counting itself and those around it.
const GREATEST_DEPTH: usize = MAX_DEPTH + 1;

/// Reads the first element and writes it and those inside to the buffer, as far as its capacity allows. If it is
/// invalid, the outcome is that of its first fault.
pub fn list(input: &[u8], rules: Rules, max_depth: usize, elements: &mut [DmElement]) -> DmOutcome
    ensures { Lists rules (min max_depth greatest_depth) input.now elements.old elements.new result }
{
    let depth = max_depth.min(GREATEST_DEPTH);
    match list_element(input, rules, depth, elements) {
        Some(listed) => read_outcome(listed.elements, input.len() - listed.rest.len()),
        None => {
            let fault = first_fault(input, rules, depth);
            fault_outcome(fault.cause, fault.offset)
        }
    }
}
