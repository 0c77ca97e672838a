//! Reading elements into a vector, which has capacity for all of them.
ghost use Rattle.der_parser.specs.Viewing.Vectors.{ReadsElement};

use der_base::header::Class;
use der_base::rules::Rules;
use der_elements::check::{Element, list_element};
use std::alloc::{AllocError, Global};

/// What the vector holds before the elements are read.
const NO_ELEMENT: Element = Element {
    class: Class::Universal,
    constructed: false,
    definite: true,
    number: 0,
    header: 0,
    content: 0,
    end: 0,
    inside: 0,
};

/// Reads the element at the start of the input, if there is one, and those inside it, by the rules of X.690. Returns
/// what follows it, and the elements in preorder, beginning with itself. It counts them first and allocates once.
///
/// ```
/// let (rest, elements) = read_element(alloc, input, Rules::Der, 50)?.ok_or(NoElement)?;
/// let nodes = Nodes::new(input, &elements);
/// ```
pub fn read_element<'a>(
    alloc: Global,
    input: &'a [u8],
    rules: Rules,
    max_depth: usize,
) -> Result<Option<(&'a [u8], Vec<Element>)>, AllocError>
    ensures { ReadsElement rules max_depth input.now result }
{
    let Some(counted) = list_element::<Element>(input, rules, max_depth, &mut []) else {
        return Ok(None);
    };
    let mut elements = vec![in alloc; NO_ELEMENT; counted.elements]?;
    match list_element(input, rules, max_depth, &mut elements) {
        Some(listed) => Ok(Some((listed.rest, elements))),
        None => Ok(None),
    }
}
