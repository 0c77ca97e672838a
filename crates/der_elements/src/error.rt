//! Where and why a walk stops before the end of its input.
ghost use Rattle.std.specs.Prelude.{◌≡◌, IsSomeAnd, None};
ghost use Rattle.der_elements.specs.Faults.{IsStep};

use crate::cause::Cause;
use crate::element::Element;
use crate::path::Step;

/// Where and why a walk stops before the end of its input.
#[derive(Clone, Copy, Debug, PartialEq)]
pub struct ElementError {
    /// The offset of the rejected element, or of the end of an input that is truncated before an element.
    pub offset: usize,
    /// The rejected element, if its header was read.
    pub step: Option<Step>,
    pub cause: Cause,
}

impl ElementError {
    /// The error at an element whose header can't be read, or at the end of the input.
    pub(crate) fn at(offset: usize, cause: Cause) -> ElementError
        ensures { result ≡ record { offset = offset; step = None; cause = cause } }
    {
        ElementError {
            offset,
            step: None,
            cause,
        }
    }

    /// The error at an element whose header was read.
    pub(crate) fn of(element: &Element<'_>, cause: Cause) -> ElementError
        ensures offset { result.offset ≡ element.now.offset }
        ensures cause { result.cause ≡ cause }
        ensures step { IsSomeAnd result.step (λ s. IsStep s element.now.class element.now.number element.now.index) }
    {
        ElementError {
            offset: element.offset,
            step: Some(element.step()),
            cause,
        }
    }
}
