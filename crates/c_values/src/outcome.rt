//! Outcomes of element readers for C.
ghost use Rattle.std.specs.Prelude.{◌≡◌, ◌≤◌, IfOk, MatchResult, length as length_of};
ghost use Rattle.c_values.specs.Elements.{kept_slot};
ghost use Rattle.c_values.specs.Outcomes.{error_outcome, fault_outcome, incomplete_outcome, no_room_outcome};
ghost use Rattle.c_values.specs.Outcomes.{outcome_of_first, outcome_of_written, read_outcome, refused_outcome};

use crate::element::{DmElement, first_element};
use crate::errors::{cause_number, refusal_number};
use der_base::any::Any;
use der_base::error::{BerError, Err, IResult, Needed};
use der_canon::NotCanonical;
use der_elements::Cause;

/// The outcome of an element reader. Fields that the status doesn't name are 0.
#[repr(C)]
#[derive(Clone, Copy)]
pub struct DmOutcome {
    /// Status 0: the number of elements.
    pub elements: usize,
    /// Status 0: the number of their octets. Status 3: the number that is needed.
    pub length: usize,
    /// Status 1: the offset of the innermost element that shows the error.
    pub place: usize,
    /// Status 2: the number of missing octets, as far as the input shows.
    pub missing: usize,
    /// 0 if the input begins with an element, 1 for an error, 2 if the input is cut, 3 if the buffer is too small.
    pub status: u32,
    /// Status 1: the number of the error.
    pub error: u32,
}

/// The outcome of this number of elements and octets.
pub(crate) fn read_outcome(elements: usize, length: usize) -> DmOutcome
    ensures { result ≡ read_outcome elements length }
{
    DmOutcome {
        elements,
        length,
        place: 0,
        missing: 0,
        status: 0,
        error: 0,
    }
}

/// The outcome of an error or a cut input.
fn refused_outcome(refused: Err<BerError>, place: usize) -> DmOutcome
    ensures { result ≡ refused_outcome refused place }
{
    match refused {
        Err::Error(e) => error_outcome(refusal_number(e), place),
        Err::Incomplete(Needed::Size(missing)) => incomplete_outcome(missing),
        // No reader here returns any of these.
        Err::Incomplete(Needed::Unknown) | Err::Failure(_) | Err::OutOfMemory => {
            error_outcome(0, place)
        }
    }
}

/// The outcome of an error.
fn error_outcome(error: u32, place: usize) -> DmOutcome
    ensures { result ≡ error_outcome error place }
{
    DmOutcome {
        elements: 0,
        length: 0,
        place,
        missing: 0,
        status: 1,
        error,
    }
}

/// The outcome of an input that lacks this number of octets.
fn incomplete_outcome(missing: usize) -> DmOutcome
    ensures { result ≡ incomplete_outcome missing }
{
    DmOutcome {
        elements: 0,
        length: 0,
        place: 0,
        missing,
        status: 2,
        error: 0,
    }
}

/// The outcome of a buffer smaller than this number of octets.
fn no_room_outcome(length: usize) -> DmOutcome
    ensures { result ≡ no_room_outcome length }
{
    DmOutcome {
        elements: 0,
        length,
        place: 0,
        missing: 0,
        status: 3,
        error: 0,
    }
}

/// The outcome of a fault: its cause, and the offset of its element.
pub(crate) fn fault_outcome(cause: Cause, offset: usize) -> DmOutcome
    ensures { result ≡ fault_outcome cause offset }
{
    match cause {
        Cause::Cut(missing) => incomplete_outcome(missing),
        _ => error_outcome(cause_number(cause), offset),
    }
}

/// Writes the first element, whose header alone was read. Returns the outcome.
pub fn outcome_of_first(
    size: usize,
    found: IResult<&[u8], Any<'_>, BerError>,
    element: &mut DmElement,
) -> DmOutcome
    requires { IfOk found (λ x. length_of x.0.now ≤ size) }
    ensures outcome { result ≡ outcome_of_first size found.entry }
    ensures element { MatchResult found.entry (λ x. element.new ≡ kept_slot size x) (λ e. element.new ≡ element.old) }
{
    match found {
        Ok((rest, any)) => {
            let length = size - rest.len();
            *element = first_element(length, &any.header, any.bytes.len());
            read_outcome(1, length)
        }
        Err(refused) => refused_outcome(refused, 0),
    }
}

/// The outcome of writing elements to a buffer of this capacity.
pub fn outcome_of_written(room: usize, found: Result<usize, NotCanonical>) -> DmOutcome
    ensures { result ≡ outcome_of_written room found }
{
    match found {
        Ok(length) if length <= room => read_outcome(0, length),
        Ok(length) => no_room_outcome(length),
        Err(refused) => fault_outcome(refused.cause, refused.offset),
    }
}
