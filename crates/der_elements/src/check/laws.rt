//! The law of listed elements. The function's contract is the law, and its body is empty.
ghost use Rattle.der_elements.specs.Check.Laws.{OneListOfElement, OneListOfElements};

/// Octets have one list of elements. So what the slots keep after a call follows from the octets and the slots before.
/// What DER lists, BER lists too.
pub fn elements_have_one_list()
    ensures all { OneListOfElements }
    ensures one { OneListOfElement }
{}
