//! Laws of the formats. Each function's contract is a law, and its body is empty.
ghost use Rattle.der_extensions.specs.Laws.{SameNames};

/// The Name in a GeneralName is the Name of a certificate.
pub fn names_are_those_of_certificates()
    ensures { SameNames }
{}
