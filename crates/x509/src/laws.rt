//! Laws of what was read. Each function's contract is a law; its body is empty.
ghost use Rattle.x509.specs.Laws.{NamesHaveThem, NoneIsLeft, SetsAreRelativeNames};
ghost use Rattle.x509.specs.Laws.{OrderIsOfAttributes, RepetitionIsOfIdentifiers, SignedOctetsAreRead};
ghost use Rattle.x509.specs.Laws.{ValuesAreOfAttributes};

/// `RelativeNames` yields all relative names of a name that was read, in order.
pub fn sets_are_relative_names()
    ensures of_a_name { NamesHaveThem }
    ensures each { SetsAreRelativeNames }
    ensures all { NoneIsLeft }
{}

/// In a certificate that was read, the rules on lists are about its attributes and extensions.
pub fn rules_are_of_what_was_read()
    ensures order { OrderIsOfAttributes }
    ensures repetition { RepetitionIsOfIdentifiers }
    ensures values { ValuesAreOfAttributes }
{}

/// The signed octets encode the fields that were read: reading them again gives the same.
pub fn signed_octets_are_read()
    ensures { SignedOctetsAreRead }
{}
