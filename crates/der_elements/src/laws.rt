//! Laws of the elements that a walk visits. Each function has a law as its contract and an empty body.
ghost use Rattle.der_elements.specs.Laws.{FaultsNever, FaultsOfNever, FaultsOfOnce, FaultsOnce};
ghost use Rattle.der_elements.specs.Laws.{VisitsElements, VisitsOnce, VisitsWithin};

/// If no visited value breaks a rule of its type, the octets are valid elements.
pub fn visits_elements()
    ensures { VisitsElements }
{}

/// The header and the content of each visited element lie within the octets, and its depth is within the limit.
pub fn visits_within()
    ensures { VisitsWithin }
{}

/// A walk visits the same octets in only one way.
pub fn visits_once()
    ensures { VisitsOnce }
{}

/// Octets have at most one first fault.
pub fn faults_once()
    ensures input { FaultsOnce }
    ensures element { FaultsOfOnce }
{}

/// Octets with a fault aren't valid elements.
pub fn faults_never()
    ensures input { FaultsNever }
    ensures element { FaultsOfNever }
{}
