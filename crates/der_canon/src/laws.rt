//! Laws of what is written. Each function has a law as its contract and an empty body.
ghost use Rattle.der_canon.specs.Laws.{SizesOnce};

/// The elements of an input have one number of octets in DER.
pub fn sizes_once()
    ensures { SizesOnce }
{}
