//! Laws of how an input matches a type. Each function has a law as its contract and an empty body.
ghost use Rattle.text_json.specs.Fields.Fields.{FitsInOneWay};

/// An input matches a type in only one way: two `Named` values for it are the same, or both are `Refused`.
pub fn fits_in_one_way()
    ensures { FitsInOneWay }
{}
