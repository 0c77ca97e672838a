//! Laws of names. Each function has a law as its contract and an empty body.
ghost use Rattle.der_schema.specs.Ends.{WholeInPreorder};
ghost use Rattle.der_schema.specs.Opened.{NamesInPreorder};
ghost use Rattle.der_schema.specs.Readings.{NamedIsExpected};

/// A namer gives each element in preorder the name that it has in the tree.
pub fn names_in_preorder()
    ensures { NamesInPreorder }
{}

/// If each element has a name, the elements are an encoding of the type, with these names.
pub fn named_is_expected()
    ensures { NamedIsExpected }
{}

/// What a namer tells at the end of an input holds for its tree.
pub fn whole_in_preorder()
    ensures { WholeInPreorder }
{}
