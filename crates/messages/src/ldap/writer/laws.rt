//! Laws of what is written. Each function's contract is a law; its body is empty.
ghost use Rattle.messages.specs.Ldap.Writer.Formats.{SearchesAreWritten, SearchesEncode};

/// A written search is read with the values that were put.
pub fn searches_encode()
    ensures { SearchesEncode }
{}

/// If these values are read by DER, the octets are the written search.
pub fn searches_are_written()
    ensures { SearchesAreWritten }
{}
