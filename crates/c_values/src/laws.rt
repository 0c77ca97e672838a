//! Laws of the values that C gets. Each function's contract is a law; its body is empty.
ghost use Rattle.c_values.specs.Laws.{BerFirstLiesWithin, DerFirstLiesWithin, ElementsLieWithin, FinishedIsWritten};
ghost use Rattle.c_values.specs.Laws.{TimesAreDer};

/// The elements that a call writes lie within the input: header, content and end have ascending offsets up to its
/// length.
pub fn elements_lie_within()
    ensures { ElementsLieWithin }
{}

/// The first element that a call writes lies within the input.
pub fn first_lies_within()
    ensures der { DerFirstLiesWithin }
    ensures ber { BerFirstLiesWithin }
{}

/// The buffer of a finished writer begins with the octets that were put, and its rest is unchanged. If it is too small,
/// the octets are counted.
pub fn finished_is_written()
    ensures { FinishedIsWritten }
{}

/// A time that is put is a time in DER, so a DER reader reads it (`leaves_spell` of der_writer).
pub fn times_are_der()
    ensures { TimesAreDer }
{}
