//! What a writer puts is read by the formats of der_cursor. Each function's contract is a law, and its body is empty.
ghost use Rattle.der_writer.specs.Formats.Encodings.{ValuesAreWritten, ValuesEncode};

/// The value that a call of the writer puts is the value that a cursor reads. The lemmas of formats are in
/// `proofs/Encoded`.
pub fn values_encode()
    ensures { ValuesEncode }
{}

/// What a cursor reads by DER is what the writer puts for the value. The lemmas of formats are in `proofs/Read`.
pub fn values_are_written()
    ensures { ValuesAreWritten }
{}
