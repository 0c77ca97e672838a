//! Laws of what is read. Each function's contract is a law, and its body is empty.
ghost use Rattle.der_readers.specs.Der.Laws.{WrittenIsFront, WrittenSpells, WrittenIsReadBack};

/// For an object that was read by DER, `to_vec` writes the octets that it was read from. They are
/// read back as an equal object, by DER and by BER, to the same depth (X.690 10).
pub fn written_is_what_was_read()
    ensures front { WrittenIsFront }
    ensures spells { WrittenSpells }
    ensures back { WrittenIsReadBack }
{}
