//! Laws of what is read. Each function's contract is a law, and its body is empty.
ghost use Rattle.der_readers.specs.Ber.Laws.{WrittenSpells, WrittenIsReadBack};

/// What `to_vec` writes of an object that was read by BER is read back: it is an encoding of an equal object, to the
/// same depth, and nothing else is read from it (X.690 8.1).
pub fn written_is_read_back()
    ensures spells { WrittenSpells }
    ensures back { WrittenIsReadBack }
{}
