//! Laws of what is written. Each function's contract is a law, and its body is empty.
ghost use Rattle.der_writer.specs.Laws.{BitsSpell, ElementsBegin, FieldsSpell, LeavesSpell, NumbersSpell};
ghost use Rattle.der_writer.specs.Laws.{SequencesSpell, SetsOfSpell, SetsSpell, TaggedSpell};

/// Fields that are DER encodings, closed under SEQUENCE or SET, are the DER encoding of a list of them; in ascending
/// order, also of a SET OF.
pub fn fields_spell()
    ensures fields { FieldsSpell }
    ensures sequences { SequencesSpell }
    ensures sets { SetsSpell }
    ensures sets_of { SetsOfSpell }
    ensures tagged { TaggedSpell }
{}

/// The element of a value is its DER encoding.
pub fn leaves_spell()
    ensures leaves { LeavesSpell }
    ensures numbers { NumbersSpell }
    ensures bits { BitsSpell }
{}

/// A cursor finds each element that was put.
pub fn elements_begin()
    ensures { ElementsBegin }
{}
