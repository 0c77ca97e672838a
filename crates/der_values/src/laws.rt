//! Laws of the definitions in `der_base/specs`. Each function has a law as its contract and an empty
//! body. `proofs/` has the lemmas that the readers of BER and DER share, and the worked rows.
ghost use Rattle.der_base.specs.Laws.{
  HaveOneContent,
  AreWrittenForOne,
  HaveOneBerRefusal,
  HaveOneDerRefusal,
  ContentsPassBer,
  WrittenPassDer,
  ReadOrRefusedByBer,
  WrittenOrRefusedByDer,
  AcceptedAreWritten,
  OctetsAreShortest,
  LengthsAreShortest,
  IntegersAreShortest,
  MinimalIsShortest,
  GroupsAreShortest,
  UnusedBitsAreLast,
  DerIsWithinBer,
  SpellingsAreOne,
  FaultsAreOne,
  SpellingsShowNoFault,
  DerSpellingsShowNoFault,
  AppendedLeaveFaults,
  AppendedLengthenRests,
  BerRefusedBeginsNone,
  DerRefusedBeginsNone,
  AppendedLengthenBerHeaders,
  AppendedLengthenDerHeaders,
  BerHeaderFrontsAreCut,
  DerHeaderFrontsAreCut,
  BerFrontsAreCut,
  DerFrontsAreCut,
  EncodingIsNormalForm,
  OpensInOneWay,
  OpenedPass,
  ElementsPass,
  ExplicitElementsPass,
  LengthsShowInHeaders,
};
ghost use Rattle.der_base.specs.Laws.{NumberOrRefused, NumbersPass, HaveOneNumberRefusal, NumbersFit};
ghost use Rattle.der_base.specs.Laws.{EncodingsDoNotTie, SetOfHasOneOrder};
ghost use Rattle.std.specs.Prelude.{ℕ};
ghost use Rattle.der_base.specs.declared.rules.Rules.{Rules};
ghost use Rattle.der_base.specs.Containers.{Opens, OpensExplicit, OpensNumber};
ghost use Rattle.der_base.specs.Containers.{Refuses, RefusesExplicit, RefusesNumber};
ghost use Rattle.der_base.specs.Fault.{ShowsFault, DerShowsFault};
ghost use Rattle.der_base.specs.Spelling.{BeginsWithBer, BeginsWithDer};

use der_base::error::{BerError, ParseError};

/// Content octets of a universal type have at most one content by BER, and by DER.
pub fn one_content()
    ensures ber { HaveOneContent }
    ensures der { AreWrittenForOne }
{}

/// Rejected content octets have one error.
pub fn one_refusal()
    ensures ber { HaveOneBerRefusal }
    ensures der { HaveOneDerRefusal }
{}

/// No content octets both have a content and are rejected.
pub fn never_both()
    ensures ber { ContentsPassBer }
    ensures der { WrittenPassDer }
{}

/// Content octets of a universal type whose content is read, other than SEQUENCE and SET, have a content or are
/// rejected.
pub fn always_one()
    ensures ber { ReadOrRefusedByBer }
    ensures der { WrittenOrRefusedByDer }
    ensures written { AcceptedAreWritten }
{}

/// A content either has a number in the range of the Rust type, or is rejected with one error.
pub fn numbers_fit_or_are_refused()
    ensures always { NumberOrRefused }
    ensures never_both { NumbersPass }
    ensures once { HaveOneNumberRefusal }
    ensures fits { NumbersFit }
{}

/// The octets of a number and of a length are the fewest (X.690 10.1).
pub fn lengths_are_shortest()
    ensures number { OctetsAreShortest }
    ensures length { LengthsAreShortest }
{}

/// The content octets of an INTEGER and of an ENUMERATED are the fewest (X.690 8.3.2).
pub fn integers_are_shortest()
    ensures written { IntegersAreShortest }
    ensures minimal { MinimalIsShortest }
{}

/// The octets of a tag number of at least 31 are the fewest (X.690 8.1.2.4).
pub fn tag_numbers_are_shortest()
    ensures { GroupsAreShortest }
{}

/// The unused bits of a BIT STRING are those of its last octet (X.690 8.6.2, 11.2).
pub fn unused_bits_are_last()
    ensures { UnusedBitsAreLast }
{}

/// A DER encoding of a tree is a BER encoding of the same tree (X.690 10).
pub fn der_is_within_ber()
    ensures { DerIsWithinBer }
{}

/// At most one prefix of an input is a BER encoding, and octets are the encoding of at most one tree
/// (X.690 8.1).
pub fn spellings_are_one()
    ensures { SpellingsAreOne }
{}

/// An input has at most one error, and none if it begins with an encoding.
pub fn faults_are_one()
    ensures ber { FaultsAreOne ShowsFault }
    ensures der { FaultsAreOne DerShowsFault }
    ensures spelled { SpellingsShowNoFault }
    ensures der_spelled { DerSpellingsShowNoFault }
{}

/// Appending octets to an input doesn't change its error. If the input begins with an encoding, it only
/// lengthens the rest.
pub fn appended_only_lengthen()
    ensures ber { AppendedLeaveFaults ShowsFault }
    ensures der { AppendedLeaveFaults DerShowsFault }
    ensures spelled { AppendedLengthenRests BeginsWithBer }
    ensures der_spelled { AppendedLengthenRests BeginsWithDer }
{}

/// If a header is rejected, the input doesn't begin with a header, whatever octets are appended.
pub fn refused_headers_stay_refused()
    ensures ber { BerRefusedBeginsNone }
    ensures der { DerRefusedBeginsNone }
{}

/// Appending octets to an input that begins with a header only lengthens the rest.
pub fn appended_lengthen_headers()
    ensures ber { AppendedLengthenBerHeaders }
    ensures der { AppendedLengthenDerHeaders }
{}

/// Each proper prefix of a header is incomplete: it lacks some number of octets, and has no error.
pub fn header_fronts_are_cut()
    ensures ber { BerHeaderFrontsAreCut }
    ensures der { DerHeaderFrontsAreCut }
{}

/// Each proper prefix of an encoding is incomplete: it lacks some number of octets, and has no error.
pub fn fronts_are_cut()
    ensures ber { BerFrontsAreCut }
    ensures der { DerFrontsAreCut }
{}

/// What is written for a tree with a BER encoding is an encoding of it, and the same for all its encodings: a normal
/// form (X.690 8.1).
pub fn encoding_is_normal_form()
    ensures { EncodingIsNormalForm }
{}

/// An input begins with an element in only one way: it determines the header, the content and what follows.
pub fn opened_in_one_way()
    ensures { (rules : Rules) → OpensInOneWay (Opens rules) }
{}

/// A combinator doesn't reject an input that it opens, whether it takes any element, one of a tag number, or an
/// explicit tag. So it calls the caller's parser once iff it opens the input, and doesn't call it iff it rejects the
/// input.
pub fn opened_never_refused<'a, E>()
where
    E: ParseError<&'a [u8]> + From<BerError>,
    ensures any { (rules : Rules) → OpenedPass (Opens rules)
        (Refuses rules E.from_error_kind_gives E.from_gives) }
    ensures number { (rules : Rules) (n : ℕ) → OpenedPass (OpensNumber rules n)
        (RefusesNumber rules E.from_error_kind_gives E.from_gives n) }
    ensures explicit { (rules : Rules) (n : ℕ) → OpenedPass (OpensExplicit rules n)
        (RefusesExplicit rules E.from_error_kind_gives E.from_gives n) }
{}

/// An input that begins with an element isn't rejected by a combinator that takes any element, or the element's tag
/// number, or its explicit tag. So the combinator calls the parser that it keeps.
pub fn elements_are_never_refused<'a, E>()
where
    E: ParseError<&'a [u8]> + From<BerError>,
    ensures any { (rules : Rules) → ElementsPass rules
        (λ n. Refuses rules E.from_error_kind_gives E.from_gives) }
    ensures number { (rules : Rules) → ElementsPass rules
        (RefusesNumber rules E.from_error_kind_gives E.from_gives) }
    ensures explicit { (rules : Rules) → ExplicitElementsPass rules
        (RefusesExplicit rules E.from_error_kind_gives E.from_gives) }
{}

/// Two DER encodings are the same if neither is greater than the other. So the encodings in a SET OF,
/// counted with repeats, have exactly one ascending order (X.690 11.6).
pub fn set_of_has_one_order()
    ensures no_tie { EncodingsDoNotTie }
    ensures one_order { SetOfHasOneOrder }
{}

/// The text of an object shows the lengths of its headers only if it shows the headers. So a text
/// without headers depends on the tree alone.
pub fn lengths_show_in_headers()
    ensures { LengthsShowInHeaders }
{}
