//! Laws by name: each law of `der_parser` is stated here as the contract of a function that only calls it. If the name
//! stood for another law, the function wouldn't be proved.
ghost use Rattle.std.specs.Cmp.{IsEquivalence};
ghost use Rattle.std.specs.Prelude.{◌≡◌};
ghost use Rattle.der_parser.specs.declared.Rules.{Rules};
ghost use Rattle.der_parser.specs.BerLaws.{WrittenSpells as BerWrittenSpells, WrittenIsReadBack as BerIsReadBack};
ghost use Rattle.der_parser.specs.Bits.{AreAlikeBits};
ghost use Rattle.der_parser.specs.CheckLaws.{OneListOfElement, OneListOfElements};
ghost use Rattle.der_parser.specs.Containers.{Opens, Refuses};
ghost use Rattle.der_parser.specs.Copies.{AlwaysSo, AreAlikeHeaders, AreTheValue, EqualsAre};
ghost use Rattle.der_parser.specs.CursorLaws.{EndsStand, NewStand, OpenedStand, PlacesCount};
ghost use Rattle.der_parser.specs.DerLaws.{WrittenIsFront, WrittenSpells, WrittenIsReadBack};
ghost use Rattle.der_parser.specs.Fault.{DerShowsFault, ShowsFault};
ghost use Rattle.der_parser.specs.Laws.{AcceptedAreWritten, AppendedLeaveFaults, AppendedLengthenBerHeaders};
ghost use Rattle.der_parser.specs.Laws.{AppendedLengthenDerHeaders, AppendedLengthenRests, AreWrittenForOne};
ghost use Rattle.der_parser.specs.Laws.{BerFrontsAreCut, BerHeaderFrontsAreCut, BerRefusedBeginsNone};
ghost use Rattle.der_parser.specs.Laws.{ContentsPassBer, DerFrontsAreCut, DerHeaderFrontsAreCut, DerIsWithinBer};
ghost use Rattle.der_parser.specs.Laws.{DerRefusedBeginsNone, DerSpellingsShowNoFault, ElementsPass};
ghost use Rattle.der_parser.specs.Laws.{EncodingIsNormalForm, EncodingsDoNotTie, FaultsAreOne, GroupsAreShortest};
ghost use Rattle.der_parser.specs.Laws.{HaveOneBerRefusal, HaveOneContent, HaveOneDerRefusal, HaveOneNumberRefusal};
ghost use Rattle.der_parser.specs.Laws.{IntegersAreShortest, LengthsAreShortest, LengthsShowInHeaders};
ghost use Rattle.der_parser.specs.Laws.{MinimalIsShortest, NumberOrRefused, NumbersFit, NumbersPass};
ghost use Rattle.der_parser.specs.Laws.{OctetsAreShortest, OpenedPass, OpensInOneWay, ReadOrRefusedByBer};
ghost use Rattle.der_parser.specs.Laws.{SetOfHasOneOrder, SpellingsAreOne, SpellingsShowNoFault};
ghost use Rattle.der_parser.specs.Laws.{UnusedBitsAreLast, WrittenOrRefusedByDer, WrittenPassDer};
ghost use Rattle.der_parser.specs.OidArcs.{ArcsComeBack};
ghost use Rattle.der_parser.specs.Spelling.{BeginsWithBer, BeginsWithDer};
ghost use Rattle.der_parser.specs.TreeEquality.{same_node};
ghost use Rattle.der_parser.specs.View.{HaveOneTree};
ghost use Rattle.der_parser.specs.ViewLaws.{DerTreesShow, ElementShows, ElementsShow, OneTree};
ghost use Rattle.der_parser.specs.ViewLaws.{OneTreeOfContents, OneValue, ValueOrFault};

use der_parser::ber::{BerObject, BitStringObject, Class, Header};
use der_parser::cursor::Cursor;
use der_parser::error::{BerError, ParseError};
use der_parser::laws;

fn clones_are_the_value()
    ensures class { AreTheValue ⟦<Class as Clone>⟧.is_clone }
{
    laws::clones_are_the_value()
}

fn clones_want_no_memory()
    ensures class { AlwaysSo ⟦<Class as Clone>⟧.is_infallible }
{
    laws::clones_want_no_memory()
}

fn equals_are_the_same()
    ensures class { EqualsAre ◌≡◌ ⟦<Class as PartialEq>⟧.eq }
{
    laws::equals_are_the_same()
}

fn equals_are_alike()
    ensures header { EqualsAre AreAlikeHeaders ⟦<Header<'static> as PartialEq>⟧.eq }
    ensures trees { IsEquivalence same_node }
{
    laws::equals_are_alike()
}

fn equals_have_one_tree()
    ensures object { EqualsAre HaveOneTree ⟦<BerObject<'static> as PartialEq>⟧.eq }
{
    laws::equals_have_one_tree()
}

fn small_clones_are_the_value()
    ensures bits { AreTheValue ⟦<BitStringObject<'static> as Clone>⟧.is_clone }
    ensures equal_bits { EqualsAre AreAlikeBits ⟦<BitStringObject<'static> as PartialEq>⟧.eq }
{
    laws::small_clones_are_the_value()
}

fn arcs_come_back()
    ensures { ArcsComeBack }
{
    laws::arcs_come_back()
}

fn written_is_read_back()
    ensures spells { BerWrittenSpells }
    ensures back { BerIsReadBack }
{
    laws::written_is_read_back()
}

fn written_is_what_was_read()
    ensures front { WrittenIsFront }
    ensures spells { WrittenSpells }
    ensures back { WrittenIsReadBack }
{
    laws::written_is_what_was_read()
}

fn places_are_exact()
    ensures places { PlacesCount }
    ensures new { NewStand }
    ensures read { EndsStand }
    ensures opened { OpenedStand }
{
    laws::places_are_exact()
}

fn one_content()
    ensures ber { HaveOneContent }
    ensures der { AreWrittenForOne }
{
    laws::one_content()
}

fn one_refusal()
    ensures ber { HaveOneBerRefusal }
    ensures der { HaveOneDerRefusal }
{
    laws::one_refusal()
}

fn never_both()
    ensures ber { ContentsPassBer }
    ensures der { WrittenPassDer }
{
    laws::never_both()
}

fn always_one()
    ensures ber { ReadOrRefusedByBer }
    ensures der { WrittenOrRefusedByDer }
    ensures written { AcceptedAreWritten }
{
    laws::always_one()
}

fn numbers_fit_or_are_refused()
    ensures always { NumberOrRefused }
    ensures never_both { NumbersPass }
    ensures once { HaveOneNumberRefusal }
    ensures fits { NumbersFit }
{
    laws::numbers_fit_or_are_refused()
}

fn lengths_are_shortest()
    ensures number { OctetsAreShortest }
    ensures length { LengthsAreShortest }
{
    laws::lengths_are_shortest()
}

fn integers_are_shortest()
    ensures written { IntegersAreShortest }
    ensures minimal { MinimalIsShortest }
{
    laws::integers_are_shortest()
}

fn tag_numbers_are_shortest()
    ensures { GroupsAreShortest }
{
    laws::tag_numbers_are_shortest()
}

fn unused_bits_are_last()
    ensures { UnusedBitsAreLast }
{
    laws::unused_bits_are_last()
}

fn der_is_within_ber()
    ensures { DerIsWithinBer }
{
    laws::der_is_within_ber()
}

fn spellings_are_one()
    ensures { SpellingsAreOne }
{
    laws::spellings_are_one()
}

fn faults_are_one()
    ensures ber { FaultsAreOne ShowsFault }
    ensures der { FaultsAreOne DerShowsFault }
    ensures spelled { SpellingsShowNoFault }
    ensures der_spelled { DerSpellingsShowNoFault }
{
    laws::faults_are_one()
}

fn appended_only_lengthen()
    ensures ber { AppendedLeaveFaults ShowsFault }
    ensures der { AppendedLeaveFaults DerShowsFault }
    ensures spelled { AppendedLengthenRests BeginsWithBer }
    ensures der_spelled { AppendedLengthenRests BeginsWithDer }
{
    laws::appended_only_lengthen()
}

fn refused_headers_stay_refused()
    ensures ber { BerRefusedBeginsNone }
    ensures der { DerRefusedBeginsNone }
{
    laws::refused_headers_stay_refused()
}

fn appended_lengthen_headers()
    ensures ber { AppendedLengthenBerHeaders }
    ensures der { AppendedLengthenDerHeaders }
{
    laws::appended_lengthen_headers()
}

fn header_fronts_are_cut()
    ensures ber { BerHeaderFrontsAreCut }
    ensures der { DerHeaderFrontsAreCut }
{
    laws::header_fronts_are_cut()
}

fn fronts_are_cut()
    ensures ber { BerFrontsAreCut }
    ensures der { DerFrontsAreCut }
{
    laws::fronts_are_cut()
}

fn encoding_is_normal_form()
    ensures { EncodingIsNormalForm }
{
    laws::encoding_is_normal_form()
}

fn opened_in_one_way()
    ensures { (rules : Rules) → OpensInOneWay (Opens rules) }
{
    laws::opened_in_one_way()
}

fn opened_never_refused<'a, E>()
where
    E: ParseError<&'a [u8]> + From<BerError>,
    ensures { (rules : Rules) → OpenedPass (Opens rules)
        (Refuses rules E.from_error_kind_gives E.from_gives) }
{
    laws::opened_never_refused::<E>()
}

fn elements_are_never_refused<'a, E>()
where
    E: ParseError<&'a [u8]> + From<BerError>,
    ensures { (rules : Rules) → ElementsPass rules
        (λ n. Refuses rules E.from_error_kind_gives E.from_gives) }
{
    laws::elements_are_never_refused::<E>()
}

fn cursor_clones_are_the_value()
    ensures cursor { AreTheValue ⟦<Cursor<'static> as Clone>⟧.is_clone }
{
    laws::cursor_clones_are_the_value()
}

fn set_of_has_one_order()
    ensures no_tie { EncodingsDoNotTie }
    ensures one_order { SetOfHasOneOrder }
{
    laws::set_of_has_one_order()
}

fn lengths_show_in_headers()
    ensures { LengthsShowInHeaders }
{
    laws::lengths_show_in_headers()
}

fn elements_have_one_list()
    ensures all { OneListOfElements }
    ensures one { OneListOfElement }
{
    laws::elements_have_one_list()
}

fn values_are_one()
    ensures value { OneValue }
    ensures no_fault { ValueOrFault }
{
    laws::values_are_one()
}

fn elements_show()
    ensures all { ElementsShow }
    ensures one { ElementShows }
{
    laws::elements_show()
}

fn der_trees_show()
    ensures { DerTreesShow }
{
    laws::der_trees_show()
}

fn nodes_show_one_tree()
    ensures tree { OneTree }
    ensures of_contents { OneTreeOfContents }
{
    laws::nodes_show_one_tree()
}
