//! Laws of the equality of objects. Each function's contract is a law, and its body is empty.
ghost use Rattle.std.specs.Cmp.{IsEquivalence};
ghost use Rattle.std.specs.Prelude.{◌≡◌};
ghost use Rattle.der_base.specs.Copies.{AlwaysSo, AreTheValue, EqualsAre};
ghost use Rattle.der_object.specs.Bits.{AreAlikeBits};
ghost use Rattle.der_object.specs.View.{HaveOneTree, HaveOneContentTree};

use crate::bit_string::BitStringObject;
use crate::object::{BerObject, BerObjectContent};
use crate::print::PrettyPrinterFlag;

/// Two objects are equal iff their trees are the same, and so are two contents. So their equality is an equivalence
/// relation.
pub fn equals_have_one_tree()
    ensures object { EqualsAre HaveOneTree ⟦<BerObject<'static> as PartialEq>⟧.eq }
    ensures content { EqualsAre HaveOneContentTree ⟦<BerObjectContent<'static> as PartialEq>⟧.eq }
    ensures objects { IsEquivalence ⟦<BerObject<'static> as PartialEq>⟧.eq }
    ensures contents { IsEquivalence ⟦<BerObjectContent<'static> as PartialEq>⟧.eq }
{}

/// A clone of a `BitStringObject` or of a `PrettyPrinterFlag` is the value itself, and never fails. Bit strings are
/// equal iff their octets are alike, and flags iff they are the same.
pub fn small_clones_are_the_value()
    ensures bits { AreTheValue ⟦<BitStringObject<'static> as Clone>⟧.is_clone }
    ensures bits_memory { AlwaysSo ⟦<BitStringObject<'static> as Clone>⟧.is_infallible }
    ensures flag { AreTheValue ⟦<PrettyPrinterFlag as Clone>⟧.is_clone }
    ensures flag_memory { AlwaysSo ⟦<PrettyPrinterFlag as Clone>⟧.is_infallible }
    ensures equal_bits { EqualsAre AreAlikeBits ⟦<BitStringObject<'static> as PartialEq>⟧.eq }
    ensures equal_flags { EqualsAre ◌≡◌ ⟦<PrettyPrinterFlag as PartialEq>⟧.eq }
{}
