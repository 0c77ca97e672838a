//! Laws of the types' `Clone` and `PartialEq`. Each function has a law as its contract and an empty
//! body. The laws of the definitions are in `der_values::laws`.
ghost use Rattle.std.specs.Prelude.{◌≡◌};
ghost use Rattle.std.specs.Cmp.{IsEquivalence};
ghost use Rattle.der_base.specs.Copies.{
  AreTheValue,
  AlwaysSo,
  EqualsAre,
  AreAlikeHeaders,
  AreAlikeElements,
  AreAlikeSpans,
  AreAlikeIdentifiers,
  AreAlikeErrors,
  AreAlikeAnswers,
};
ghost use Rattle.der_base.specs.TreeEquality.{same_node};

use crate::any::Any;
use crate::error::{DerConstraint, Err, Error, ErrorKind, GenError, Needed, OidParseError};
use crate::header::{Class, Header, Length, Tag};
use crate::oid::Oid;
use crate::spans::Span;
use crate::time::{ASN1DateTime, ASN1TimeZone, TimeText};

/// A clone is the value itself.
pub fn clones_are_the_value()
    ensures class { AreTheValue ⟦<Class as Clone>⟧.is_clone }
    ensures tag { AreTheValue ⟦<Tag as Clone>⟧.is_clone }
    ensures length { AreTheValue ⟦<Length as Clone>⟧.is_clone }
    ensures header { AreTheValue ⟦<Header<'static> as Clone>⟧.is_clone }
    ensures any { AreTheValue ⟦<Any<'static> as Clone>⟧.is_clone }
    ensures span { AreTheValue ⟦<Span<'static> as Clone>⟧.is_clone }
    ensures needed { AreTheValue ⟦<Needed as Clone>⟧.is_clone }
    ensures kind { AreTheValue ⟦<ErrorKind as Clone>⟧.is_clone }
    ensures error { AreTheValue ⟦<Error as Clone>⟧.is_clone }
    ensures constraint { AreTheValue ⟦<DerConstraint as Clone>⟧.is_clone }
    ensures time { AreTheValue ⟦<ASN1DateTime as Clone>⟧.is_clone }
    ensures zone { AreTheValue ⟦<ASN1TimeZone as Clone>⟧.is_clone }
    ensures text { AreTheValue ⟦<TimeText as Clone>⟧.is_clone }
{}

/// A clone never runs out of memory.
pub fn clones_want_no_memory()
    ensures class { AlwaysSo ⟦<Class as Clone>⟧.is_infallible }
    ensures tag { AlwaysSo ⟦<Tag as Clone>⟧.is_infallible }
    ensures length { AlwaysSo ⟦<Length as Clone>⟧.is_infallible }
    ensures header { AlwaysSo ⟦<Header<'static> as Clone>⟧.is_infallible }
    ensures any { AlwaysSo ⟦<Any<'static> as Clone>⟧.is_infallible }
    ensures span { AlwaysSo ⟦<Span<'static> as Clone>⟧.is_infallible }
    ensures needed { AlwaysSo ⟦<Needed as Clone>⟧.is_infallible }
    ensures kind { AlwaysSo ⟦<ErrorKind as Clone>⟧.is_infallible }
    ensures error { AlwaysSo ⟦<Error as Clone>⟧.is_infallible }
    ensures constraint { AlwaysSo ⟦<DerConstraint as Clone>⟧.is_infallible }
    ensures time { AlwaysSo ⟦<ASN1DateTime as Clone>⟧.is_infallible }
    ensures zone { AlwaysSo ⟦<ASN1TimeZone as Clone>⟧.is_infallible }
    ensures text { AlwaysSo ⟦<TimeText as Clone>⟧.is_infallible }
{}

/// Two values are equal iff they are the same.
pub fn equals_are_the_same()
    ensures class { EqualsAre ◌≡◌ ⟦<Class as PartialEq>⟧.eq }
    ensures tag { EqualsAre ◌≡◌ ⟦<Tag as PartialEq>⟧.eq }
    ensures length { EqualsAre ◌≡◌ ⟦<Length as PartialEq>⟧.eq }
    ensures needed { EqualsAre ◌≡◌ ⟦<Needed as PartialEq>⟧.eq }
    ensures kind { EqualsAre ◌≡◌ ⟦<ErrorKind as PartialEq>⟧.eq }
    ensures constraint { EqualsAre ◌≡◌ ⟦<DerConstraint as PartialEq>⟧.eq }
    ensures oid_error { EqualsAre ◌≡◌ ⟦<OidParseError as PartialEq>⟧.eq }
    ensures write_error { EqualsAre ◌≡◌ ⟦<GenError as PartialEq>⟧.eq }
    ensures time { EqualsAre ◌≡◌ ⟦<ASN1DateTime as PartialEq>⟧.eq }
    ensures zone { EqualsAre ◌≡◌ ⟦<ASN1TimeZone as PartialEq>⟧.eq }
    ensures text { EqualsAre ◌≡◌ ⟦<TimeText as PartialEq>⟧.eq }
{}

/// Two headers, elements, spans, identifiers or errors are equal iff they are alike in the parts that
/// the definition names. Equality of headers, elements, identifiers, errors and trees is an
/// equivalence relation.
pub fn equals_are_alike()
    ensures header { EqualsAre AreAlikeHeaders ⟦<Header<'static> as PartialEq>⟧.eq }
    ensures any { EqualsAre AreAlikeElements ⟦<Any<'static> as PartialEq>⟧.eq }
    ensures span { EqualsAre AreAlikeSpans ⟦<Span<'static> as PartialEq>⟧.eq }
    ensures oid { EqualsAre AreAlikeIdentifiers ⟦<Oid<'static> as PartialEq>⟧.eq }
    ensures error { EqualsAre AreAlikeErrors ⟦<Error as PartialEq>⟧.eq }
    ensures answer { EqualsAre AreAlikeAnswers ⟦<Err<Error> as PartialEq>⟧.eq }
    ensures headers { IsEquivalence ⟦<Header<'static> as PartialEq>⟧.eq }
    ensures elements { IsEquivalence ⟦<Any<'static> as PartialEq>⟧.eq }
    ensures identifiers { IsEquivalence ⟦<Oid<'static> as PartialEq>⟧.eq }
    ensures errors { IsEquivalence ⟦<Error as PartialEq>⟧.eq }
    ensures trees { IsEquivalence same_node }
{}
