//! Readers that return the content of an element unchanged.
ghost use Rattle.std.specs.Prelude.{◌≡◌};
ghost use Rattle.der_base.specs.declared.rules.Rules.TheVariants.{Ber, Der};
ghost use Rattle.der_base.specs.Answer.{MatchAnswer};
ghost use Rattle.der_base.specs.Containers.{OpeningLacks};
ghost use Rattle.der_combinators.specs.Slices.{AnswersSlice, ReadsSlice, SliceRefuses};

use crate::opening::open_element;
use der_base::error::{BerError, IResult};
use der_base::header::Tag;
use der_base::rules::Rules;

/// Returns the content octets of an element of this tag number, of any class, primitive or constructed, with what
/// follows the element. End-of-contents octets are no part of the content.
///
/// Errors, in this order: those of `Container::parse` by BER; UnexpectedTag for another number. Incomplete if the input
/// ends within the header, or within the content of an indefinite length. It allocates nothing.
pub fn parse_ber_slice<'a>(i: &'a [u8], tag: Tag) -> IResult<&'a [u8], &'a [u8], BerError>
    ensures { AnswersSlice Ber tag.0 i.now result }
{
    read_slice(Rules::Ber, i, tag)
}

/// Returns the content octets of an element of this tag number, of any class, primitive or constructed, with what
/// follows the element. The octets aren't checked.
///
/// Errors, in this order: those of `Container::parse` by DER; UnexpectedTag for another number. Incomplete if the input
/// ends within the header. It allocates nothing.
pub fn parse_der_slice<'a>(i: &'a [u8], tag: Tag) -> IResult<&'a [u8], &'a [u8], BerError>
    ensures { AnswersSlice Der tag.0 i.now result }
{
    read_slice(Rules::Der, i, tag)
}

#[inline(always)]
fn read_slice<'a>(rules: Rules, i: &'a [u8], tag: Tag) -> IResult<&'a [u8], &'a [u8], BerError>
    ensures { MatchAnswer result
        (λ x. ReadsSlice rules tag.0 i.now x.1.now x.0.now)
        (SliceRefuses rules tag.0 i.now)
        (OpeningLacks rules i.now)
        ⊥ }
{
    let (header, content, after) = open_element(rules, i)?;
    header.assert_tag(tag)?;
    Ok((after, content))
}
