//! One item of a list: the result of its parser is a further item, or ends the list (X.690 8.10, 8.12).
ghost use Rattle.std.specs.Prelude.{◌≡◌, IfErr, IfOk};
ghost use Rattle.der_base.specs.SetOfOrder.{Descends};
ghost use Rattle.der_combinators.specs.Inner.InOrder.{IsOutOfOrder, TakesInOrder, octets_compared};

use crate::list_type::ListType;
use der_base::error::{BerError, DerConstraint, Err, ErrorKind, IResult, ParseError};
use der_base::rules::Rules;
use der_base::set_of_order::descends;
use der_object::growth::push_item;

/// Pushes the item that the parser returned on `input`, and returns the octets after it. None if the list ends: the
/// parser returned Incomplete and no octets are left.
///
/// Errors: that of Eof if the parser returned Incomplete and octets are left; that of Many0 if it took no octets;
/// SetOfOrder if the item is less than the octets `before`, without an allocation. An Error of the parser becomes a
/// Failure. Failure and OutOfMemory are returned as they are.
#[inline(always)]
pub fn take_item<'a, O, E>(
    before: &[u8],
    input: &'a [u8],
    answer: IResult<&'a [u8], O, E>,
    values: &mut Vec<O>,
) -> Result<Option<&'a [u8]>, Err<E>>
where
    O: Drop,
    E: ParseError<&'a [u8]> + From<BerError>,
    ensures { TakesInOrder E.from_error_kind_gives E.from_gives before.now input.entry answer.entry
        values.old.items result values.new.items }
{
    match answer {
        Ok((rest, value)) => {
            if rest.len() >= input.len() {
                return Err(Err::Error(E::from_error_kind(input, ErrorKind::Many0)));
            }
            check_order(before, &input[..input.len() - rest.len()])?;
            push_item(values, value, rest)?;
            return Ok(Some(rest));
        }
        Err(Err::Incomplete(_)) => {
            if !input.is_empty() {
                return Err(Err::Error(E::from_error_kind(input, ErrorKind::Eof)));
            }
            return Ok(None);
        }
        Err(Err::Error(e)) => return Err(Err::Failure(e)),
        Err(Err::Failure(e)) => return Err(Err::Failure(e)),
        Err(Err::OutOfMemory) => return Err(Err::OutOfMemory),
    }
}

/// The octets that the next item is compared with: by DER, in a SET OF, those of this item (X.690 11.6). Otherwise
/// there are none, and no item is less than none.
#[inline(always)]
pub fn compared_octets<'a>(rules: Rules, list: ListType, item: &'a [u8]) -> &'a [u8]
    ensures { result.now ≡ octets_compared rules list item.now }
{
    match rules {
        Rules::Ber => &[],
        Rules::Der => match list {
            ListType::Sequence => &[],
            ListType::Set => item,
        },
    }
}

/// Rejects an item that is less than the octets of the item before it.
#[inline(always)]
fn check_order<E>(before: &[u8], item: &[u8]) -> Result<(), Err<E>>
where
    E: From<BerError>,
    ensures ok { IfOk result (λ _. ¬ Descends before.now item.now) }
    ensures err { IfErr result (λ e. Descends before.now item.now × IsOutOfOrder E.from_gives e) }
{
    if descends(before, item) {
        return Err(Err::Error(E::from(BerError::DerConstraintFailed(DerConstraint::SetOfOrder))));
    }
    Ok(())
}
