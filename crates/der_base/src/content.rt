//! Framing: where the content of an element ends, by BER (X.690 8.1.3). A definite content is skipped.
ghost use Rattle.std.specs.Prelude.{◌≡◌, ◌≤◌, ◌++◌, List, ℕ, MatchBool, MatchOption};
ghost use Rattle.der_base.specs.declared.header.Length.{Length};
ghost use Rattle.der_base.specs.Answer.{MatchAnswer};
ghost use Rattle.der_base.specs.Content.{BeginsWithContent, ContentRefuses, ContentLacks};
ghost use Rattle.der_base.specs.Spelling.{end_marker};

use crate::error::{BerError, Err, IResult, Needed};
use crate::header::{Length, ber_read_element_header};

/// Reads the content after a header with this length. Returns what follows the element, and the content octets without
/// the end-of-contents octets. Indefinite lengths, this one included, may be nested less deep than the budget.
#[cycle(framing)]
#[inline(always)]
pub fn read_content(i: &[u8], stated: Length, budget: usize) -> IResult<&[u8], &[u8], BerError>
    requires { 1 ≤ budget }
    ensures { MatchAnswer result
        (λ x. BeginsWithContent i.now stated budget x.1.now x.0.now)
        (ContentRefuses i.now stated budget)
        (ContentLacks i.now stated budget)
        ⊥ }
{
    match stated {
        Length::Definite(size) => ber_read_definite(i, size),
        Length::Indefinite => read_to_end_marker(i, budget),
    }
}

/// Reads a content of this many octets. Returns what follows it, and the content octets.
#[inline(always)]
pub fn ber_read_definite(i: &[u8], size: usize) -> IResult<&[u8], &[u8], BerError>
    ensures { MatchAnswer result
        (λ x. BeginsWithContent i.now (Length.Definite size) 0 x.1.now x.0.now)
        (λ _. ⊥)
        (ContentLacks i.now (Length.Definite size) 0)
        ⊥ }
{
    if i.len() < size {
        return Err(Err::Incomplete(Needed::Size(size - i.len())));
    }
    let (content, rest) = i.split_at(size);
    Ok((rest, content))
}

/// Reads the elements before the end-of-contents octets of an indefinite length. Each header is read before the budget
/// is checked. The end-of-contents octets need budget too.
#[cycle(framing)]
#[inline(never)]
fn read_to_end_marker(i: &[u8], budget: usize) -> IResult<&[u8], &[u8], BerError>
    requires { 1 ≤ budget }
    ensures { MatchAnswer result
        (λ x. BeginsWithContent i.now Length.Indefinite budget x.1.now x.0.now)
        (ContentRefuses i.now Length.Indefinite budget)
        (ContentLacks i.now Length.Indefinite budget)
        ⊥ }
{
    let mut rest = i;
    'elements: loop {
        let (behind, header) = ber_read_element_header(rest)?;
        if budget == 1 {
            return Err(Err::Error(BerError::BerMaxDepth));
        }
        if begins_with_end_marker(rest) {
            return Ok((behind, &i[..i.len() - rest.len()]));
        }
        let (after, _) = read_content(behind, header.length(), budget - 1)?;
        rest = after;
    }
}

/// Whether the input begins with end-of-contents octets, `00 00` (X.690 8.1.5).
#[inline]
pub fn begins_with_end_marker(i: &[u8]) -> bool
    ensures { MatchBool result
        ((rest : List ℕ) × (i.now ≡ end_marker ++ rest))
        ((rest : List ℕ) → ¬ (i.now ≡ end_marker ++ rest)) }
{
    after_end_marker(i).is_some()
}

/// What follows the end-of-contents octets at the start of the input. None if it doesn't begin with them (X.690 8.1.5).
#[inline]
pub fn after_end_marker(i: &[u8]) -> Option<&[u8]>
    ensures { MatchOption result
        ((rest : List ℕ) → ¬ (i.now ≡ end_marker ++ rest))
        (λ x. i.now ≡ end_marker ++ x.now) }
{
    match i {
        [0, 0, after @ ..] => Some(after),
        _ => None,
    }
}
