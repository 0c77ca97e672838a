//! Framing that records: the content of an indefinite length is read once to its end-of-contents octets, and each
//! element inside it is kept (X.690 8.1.3.6). A definite content is skipped.
ghost use Rattle.std.specs.Prelude.{◌≡◌, ◌≤◌, ◌+◌, ◌*◌, ◌-◌, ◌++◌, IfOk, List, ℕ, length};
ghost use Rattle.der_base.specs.declared.header.Length.{Length};
ghost use Rattle.der_base.specs.declared.spans.Span.{Span};
ghost use Rattle.der_base.specs.Answer.{MatchAnswer};
ghost use Rattle.der_base.specs.Content.{ContentRefuses, ContentLacks};
ghost use Rattle.der_base.specs.Count.{some_more};
ghost use Rattle.der_base.specs.Header.{length_of};
ghost use Rattle.der_base.specs.Inner.Spans.{RecordsContent, RecordsElement, span_octets, content_octets_left};

use crate::any::Any;
use crate::content::begins_with_end_marker;
pub use crate::content::ber_read_definite;
use crate::error::{BerError, Err, IResult};
use crate::header::{Header, HeaderCount, Length, ber_header_counted};

/// An element inside an indefinite length, with its content octets.
#[derive(Clone, Copy, Debug, PartialEq)]
pub struct Span<'a> {
    /// The element.
    pub element: Any<'a>,
    /// How many of the following spans are elements inside this one. 0 for a definite length.
    pub inside: usize,
}

/// Reads the content after a header with this length as `ber_read_content`. Appends the elements inside an indefinite
/// length to `spans`, in the order of their headers. Raises the count by one for each header that is read, so by at
/// least the number of new spans. Each header takes at least two octets.
#[inline(always)]
pub fn ber_record_content<'a>(
    i: &'a [u8],
    stated: Length,
    budget: usize,
    count: &mut HeaderCount,
    spans: &mut Vec<Span<'a>>,
) -> IResult<&'a [u8], &'a [u8], BerError>
    requires { 1 ≤ budget }
    ensures found { MatchAnswer result
        (λ x. RecordsContent i.now stated budget x.1.now x.0.now spans.old.items spans.new.items)
        (ContentRefuses i.now stated budget)
        (ContentLacks i.now stated budget)
        (stated ≡ Length.Indefinite) }
    ensures counted { IfOk result (λ _.
        some_more (length spans.new.items - length spans.old.items) count.old ≤ count.new) }
    ensures bounded { 2 * count.new ≤ 2 * count.old + length i.now + 2 }
    ensures bounded_ok { IfOk result (λ x.
        2 * count.new + content_octets_left stated x.1.now spans.new.items + length x.0.now
        ≤ 2 * count.old + span_octets spans.old.items + length i.now) }
{
    match stated {
        Length::Definite(size) => ber_read_definite(i, size),
        Length::Indefinite => record_to_end_marker(i, budget, count, spans),
    }
}

/// Reads the elements before the end-of-contents octets of an indefinite length. Each header is read before the budget
/// is checked. The end-of-contents octets need budget too.
#[cycle(recording)]
#[inline(never)]
fn record_to_end_marker<'a>(
    i: &'a [u8],
    budget: usize,
    count: &mut HeaderCount,
    spans: &mut Vec<Span<'a>>,
) -> IResult<&'a [u8], &'a [u8], BerError>
    requires { 1 ≤ budget }
    ensures found { MatchAnswer result
        (λ x. RecordsContent i.now Length.Indefinite budget x.1.now x.0.now spans.old.items spans.new.items)
        (ContentRefuses i.now Length.Indefinite budget)
        (ContentLacks i.now Length.Indefinite budget)
        (Unit {0}) }
    ensures counted { IfOk result (λ _.
        some_more (length spans.new.items - length spans.old.items) count.old ≤ count.new) }
    ensures bounded { 2 * count.new ≤ 2 * count.old + length i.now + 2 }
    ensures bounded_ok { IfOk result (λ x.
        2 * count.new + span_octets spans.new.items + length x.0.now
        ≤ 2 * count.old + span_octets spans.old.items + length i.now) }
{
    let mut rest = i;
    'elements: loop {
        let (behind, header) = ber_header_counted(rest, count)?;
        if budget == 1 {
            return Err(Err::Error(BerError::BerMaxDepth));
        }
        if begins_with_end_marker(rest) {
            return Ok((behind, &i[..i.len() - rest.len()]));
        }
        if let Length::Definite(size) = header.length() {
            let (after, bytes) = ber_read_definite(behind, size)?;
            let element = Any { header, bytes };
            spans.push(Span { element, inside: 0 })?;
            rest = after;
            continue;
        }
        rest = record_open(header, behind, budget - 1, count, spans)?;
    }
}

/// Records the element with this header, whose length is indefinite, and the elements inside it. Returns what follows.
#[cycle(recording)]
#[inline(never)]
fn record_open<'a>(
    header: Header<'a>,
    behind: &'a [u8],
    budget: usize,
    count: &mut HeaderCount,
    spans: &mut Vec<Span<'a>>,
) -> Result<&'a [u8], Err<BerError>>
    requires some { 1 ≤ budget }
    requires open { length_of header ≡ Length.Indefinite }
    ensures found { MatchAnswer result
        (λ x. (ss : List Span) × (spans.new.items ≡ spans.old.items ++ ss)
        × RecordsElement header.entry behind.now budget ss x.now)
        (ContentRefuses behind.now (length_of header.entry) budget)
        (ContentLacks behind.now (length_of header.entry) budget)
        (Unit {0}) }
    ensures counted { IfOk result (λ _.
        some_more (length spans.new.items - length spans.old.items - 1) count.old ≤ count.new) }
    ensures bounded { 2 * count.new ≤ 2 * count.old + length behind.now + 2 }
    ensures bounded_ok { IfOk result (λ x.
        2 * count.new + span_octets spans.new.items + length x.now
        ≤ 2 * count.old + span_octets spans.old.items + length behind.now) }
{
    let place = spans.len();
    let element = Any {
        header,
        bytes: behind,
    };
    spans.push(Span { element, inside: 0 })?;
    let (rest, bytes) = record_to_end_marker(behind, budget, count, spans)?;
    let inside = spans.len() - place - 1;
    let element = Any { header, bytes };
    spans[place] = Span { element, inside };
    Ok(rest)
}
