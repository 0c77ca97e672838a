//! One element of BER and what is inside it. Element, content and items call each other, at one depth less for each
//! list. An element of indefinite length is framed once. The elements inside it are recorded, and their values are read
//! from the record.
ghost use Rattle.std.specs.Prelude.{◌≡◌, ◌≢◌, ◌+◌, ◌*◌, ◌-◌, ◌<◌, ◌≤◌, ℕ, List, [], IfOk, IsTrue, length, true};
ghost use Rattle.der_base.specs.declared.header.Class.{Class};
ghost use Rattle.der_base.specs.Answer.{MatchAnswer};
ghost use Rattle.der_base.specs.Content.{ContentLacks};
ghost use Rattle.der_base.specs.Fault.{ShowsFault};
ghost use Rattle.der_base.specs.Header.{class_of, is_constructed, number_of, length_of};
ghost use Rattle.der_base.specs.Leaf.{is_list};
ghost use Rattle.der_base.specs.Inner.Spans.{AreInside, AreSpans, content_octets_left, span_octets};
ghost use Rattle.der_base.specs.Spelling.{framing_budget};
ghost use Rattle.der_base.specs.Stable.{BerIsCut};
ghost use Rattle.der_readers.specs.Ber.BerReading.{ReadsBer, NeedsMemory, ContentRefuses};
ghost use Rattle.der_readers.specs.Ber.BerReading.{TagNumberRefuses, TagNumberNeedsMemory};
ghost use Rattle.der_readers.specs.Ber.Inner.ElementParts.{ReadsBehind, BehindRefuses, BehindNeedsMemory};
ghost use Rattle.der_readers.specs.Ber.Inner.ElementParts.{AreItems, IsContentOf, ItemsRefuse};
ghost use Rattle.der_object.specs.Counting.{CountsObjects, CountsInside, CountsItems};

use crate::ber::leaf::read_leaf;
use der_base::MAX_RECURSION;
use der_base::any::Any;
use der_base::error::{BerError, Err, refuse_cut_item};
use der_base::header::{Header, HeaderCount, Length, Tag, ber_header_counted};
use der_base::spans::{Span, ber_read_definite, ber_record_content};
use der_object::growth::push_item;
use der_object::{BerObject, BerObjectContent, BerResult};
use std::alloc::Global;

/// The element at the start of the input.
#[cycle(reader)]
#[inline(always)]
pub fn read_element<'a>(
    alloc: Global,
    i: &'a [u8],
    max_depth: usize,
    count: &mut HeaderCount,
) -> BerResult<'a>
    ensures found { MatchAnswer result
        (λ x. ReadsBer max_depth i.now x.1 x.0.now)
        (ShowsFault max_depth i.now)
        (BerIsCut max_depth i.now)
        (NeedsMemory max_depth i.now) }
    ensures shorter { IfOk result (λ x. length x.0.now < length i.now) }
    ensures counted { CountsObjects result count.old count.new }
    ensures bounded { 2 * count.new ≤ 2 * count.old + length i.now + 2 }
    ensures bounded_ok { IfOk result (λ x. 2 * count.new + length x.0.now ≤ 2 * count.old + length i.now) }
{
    if max_depth == 0 {
        return Err(Err::Error(BerError::BerMaxDepth));
    }
    let (behind, header) = ber_header_counted(i, count)?;
    match header.length() {
        Length::Definite(size) => {
            let (rest, bytes) = ber_read_definite(behind, size)?;
            read_object(alloc, Any { header, bytes }, &[], rest, max_depth, count)
        }
        Length::Indefinite => {
            read_behind(alloc, header, behind, MAX_RECURSION, max_depth, count)
        }
    }
}

/// The element at the start of the input, which has to have this tag number.
pub fn read_element_with_tag<'a>(
    alloc: Global,
    i: &'a [u8],
    tag: Tag,
    max_depth: usize,
    count: &mut HeaderCount,
) -> BerResult<'a>
    ensures found { MatchAnswer result
        (λ x. ReadsBer max_depth i.now x.1 x.0.now × (number_of x.1.header ≡ tag.0))
        (TagNumberRefuses tag.0 max_depth i.now)
        (BerIsCut max_depth i.now)
        (TagNumberNeedsMemory tag.0 max_depth i.now) }
    ensures shorter { IfOk result (λ x. length x.0.now < length i.now) }
{
    if max_depth == 0 {
        return Err(Err::Error(BerError::BerMaxDepth));
    }
    let (behind, header) = ber_header_counted(i, count)?;
    let mut spans = Vec::new(alloc);
    let (rest, bytes) = ber_record_content(
        behind,
        header.length(),
        MAX_RECURSION,
        count,
        &mut spans,
    )?;
    header.assert_tag(tag)?;
    read_object(alloc, Any { header, bytes }, &spans, rest, max_depth, count)
}

/// The object with this header and the content after it. The elements inside an indefinite length are recorded first.
#[cycle(reader)]
#[inline(never)]
pub fn read_behind<'a>(
    alloc: Global,
    header: Header<'a>,
    behind: &'a [u8],
    budget: usize,
    max_depth: usize,
    count: &mut HeaderCount,
) -> BerResult<'a>
    requires some { 1 ≤ budget }
    requires bounded { budget ≤ framing_budget }
    requires deep { 1 ≤ max_depth }
    ensures found { MatchAnswer result
        (λ x. ReadsBehind header.entry budget max_depth behind.now x.1 x.0.now)
        (BehindRefuses header.entry budget max_depth behind.now)
        (ContentLacks behind.now (length_of header.entry) budget)
        (BehindNeedsMemory header.entry budget max_depth behind.now) }
    ensures counted { CountsInside 0 result count.old count.new }
    ensures bounded { 2 * count.new ≤ 2 * count.old + length behind.now + 2 }
    ensures bounded_ok { IfOk result (λ x. 2 * count.new + length x.0.now ≤ 2 * count.old + length behind.now) }
{
    let mut spans = Vec::new(alloc);
    let (rest, bytes) = ber_record_content(behind, header.length(), budget, count, &mut spans)?;
    read_object(alloc, Any { header, bytes }, &spans, rest, max_depth, count)
}

/// The object with these header and content octets, and what follows it. If its length is indefinite, the spans are the
/// elements inside it.
#[cycle(reader)]
#[inline(always)]
fn read_object<'a>(
    alloc: Global,
    any: Any<'a>,
    inside: &[Span<'a>],
    rest: &'a [u8],
    max_depth: usize,
    count: &mut HeaderCount,
) -> BerResult<'a>
    requires deep { 1 ≤ max_depth }
    requires recorded { AreInside (length_of any.header) inside.now any.bytes.now framing_budget }
    ensures found { let h = any.entry.header in let w = any.entry.bytes.now in MatchAnswer result
        (λ x. (x.0.now ≡ rest.now) × (x.1.header ≡ h) × IsContentOf w h x.1.content max_depth)
        (ContentRefuses (class_of h) (is_constructed h) (number_of h) w max_depth)
        (λ _. ⊥)
        ((2 ≤ max_depth) × (class_of h ≡ Class.Universal) × (is_constructed h ≡ true)
        × IsTrue (is_list (number_of h)) × (w ≢ [])) }
    ensures counted { CountsInside (length inside.now) result count.old count.new }
    ensures bounded { let left = content_octets_left (length_of any.entry.header) any.entry.bytes.now inside.now in
        2 * count.new ≤ 2 * count.old + left + 2 }
    ensures bounded_ok { let left = content_octets_left (length_of any.entry.header) any.entry.bytes.now inside.now in
        IfOk result (λ _. 2 * count.new ≤ 2 * count.old + left) }
{
    let header = any.header;
    let octets = any.bytes;
    let tag = header.tag();
    if !header.is_universal() {
        let content = BerObjectContent::Unknown(any);
        return Ok((rest, BerObject::from_header_and_content(header, content)));
    }
    if tag == Tag::Sequence {
        header.assert_constructed()?;
        let items = read_list(alloc, any, inside, max_depth - 1, count)?;
        let content = BerObjectContent::Sequence(items);
        return Ok((rest, BerObject::from_header_and_content(header, content)));
    }
    if tag == Tag::Set {
        header.assert_constructed()?;
        let items = read_list(alloc, any, inside, max_depth - 1, count)?;
        let content = BerObjectContent::Set(items);
        return Ok((rest, BerObject::from_header_and_content(header, content)));
    }
    if tag.is_mapped() {
        let content = read_leaf(header.constructed(), tag, octets)?;
        return Ok((rest, BerObject::from_header_and_content(header, content)));
    }
    let content = BerObjectContent::Unknown(any);
    Ok((rest, BerObject::from_header_and_content(header, content)))
}

/// The items of a list: from its content octets if its length is definite, else from the spans.
#[cycle(reader)]
#[inline(always)]
fn read_list<'a>(
    alloc: Global,
    any: Any<'a>,
    inside: &[Span<'a>],
    max_depth: usize,
    count: &mut HeaderCount,
) -> Result<Vec<BerObject<'a>>, Err<BerError>>
    requires { AreInside (length_of any.header) inside.now any.bytes.now framing_budget }
    ensures found { let w = any.entry.bytes.now in MatchAnswer result
        (λ v. AreItems w v.items max_depth)
        (ItemsRefuse w max_depth)
        (λ _. ⊥)
        ((1 ≤ max_depth) × (w ≢ [])) }
    ensures counted { CountsItems (length inside.now) result count.old count.new }
    ensures bounded { let left = content_octets_left (length_of any.entry.header) any.entry.bytes.now inside.now in
        2 * count.new ≤ 2 * count.old + left + 2 }
    ensures bounded_ok { let left = content_octets_left (length_of any.entry.header) any.entry.bytes.now inside.now in
        IfOk result (λ _. 2 * count.new ≤ 2 * count.old + left) }
{
    match any.header.length() {
        Length::Definite(_) => read_items(alloc, any.bytes, max_depth, count),
        Length::Indefinite => read_spans(alloc, inside, max_depth, count),
    }
}

/// The elements that stand one after another in content octets.
#[cycle(reader)]
#[inline(never)]
fn read_items<'a>(
    alloc: Global,
    content: &'a [u8],
    max_depth: usize,
    count: &mut HeaderCount,
) -> Result<Vec<BerObject<'a>>, Err<BerError>>
    ensures found { MatchAnswer result
        (λ v. AreItems content.now v.items max_depth)
        (ItemsRefuse content.now max_depth)
        (λ _. ⊥)
        ((1 ≤ max_depth) × (content.now ≢ [])) }
    ensures counted { CountsItems 0 result count.old count.new }
    ensures bounded { 2 * count.new ≤ 2 * count.old + length content.now + 2 }
    ensures bounded_ok { IfOk result (λ _. 2 * count.new ≤ 2 * count.old + length content.now) }
{
    let mut items = Vec::new(alloc);
    let mut rest = content;
    while !rest.is_empty() {
        match read_element(alloc, rest, max_depth, count) {
            Ok((after, item)) => {
                push_item(&mut items, item, after)?;
                rest = after;
            }
            Err(e) => return Err(refuse_cut_item(e)),
        }
    }
    Ok(items)
}

/// The elements of spans.
#[cycle(reader)]
#[inline(never)]
fn read_spans<'a>(
    alloc: Global,
    spans: &[Span<'a>],
    max_depth: usize,
    count: &mut HeaderCount,
) -> Result<Vec<BerObject<'a>>, Err<BerError>>
    requires { (w : List ℕ) × AreSpans spans.now w framing_budget }
    ensures found { (w : List ℕ) → AreSpans spans.now w framing_budget → MatchAnswer result
        (λ v. AreItems w v.items max_depth)
        (ItemsRefuse w max_depth)
        (λ _. ⊥)
        ((1 ≤ max_depth) × (w ≢ [])) }
    ensures counted { CountsItems (length spans.now) result count.old count.new }
    ensures bounded { 2 * count.new ≤ 2 * count.old + span_octets spans.now + 2 }
    ensures bounded_ok { IfOk result (λ _. 2 * count.new ≤ 2 * count.old + span_octets spans.now) }
{
    let mut items = Vec::new(alloc);
    items.reserve_exact(item_number(spans, max_depth))?;
    let mut at = 0;
    while at < spans.len() {
        if max_depth == 0 {
            return Err(Err::Error(BerError::BerMaxDepth));
        }
        let span = spans[at];
        let first = at + 1;
        let end = first + span.inside;
        let inside = &spans[first..end];
        match read_object(alloc, span.element, inside, &[], max_depth, count) {
            Ok((_, item)) => {
                items.push(item)?;
                at = end;
            }
            Err(e) => return Err(e),
        }
    }
    Ok(items)
}

/// How many items are read from the spans.
fn item_number(spans: &[Span<'_>], max_depth: usize) -> usize
    ensures { 1 ≤ result → (1 ≤ max_depth) × (1 ≤ length spans.now) }
{
    if max_depth == 0 {
        return 0;
    }
    outermost(spans)
}

/// How many of the spans aren't inside another.
fn outermost(spans: &[Span<'_>]) -> usize
    ensures { 1 ≤ result → 1 ≤ length spans.now }
{
    let mut number = 0usize;
    let mut at = 0usize;
    while at < spans.len() {
        number = number.saturating_add(1);
        at = at.saturating_add(spans[at].inside).saturating_add(1);
    }
    number
}
