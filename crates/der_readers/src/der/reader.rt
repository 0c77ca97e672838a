//! One element of DER and what is inside it. Element, content and items call each other, at one
//! depth less for each list.
ghost use Rattle.std.specs.Prelude.{◌≡◌, ◌≢◌, ◌+◌, ◌*◌, ◌^◌, ◌<◌, ◌≤◌, [], IfOk, IsTrue, length, true};
ghost use Rattle.der_base.specs.declared.header.Class.{Class};
ghost use Rattle.der_base.specs.Answer.{MatchAnswer};
ghost use Rattle.der_base.specs.Count.{some_more};
ghost use Rattle.der_base.specs.Fault.{DerShowsFault};
ghost use Rattle.der_base.specs.Header.{class_of, is_constructed, number_of};
ghost use Rattle.der_base.specs.Leaf.{is_list};
ghost use Rattle.der_base.specs.Listing.{content_count, item_count};
ghost use Rattle.der_object.specs.Counting.{CountsJustObjects};
ghost use Rattle.der_object.specs.View.{content_tree, trees};
ghost use Rattle.der_base.specs.Stable.{DerIsCut};
ghost use Rattle.der_readers.specs.Der.DerReading.{ReadsDer, NeedsMemory, ContentRefuses};
ghost use Rattle.der_readers.specs.Der.Inner.DerItems.{AreItems, IsContentOf, ItemsRefuse};

use crate::der::leaf::read_leaf;
use der_base::MAX_OBJECT_SIZE;
use der_base::any::Any;
use der_base::error::{BerError, Err, Needed, refuse_cut_item};
use der_base::header::{Header, HeaderCount, Tag, der_header_counted};
use der_object::growth::push_item;
use der_object::{BerObject, BerObjectContent, BerResult};
use std::alloc::Global;

/// Reads the element at the start of `i`.
#[cycle(reader)]
#[inline(always)]
pub fn read_element<'a>(
    alloc: Global,
    i: &'a [u8],
    max_depth: usize,
    count: &mut HeaderCount,
) -> BerResult<'a>
    ensures found { MatchAnswer result
        (λ x. ReadsDer max_depth i.now x.1 x.0.now)
        (DerShowsFault max_depth i.now)
        (DerIsCut max_depth i.now)
        (NeedsMemory max_depth i.now) }
    ensures shorter { IfOk result (λ x. length x.0.now < length i.now) }
    ensures counted { CountsJustObjects result count.old count.new }
    ensures bounded { 2 * count.new ≤ 2 * count.old + length i.now + 2 }
{
    if max_depth == 0 {
        return Err(Err::Error(BerError::BerMaxDepth));
    }
    let (rest, header) = der_header_counted(i, count)?;
    let length = header.length().definite()?;
    if length > MAX_OBJECT_SIZE {
        return Err(Err::Error(BerError::InvalidLength));
    }
    if rest.len() < length {
        return Err(Err::Incomplete(Needed::Size(lacking(&header, length, rest))));
    }
    let (content, rest) = rest.split_at(length);
    read_object(alloc, header, content, rest, max_depth, count)
}

/// How many octets a content lacks if the input ends within it: by DER the whole length for class Universal.
pub fn lacking(header: &Header<'_>, size: usize, rest: &[u8]) -> usize
    requires { length rest.now < size }
    ensures universal { class_of header.now ≡ Class.Universal → result ≡ size }
    ensures other { class_of header.now ≢ Class.Universal → length rest.now + result ≡ size }
{
    if header.is_universal() {
        size
    } else {
        size - rest.len()
    }
}

/// Returns the object with this header and these content octets, and the rest after it.
#[cycle(reader)]
#[inline(always)]
pub fn read_object<'a>(
    alloc: Global,
    header: Header<'a>,
    octets: &'a [u8],
    rest: &'a [u8],
    max_depth: usize,
    count: &mut HeaderCount,
) -> BerResult<'a>
    requires deep { 1 ≤ max_depth }
    requires counts { count.old < 2 ^ 128 }
    ensures found { let h = header.entry in MatchAnswer result
        (λ x. (x.0.now ≡ rest.now) × (x.1.header ≡ h) × IsContentOf octets.now h x.1.content max_depth)
        (ContentRefuses (class_of h) (is_constructed h) (number_of h) octets.now max_depth)
        (λ _. ⊥)
        ((2 ≤ max_depth) × (class_of h ≡ Class.Universal) × (is_constructed h ≡ true)
        × IsTrue (is_list (number_of h)) × (octets.now ≢ [])) }
    ensures counted { IfOk result (λ x. count.new ≡ some_more (content_count (content_tree x.1.content)) count.old) }
    ensures bounded { 2 * count.new ≤ 2 * count.old + length octets.now + 2 }
{
    let tag = header.tag();
    if !header.is_universal() || !tag.is_mapped() {
        let content = BerObjectContent::Unknown(Any::new(header, octets));
        return Ok((rest, BerObject::from_header_and_content(header, content)));
    }
    if tag == Tag::Sequence {
        header.assert_constructed()?;
        let content = BerObjectContent::Sequence(read_items(alloc, octets, max_depth - 1, count)?);
        return Ok((rest, BerObject::from_header_and_content(header, content)));
    }
    if tag == Tag::Set {
        header.assert_constructed()?;
        let content = BerObjectContent::Set(read_items(alloc, octets, max_depth - 1, count)?);
        return Ok((rest, BerObject::from_header_and_content(header, content)));
    }
    let content = read_leaf(header.constructed(), tag, octets)?;
    Ok((rest, BerObject::from_header_and_content(header, content)))
}

/// Reads the elements that stand one after another in content octets.
#[cycle(reader)]
fn read_items<'a>(
    alloc: Global,
    content: &'a [u8],
    max_depth: usize,
    count: &mut HeaderCount,
) -> Result<Vec<BerObject<'a>>, Err<BerError>>
    requires { count.old < 2 ^ 128 }
    ensures found { MatchAnswer result
        (λ v. AreItems content.now v.items max_depth)
        (ItemsRefuse content.now max_depth)
        (λ _. ⊥)
        ((1 ≤ max_depth) × (content.now ≢ [])) }
    ensures counted { IfOk result (λ v. count.new ≡ some_more (item_count (trees v.items)) count.old) }
    ensures bounded { 2 * count.new ≤ 2 * count.old + length content.now + 2 }
{
    let mut items = Vec::new(alloc);
    let mut rest = content;
    while !rest.is_empty() {
        match read_element(alloc, rest, max_depth, count) {
            Ok((after, item)) => {
                push_item(&mut items, item, after)?;
                rest = after;
            }
            Err(e) => return Err(refuse_cut_item(e)),
        }
    }
    Ok(items)
}
