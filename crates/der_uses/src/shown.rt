//! The examples of the doc comments.
ghost use Rattle.std.specs.Prelude.{◌≡◌, ◌∷◌, ◌≤◌, ◌^◌, ◌↔◌, [], length, map, pos, IfErr, IfOk, IsTrue, MatchResult};
ghost use Rattle.std.specs.Result.{IsErrOf};
ghost use Rattle.der_parser.specs.declared.Rules.{Rules};
ghost use Rattle.der_parser.specs.declared.error.Err.TheVariants.{OutOfMemory};
ghost use Rattle.der_parser.specs.Encoding.{encoding};
ghost use Rattle.der_parser.specs.Formats.{Each, Never, ReadsWhole, Required};
ghost use Rattle.der_parser.specs.Listing.{object_count};
ghost use Rattle.der_parser.specs.Numbers.{AnswersDerNumber, signed, unsigned};
ghost use Rattle.der_parser.specs.Oids.{octets_of};
ghost use Rattle.der_parser.specs.View.{tree};
ghost use Rattle.der_uses.specs.Uses.{Begins, BeginsWithElementOf, BeginsWithTagged, CertificateNumber, CountsItems};
ghost use Rattle.der_uses.specs.Uses.{FindsObject, HasNoNumber, HoldsElements, IsFound};
ghost use Rattle.der_uses.specs.Uses.{IsNotRewritten, IsPair, IsRewritten, NumberOf, TellsMissing, request_tree};

use der_parser::ber::{
    BerObject, BerObjectContent, FaultWriter, Visit, ber_encode_object, parse_ber,
};
use der_parser::cursor::{Cursor, ReadError};
use der_parser::der::{
    Header, Tag, parse_der_i32, parse_der_integer, parse_der_sequence_of_v,
    parse_der_tagged_explicit_g, parse_der_u32,
};
use der_parser::error::{BerError, Err, GenError, IResult, Needed};
use der_parser::nodes::{Element, Listed, Nodes, list_element, list_elements, read_element};
use der_parser::oid::{Oid, OidParseError};
use der_parser::{Rules, parse_der};
use std::alloc::{AllocError, Global};

/// What an input begins with.
#[derive(Drop)]
pub enum Found {
    /// A SEQUENCE of so many items.
    List(usize),
    /// An INTEGER.
    Number(i64),
    /// Something else, with this tag number.
    Other(Tag),
}

/// `parse_der`: the first object of an input.
pub fn first_object(alloc: Global, input: &[u8]) -> Result<Found, Err<BerError>>
    ensures { FindsObject input.now result }
{
    let (_rest, object) = parse_der(alloc, input)?;
    kind_of(&object)
}

fn kind_of(object: &BerObject<'_>) -> Result<Found, Err<BerError>>
    ensures { MatchResult result (IsFound (tree object.now)) (HasNoNumber (tree object.now)) }
{
    match &object.content {
        BerObjectContent::Sequence(items) => Ok(Found::List(items.len())),
        BerObjectContent::Integer(_) => Ok(Found::Number(object.as_i64()?)),
        _ => Ok(Found::Other(object.tag())),
    }
}

/// `Err::Incomplete`: how many octets a client still has to wait for.
pub fn missing_octets(alloc: Global, input: &[u8]) -> Option<usize>
    ensures { TellsMissing input.now result }
{
    match parse_ber(alloc, input) {
        Err(Err::Incomplete(Needed::Size(n))) => Some(n),
        _ => None,
    }
}

/// `to_vec`: what BER reads, written with DER's lengths.
pub fn rewrite_by_der(alloc: Global, input: &[u8]) -> Result<Vec<u8>, GenError>
    ensures written { IfOk result (λ v. IsRewritten input.now v.items) }
    ensures refused { IfErr result (IsNotRewritten input.now) }
{
    match parse_ber(alloc, input) {
        Ok((_rest, object)) => object.to_vec(alloc),
        Err(_) => Ok(Vec::new(alloc)),
    }
}

/// `parse_der_sequence_of_v`: a SEQUENCE OF numbers.
pub fn item_numbers(alloc: Global, input: &[u8]) -> IResult<&[u8], Vec<i32>, BerError>
    ensures { ReadsWhole (BeginsWithElementOf 16 (Each (NumberOf (signed 32)) Rules.Der) input.now)
        (λ x. (map (λ n. n) x.1.items, x.0.now)) (λ e. e ≡ OutOfMemory) result }
{
    parse_der_sequence_of_v(alloc, parse_der_i32).parse(input)
}

/// `parse_der_tagged_explicit_g`: a number inside the explicit tag [0].
pub fn tagged_number(input: &[u8]) -> IResult<&[u8], u32, BerError>
    ensures { ReadsWhole (BeginsWithTagged 0 (NumberOf (unsigned 32)) input.now) (λ x. (pos x.1, x.0.now)) Never
        result }
{
    parse_der_tagged_explicit_g(Tag(0), number_inside).parse(input)
}

fn number_inside<'a>(content: &'a [u8], _header: Header<'a>) -> IResult<&'a [u8], u32, BerError>
    ensures { AnswersDerNumber pos (unsigned 32) content.now result }
{
    parse_der_u32(content)
}

/// `Cursor`: the serial number of a certificate. An error has its offset.
pub fn read_serial_number(certificate: &[u8]) -> Result<u64, ReadError<BerError>>
    ensures { ReadsWhole (Begins (Required CertificateNumber) certificate.now) (λ n. (pos n, tt)) Never result }
{
    let mut fields = Cursor::new(certificate).open_sequence()?.open_sequence()?;
    fields.open_tagged(0)?; // the version
    fields.u64()
}

/// `BerObject::from_seq`: a SEQUENCE of a number and a text.
pub fn make_request<'a>(
    alloc: Global,
    number: &'a [u8],
    text: &'a str,
) -> Result<BerObject<'a>, AllocError>
    ensures { IfOk result (λ x. tree x ≡ request_tree number.now text.now) }
{
    let mut items = Vec::new(alloc);
    items.push(BerObject::from_int_slice(number))?;
    items.push(BerObject::from_obj(BerObjectContent::UTF8String(text)))?;
    Ok(BerObject::from_seq(items))
}

/// `ber_encode_object`: an object written to a writer. The encoder takes no memory.
pub fn write_object(alloc: Global, object: &BerObject<'_>) -> Result<Vec<u8>, GenError>
    ensures octets { IfOk result (λ v. v.items ≡ encoding (tree object.now)) }
    ensures too_large { IsErrOf result GenError.TooLarge ↔ (2 ^ 64 ≤ length (encoding (tree object.now))) }
{
    let mut out = FaultWriter::new(Vec::<u8>::new(alloc));
    ber_encode_object(&mut out, object)?;
    Ok(out.into_inner())
}

/// `as_pretty`: the text of an object.
pub fn print_object(alloc: Global, object: &BerObject<'_>) -> Result<String, AllocError> {
    let printer = object.as_pretty(alloc, 0, 2)?;
    format!(in alloc; "{printer:?}")
}

/// `Oid::from_dotted`: whether an identifier is that of commonName.
pub fn is_common_name(alloc: Global, oid: &Oid<'_>) -> Result<bool, OidParseError>
    ensures { MatchResult result
        (λ b. IsTrue b ↔ (octets_of oid.now ≡ 0x55 ∷ 0x04 ∷ 0x03 ∷ []))
        (λ e. e ≡ OidParseError.OutOfMemory) }
{
    let common_name = Oid::from_dotted(alloc, "2.5.4.3")?;
    Ok(oid.as_bytes() == common_name.as_bytes())
}

/// A visitor that counts objects.
#[derive(Clone, Copy)]
pub struct Depths {
    /// How many objects there are.
    pub objects: u64,
}

impl Visit for Depths {
    ghost use Rattle.std.specs.Prelude.{◌≡◌, ◌+◌, ◌%◌, ◌^◌};

    ghost object_step = { λ s _ _ t. t.objects ≡ (s.objects + 1) % 2 ^ 64 };

    fn visit_ber<'t>(&mut self, _object: &BerObject<'t>, _depth: usize) {
        self.objects = self.objects.wrapping_add(1);
    }
}

/// `Visit`: how many objects are in an object, including itself. The clause of `run` allows fewer, since a function of
/// a visitor may be left empty.
pub fn object_count(object: &BerObject<'_>) -> u64
    ensures { result ≤ object_count (tree object.now) }
{
    let mut counter = Depths { objects: 0 };
    counter.run(object);
    counter.objects
}

/// `list_element`: whether an input is two elements, one inside the other, and nothing more.
pub fn is_pair(input: &[u8]) -> bool
    ensures { IsTrue result ↔ IsPair input.now }
{
    matches!(
        list_element::<Element>(input, Rules::Der, 50, &mut []),
        Some(Listed {
            elements: 2,
            rest: &[]
        })
    )
}

/// `list_elements`: the elements of the octets, in a buffer. None if the octets aren't elements, or the buffer is too
/// small.
pub fn elements_in<'b>(input: &[u8], slots: &'b mut [Element]) -> Option<&'b [Element]>
    ensures { HoldsElements input.now (length slots.old) result }
{
    let count = list_elements(input, Rules::Der, 50, slots)?;
    slots.get(..count)
}

/// Why the items of a list have no largest number.
#[derive(Debug, Drop)]
pub enum NoLargest {
    /// The input doesn't begin with an element.
    Nothing,
    /// An item has no such number.
    Item(BerError),
    /// The buffer is too small.
    TooMany,
}

impl From<BerError> for NoLargest {
    ghost use Rattle.std.specs.Prelude.{◌≡◌};
    ghost use Rattle.der_uses.specs.declared.shown.NoLargest.TheVariants.{Item};

    ghost from_gives = { λ e r. r ≡ Item e };

    fn from(e: BerError) -> NoLargest {
        NoLargest::Item(e)
    }
}

/// `Nodes::new`: the largest number in a list whose elements are read into a buffer.
pub fn largest_item(input: &[u8], elements: &mut [Element]) -> Result<u64, NoLargest> {
    let listed = list_element(input, Rules::Der, 50, elements).ok_or(NoLargest::Nothing)?;
    let nodes = Nodes::new(
        input,
        elements.get(..listed.elements).ok_or(NoLargest::TooMany)?,
    );
    let mut largest = 0;
    for item in nodes.root().ok_or(NoLargest::Nothing)?.items() {
        largest = item.as_u64()?.max(largest);
    }
    Ok(largest)
}

/// `read_element`: how many items the element at the start of an input has. None if there is no element.
pub fn item_count(alloc: Global, input: &[u8]) -> Result<Option<usize>, AllocError>
    ensures { CountsItems input.now result }
{
    let Some((_rest, elements)) = read_element(alloc, input, Rules::Der, 50)? else {
        return Ok(None);
    };
    let nodes = Nodes::new(input, &elements);
    match nodes.root() {
        Some(root) => Ok(Some(root.items().count())),
        None => Ok(None),
    }
}
