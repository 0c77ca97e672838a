//! Objects and their contents.
ghost use Rattle.std.specs.Prelude.{◌≡◌, false, true, None};
ghost use Rattle.std.specs.Option.{option_copied};
ghost use Rattle.der_base.specs.Header.{IsHeader, class_of, is_constructed, number_of, length_of};
ghost use Rattle.der_base.specs.Tree.{node, sequence, set};

use crate::bit_string::BitStringObject;
use der_base::any::Any;
use der_base::header::{Class, Header, Length, Tag};
use der_base::oid::Oid;
use der_base::time::ASN1DateTime;

/// A header and its content (X.690 8.1.1).
#[cycle(ast)]
#[derive(Debug, Drop)]
pub struct BerObject<'a> {
    /// The identifier and the length. The encoder ignores the length and the raw tag.
    pub header: Header<'a>,
    /// The value.
    pub content: BerObjectContent<'a>,
}

/// The value of an object, by its type.
#[cycle(ast)]
#[derive(Debug, Drop)]
pub enum BerObjectContent<'a> {
    /// The type with tag number 0, that of end-of-contents octets (X.690 8.1.5).
    EndOfContent,
    /// BOOLEAN (8.2).
    Boolean(bool),
    /// INTEGER, as its content octets (8.3).
    Integer(&'a [u8]),
    /// BIT STRING, as the number of unused bits in the last octet, and the octets (8.6).
    BitString(u8, BitStringObject<'a>),
    /// OCTET STRING (8.7).
    OctetString(&'a [u8]),
    /// NULL (8.8).
    Null,
    /// ENUMERATED, as its number, which isn't negative (8.4).
    Enum(u64),
    /// OBJECT IDENTIFIER (8.19).
    OID(Oid<'a>),
    /// RELATIVE-OID (8.20).
    RelativeOID(Oid<'a>),
    /// NumericString, as its text (8.23).
    NumericString(&'a str),
    /// VisibleString (8.23).
    VisibleString(&'a str),
    /// PrintableString (8.23).
    PrintableString(&'a str),
    /// IA5String (8.23).
    IA5String(&'a str),
    /// UTF8String (8.23).
    UTF8String(&'a str),
    /// T61String or TeletexString (8.23). Only UTF-8 is read.
    T61String(&'a str),
    /// VideotexString (8.23). Only UTF-8 is read.
    VideotexString(&'a str),
    /// ObjectDescriptor (8.25). Only UTF-8 is read.
    ObjectDescriptor(&'a str),
    /// GraphicString (8.23). Only UTF-8 is read.
    GraphicString(&'a str),
    /// GeneralString (8.23). Only UTF-8 is read.
    GeneralString(&'a str),
    /// BMPString, as its octets: two for each character, the high one first (8.23).
    BmpString(&'a [u8]),
    /// UniversalString, as its octets: four for each character, the highest first (8.23).
    UniversalString(&'a [u8]),
    /// SEQUENCE or SEQUENCE OF, as its items in order (8.9, 8.10).
    Sequence(Vec<BerObject<'a>>),
    /// SET or SET OF, as its items in the order of the encoding (8.11, 8.12).
    Set(Vec<BerObject<'a>>),
    /// UTCTime, as its fields, with the last two digits of the year (8.25, X.680 47).
    UTCTime(ASN1DateTime),
    /// GeneralizedTime, as its fields (8.25, X.680 46).
    GeneralizedTime(ASN1DateTime),
    /// An object that may be absent. If it is, it has no octets.
    Optional(Option<Box<BerObject<'a>>>),
    /// An object inside an explicit tag, with the class and number of the tag (X.690 8.14).
    Tagged(Class, Tag, Box<BerObject<'a>>),
    /// An element of another class or type, as its content octets. No reader looks inside, not even by DER.
    Unknown(Any<'a>),
}

/// An object that was read by DER.
pub type DerObject<'a> = BerObject<'a>;

/// The value of an object that was read by DER.
pub type DerObjectContent<'a> = BerObjectContent<'a>;

impl<'a> BerObject<'a> {
    ghost use Rattle.der_object.specs.View.{content_tree, tree, trees};
    ghost use Rattle.der_object.specs.Objects.{content_number, object_node};
    ghost use Rattle.der_base.specs.Leaf.{is_list};

    /// An object with this header and this content.
    pub fn from_header_and_content(
        header: Header<'a>,
        content: BerObjectContent<'a>,
    ) -> BerObject<'a>
        ensures header { result.header ≡ header.entry }
        ensures content { result.content ≡ content.entry }
    {
        BerObject { header, content }
    }

    /// An object with the universal type of its content. It is constructed if that is SEQUENCE or SET. Its header has a
    /// length of 0 and no raw tag.
    ///
    /// A tagged or unknown content keeps its tag number but not its class. An optional content has the number of the
    /// content inside it, or 0.
    pub fn from_obj(content: BerObjectContent<'a>) -> BerObject<'a>
        ensures header { let n = content_number (content_tree content.entry) in
            IsHeader result.header Class.Universal (is_list n) n (Length.Definite 0) None }
        ensures content { result.content ≡ content.entry }
        ensures tree { tree result ≡ object_node (content_tree content.entry) }
    {
        let tag = content.tag();
        let constructed = tag == Tag::Sequence || tag == Tag::Set;
        let header = Header::new(Class::Universal, constructed, tag, Length::Definite(0));
        BerObject::from_header_and_content(header, content)
    }

    /// An INTEGER with these content octets, made like `from_obj`.
    pub fn from_int_slice(i: &'a [u8]) -> BerObject<'a>
        ensures header { IsHeader result.header Class.Universal false 2 (Length.Definite 0) None }
        ensures content { result.content ≡ BerObjectContent.Integer i.entry }
    {
        BerObject::from_obj(BerObjectContent::Integer(i))
    }

    /// A SEQUENCE of these items, made like `from_obj`.
    ///
    /// ```
    /// let mut items = Vec::new(alloc);
    /// items.push(BerObject::from_int_slice(number))?;
    /// items.push(BerObject::from_obj(BerObjectContent::UTF8String(text)))?;
    /// let request = BerObject::from_seq(items);
    /// ```
    #[tactic(auto, using(crate::proofs::Trees::sequence_tree))]
    pub fn from_seq(l: Vec<BerObject<'a>>) -> BerObject<'a>
        ensures header { IsHeader result.header Class.Universal true 16 (Length.Definite 0) None }
        ensures content { result.content ≡ BerObjectContent.Sequence l.entry }
        ensures tree { tree result ≡ node Class.Universal true 16 (sequence (trees l.entry.items)) }
    {
        BerObject::from_obj(BerObjectContent::Sequence(l))
    }

    /// A SET of these items, made like `from_obj`.
    #[tactic(auto, using(crate::proofs::Trees::set_tree))]
    pub fn from_set(l: Vec<BerObject<'a>>) -> BerObject<'a>
        ensures header { IsHeader result.header Class.Universal true 17 (Length.Definite 0) None }
        ensures content { result.content ≡ BerObjectContent.Set l.entry }
        ensures tree { tree result ≡ node Class.Universal true 17 (set (trees l.entry.items)) }
    {
        BerObject::from_obj(BerObjectContent::Set(l))
    }

    /// This object with other identifier octets in its header, or none. Headers inside it stay as they are.
    pub fn set_raw_tag(self, raw_tag: Option<&'a [u8]>) -> BerObject<'a>
        ensures header { let h = self.entry.header in
            IsHeader result.header (class_of h) (is_constructed h) (number_of h) (length_of h)
            (option_copied raw_tag.entry) }
        ensures content { result.content ≡ self.entry.content }
        ensures tree { tree result ≡ tree self.entry }
    {
        let header = self.header.with_raw_tag(raw_tag);
        BerObject::from_header_and_content(header, self.content)
    }
}

/// Makes an object from its content, like `from_obj`.
impl<'a> From<BerObjectContent<'a>> for BerObject<'a> {
    ghost use Rattle.der_object.specs.Objects.{IsMadeOf};

    ghost from_gives = { λ x o. IsMadeOf x o };

    fn from(content: BerObjectContent<'a>) -> BerObject<'a> {
        BerObject::from_obj(content)
    }
}

/// Makes an object from an OBJECT IDENTIFIER, like `from_obj`.
impl<'a> From<Oid<'a>> for BerObject<'a> {
    ghost use Rattle.der_object.specs.declared.object.BerObjectContent.TheVariants.{OID};
    ghost use Rattle.der_object.specs.Objects.{IsMadeOf};

    ghost from_gives = { λ x o. IsMadeOf (OID x) o };

    fn from(oid: Oid<'a>) -> BerObject<'a> {
        BerObject::from_obj(BerObjectContent::OID(oid))
    }
}

impl BerObjectContent<'_> {
    ghost use Rattle.der_object.specs.View.{content_tree};
    ghost use Rattle.der_object.specs.Objects.{content_number, kept_octets};

    /// The number of the universal type, or of the tag of a tagged or unknown content. An optional content has the
    /// number of the content inside it, or 0.
    fn tag(&self) -> Tag
        ensures { result.0 ≡ content_number (content_tree self.now) }
    {
        match self {
            BerObjectContent::EndOfContent => Tag::EndOfContent,
            BerObjectContent::Boolean(_) => Tag::Boolean,
            BerObjectContent::Integer(_) => Tag::Integer,
            BerObjectContent::BitString(..) => Tag::BitString,
            BerObjectContent::OctetString(_) => Tag::OctetString,
            BerObjectContent::Null => Tag::Null,
            BerObjectContent::Enum(_) => Tag::Enumerated,
            BerObjectContent::OID(_) => Tag::Oid,
            BerObjectContent::RelativeOID(_) => Tag::RelativeOid,
            BerObjectContent::NumericString(_) => Tag::NumericString,
            BerObjectContent::VisibleString(_) => Tag::VisibleString,
            BerObjectContent::PrintableString(_) => Tag::PrintableString,
            BerObjectContent::IA5String(_) => Tag::Ia5String,
            BerObjectContent::UTF8String(_) => Tag::Utf8String,
            BerObjectContent::T61String(_) => Tag::T61String,
            BerObjectContent::VideotexString(_) => Tag::VideotexString,
            BerObjectContent::ObjectDescriptor(_) => Tag::ObjectDescriptor,
            BerObjectContent::GraphicString(_) => Tag::GraphicString,
            BerObjectContent::GeneralString(_) => Tag::GeneralString,
            BerObjectContent::BmpString(_) => Tag::BmpString,
            BerObjectContent::UniversalString(_) => Tag::UniversalString,
            BerObjectContent::Sequence(_) => Tag::Sequence,
            BerObjectContent::Set(_) => Tag::Set,
            BerObjectContent::UTCTime(_) => Tag::UtcTime,
            BerObjectContent::GeneralizedTime(_) => Tag::GeneralizedTime,
            BerObjectContent::Optional(None) => Tag::EndOfContent,
            BerObjectContent::Optional(Some(object)) => object.content.tag(),
            BerObjectContent::Tagged(_, tag, _) => *tag,
            BerObjectContent::Unknown(any) => any.tag(),
        }
    }

    /// The octets of a content that is kept as octets. Any other content has none.
    #[inline]
    pub(crate) fn kept_octets(&self) -> &[u8]
        ensures { result.now ≡ kept_octets (content_tree self.now) }
    {
        match self {
            BerObjectContent::Integer(octets) => octets,
            BerObjectContent::OctetString(octets) => octets,
            BerObjectContent::OID(oid) => oid.as_bytes(),
            BerObjectContent::RelativeOID(oid) => oid.as_bytes(),
            BerObjectContent::NumericString(text) => text.as_bytes(),
            BerObjectContent::VisibleString(text) => text.as_bytes(),
            BerObjectContent::PrintableString(text) => text.as_bytes(),
            BerObjectContent::IA5String(text) => text.as_bytes(),
            BerObjectContent::UTF8String(text) => text.as_bytes(),
            BerObjectContent::T61String(text) => text.as_bytes(),
            BerObjectContent::VideotexString(text) => text.as_bytes(),
            BerObjectContent::ObjectDescriptor(text) => text.as_bytes(),
            BerObjectContent::GraphicString(text) => text.as_bytes(),
            BerObjectContent::GeneralString(text) => text.as_bytes(),
            BerObjectContent::BmpString(octets) => octets,
            BerObjectContent::UniversalString(octets) => octets,
            BerObjectContent::Unknown(any) => any.bytes,
            BerObjectContent::EndOfContent
            | BerObjectContent::Boolean(_)
            | BerObjectContent::BitString(..)
            | BerObjectContent::Null
            | BerObjectContent::Enum(_)
            | BerObjectContent::Sequence(_)
            | BerObjectContent::Set(_)
            | BerObjectContent::UTCTime(_)
            | BerObjectContent::GeneralizedTime(_)
            | BerObjectContent::Optional(_)
            | BerObjectContent::Tagged(..) => &[],
        }
    }
}
